// What can go wrong in the demonstration: the output, the memory, or a host that refuses.
use crate::packing::Stopped;
use host::Refusal;
use std::alloc::{AllocError, AllocFailed};
use std::io;

// The layouts' demonstration has an enum like this one: a library for the two would be longer than both.
#[derive(Debug, Drop)]
pub enum Fault {
    Output(io::Error),
    Memory,
    Refused(Refusal),
    Stopped(Stopped),
}

impl From<io::Error> for Fault {
    fn from(error: io::Error) -> Fault {
        Fault::Output(error)
    }
}

impl From<AllocError> for Fault {
    fn from(_error: AllocError) -> Fault {
        Fault::Memory
    }
}

impl<T: Drop> From<AllocFailed<T>> for Fault {
    fn from(_error: AllocFailed<T>) -> Fault {
        Fault::Memory
    }
}

impl From<Refusal> for Fault {
    fn from(refusal: Refusal) -> Fault {
        Fault::Refused(refusal)
    }
}

impl From<Stopped> for Fault {
    fn from(stopped: Stopped) -> Fault {
        Fault::Stopped(stopped)
    }
}
