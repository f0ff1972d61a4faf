// What can go wrong in the demonstration of layouts: the output, the memory, or a layout that refuses.
use std::alloc::{AllocError, AllocFailed};
use std::io;
use texts::Refusal;

// The evening's demonstration has an enum like this one: a library for the two would be longer than both.
#[derive(Debug, Drop)]
pub enum Fault {
    Output(io::Error),
    Memory,
    Undescribed(Refusal),
}

impl From<io::Error> for Fault {
    fn from(error: io::Error) -> Fault {
        Fault::Output(error)
    }
}

impl From<AllocError> for Fault {
    fn from(_error: AllocError) -> Fault {
        Fault::Memory
    }
}

impl<T: Drop> From<AllocFailed<T>> for Fault {
    fn from(_error: AllocFailed<T>) -> Fault {
        Fault::Memory
    }
}

impl From<Refusal> for Fault {
    fn from(refusal: Refusal) -> Fault {
        Fault::Undescribed(refusal)
    }
}
