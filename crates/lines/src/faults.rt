// Why a line gives no command.
ghost use Rattle.lines.specs.declared.faults.Misread.TheVariants.{Memory};
ghost use Rattle.std.specs.Prelude.{◌≡◌, alloc_error};

use std::alloc::{AllocError, AllocFailed};

#[derive(Clone, Copy, PartialEq, Eq)]
pub enum Misread {
    // It is none of the lines that are known.
    Unreadable,
    // There is no memory for its lists.
    Memory(AllocError),
}

impl From<AllocError> for Misread {
    ghost from_gives = { λ e r. r ≡ Memory e };

    fn from(error: AllocError) -> Misread {
        Misread::Memory(error)
    }
}

impl<T: Drop> From<AllocFailed<T>> for Misread {
    ghost from_gives = { λ _ r. r ≡ Memory alloc_error };

    fn from(error: AllocFailed<T>) -> Misread {
        Misread::Memory(AllocError::from(error))
    }
}
