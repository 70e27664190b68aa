//! The error of the functions that read what an answer depends on.

ghost use Rattle.std.specs.Prelude.{◌≡◌};
ghost use Rattle.cal_answers.specs.declared.fault.ReadFault.TheVariants.{NoMemory};

use std::alloc::{AllocError, AllocFailed, Global};

/// Why reading all that an answer depends on failed.
#[derive(Drop)]
pub(crate) enum ReadFault {
    /// The question can't be answered, for this reason.
    Unanswerable(String),
    /// Out of memory. Whether the question can be answered isn't known.
    NoMemory,
}

impl From<AllocError> for ReadFault {
    ghost from_gives = { λ _ fault. fault ≡ NoMemory };

    fn from(_refused: AllocError) -> ReadFault {
        ReadFault::NoMemory
    }
}

impl<T: Drop> From<AllocFailed<T>> for ReadFault {
    ghost from_gives = { λ _ fault. fault ≡ NoMemory };

    fn from(_refused: AllocFailed<T>) -> ReadFault {
        ReadFault::NoMemory
    }
}

impl ReadFault {
    /// Returns the error that the question can't be answered, for this reason. Returns `NoMemory` if allocation fails.
    pub(crate) fn reason(alloc: Global, reason: &str) -> ReadFault {
        match String::from_str(alloc, reason) {
            Ok(reason) => ReadFault::Unanswerable(reason),
            Err(_) => ReadFault::NoMemory,
        }
    }
}
