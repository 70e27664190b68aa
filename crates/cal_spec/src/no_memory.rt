//! Conversion of allocation failures to [`SpecFault::NoMemory`].

ghost use Rattle.std.specs.Prelude.{◌≡◌};
ghost use Rattle.cal_spec.specs.declared.spec_fault.SpecFault.TheVariants.{NoMemory};

use crate::SpecFault;
use std::alloc::{AllocError, AllocFailed};

impl<T: Drop> From<AllocFailed<T>> for SpecFault {
    ghost from_gives = { λ _ fault. fault ≡ NoMemory };

    fn from(_refused: AllocFailed<T>) -> SpecFault {
        SpecFault::NoMemory
    }
}

impl From<AllocError> for SpecFault {
    ghost from_gives = { λ _ fault. fault ≡ NoMemory };

    fn from(_refused: AllocError) -> SpecFault {
        SpecFault::NoMemory
    }
}
