//! Conversion of allocation failures to [`FieldFault::NoMemory`] and [`CronFault::NoMemory`].

ghost use Rattle.std.specs.Prelude.{◌≡◌};
ghost use Rattle.cal_cron.specs.declared.field_fault.FieldFault.TheVariants.{NoMemory};

use crate::{CronFault, FieldFault};
use std::alloc::{AllocError, AllocFailed};

impl<T: Drop> From<AllocFailed<T>> for FieldFault {
    ghost from_gives = { λ _ fault. fault ≡ NoMemory };

    fn from(_refused: AllocFailed<T>) -> FieldFault {
        FieldFault::NoMemory
    }
}

impl From<AllocError> for FieldFault {
    ghost from_gives = { λ _ fault. fault ≡ NoMemory };

    fn from(_refused: AllocError) -> FieldFault {
        FieldFault::NoMemory
    }
}

impl<T: Drop> From<AllocFailed<T>> for CronFault {
    ghost use Rattle.cal_cron.specs.declared.cron_fault.CronFault.TheVariants.{NoMemory};

    ghost from_gives = { λ _ fault. fault ≡ NoMemory };

    fn from(_refused: AllocFailed<T>) -> CronFault {
        CronFault::NoMemory
    }
}

impl From<AllocError> for CronFault {
    ghost use Rattle.cal_cron.specs.declared.cron_fault.CronFault.TheVariants.{NoMemory};

    ghost from_gives = { λ _ fault. fault ≡ NoMemory };

    fn from(_refused: AllocError) -> CronFault {
        CronFault::NoMemory
    }
}
