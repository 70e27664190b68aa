//! Why the elapses of expressions and exceptions can't be computed.

ghost use Rattle.std.specs.Prelude.{◌≡◌};
ghost use Rattle.cal_plan.specs.declared.plan_fault.PlanFault.TheVariants.{NoMemory};

use std::alloc::{AllocError, AllocFailed};

/// Why the elapses of expressions and exceptions can't be computed.
#[derive(Clone, Copy)]
pub enum PlanFault {
    /// The expression or exception on the line with this number (counted from 1) names a zone that is neither `UTC` nor
    /// in the zone table.
    NoSuchZone(u32),
    /// Allocation failed. [`crate::merge_of`] allocates only once it has found the zones of all expressions and
    /// exceptions.
    NoMemory,
}

impl From<AllocError> for PlanFault {
    ghost from_gives = { λ _ fault. fault ≡ NoMemory };

    fn from(_refused: AllocError) -> PlanFault {
        PlanFault::NoMemory
    }
}

impl<T: Drop> From<AllocFailed<T>> for PlanFault {
    ghost from_gives = { λ _ fault. fault ≡ NoMemory };

    fn from(_refused: AllocFailed<T>) -> PlanFault {
        PlanFault::NoMemory
    }
}
