//! The first instants at which only one of two timers elapses.

ghost use Rattle.std.specs.Prelude.{◌≡◌, IfOk, option_map};
ghost use Rattle.cal_tasks.specs.rules.Difference.{first_only_in};

use cal_plan::Instants;
use cal_rising::{Merge, NoMemory, Rising};
use cal_zone::Instant;
use std::alloc::Global;

/// The first instants in a range at which only one of two timers elapses. If both fields are `None`, the timers elapse
/// at the same instants in this range.
#[derive(Clone, Copy)]
pub struct Difference {
    /// The first instant at which the first timer elapses and the second doesn't.
    pub only_one: Option<Instant>,
    /// The first instant at which the second timer elapses and the first doesn't.
    pub only_other: Option<Instant>,
}

/// Returns the first instant that `one` has yet to return and that `other` doesn't return. Returns `None` if there is
/// no such instant.
///
/// Fails with `NoMemory` if allocation fails.
pub(crate) fn first_only<S: Rising + Drop>(
    alloc: Global,
    one: Instants<S>,
    other: Instants<S>,
) -> Result<Option<Instant>, NoMemory>
    ensures { IfOk result (λ first. option_map (λ instant. instant.secs) first ≡ first_only_in one other) }
{
    let mut merge = Merge::new(alloc);
    if let Err((_, refused)) = merge.add(one.into_inner()) {
        return Err(refused);
    }
    if let Err((_, refused)) = merge.add_except(other.into_inner()) {
        return Err(refused);
    }
    Ok(Instants::new(merge).next())
}
