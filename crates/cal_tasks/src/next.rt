//! Finding which of several timers elapses next.

ghost use Rattle.std.specs.Prelude.{◌≡◌, IfOk, map, IsPermutation, IsSorted};
ghost use Rattle.cal_tasks.specs.rules.SeveralTimers.{by_instant, elapse_seen, ended, next_of_each};

use crate::order::sort_elapses;
use crate::timer_elapse::TimerElapse;
use cal_plan::Instants;
use cal_rising::{NoMemory, Rising};
use std::alloc::Global;

/// The next elapse of each of several timers.
#[derive(Drop)]
pub struct NextOfAll {
    /// The next elapse of each timer that has one, soonest first. Timers that elapse at the same instant are in the
    /// order given.
    pub soonest: Vec<TimerElapse>,
    /// The indices of the timers that don't elapse any more, in the order given.
    pub never: Vec<usize>,
}

/// Takes the next elapse of each timer, and returns these elapses sorted, soonest first.
///
/// Each timer is given as the source of its elapses. Fails with `NoMemory` if allocation fails.
pub(crate) fn next_of_all<S: Rising>(
    alloc: Global,
    timers: &mut [Instants<S>],
) -> Result<NextOfAll, NoMemory>
    ensures sorted { IfOk result (λ next. IsSorted by_instant next.soonest.items) }
    ensures soonest { IfOk result (λ next. IsPermutation (next_of_each timers.old) (map elapse_seen next.soonest.items)) }
    ensures never { IfOk result (λ next. next.never.items ≡ ended timers.old) }
{
    let mut next = take_next(alloc, timers)?;
    sort_elapses(&mut next.soonest);
    Ok(next)
}

/// Takes the next elapse of each timer, and returns these elapses in the order of the timers.
fn take_next<S: Rising>(alloc: Global, timers: &mut [Instants<S>]) -> Result<NextOfAll, NoMemory>
    ensures soonest { IfOk result (λ next. map elapse_seen next.soonest.items ≡ next_of_each timers.old) }
    ensures never { IfOk result (λ next. next.never.items ≡ ended timers.old) }
{
    let mut soonest = Vec::new(alloc);
    let mut never = Vec::new(alloc);
    for (timer, elapses) in timers.iter_mut().enumerate() {
        match elapses.next() {
            Some(instant) => soonest.push(TimerElapse { instant, timer })?,
            None => never.push(timer)?,
        }
    }
    Ok(NextOfAll { soonest, never })
}
