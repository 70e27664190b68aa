//! Sorting the elapses of several timers by instant.

ghost use Rattle.std.specs.Prelude.{IsPermutation, IsSorted};
ghost use Rattle.cal_tasks.specs.rules.SeveralTimers.{by_instant};

use crate::timer_elapse::TimerElapse;

/// Sorts elapses by instant. Elapses at the same instant are sorted by the index of the timer.
pub(crate) fn sort_elapses(elapses: &mut Vec<TimerElapse>)
    ensures sorted { IsSorted by_instant elapses.new.items }
    ensures same { IsPermutation elapses.old.items elapses.new.items }
{
    elapses.sort_unstable_by_key(|elapse| (elapse.instant.secs(), elapse.timer));
}
