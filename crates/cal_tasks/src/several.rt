//! Several timers together: the next elapse of each, all elapses in a range, and how two timers differ
//! (systemd.timer(5), OnCalendar=).

ghost use Rattle.std.specs.Prelude.{◌≡◌, ◌-ℤ◌, pos, IfOk, IsPermutation, IsSorted, map, option_map};
ghost use Rattle.cal_tasks.specs.rules.Difference.{IsDifference, first_only_in};
ghost use Rattle.cal_tasks.specs.rules.SeveralTimers.{by_instant, elapse_seen, ended, next_of_each, range_of_each};
ghost use Rattle.cal_tasks.specs.rules.LoadedElapses.{elapses_in};

use crate::at_instant::is_elapse;
use crate::difference::{Difference, first_only};
use crate::elapses::elapses_in;
use crate::next::{NextOfAll, next_of_all};
use crate::order::sort_elapses;
use crate::present::Present;
use crate::range::add_range;
use crate::timer_elapse::TimerElapse;
use cal_elapse::Elapses;
use cal_load::LoadedTimer;
use cal_plan::Instants;
use cal_rising::Merge;
use cal_zone::Instant;
use std::alloc::{AllocError, Global};

/// Returns the next elapse of each timer after the present, soonest first, and the timers that don't elapse any more.
/// Fails only if allocation fails.
pub(crate) fn next_of_timers(
    alloc: Global,
    at: Present<'_>,
    timers: &[LoadedTimer],
) -> Result<NextOfAll, AllocError>
    ensures sorted { IfOk result (λ next. IsSorted by_instant next.soonest.items) }
    ensures soonest { IfOk result (λ next.
        IsPermutation (next_of_each (map (elapses_in at.entry at.entry.now.secs) timers.now)) (map elapse_seen next.soonest.items)) }
    ensures never { IfOk result (λ next.
        next.never.items ≡ ended (map (elapses_in at.entry at.entry.now.secs) timers.now)) }
{
    let mut elapses = elapses_of_timers(alloc, at, at.now, timers)?;
    next_of_all(alloc, elapses.as_mut_slice())
}

/// Returns all elapses of the timers that are at or after `from` and before `before`, in increasing order, each with
/// the index of its timer. Elapses at the same instant are in the order of their timers. Fails only if allocation fails.
pub(crate) fn elapses_between(
    alloc: Global,
    at: Present<'_>,
    from: Instant,
    before: Instant,
    timers: &[LoadedTimer],
) -> Result<Vec<TimerElapse>, AllocError>
    ensures sorted { IfOk result (λ found. IsSorted by_instant found.items) }
    ensures all { IfOk result (λ found. IsPermutation
        (range_of_each from.secs before.secs (map (elapses_in at.entry (from.secs -ℤ pos 1)) timers.now))
        (map elapse_seen found.items)) }
{
    let mut found = ranges_of_timers(alloc, at, from, before, timers)?;
    sort_elapses(&mut found);
    Ok(found)
}

/// Returns, for each of two timers, the first instant after the present, through 2199, at which it elapses and the
/// other doesn't.
///
/// The call computes elapses until it finds these instants. It takes longest if the timers elapse at the same instants:
/// then it computes all their elapses through 2199, once for each field of the result. Fails only if allocation fails.
pub(crate) fn difference_of(
    alloc: Global,
    at: Present<'_>,
    one: &LoadedTimer,
    other: &LoadedTimer,
) -> Result<Difference, AllocError>
    ensures { IfOk result (IsDifference
        (elapses_in at.entry at.entry.now.secs one.now)
        (elapses_in at.entry at.entry.now.secs other.now)) }
{
    let only_one = first_only_of(alloc, at, one, other)?;
    let only_other = first_only_of(alloc, at, other, one)?;
    Ok(Difference {
        only_one,
        only_other,
    })
}

/// Returns the first instant after the present at which the timer `one` elapses and the timer `other` doesn't, or
/// `None` if there is no such instant.
fn first_only_of(
    alloc: Global,
    at: Present<'_>,
    one: &LoadedTimer,
    other: &LoadedTimer,
) -> Result<Option<Instant>, AllocError>
    ensures { IfOk result (λ first. option_map (λ instant. instant.secs) first ≡ first_only_in
        (elapses_in at.entry at.entry.now.secs one.now)
        (elapses_in at.entry at.entry.now.secs other.now)) }
{
    let these = elapses_in(alloc, at, at.now, one)?;
    let those = elapses_in(alloc, at, at.now, other)?;
    first_only(alloc, these, those)
}

/// Creates one iterator for each timer, over the timer's elapses after `base`.
fn elapses_of_timers<'a>(
    alloc: Global,
    at: Present<'a>,
    base: Instant,
    timers: &'a [LoadedTimer],
) -> Result<Vec<Instants<Merge<Elapses<'a>>>>, AllocError>
    ensures { IfOk result (λ all. all.items ≡ map (elapses_in at.entry base.secs) timers.now) }
{
    let mut all = Vec::new(alloc);
    for timer in timers {
        let elapses = elapses_in(alloc, at, base, timer)?;
        all.reserve(1)?;
        all.push_reserved(elapses);
    }
    Ok(all)
}

/// Returns the elapses of the timers that are at or after `from` and before `before`: first those of the first timer,
/// then those of the second timer, and so on.
fn ranges_of_timers(
    alloc: Global,
    at: Present<'_>,
    from: Instant,
    before: Instant,
    timers: &[LoadedTimer],
) -> Result<Vec<TimerElapse>, AllocError>
    ensures { IfOk result (λ found. map elapse_seen found.items
        ≡ range_of_each from.secs before.secs (map (elapses_in at.entry (from.secs -ℤ pos 1)) timers.now)) }
{
    let mut found = Vec::new(alloc);
    for (index, timer) in timers.iter().enumerate() {
        let mut elapses = elapses_in(alloc, at, from, timer)?;
        let elapses_at_from = is_elapse(at, timer, from);
        add_range(
            &mut found,
            index,
            elapses_at_from,
            &mut elapses,
            from,
            before,
        )?;
    }
    Ok(found)
}
