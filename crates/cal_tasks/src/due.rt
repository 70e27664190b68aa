//! Whether the run of a service that its timer starts is due. The run isn't due if it can only stand for elapses of the
//! timer's expressions that are exceptions (systemd.timer(5), OnCalendar=).

ghost use Rattle.std.specs.Prelude.{◌≡◌, ◌↔◌, ◌<ℤ◌, ◌≤ℤ◌, ◌+ℤ◌, ℤ, [], pos, IfOk, MatchOption, option_map, true};
ghost use Rattle.cal_zone.specs.rules.Instant.{IsInstant};
ghost use Rattle.cal_tasks.specs.computed.LastSearch.{IsLastAfter};
ghost use Rattle.cal_tasks.specs.rules.DueRun.{HasUnexcepted, IsDueRun, IsExcepted, IsUnwanted, IsWithin, MayCatchUp, MayStartAfter, MayStartWithin, is_after};
ghost use Rattle.cal_tasks.specs.rules.LastElapse.{IsLastElapse, IsLastOf, timed_exceptions};

use crate::at_instant::has_any;
use crate::elapses::setting_for;
use crate::past::{last_after, last_elapse};
use crate::present::Present;
use cal_load::{LoadedTimer, RunTiming};
use cal_zone::Instant;
use std::alloc::{AllocError, Global};

/// When the machine started, as far as [`due_run`] considers it.
#[derive(Clone, Copy)]
pub enum BootTime {
    /// The run doesn't make up for an elapse that was missed while the machine was off.
    NotConsidered,
    /// The time isn't known.
    Unknown,
    /// In whole seconds of Unix time, rounded down.
    At(i64),
}

/// Whether a run is due. The instant is the last one, at or before the time of the run, at which an expression of the
/// timer elapses. `None` if there is no such instant.
#[derive(Clone, Copy)]
pub enum DueRun {
    /// The run is due.
    Due(Option<Instant>),
    /// The run is due only because it may make up for an earlier elapse, which was missed while the machine was off. An
    /// exception elapses at this instant.
    CatchesUp(Instant),
    /// The run isn't due: an exception elapses at this instant.
    Excepted(Instant),
}

/// Returns whether the run that the timer starts at the present is due. `timing` is that of the timer
/// ([`cal_load::run_timing`]).
///
/// The run can stand for the elapses of the timer's expressions in the last `timing.reach` seconds, and for the last
/// elapse. It isn't due if all of these are exceptions, unless the timer has other triggers and no elapse in these
/// seconds, or is persistent and the run may make up for an elapse before the machine started.
///
/// Fails only if allocation fails.
pub fn due_run(
    alloc: Global,
    at: Present<'_>,
    timer: &LoadedTimer,
    timing: RunTiming,
    boot: BootTime,
) -> Result<DueRun, AllocError>
    ensures { IfOk result (IsDueRun at.entry timer.now timing boot) }
{
    let Some(last) = last_elapse(alloc, at, timer, &[])? else {
        return Ok(DueRun::Due(None));
    };
    if !is_unwanted(alloc, at, timer, timing, last)? {
        return Ok(DueRun::Due(Some(last)));
    }
    if may_catch_up(at, timing, boot, last) {
        Ok(DueRun::CatchesUp(last))
    } else {
        Ok(DueRun::Excepted(last))
    }
}

/// Returns whether nobody wants the run, by the elapses that it can stand for. `last` is the last elapse.
fn is_unwanted(
    alloc: Global,
    at: Present<'_>,
    timer: &LoadedTimer,
    timing: RunTiming,
    last: Instant,
) -> Result<bool, AllocError>
    requires { IsLastElapse at timer.now [] last.secs }
    ensures { IfOk result (λ unwanted. (unwanted ≡ true) ↔ IsUnwanted at.entry timer.now timing) }
{
    if !is_excepted(at, timer, last) {
        return Ok(false);
    }
    if !is_by_expression(at, timing, last) {
        return Ok(false);
    }
    let found = has_unexcepted(alloc, at, timer, timing.reach)?;
    Ok(!found)
}

/// Returns whether an exception of the timer elapses at `instant`.
fn is_excepted(at: Present<'_>, timer: &LoadedTimer, instant: Instant) -> bool
    ensures { (result ≡ true) ↔ IsExcepted at.entry timer.now instant.secs }
{
    has_any(setting_for(at, timer), timer.exceptions(), instant)
}

/// Returns whether an expression started the run, if it isn't known which trigger of the timer did: whether there is no
/// other trigger, or `last`, the last elapse, is one for which the run can start.
fn is_by_expression(at: Present<'_>, timing: RunTiming, last: Instant) -> bool
    ensures { (result ≡ true) ↔ (timing.has_other_triggers ≡ true → IsWithin at.entry timing.reach last.secs) }
{
    !timing.has_other_triggers || is_within(at, timing.reach, last.secs())
}

/// Returns whether this second of Unix time is at most `reach` seconds before the present.
fn is_within(at: Present<'_>, reach: Option<u64>, secs: i64) -> bool
    ensures { (result ≡ true) ↔ IsWithin at.entry reach secs }
{
    match reach {
        Some(reach) => at.now.secs() <= secs || at.now.secs().abs_diff(secs) <= reach,
        None => true,
    }
}

/// Returns the last instant that is more than `reach` seconds before the present, or `None` if no instant is.
fn before_window(at: Present<'_>, reach: Option<u64>) -> Option<Instant>
    ensures { MatchOption result
        ((secs : ℤ) → IsInstant secs → IsWithin at.entry reach secs)
        (λ base. (secs : ℤ) → (base.secs <ℤ secs) ↔ IsWithin at.entry reach secs) }
{
    match reach {
        Some(seconds) => before_seconds(at, seconds),
        None => None,
    }
}

/// Returns the instant `seconds` and one more second before the present, or `None` if it would be before 1970.
fn before_seconds(at: Present<'_>, seconds: u64) -> Option<Instant>
    ensures { MatchOption result
        (at.entry.now.secs ≤ℤ pos seconds)
        (λ base. (base.secs +ℤ pos seconds) +ℤ pos 1 ≡ at.entry.now.secs) }
{
    let now = at.now.secs();
    if seconds >= now.unsigned_abs() {
        return None;
    }
    Instant::new(now - seconds as i64 - 1)
}

/// Returns whether the timer, with its exceptions, has an elapse in the last `reach` seconds.
fn has_unexcepted(
    alloc: Global,
    at: Present<'_>,
    timer: &LoadedTimer,
    reach: Option<u64>,
) -> Result<bool, AllocError>
    ensures { IfOk result (λ found. (found ≡ true) ↔ HasUnexcepted at.entry timer.now reach) }
{
    let Some(base) = before_window(at, reach) else {
        let last = last_unexcepted(alloc, at, timer)?;
        return Ok(last.is_some());
    };
    let last = last_unexcepted_after(alloc, at, timer, base)?;
    Ok(is_after(base, last))
}

fn is_after(base: Instant, last: Option<Instant>) -> bool
    ensures { result ≡ is_after base.secs (option_map (λ instant. instant.secs) last) }
{
    match last {
        Some(last) => base.secs() < last.secs(),
        None => false,
    }
}

/// Returns the last elapse of the timer, with its exceptions, up to the present.
fn last_unexcepted(
    alloc: Global,
    at: Present<'_>,
    timer: &LoadedTimer,
) -> Result<Option<Instant>, AllocError>
    ensures { IfOk result (λ last. IsLastOf at.entry timer.now (timed_exceptions at.entry timer.now)
        (option_map (λ instant. instant.secs) last)) }
{
    last_elapse(alloc, at, timer, timer.exceptions())
}

/// Returns what [`last_unexcepted`] returns, or `None` if this instant isn't after `base`.
fn last_unexcepted_after(
    alloc: Global,
    at: Present<'_>,
    timer: &LoadedTimer,
    base: Instant,
) -> Result<Option<Instant>, AllocError>
    ensures { IfOk result (λ last. IsLastAfter at.entry timer.now (timed_exceptions at.entry timer.now) base.secs
        (option_map (λ instant. instant.secs) last)) }
{
    last_after(alloc, at, timer, timer.exceptions(), base)
}

/// Returns whether the run may make up for an earlier elapse than `last`, the last one: whether the timer is persistent,
/// and the machine may have started at `last` or later, or so shortly before the run that the run can be as late.
fn may_catch_up(at: Present<'_>, timing: RunTiming, boot: BootTime, last: Instant) -> bool
    ensures { (result ≡ true) ↔ MayCatchUp at.entry timing boot last.secs }
{
    timing.is_persistent
        && (may_start_after(boot, last) || may_start_within(at, timing.reach, boot))
}

fn may_start_after(boot: BootTime, last: Instant) -> bool
    ensures { (result ≡ true) ↔ MayStartAfter boot last.secs }
{
    match boot {
        BootTime::NotConsidered => false,
        BootTime::Unknown => true,
        BootTime::At(secs) => last.secs() <= secs,
    }
}

/// Returns whether the machine may have started at most `reach` seconds before the present.
fn may_start_within(at: Present<'_>, reach: Option<u64>, boot: BootTime) -> bool
    ensures { (result ≡ true) ↔ MayStartWithin at.entry reach boot }
{
    match boot {
        BootTime::NotConsidered => false,
        BootTime::Unknown => true,
        BootTime::At(secs) => is_within(at, reach, secs),
    }
}
