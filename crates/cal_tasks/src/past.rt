//! The last elapse of a timer up to the present (systemd.timer(5), OnCalendar=).

ghost use Rattle.std.specs.Prelude.{◌≡◌, IfOk, None, map, option_map};
ghost use Rattle.cal_plan.specs.rules.ZoneFor.{first_unzoned};
ghost use Rattle.cal_timer.specs.rules.TimerView.{shown};
ghost use Rattle.cal_tasks.specs.computed.LastSearch.{IsLastAfter, IsLastUntil};
ghost use Rattle.cal_tasks.specs.rules.LastElapse.{IsLastOf, timed_lines};
ghost use Rattle.cal_tasks.specs.rules.LoadedElapses.{setting_for};

use crate::at_instant::elapses_at;
use crate::elapses::setting_for;
use crate::present::Present;
use cal_load::LoadedTimer;
use cal_plan::{Instants, PlanFault, merge_of};
use cal_rising::Rising;
use cal_timer::TimerLine;
use cal_zone::Instant;
use std::alloc::{AllocError, Global};

/// The lengths, in seconds, of the ranges up to the present in which the last elapse is searched for: first one hour,
/// and then each time 8 times as long. If none of these ranges has an elapse, all instants since 1970 are searched.
const RANGES: [u32; 7] = [
    3_600,
    28_800,
    230_400,
    1_843_200,
    14_745_600,
    117_964_800,
    943_718_400,
];

/// Returns the last instant, at or before the present, at which one of the timer's expressions elapses and none of
/// these exceptions does. Returns `None` if there is no such instant.
///
/// The timer must have every zone that these exceptions name. Fails only if allocation fails.
pub(crate) fn last_elapse(
    alloc: Global,
    at: Present<'_>,
    timer: &LoadedTimer,
    exceptions: &[TimerLine],
) -> Result<Option<Instant>, AllocError>
    requires { first_unzoned (setting_for at timer.now) (map shown exceptions.now) ≡ None }
    ensures { IfOk result (λ last. IsLastOf at.entry timer.now (timed_lines at.entry timer.now (map shown exceptions.now))
        (option_map (λ instant. instant.secs) last)) }
{
    for seconds in RANGES {
        let Some(base) = Instant::new(at.now.secs() - i64::from(seconds)) else {
            return last_since_1970(alloc, at, timer, exceptions);
        };
        if let Some(last) = last_after(alloc, at, timer, exceptions, base)? {
            return Ok(Some(last));
        }
    }
    last_since_1970(alloc, at, timer, exceptions)
}

/// Returns what [`last_elapse`] returns, by searching all instants up to the present.
fn last_since_1970(
    alloc: Global,
    at: Present<'_>,
    timer: &LoadedTimer,
    exceptions: &[TimerLine],
) -> Result<Option<Instant>, AllocError>
    requires { first_unzoned (setting_for at timer.now) (map shown exceptions.now) ≡ None }
    ensures { IfOk result (λ last. IsLastOf at.entry timer.now (timed_lines at.entry timer.now (map shown exceptions.now))
        (option_map (λ instant. instant.secs) last)) }
{
    let Some(first) = Instant::new(0) else {
        unreachable!()
    };
    if let Some(last) = last_after(alloc, at, timer, exceptions, first)? {
        return Ok(Some(last));
    }
    if elapses_at(setting_for(at, timer), timer.lines(), exceptions, first) {
        Ok(Some(first))
    } else {
        Ok(None)
    }
}

/// Returns what [`last_elapse`] returns, or `None` if this instant isn't after `base`.
pub(crate) fn last_after(
    alloc: Global,
    at: Present<'_>,
    timer: &LoadedTimer,
    exceptions: &[TimerLine],
    base: Instant,
) -> Result<Option<Instant>, AllocError>
    requires { first_unzoned (setting_for at timer.now) (map shown exceptions.now) ≡ None }
    ensures { IfOk result (λ last. IsLastAfter at.entry timer.now (timed_lines at.entry timer.now (map shown exceptions.now)) base.secs
        (option_map (λ instant. instant.secs) last)) }
{
    match merge_of(
        alloc,
        setting_for(at, timer),
        base,
        timer.lines(),
        exceptions,
    ) {
        Ok(merge) => Ok(last_until(&mut Instants::new(merge), at.now)),
        Err(PlanFault::NoMemory) => Err(AllocError),
        // A loaded timer has every zone that it names.
        Err(PlanFault::NoSuchZone(_)) => unreachable!(),
    }
}

/// Returns the last of the elapses that is at or before `until`.
fn last_until<S: Rising>(elapses: &mut Instants<S>, until: Instant) -> Option<Instant>
    ensures { IsLastUntil until.secs elapses.old (option_map (λ instant. instant.secs) result) }
{
    let mut last = None;
    while let Some(instant) = elapses.next() {
        if instant.secs() > until.secs() {
            return last;
        }
        last = Some(instant);
    }
    last
}
