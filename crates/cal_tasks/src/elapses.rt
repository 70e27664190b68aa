//! The elapses of one timer (systemd.timer(5), OnCalendar=).

ghost use Rattle.std.specs.Prelude.{◌≡◌, IfOk, map, take};
ghost use Rattle.cal_zone.specs.rules.Setting.{setting_seen};
ghost use Rattle.cal_tasks.specs.rules.LoadedElapses.{elapses_in, setting_for};

use crate::present::Present;
use cal_elapse::Elapses;
use cal_load::LoadedTimer;
use cal_plan::{Instants, PlanFault, merge_of};
use cal_rising::{Merge, Rising};
use cal_zone::{Instant, Setting};
use std::alloc::{AllocError, Global};

/// Returns the first `count` elapses of a timer after the present, or all of them if there are fewer. Fails only if
/// allocation fails.
pub(crate) fn first_elapses(
    alloc: Global,
    at: Present<'_>,
    timer: &LoadedTimer,
    count: u32,
) -> Result<Vec<Instant>, AllocError>
    ensures { IfOk result (λ elapses. map (λ instant. instant.secs) elapses.items
        ≡ take count (elapses_in at.entry at.entry.now.secs timer.now)) }
{
    let mut elapses = elapses_in(alloc, at, at.now, timer)?;
    take_first(alloc, &mut elapses, count)
}

/// Creates the iterator over the elapses of a timer after `base`. Fails only if allocation fails.
pub(crate) fn elapses_in<'a>(
    alloc: Global,
    at: Present<'a>,
    base: Instant,
    timer: &'a LoadedTimer,
) -> Result<Instants<Merge<Elapses<'a>>>, AllocError>
    ensures { IfOk result (λ elapses. elapses ≡ elapses_in at.entry base.secs timer.now) }
{
    match merge_of(
        alloc,
        setting_for(at, timer),
        base,
        timer.lines(),
        timer.exceptions(),
    ) {
        Ok(merge) => Ok(Instants::new(merge)),
        Err(PlanFault::NoMemory) => Err(AllocError),
        // A loaded timer has every zone that it names.
        Err(PlanFault::NoSuchZone(_)) => unreachable!(),
    }
}

/// Returns the [`Setting`] of a timer: the present, the local zone, and the zones that were loaded for the timer.
pub(crate) fn setting_for<'a>(at: Present<'a>, timer: &'a LoadedTimer) -> Setting<'a>
    ensures seen { setting_seen result ≡ setting_for at.entry timer.now }
    ensures now { result.now ≡ at.entry.now }
{
    Setting {
        now: at.now,
        local: at.local,
        zones: &timer.zones,
    }
}

/// Takes the first `count` instants from a source, or all of them if there are fewer.
pub(crate) fn take_first<S: Rising>(
    alloc: Global,
    source: &mut Instants<S>,
    count: u32,
) -> Result<Vec<Instant>, AllocError>
    ensures { IfOk result (λ first. map (λ instant. instant.secs) first.items ≡ take count source.old) }
{
    let mut first = Vec::new(alloc);
    for _ in 0..count {
        let Some(instant) = source.next() else {
            return Ok(first);
        };
        first.push(instant)?;
    }
    Ok(first)
}
