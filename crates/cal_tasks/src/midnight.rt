//! Expressions for which systemd 252 fails on the day before a midnight that clocks skip.

ghost use Rattle.std.specs.Prelude.{◌≡◌, ◌<◌, ◌≤◌, ◌*◌, pos};
ghost use Rattle.cal_civil.specs.rules.LocalSecond.{days_in_all, seconds_per_day};
ghost use Rattle.cal_plan.specs.rules.TimerElapses.{zone_or_utc};
ghost use Rattle.cal_timer.specs.rules.TimerView.{shown};
ghost use Rattle.cal_zone.specs.rules.Setting.{setting_seen};
ghost use Rattle.cal_zone.specs.rules.Zone.{zone_of};
ghost use Rattle.cal_tasks.specs.rules.LoadedElapses.{setting_for};
ghost use Rattle.cal_tasks.specs.rules.Midnight.{is_of_midnight, is_skipped, next_day, skips_midnight, stops_at_midnight};

use crate::at_instant::zone_or_utc;
use crate::elapses::setting_for;
use crate::present::Present;
use cal_civil::DAY;
use cal_lint::{OpenStepFlaw, open_step_flaw};
use cal_load::LoadedTimer;
use cal_timer::TimerLine;
use cal_zone::{Instant, Setting, Zone, place};

/// The number of nights that are examined: those of three years. Summer time starts once a year, so one year would do
/// but for zones that suspend it for a year or two.
const MAX_NIGHTS: u32 = 1_096;

/// The number of days of the years 1970 to 2199.
const DAYS_IN_ALL: u32 = 84_006;

/// Returns whether systemd 252 fails for an expression of the timer on the day before one of the midnights of the next
/// three years, because the clock of its zone skips this midnight. `line` is the line of the expression. A zone that
/// wasn't loaded counts as UTC.
pub fn stops_at_midnight(at: Present<'_>, timer: &LoadedTimer, line: &TimerLine) -> bool
    ensures { result ≡ stops_at_midnight (setting_for at.entry timer.now) at.entry.now.secs (shown line.now) }
{
    stops_in(setting_for(at, timer), line)
}

/// Returns what [`stops_at_midnight`] returns for the expression on `line`, with the zones of `setting`.
pub(crate) fn stops_in(setting: Setting<'_>, line: &TimerLine) -> bool
    ensures { result ≡ stops_at_midnight (setting_seen setting.entry) setting.entry.now.secs (shown line.now) }
{
    is_of_midnight(open_step_flaw(&line.expr))
        && skips_midnight(zone_or_utc(setting, line), setting.now)
}

fn is_of_midnight(flaw: Option<OpenStepFlaw>) -> bool
    ensures { result ≡ is_of_midnight flaw }
{
    match flaw {
        Some(OpenStepFlaw::FailsAtMidnightChanges) => true,
        Some(OpenStepFlaw::LosesElapses(_)) | Some(OpenStepFlaw::FailsAtClockChanges(_)) | None => {
            false
        }
    }
}

/// Returns whether the zone's clock skips one of the next midnights.
fn skips_midnight(zone: Zone<'_>, now: Instant) -> bool
    ensures { result ≡ skips_midnight (zone_of zone.entry) now.secs }
{
    let first = next_day(now);
    (first..first + MAX_NIGHTS).any(|day| is_skipped(zone, day))
}

/// Returns the day after that of `now`, by UTC, counted from 1970-01-01.
fn next_day(now: Instant) -> u32
    ensures value { result ≡ next_day now.secs }
    ensures range { result ≤ 84_010 }
{
    (now.secs() / DAY) as u32 + 1
}

/// Returns whether the day is in the years 1970 to 2199, and the zone's clock skips the midnight at its start.
fn is_skipped(zone: Zone<'_>, day: u32) -> bool
    ensures { result ≡ is_skipped (zone_of zone.entry) day }
{
    day < DAYS_IN_ALL && place(zone, midnight_of(day)).is_none()
}

/// Returns the local second at the start of a day of the years 1970 to 2199.
fn midnight_of(day: u32) -> i64
    requires { day < days_in_all }
    ensures { result ≡ pos (day * seconds_per_day) }
{
    i64::from(day) * DAY
}
