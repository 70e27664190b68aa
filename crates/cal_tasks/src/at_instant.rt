//! The test whether a timer elapses at an instant (systemd.timer(5), OnCalendar=).

ghost use Rattle.std.specs.Prelude.{◌≡◌, ◌++◌, ◌∷◌, [], ◌-ℤ◌, pos, cond, map, unsigned_abs};
ghost use Rattle.std.specs.List.{list_any};
ghost use Rattle.std.specs.Ordering.{int_eq};
ghost use Rattle.std.specs.Set.{is_member};
ghost use Rattle.cal_civil.specs.rules.LocalSecond.{IsLocalSecond};
ghost use Rattle.cal_elapse.specs.computed.Masks.{sets_in};
ghost use Rattle.cal_elapse.specs.computed.Window.{timed_by};
ghost use Rattle.cal_elapse.specs.rules.ElapsesAfter.{places};
ghost use Rattle.cal_plan.specs.rules.TimerElapses.{lists_shown, zone_or_utc};
ghost use Rattle.cal_spec.specs.rules.Match.{matches};
ghost use Rattle.cal_timer.specs.rules.TimerView.{shown};
ghost use Rattle.cal_zone.specs.rules.Setting.{setting_seen};
ghost use Rattle.cal_zone.specs.rules.Zone.{zone_of};
ghost use Rattle.cal_tasks.specs.computed.AtInstant.{elapses_at, line_elapses_at};
ghost use Rattle.cal_tasks.specs.rules.LoadedElapses.{elapses_in};

use crate::elapses::setting_for;
use crate::present::Present;
use cal_elapse::{Masks, next_local};
use cal_load::LoadedTimer;
use cal_plan::zone_for;
use cal_timer::TimerLine;
use cal_zone::{Instant, PlaceCache, Setting, Zone};

/// Returns whether a timer elapses at `instant`.
///
/// Elapses are computed after a base, and no instant is before instant 0, so only this test finds an elapse at
/// instant 0.
pub(crate) fn is_elapse(at: Present<'_>, timer: &LoadedTimer, instant: Instant) -> bool
    ensures { elapses_in at.entry (instant.secs -ℤ pos 1) timer.now
        ≡ cond result (instant.secs ∷ []) [] ++ elapses_in at.entry instant.secs timer.now }
{
    elapses_at(
        setting_for(at, timer),
        timer.lines(),
        timer.exceptions(),
        instant,
    )
}

/// Returns whether a timer with these expressions and exceptions elapses at `instant`.
pub(crate) fn elapses_at(
    setting: Setting<'_>,
    lines: &[TimerLine],
    exceptions: &[TimerLine],
    instant: Instant,
) -> bool
    ensures { result
        ≡ elapses_at (setting_seen setting.entry) instant.secs (lists_shown lines.now exceptions.now) }
{
    has_any(setting, lines, instant) && !has_any(setting, exceptions, instant)
}

/// Returns whether at least one of the expressions elapses at `instant`.
pub(crate) fn has_any(setting: Setting<'_>, lines: &[TimerLine], instant: Instant) -> bool
    ensures { result
        ≡ list_any (line_elapses_at (setting_seen setting.entry) instant.secs) (map shown lines.now) }
{
    for line in lines {
        if line_elapses_at(setting, line, instant) {
            return true;
        }
    }
    false
}

/// Returns whether the expression on `line` elapses at `instant`.
fn line_elapses_at(setting: Setting<'_>, line: &TimerLine, instant: Instant) -> bool
    ensures { result ≡ line_elapses_at (setting_seen setting.entry) instant.secs (shown line.now) }
{
    let masks = Masks::of(&line.expr);
    is_place(&masks, zone_or_utc(setting, line), instant)
}

/// Returns the zone of the expression on `line`, or UTC if this zone wasn't loaded.
pub(crate) fn zone_or_utc<'a>(setting: Setting<'a>, line: &TimerLine) -> Zone<'a>
    ensures { zone_of result ≡ zone_or_utc (setting_seen setting.entry) (shown line.now) }
{
    match zone_for(setting, &line.expr) {
        Some(zone) => zone,
        None => Zone::utc(),
    }
}

/// Returns whether `instant` is the place of a matching local second.
fn is_place(masks: &Masks, zone: Zone<'_>, instant: Instant) -> bool
    ensures { result ≡ is_member int_eq (places (timed_by masks.now zone.entry)) instant.secs }
{
    match PlaceCache::new(zone).local_at(instant) {
        Some(local) => is_match(masks, local),
        None => false,
    }
}

/// Returns whether `masks` match the local second `local`: they do if the first match at or after `local` is `local`
/// itself.
#[tactic(auto, using(cal_civil::proofs::LocalLemmas::local_arith))]
fn is_match(masks: &Masks, local: i64) -> bool
    requires { IsLocalSecond local }
    ensures { result ≡ matches (sets_in masks.now) (unsigned_abs local) }
{
    match next_local(masks, local).local {
        Some(first) => first == local,
        None => false,
    }
}
