//! The local times that one change of a zone skips or repeats.

ghost use Rattle.std.specs.Prelude.{◌≡◌, ◌↔◌, ◌<ℤ◌, ◌≤ℤ◌, IsTrue, neg_ℤ, pos};
ghost use Rattle.jiff.specs.Words.{IsBetween};
ghost use Rattle.cal_civil.specs.rules.LocalSecond.{IsLocalSecond, max_offset};
ghost use Rattle.cal_zone.specs.rules.Instant.{IsInstant};
ghost use Rattle.cal_zone.specs.rules.Zone.{local_shown_at, zone_of};
ghost use Rattle.cal_tasks.specs.rules.ClockNotes.{IsChangedBy, IsRepeatedBy, shown_unchanged};
ghost use Rattle.cal_tasks.specs.computed.ClockShift.{IsShiftOf};

use crate::clock_note::ClockChange;
use crate::shown::local_shown;
use cal_zone::{Instant, Zone, place};

/// The gap or the fold that one change of a zone makes, as a range of local seconds.
#[derive(Clone, Copy)]
pub(crate) struct ClockShift {
    /// The first local second of the gap or fold.
    pub(crate) from: i64,
    /// The local second after the last one of the gap or fold.
    pub(crate) to: i64,
    /// `Skipped` if the clock is set forward, and `Repeated` if it is set back.
    pub(crate) kind: ClockChange,
}

/// Returns the local seconds in the gap or in the fold of a change.
pub(crate) fn shift_of(zone: Zone<'_>, change: Instant) -> ClockShift
    requires { pos 0 <ℤ change.secs }
    ensures { IsShiftOf (zone_of zone.entry) change.secs result }
{
    let unchanged = shown_unchanged(zone, change);
    let changed = local_shown(zone, change);
    if unchanged < changed {
        ClockShift {
            from: unchanged,
            to: changed,
            kind: ClockChange::Skipped,
        }
    } else {
        ClockShift {
            from: changed,
            to: unchanged,
            kind: ClockChange::Repeated,
        }
    }
}

/// Returns the local second that the clock would show at a change if its UTC offset didn't change then.
fn shown_unchanged(zone: Zone<'_>, change: Instant) -> i64
    requires { pos 0 <ℤ change.secs }
    ensures value { result ≡ shown_unchanged (zone_of zone.entry) change.secs }
    ensures range { IsBetween (neg_ℤ (pos max_offset)) (pos 7_258_305_598) result }
{
    let Some(before) = Instant::new(change.secs() - 1) else {
        unreachable!()
    };
    local_shown(zone, before) + 1
}

/// Returns whether the change skips `local` (if `shift.kind` is `Skipped`) or repeats it (if it is `Repeated`). `shift`
/// must be the gap or fold of this change, and `local` must be in it.
pub(crate) fn is_changed(zone: Zone<'_>, change: Instant, shift: ClockShift, local: i64) -> bool
    requires shift { IsShiftOf (zone_of zone) change.secs shift }
    requires local { IsLocalSecond local }
    requires from { shift.from ≤ℤ local }
    requires to { local <ℤ shift.to }
    ensures { IsTrue result ↔ IsChangedBy (zone_of zone.entry) change.secs local shift.kind }
{
    match shift.kind {
        ClockChange::Skipped => place(zone, local).is_none(),
        ClockChange::Repeated => is_repeated(zone, change, shift.from, local),
    }
}

/// Returns whether the clock shows `local` twice: at the place of `local`, before the change, and again at or after the
/// change. `from` is what the clock shows at the change.
fn is_repeated(zone: Zone<'_>, change: Instant, from: i64, local: i64) -> bool
    requires from { from ≡ local_shown_at (zone_of zone) change.secs }
    requires local { IsLocalSecond local }
    requires low { from ≤ℤ local }
    requires high { local <ℤ shown_unchanged (zone_of zone) change.secs }
    ensures { IsTrue result ↔ IsRepeatedBy (zone_of zone.entry) change.secs local }
{
    let Some(first) = place(zone, local) else {
        return false;
    };
    first < change.secs() && is_shown(zone, change.secs() + (local - from), local)
}

/// Returns whether the clock shows `local` at an instant.
fn is_shown(zone: Zone<'_>, second: i64, local: i64) -> bool
    requires { IsInstant second }
    ensures { IsTrue result ↔ local_shown_at (zone_of zone.entry) second ≡ local }
{
    let Some(instant) = Instant::new(second) else {
        unreachable!()
    };
    local_shown(zone, instant) == local
}
