//! Ranges of instants at which a zone has a constant UTC offset.
//!
//! Inside such a range, converting an instant to civil time needs no look-up of the zone's rules.
//! [`InstantFormatter`](crate::InstantFormatter) caches one range.

ghost use Rattle.std.specs.Prelude.{◌≡◌, option_map, pos};
ghost use Rattle.jiff_tz.specs.PosixRule.{transition_view};
ghost use Rattle.cal_civil.specs.rules.LocalSecond.{CanSettle};
ghost use Rattle.cal_zone.specs.computed.InstantOffsetRange.{IsInstantOffsetRangeAt, IsBeforeTransitionUntil};
ghost use Rattle.cal_zone.specs.computed.LocalOffsetRange.{HasConstantOffset};
ghost use Rattle.cal_zone.specs.rules.Zone.{zone_of};

use crate::civil_time::fixed_offset;
use crate::local_offset_range::year_after;
use crate::zone::ZoneKind;
use crate::{Instant, Rules, Zone};
use jiff::Timestamp;
use jiff_core::Offset;
use jiff_tz::Transition;

/// The instants `from..to`, all at the same UTC offset.
#[derive(Clone, Copy)]
pub(crate) struct InstantOffsetRange {
    pub(crate) from: i64,
    pub(crate) to: i64,
    pub(crate) offset: Offset,
}

/// Returns a range with a constant UTC offset that contains `instant`.
#[tactic(auto, using(cal_civil::proofs::LocalLemmas::local_arith, crate::proofs::ZoneLemmas::offsets))]
pub(crate) fn instant_range_at(zone: Zone, instant: Instant) -> InstantOffsetRange
    ensures { IsInstantOffsetRangeAt (zone_of zone.entry) instant.secs result }
{
    match zone.kind {
        ZoneKind::Utc => all_instants(Offset::UTC),
        ZoneKind::Offset(ahead) => all_instants(fixed_offset(ahead).to_plain()),
        ZoneKind::Rules(rules) => instant_range_by_rules(rules, instant),
    }
}

/// Returns the range of all instants, for a zone with a fixed offset.
fn all_instants(offset: Offset) -> InstantOffsetRange
    ensures from { result.from ≡ pos 0 }
    ensures to { result.to ≡ pos 7_258_211_999 }
    ensures offset { result.offset ≡ offset }
{
    InstantOffsetRange {
        from: 0,
        to: Instant::LAST + 1,
        offset,
    }
}

/// Returns the range with a constant UTC offset that starts at `instant`. It ends at the next transition or at the end
/// of the year in UTC, whichever is earlier, but contains at least `instant`.
fn instant_range_by_rules(rules: &Rules, instant: Instant) -> InstantOffsetRange
    ensures { IsInstantOffsetRangeAt rules.now instant.secs result }
{
    let second = instant.secs();
    let Ok(timestamp) = Timestamp::from_second(second) else {
        unreachable!()
    };
    let zone = rules.time_zone();
    let next = zone.to_plain().next_transition(timestamp.to_plain());
    InstantOffsetRange {
        from: second,
        to: instant_range_end(next, second).max(second + 1),
        offset: zone.to_offset(timestamp).to_plain(),
    }
}

/// Returns the end of a range of instants that starts at `from` and has a constant UTC offset.
///
/// A range that [`instant_range_by_rules`] returns ends with the year at the latest, even if the offset doesn't change
/// then. So this function examines two ranges: the one that starts at `from`, and the one that follows it. If the
/// following range has the same offset and ends at a supported instant, this end is returned. Otherwise, the end of the
/// range that starts at `from` is returned. If that end is after the last supported instant, the result is `from`,
/// which makes the range empty.
pub(crate) fn constant_offset_until(rules: &Rules, from: Instant) -> Instant
    ensures { HasConstantOffset rules.now from.secs result.secs }
{
    let before = instant_range_by_rules(rules, from);
    let Some(turn) = Instant::new(before.to) else {
        return from;
    };
    let after = instant_range_by_rules(rules, turn);
    match Instant::new(after.to) {
        Some(end) if after.offset.seconds == before.offset.seconds => end,
        _ => turn,
    }
}

/// Returns the end of the range that starts at `second` and has a constant UTC offset. `next` is the zone's first
/// transition after `second`, if there is one. The range ends at this transition or at the end of the year in UTC,
/// whichever is earlier.
fn instant_range_end(next: Option<Transition>, second: i64) -> i64
    requires { CanSettle second }
    ensures { IsBeforeTransitionUntil (option_map transition_view next) second result }
{
    let year_end = year_after(second);
    match next {
        Some(next) => next.timestamp.floor_second().min(year_end),
        None => year_end,
    }
}
