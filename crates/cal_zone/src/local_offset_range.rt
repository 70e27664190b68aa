//! Ranges of local seconds with a constant UTC offset.
//!
//! Inside such a range there is no gap and no fold, so converting a local second to its place, the second of Unix time
//! at which the zone's clock shows it, is one subtraction. [`PlaceCache`](crate::PlaceCache) caches one range.

ghost use Rattle.std.specs.Prelude.{◌≡◌, ◌≤◌, ◌≤ℤ◌, ◌-ℤ◌, IfSome, int_le, option_map, pos, vec_len};
ghost use Rattle.jiff.specs.Types.{Posix as ByRule};
ghost use Rattle.jiff.specs.Words.{nanos_of_seconds, IsWithin};
ghost use Rattle.jiff_tz.specs.Tzif.{count_at, type_after};
ghost use Rattle.jiff_tz.specs.PosixRule.{transition_view};
ghost use Rattle.cal_civil.specs.rules.LocalSecond.{CanSettle, IsLocalSecond, IsNearSettled};
ghost use Rattle.cal_zone.specs.rules.Place.{datetime_of};
ghost use Rattle.cal_zone.specs.rules.Rules.{zone_of_table};
ghost use Rattle.cal_zone.specs.computed.LocalOffsetRange.{HaveSameOffsetsUntil, HasConstantOffset, IsClearOfTransitionUntil, IsTransitionSecond, IsLocalOffsetRangeAt, year_end, transition_margin};
ghost use Rattle.cal_zone.specs.rules.Zone.{zone_of};

use crate::places::datetime;
use crate::zone::ZoneKind;
use crate::{Instant, Zone};
use cal_civil::{DAY, LOCAL_END, MAX_OFFSET};
use jiff::tz::Tzif;
use jiff_core::Timestamp;
use jiff_tz::{TimeZone, Transition, posix, tzif};

/// How many seconds a range stays away from the transitions of a POSIX rule. A transition is an instant, but its gap or
/// fold consists of local seconds. As numbers, these local seconds differ from the instant by at most four times
/// [`MAX_OFFSET`].
pub(crate) const TRANSITION_MARGIN: i64 = 4 * MAX_OFFSET + 1;

/// The local seconds `from..to`, all at the same UTC offset of `offset` seconds.
#[derive(Clone, Copy)]
pub(crate) struct LocalOffsetRange {
    pub(crate) from: i64,
    pub(crate) to: i64,
    pub(crate) offset: i64,
}

/// Returns a range with a constant UTC offset that contains `local`, if one is found.
pub(crate) fn local_range_at(zone: Zone, local: i64) -> Option<LocalOffsetRange>
    requires { IsLocalSecond local }
    ensures { IfSome result (IsLocalOffsetRangeAt (zone_of zone.entry) local) }
{
    match zone.kind {
        ZoneKind::Utc => Some(all_local_seconds(0)),
        ZoneKind::Offset(ahead) => Some(all_local_seconds(i64::from(ahead.seconds))),
        ZoneKind::Rules(rules) => rules.local_range(local),
    }
}

/// Returns the range of all supported local seconds, for a zone with a fixed offset.
fn all_local_seconds(offset: i64) -> LocalOffsetRange
    ensures from { result.from ≡ pos 0 }
    ensures to { result.to ≡ pos 7_258_118_400 }
    ensures offset { result.offset ≡ offset }
{
    LocalOffsetRange {
        from: 0,
        to: LOCAL_END,
        offset,
    }
}

/// Returns the range with a constant UTC offset that starts at `local`, according to the transitions of a zone file's
/// table.
///
/// The range ends [`MAX_OFFSET`] seconds before the next transition, since the gap or fold of that transition can begin
/// that much earlier. Returns `None` if a transition is less than [`MAX_OFFSET`] seconds before `local` or at most
/// [`MAX_OFFSET`] seconds after it, or if no transition follows. After the last transition, the offset depends on the
/// file's POSIX rule, if the file has one; [`range_end_after_table`] handles this case.
pub(crate) fn local_range_in_table(table: &Tzif, local: i64) -> Option<LocalOffsetRange>
    requires { IsLocalSecond local }
    ensures { IfSome result (IsLocalOffsetRangeAt (zone_of_table table.now) local) }
{
    let passed = transitions_until(table, local - MAX_OFFSET);
    let to = transition_second(table, passed)? - MAX_OFFSET;
    if to <= local {
        return None;
    }
    Some(LocalOffsetRange {
        from: local,
        to,
        offset: offset_after(table, passed),
    })
}

/// Returns the end of a range of local seconds that starts at `local` and has a constant UTC offset, if all transitions
/// of the table are at least [`TRANSITION_MARGIN`] seconds before `local`. Otherwise returns `local`, which makes the
/// range empty.
///
/// After the last transition, the table's POSIX rule decides. If there is no such rule, or if it has no daylight saving
/// time, the range extends to [`LOCAL_END`]. Otherwise the range ends at least [`TRANSITION_MARGIN`] seconds before the
/// rule's next transition and [`MAX_OFFSET`] seconds before `constant_until`. The caller guarantees that the UTC offset
/// is constant from [`TRANSITION_MARGIN`] seconds before `local` until `constant_until`.
pub(crate) fn range_end_after_table(table: &Tzif, local: i64, constant_until: Instant) -> i64
    requires local_in { IsLocalSecond local }
    requires constant { HasConstantOffset (zone_of_table table.now) (local -ℤ pos transition_margin) constant_until.secs }
    ensures { HaveSameOffsetsUntil (zone_of_table table.now) local result }
{
    let past = local - TRANSITION_MARGIN;
    if transitions_until(table, past) < table.transitions().len() {
        return local;
    }
    match table.posix_tz() {
        Some(rule) if rule.dst.is_some() => {
            range_end_before_transition(table.next_transition(timestamp_at(past)), past).min(
                constant_until.secs() - MAX_OFFSET,
            )
        }
        _ => LOCAL_END,
    }
}

/// Returns the end of a range of local seconds that starts at `local` and has a constant UTC offset. If the zone is a
/// POSIX rule without daylight saving time, the range ends at [`LOCAL_END`]. If it is a POSIX rule with daylight saving
/// time, the range ends at least [`TRANSITION_MARGIN`] seconds before the rule's next transition and [`MAX_OFFSET`]
/// seconds before `constant_until`. For every other zone, returns `local`, which makes the range empty.
///
/// The caller guarantees that the UTC offset is constant from [`TRANSITION_MARGIN`] seconds before `local` until
/// `constant_until`.
#[tactic(auto, using(cal_civil::proofs::LocalLemmas::local_arith))]
pub(crate) fn range_end_in_zone(zone: TimeZone<'_>, local: i64, constant_until: Instant) -> i64
    requires local_in { IsLocalSecond local }
    requires constant { HasConstantOffset zone (local -ℤ pos transition_margin) constant_until.secs }
    ensures { HaveSameOffsetsUntil zone.entry local result }
{
    match zone {
        TimeZone::Posix(rule) => range_end_by_rule(rule, local, constant_until),
        _ => local,
    }
}

/// Returns the end of a range of local seconds under a POSIX rule, as [`range_end_in_zone`] describes it.
fn range_end_by_rule(rule: posix::TimeZone, local: i64, constant_until: Instant) -> i64
    requires local_in { IsLocalSecond local }
    requires constant { HasConstantOffset (ByRule rule) (local -ℤ pos transition_margin) constant_until.secs }
    ensures { HaveSameOffsetsUntil (ByRule rule) local result }
{
    if rule.dst.is_some() {
        let past = local - TRANSITION_MARGIN;
        return range_end_before_transition(rule.next_transition(timestamp_at(past)), past).min(
            constant_until.secs() - MAX_OFFSET,
        );
    }
    LOCAL_END
}

/// Returns the end of a range of local seconds without a gap or a fold. `next` is the first transition of a POSIX rule
/// after `past`, if there is one.
///
/// The range starts [`TRANSITION_MARGIN`] seconds after `past`, and ends [`TRANSITION_MARGIN`] seconds before `next`.
/// But if it starts in the year of `past`, it ends with this year at the latest, since a POSIX rule is evaluated year
/// by year. Returns `past`, which makes the range empty, if `next` is `None` or if `past` is before 1970.
fn range_end_before_transition(next: Option<Transition>, past: i64) -> i64
    requires { past ≤ℤ pos 7_258_500_000 }
    ensures { IsClearOfTransitionUntil (option_map transition_view next) past result }
{
    match next {
        Some(next) if past >= 0 => {
            let before_change = next.timestamp.floor_second() - TRANSITION_MARGIN;
            let year_end = year_after(past);
            if past + TRANSITION_MARGIN < year_end {
                before_change.min(year_end)
            } else {
                before_change
            }
        }
        _ => past,
    }
}

/// Returns the end of the year that contains `second`: the first second of the next year, in UTC.
pub(crate) fn year_after(second: i64) -> i64
    requires { CanSettle second }
    ensures value { result ≡ year_end (datetime_of second).date.year }
    ensures bound { IsWithin 1_000_000_000_000 result }
{
    let last = datetime(second).date().last_of_year();
    (i64::from(last.to_plain().to_unix_epoch_day()) + 1) * DAY
}

fn timestamp_at(second: i64) -> Timestamp
    requires { IsNearSettled second }
    ensures { result.nanosecond ≡ nanos_of_seconds second }
{
    let Ok(timestamp) = jiff::Timestamp::from_second(second) else {
        unreachable!()
    };
    timestamp.to_plain()
}

/// Returns the number of transitions of the table at or before `second`.
fn transitions_until(table: &Tzif, second: i64) -> usize
    ensures value { result ≡ count_at table.now second }
    ensures bound { result ≤ vec_len table.now.transitions }
{
    table.transitions().partition_point(
        |transition: &tzif::Transition| -> bool
            ensures { result ≡ int_le transition.now.second second }
        { transition.second <= second },
    )
}

#[tactic(auto, using(cal_civil::proofs::LocalLemmas::local_arith, crate::proofs::LocalOffsetRangeLemmas::length_of_copy, crate::proofs::LocalOffsetRangeLemmas::transition_of_copy))]
fn transition_second(table: &Tzif, index: usize) -> Option<i64>
    ensures { IfSome result (IsTransitionSecond table.now index) }
{
    Some(table.transitions().get(index)?.second)
}

/// Returns the UTC offset after the first `count` transitions of the table, in seconds. If `count` is 0, this is the
/// offset before the first transition.
fn offset_after(table: &Tzif, count: usize) -> i64
    requires { count ≤ vec_len table.now.transitions }
    ensures { result ≡ (type_after table.now count).offset.seconds }
{
    let Some(last) = count.checked_sub(1) else {
        return i64::from(table.first().offset.seconds);
    };
    i64::from(table.transitions()[last].after.offset.seconds)
}
