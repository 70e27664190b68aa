//! Conversion from local seconds to Unix time. A local second is a second of a zone's clock, counted from 1970-01-01
//! 00:00:00 on that clock.

ghost use Rattle.std.specs.Prelude.{◌≡◌, ◌-ℤ◌};
ghost use Rattle.jiff.specs.Words.{IsOffsetSeconds};
ghost use Rattle.cal_civil.specs.rules.LocalSecond.{CanSettle, IsLocalSecond, IsNearSettled};
ghost use Rattle.cal_zone.specs.rules.Place.{datetime_of, place_of, settle_of};
ghost use Rattle.cal_zone.specs.rules.Zone.{local_shown_at, zone_of};

use crate::zone::{FixedOffset, ZoneKind};
use crate::{Rules, Zone};
use jiff::Timestamp;
use jiff::civil::DateTime;
use jiff::tz::Offset;

/// Returns the place of a local second of the years 1970 to 2199 (0 to 7,258,118,399): the second of Unix time at which
/// the zone's clock shows it.
///
/// If clocks are turned back and show the local second twice, the place is the first occurrence, which `jiff`'s
/// compatible conversion picks. Returns `None` if the clock skips the local second. (systemd.time(7), Calendar Events.)
#[tactic(auto, using(crate::proofs::PlaceLemmas::places))]
pub fn place(zone: Zone, local: i64) -> Option<i64>
    requires { IsLocalSecond local }
    ensures { result ≡ place_of (zone_of zone.entry) local }
{
    match zone.kind {
        ZoneKind::Utc => Some(local),
        ZoneKind::Offset(ahead) => Some(unix_second(ahead, local)),
        ZoneKind::Rules(rules) => place_by(rules, local),
    }
}

/// Converts a local second (-300,000 to 7,258,500,000) to Unix time, resolving gaps and folds as `jiff`'s compatible
/// conversion does: a local second that the clock skips is moved forward by the length of the gap, and one that the
/// clock shows twice resolves to its first occurrence. (systemd.time(7), Parsing Timestamps.)
#[tactic(auto, using(crate::proofs::PlaceLemmas::settles))]
pub fn settle(zone: Zone, local: i64) -> i64
    requires { CanSettle local }
    ensures value { result ≡ settle_of (zone_of zone.entry) local }
    ensures near { IsOffsetSeconds (local -ℤ result) }
{
    match zone.kind {
        ZoneKind::Utc => local,
        ZoneKind::Offset(ahead) => unix_second(ahead, local),
        ZoneKind::Rules(rules) => settle_by(rules, local),
    }
}

/// Converts a local second at a fixed offset to Unix time.
fn unix_second(ahead: FixedOffset, local: i64) -> i64
    requires { CanSettle local }
    ensures { result ≡ local -ℤ ahead.seconds }
{
    local - i64::from(ahead.seconds)
}

/// Returns the place of a local second in a zone with rules, or `None` if the clock skips it.
#[tactic(auto, using(crate::proofs::PlaceLemmas::placed_by))]
pub(crate) fn place_by(rules: &Rules, local: i64) -> Option<i64>
    requires { CanSettle local }
    ensures { result ≡ place_of rules.now local }
{
    let second = settle_by(rules, local);
    if local_shown_by(rules, second) == local {
        Some(second)
    } else {
        None
    }
}

/// Converts a local second to Unix time in a zone with rules, as [`settle`] does.
fn settle_by(rules: &Rules, local: i64) -> i64
    requires { CanSettle local }
    ensures value { result ≡ settle_of rules.now local }
    ensures near { IsOffsetSeconds (local -ℤ result) }
{
    let time_zone = rules.time_zone();
    let Ok(timestamp) = time_zone.to_timestamp(datetime(local)) else {
        unreachable!()
    };
    timestamp.as_second()
}

/// Returns the local second that the clock shows at a second of Unix time, which must be in the range of the
/// results of [`settle`].
#[tactic(auto, using(cal_civil::proofs::LocalLemmas::local_arith), unfolding(crate::specs::rules::Zone::local_shown_at))]
fn local_shown_by(rules: &Rules, second: i64) -> i64
    requires { IsNearSettled second }
    ensures { result ≡ local_shown_at rules.now second }
{
    let Ok(timestamp) = Timestamp::from_second(second) else {
        unreachable!()
    };
    second + i64::from(rules.offset(timestamp).seconds())
}

/// Returns the date and time of day of a local second.
pub(crate) fn datetime(local: i64) -> DateTime
    requires { CanSettle local }
    ensures { result ≡ datetime_of local }
{
    let Ok(timestamp) = Timestamp::from_second(local) else {
        unreachable!()
    };
    Offset::UTC.to_datetime(timestamp)
}
