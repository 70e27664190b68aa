//! Computing moments, either from a second and a time span that is added or subtracted, or from a day and a time of day
//! on a zone's clock.

ghost use Rattle.std.specs.Prelude.{◌≡◌, ◌≤◌, ◌<◌, ◌+ℤ◌, ◌-ℤ◌, ◌*ℤ◌, pos, neg_ℤ, Ok};
ghost use Rattle.jiff.specs.Words.{IsBetween};
ghost use Rattle.cal_zone.specs.rules.Instant.{IsInstant, micros_of, micros_per_second};
ghost use Rattle.cal_zone.specs.rules.Zone.{local_shown_at, zone_of};
ghost use Rattle.cal_stamp.specs.computed.Stamp.{before_second, after_second, in_moments, settle_on, today};
ghost use Rattle.cal_stamp.specs.rules.StampViews.{shift_of, micros_or_fault};
ghost use Rattle.cal_civil.specs.rules.LocalSecond.{max_offset, seconds_per_day};

use crate::StampFault;
use crate::form::RelativeDay;
use cal_civil::DAY;
use cal_span::Span;
use cal_zone::{Instant, MICROS_PER_SECOND, Moment, Zone, civil, settle};

/// Returns the moment at `micros` microseconds of Unix time. Fails with `OutOfRange` if `micros` is before the first
/// moment or after the last.
#[tactic(auto, unfolding(crate::specs::computed::Stamp::in_moments))]
pub(crate) fn moment_of(micros: i64) -> Result<Moment, StampFault>
    ensures { micros_or_fault result ≡ in_moments micros }
{
    Moment::new(micros).ok_or(StampFault::OutOfRange)
}

/// Converts a Unix second to microseconds. The second must be in the supported range, or a few days before or after it.
pub(crate) fn micros_of(second: i64) -> i64
    requires { IsBetween (neg_ℤ (pos 400_000)) (pos 7_259_000_000) second }
    ensures { result ≡ micros_of second }
{
    second * MICROS_PER_SECOND as i64
}

/// Adds a time span to a Unix second. Fails with `OutOfRange` if the sum is not a moment.
pub(crate) fn after_second(second: i64, span: Span) -> Result<Moment, StampFault>
    requires { IsInstant second }
    ensures { micros_or_fault result ≡ after_second second (Ok span.micros) }
{
    if span.micros() > Moment::LAST as u64 {
        return Err(StampFault::OutOfRange);
    }
    moment_of(micros_of(second) + span.micros() as i64)
}

/// Subtracts a time span from a Unix second. Fails with `OutOfRange` if the difference is not a moment.
pub(crate) fn before_second(second: i64, span: Span) -> Result<Moment, StampFault>
    requires { IsInstant second }
    ensures { micros_or_fault result ≡ before_second second (Ok span.micros) }
{
    moment_of(micros_of(second) - span.micros() as i64)
}

/// Returns the number of the day that the zone's clock shows at `now`, counted from 1970-01-01.
#[tactic(auto, unfolding(crate::specs::computed::Stamp::today))]
pub(crate) fn today(now: Instant, zone: Zone) -> i64
    ensures value { result ≡ today now.secs (zone_of zone.entry) }
    ensures range { IsBetween (neg_ℤ (pos 2)) (pos 84_008) result }
{
    local_second(now, zone).div_euclid(DAY)
}

/// Returns the local second that the zone's clock shows at `now`.
fn local_second(now: Instant, zone: Zone) -> i64
    ensures value { result ≡ local_shown_at (zone_of zone.entry) now.secs }
    ensures range { IsBetween (neg_ℤ (pos max_offset)) (pos 7_258_305_597) result }
{
    now.secs() + i64::from(civil(zone, now).offset)
}

/// Converts a day number and the microseconds after the day's midnight, both on the zone's clock, to a moment. Fails
/// with `OutOfRange` if the result is before the first moment or after the last.
///
/// A local time that the zone's clock skips is moved forward by the length of the gap. If the clock shows the local
/// time twice, the first occurrence is used (systemd.time(7), Parsing Timestamps).
#[tactic(auto, unfolding(crate::specs::computed::Stamp::settle_on))]
pub(crate) fn settle_on(zone: Zone, day: i64, micros: u64) -> Result<Moment, StampFault>
    requires day { IsBetween (neg_ℤ (pos 3)) (pos 84_009) day }
    requires micros { micros ≤ 90_000_000_000 }
    ensures { micros_or_fault result ≡ settle_on (zone_of zone.entry) day micros }
{
    let second = settle(zone, local_time(day, micros / MICROS_PER_SECOND));
    moment_of(with_micros(second, micros % MICROS_PER_SECOND))
}

fn local_time(day: i64, seconds: u64) -> i64
    requires day { IsBetween (neg_ℤ (pos 3)) (pos 84_009) day }
    requires seconds { seconds ≤ 90_000 }
    ensures { result ≡ day *ℤ pos seconds_per_day +ℤ pos seconds }
{
    day * DAY + seconds as i64
}

/// Converts a Unix second to microseconds and adds `micros`, which is less than a second. The Unix second must be in
/// the supported range, or a few days before or after it.
fn with_micros(second: i64, micros: u64) -> i64
    requires second { IsBetween (neg_ℤ (pos 400_000)) (pos 7_259_000_000) second }
    requires micros { micros < micros_per_second }
    ensures { result ≡ micros_of second +ℤ pos micros }
{
    micros_of(second) + micros as i64
}

/// Returns the day number of yesterday, today or tomorrow on the zone's clock, counted from 1970-01-01.
#[tactic(auto, unfolding(crate::specs::computed::Stamp::today))]
pub(crate) fn relative_day_number(now: Instant, zone: Zone, day: RelativeDay) -> i64
    ensures value { result ≡ today now.secs (zone_of zone.entry) +ℤ shift_of day }
    ensures range { IsBetween (neg_ℤ (pos 3)) (pos 84_009) result }
{
    let today = today(now, zone);
    match day {
        RelativeDay::Yesterday => today - 1,
        RelativeDay::Today => today,
        RelativeDay::Tomorrow => today + 1,
    }
}
