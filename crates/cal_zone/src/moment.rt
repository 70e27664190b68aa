//! Moments: whole microseconds of Unix time.

ghost use Rattle.std.specs.Prelude.{◌≡◌, ◌↔◌, ◌/◌, pos, unsigned_abs, IsSome, IfSome};
ghost use Rattle.cal_zone.specs.rules.Instant.{IsMoment, micros_of, micros_per_second};

use crate::Instant;

pub const MICROS_PER_SECOND: u64 = 1_000_000;

/// A number of whole microseconds of Unix time, from 0 to 7,258,211,998,999,999: up to the last microsecond of the last
/// [`Instant`].
#[derive(Clone, Copy, Debug, PartialEq, Eq)]
pub struct Moment {
    micros: i64,
    ghost in_range: { IsMoment micros },
}

impl Moment {
    /// The last moment, in microseconds of Unix time.
    pub const LAST: i64 = 7_258_211_998_999_999;

    /// Returns the moment `micros` microseconds after 1970-01-01 00:00:00 UTC, or `None` if `micros` is negative or
    /// greater than [`Moment::LAST`].
    pub fn new(micros: i64) -> Option<Moment>
        ensures some { IsSome result ↔ IsMoment micros }
        ensures value { IfSome result (λ moment. moment.micros ≡ micros) }
    {
        if micros < 0 || micros > Self::LAST {
            return None;
        }
        Some(Moment { micros })
    }

    /// Returns the first moment of an instant, which is a whole second.
    pub fn first_of(instant: Instant) -> Moment
        ensures { result.micros ≡ micros_of instant.secs }
    {
        match Moment::new(instant.secs() * MICROS_PER_SECOND as i64) {
            Some(moment) => moment,
            None => unreachable!(),
        }
    }

    /// Returns the microseconds since 1970-01-01 00:00:00 UTC.
    pub fn micros(self) -> i64
        ensures value { result ≡ self.micros }
        ensures range { IsMoment result }
    {
        self.micros
    }

    /// Returns the moment rounded down to a whole second.
    pub fn instant(self) -> Instant
        ensures { result.secs ≡ pos (unsigned_abs self.micros / micros_per_second) }
    {
        match Instant::new((self.micros.unsigned_abs() / MICROS_PER_SECOND) as i64) {
            Some(instant) => instant,
            None => unreachable!(),
        }
    }
}
