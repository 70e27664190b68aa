//! Instants: whole seconds of Unix time.
ghost use Rattle.std.specs.Prelude.{◌≡◌, ◌↔◌, IsSome, IfSome};
ghost use Rattle.cal_zone.specs.rules.Instant.{IsInstant};

/// A number of whole seconds of Unix time, from 0 to 7,258,211,998. The upper limit is the last second of the year 2199
/// at the UTC offset farthest west, -25:59:59.
#[derive(Clone, Copy, Debug, PartialEq, Eq)]
pub struct Instant {
    secs: i64,
    ghost in_range: { IsInstant secs },
}

impl Instant {
    /// The last instant, in seconds of Unix time.
    pub const LAST: i64 = 7_258_211_998;

    /// Returns the instant `secs` seconds after 1970-01-01 00:00:00 UTC, or `None` if `secs` is negative or greater
    /// than [`Instant::LAST`].
    pub fn new(secs: i64) -> Option<Instant>
        ensures some { IsSome result ↔ IsInstant secs }
        ensures value { IfSome result (λ i. i.secs ≡ secs) }
    {
        if secs < 0 || secs > Self::LAST {
            return None;
        }
        Some(Instant { secs })
    }

    /// Returns the seconds since 1970-01-01 00:00:00 UTC.
    pub fn secs(self) -> i64
        ensures value { result ≡ self.secs }
        ensures range { IsInstant result }
    {
        self.secs
    }
}
