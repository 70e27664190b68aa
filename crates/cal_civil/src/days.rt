//! Days and local seconds.
//!
//! A local second is a second of a zone's civil clock, counted from 1970-01-01 00:00:00 on that clock. A day number
//! counts the days from 1970-01-01, which is day 0.

ghost use Rattle.std.specs.Prelude.{◌≡◌, ◌<◌, ◌/◌, ◌%◌, ◌≤ℤ◌, pos, unsigned_abs};
ghost use Rattle.cal_civil.specs.rules.LocalSecond.{IsLocalSecond, civil_date, seconds_per_day, days_in_all};

use jiff_core::civil::Date;

/// The number of seconds in a day.
pub const DAY: i64 = 86_400;

/// The first supported year.
pub const FIRST_YEAR: u16 = 1970;

/// The last supported year.
pub const LAST_YEAR: u16 = 2199;

/// The first local second of 2200, which is the first one after the supported years 1970 to 2199. These years have
/// 84,006 days.
pub const LOCAL_END: i64 = 84_006 * DAY;

/// The largest UTC offset that `jiff` accepts, in seconds (25:59:59). A local second and the second of Unix time to
/// which it is converted are at most this far apart.
pub const MAX_OFFSET: i64 = 93_599;

/// Returns the day number of a local second of the years 1970 to 2199: 0 for 1970-01-01, up to 84,005.
pub fn day_of(local: i64) -> u32
    requires { IsLocalSecond local }
    ensures { result ≡ unsigned_abs local / seconds_per_day }
{
    (local / DAY) as u32
}

/// Returns the seconds since midnight, 0 to 86,399, of a local second in 1970 or later.
pub fn second_of_day(local: i64) -> u32
    requires { pos 0 ≤ℤ local }
    ensures { result ≡ unsigned_abs local % seconds_per_day }
{
    (local % DAY) as u32
}

/// Returns the date with the day number `day`, 0 (1970-01-01) to 84,005 (2199-12-31).
pub fn date_of_day(day: u32) -> Date
    requires { day < days_in_all }
    ensures { result ≡ civil_date day }
{
    let Ok(date) = Date::from_unix_epoch_day(i64::from(day)) else {
        unreachable!()
    };
    date
}
