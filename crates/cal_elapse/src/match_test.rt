//! The test of whether a calendar expression matches a local second, without a search (systemd.time(7), Calendar
//! Events).

ghost use Rattle.std.specs.Prelude.{◌≡◌, ◌<◌, unsigned_abs};
ghost use Rattle.cal_civil.specs.rules.LocalSecond.{IsLocalSecond, seconds_per_day, days_in_all};
ghost use Rattle.cal_elapse.specs.computed.Masks.{sets_in};
ghost use Rattle.cal_elapse.specs.rules.Months.{day_in};
ghost use Rattle.cal_spec.specs.rules.Match.{matches, time_in};

use crate::Masks;
use crate::bits::has_bit;
use crate::month::month_of_day;
use crate::month_days::first_day_bit;
use crate::search::month::has_month;
use crate::search::time::has_minute;
use cal_civil::{day_of, second_of_day};

/// Returns whether the expression matches a local second. Tests the time of day first, because testing the date takes
/// longer.
#[tactic(auto, using(cal_civil::proofs::LocalLemmas::local_arith, crate::proofs::SearchLemmas::locals_at, std::proofs::lemmas::Bool::and_right))]
pub(crate) fn is_match(masks: &Masks, local: i64) -> bool
    requires { IsLocalSecond local }
    ensures { result ≡ matches (sets_in masks.now) (unsigned_abs local) }
{
    has_time(masks, second_of_day(local)) && has_day(masks, day_of(local))
}

/// Returns whether the expression matches this time of day, in seconds since midnight.
fn has_time(masks: &Masks, second: u32) -> bool
    requires { second < seconds_per_day }
    ensures { result ≡ time_in (sets_in masks.now) second }
{
    has_minute(masks, second / 60) && has_bit(masks.seconds, second % 60)
}

/// Returns whether the expression matches the date with this day number. Tests the bits of this day only, and forms no
/// set of the month's matching days, because only a search examines a month.
#[tactic(auto, using(crate::proofs::MonthLemmas::month_bounds))]
fn has_day(masks: &Masks, day: u32) -> bool
    requires { day < days_in_all }
    ensures { result ≡ day_in (sets_in masks.now) day }
{
    let month = month_of_day(day);
    if !has_month(masks, month.index) {
        return false;
    }
    let bit = first_day_bit(masks.from_end, month.length) + (day - month.first);
    has_bit(masks.weekdays, (day + 3) % 7) && has_bit(masks.days, bit)
}
