//! The search for the next matching local second: first the next matching day, and then the time on that day.
//!
//! [`Window`](crate::window::Window) asks [`searcher`] for the matches, one after another or several consecutive ones at
//! once. Unless the next match is in the hour of the match before it, the searcher calls [`next_local`] or
//! [`next_after`] in this file. They call [`time`] for the time of day, and [`day`] for the day. [`day`] calls [`month`]
//! for the next month whose year and month number match.

ghost use Rattle.std.specs.Prelude.{◌≡◌, ◌+◌, ◌*◌, ◌≤◌, ◌<◌, true, pos, ◌≤ℤ◌, unsigned_abs};
ghost use Rattle.std.specs.Option.{option_map};
ghost use Rattle.cal_civil.specs.rules.LocalSecond.{IsLocalSecond, seconds_in_all, days_in_all, seconds_per_day};
ghost use Rattle.cal_elapse.specs.rules.ExaminedMonths.{IsSearch, examined_months};
ghost use Rattle.cal_elapse.specs.computed.Masks.{sets_in};
ghost use Rattle.cal_elapse.specs.rules.Search.{IsFirstLocal, IsFirstPassing};
ghost use Rattle.cal_elapse.specs.computed.SearchSteps.{day_to_start, second_on};
ghost use Rattle.cal_spec.specs.rules.Match.{matches, time_in};
ghost use Rattle.cal_elapse.specs.rules.Months.{months_in_all};

pub(crate) mod day;
pub(crate) mod month;
pub(crate) mod searcher;
pub(crate) mod time;

use crate::Masks;
use crate::month::month_of_day;
use crate::search::day::next_day;
use crate::search::time::{first_second, next_second};
use cal_civil::{DAY, LOCAL_END, day_of, second_of_day};

/// The result of a search.
#[derive(Clone, Copy, Debug, PartialEq, Eq)]
pub struct Found {
    /// The first matching local second, or `None` if there is none.
    pub local: Option<i64>,
    /// How many months the search examined, at most 2,760. A search examines only months whose year and month number
    /// the expression matches, from the month in which it starts to the month of the result, or to the end of 2199 if
    /// there is no result.
    pub months: u32,
}

/// Returns the first matching local second of the years 1970 to 2199 at or after `from` (systemd.time(7), Calendar
/// Events), with the number of months examined. `from` must be at least 0 and at most 7,258,118,400.
#[tactic(auto, using(cal_civil::proofs::LocalLemmas::local_arith, crate::proofs::ExaminedMonthLemmas::examined_most))]
pub fn next_local(masks: &Masks, from: i64) -> Found
    requires low { pos 0 ≤ℤ from }
    requires high { from ≤ℤ pos seconds_in_all }
    ensures first { IsFirstLocal (matches (sets_in masks.now)) from result.local }
    ensures counted { result.months
        ≡ examined_months (sets_in masks.now) (unsigned_abs from) (option_map unsigned_abs result.local) }
    ensures few { result.months ≤ months_in_all }
{
    let mut months = 0;
    if from == LOCAL_END {
        return Found {
            local: None,
            months,
        };
    }
    let day = day_of(from);
    let today = next_second(masks, second_of_day(from));
    match next_day(
        masks,
        month_of_day(day),
        day_to_start(day, today),
        &mut months,
    ) {
        Some(found) => {
            let second = second_on(found, day, today, first_second(masks));
            Found {
                local: Some(local_on(found, second)),
                months,
            }
        }
        None => Found {
            local: None,
            months,
        },
    }
}

/// Returns the first match after `local`, which must itself match. If the result is on the same day, one month counts
/// as examined: the month of `local`, which is known to match.
#[tactic(auto, using(cal_civil::proofs::LocalLemmas::local_arith))]
pub(crate) fn next_after(masks: &Masks, local: i64) -> Found
    requires inside { IsLocalSecond local }
    requires is_match { matches (sets_in masks.now) (unsigned_abs local) ≡ true }
    ensures { IsSearch (sets_in masks.now) (unsigned_abs local + 1) result }
{
    match second_after(masks, second_of_day(local)) {
        Some(second) => Found {
            local: Some(local_on(day_of(local), second)),
            months: 1,
        },
        None => next_local(masks, local + 1),
    }
}

/// Returns the local second that is `second` seconds after the start of the day with the number `day`.
fn local_on(day: u32, second: u32) -> i64
    requires day { day < days_in_all }
    requires second { second < seconds_per_day }
    ensures { result ≡ pos (day * seconds_per_day + second) }
{
    i64::from(day) * DAY + i64::from(second)
}

/// Returns the first matching time of day after `second`, or `None` if no later time of day matches.
fn second_after(masks: &Masks, second: u32) -> Option<u32>
    requires { second < seconds_per_day }
    ensures { IsFirstPassing (time_in (sets_in masks.now)) (second + 1) seconds_per_day result }
{
    if i64::from(second) + 1 < DAY {
        next_second(masks, second + 1)
    } else {
        None
    }
}

/// Returns the earliest day on which a search that starts on `day` can find a match. `today` is the first matching time
/// left on `day`. If there is none, the result is the day after `day`.
fn day_to_start(day: u32, today: Option<u32>) -> u32
    requires { day < days_in_all }
    ensures { result ≡ day_to_start day today }
{
    match today {
        Some(_) => day,
        None => day + 1,
    }
}

/// Returns the time of day of a search's result. The search started on `day` and found a match on the day `found`.
/// `today` is the first matching time that was left on `day`, and `first` is the first matching time of a whole day.
/// The result is `today` if it is a time and both days are the same, and otherwise `first`.
fn second_on(found: u32, day: u32, today: Option<u32>, first: u32) -> u32
    ensures { result ≡ second_on found day today first }
{
    match today {
        Some(second) if found == day => second,
        _ => first,
    }
}
