//! Matching: whether the fields of an expression match a local second (systemd.time(7), Calendar Events).

ghost use Rattle.std.specs.Prelude.{◌≡◌, ◌<◌, false, unsigned_abs, slice_index_or};
ghost use Rattle.jiff_core.specs.Weekday.{monday_zero};
ghost use Rattle.cal_civil.specs.rules.LocalSecond.{IsLocalSecond, seconds_per_day};
ghost use Rattle.cal_spec.specs.computed.Views.{fields_of};
ghost use Rattle.cal_spec.specs.rules.Match.{date_in, day_value, matches, time_in};
ghost use Rattle.cal_spec.specs.rules.Members.{sets_of};

use crate::fields::{Fields, TimeFields};
use crate::members::component_has;
use crate::slot::{Slot, day_slot};
use cal_civil::{date_of_day, day_of, second_of_day};
use jiff_core::civil::{Date, Weekday, days_in_month};

/// Returns whether the fields match the weekday, date and time of the local second `local`, which must be in the years
/// 1970 to 2199.
#[tactic(auto, using(cal_civil::proofs::LocalLemmas::local_arith), unfolding(crate::specs::rules::Match::matches))]
pub fn has_local(fields: &Fields, local: i64) -> bool
    requires { IsLocalSecond local }
    ensures { result ≡ matches (sets_of (fields_of fields.now)) (unsigned_abs local) }
{
    has_date(fields, date_of_day(day_of(local))) && has_time(fields, second_of_day(local))
}

/// Returns whether the fields match the date and its weekday.
#[tactic(auto, unfolding(crate::specs::rules::Match::date_in, crate::specs::rules::Members::sets_of, crate::specs::computed::Views::fields_of))]
fn has_date(fields: &Fields, date: Date) -> bool
    ensures { result ≡ date_in (sets_of (fields_of fields.now)) date }
{
    let day = day_value(fields.date.from_end, date);
    has_weekday(&fields.weekdays, date.weekday())
        && component_has(Slot::Year, &fields.date.year, date.year.unsigned_abs())
        && component_has(Slot::Month, &fields.date.month, date.month.into())
        && component_has(day_slot(fields.date.from_end), &fields.date.day, day)
}

fn has_weekday(weekdays: &[bool; 7], weekday: Weekday) -> bool
    ensures { result ≡ slice_index_or weekdays.now (monday_zero weekday) false }
{
    weekdays[usize::from(weekday.index())]
}

/// Returns whether the fields match the time of day that is `second` seconds after midnight.
#[tactic(auto, unfolding(crate::specs::rules::Match::time_in, crate::specs::rules::Members::sets_of, crate::specs::computed::Views::fields_of))]
fn has_time(fields: &Fields, second: u32) -> bool
    requires { second < seconds_per_day }
    ensures { result ≡ time_in (sets_of (fields_of fields.now)) second }
{
    let time: &TimeFields = &fields.time;
    component_has(Slot::Hour, &time.hour, (second / 3_600) as u16)
        && component_has(Slot::Minute, &time.minute, (second / 60 % 60) as u16)
        && component_has(Slot::Second, &time.second, (second % 60) as u16)
}

/// Returns the number that the day component of an expression has to match: the day of the month, or, if `from_end` is
/// set, its count from the month's end (1 is the last day).
pub fn day_value(from_end: bool, date: Date) -> u16
    ensures { result ≡ day_value from_end date }
{
    let day = if from_end {
        days_in_month(date.year, date.month) - date.day + 1
    } else {
        date.day
    };
    day.into()
}
