//! The months of the years 1970 to 2199, indexed from January 1970, which is month 0.

ghost use Rattle.std.specs.Prelude.{◌≡◌, ◌+◌, ◌-◌, ◌<◌, ◌≤◌, ◌≤ℤ◌, pos, unsigned_abs};
ghost use Rattle.std.specs.Int.{IsInRange};
ghost use Rattle.jiff_core.specs.Calendar.{days_from_civil, IsBetween};
ghost use Rattle.jiff_core.specs.Date.{epoch_day};
ghost use Rattle.cal_civil.specs.rules.LocalSecond.{civil_date, days_in_all, first_year, last_year};
ghost use Rattle.cal_elapse.specs.rules.Months.{first_day, length_of, month_of, year_of, months_in_all};

use cal_civil::date_of_day;
use jiff_core::civil::{Date, days_in_month};

/// The number of months in the years 1970 to 2199.
pub(crate) const MONTHS: u32 = 2_760;

/// A month: its index, the day number of its first day (1970-01-01 is day 0), and its length in days.
#[derive(Clone, Copy)]
pub(crate) struct Month {
    pub(crate) index: u32,
    pub(crate) first: u32,
    pub(crate) length: u32,
    ghost index_in: { index < months_in_all },
    ghost first_is: { first ≡ first_day index },
    ghost length_is: { length ≡ length_of index },
}

/// Returns the month with this index, 0 to 2,759.
pub(crate) fn month_at(index: u32) -> Month
    requires { index < months_in_all }
    ensures { result.index ≡ index }
{
    let year = year_at(index);
    let number = (index % 12 + 1) as u8;
    Month {
        index,
        first: first_of(year, number),
        length: days_in_month(year, number).into(),
    }
}

/// Returns the month that contains the day with this number, 0 (1970-01-01) to 84,005 (2199-12-31).
pub(crate) fn month_of_day(day: u32) -> Month
    requires { day < days_in_all }
    ensures index { result.index ≡ month_of (civil_date day) }
    ensures low { result.first ≤ day }
    ensures high { day < result.first + result.length }
{
    let date = date_of_day(day);
    Month {
        index: years_since(date.year) * 12 + u32::from(date.month - 1),
        first: day + 1 - u32::from(date.day),
        length: days_in_month(date.year, date.month).into(),
    }
}

fn year_at(index: u32) -> i16
    requires { index < months_in_all }
    ensures { result ≡ pos (year_of index) }
{
    1_970 + (index / 12) as i16
}

fn years_since(year: i16) -> u32
    requires { IsBetween (pos first_year) (pos last_year) year }
    ensures { result ≡ unsigned_abs year - first_year }
{
    u32::from(year.unsigned_abs()) - 1_970
}

/// Returns the day number of the first day of month `number`, 1 to 12, of a year.
fn first_of(year: i16, number: u8) -> u32
    requires year_in { IsBetween (pos first_year) (pos last_year) year }
    requires number_in { IsInRange 1 12 number }
    requires later { pos 0 ≤ℤ days_from_civil year number 1 }
    ensures { pos result ≡ days_from_civil year number 1 }
{
    epoch_day(Date::constrain(year, number, 1))
}

/// Returns the day number of a date in 1970 or later.
fn epoch_day(date: Date) -> u32
    requires { pos 0 ≤ℤ epoch_day date }
    ensures { pos result ≡ epoch_day date }
{
    date.to_unix_epoch_day().unsigned_abs()
}
