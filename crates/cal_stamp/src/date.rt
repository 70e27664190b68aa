//! Parsing the date of a timestamp.

ghost use Rattle.std.specs.Prelude.{◌≡◌, ◌≤◌, pos, IfOk};
ghost use Rattle.jiff.specs.Words.{IsBetween};
ghost use Rattle.cal_stamp.specs.rules.StampDate.{date_numbers, day_of_date, day_written, digits_number};
ghost use Rattle.cal_civil.specs.rules.LocalSecond.{last_day};

use crate::StampFault;
use cal_bytes::{are_digits, decimal_value};
use cal_civil::{FIRST_YEAR, LAST_YEAR};
use cal_spec::{first_piece, with_century};
use jiff_core::civil::Date;

/// A year, a month and a day as they are written. The year may be written without its century, and the date may not
/// exist.
#[derive(Clone, Copy)]
struct DateNumbers {
    year: u16,
    month: u16,
    day: u16,
}

/// Parses a date, `year-month-day`, and returns its day number, counted from 1970-01-01.
///
/// The year has one to four digits, the month and the day one or two (systemd.time(7), Parsing Timestamps). Fails with
/// `BadDate` if `word` doesn't have this form. Years from 0 to 69 stand for 2000 to 2069, and years from 70 to 99 for
/// 1970 to 1999. Fails with `NoSuchDate` if the date isn't a day from 1970-01-01 to 2199-12-31.
#[tactic(auto, unfolding(crate::specs::rules::StampDate::day_written))]
pub(crate) fn read_date(word: &[u8]) -> Result<i64, StampFault>
    ensures value { result ≡ day_written word.now }
    ensures range { IfOk result (IsBetween (pos 0) (pos last_day)) }
{
    match date_numbers(word) {
        Some(date) => day_of_date(with_century(date.year), date.month, date.day),
        None => Err(StampFault::BadDate),
    }
}

/// Parses the three numbers of a date. Returns `None` if `word` doesn't have the form of a date.
#[tactic(auto, unfolding(crate::specs::rules::StampDate::date_numbers))]
fn date_numbers(word: &[u8]) -> Option<DateNumbers>
    ensures { result ≡ date_numbers word.now }
{
    let (year, after) = first_piece(word, b'-');
    let (month, after) = first_piece(after?, b'-');
    let (day, after) = first_piece(after?, b'-');
    match after {
        Some(_) => None,
        None => Some(DateNumbers {
            year: read_number(year, 4)?,
            month: read_number(month, 2)?,
            day: read_number(day, 2)?,
        }),
    }
}

/// Parses a number of 1 to `most` digits. Returns `None` if `word` is anything else.
#[tactic(auto, unfolding(crate::specs::rules::StampDate::digits_number))]
pub(crate) fn read_number(word: &[u8], most: usize) -> Option<u16>
    requires { most ≤ 4 }
    ensures { result ≡ digits_number most word.now }
{
    if word.is_empty() || word.len() > most || !are_digits(word) {
        return None;
    }
    Some(decimal_value(word) as u16)
}

/// Returns the day number of a date, counted from 1970-01-01. Fails with `NoSuchDate` if the date isn't a day from
/// 1970-01-01 to 2199-12-31.
#[tactic(auto, unfolding(crate::specs::rules::StampDate::day_of_date))]
fn day_of_date(year: u16, month: u16, day: u16) -> Result<i64, StampFault>
    ensures value { result ≡ day_of_date year month day }
    ensures range { IfOk result (IsBetween (pos 0) (pos last_day)) }
{
    if year < FIRST_YEAR || year > LAST_YEAR || month > 12 || day > 31 {
        return Err(StampFault::NoSuchDate);
    }
    match Date::new(year as i16, month as i8, day as i8) {
        Ok(date) => Ok(i64::from(date.to_unix_epoch_day())),
        Err(_) => Err(StampFault::NoSuchDate),
    }
}
