//! Parsing timestamps that are civil times, `[weekday] [date] [time] [zone]`, and converting civil times to moments.

ghost use Rattle.std.specs.Prelude.{◌≡◌, ◌≤◌, pos, neg_ℤ, IfOk, IfSome};
ghost use Rattle.std.specs.List.{list_any};
ghost use Rattle.jiff.specs.Words.{IsBetween};
ghost use Rattle.cal_zone.specs.rules.Setting.{setting_seen};
ghost use Rattle.cal_bytes.specs.rules.Separators.{is_colon, words};
ghost use Rattle.cal_stamp.specs.rules.StampTime.{begins_with_digit};
ghost use Rattle.cal_stamp.specs.computed.Stamp.{after_date, after_weekday, civil_time, fits_weekday, moment_of_civil_stamp, civil_stamp_in};
ghost use Rattle.cal_stamp.specs.rules.StampViews.{micros_or_fault, civil_stamp_seen, civil_stamp_or_fault};
ghost use Rattle.cal_civil.specs.rules.LocalSecond.{last_day};

use crate::StampFault;
use crate::civil_stamp::CivilStamp;
use crate::date::read_date;
use crate::moment::{settle_on, today};
use crate::time::read_time;
use crate::zone::read_zone;
use cal_bytes::first_word;
use cal_civil::begins_with_letter;
use cal_spec::find_day;
use cal_zone::{Instant, Moment, Setting};
use jiff::civil::Weekday;
use jiff_core::civil::Date;

/// Parses a civil time, `[weekday] [date] [time] [zone]` with at least a date or a time (systemd.time(7), Parsing
/// Timestamps). The words are checked from the left, and the first error is returned.
pub(crate) fn read_civil<'t>(text: &str, at: Setting<'t>) -> Result<CivilStamp<'t>, StampFault>
    ensures { civil_stamp_or_fault result ≡ civil_time (setting_seen at.entry) (words text.now) }
{
    match first_word(text) {
        Some((word, after)) if begins_with_letter(word.as_bytes()) => {
            let weekday = find_day(word.as_bytes()).ok_or(StampFault::BadWeekday)?;
            after_weekday(Some(weekday), after, at)
        }
        _ => after_weekday(None, text, at),
    }
}

/// Parses the words after the weekday, or all words if no weekday is named. If the first of these words has a colon, it
/// is the time; otherwise it is the date.
fn after_weekday<'t>(
    weekday: Option<Weekday>,
    text: &str,
    at: Setting<'t>,
) -> Result<CivilStamp<'t>, StampFault>
    ensures { civil_stamp_or_fault result ≡ after_weekday (setting_seen at.entry) weekday (words text.now) }
{
    let (word, after) = first_word(text).ok_or(StampFault::BadDate)?;
    if has_colon(word.as_bytes()) {
        let micros = read_time(word.as_bytes())?;
        let zone = read_zone(after, at)?;
        return Ok(CivilStamp {
            weekday,
            day: None,
            micros,
            zone,
        });
    }
    let day = read_date(word.as_bytes())?;
    after_date(weekday, day, after, at)
}

/// Parses the words after the date. If the first of these words begins with a digit, it is the time; otherwise the time
/// is midnight. The words that remain are the zone.
fn after_date<'t>(
    weekday: Option<Weekday>,
    day: i64,
    text: &str,
    at: Setting<'t>,
) -> Result<CivilStamp<'t>, StampFault>
    requires { IsBetween (pos 0) (pos last_day) day }
    ensures { civil_stamp_or_fault result ≡ after_date (setting_seen at.entry) weekday day (words text.now) }
{
    match first_word(text) {
        Some((word, after)) if begins_with_digit(word.as_bytes()) => {
            let micros = read_time(word.as_bytes())?;
            let zone = read_zone(after, at)?;
            Ok(CivilStamp {
                weekday,
                day: Some(day),
                micros,
                zone,
            })
        }
        _ => {
            let zone = read_zone(text, at)?;
            Ok(CivilStamp {
                weekday,
                day: Some(day),
                micros: 0,
                zone,
            })
        }
    }
}

fn has_colon(word: &[u8]) -> bool
    ensures { result ≡ list_any is_colon word.now }
{
    word.contains(&b':')
}

fn begins_with_digit(word: &[u8]) -> bool
    ensures { result ≡ begins_with_digit word.now }
{
    match word {
        [first, ..] => first.is_ascii_digit(),
        [] => false,
    }
}

/// Converts a civil time to a moment. If the civil time has no date, its day is the present day in its zone. Fails with
/// `WrongWeekday` if a weekday is named and the day isn't this weekday, and otherwise with `OutOfRange` if the time is
/// before the first moment or after the last.
#[tactic(auto, unfolding(crate::specs::computed::Stamp::moment_of_civil_stamp))]
pub(crate) fn moment_of_civil_stamp(now: Instant, stamp: CivilStamp) -> Result<Moment, StampFault>
    ensures { micros_or_fault result ≡ moment_of_civil_stamp now.secs (civil_stamp_seen stamp.entry) }
{
    let day = match stamp.day {
        Some(day) => day,
        None => today(now, stamp.zone),
    };
    if !fits_weekday(stamp.weekday, day) {
        return Err(StampFault::WrongWeekday);
    }
    settle_on(stamp.zone, day, stamp.micros)
}

/// Returns whether the day with this number, counted from 1970-01-01, is `weekday`. Returns `true` if `weekday` is
/// `None`.
fn fits_weekday(weekday: Option<Weekday>, day: i64) -> bool
    requires { IsBetween (neg_ℤ (pos 2)) (pos 84_008) day }
    ensures { result ≡ fits_weekday weekday day }
{
    let Some(weekday) = weekday else { return true };
    let Ok(date) = Date::from_unix_epoch_day(day) else {
        unreachable!()
    };
    date.weekday().index() == weekday.index()
}
