//! Common mistakes in the words of invalid calendar expressions, and what to write instead of them.

ghost use Rattle.std.specs.Prelude.{IfOk, IfSome, IsTrue};
ghost use Rattle.std.specs.Option.{option_map};
ghost use Rattle.cal_lint.specs.rules.Hints.{is_of_word};

use crate::hints::{Hint, Mistake, is_valid_expression};
use cal_bytes::are_digits;
use cal_civil::begins_with_letter;
use std::alloc::{AllocError, Global};
use strsim::osa_distance;

/// The names of all shorthands (systemd.time(7), Calendar Events).
static SHORTHANDS: [&str; 12] = [
    "minutely",
    "hourly",
    "daily",
    "weekly",
    "monthly",
    "quarterly",
    "semiannually",
    "semi-annually",
    "biannually",
    "bi-annually",
    "yearly",
    "annually",
];

/// The names of the weekdays: the full name in lower case, and the three letters to which systemd shortens the name.
static DAYS: [(&str, &str); 7] = [
    ("monday", "Mon"),
    ("tuesday", "Tue"),
    ("wednesday", "Wed"),
    ("thursday", "Thu"),
    ("friday", "Fri"),
    ("saturday", "Sat"),
    ("sunday", "Sun"),
];

/// What to write instead of a word, and why.
#[derive(Drop)]
struct Rewritten {
    mistake: Mistake,
    word: String,
}

/// Replaces each word of `text` that is a known mistake. Returns a hint with the first of these mistakes and the new
/// text, or `None` if no word is a known mistake. If `am` or `pm` is a word by itself, the hint has no new text.
pub(crate) fn rewrite_words(alloc: Global, text: &str) -> Result<Option<Hint>, AllocError>
    ensures { IfOk result (λ found. IfSome (option_map (λ hint. hint.mistake) found) (λ mistake. IsTrue (is_of_word mistake))) }
{
    if has_noon_word(text) {
        return Ok(Some(Hint {
            mistake: Mistake::TwelveHours,
            instead: None,
        }));
    }
    let mut joined = String::new(alloc);
    let mut mistake = None;
    for word in text.split_whitespace() {
        let is_first = joined.is_empty();
        if !is_first {
            joined.push(' ')?;
        }
        let found = push_word(alloc, &mut joined, is_first, word)?;
        mistake = mistake.or(found);
    }
    match mistake {
        Some(mistake) => Ok(Some(Hint {
            mistake,
            instead: Some(joined),
        })),
        None => Ok(None),
    }
}

/// Returns whether `am` or `pm` is a word of the text, ignoring case.
fn has_noon_word(text: &str) -> bool {
    for word in text.split_whitespace() {
        if word.eq_ignore_ascii_case("am") || word.eq_ignore_ascii_case("pm") {
            return true;
        }
    }
    false
}

/// Appends a word, or what to write instead if the word is a known mistake. Returns the mistake, if there is one.
fn push_word(
    alloc: Global,
    joined: &mut String,
    is_first: bool,
    word: &str,
) -> Result<Option<Mistake>, AllocError>
    ensures { IfOk result (λ found. IfSome found (λ mistake. IsTrue (is_of_word mistake))) }
{
    match rewrite(alloc, is_first, word)? {
        Some(Rewritten { mistake, word }) => {
            joined.push_str(word.as_str())?;
            Ok(Some(mistake))
        }
        None => {
            joined.push_str(word)?;
            Ok(None)
        }
    }
}

fn rewrite(alloc: Global, is_first: bool, word: &str) -> Result<Option<Rewritten>, AllocError>
    ensures { IfOk result (λ found. IfSome found (λ rewritten. IsTrue (is_of_word rewritten.mistake))) }
{
    if begins_with_letter(word.as_bytes()) {
        return if is_first && !is_valid_expression(alloc, word)? {
            rewrite_name(alloc, word)
        } else {
            Ok(None)
        };
    }
    if let Some((hour, minute)) = twelve_hours(word) {
        return clock(alloc, Mistake::TwelveHours, hour, minute);
    }
    if let Some((hour, minute)) = pointed(word) {
        return clock(alloc, Mistake::Point, hour, minute);
    }
    if let Some(hour) = number_below(word, 24) {
        return clock(alloc, Mistake::BareHour, hour, 0);
    }
    rewrite_signed(alloc, word)
}

/// Returns what to write instead of a time of day with this mistake: the time as `hh:mm`.
fn clock(
    alloc: Global,
    mistake: Mistake,
    hour: u8,
    minute: u8,
) -> Result<Option<Rewritten>, AllocError>
    requires { IsTrue (is_of_word mistake) }
    ensures { IfOk result (λ found. IfSome found (λ rewritten. IsTrue (is_of_word rewritten.mistake))) }
{
    let word = format!(in alloc; "{hour:02}:{minute:02}")?;
    Ok(Some(Rewritten { mistake, word }))
}

/// Parses one or two digits as a number. Returns `None` for any other text, and if the number is not below `end`.
fn number_below(text: &str, end: u8) -> Option<u8> {
    if text.len() > 2 || !are_digits(text.as_bytes()) {
        return None;
    }
    let number = text.parse::<u8>().ok()?;
    if number < end { Some(number) } else { None }
}

/// Parses a time on a 12-hour clock, such as `9am`, `12pm` or `9:30pm`. Returns its hour, 0 to 23, and its minute, or
/// `None` for anything else.
fn twelve_hours(word: &str) -> Option<(u8, u8)> {
    let (time, is_afternoon) = before_noon_mark(word)?;
    let (hour, minute) = match time.split_once(':') {
        Some((hour, minute)) => (number_below(hour, 13)?, number_below(minute, 60)?),
        None => (number_below(time, 13)?, 0),
    };
    if hour == 0 {
        return None;
    }
    let hour = hour % 12;
    Some((if is_afternoon { hour + 12 } else { hour }, minute))
}

/// Returns the text before `am`, `AM`, `pm` or `PM` at the end of a word, and whether the word ends with `pm` or `PM`.
/// Returns `None` for any other word.
fn before_noon_mark(word: &str) -> Option<(&str, bool)> {
    if let Some(time) = word.strip_suffix("am").or(word.strip_suffix("AM")) {
        return Some((time, false));
    }
    let time = word.strip_suffix("pm").or(word.strip_suffix("PM"))?;
    Some((time, true))
}

/// Parses a time with a point in place of the colon, such as `09.00`. Returns its hour and its minute, or `None` for
/// anything else.
fn pointed(word: &str) -> Option<(u8, u8)> {
    let (hour, minute) = word.split_once('.')?;
    if minute.len() != 2 {
        return None;
    }
    Some((number_below(hour, 24)?, number_below(minute, 60)?))
}

/// Rewrites a UTC offset without minutes, or a year and a month without a day. Returns `None` for any other word.
fn rewrite_signed(alloc: Global, word: &str) -> Result<Option<Rewritten>, AllocError>
    ensures { IfOk result (λ found. IfSome found (λ rewritten. IsTrue (is_of_word rewritten.mistake))) }
{
    if let Some(hour) = word.strip_prefix('+') {
        return offset(alloc, '+', hour);
    }
    if let Some(hour) = word.strip_prefix('-') {
        return offset(alloc, '-', hour);
    }
    match year_month(word) {
        Some(month) => {
            let (year, _) = word.split_once('-').unwrap_or(("", ""));
            let word = format!(in alloc; "{year}-{month:02}-*")?;
            Ok(Some(Rewritten {
                mistake: Mistake::YearMonth,
                word,
            }))
        }
        None => Ok(None),
    }
}

/// Rewrites a UTC offset of whole hours. Returns `None` unless `hour` has one or two digits and is at most 25.
fn offset(alloc: Global, sign: char, hour: &str) -> Result<Option<Rewritten>, AllocError>
    ensures { IfOk result (λ found. IfSome found (λ rewritten. IsTrue (is_of_word rewritten.mistake))) }
{
    let Some(hour) = number_below(hour, 26) else {
        return Ok(None);
    };
    let word = format!(in alloc; "{sign}{hour:02}:00")?;
    Ok(Some(Rewritten {
        mistake: Mistake::ShortOffset,
        word,
    }))
}

/// Returns the month of a word such as `2026-12`: a year of four digits, `-`, and a month of one or two digits that is
/// at most 12. Returns `None` for any other word.
fn year_month(word: &str) -> Option<u8> {
    let (year, month) = word.split_once('-')?;
    if year.len() != 4 || !are_digits(year.as_bytes()) {
        return None;
    }
    number_below(month, 13)
}

/// Rewrites a word that begins with a letter: a misspelled shorthand, or a list of weekdays. Returns `None` if the word
/// resembles neither.
fn rewrite_name(alloc: Global, word: &str) -> Result<Option<Rewritten>, AllocError>
    ensures { IfOk result (λ found. IfSome found (λ rewritten. IsTrue (is_of_word rewritten.mistake))) }
{
    if let Some(name) = find_near(alloc, word)? {
        return Ok(Some(Rewritten {
            mistake: Mistake::Shorthand,
            word: String::from_str(alloc, name)?,
        }));
    }
    match rewrite_days(alloc, word)? {
        Some(word) => Ok(Some(Rewritten {
            mistake: Mistake::Weekday,
            word,
        })),
        None => Ok(None),
    }
}

/// Returns the first shorthand that differs from `word` by one edit, ignoring case: in `word`, a letter is wrong,
/// missing or additional, or two adjacent letters are swapped.
fn find_near(alloc: Global, word: &str) -> Result<Option<&'static str>, AllocError> {
    let mut lower = String::from_str(alloc, word)?;
    lower.make_ascii_lowercase();
    for name in &SHORTHANDS {
        if osa_distance(alloc, lower.as_str(), name)? == 1 {
            return Ok(Some(*name));
        }
    }
    Ok(None)
}

/// Rewrites a list of weekdays, with each name shortened to three letters. Returns `None` if a name doesn't resemble a
/// weekday, in the sense of [`find_day_like`].
fn rewrite_days(alloc: Global, word: &str) -> Result<Option<String>, AllocError> {
    let mut days = String::new(alloc);
    for item in word.split(',') {
        if !days.is_empty() {
            days.push(',')?;
        }
        if !push_days(alloc, &mut days, item)? {
            return Ok(None);
        }
    }
    Ok(Some(days))
}

/// Appends a weekday or a range of weekdays. Returns `false` if a name doesn't resemble a weekday.
fn push_days(alloc: Global, days: &mut String, item: &str) -> Result<bool, AllocError> {
    let Some((first, last)) = item.split_once("..").or(item.split_once('-')) else {
        return push_day(alloc, days, item);
    };
    if !push_day(alloc, days, first)? {
        return Ok(false);
    }
    days.push_str("..")?;
    push_day(alloc, days, last)
}

fn push_day(alloc: Global, days: &mut String, name: &str) -> Result<bool, AllocError> {
    match find_day_like(alloc, name)? {
        Some(day) => {
            days.push_str(day)?;
            Ok(true)
        }
        None => Ok(false),
    }
}

/// Returns the short name of the weekday that `name` resembles, ignoring case: the full name of the weekday begins with
/// `name`, or differs from `name` by at most one edit, as in [`find_near`]. Returns `None` if there is no such weekday,
/// if there are several (`sonday` resembles Monday and Sunday), or if `name` has fewer than two bytes.
fn find_day_like(alloc: Global, name: &str) -> Result<Option<&'static str>, AllocError> {
    let mut lower = String::from_str(alloc, name)?;
    lower.make_ascii_lowercase();
    if lower.len() < 2 {
        return Ok(None);
    }
    let mut found = None;
    for (full, short) in &DAYS {
        if full.starts_with(lower.as_str()) || osa_distance(alloc, lower.as_str(), full)? <= 1 {
            if found.is_some() {
                return Ok(None);
            }
            found = Some(*short);
        }
    }
    Ok(found)
}
