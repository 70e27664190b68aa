//! Parsing of weekday lists.

ghost use Rattle.std.specs.Prelude.{◌≡◌, ◌≤◌, ◌||◌, length};
ghost use Rattle.std.specs.List.{find, list_any, list_all, position, position_or_len, slice_split};
ghost use Rattle.std.specs.Option.{option_copied};
ghost use Rattle.std.specs.Str.{str_eq_ignore_ascii_case};
ghost use Rattle.cal_civil.specs.rules.Weekday.{name_of, short_name_of};
ghost use Rattle.cal_bytes.specs.rules.Separators.{is_comma};
ghost use Rattle.cal_spec.specs.computed.Reads.{Gives, GivesUnlessNoMemory};
ghost use Rattle.cal_spec.specs.rules.WeekdayNames.{after_joint, day_named, days_of, is_no_letter};
ghost use Rattle.cal_spec.specs.computed.WeekdayLists.{items_of, weekdays_of, without_comma};
ghost use Rattle.cal_spec.specs.rules.Shorthand.{is_like_shorthand};
ghost use Rattle.cal_spec.specs.rules.Weekdays.{is_in_weekday_range, set_of};

use crate::SpecFault;
use crate::pieces::{first_piece, is_same_word};
use cal_civil::{WEEK, short_weekday_name, weekday_name};
use jiff_core::civil::Weekday;
use std::alloc::Global;

/// A range of weekdays, which may wrap around from Sunday to Monday.
#[derive(Clone, Copy)]
pub(crate) struct WeekdayRange {
    first: Weekday,
    last: Weekday,
}

/// Parses a weekday list and returns which weekdays match, from Monday to Sunday (systemd.time(7), Calendar Events).
/// The items of the list are weekdays and ranges of weekdays. They are separated by commas, and one trailing comma is
/// allowed.
///
/// Fails with `UnknownShorthand` if the word consists only of letters and `-`, and its leading letters don't name a
/// weekday. Fails with `BadWeekday` if the word is invalid in any other way.
#[tactic(auto, unfolding(crate::specs::computed::WeekdayLists::weekdays_of, crate::specs::computed::WeekdayLists::listed_days))]
pub(crate) fn read_weekdays(alloc: Global, word: &[u8]) -> Result<[bool; 7], SpecFault>
    ensures { GivesUnlessNoMemory (λ days. days) result (weekdays_of word.now) }
{
    let (letters, _) = word.split_at(letters_len(word));
    if find_day(letters).is_none() {
        return Err(if is_like_shorthand(word) {
            SpecFault::UnknownShorthand
        } else {
            SpecFault::BadWeekday
        });
    }
    let items = read_items(alloc, without_comma(word))?;
    Ok(set_of(&items))
}

/// Parses the items of a weekday list from which a trailing comma has been removed.
fn read_items(alloc: Global, list: &[u8]) -> Result<Vec<WeekdayRange>, SpecFault>
    ensures { GivesUnlessNoMemory (λ items. items.items) result
        (items_of (slice_split is_comma list.now)) }
{
    let mut items = Vec::new(alloc);
    let mut rest = Some(list);
    while let Some(texts) = rest {
        let (first, after) = first_piece(texts, b',');
        let days = read_days(first).ok_or(SpecFault::BadWeekday)?;
        items.push(days)?;
        rest = after;
    }
    Ok(items)
}

/// Parses an item of a weekday list: the name of a weekday, or two names joined by `..` or `-`. Returns `None` if the
/// item is anything else.
#[tactic(auto, unfolding(crate::specs::rules::WeekdayNames::days_of))]
fn read_days(item: &[u8]) -> Option<WeekdayRange>
    ensures { result ≡ days_of item.now }
{
    let (letters, after) = item.split_at(letters_len(item));
    let first = find_day(letters)?;
    if after.is_empty() {
        return Some(WeekdayRange { first, last: first });
    }
    let last = find_day(after_joint(after)?)?;
    Some(WeekdayRange { first, last })
}

/// Removes a leading `..` or `-`. Returns `None` if the text begins with neither.
fn after_joint(text: &[u8]) -> Option<&[u8]>
    ensures { option_copied result ≡ after_joint text.now }
{
    match text {
        [b'-', name @ ..] | [b'.', b'.', name @ ..] => Some(name),
        _ => None,
    }
}

/// Returns the weekday with this name, in full or shortened to three letters, ignoring case. Returns `None` if no
/// weekday has this name.
#[tactic(auto, unfolding(crate::specs::rules::WeekdayNames::day_named))]
pub fn find_day(word: &[u8]) -> Option<Weekday>
    ensures { result ≡ day_named word.now }
{
    find_named(&WEEK, word)
}

fn find_named(days: &[Weekday], word: &[u8]) -> Option<Weekday>
    ensures { result ≡ find (λ day. str_eq_ignore_ascii_case word.now (name_of day)
        || str_eq_ignore_ascii_case word.now (short_name_of day)) days.now }
{
    days.iter().copied().find(|day| {
        is_same_word(word, weekday_name(*day)) || is_same_word(word, short_weekday_name(*day))
    })
}

/// Returns how many ASCII letters `word` begins with.
pub fn letters_len(word: &[u8]) -> usize
    ensures value { result ≡ position_or_len is_no_letter word.now }
    ensures within { result ≤ length word.now }
{
    word.iter()
        .take_while(|byte| byte.is_ascii_alphabetic())
        .count()
}

/// Removes the trailing comma, if there is one. If there are several, only the last comma is removed.
fn without_comma(word: &[u8]) -> &[u8]
    ensures { result.now ≡ without_comma word.now }
{
    word.strip_suffix(b",").unwrap_or(word)
}

/// Returns whether the word consists only of letters and `-`, as all shorthands do.
fn is_like_shorthand(word: &[u8]) -> bool
    ensures { result ≡ is_like_shorthand word.now }
{
    word.iter()
        .all(|byte| byte.is_ascii_alphabetic() || *byte == b'-')
}

/// Returns which weekdays are in at least one of the items, from Monday to Sunday.
fn set_of(items: &[WeekdayRange]) -> [bool; 7]
    ensures { result ≡ set_of items.now }
{
    [
        is_chosen(items, Weekday::Monday),
        is_chosen(items, Weekday::Tuesday),
        is_chosen(items, Weekday::Wednesday),
        is_chosen(items, Weekday::Thursday),
        is_chosen(items, Weekday::Friday),
        is_chosen(items, Weekday::Saturday),
        is_chosen(items, Weekday::Sunday),
    ]
}

fn is_chosen(items: &[WeekdayRange], day: Weekday) -> bool
    ensures { result ≡ list_any (is_in_weekday_range day) items.now }
{
    items.iter().any(|days| is_in_weekday_range(day, *days))
}

fn is_in_weekday_range(day: Weekday, days: WeekdayRange) -> bool
    ensures { result ≡ is_in_weekday_range day days }
{
    days.first.until(day) <= days.first.until(days.last)
}
