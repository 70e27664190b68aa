//! Parsing of the date and the time of a calendar expression.

ghost use Rattle.std.specs.Prelude.{◌≡◌, ◌≤◌, ◌∷◌, [], MatchOption, filter};
ghost use Rattle.std.specs.List.{position, slice_split};
ghost use Rattle.std.specs.Option.{option_map};
ghost use Rattle.cal_spec.specs.rules.UnparsedTexts.{is_date_sign};
ghost use Rattle.cal_spec.specs.computed.DateAndTime.{date_texts, time_texts, date_in_word, time_in_word, date_fields, time_fields, room_after};
ghost use Rattle.cal_spec.specs.computed.Views.{date_fields_in, time_fields_in, date_texts_in, time_texts_in};
ghost use Rattle.cal_spec.specs.computed.Reads.{GivesUnlessNoMemory};
ghost use Rattle.cal_spec.specs.rules.Fields.{max_counted_parts};

use crate::SpecFault;
use crate::components::{count_parts, read_component};
use crate::fields::{DateFields, TimeFields};
use crate::pieces::first_piece;
use crate::slot::{Slot, day_slot};
use std::alloc::Global;

/// The maximum number of parts in an expression, not counting the first part of the hour, of the minute and of the
/// second.
const MAX_COUNTED_PARTS: usize = 240;

/// Parses a date, `year-month-day` or `month-day`. A `~` in place of the last `-` means that the day is counted from
/// the month's end (systemd.time(7), Calendar Events).
///
/// The number of components and the position of `~` are checked first, and the call fails with `BadDate` if they are
/// wrong. Then the components are parsed from left to right.
#[tactic(auto, unfolding(crate::specs::computed::DateAndTime::date_in_word))]
pub(crate) fn read_date(alloc: Global, word: &[u8]) -> Result<DateFields, SpecFault>
    ensures { GivesUnlessNoMemory date_fields_in result (date_in_word word.now) }
{
    match date_texts(word) {
        Some(texts) => date_fields(alloc, texts),
        None => Err(SpecFault::BadDate),
    }
}

/// Parses a time, `hour:minute` or `hour:minute:second` (systemd.time(7), Calendar Events). The time may have at most
/// `room` parts, not counting the first part of each component.
///
/// The number of components is checked first, and the call fails with `BadTime` if it is wrong. Then the components are
/// parsed from left to right.
#[tactic(auto, unfolding(crate::specs::computed::DateAndTime::time_in_word))]
pub(crate) fn read_time(alloc: Global, room: usize, word: &[u8]) -> Result<TimeFields, SpecFault>
    requires { room ≤ max_counted_parts }
    ensures { GivesUnlessNoMemory time_fields_in result (time_in_word room word.now) }
{
    match time_texts(word) {
        Some(texts) => time_fields(alloc, room, texts),
        None => Err(SpecFault::BadTime),
    }
}

/// Returns how many counted parts may follow this date in an expression: `MAX_COUNTED_PARTS` minus the number of
/// counted parts in the date.
pub(crate) fn room_after(date: &DateFields) -> usize
    ensures value { result ≡ room_after (date_fields_in date.now) }
    ensures bound { result ≤ max_counted_parts }
{
    MAX_COUNTED_PARTS
        .saturating_sub(count_parts(Slot::Year, &date.year))
        .saturating_sub(count_parts(Slot::Month, &date.month))
        .saturating_sub(count_parts(day_slot(date.from_end), &date.day))
}

/// The components of a date, not yet parsed, and whether the day is counted from the month's end.
#[derive(Clone, Copy)]
struct DateTexts<'a> {
    year: &'a [u8],
    month: &'a [u8],
    day: &'a [u8],
    from_end: bool,
}

/// The components of a time, not yet parsed.
#[derive(Clone, Copy)]
struct TimeTexts<'a> {
    hour: &'a [u8],
    minute: &'a [u8],
    second: &'a [u8],
}

/// Splits a date into its components. A missing year becomes `*`. Returns `None` if the number of components is neither
/// two nor three, or if `~` stands anywhere but before the day.
#[tactic(auto, unfolding(crate::specs::computed::DateAndTime::date_texts))]
fn date_texts(word: &[u8]) -> Option<DateTexts<'_>>
    ensures { option_map date_texts_in result ≡ date_texts word.now }
{
    let (first, sign, after) = cut_at_sign(word)?;
    let Some((second, last_sign, third)) = cut_at_sign(after) else {
        return Some(DateTexts {
            year: b"*",
            month: first,
            day: after,
            from_end: sign == b'~',
        });
    };
    if sign == b'~' || cut_at_sign(third).is_some() {
        return None;
    }
    Some(DateTexts {
        year: first,
        month: second,
        day: third,
        from_end: last_sign == b'~',
    })
}

/// Splits `word` at its first `-` or `~`. Returns the text before this sign, the sign itself, and the text after it, or
/// `None` if there is no such sign.
fn cut_at_sign(word: &[u8]) -> Option<(&[u8], u8, &[u8])>
    ensures { MatchOption result
        ((slice_split is_date_sign word.now ≡ word.now ∷ []) × (filter is_date_sign word.now ≡ []))
        (λ found. (slice_split is_date_sign word.now ≡ found.0.now ∷ slice_split is_date_sign found.2.now)
        × (filter is_date_sign word.now ≡ found.1 ∷ filter is_date_sign found.2.now)) }
{
    let index = sign_index(word)?;
    Some((&word[..index], word[index], &word[index + 1..]))
}

/// Returns the index of the first `-` or `~` in `word`, if there is one.
fn sign_index(word: &[u8]) -> Option<usize>
    ensures { result ≡ position is_date_sign word.now }
{
    word.iter().position(|byte| *byte == b'-' || *byte == b'~')
}

/// Splits a time into its components. Missing seconds become `00`. Returns `None` if the number of components is
/// neither two nor three.
#[tactic(auto, unfolding(crate::specs::computed::DateAndTime::time_texts))]
fn time_texts(word: &[u8]) -> Option<TimeTexts<'_>>
    ensures { option_map time_texts_in result ≡ time_texts word.now }
{
    let (hour, after) = first_piece(word, b':');
    let (minute, after) = first_piece(after?, b':');
    let Some(after) = after else {
        return Some(TimeTexts {
            hour,
            minute,
            second: b"00",
        });
    };
    let (second, after) = first_piece(after, b':');
    match after {
        Some(_) => None,
        None => Some(TimeTexts {
            hour,
            minute,
            second,
        }),
    }
}

/// Parses the components of a date from left to right.
#[tactic(auto, unfolding(crate::specs::computed::DateAndTime::date_fields))]
fn date_fields(alloc: Global, texts: DateTexts<'_>) -> Result<DateFields, SpecFault>
    ensures { GivesUnlessNoMemory date_fields_in result (date_fields (date_texts_in texts.entry)) }
{
    let year = read_component(alloc, Slot::Year, MAX_COUNTED_PARTS, texts.year)?;
    let room = MAX_COUNTED_PARTS.saturating_sub(count_parts(Slot::Year, &year));
    let month = read_component(alloc, Slot::Month, room, texts.month)?;
    let room = room.saturating_sub(count_parts(Slot::Month, &month));
    let day = read_component(alloc, day_slot(texts.from_end), room, texts.day)?;
    Ok(DateFields {
        year,
        month,
        day,
        from_end: texts.from_end,
    })
}

/// Parses the components of a time from left to right. They may have at most `room` parts, not counting the first part
/// of each component.
#[tactic(auto, unfolding(crate::specs::computed::DateAndTime::time_fields))]
fn time_fields(alloc: Global, room: usize, texts: TimeTexts<'_>) -> Result<TimeFields, SpecFault>
    requires { room ≤ max_counted_parts }
    ensures { GivesUnlessNoMemory time_fields_in result (time_fields room (time_texts_in texts.entry)) }
{
    let hour = read_component(alloc, Slot::Hour, room, texts.hour)?;
    let room = room.saturating_sub(count_parts(Slot::Hour, &hour));
    let minute = read_component(alloc, Slot::Minute, room, texts.minute)?;
    let room = room.saturating_sub(count_parts(Slot::Minute, &minute));
    let second = read_component(alloc, Slot::Second, room, texts.second)?;
    Ok(TimeFields {
        hour,
        minute,
        second,
    })
}
