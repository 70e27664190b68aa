//! Fixed UTC offsets, such as `+02:00`, that can be written instead of a zone's name.

ghost use Rattle.std.specs.Prelude.{◌≡◌, ◌≤◌, IfSome};
ghost use Rattle.jiff_core.specs.Timestamp.{IsOffsetSeconds};
ghost use Rattle.cal_civil.specs.rules.OffsetWord.{begins_zone};
ghost use Rattle.cal_civil.specs.computed.ReadOffset.{hour_minute_in, offset_in, two_digits};

use crate::begins_with_letter;

/// Returns whether `word` is parsed as a zone at a position where a zone is allowed (systemd.time(7), Calendar Events
/// and Parsing Timestamps). Words that begin with a letter are parsed as names of zones, and words that begin with `+`
/// or `-` as UTC offsets, a form of this project's own. The rest of the word may still be invalid.
pub fn begins_zone(word: &[u8]) -> bool
    ensures { result ≡ begins_zone word.now }
{
    begins_with_letter(word) || matches!(word, [b'+' | b'-', ..])
}

/// Parses `+hh:mm` or `-hh:mm`, with hh from 00 to 25 and mm from 00 to 59, as a UTC offset in seconds: -93,540 to
/// 93,540. Returns `None` for any other word.
#[tactic(auto, unfolding(crate::specs::computed::ReadOffset::offset_in))]
pub fn read_offset(word: &[u8]) -> Option<i32>
    ensures value { result ≡ offset_in word.now }
    ensures range { IfSome result IsOffsetSeconds }
{
    match word {
        [b'+', clock @ ..] => Some(read_hour_minute(clock)? as i32),
        [b'-', clock @ ..] => Some(-(read_hour_minute(clock)? as i32)),
        _ => None,
    }
}

/// Parses `hh:mm`, up to 25:59, and returns it as a number of seconds. Returns `None` for any other text.
#[tactic(auto, unfolding(crate::specs::computed::ReadOffset::hour_minute_in))]
fn read_hour_minute(text: &[u8]) -> Option<u32>
    ensures value { result ≡ hour_minute_in text.now }
    ensures range { IfSome result (λ seconds. seconds ≤ 93_540) }
{
    match text {
        [a, b, b':', d, e] => Some(two_digits(*a, *b, 25)? * 3_600 + two_digits(*d, *e, 59)? * 60),
        _ => None,
    }
}

/// Parses two ASCII digits. Returns `None` if a byte isn't a digit, or if the number is greater than `greatest`.
#[tactic(auto, unfolding(crate::specs::computed::ReadOffset::two_digits))]
fn two_digits(tens: u8, ones: u8, greatest: u32) -> Option<u32>
    ensures value { result ≡ two_digits greatest tens ones }
    ensures range { IfSome result (λ number. number ≤ greatest) }
{
    if !tens.is_ascii_digit() || !ones.is_ascii_digit() {
        return None;
    }
    let number = u32::from(tens - b'0') * 10 + u32::from(ones - b'0');
    if number > greatest {
        return None;
    }
    Some(number)
}
