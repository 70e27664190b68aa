//! Parsing the time of day of a timestamp.

ghost use Rattle.std.specs.Prelude.{◌≡◌, ◌≤◌, IfSome, IfOk};
ghost use Rattle.cal_stamp.specs.rules.StampTime.{both, clock_number, fraction_in, second_written, time_by, time_numbers, time_written};

use crate::StampFault;
use crate::date::read_number;
use cal_bytes::are_digits;
use cal_span::fraction_of;
use cal_spec::first_piece;
use cal_zone::MICROS_PER_SECOND;

/// How many digits of a fraction of a second are used. Further digits are ignored.
const KEPT_DIGITS: usize = 6;

/// Parses a time of day and returns the microseconds after midnight. A time of day is `H:M`, `H:M:S`, or `H:M:S.`
/// followed by one or more digits, of which the first six are used (systemd.time(7), Parsing Timestamps). H is from 0
/// to 23, M and S are from 0 to 59, and each has one or two digits. Fails with `BadTime` for anything else.
#[tactic(auto, unfolding(crate::specs::rules::StampTime::time_written))]
pub(crate) fn read_time(word: &[u8]) -> Result<u64, StampFault>
    ensures value { result ≡ time_written word.now }
    ensures bound { IfOk result (λ micros. micros ≤ 90_000_000_000) }
{
    time_numbers(word).ok_or(StampFault::BadTime)
}

/// Parses a time of day and returns the microseconds after midnight, or `None` if `word` is not a time.
#[tactic(auto, unfolding(crate::specs::rules::StampTime::time_numbers))]
fn time_numbers(word: &[u8]) -> Option<u64>
    ensures value { result ≡ time_numbers word.now }
    ensures bound { IfSome result (λ micros. micros ≤ 90_000_000_000) }
{
    let (hour, after) = first_piece(word, b':');
    let (minute, after) = first_piece(after?, b':');
    let Some(after) = after else {
        return time_of(hour, minute, Some(0));
    };
    let (second, after) = first_piece(after, b':');
    match after {
        Some(_) => None,
        None => time_of(hour, minute, read_second(second)),
    }
}

/// Returns the microseconds after midnight, given the digits of the hour, the digits of the minute, and the
/// microseconds since the start of the minute. Returns `None` if any of the three is invalid.
fn time_of(hour: &[u8], minute: &[u8], micros: Option<u64>) -> Option<u64>
    requires { IfSome micros (λ micros. micros ≤ 120_000_000) }
    ensures value { result ≡ time_by (clock_number 23 hour.now) (clock_number 59 minute.now) micros }
    ensures bound { IfSome result (λ micros. micros ≤ 90_000_000_000) }
{
    let hour = clock_number(hour, 23)?;
    let minute = clock_number(minute, 59)?;
    Some((hour * 3_600 + minute * 60) * MICROS_PER_SECOND + micros?)
}

/// Parses the seconds of a time and returns microseconds. The seconds are a number of one or two digits, at most 59,
/// which may be followed by a point and one or more digits. Returns `None` for anything else.
#[tactic(auto, unfolding(crate::specs::rules::StampTime::second_written))]
fn read_second(word: &[u8]) -> Option<u64>
    ensures value { result ≡ second_written word.now }
    ensures bound { IfSome result (λ micros. micros ≤ 120_000_000) }
{
    let (whole, after) = first_piece(word, b'.');
    let Some(after) = after else {
        return both(clock_number(whole, 59), Some(0));
    };
    let (digits, after) = first_piece(after, b'.');
    match after {
        Some(_) => None,
        None => both(clock_number(whole, 59), read_fraction(digits)),
    }
}

/// Returns the sum of whole seconds and microseconds, in microseconds, or `None` if either is `None`.
fn both(seconds: Option<u64>, micros: Option<u64>) -> Option<u64>
    requires seconds { IfSome seconds (λ seconds. seconds ≤ 59) }
    requires micros { IfSome micros (λ micros. micros ≤ 60_000_000) }
    ensures value { result ≡ both seconds micros }
    ensures bound { IfSome result (λ micros. micros ≤ 120_000_000) }
{
    Some(seconds? * MICROS_PER_SECOND + micros?)
}

/// Parses a number of one or two digits that is at most `greatest`. Returns `None` for anything else.
#[tactic(auto, unfolding(crate::specs::rules::StampTime::clock_number))]
fn clock_number(word: &[u8], greatest: u16) -> Option<u64>
    ensures value { result ≡ clock_number greatest word.now }
    ensures bound { IfSome result (λ number. number ≤ greatest) }
{
    let number = read_number(word, 2)?;
    if number > greatest {
        return None;
    }
    Some(u64::from(number))
}

/// Parses one or more digits of a fraction of a second and returns microseconds. Only the first six digits are used.
/// Returns `None` for anything else.
#[tactic(auto, unfolding(crate::specs::rules::StampTime::fraction_in))]
fn read_fraction(digits: &[u8]) -> Option<u64>
    ensures value { result ≡ fraction_in digits.now }
    ensures bound { IfSome result (λ micros. micros ≤ 60_000_000) }
{
    if digits.is_empty() || !are_digits(digits) {
        return None;
    }
    let kept = &digits[..digits.len().min(KEPT_DIGITS)];
    Some(fraction_of(kept, MICROS_PER_SECOND))
}
