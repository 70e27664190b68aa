//! Seconds of Unix time that are written as decimal numbers.

ghost use Rattle.std.specs.Prelude.{◌≡◌, min, option_map};
ghost use Rattle.cal_answers.specs.rules.Seconds.{number_in, second_at};

use cal_bytes::{are_digits, decimal_value};

/// The last instant, in seconds of Unix time.
const LAST_SECOND: u64 = 7_258_211_998;

/// Returns the number that a text of digits stands for, or `u64::MAX` if the number is larger. Returns `None` if the
/// text is empty or has anything else than digits.
pub(crate) fn number_in(text: &[u8]) -> Option<u64>
    ensures { result ≡ option_map (λ number. min number u64.MAX) (number_in text.now) }
{
    if text.is_empty() || !are_digits(text) {
        return None;
    }
    Some(decimal_value(text))
}

/// Returns the second that is `count` seconds after 1970-01-01 00:00:00 UTC, or `None` if it is after the last instant.
pub(crate) fn second_at(count: u64) -> Option<i64>
    ensures { result ≡ second_at count }
{
    if count > LAST_SECOND {
        return None;
    }
    Some(count as i64)
}
