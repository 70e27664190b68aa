//! The numbers in a time span, with or without a decimal point (systemd.time(7), Parsing Time Spans).
//!
//! Sums and products that could overflow saturate at `u64::MAX`, which is more than the longest time span.

ghost use Rattle.std.specs.Prelude.{◌≡◌, ◌≤◌, IsTrue, MatchOption, min, false, true};
ghost use Rattle.std.specs.List.{list_all, position, before_first, after_first};
ghost use Rattle.std.specs.Char.{is_ascii_digit};
ghost use Rattle.cal_span.specs.rules.TimeUnit.{size_of};
ghost use Rattle.cal_bytes.specs.rules.Separators.{is_point};
ghost use Rattle.cal_span.specs.rules.PairValue.{is_number, fraction_worth, digits_worth};

use crate::TimeUnit;
use cal_bytes::{are_digits, decimal_value};

/// A number, split into the digits before its decimal point and the digits after it.
#[derive(Clone, Copy)]
pub(crate) struct Number<'a> {
    whole: &'a [u8],
    fraction: &'a [u8],
    ghost digits_before: { IsTrue (list_all is_ascii_digit whole.now) },
    ghost digits_after: { IsTrue (list_all is_ascii_digit fraction.now) },
}

impl<'a> Number<'a> {
    /// Parses `word` as one or more digits with at most one decimal point. Returns `None` for anything else.
    pub(crate) fn new(word: &'a [u8]) -> Option<Number<'a>>
        ensures { MatchOption result (is_number word.now ≡ false) (λ number.
            (is_number word.now ≡ true)
            × (number.whole.now ≡ before_first is_point word.now)
            × (number.fraction.now ≡ after_first is_point word.now)) }
    {
        let (whole, fraction) = split_at_point(word);
        if !are_digits(whole) || !are_digits(fraction) {
            return None;
        }
        if whole.is_empty() && fraction.is_empty() {
            return None;
        }
        Some(Number { whole, fraction })
    }

    /// Returns the length of this number of `unit`s in microseconds, or `u64::MAX` if the length is more than that.
    pub(crate) fn worth(self, unit: TimeUnit) -> u64
        ensures { result
            ≡ min (digits_worth self.entry.whole.now self.entry.fraction.now (size_of unit)) u64.MAX }
    {
        let size = unit.micros();
        decimal_value(self.whole)
            .saturating_mul(size)
            .saturating_add(fraction_of(self.fraction, size))
    }
}

/// Returns the bytes before the first decimal point and the bytes after it. Without a decimal point, returns the whole
/// word and no bytes after it.
fn split_at_point(word: &[u8]) -> (&[u8], &[u8])
    ensures before { result.0.now ≡ before_first is_point word.now }
    ensures after { result.1.now ≡ after_first is_point word.now }
{
    match point_index(word) {
        Some(point) => (&word[..point], &word[point + 1..]),
        None => (word, &[]),
    }
}

fn point_index(word: &[u8]) -> Option<usize>
    ensures { result ≡ position is_point word.now }
{
    word.iter().position(|byte| *byte == b'.')
}

/// Returns how many microseconds the digits after a decimal point add to a number whose unit has `size` microseconds.
/// `size` is at most 31,557,600,000,000, the microseconds in a year. The contribution of each digit is rounded down
/// separately. The sum is at most `size`, so the bound `u64::MAX` of the contract is never reached.
pub fn fraction_of(digits: &[u8], size: u64) -> u64
    requires digits { IsTrue (list_all is_ascii_digit digits.now) }
    requires size { size ≤ size_of TimeUnit.Year }
    ensures { result ≡ min (fraction_worth size 1 digits.now) u64.MAX }
{
    let mut sum = 0_u64;
    let mut divisor = 1_u64;
    for digit in digits {
        // If the divisor saturates, it is far larger than nine times the microseconds of any unit, so the digit adds
        // nothing.
        divisor = divisor.saturating_mul(10);
        sum = sum.saturating_add(u64::from(*digit - b'0') * size / divisor);
    }
    sum
}
