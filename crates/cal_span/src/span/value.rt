//! Parsing time spans, and adding up their pairs of a number and a unit.

ghost use Rattle.std.specs.Prelude.{◌≡◌, ◌<◌, ◌∷◌, [], MatchOption, MatchResult, Ok, Err, length, map};
ghost use Rattle.std.specs.Option.{option_copied};
ghost use Rattle.std.specs.List.{find, list_any};
ghost use Rattle.std.specs.Str.{bytes_eq};
ghost use Rattle.cal_span.specs.rules.UnitSpellings.{spellings_of};
ghost use Rattle.cal_span.specs.computed.SpanValue.{pairs_in, sum_with, span_of};
ghost use Rattle.cal_span.specs.rules.PairValue.{unit_in, unit_named, worth_of};

use crate::span::number::Number;
use crate::span::word::{CharKind, first_span_word};
use crate::{Span, SpanFault, TimeUnit};
use cal_bytes::is_among;

/// Parses a time span: one or more pairs, each a number with an optional unit. Blanks may come before, between and
/// after the numbers and units (systemd.time(7), Parsing Time Spans).
///
/// A number without a unit counts seconds. The values of the pairs are added up. The value of each digit after a
/// decimal point is rounded down to microseconds separately.
///
/// If several pairs are invalid, the leftmost error is reported. In each pair, the number is checked first
/// (`BadNumber`), then the unit (`UnknownUnit`), and then the sum of the pairs up to this one (`TooLarge`). If `text`
/// is empty or blank, the error is `Empty`.
#[tactic(auto, unfolding(crate::specs::computed::SpanValue::span_of))]
pub fn read_span(text: &str) -> Result<Span, SpanFault>
    ensures { MatchResult result
        (λ span. span_of text.now ≡ Ok span.micros)
        (λ fault. span_of text.now ≡ Err fault) }
{
    let Some((first, mut rest)) = first_pair(text.as_bytes()) else {
        return Err(SpanFault::Empty);
    };
    let mut sum = add_pair(Span::ZERO, first)?;
    while let Some((pair, after)) = first_pair(rest) {
        sum = add_pair(sum, pair)?;
        rest = after;
    }
    Ok(sum)
}

/// A number in a time span, and the word of its unit if there is one. The number is empty if another word stands where
/// a number is expected.
#[derive(Clone, Copy)]
struct Pair<'a> {
    number: &'a [u8],
    unit: Option<&'a [u8]>,
}

/// Returns the first pair in `bytes` and the bytes after it, or `None` if `bytes` is empty or blank. If the first word
/// doesn't consist of digits and decimal points, the pair has an empty number, which [`add_pair`] rejects.
fn first_pair(bytes: &[u8]) -> Option<(Pair<'_>, &[u8])>
    ensures { MatchOption result (pairs_in bytes.now ≡ []) (λ found.
        (pairs_in bytes.now
        ≡ record { number = found.0.number.now; unit = option_copied found.0.unit }
        ∷ pairs_in found.1.now)
        × (length found.1.now < length bytes.now)) }
{
    let (word, rest) = first_span_word(bytes)?;
    if word.kind != CharKind::Numeric {
        let stray = Pair {
            number: &[],
            unit: None,
        };
        return Some((stray, rest));
    }
    let mut pair = Pair {
        number: word.text,
        unit: None,
    };
    match first_span_word(rest) {
        Some((unit, after)) if unit.kind == CharKind::Letter => {
            pair.unit = Some(unit.text);
            Some((pair, after))
        }
        _ => Some((pair, rest)),
    }
}

/// Returns the sum of `sum` and the value of the pair. Fails if the pair is invalid or the new sum is too large.
fn add_pair(sum: Span, pair: Pair<'_>) -> Result<Span, SpanFault>
    ensures { let worth = worth_of record {
      number = pair.entry.number.now;
      unit = option_copied pair.entry.unit;
    } in
        MatchResult result
        (λ span. sum_with sum.micros worth ≡ Ok span.micros)
        (λ fault. sum_with sum.micros worth ≡ Err fault) }
{
    let Some(number) = Number::new(pair.number) else {
        return Err(SpanFault::BadNumber);
    };
    let Some(unit) = unit_of(pair.unit) else {
        return Err(SpanFault::UnknownUnit);
    };
    Span::new(sum.micros().saturating_add(number.worth(unit))).ok_or(SpanFault::TooLarge)
}

/// Returns the unit that is spelled `word`, or `None` if there is no such unit. Without a word, the unit is the second.
fn unit_of(word: Option<&[u8]>) -> Option<TimeUnit>
    ensures { result ≡ unit_in (option_copied word.entry) }
{
    match word {
        Some(word) => find_unit(units_by_initial(word), word),
        None => Some(TimeUnit::Second),
    }
}

/// Returns the units that have a spelling with the same first byte as `word`, from the largest to the smallest.
/// [`find_unit`] then compares `word` only with the spellings of these units.
#[tactic(auto, unfolding(crate::specs::rules::PairValue::unit_named, crate::specs::rules::UnitSpellings::spellings_of))]
fn units_by_initial(word: &[u8]) -> &'static [TimeUnit]
    ensures { find (λ unit. list_any (bytes_eq word.now) (spellings_of unit)) result.now ≡ unit_named word.now }
{
    match word {
        [b'y', ..] => &[TimeUnit::Year],
        [b'M', ..] => &[TimeUnit::Month],
        [b'm', ..] => &[TimeUnit::Month, TimeUnit::Minute, TimeUnit::Millisecond],
        [b'w', ..] => &[TimeUnit::Week],
        [b'd', ..] => &[TimeUnit::Day],
        [b'h', ..] => &[TimeUnit::Hour],
        [b's', ..] => &[TimeUnit::Second],
        // The first bytes of the micro sign and of the Greek letter mu.
        [b'u' | 0xc2 | 0xce, ..] => &[TimeUnit::Microsecond],
        _ => &[],
    }
}

/// Returns the first of `units` that can be spelled `word`, or `None` if none of them can.
fn find_unit(units: &[TimeUnit], word: &[u8]) -> Option<TimeUnit>
    ensures { result ≡ find (λ unit. list_any (bytes_eq word.now) (spellings_of unit)) units.now }
{
    for unit in units {
        if is_among(unit.spellings(), word) {
            return Some(*unit);
        }
    }
    None
}
