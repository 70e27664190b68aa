//! Parsing of one part of a component, and checks of its values.

ghost use Rattle.std.specs.Prelude.{◌≡◌};
ghost use Rattle.std.specs.Option.{option_map};
ghost use Rattle.cal_spec.specs.computed.Parts.{symbols, starts_with_point, bad, is_time, number_due, with_step, after_end, after_start, part_of, is_within, is_outside, is_backward, is_zero, reaches_no_further_value, fault_of};
ghost use Rattle.cal_spec.specs.rules.FullYears.{with_century, with_full_years};
ghost use Rattle.cal_spec.specs.computed.Reads.{Gives};

use crate::numbers::{Symbol, first_symbol, value_of};
use crate::slot::Slot;
use crate::{Part, SpecFault};

/// The greatest number that a part may contain.
const MAX_NUMBER: u16 = 9999;

/// Parses a part, `a`, `a/r`, `a..b` or `a..b/r`, without checking its values (systemd.time(7), Calendar Events). If
/// the syntax is wrong, the error is that of the leftmost mistake. A number above `MAX_NUMBER` and a fraction of a
/// second count as mistakes in the syntax too.
#[tactic(auto, unfolding(crate::specs::computed::Parts::part_of))]
pub(crate) fn read_part(slot: Slot, text: &[u8]) -> Result<Part, SpecFault>
    ensures { Gives (λ part. part) result (part_of slot text.now) }
{
    let (start, after) = read_number(slot, text)?;
    after_start(slot, start, after)
}

/// Expands two-digit years if the part belongs to the year. Other parts are unchanged.
pub(crate) fn with_full_years(slot: Slot, part: Part) -> Part
    ensures { result ≡ with_full_years slot part }
{
    if slot != Slot::Year {
        return part;
    }
    Part {
        start: with_century(part.start),
        end: part.end.map(with_century),
        step: part.step,
    }
}

/// Returns the first error in the part's values, or `None` if they are valid. The checks are made in this order:
/// `OutOfField`, `BackwardRange`, `ZeroRepeat`, `NoRepeat`.
#[tactic(auto, unfolding(crate::specs::computed::Parts::fault_of))]
pub(crate) fn fault_of(slot: Slot, part: Part) -> Option<SpecFault>
    ensures { result ≡ fault_of slot part }
{
    if is_outside(slot, part.start, part.end) {
        Some(SpecFault::OutOfField)
    } else if is_backward(part.start, part.end) {
        Some(SpecFault::BackwardRange)
    } else if part.step == Some(0) {
        Some(SpecFault::ZeroRepeat)
    } else if reaches_no_further_value(slot, part) {
        Some(SpecFault::NoRepeat)
    } else {
        None
    }
}

pub(crate) fn is_time(slot: Slot) -> bool
    ensures { result ≡ is_time slot }
{
    matches!(slot, Slot::Hour | Slot::Minute | Slot::Second)
}

/// Returns the error for a part with wrong syntax: `BadTime` in an hour, minute or second, and otherwise `BadDate`.
fn bad_shape(slot: Slot) -> SpecFault
    ensures { result ≡ bad slot }
{
    if is_time(slot) {
        SpecFault::BadTime
    } else {
        SpecFault::BadDate
    }
}

/// Parses a number at the start of `text`. Returns the number and the text after it. Fails if `text` doesn't begin with
/// a digit, if the number is above `MAX_NUMBER`, or, in the seconds, if a single point follows the number.
fn read_number(slot: Slot, text: &[u8]) -> Result<(u16, &[u8]), SpecFault>
    ensures { Gives (λ found. record { number = found.0; after = symbols found.1.now }) result
        (number_due slot (symbols text.now)) }
{
    let Some((Symbol::Digits(digits), after)) = first_symbol(text) else {
        return Err(bad_shape(slot));
    };
    let number = value_of(digits);
    if number > MAX_NUMBER {
        return Err(SpecFault::NumberTooLarge);
    }
    if slot == Slot::Second && begins_with_point(after) {
        return Err(SpecFault::FractionalSecond);
    }
    Ok((number, after))
}

/// Returns whether `text` begins with a single point, and not with `..`.
fn begins_with_point(text: &[u8]) -> bool
    ensures { result ≡ starts_with_point (symbols text.now) }
{
    matches!(first_symbol(text), Some((Symbol::Point, _)))
}

/// Parses what follows the first number of a part.
#[tactic(auto, unfolding(crate::specs::computed::Parts::after_start))]
fn after_start(slot: Slot, start: u16, text: &[u8]) -> Result<Part, SpecFault>
    ensures { Gives (λ part. part) result (after_start slot start (symbols text.now)) }
{
    match first_symbol(text) {
        None => Ok(Part {
            start,
            end: None,
            step: None,
        }),
        Some((Symbol::Dots, after)) => {
            let (end, after) = read_number(slot, after)?;
            after_end(slot, start, end, after)
        }
        Some((Symbol::Slash, after)) => with_step(slot, start, None, after),
        Some(_) => Err(bad_shape(slot)),
    }
}

/// Parses what follows the end of a range.
#[tactic(auto, unfolding(crate::specs::computed::Parts::after_end))]
fn after_end(slot: Slot, start: u16, end: u16, text: &[u8]) -> Result<Part, SpecFault>
    ensures { Gives (λ part. part) result (after_end slot start end (symbols text.now)) }
{
    match first_symbol(text) {
        None => Ok(Part {
            start,
            end: Some(end),
            step: None,
        }),
        Some((Symbol::Slash, after)) => with_step(slot, start, Some(end), after),
        Some(_) => Err(bad_shape(slot)),
    }
}

/// Parses the text after the slash of a part. It must be the step and nothing else.
#[tactic(auto, unfolding(crate::specs::computed::Parts::with_step))]
fn with_step(slot: Slot, start: u16, end: Option<u16>, text: &[u8]) -> Result<Part, SpecFault>
    ensures { Gives (λ part. part) result (with_step slot start end (symbols text.now)) }
{
    let (step, after) = read_number(slot, text)?;
    if first_symbol(after).is_some() {
        return Err(bad_shape(slot));
    }
    Ok(Part {
        start,
        end,
        step: Some(step),
    })
}

/// Expands a two-digit year: 0 to 69 become 2000 to 2069, and 70 to 99 become 1970 to 1999. Other years are unchanged.
pub fn with_century(year: u16) -> u16
    ensures { result ≡ with_century year }
{
    match year {
        0..70 => year + 2000,
        70..100 => year + 1900,
        _ => year,
    }
}

fn is_within(slot: Slot, number: u16) -> bool
    ensures { result ≡ is_within slot number }
{
    slot.least() <= number && number <= slot.greatest()
}

/// Returns whether the start or the end of a part is a number that the slot doesn't allow.
fn is_outside(slot: Slot, start: u16, end: Option<u16>) -> bool
    ensures { result ≡ is_outside slot start end }
{
    match end {
        Some(end) => !(is_within(slot, start) && is_within(slot, end)),
        None => !is_within(slot, start),
    }
}

fn is_backward(start: u16, end: Option<u16>) -> bool
    ensures { result ≡ is_backward start end }
{
    match end {
        Some(end) => end < start,
        None => false,
    }
}

/// Returns whether the part is an open-ended repetition, `a/r`, that doesn't reach a second number.
fn reaches_no_further_value(slot: Slot, part: Part) -> bool
    ensures { result ≡ reaches_no_further_value slot part.start part.end part.step }
{
    let (None, Some(step)) = (part.end, part.step) else {
        return false;
    };
    if slot == Slot::DayFromEnd {
        part.start <= step
    } else {
        part.start.saturating_add(step) > slot.greatest()
    }
}
