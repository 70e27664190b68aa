//! Parsing of a value of a field, which is a number or a name.

ghost use Rattle.std.specs.Prelude.{◌≡◌};
ghost use Rattle.cal_cron.specs.rules.CronGrammar.{month_names, name_from, name_in, weekday_names};
ghost use Rattle.cal_cron.specs.computed.Items.{Gives, is_number, step_in, value_in};

use crate::{CronField, FieldFault};
use cal_bytes::{are_digits, decimal_value};

/// The greatest number that may follow the `/` of an item.
const MAX_STEP: u64 = 9999;

/// Parses a value: a number that the field allows, or a name.
#[tactic(auto, unfolding(crate::specs::computed::Items::value_in))]
pub(crate) fn read_value(field: CronField, text: &[u8]) -> Result<u16, FieldFault>
    ensures { Gives (λ value. value) result (value_in field text.now) }
{
    if !is_number(text) {
        return name_in(field, text).ok_or(FieldFault::BadValue);
    }
    let number = decimal_value(text);
    if number < u64::from(field.least()) || u64::from(field.greatest()) < number {
        return Err(FieldFault::OutOfField);
    }
    Ok(number as u16)
}

/// Parses a step, from 1 to 9,999.
#[tactic(auto, unfolding(crate::specs::computed::Items::step_in))]
pub(crate) fn read_step(text: &[u8]) -> Result<u16, FieldFault>
    ensures { Gives (λ step. step) result (step_in text.now) }
{
    if !is_number(text) {
        return Err(FieldFault::BadStep);
    }
    let step = decimal_value(text);
    if step == 0 {
        return Err(FieldFault::ZeroStep);
    }
    if step > MAX_STEP {
        return Err(FieldFault::LargeStep);
    }
    Ok(step as u16)
}

fn is_number(text: &[u8]) -> bool
    ensures { result ≡ is_number text.now }
{
    !text.is_empty() && are_digits(text)
}

/// Returns the number of the name in the field, or `None` if the field has no such name.
fn name_in(field: CronField, text: &[u8]) -> Option<u16>
    ensures { result ≡ name_in field text.now }
{
    match field {
        CronField::Month => month_named(text),
        CronField::Weekday => weekday_named(text),
        _ => None,
    }
}

fn month_named(text: &[u8]) -> Option<u16>
    ensures { result ≡ name_from 1 month_names text.now }
{
    if text.eq_ignore_ascii_case(b"jan") {
        Some(1)
    } else if text.eq_ignore_ascii_case(b"feb") {
        Some(2)
    } else if text.eq_ignore_ascii_case(b"mar") {
        Some(3)
    } else if text.eq_ignore_ascii_case(b"apr") {
        Some(4)
    } else if text.eq_ignore_ascii_case(b"may") {
        Some(5)
    } else if text.eq_ignore_ascii_case(b"jun") {
        Some(6)
    } else if text.eq_ignore_ascii_case(b"jul") {
        Some(7)
    } else if text.eq_ignore_ascii_case(b"aug") {
        Some(8)
    } else if text.eq_ignore_ascii_case(b"sep") {
        Some(9)
    } else if text.eq_ignore_ascii_case(b"oct") {
        Some(10)
    } else if text.eq_ignore_ascii_case(b"nov") {
        Some(11)
    } else if text.eq_ignore_ascii_case(b"dec") {
        Some(12)
    } else {
        None
    }
}

fn weekday_named(text: &[u8]) -> Option<u16>
    ensures { result ≡ name_from 0 weekday_names text.now }
{
    if text.eq_ignore_ascii_case(b"sun") {
        Some(0)
    } else if text.eq_ignore_ascii_case(b"mon") {
        Some(1)
    } else if text.eq_ignore_ascii_case(b"tue") {
        Some(2)
    } else if text.eq_ignore_ascii_case(b"wed") {
        Some(3)
    } else if text.eq_ignore_ascii_case(b"thu") {
        Some(4)
    } else if text.eq_ignore_ascii_case(b"fri") {
        Some(5)
    } else if text.eq_ignore_ascii_case(b"sat") {
        Some(6)
    } else {
        None
    }
}
