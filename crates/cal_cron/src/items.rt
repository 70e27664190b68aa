//! Parsing of an item of a field: `a`, `a-b` or `*`, or one of `a-b` and `*` followed by a step, `/s`.

ghost use Rattle.std.specs.Prelude.{◌≡◌, ◌==◌, option_map};
ghost use Rattle.std.specs.List.{position};
ghost use Rattle.cal_cron.specs.computed.Items.{Cut, Gives, cut, item_in, span_in};

use crate::values::{read_step, read_value};
use crate::{CronField, FieldFault};

/// The numbers `first`, `first + step`, .. that are at most `last`.
#[derive(Clone, Copy)]
pub struct CronRange {
    pub first: u16,
    pub last: u16,
    pub step: u16,
}

/// Parses an item. A single value becomes a range that begins and ends with this value.
#[tactic(auto, unfolding(crate::specs::computed::Items::item_in))]
pub(crate) fn read_item(field: CronField, text: &[u8]) -> Result<CronRange, FieldFault>
    ensures { Gives (λ range. range) result (item_in field text.now) }
{
    match cut(text, b'/') {
        None => match read_span(field, text)? {
            Some(range) => Ok(range),
            None => {
                let value = read_value(field, text)?;
                Ok(CronRange {
                    first: value,
                    last: value,
                    step: 1,
                })
            }
        },
        Some((span, step)) => match read_span(field, span)? {
            Some(range) => {
                let step = read_step(step)?;
                Ok(CronRange {
                    first: range.first,
                    last: range.last,
                    step,
                })
            }
            None => Err(FieldFault::StepAlone),
        },
    }
}

/// Parses `*` or `a-b`. Returns `None` for any other text.
#[tactic(auto, unfolding(crate::specs::computed::Items::span_in))]
fn read_span(field: CronField, text: &[u8]) -> Result<Option<CronRange>, FieldFault>
    ensures { Gives (λ range. range) result (span_in field text.now) }
{
    if text == b"*".as_slice() {
        return Ok(Some(CronRange {
            first: field.least(),
            last: field.greatest(),
            step: 1,
        }));
    }
    match cut(text, b'-') {
        None => Ok(None),
        Some((first, last)) => {
            let first = read_value(field, first)?;
            let last = read_value(field, last)?;
            if last < first {
                return Err(FieldFault::BackwardRange);
            }
            Ok(Some(CronRange {
                first,
                last,
                step: 1,
            }))
        }
    }
}

/// Returns the texts before and after the first separator, or `None` if there is no separator.
#[tactic(auto, using(crate::proofs::Cuts::cut_at, crate::proofs::Cuts::cut_none))]
fn cut(text: &[u8], separator: u8) -> Option<(&[u8], &[u8])>
    ensures { option_map (λ found. record { front = found.0.now; back = found.1.now }) result ≡ cut separator text.now }
{
    match index_of(text, separator) {
        Some(index) => Some((&text[..index], &text[index + 1..])),
        None => None,
    }
}

fn index_of(text: &[u8], separator: u8) -> Option<usize>
    ensures { result ≡ position (λ byte. byte == separator) text.now }
{
    text.iter().position(|byte| *byte == separator)
}
