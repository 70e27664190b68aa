//! Parsing of calendar expressions.

ghost use Rattle.std.specs.Prelude.{◌≡◌, IfOk};
ghost use Rattle.std.specs.Option.{option_copied};
ghost use Rattle.cal_spec.specs.computed.Expr.{expr_in};
ghost use Rattle.cal_spec.specs.computed.Views.{fields_of, shown_word_roles};
ghost use Rattle.cal_spec.specs.computed.Grammar.{fields_at, fields_in};
ghost use Rattle.cal_spec.specs.computed.Reads.{GivesUnlessNoMemory};
ghost use Rattle.cal_spec.specs.rules.ValidFields.{IsValidFields};
ghost use Rattle.cal_spec.specs.computed.WeekdayLists.{weekdays_in};

use crate::date_and_time::{read_date, read_time, room_after};
use crate::fields::Fields;
use crate::weekdays::read_weekdays;
use crate::words::{WordRoles, find_word_roles};
use crate::zone_suffix::read_suffix;
use crate::{Expr, SpecFault};
use std::alloc::Global;

/// The maximum length of an expression in bytes.
const MAX_TEXT_BYTES: usize = 4096;

/// Parses a calendar expression (systemd.time(7), Calendar Events), and returns it in its normal form. An expression is
/// `[weekdays] [date] [time] [zone]`, with at least one of the first three, or `shorthand [zone]`.
///
/// The first error is reported: [`SpecFault::TextTooLong`] if the text has more than 4,096 bytes, then
/// [`SpecFault::Empty`] if it has no words, then the errors of the words from left to right. Fails with
/// [`SpecFault::NoMemory`] only if allocation fails; this error doesn't say whether the text is valid.
///
/// The zone is a name or a UTC offset, `+hh:mm` or `-hh:mm`. Only the syntax of a name is checked, not whether a zone
/// of that name exists.
#[tactic(auto, unfolding(crate::specs::computed::Expr::expr_in))]
pub fn read_expr(alloc: Global, text: &str) -> Result<Expr, SpecFault>
    ensures { GivesUnlessNoMemory (λ expr. expr) result (expr_in text.now) }
{
    let fields = read_fields(alloc, text)?;
    Ok(Expr::normal(fields))
}

/// Parses the fields of a calendar expression, without bringing them into their normal form. The errors are those of
/// [`read_expr`].
#[tactic(auto, unfolding(crate::specs::computed::Grammar::fields_in))]
fn read_fields(alloc: Global, text: &str) -> Result<Fields, SpecFault>
    ensures fields { GivesUnlessNoMemory fields_of result (fields_in text.now) }
    ensures valid { IfOk result (λ fields. IsValidFields (fields_of fields)) }
{
    if text.len() > MAX_TEXT_BYTES {
        return Err(SpecFault::TextTooLong);
    }
    match find_word_roles(text) {
        Some(roles) => read_roles(alloc, roles),
        None => Err(SpecFault::Empty),
    }
}

/// Parses the weekdays, date, time and zone, in this order. Fails with the first error.
#[tactic(auto, unfolding(crate::specs::computed::Grammar::fields_at, crate::specs::computed::Views::fields_of))]
fn read_roles(alloc: Global, roles: WordRoles<'_>) -> Result<Fields, SpecFault>
    ensures { GivesUnlessNoMemory fields_of result (fields_at (shown_word_roles roles.entry)) }
{
    let weekdays = chosen_weekdays(alloc, roles.weekdays)?;
    let date = read_date(alloc, roles.date)?;
    let time = read_time(alloc, room_after(&date), roles.time)?;
    let zone = read_suffix(alloc, roles.rest)?;
    Ok(Fields {
        weekdays,
        date,
        time,
        zone,
    })
}

/// Returns which weekdays match, from Monday to Sunday. If there is no weekday list, all seven match.
fn chosen_weekdays(alloc: Global, word: Option<&[u8]>) -> Result<[bool; 7], SpecFault>
    ensures { GivesUnlessNoMemory (λ days. days) result (weekdays_in (option_copied word.entry)) }
{
    match word {
        Some(word) => read_weekdays(alloc, word),
        None => Ok([true; 7]),
    }
}
