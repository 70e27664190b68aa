//! Replacing steps without an end, such as `0/7`, with ranges, such as `0..59/7`.

ghost use Rattle.std.specs.Prelude.{◌≡◌, ◌<◌, ℕ, false, true, IfOk, IfSome, string_bytes};
ghost use Rattle.std.specs.List.{list_any};
ghost use Rattle.std.specs.Option.{option_copied};
ghost use Rattle.cal_spec.specs.rules.Members.{part_has, repeats};
ghost use Rattle.cal_spec.specs.declared.slot.Slot.TheVariants.{DayFromEnd};
ghost use Rattle.cal_lint.specs.rules.ClosedSteps.{IsClosedForm, IsClosedOf, any_open_step, has_open_step, has_same_numbers, is_open_step, is_same_field, slot_in};

use crate::open_steps::{count_of, first_number, last_number};
use cal_bytes::{first_word, last_word};
use cal_civil::{begins_with_letter, begins_zone};
use cal_spec::{Expr, Field, Part, SpecFault, normal_text, read_expr};
use std::alloc::{AllocError, Global};

/// All components, in the order of the normal form.
const FIELDS: [Field; 6] = [
    Field::Year,
    Field::Month,
    Field::Day,
    Field::Hour,
    Field::Minute,
    Field::Second,
];

/// Returns an expression that elapses when `expr` does, with a range in place of each step without an end: `0..59/7`
/// for `0/7`. The result has the layout of the normal form ([`normal_text`]).
///
/// Returns `None` only if the result is longer than an expression may be; that this is the only reason isn't proved.
/// Fails only if allocation fails.
pub fn closed_form(alloc: Global, expr: &Expr) -> Result<Option<String>, AllocError>
    ensures { IfOk result (λ found. IfSome found (λ text. IsClosedForm expr.now (string_bytes text))) }
{
    let text = closed_text(alloc, expr)?;
    if is_closed_form(alloc, expr, text.as_str())? {
        Ok(Some(text))
    } else {
        Ok(None)
    }
}

/// Returns whether `text` is an expression that elapses when `expr` does, and has no step without an end.
fn is_closed_form(alloc: Global, expr: &Expr, text: &str) -> Result<bool, AllocError>
    ensures { IfOk result (λ closed. closed ≡ true → IsClosedForm expr.now text.now) }
{
    match read_expr(alloc, text) {
        Ok(closed) => Ok(is_closed_of(expr, &closed)),
        Err(SpecFault::NoMemory) => Err(AllocError),
        Err(_) => Ok(false),
    }
}

#[tactic(auto, using(crate::proofs::ClosedFormLemmas::same_matches))]
fn is_closed_of(expr: &Expr, closed: &Expr) -> bool
    ensures { result ≡ true → IsClosedOf expr.now closed.now }
{
    is_same_but_numbers(expr, closed) && has_same_numbers(expr, closed) && !has_open_step(closed)
}

/// Returns whether two expressions have the same weekdays and the same zone, and count days from the same end of the
/// month.
fn is_same_but_numbers(one: &Expr, other: &Expr) -> bool
    ensures weekdays { result ≡ true → other.now.weekdays ≡ one.now.weekdays }
    ensures from_end { result ≡ true → other.now.from_end ≡ one.now.from_end }
    ensures zone { result ≡ true → other.now.zone ≡ one.now.zone }
{
    has_same_weekdays(one, other) && other.from_end() == one.from_end() && is_same_zone(one, other)
}

fn has_same_weekdays(one: &Expr, other: &Expr) -> bool
    ensures { result ≡ true → other.now.weekdays ≡ one.now.weekdays }
{
    other.weekdays() == one.weekdays()
}

/// Returns whether two expressions have the same zone suffix: the same name, the same UTC offset, or none at all.
fn is_same_zone(one: &Expr, other: &Expr) -> bool
    ensures { result ≡ true → other.now.zone ≡ one.now.zone }
{
    other.zone_offset() == one.zone_offset() && other.zone_name() == one.zone_name()
}

fn has_same_numbers(one: &Expr, other: &Expr) -> bool
    ensures { result ≡ has_same_numbers one.now other.now }
{
    FIELDS.iter().all(|field| is_same_field(one, other, *field))
}

fn is_same_field(one: &Expr, other: &Expr, field: Field) -> bool
    ensures { result ≡ is_same_field one.now other.now field }
{
    let first = first_number(field);
    (first..first + count_of(field)).all(|number| one.has_member(field, number)
        == other.has_member(field, number))
}

fn has_open_step(expr: &Expr) -> bool
    ensures { result ≡ has_open_step expr.now }
{
    FIELDS.iter().any(|field| any_open_step(expr.field(*field)))
}

fn any_open_step(parts: Option<&[Part]>) -> bool
    ensures { result ≡ any_open_step (option_copied parts.entry) }
{
    match parts {
        Some(parts) => has_open_part(parts),
        None => false,
    }
}

fn has_open_part(parts: &[Part]) -> bool
    ensures { result ≡ list_any (λ p. is_open_step p.end p.step) parts.now }
{
    parts.iter().any(|part| is_open_step(part.end, part.step))
}

fn is_open_step(end: Option<u16>, step: Option<u16>) -> bool
    ensures { result ≡ is_open_step end step }
{
    end.is_none() && step.is_some()
}

/// Returns the normal form of an expression, with a range in place of each step without an end.
fn closed_text(alloc: Global, expr: &Expr) -> Result<String, AllocError> {
    let normal = normal_text(alloc, expr)?;
    let mut text = String::new(alloc);
    if let Some((word, _)) = first_word(normal.as_str()) {
        if begins_with_letter(word.as_bytes()) {
            text.push_str(word)?;
            text.push_str(" ")?;
        }
    }
    for field in FIELDS {
        text.push_str(lead(expr, field))?;
        push_component(alloc, &mut text, expr, field)?;
    }
    if let Some((_, word)) = last_word(normal.as_str()) {
        if begins_zone(word.as_bytes()) {
            text.push_str(" ")?;
            text.push_str(word)?;
        }
    }
    Ok(text)
}

/// Returns the text between a component of the normal form and the component before it.
fn lead(expr: &Expr, field: Field) -> &'static str {
    match field {
        Field::Year => "",
        Field::Day if expr.from_end() => "~",
        Field::Month | Field::Day => "-",
        Field::Hour => " ",
        Field::Minute | Field::Second => ":",
    }
}

fn push_component(
    alloc: Global,
    text: &mut String,
    expr: &Expr,
    field: Field,
) -> Result<(), AllocError> {
    let Some(parts) = expr.field(field) else {
        return text.push_str("*");
    };
    let mut separator = "";
    for part in parts {
        text.push_str(separator)?;
        push_part(alloc, text, closed_part(expr.from_end(), field, *part))?;
        separator = ",";
    }
    Ok(())
}

/// Appends a part, with at least two digits for its start and for its end.
fn push_part(alloc: Global, text: &mut String, part: Part) -> Result<(), AllocError> {
    let start = part.start;
    let number = format!(in alloc; "{start:02}")?;
    text.push_str(number.as_str())?;
    if let Some(end) = part.end {
        let end = format!(in alloc; "..{end:02}")?;
        text.push_str(end.as_str())?;
    }
    if let Some(step) = part.step {
        let step = format!(in alloc; "/{step}")?;
        text.push_str(step.as_str())?;
    }
    Ok(())
}

/// Returns a part that matches the same numbers as `part`. If `part` is a step without an end, the result is a range.
#[tactic(auto, unfolding(cal_spec::specs::rules::Members::part_has))]
fn closed_part(from_end: bool, field: Field, part: Part) -> Part
    ensures { (value : ℕ) → part_has (slot_in from_end field) result value
        ≡ part_has (slot_in from_end field) part value }
{
    match (part.end, part.step) {
        (None, Some(step)) if step > 0 => range_for(from_end, field, part.start, step),
        _ => part,
    }
}

/// Returns a range that matches the same numbers as `start/step`.
fn range_for(from_end: bool, field: Field, start: u16, step: u16) -> Part
    requires { 0 < step }
    ensures { (value : ℕ) → part_has (slot_in from_end field) result value
        ≡ repeats (slot_in from_end field) start step value }
{
    if from_end && field == Field::Day {
        range_down(start, step)
    } else {
        range_up(field, start, step)
    }
}

/// Returns a range that matches the same days as `start/step` if days are counted from the month's end: `start`,
/// `start` - `step`, .. as long as they are at least 1.
#[tactic(auto, using(crate::proofs::ClosedPartLemmas::range_down), unfolding(cal_spec::specs::rules::Members::part_has))]
fn range_down(start: u16, step: u16) -> Part
    requires { 0 < step }
    ensures { (value : ℕ) → part_has DayFromEnd result value ≡ repeats DayFromEnd start step value }
{
    Part {
        start: start.saturating_sub(1) % step + 1,
        end: Some(start),
        step: Some(step),
    }
}

/// Returns a range that matches the numbers `start`, `start` + `step`, .. up to the field's last number.
#[tactic(auto, unfolding(cal_spec::specs::rules::Members::part_has))]
fn range_up(field: Field, start: u16, step: u16) -> Part
    ensures { (value : ℕ) → part_has (slot_in false field) result value
        ≡ repeats (slot_in false field) start step value }
{
    Part {
        start,
        end: Some(last_number(field)),
        step: Some(step),
    }
}
