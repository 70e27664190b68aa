//! Printing of calendar expressions in their normal form (systemd.time(7), Calendar Events).

ghost use Rattle.std.specs.Prelude.{◌≡◌, ◌≤◌, [], ◌∷◌, IfOk, codes, drop, false, option_copied, option_map, string_bytes};
ghost use Rattle.std.specs.List.{flat_map};
ghost use Rattle.cal_bytes.specs.rules.Puts.{Puts};
ghost use Rattle.cal_bytes.specs.rules.Bytes.{joined};
ghost use Rattle.cal_civil.specs.rules.OffsetText.{offset_text};
ghost use Rattle.cal_spec.specs.computed.Expr.{component};
ghost use Rattle.cal_spec.specs.computed.Views.{shown_suffix};
ghost use Rattle.cal_spec.specs.rules.ExprText.{component_text, day_lead, expr_text, fields_text, number_text, optional_text, part_text, parts_text, row_text, zone_text};

use crate::weekday_runs::put_weekdays;
use crate::zone_suffix::ZoneSuffix;
use crate::{Expr, Field, Part};
use cal_bytes::{Fill, Port, ShortText, Sink, WriteFault, padding, put_all, put_pieces};
use cal_civil::push_offset;
use itoa::Buffer;
use std::alloc::{AllocError, Global};

/// A component to print: the text before the component, the minimum number of digits of each number in it, and its
/// parts (`None` for `*`). Shorter numbers are padded with zeros, except steps, which are never padded.
#[derive(Clone, Copy)]
struct Row<'a> {
    lead: &'a [u8],
    width: usize,
    parts: Option<&'a [Part]>,
    ghost narrow: { width ≤ 4 },
}

/// Writes an expression in its normal form (systemd.time(7), Calendar Events): weekdays, date, time and zone, as in
/// `Mon,Fri 2012-01/2-01,03 *:30:45`. Doesn't allocate.
///
/// Fails with [`WriteFault::Failed`] if and only if the writer fails; then only a prefix of the text was written.
#[tactic(auto, using(cal_bytes::proofs::PutLemmas::puts), unfolding(crate::specs::rules::ExprText::expr_text))]
pub fn write_expr<W: Sink>(out: &mut W, expr: &Expr) -> Result<(), WriteFault>
    requires { W.is_failed out.old ≡ false }
    ensures { Puts W.Sink out.old out.new result (expr_text expr.now) }
{
    put_weekdays(out, &expr.weekdays())?;
    put_rows(out, &rows(expr))?;
    put_zone(out, expr.zone())
}

/// Returns an expression in its normal form, as [`write_expr`] writes it. Fails only if allocation fails, since a normal
/// form is always ASCII.
pub fn normal_text(alloc: Global, expr: &Expr) -> Result<String, AllocError>
    ensures { IfOk result (λ text. string_bytes text ≡ expr_text expr.now) }
{
    let mut out = Port::new(Vec::new(alloc));
    if write_expr(&mut out, expr).is_err() {
        return Err(AllocError);
    }
    match String::from_utf8(out.into_inner()) {
        Ok(text) => Ok(text),
        Err(_) => Err(AllocError),
    }
}

/// Returns the components in the order in which they are printed.
#[tactic(auto, unfolding(crate::specs::rules::ExprText::fields_text))]
fn rows(expr: &Expr) -> [Row<'_>; 6]
    ensures { flat_map (λ row. row_text row.lead.now row.width (option_copied row.parts)) result
        ≡ fields_text expr.now }
{
    let day_lead: &[u8] = if expr.from_end() { b"~" } else { b"-" };
    [
        row_of(expr, b"", 4, Field::Year),
        row_of(expr, b"-", 2, Field::Month),
        row_of(expr, day_lead, 2, Field::Day),
        row_of(expr, b" ", 2, Field::Hour),
        row_of(expr, b":", 2, Field::Minute),
        row_of(expr, b":", 2, Field::Second),
    ]
}

fn row_of<'a>(expr: &'a Expr, lead: &'a [u8], width: usize, field: Field) -> Row<'a>
    requires { width ≤ 4 }
    ensures lead { result.lead.now ≡ lead.now }
    ensures width { result.width ≡ width }
    ensures parts { option_copied result.parts ≡ component field expr.now }
{
    Row {
        lead,
        width,
        parts: expr.field(field),
    }
}

fn put_rows<W: Sink>(out: &mut W, rows: &[Row]) -> Result<(), WriteFault>
    requires { W.is_failed out.old ≡ false }
    ensures { Puts W.Sink out.old out.new result
        (flat_map (λ row. row_text row.lead.now row.width (option_copied row.parts)) rows.now) }
{
    for row in rows {
        put_row(out, *row)?;
    }
    Ok(())
}

#[tactic(auto, using(cal_bytes::proofs::PutLemmas::puts), unfolding(crate::specs::rules::ExprText::row_text))]
fn put_row<W: Sink>(out: &mut W, row: Row) -> Result<(), WriteFault>
    requires { W.is_failed out.old ≡ false }
    ensures { Puts W.Sink out.old out.new result
        (row_text row.entry.lead.now row.entry.width (option_copied row.entry.parts)) }
{
    put_all(out, row.lead)?;
    put_component(out, row.width, row.parts)
}

fn put_component<W: Sink>(
    out: &mut W,
    width: usize,
    parts: Option<&[Part]>,
) -> Result<(), WriteFault>
    requires works { W.is_failed out.old ≡ false }
    requires narrow { width ≤ 4 }
    ensures { Puts W.Sink out.old out.new result (component_text width (option_copied parts.entry)) }
{
    match parts {
        Some(parts) => put_parts(out, width, parts),
        None => put_all(out, b"*"),
    }
}

fn put_parts<W: Sink>(out: &mut W, width: usize, parts: &[Part]) -> Result<(), WriteFault>
    requires works { W.is_failed out.old ≡ false }
    requires narrow { width ≤ 4 }
    ensures { Puts W.Sink out.old out.new result (parts_text width parts.now) }
{
    let Some((first, rest)) = parts.split_first() else {
        return Ok(());
    };
    put_part(out, b"", width, *first)?;
    for part in rest {
        put_part(out, b",", width, *part)?;
    }
    Ok(())
}

/// Writes `lead` and then a part. The part's start and end are padded with zeros to at least `width` digits.
#[tactic(auto, using(cal_bytes::proofs::PutLemmas::puts), unfolding(crate::specs::rules::ExprText::part_text))]
fn put_part<W: Sink>(out: &mut W, lead: &[u8], width: usize, part: Part) -> Result<(), WriteFault>
    requires works { W.is_failed out.old ≡ false }
    requires narrow { width ≤ 4 }
    ensures { Puts W.Sink out.old out.new result (part_text lead.now width part) }
{
    put_number(out, lead, width, part.start)?;
    put_optional(out, b"..", width, part.end)?;
    put_optional(out, b"/", 0, part.step)
}

fn put_optional<W: Sink>(
    out: &mut W,
    lead: &[u8],
    width: usize,
    number: Option<u16>,
) -> Result<(), WriteFault>
    requires works { W.is_failed out.old ≡ false }
    requires narrow { width ≤ 4 }
    ensures { Puts W.Sink out.old out.new result (optional_text lead.now width number) }
{
    match number {
        Some(number) => put_number(out, lead, width, number),
        None => Ok(()),
    }
}

/// Writes `lead` and then a number, padded with zeros to at least `width` digits.
#[tactic(auto, unfolding(crate::specs::rules::ExprText::number_text))]
fn put_number<W: Sink>(
    out: &mut W,
    lead: &[u8],
    width: usize,
    number: u16,
) -> Result<(), WriteFault>
    requires works { W.is_failed out.old ≡ false }
    requires narrow { width ≤ 4 }
    ensures { Puts W.Sink out.old out.new result (number_text lead.now width number) }
{
    let mut digits = Buffer::new();
    let number = digits.format(number);
    put_pieces(
        out,
        &[lead, padding(number, width, Fill::Zero), number.as_bytes()],
    )
}

fn put_zone<W: Sink>(out: &mut W, zone: Option<&ZoneSuffix>) -> Result<(), WriteFault>
    requires { W.is_failed out.old ≡ false }
    ensures { Puts W.Sink out.old out.new result
        (zone_text (option_map shown_suffix (option_copied zone.entry))) }
{
    match zone {
        Some(ZoneSuffix::Name(name)) => put_pieces(out, &[b" ", name.as_bytes()]),
        Some(ZoneSuffix::Offset(seconds)) => put_offset(out, *seconds),
        None => Ok(()),
    }
}

/// Writes a space and a UTC offset, as in ` +02:00`.
fn put_offset<W: Sink>(out: &mut W, seconds: i32) -> Result<(), WriteFault>
    requires { W.is_failed out.old ≡ false }
    ensures { Puts W.Sink out.old out.new result (joined (codes " " ∷ offset_text seconds ∷ [])) }
{
    let mut text = ShortText::new();
    push_offset(&mut text, seconds);
    put_pieces(out, &[b" ", text.as_slice()])
}
