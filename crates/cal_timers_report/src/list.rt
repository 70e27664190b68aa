//! The report of `list` as text: a table of units.

ghost use Rattle.std.specs.Prelude.{◌≡◌, ◌++◌, IfOk, OnOk, map, option_map, string_bytes};
ghost use Rattle.std.specs.List.{flat_map};
ghost use Rattle.cal_timers_report.specs.rules.Columns.{text_width, widest};
ghost use Rattle.cal_timers_report.specs.rules.ListTable.{
  cells_text,
  heading_line,
  headings_of,
  left_cell,
  list_table,
  next_cell,
  notes_cell,
  notes_room,
  room_after,
  row_line,
  row_of,
  row_seen,
  table_of,
  unit_and_notes,
  unit_width,
  width_in,
  widths_of,
};
ghost use Rattle.cal_timers_report.specs.rules.PrintableText.{printable_text};
ghost use Rattle.cal_timers_report.specs.rules.ReportView.{unit_seen};

use crate::cells::{push_cut, push_padded, push_printable, width_of};
use crate::report::ListRow;
use crate::style::{Emphasis, Style};
use crate::times::{left_text, push_instant};
use cal_zone::{Instant, InstantFormatter, Zone};
use std::alloc::{AllocError, Global};

/// The number of blanks between columns.
const GAP: usize = 2;

/// The minimum room for notes: the width of `fails to load`. Longer notes, such as settings, can be cut.
const NOTES_WIDTH: usize = 13;

/// What is printed if there is no next elapse, in place of the elapse and in place of the time until then.
const NO_ELAPSE: &str = "-";

/// The texts of a row, without control characters.
#[derive(Drop)]
struct Row {
    next: String,
    left: String,
    unit: String,
    notes: String,
}

/// The width of the terminal, and the widths of all columns but the notes, without the blanks after them.
#[derive(Clone, Copy)]
struct Widths {
    terminal: usize,
    next: usize,
    left: usize,
    unit: usize,
}

/// Returns a table with a row for each unit: its next elapse, how long it is until then, its name and its notes. Notes
/// that don't fit into the width of the terminal are cut. If there are no units, returns the line `no timers`.
pub fn list_text(
    alloc: Global,
    zone: Zone<'_>,
    now: Instant,
    rows: &[ListRow<'_>],
    style: Style,
) -> Result<String, AllocError>
    ensures { IfOk result (λ text. string_bytes text ≡ list_table style zone.entry now.secs (map unit_seen rows.now)) }
{
    let rows = rows_of(alloc, zone, now, rows)?;
    table_text(alloc, rows.as_slice(), style)
}

fn rows_of(
    alloc: Global,
    zone: Zone<'_>,
    now: Instant,
    units: &[ListRow<'_>],
) -> Result<Vec<Row>, AllocError>
    ensures { IfOk result (λ rows. map row_seen rows.items ≡ map (row_of zone.entry now.secs) (map unit_seen units.now)) }
{
    let mut formatter = InstantFormatter::new(zone);
    let mut rows = Vec::new(alloc);
    for unit in units {
        let row = row_of(alloc, &mut formatter, now, unit)?;
        rows.push(row)?;
    }
    Ok(rows)
}

fn row_of(
    alloc: Global,
    formatter: &mut InstantFormatter<'_>,
    now: Instant,
    unit: &ListRow<'_>,
) -> Result<Row, AllocError>
    ensures row { IfOk result (λ row. row_seen row ≡ row_of formatter.old now.secs (unit_seen unit.now)) }
    ensures zone { formatter.new ≡ formatter.old }
{
    let next = next_cell(alloc, formatter, unit.next)?;
    let left = left_cell(alloc, now, unit.next)?;
    let notes = notes_cell(alloc, unit.notes.as_slice())?;
    let mut name = String::new(alloc);
    push_printable(&mut name, unit.unit)?;
    Ok(Row {
        next,
        left,
        unit: name,
        notes,
    })
}

/// Returns the next elapse as clocks in the zone of `formatter` show it, or `-` if there is none.
fn next_cell(
    alloc: Global,
    formatter: &mut InstantFormatter<'_>,
    next: Option<Instant>,
) -> Result<String, AllocError>
    ensures text { IfOk result (λ text. string_bytes text ≡ next_cell formatter.old (option_map (λ instant. instant.secs) next)) }
    ensures zone { formatter.new ≡ formatter.old }
{
    let Some(instant) = next else {
        return String::from_str(alloc, NO_ELAPSE);
    };
    let mut text = String::new(alloc);
    push_instant(&mut text, formatter, instant)?;
    Ok(text)
}

/// Returns how long it is until the next elapse, or `-` if there is none.
fn left_cell(alloc: Global, now: Instant, next: Option<Instant>) -> Result<String, AllocError>
    ensures { IfOk result (λ text. string_bytes text ≡ left_cell now.secs (option_map (λ instant. instant.secs) next)) }
{
    match next {
        Some(instant) => left_text(alloc, now, instant),
        None => String::from_str(alloc, NO_ELAPSE),
    }
}

/// Returns the notes, with two blanks between them.
fn notes_cell(alloc: Global, notes: &[&str]) -> Result<String, AllocError>
    ensures { IfOk result (λ text. string_bytes text ≡ notes_cell (map (λ note. note.now) notes.now)) }
{
    let mut text = String::new(alloc);
    let Some((first, others)) = notes.split_first() else {
        return Ok(text);
    };
    push_printable(&mut text, first)?;
    for note in others {
        text.push_str("  ")?;
        push_printable(&mut text, note)?;
    }
    Ok(text)
}

fn table_text(alloc: Global, rows: &[Row], style: Style) -> Result<String, AllocError>
    ensures { IfOk result (λ text. string_bytes text ≡ table_of style (map row_seen rows.now)) }
{
    let mut out = String::new(alloc);
    if rows.is_empty() {
        out.push_str("no timers\n")?;
        return Ok(out);
    }
    let widths = widths_of(style.width, rows);
    let headings = headings_of(alloc, rows)?;
    push_headings(&mut out, widths, &headings, style)?;
    push_rows(&mut out, widths, rows)?;
    Ok(out)
}

/// Returns the headings of the columns. The column of notes has a heading only if there are notes.
fn headings_of(alloc: Global, rows: &[Row]) -> Result<Row, AllocError>
    ensures { IfOk result (λ row. row_seen row ≡ headings_of (map row_seen rows.now)) }
{
    let notes = if widest_notes(rows) == 0 { "" } else { "NOTES" };
    Ok(Row {
        next: String::from_str(alloc, "NEXT")?,
        left: String::from_str(alloc, "LEFT")?,
        unit: String::from_str(alloc, "UNIT")?,
        notes: String::from_str(alloc, notes)?,
    })
}

/// Returns the widths of the columns. A column is as wide as its widest entry, except that the column of units isn't
/// widened for units that would leave too little room for notes.
fn widths_of(terminal: usize, rows: &[Row]) -> Widths
    ensures { result ≡ widths_of terminal (map row_seen rows.now) }
{
    let next = width_of("NEXT").max(widest_next(rows));
    let left = width_of("LEFT").max(widest_left(rows));
    Widths {
        terminal,
        next,
        left,
        unit: unit_width(room_after(terminal, next, left), rows),
    }
}

fn widest_next(rows: &[Row]) -> usize
    ensures { result ≡ widest (λ row. text_width row.next) (map row_seen rows.now) }
{
    let mut width: usize = 0;
    for row in rows {
        width = width.max(width_of(row.next.as_str()));
    }
    width
}

fn widest_left(rows: &[Row]) -> usize
    ensures { result ≡ widest (λ row. text_width row.left) (map row_seen rows.now) }
{
    let mut width: usize = 0;
    for row in rows {
        width = width.max(width_of(row.left.as_str()));
    }
    width
}

fn widest_notes(rows: &[Row]) -> usize
    ensures { result ≡ widest (λ row. text_width row.notes) (map row_seen rows.now) }
{
    let mut width: usize = 0;
    for row in rows {
        width = width.max(width_of(row.notes.as_str()));
    }
    width
}

/// Returns the width of the column of units. `room` is the width that the columns of units and notes have together.
fn unit_width(room: usize, rows: &[Row]) -> usize
    ensures { result ≡ unit_width room (map row_seen rows.now) }
{
    let room_for_unit = room.saturating_sub(GAP).saturating_sub(NOTES_WIDTH);
    width_of("UNIT").max(widest_unit(room_for_unit, rows))
}

/// Returns the width of the widest unit that isn't wider than `room`.
fn widest_unit(room: usize, rows: &[Row]) -> usize
    ensures { result ≡ widest (λ row. width_in room row.unit) (map row_seen rows.now) }
{
    let mut width: usize = 0;
    for row in rows {
        width = width.max(width_in(room, row.unit.as_str()));
    }
    width
}

fn width_in(room: usize, unit: &str) -> usize
    ensures { result ≡ width_in room unit.now }
{
    let width = width_of(unit);
    if width <= room { width } else { 0 }
}

/// Returns the width of the terminal that is left after the columns of next elapses and of the time until then.
fn room_after(terminal: usize, next: usize, left: usize) -> usize
    ensures { result ≡ room_after terminal next left }
{
    terminal
        .saturating_sub(next)
        .saturating_sub(GAP)
        .saturating_sub(left)
        .saturating_sub(GAP)
}

fn push_headings(
    out: &mut String,
    widths: Widths,
    headings: &Row,
    style: Style,
) -> Result<(), AllocError>
    ensures { OnOk result (string_bytes out.new
        ≡ string_bytes out.old ++ heading_line style widths (row_seen headings.now)) }
{
    style.begin(out, Emphasis::Heading)?;
    push_cells(out, widths, headings)?;
    style.end(out)?;
    out.push('\n')
}

fn push_rows(out: &mut String, widths: Widths, rows: &[Row]) -> Result<(), AllocError>
    ensures { OnOk result (string_bytes out.new
        ≡ string_bytes out.old ++ flat_map (row_line widths) (map row_seen rows.now)) }
{
    for row in rows {
        push_row(out, widths, row)?;
    }
    Ok(())
}

fn push_row(out: &mut String, widths: Widths, row: &Row) -> Result<(), AllocError>
    ensures { OnOk result (string_bytes out.new ≡ string_bytes out.old ++ row_line widths (row_seen row.now)) }
{
    push_cells(out, widths, row)?;
    out.push('\n')
}

/// Appends a line of the table, without a line feed.
fn push_cells(out: &mut String, widths: Widths, row: &Row) -> Result<(), AllocError>
    ensures { OnOk result (string_bytes out.new ≡ string_bytes out.old ++ cells_text widths (row_seen row.now)) }
{
    push_padded(out, row.next.as_str(), widths.next)?;
    out.push_str("  ")?;
    push_padded(out, row.left.as_str(), widths.left)?;
    out.push_str("  ")?;
    push_unit_and_notes(out, widths, row.unit.as_str(), row.notes.as_str())
}

fn push_unit_and_notes(
    out: &mut String,
    widths: Widths,
    unit: &str,
    notes: &str,
) -> Result<(), AllocError>
    ensures { OnOk result (string_bytes out.new ≡ string_bytes out.old ++ unit_and_notes widths unit.now notes.now) }
{
    if notes.is_empty() {
        return out.push_str(unit);
    }
    push_padded(out, unit, widths.unit)?;
    out.push_str("  ")?;
    push_cut(out, notes, notes_room(widths, unit))
}

/// Returns the width to which the notes of a row are cut: the rest of the terminal's width, but at least
/// [`NOTES_WIDTH`].
fn notes_room(widths: Widths, unit: &str) -> usize
    ensures { result ≡ notes_room widths unit.now }
{
    room_after(widths.terminal, widths.next, widths.left)
        .saturating_sub(widths.unit.max(width_of(unit)))
        .saturating_sub(GAP)
        .max(NOTES_WIDTH)
}
