//! The reports of `between` and `same` as text: the elapses in a range, and what only one of two timers has.

ghost use Rattle.std.specs.Prelude.{◌≡◌, ◌++◌, IfOk, OnOk, map, string_bytes};
ghost use Rattle.cal_timers_report.specs.rules.BetweenText.{between_line, between_lines, instant_width};
ghost use Rattle.cal_timers_report.specs.rules.Columns.{widest};
ghost use Rattle.cal_timers_report.specs.rules.ReportView.{comparison_seen, elapse_seen, side_seen};
ghost use Rattle.cal_timers_report.specs.rules.SameText.{only_line, reading_line, reading_lines, same_lines, setting_line, setting_lines};

use crate::cells::{push_blanks, push_printable};
use crate::report::{Comparison, Side, UnitElapse};
use crate::times::{instant_width, push_instant};
use cal_zone::{InstantFormatter, Zone};
use std::alloc::{AllocError, Global};

/// Returns a line for each elapse: the instant, as clocks in the zone show it, and the name of the timer. If there are
/// no elapses, returns an empty text.
pub fn between_text(
    alloc: Global,
    zone: Zone<'_>,
    elapses: &[UnitElapse<'_>],
) -> Result<String, AllocError>
    ensures { IfOk result (λ text. string_bytes text ≡ between_lines zone.entry (map elapse_seen elapses.now)) }
{
    let mut out = String::new(alloc);
    let mut formatter = InstantFormatter::new(zone);
    let width = widest(&mut formatter, elapses);
    for elapse in elapses {
        push_elapse(&mut out, &mut formatter, width, elapse)?;
    }
    Ok(out)
}

/// Returns the width of the widest instant, in characters.
fn widest(formatter: &mut InstantFormatter<'_>, elapses: &[UnitElapse<'_>]) -> usize
    ensures width { result
        ≡ widest (λ elapse. instant_width formatter.old elapse.secs) (map elapse_seen elapses.now) }
    ensures zone { formatter.new ≡ formatter.old }
{
    let mut width: usize = 0;
    for elapse in elapses {
        width = width.max(instant_width(formatter, elapse.instant));
    }
    width
}

/// Appends a line with an instant, padded to `width` characters, two blanks, and the name of the timer.
fn push_elapse(
    out: &mut String,
    formatter: &mut InstantFormatter<'_>,
    width: usize,
    elapse: &UnitElapse<'_>,
) -> Result<(), AllocError>
    ensures text { OnOk result (string_bytes out.new
        ≡ string_bytes out.old ++ between_line formatter.old width (elapse_seen elapse.now)) }
    ensures zone { formatter.new ≡ formatter.old }
{
    let own_width = instant_width(formatter, elapse.instant);
    push_instant(out, formatter, elapse.instant)?;
    push_blanks(out, width.saturating_sub(own_width))?;
    out.push_str("  ")?;
    push_printable(out, elapse.unit)?;
    out.push('\n')
}

/// Returns a text that says how two timers differ. First, there is a line for each expression that an entry of a
/// crontab was read as. For each timer that elapses at an instant at which the other doesn't, there is then a line with
/// the first such instant. If there are no such instants, there is the line `same`. Then there is a line for each
/// setting that only one of them has.
pub fn same_text(
    alloc: Global,
    zone: Zone<'_>,
    found: &Comparison<'_>,
) -> Result<String, AllocError>
    ensures { IfOk result (λ text. string_bytes text ≡ same_lines zone.entry (comparison_seen found.now)) }
{
    let mut out = String::new(alloc);
    let mut formatter = InstantFormatter::new(zone);
    push_readings(&mut out, &found.one)?;
    push_readings(&mut out, &found.other)?;
    if found.one.only.is_none() && found.other.only.is_none() {
        out.push_str("same\n")?;
    }
    push_only(&mut out, &mut formatter, &found.one)?;
    push_only(&mut out, &mut formatter, &found.other)?;
    push_settings(&mut out, &found.one)?;
    push_settings(&mut out, &found.other)?;
    Ok(out)
}

/// Appends a line for each expression that the timer's name was read as.
fn push_readings(out: &mut String, side: &Side<'_>) -> Result<(), AllocError>
    ensures { OnOk result (string_bytes out.new ≡ string_bytes out.old ++ reading_lines (side_seen side.now)) }
{
    for expression in &side.read_as {
        push_reading(out, side.unit, expression)?;
    }
    Ok(())
}

fn push_reading(out: &mut String, unit: &str, expression: &str) -> Result<(), AllocError>
    ensures { OnOk result (string_bytes out.new ≡ string_bytes out.old ++ reading_line unit.now expression.now) }
{
    push_printable(out, unit)?;
    out.push_str(": read as ")?;
    out.push_str(expression)?;
    out.push('\n')
}

/// Appends a line with the first instant at which only this timer elapses, if there is such an instant.
fn push_only(
    out: &mut String,
    formatter: &mut InstantFormatter<'_>,
    side: &Side<'_>,
) -> Result<(), AllocError>
    ensures text { OnOk result (string_bytes out.new
        ≡ string_bytes out.old ++ only_line formatter.old (side_seen side.now).unit (side_seen side.now).only) }
    ensures zone { formatter.new ≡ formatter.old }
{
    let Some(instant) = side.only else {
        return Ok(());
    };
    out.push_str("only ")?;
    push_printable(out, side.unit)?;
    out.push_str(": ")?;
    push_instant(out, formatter, instant)?;
    out.push('\n')
}

/// Appends a line for each setting that only this timer has.
fn push_settings(out: &mut String, side: &Side<'_>) -> Result<(), AllocError>
    ensures { OnOk result (string_bytes out.new ≡ string_bytes out.old ++ setting_lines (side_seen side.now)) }
{
    for setting in &side.settings {
        push_setting(out, side.unit, setting)?;
    }
    Ok(())
}

fn push_setting(out: &mut String, unit: &str, setting: &str) -> Result<(), AllocError>
    ensures { OnOk result (string_bytes out.new ≡ string_bytes out.old ++ setting_line unit.now setting.now) }
{
    out.push_str("only ")?;
    push_printable(out, unit)?;
    out.push_str(" has ")?;
    push_printable(out, setting)?;
    out.push('\n')
}
