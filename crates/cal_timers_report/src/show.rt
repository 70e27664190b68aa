//! The report of `show` and `next` as text: each timer in detail.

ghost use Rattle.std.specs.Prelude.{◌≡◌, ◌++◌, IfOk, OnOk, codes, map, option_map, string_bytes};
ghost use Rattle.std.specs.List.{flat_map, join_by};
ghost use Rattle.cal_timers_report.specs.rules.BetweenText.{instant_width};
ghost use Rattle.cal_timers_report.specs.rules.Columns.{widest};
ghost use Rattle.cal_timers_report.specs.rules.ReportView.{line_seen, timer_seen};
ghost use Rattle.cal_timers_report.specs.rules.ShowText.{
  elapse_line,
  elapse_lines,
  elapses_or_never,
  in_time,
  labeled,
  last_line,
  last_or_never,
  masked_line,
  name_line,
  next_lines,
  normal_lines,
  settings_lines,
  show_lines,
  text_line,
  texts_under,
  timer_text,
};
ghost use Rattle.cal_timers_report.specs.rules.TimeLeft.{time_ago};

use crate::cells::{LABEL_WIDTH, push_blanks, push_padded, push_printable};
use crate::clock_lines::push_clock;
use crate::report::{ShownLine, ShownTimer};
use crate::style::{Emphasis, Style};
use crate::times::{instant_width, push_instant, push_left};
use cal_spec::normal_text;
use cal_zone::{Instant, InstantFormatter, Zone};
use std::alloc::{AllocError, Global};

/// Returns the text about each timer, with an empty line between two timers, and then a line for each masked unit.
///
/// The text about a timer has its name, its files, its expressions and exceptions in normal form, the other settings
/// that decide when it starts a unit, warnings, its last elapse, its next elapses, and the local times that clock
/// changes skip or repeat. Each of these is on lines of its own. If a timer has no expressions, its last and next
/// elapses are left out.
pub fn show_text(
    alloc: Global,
    zone: Zone<'_>,
    now: Instant,
    timers: &[ShownTimer<'_>],
    masked: &[String],
    style: Style,
) -> Result<String, AllocError>
    ensures { IfOk result (λ text. string_bytes text
        ≡ show_lines style zone.entry now.secs (map timer_seen timers.now) (map string_bytes masked.now)) }
{
    let mut out = String::new(alloc);
    push_timers(alloc, &mut out, zone, now, timers, style)?;
    push_masked(&mut out, masked)?;
    Ok(out)
}

fn push_timers(
    alloc: Global,
    out: &mut String,
    zone: Zone<'_>,
    now: Instant,
    timers: &[ShownTimer<'_>],
    style: Style,
) -> Result<(), AllocError>
    ensures { OnOk result (string_bytes out.new
        ≡ string_bytes out.old
        ++ join_by (timer_text style zone.entry now.secs) (codes "\n") (map timer_seen timers.now)) }
{
    let Some((first, others)) = timers.split_first() else {
        return Ok(());
    };
    push_timer(alloc, out, zone, now, first, style)?;
    for timer in others {
        out.push('\n')?;
        push_timer(alloc, out, zone, now, timer, style)?;
    }
    Ok(())
}

fn push_masked(out: &mut String, masked: &[String]) -> Result<(), AllocError>
    ensures { OnOk result (string_bytes out.new
        ≡ string_bytes out.old ++ flat_map masked_line (map string_bytes masked.now)) }
{
    for name in masked {
        push_masked_line(out, name.as_str())?;
    }
    Ok(())
}

fn push_masked_line(out: &mut String, name: &str) -> Result<(), AllocError>
    ensures { OnOk result (string_bytes out.new ≡ string_bytes out.old ++ masked_line name.now) }
{
    push_printable(out, name)?;
    out.push_str(": masked\n")
}

#[tactic(auto, unfolding(crate::specs::rules::ShowText::timer_text))]
fn push_timer(
    alloc: Global,
    out: &mut String,
    zone: Zone<'_>,
    now: Instant,
    timer: &ShownTimer<'_>,
    style: Style,
) -> Result<(), AllocError>
    ensures { OnOk result (string_bytes out.new
        ≡ string_bytes out.old ++ timer_text style zone.entry now.secs (timer_seen timer.now)) }
{
    push_name(out, timer.unit, style)?;
    push_settings(alloc, out, timer)?;
    push_texts(out, "  Warning:", timer.warnings.as_slice())?;
    push_last(out, zone, now, timer.expressions.as_slice(), timer.last)?;
    push_next(
        out,
        zone,
        now,
        timer.expressions.as_slice(),
        timer.elapses.as_slice(),
    )?;
    push_clock(out, timer.clock.as_slice(), timer.has_more_clock)
}

#[tactic(auto, unfolding(crate::specs::rules::ShowText::name_line))]
fn push_name(out: &mut String, name: &str, style: Style) -> Result<(), AllocError>
    ensures { OnOk result (string_bytes out.new ≡ string_bytes out.old ++ name_line style name.now) }
{
    style.begin(out, Emphasis::Heading)?;
    push_printable(out, name)?;
    style.end(out)?;
    out.push('\n')
}

#[tactic(auto, unfolding(crate::specs::rules::ShowText::settings_lines))]
fn push_settings(alloc: Global, out: &mut String, timer: &ShownTimer<'_>) -> Result<(), AllocError>
    ensures { OnOk result (string_bytes out.new ≡ string_bytes out.old ++ settings_lines (timer_seen timer.now)) }
{
    push_strs(out, "  File:", timer.files.as_slice())?;
    push_lines(alloc, out, "  Calendar:", timer.expressions.as_slice())?;
    push_lines(alloc, out, "  Except:", timer.exceptions.as_slice())?;
    push_strs(out, "  Also:", timer.notes.as_slice())
}

/// Appends a line for each text. Only the first line has a label.
#[tactic(auto, unfolding(crate::specs::rules::ShowText::texts_under))]
fn push_strs(out: &mut String, label: &str, texts: &[&str]) -> Result<(), AllocError>
    ensures { OnOk result (string_bytes out.new
        ≡ string_bytes out.old ++ texts_under label.now (map (λ text. text.now) texts.now)) }
{
    let Some((first, others)) = texts.split_first() else {
        return Ok(());
    };
    push_labeled(out, label, first)?;
    for text in others {
        push_labeled(out, "", text)?;
    }
    Ok(())
}

/// Appends a line for each expression, in its normal form. Only the first line has a label.
#[tactic(auto, unfolding(crate::specs::rules::ShowText::normal_lines, crate::specs::rules::ShowText::texts_under))]
fn push_lines(
    alloc: Global,
    out: &mut String,
    label: &str,
    lines: &[ShownLine<'_>],
) -> Result<(), AllocError>
    ensures { OnOk result (string_bytes out.new
        ≡ string_bytes out.old ++ normal_lines label.now (map line_seen lines.now)) }
{
    let Some((first, others)) = lines.split_first() else {
        return Ok(());
    };
    push_line(alloc, out, label, first)?;
    for line in others {
        push_line(alloc, out, "", line)?;
    }
    Ok(())
}

fn push_line(
    alloc: Global,
    out: &mut String,
    label: &str,
    line: &ShownLine<'_>,
) -> Result<(), AllocError>
    ensures { OnOk result (string_bytes out.new
        ≡ string_bytes out.old ++ labeled label.now (text_line (line_seen line.now).normal)) }
{
    let normal = normal_text(alloc, line.expr)?;
    push_labeled(out, label, normal.as_str())
}

/// Appends the lines that [`push_strs`] appends, for texts that are `String`s.
#[tactic(auto, unfolding(crate::specs::rules::ShowText::texts_under))]
fn push_texts(out: &mut String, label: &str, texts: &[String]) -> Result<(), AllocError>
    ensures { OnOk result (string_bytes out.new
        ≡ string_bytes out.old ++ texts_under label.now (map string_bytes texts.now)) }
{
    let Some((first, others)) = texts.split_first() else {
        return Ok(());
    };
    push_labeled(out, label, first.as_str())?;
    for text in others {
        push_labeled(out, "", text.as_str())?;
    }
    Ok(())
}

/// Appends a line with a label, which may be empty, and a text.
fn push_labeled(out: &mut String, label: &str, text: &str) -> Result<(), AllocError>
    ensures { OnOk result (string_bytes out.new
        ≡ string_bytes out.old ++ labeled label.now (text_line text.now)) }
{
    push_padded(out, label, LABEL_WIDTH)?;
    push_printable(out, text)?;
    out.push('\n')
}

/// Appends the last elapse. If the timer has no expressions, appends nothing.
#[tactic(auto, unfolding(crate::specs::rules::ShowText::last_line))]
fn push_last(
    out: &mut String,
    zone: Zone<'_>,
    now: Instant,
    expressions: &[ShownLine<'_>],
    last: Option<Instant>,
) -> Result<(), AllocError>
    ensures { OnOk result (string_bytes out.new
        ≡ string_bytes out.old ++ last_line zone.entry now.secs (map line_seen expressions.now) (option_map (λ instant. instant.secs) last)) }
{
    if expressions.is_empty() {
        return Ok(());
    }
    push_last_or_never(out, zone, now, last)
}

fn push_last_or_never(
    out: &mut String,
    zone: Zone<'_>,
    now: Instant,
    last: Option<Instant>,
) -> Result<(), AllocError>
    ensures { OnOk result (string_bytes out.new
        ≡ string_bytes out.old ++ last_or_never zone.entry now.secs (option_map (λ instant. instant.secs) last)) }
{
    push_padded(out, "  Last:", LABEL_WIDTH)?;
    let Some(instant) = last else {
        return out.push_str("never\n");
    };
    push_instant(out, &mut InstantFormatter::new(zone), instant)?;
    out.push_str("  ")?;
    push_ago(out, now, instant)?;
    out.push('\n')
}

/// Appends how long ago an instant was: the two largest units of the time span, before the word `ago`. If `then` isn't
/// before `now`, appends `now`.
fn push_ago(out: &mut String, now: Instant, then: Instant) -> Result<(), AllocError>
    ensures { OnOk result (string_bytes out.new ≡ string_bytes out.old ++ time_ago now.secs then.secs) }
{
    if now.secs() <= then.secs() {
        return out.push_str("now");
    }
    push_left(out, then, now)?;
    out.push_str(" ago")
}

/// Appends the next elapses. If the timer has no expressions, appends nothing.
#[tactic(auto, unfolding(crate::specs::rules::ShowText::next_lines))]
fn push_next(
    out: &mut String,
    zone: Zone<'_>,
    now: Instant,
    expressions: &[ShownLine<'_>],
    elapses: &[Instant],
) -> Result<(), AllocError>
    ensures { OnOk result (string_bytes out.new
        ≡ string_bytes out.old ++ next_lines zone.entry now.secs (map line_seen expressions.now) (map (λ instant. instant.secs) elapses.now)) }
{
    if expressions.is_empty() {
        return Ok(());
    }
    push_elapses_or_never(out, zone, now, elapses)
}

#[tactic(auto, unfolding(crate::specs::rules::ShowText::elapses_or_never))]
fn push_elapses_or_never(
    out: &mut String,
    zone: Zone<'_>,
    now: Instant,
    elapses: &[Instant],
) -> Result<(), AllocError>
    ensures { OnOk result (string_bytes out.new
        ≡ string_bytes out.old ++ elapses_or_never zone.entry now.secs (map (λ instant. instant.secs) elapses.now)) }
{
    if elapses.is_empty() {
        push_padded(out, "  Next:", LABEL_WIDTH)?;
        return out.push_str("never\n");
    }
    let mut formatter = InstantFormatter::new(zone);
    let width = widest(&mut formatter, elapses);
    push_elapses(out, &mut formatter, now, width, elapses)
}

#[tactic(auto, unfolding(crate::specs::rules::ShowText::elapse_lines))]
fn push_elapses(
    out: &mut String,
    formatter: &mut InstantFormatter<'_>,
    now: Instant,
    width: usize,
    elapses: &[Instant],
) -> Result<(), AllocError>
    ensures { OnOk result (string_bytes out.new
        ≡ string_bytes out.old ++ elapse_lines formatter.old now.secs width (map (λ instant. instant.secs) elapses.now)) }
{
    let Some((first, others)) = elapses.split_first() else {
        return Ok(());
    };
    push_elapse(out, formatter, now, width, "  Next:", *first)?;
    for instant in others {
        push_elapse(out, formatter, now, width, "", *instant)?;
    }
    Ok(())
}

/// Returns the width of the widest instant, in characters.
fn widest(formatter: &mut InstantFormatter<'_>, elapses: &[Instant]) -> usize
    ensures width { result
        ≡ widest (instant_width formatter.old) (map (λ instant. instant.secs) elapses.now) }
    ensures zone { formatter.new ≡ formatter.old }
{
    let mut width: usize = 0;
    for instant in elapses {
        width = width.max(instant_width(formatter, *instant));
    }
    width
}

/// Appends a label, an instant, padded to `width` characters, two blanks, how long it is until the instant, and a line
/// feed.
fn push_elapse(
    out: &mut String,
    formatter: &mut InstantFormatter<'_>,
    now: Instant,
    width: usize,
    label: &str,
    instant: Instant,
) -> Result<(), AllocError>
    ensures text { OnOk result (string_bytes out.new
        ≡ string_bytes out.old ++ labeled label.now (elapse_line formatter.old now.secs width instant.secs)) }
    ensures zone { formatter.new ≡ formatter.old }
{
    let own_width = instant_width(formatter, instant);
    push_padded(out, label, LABEL_WIDTH)?;
    push_instant(out, formatter, instant)?;
    push_blanks(out, width.saturating_sub(own_width))?;
    out.push_str("  ")?;
    push_in_time(out, now, instant)?;
    out.push('\n')
}

fn push_in_time(out: &mut String, now: Instant, then: Instant) -> Result<(), AllocError>
    ensures { OnOk result (string_bytes out.new ≡ string_bytes out.old ++ in_time now.secs then.secs) }
{
    if then.secs() <= now.secs() {
        return out.push_str("now");
    }
    out.push_str("in ")?;
    push_left(out, now, then)
}
