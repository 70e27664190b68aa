//! The verbs that show the next elapses: `list`, `show` and `next`. The answers of `show` and `next` have the same
//! form.

ghost use Rattle.std.specs.Prelude.{◌≡◌, ◌≤◌, IfOk, map, string_bytes};
ghost use Rattle.std.specs.List.{AllZip};
ghost use Rattle.std.specs.Option.{option_copied};
ghost use Rattle.cal_timers_report.specs.rules.ReportView.{timer_seen, unit_seen};
ghost use Rattle.cal_answers.specs.rules.CrontabTimers.{AreMerged};
ghost use Rattle.cal_answers.specs.rules.Output.{AreListRows, IsListAnswer, IsShowAnswer, IsShownAs, list_output, listed_masked, next_second, show_output};
ghost use Rattle.cal_answers.specs.rules.Printed.{printed_of};

use crate::answer::{Answer, Context, with_error_lines};
use crate::crontab_timers::{CrontabTimers, with_crontab_lines};
use cal_load::Loaded;
use cal_tasks::{list_rows, shown_timer};
use cal_timers_report::{ListRow, ShownTimer, list_json, list_text, show_json, show_text};
use cal_timers_text::warnings_of;
use std::alloc::{AllocError, Global};

/// Lists the next elapse of each timer and each entry of crontabs, soonest first. Masked units are listed only if timers
/// are named or `--all` is given. Otherwise, only the units that other units start are listed, and systemd doesn't start
/// a masked unit.
pub(crate) fn list(
    alloc: Global,
    context: Context<'_>,
    named: &[String],
    is_all: bool,
    loaded: &Loaded,
    entries: Option<&CrontabTimers>,
) -> Result<Answer, AllocError>
    ensures status { IfOk result (λ answer. answer.status ≤ 2) }
    ensures answer { IfOk result (λ answer. IsListAnswer context.entry named.now is_all loaded.now (option_copied entries.entry) (printed_of answer)) }
{
    let masked = listed_masked(named, is_all, loaded);
    let rows = rows_with_entries(alloc, context, loaded, masked, entries)?;
    let out = list_output(alloc, context, rows.as_slice())?;
    let answer = with_error_lines(alloc, loaded, out)?;
    with_crontab_lines(alloc, entries, answer)
}

/// Returns the rows of the timers, and those of the entries of crontabs among them.
fn rows_with_entries<'l>(
    alloc: Global,
    context: Context<'_>,
    loaded: &'l Loaded,
    masked: &'l [String],
    entries: Option<&'l CrontabTimers>,
) -> Result<Vec<ListRow<'l>>, AllocError>
    ensures { IfOk result (λ rows. AreListRows context.entry loaded.now (map string_bytes masked.now) (option_copied entries.entry) rows.items) }
{
    let rows = list_rows(alloc, context.at, loaded, masked, context.unguarded)?;
    let Some(entries) = entries else {
        return Ok(rows);
    };
    let more = list_rows(alloc, context.at, &entries.timers, &[], &[])?;
    merged_rows(rows, more)
}

/// Returns the rows of both lists, soonest first. Rows with the same next elapse keep their order, and so do rows
/// without one, which come last.
fn merged_rows<'l>(
    rows: Vec<ListRow<'l>>,
    more: Vec<ListRow<'l>>,
) -> Result<Vec<ListRow<'l>>, AllocError>
    ensures { IfOk result (λ merged. AreMerged next_second rows.entry.items more.entry.items merged.items) }
{
    let mut merged = rows;
    let mut more = more;
    merged.append(&mut more)?;
    merged.sort_by_key(|row| next_second(row))?;
    Ok(merged)
}

/// Returns the second of the next elapse. A row without one counts as later than all others.
fn next_second(row: &ListRow<'_>) -> i64
    ensures { result ≡ next_second row.now }
{
    match row.next {
        Some(instant) => instant.secs(),
        None => i64::MAX,
    }
}

/// Returns the names of the masked units that `list` lists.
fn listed_masked<'l>(named: &[String], is_all: bool, loaded: &'l Loaded) -> &'l [String]
    ensures { map string_bytes result.now ≡ listed_masked named.now is_all loaded.now }
{
    if is_all || !named.is_empty() {
        loaded.masked.as_slice()
    } else {
        &[]
    }
}

fn list_output(
    alloc: Global,
    context: Context<'_>,
    rows: &[ListRow<'_>],
) -> Result<String, AllocError>
    ensures { IfOk result (λ out. string_bytes out ≡ list_output context.entry (map unit_seen rows.now)) }
{
    let (zone, now) = (context.shown.local, context.shown.now);
    if context.is_json {
        list_json(alloc, zone, now, rows)
    } else {
        list_text(alloc, zone, now, rows, context.style)
    }
}

/// Shows each timer with its files and at most `count` of its next elapses.
pub(crate) fn show(
    alloc: Global,
    context: Context<'_>,
    count: u32,
    loaded: &Loaded,
) -> Result<Answer, AllocError>
    ensures status { IfOk result (λ answer. answer.status ≤ 2) }
    ensures answer { IfOk result (λ answer. IsShowAnswer context.entry count loaded.now (printed_of answer)) }
{
    let timers = shown_timers(alloc, context, count, loaded)?;
    let out = show_output(alloc, context, timers.as_slice(), loaded.masked.as_slice())?;
    with_error_lines(alloc, loaded, out)
}

/// Returns the report of each timer that was loaded.
fn shown_timers<'l>(
    alloc: Global,
    context: Context<'_>,
    count: u32,
    loaded: &'l Loaded,
) -> Result<Vec<ShownTimer<'l>>, AllocError>
    ensures { IfOk result (λ timers. AllZip (IsShownAs context.entry count) loaded.now.timers.items (map timer_seen timers.items)) }
{
    let mut timers: Vec<ShownTimer<'l>> = Vec::new(alloc);
    for timer in &loaded.timers {
        let warnings = warnings_of(alloc, context.at, timer)?;
        let shown = shown_timer(alloc, context.at, timer, warnings, context.unguarded, count)?;
        timers.push(shown)?;
    }
    Ok(timers)
}

fn show_output(
    alloc: Global,
    context: Context<'_>,
    timers: &[ShownTimer<'_>],
    masked: &[String],
) -> Result<String, AllocError>
    ensures { IfOk result (λ out. string_bytes out
        ≡ show_output context.entry (map timer_seen timers.now) (map string_bytes masked.now)) }
{
    let (zone, now) = (context.shown.local, context.shown.now);
    if context.is_json {
        show_json(alloc, zone, now, timers)
    } else {
        show_text(alloc, zone, now, timers, masked, context.style)
    }
}
