//! The verb `between`: all elapses of several timers, and of entries of crontabs, in a range of time.

ghost use Rattle.std.specs.Prelude.{◌≡◌, ◌≤◌, IfOk, int_lt, map, string_bytes};
ghost use Rattle.std.specs.Option.{option_copied};
ghost use Rattle.cal_tasks.specs.declared.when.WhenFault;
ghost use Rattle.cal_tasks.specs.rules.When.{setting_with, when_in};
ghost use Rattle.cal_timers_report.specs.rules.ReportView.{elapse_seen};
ghost use Rattle.cal_answers.specs.rules.CrontabTimers.{AreMerged};
ghost use Rattle.cal_answers.specs.rules.Output.{AreBetweenRows, IsAnswerUntil, IsBetweenAnswer, IsRangeAnswer, IsStoppedBy, bad_time, between_output, elapse_second};
ghost use Rattle.cal_answers.specs.rules.Printed.{IsStopped, printed_of};

use crate::answer::{Answer, Context, stopped, with_error_lines};
use crate::crontab_timers::{CrontabTimers, with_crontab_lines};
use cal_load::Loaded;
use cal_stamp::StampFault;
use cal_tasks::{WhenFault, between_rows, read_when};
use cal_timers_report::{UnitElapse, between_json, between_text};
use cal_zone::Instant;
use std::alloc::{AllocError, Global};

/// Lists the elapses of timers and of entries of crontabs in a range. `from` and `before` are the texts of its start,
/// which is included, and of its end, which isn't. An end such as `Mon 06:00` resolves to the first such time after the
/// start.
pub(crate) fn between(
    alloc: Global,
    context: Context<'_>,
    loaded: &Loaded,
    entries: Option<&CrontabTimers>,
    from: &str,
    before: &str,
) -> Result<Answer, AllocError>
    ensures status { IfOk result (λ answer. answer.status ≤ 2) }
    ensures answer { IfOk result (λ answer.
        IsBetweenAnswer context.entry loaded.now (option_copied entries.entry) from.now before.now (printed_of answer)) }
{
    match read_when(
        alloc,
        context.shown,
        &context.range.from,
        context.shown.now,
        from,
    ) {
        Ok(instant) => between_from(alloc, context, loaded, entries, instant, before),
        Err(fault) => bad_time(alloc, from, fault),
    }
}

/// Lists the elapses of timers in a range that starts at `from`. `before` is the text of its end.
fn between_from(
    alloc: Global,
    context: Context<'_>,
    loaded: &Loaded,
    entries: Option<&CrontabTimers>,
    from: Instant,
    before: &str,
) -> Result<Answer, AllocError>
    ensures status { IfOk result (λ answer. answer.status ≤ 2) }
    ensures answer { IfOk result (λ answer. IsAnswerUntil context.entry loaded.now (option_copied entries.entry) from.secs before.now
        (when_in context.entry.shown.now.secs (setting_with context.entry.shown context.entry.range.now.before) from.secs before.now)
        (printed_of answer)) }
{
    match read_when(alloc, context.shown, &context.range.before, from, before) {
        Ok(instant) => between_instants(alloc, context, loaded, entries, from, instant),
        Err(fault) => bad_time(alloc, before, fault),
    }
}

fn bad_time(alloc: Global, text: &str, fault: WhenFault) -> Result<Answer, AllocError>
    ensures status { IfOk result (λ answer. answer.status ≤ 2) }
    ensures stopped { IfOk result (λ answer. IsStoppedBy text.now fault (printed_of answer)) }
{
    match fault {
        WhenFault::NoInstant(fault) => stopped_by(alloc, text, fault),
        WhenFault::NoMemory => Err(AllocError),
    }
}

fn stopped_by(alloc: Global, text: &str, fault: StampFault) -> Result<Answer, AllocError>
    ensures status { IfOk result (λ answer. answer.status ≤ 2) }
    ensures stopped { IfOk result (λ answer. IsStopped (bad_time text.now fault) (printed_of answer)) }
{
    let reason = bad_time_words(alloc, text, fault)?;
    stopped(alloc, reason.as_str())
}

fn bad_time_words(alloc: Global, text: &str, fault: StampFault) -> Result<String, AllocError>
    ensures { IfOk result (λ reason. string_bytes reason ≡ bad_time text.now fault) }
{
    let words = fault.words();
    Ok(format!(in alloc; "{text}: {words}")?)
}

fn between_instants(
    alloc: Global,
    context: Context<'_>,
    loaded: &Loaded,
    entries: Option<&CrontabTimers>,
    from: Instant,
    before: Instant,
) -> Result<Answer, AllocError>
    ensures status { IfOk result (λ answer. answer.status ≤ 2) }
    ensures answer { IfOk result (λ answer.
        IsRangeAnswer context.entry loaded.now (option_copied entries.entry) from.secs before.secs (int_lt before.secs from.secs) (printed_of answer)) }
{
    if before.secs() < from.secs() {
        return stopped(alloc, "TO is before FROM");
    }
    let rows = rows_with_entries(alloc, context, loaded, entries, from, before)?;
    let out = between_output(alloc, context, rows.as_slice())?;
    let answer = with_error_lines(alloc, loaded, out)?;
    with_crontab_lines(alloc, entries, answer)
}

/// Returns the elapses of the timers in the range, and those of the entries of crontabs among them.
fn rows_with_entries<'l>(
    alloc: Global,
    context: Context<'_>,
    loaded: &'l Loaded,
    entries: Option<&'l CrontabTimers>,
    from: Instant,
    before: Instant,
) -> Result<Vec<UnitElapse<'l>>, AllocError>
    ensures { IfOk result (λ rows. AreBetweenRows context.entry loaded.now (option_copied entries.entry) from.secs before.secs rows.items) }
{
    let rows = between_rows(alloc, context.at, from, before, loaded.timers.as_slice())?;
    let Some(entries) = entries else {
        return Ok(rows);
    };
    let timers = entries.timers.timers.as_slice();
    let more = between_rows(alloc, context.at, from, before, timers)?;
    merged_rows(rows, more)
}

/// Returns the elapses of both lists in increasing order. Elapses at the same instant keep their order.
fn merged_rows<'l>(
    rows: Vec<UnitElapse<'l>>,
    more: Vec<UnitElapse<'l>>,
) -> Result<Vec<UnitElapse<'l>>, AllocError>
    ensures { IfOk result (λ merged. AreMerged elapse_second rows.entry.items more.entry.items merged.items) }
{
    let mut merged = rows;
    let mut more = more;
    merged.append(&mut more)?;
    merged.sort_by_key(|row| row.instant.secs())?;
    Ok(merged)
}

fn between_output(
    alloc: Global,
    context: Context<'_>,
    rows: &[UnitElapse<'_>],
) -> Result<String, AllocError>
    ensures { IfOk result (λ out. string_bytes out ≡ between_output context.entry (map elapse_seen rows.now)) }
{
    if context.is_json {
        between_json(alloc, context.shown.local, rows)
    } else {
        between_text(alloc, context.shown.local, rows)
    }
}
