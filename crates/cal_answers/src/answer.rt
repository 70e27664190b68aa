//! The answer to a question: the texts for standard output and standard error, and the exit status.

ghost use Rattle.std.specs.Prelude.{◌≡◌, ◌++◌, ◌≤◌, IfOk, OnOk, Some, codes, map, max, string_bytes};
ghost use Rattle.std.specs.List.{flat_map, list_any};
ghost use Rattle.std.specs.Str.{bytes_eq};
ghost use Rattle.cal_zone.specs.rules.Zone.{zone_of};
ghost use Rattle.cal_answers.specs.rules.LocalClock.{clock_zone};
ghost use Rattle.cal_answers.specs.rules.ErrorText.{broken_line_if, broken_lines, fault_lines, ignored_lines, lines_about, loaded_lines, masked_lines, text_of, with_line, with_lines};
ghost use Rattle.cal_answers.specs.rules.Output.{HasLoadedLines, IsAnswerIn, IsAnswerToFound, IsAnswerToKnown, IsContextOf, IsVerbAnswer};
ghost use Rattle.cal_answers.specs.rules.Printed.{IsStopped, printed_of, status_by, with_errors, with_notes};
ghost use Rattle.cal_answers.specs.rules.Remarks.{with_remarks};
ghost use Rattle.cal_timers_text.specs.rules.ErrorLines.{broken_line, fault_line, ignored_line, unusable_zone_line};

use crate::between::between;
use crate::compare::same;
use crate::cron::cron;
use crate::due::due;
use crate::found::{Found, Known, LoadedByVerb};
use crate::index::with_reported;
use crate::lint::lint;
use crate::range_zones::RangeZones;
use crate::remarks::{with_empty_folders, with_verb_hint, with_zone_note};
use crate::timers::{list, show};
use cal_load::{BrokenLine, IgnoredLine, Loaded, LoadedTimer, TargetFault, UnusableZone};
use cal_tasks::{BootTime, Present, UnguardedTimer};
use cal_timers_command::Options;
use cal_timers_report::Style;
use cal_timers_text::{broken_text, fault_text, ignored_text, unusable_zone_text};
use cal_unit_index::UnitIndex;
use cal_zone::Zone;
use std::alloc::{AllocError, Global};

/// The exit status if a timer can't be loaded (except by `same`), a line of its files is ignored, a file or folder
/// can't be read, or folders have no timers. Also the exit status if `lint` finds an error or, with `--strict`, a
/// warning, if two timers differ, and if a run isn't due.
pub(crate) const INVALID: u8 = 1;

/// The exit status if the question can't be answered at all, for example because the local zone isn't known, or because
/// one of the timers of `same` can't be loaded.
pub(crate) const UNUSABLE: u8 = 2;

/// The texts for standard output and standard error, and the exit status.
#[derive(Drop)]
pub(crate) struct Answer {
    /// The text for standard output.
    pub out: String,
    /// The error lines, for standard error.
    pub err: String,
    /// The exit status: 0 for success, [`INVALID`] or [`UNUSABLE`].
    pub status: u8,
}

/// What all verbs need to know: the present, the zones, and options.
#[derive(Clone, Copy)]
pub(crate) struct Context<'a> {
    /// The present and the local zone.
    pub at: Present<'a>,
    /// The present, with the zone in which times are shown as `local`. FROM and TO are read in this zone, unless they
    /// name another one.
    pub shown: Present<'a>,
    /// The boot time that counts for the run that `due` checks.
    pub boot: BootTime,
    /// The zones that FROM and TO can name.
    pub range: &'a RangeZones,
    /// The timers whose exceptions systemd ignores.
    pub unguarded: &'a [UnguardedTimer],
    /// Whether the units are those of a user.
    pub is_user: bool,
    pub is_json: bool,
    pub style: Style,
}

/// Answers a question from what [`read_question`](crate::reading::read_question) found for it. Reads nothing itself.
/// Fails only if allocation fails.
pub(crate) fn answer_question(
    alloc: Global,
    options: &Options,
    found: &Found<'_>,
    style: Style,
) -> Result<Answer, AllocError>
    ensures status { IfOk result (λ answer. answer.status ≤ 2) }
    ensures answer { IfOk result (λ answer. IsAnswerToFound options.entry.now found.now style (printed_of answer)) }
{
    match found {
        Found::Answerable(known) => answer_known(alloc, options, known, style),
        Found::Unanswerable(reason) => stopped(alloc, reason.as_str()),
    }
}

/// Answers a question from all that is known for it.
fn answer_known(
    alloc: Global,
    options: &Options,
    known: &Known<'_>,
    style: Style,
) -> Result<Answer, AllocError>
    ensures status { IfOk result (λ answer. answer.status ≤ 2) }
    ensures answer { IfOk result (λ answer. IsAnswerToKnown options.entry.now known.entry.now style (printed_of answer)) }
{
    let Some(local) = known.local.zone() else {
        return stopped(alloc, "the local zone isn't known");
    };
    let Some(shown) = known.shown.zone() else {
        return stopped(alloc, "the local zone isn't known");
    };
    let context = context_of(options, known, style, local, shown);
    answer_in(alloc, known, context)
}

/// Returns what all verbs need to know. `local` must be the local zone that is known, and `shown` the zone in which
/// times are shown.
fn context_of<'a>(
    options: &Options,
    known: &'a Known<'_>,
    style: Style,
    local: Zone<'a>,
    shown: Zone<'a>,
) -> Context<'a>
    ensures { clock_zone known.entry.now.local ≡ Some (zone_of local.entry) → clock_zone known.entry.now.shown ≡ Some (zone_of shown.entry)
        → IsContextOf options.entry.now known.entry.now style result }
{
    let now = known.now;
    Context {
        at: Present { now, local },
        shown: Present { now, local: shown },
        boot: known.boot,
        range: &known.range,
        unguarded: known.unguarded.as_slice(),
        is_user: options.is_user,
        is_json: options.is_json,
        style,
    }
}

/// Answers a question: runs the verb, and adds the error lines about unreadable parts of the search path and, except
/// for `due`, the remarks (see [`with_remarks`]).
fn answer_in(alloc: Global, known: &Known<'_>, context: Context<'_>) -> Result<Answer, AllocError>
    ensures status { IfOk result (λ answer. answer.status ≤ 2) }
    ensures answer { IfOk result (λ answer. IsAnswerIn known.entry.now context.entry (printed_of answer)) }
{
    let answer = answer_loaded(alloc, context, &known.index, &known.loaded)?;
    let answer = with_reported(alloc, known, answer)?;
    match known.loaded {
        // Any error line makes the service fail, so `due` doesn't add these remarks.
        LoadedByVerb::Due { .. } => Ok(answer),
        LoadedByVerb::List { .. }
        | LoadedByVerb::Show { .. }
        | LoadedByVerb::Lint { .. }
        | LoadedByVerb::Between { .. }
        | LoadedByVerb::Same { .. }
        | LoadedByVerb::Next { .. }
        | LoadedByVerb::Cron { .. } => with_remarks(alloc, known, answer),
    }
}

/// Adds the remarks: a hint at a misspelled verb, a line for each folder without timers, and a line if the zone file is
/// missing.
fn with_remarks(alloc: Global, known: &Known<'_>, answer: Answer) -> Result<Answer, AllocError>
    requires { answer.status ≤ 2 }
    ensures status { IfOk result (λ changed. changed.status ≤ 2) }
    ensures changed { IfOk result (λ changed. printed_of changed ≡ with_remarks known.entry.now (printed_of answer)) }
{
    let answer = with_verb_hint(alloc, &known.loaded, answer)?;
    let answer = with_empty_folders(alloc, &known.loaded, answer)?;
    with_zone_note(&known.loaded, &known.local, answer)
}

/// Returns the answer to a question that can't be answered at all: an error line with the reason, and the status
/// [`UNUSABLE`].
pub(crate) fn stopped(alloc: Global, reason: &str) -> Result<Answer, AllocError>
    ensures status { IfOk result (λ answer. answer.status ≤ 2) }
    ensures stopped { IfOk result (λ answer. IsStopped reason.now (printed_of answer)) }
{
    Ok(Answer {
        out: String::new(alloc),
        err: format!(in alloc; "calendar-timers: {reason}\n")?,
        status: UNUSABLE,
    })
}

/// Answers the question for which this was loaded.
fn answer_loaded(
    alloc: Global,
    context: Context<'_>,
    index: &UnitIndex,
    loaded: &LoadedByVerb<'_>,
) -> Result<Answer, AllocError>
    ensures status { IfOk result (λ answer. answer.status ≤ 2) }
    ensures answer { IfOk result (λ answer. IsVerbAnswer context.entry index.now loaded.now (printed_of answer)) }
{
    match loaded {
        LoadedByVerb::List {
            timers,
            named,
            is_all,
            entries,
        } => list(alloc, context, named, *is_all, timers, entries.as_ref()),
        LoadedByVerb::Show { timers, count, .. } | LoadedByVerb::Next { timers, count, .. } => {
            show(alloc, context, *count, timers)
        }
        LoadedByVerb::Lint {
            files,
            timers,
            crontabs,
            is_strict,
            ..
        } => lint(alloc, context, *is_strict, index, files, timers, crontabs),
        LoadedByVerb::Between {
            timers,
            from,
            to,
            entries,
            ..
        } => between(alloc, context, timers, entries.as_ref(), from, to),
        LoadedByVerb::Same {
            first,
            one,
            second,
            other,
        } => same(alloc, context, one, other, first, second),
        LoadedByVerb::Due { timer, named } => due(alloc, context, *named, timer),
        LoadedByVerb::Cron { crontabs, .. } => cron(alloc, context, crontabs),
    }
}

/// Returns the error lines about timers or files that couldn't be loaded.
pub(crate) fn fault_lines(alloc: Global, faults: &[TargetFault]) -> Result<String, AllocError>
    ensures { IfOk result (λ lines. string_bytes lines ≡ fault_lines faults.now) }
{
    let mut lines = String::new(alloc);
    push_fault_lines(alloc, &mut lines, faults)?;
    Ok(lines)
}

/// Appends the error lines about timers or files that couldn't be loaded.
pub(crate) fn push_fault_lines(
    alloc: Global,
    lines: &mut String,
    faults: &[TargetFault],
) -> Result<(), AllocError>
    ensures { OnOk result (string_bytes lines.new ≡ string_bytes lines.old ++ fault_lines faults.now) }
{
    for fault in faults {
        push_fault_line(alloc, lines, fault)?;
    }
    Ok(())
}

/// Appends the error line about a timer or file that couldn't be loaded.
pub(crate) fn push_fault_line(
    alloc: Global,
    lines: &mut String,
    fault: &TargetFault,
) -> Result<(), AllocError>
    ensures { OnOk result (string_bytes lines.new ≡ string_bytes lines.old ++ (fault_line fault.now ++ codes "\n")) }
{
    let line = fault_text(alloc, fault)?;
    push_with_feed(lines, line.as_str())
}

/// Returns the answer with the text `out` and with the error lines about what was loaded. The status is [`INVALID`] if
/// there are error lines, and otherwise 0.
pub(crate) fn with_error_lines(
    alloc: Global,
    loaded: &Loaded,
    out: String,
) -> Result<Answer, AllocError>
    ensures out { IfOk result (λ answer. answer.out ≡ out) }
    ensures lines { IfOk result (λ answer. HasLoadedLines loaded.now (printed_of answer)) }
    ensures status { IfOk result (λ answer. answer.status ≤ 2) }
{
    let mut err = fault_lines(alloc, loaded.faults.as_slice())?;
    let mut lines = Vec::new(alloc);
    push_ignored_lines(alloc, &mut lines, loaded.timers.as_slice())?;
    push_all_lines(&mut err, lines.as_slice())?;
    let status = status_by(err.as_str());
    Ok(Answer { out, err, status })
}

/// Appends an error line about each line of the timers' files that is ignored, and about each drop-in that systemd
/// stops reading at some line. If several timers share such a line, as in a drop-in for all of them, it is reported
/// only once.
pub(crate) fn push_ignored_lines(
    alloc: Global,
    lines: &mut Vec<String>,
    timers: &[LoadedTimer],
) -> Result<(), AllocError>
    ensures { OnOk result (map string_bytes lines.new.items ≡ with_lines (map string_bytes lines.old.items) (lines_about timers.now)) }
{
    push_ignored(alloc, lines, timers)?;
    push_broken_lines(alloc, lines, timers)
}

/// Appends an error line about each line of the timers' files that is ignored.
fn push_ignored(
    alloc: Global,
    lines: &mut Vec<String>,
    timers: &[LoadedTimer],
) -> Result<(), AllocError>
    ensures { OnOk result (map string_bytes lines.new.items ≡ with_lines (map string_bytes lines.old.items) (flat_map ignored_lines timers.now)) }
{
    for timer in timers {
        push_ignored_of(alloc, lines, timer)?;
    }
    Ok(())
}

fn push_ignored_of(
    alloc: Global,
    lines: &mut Vec<String>,
    timer: &LoadedTimer,
) -> Result<(), AllocError>
    ensures { OnOk result (map string_bytes lines.new.items ≡ with_lines (map string_bytes lines.old.items) (ignored_lines timer.now)) }
{
    push_invalid(alloc, lines, timer, timer.files.ignored.as_slice())?;
    push_unusable(alloc, lines, timer, timer.files.unusable_zones.as_slice())
}

fn push_invalid(
    alloc: Global,
    lines: &mut Vec<String>,
    timer: &LoadedTimer,
    invalid: &[IgnoredLine],
) -> Result<(), AllocError>
    ensures { OnOk result (map string_bytes lines.new.items
        ≡ with_lines (map string_bytes lines.old.items) (map (ignored_line timer.now) invalid.now)) }
{
    for ignored in invalid {
        push_invalid_line(alloc, lines, timer, ignored)?;
    }
    Ok(())
}

fn push_invalid_line(
    alloc: Global,
    lines: &mut Vec<String>,
    timer: &LoadedTimer,
    ignored: &IgnoredLine,
) -> Result<(), AllocError>
    ensures { OnOk result (map string_bytes lines.new.items
        ≡ with_line (map string_bytes lines.old.items) (ignored_line timer.now ignored.now)) }
{
    let line = ignored_text(alloc, timer, ignored)?;
    push_line_once(lines, line)
}

fn push_unusable(
    alloc: Global,
    lines: &mut Vec<String>,
    timer: &LoadedTimer,
    zones: &[UnusableZone],
) -> Result<(), AllocError>
    ensures { OnOk result (map string_bytes lines.new.items
        ≡ with_lines (map string_bytes lines.old.items) (map (unusable_zone_line timer.now) zones.now)) }
{
    for zone in zones {
        push_unusable_zone(alloc, lines, timer, zone)?;
    }
    Ok(())
}

fn push_unusable_zone(
    alloc: Global,
    lines: &mut Vec<String>,
    timer: &LoadedTimer,
    zone: &UnusableZone,
) -> Result<(), AllocError>
    ensures { OnOk result (map string_bytes lines.new.items
        ≡ with_line (map string_bytes lines.old.items) (unusable_zone_line timer.now zone.now)) }
{
    let line = unusable_zone_text(alloc, timer, zone)?;
    push_line_once(lines, line)
}

/// Appends an error line about each drop-in of the timers that systemd stops reading at some line.
fn push_broken_lines(
    alloc: Global,
    lines: &mut Vec<String>,
    timers: &[LoadedTimer],
) -> Result<(), AllocError>
    ensures { OnOk result (map string_bytes lines.new.items ≡ with_lines (map string_bytes lines.old.items) (flat_map broken_lines timers.now)) }
{
    for timer in timers {
        push_broken_of(alloc, lines, timer)?;
    }
    Ok(())
}

fn push_broken_of(
    alloc: Global,
    lines: &mut Vec<String>,
    timer: &LoadedTimer,
) -> Result<(), AllocError>
    ensures { OnOk result (map string_bytes lines.new.items ≡ with_lines (map string_bytes lines.old.items) (broken_lines timer.now)) }
{
    push_all_broken(alloc, lines, timer, timer.files.broken.as_slice())
}

fn push_all_broken(
    alloc: Global,
    lines: &mut Vec<String>,
    timer: &LoadedTimer,
    broken: &[Option<BrokenLine>],
) -> Result<(), AllocError>
    ensures { OnOk result (map string_bytes lines.new.items
        ≡ with_lines (map string_bytes lines.old.items) (flat_map (broken_line_if timer.now) broken.now)) }
{
    for line in broken {
        push_broken(alloc, lines, timer, *line)?;
    }
    Ok(())
}

/// Appends an error line about a drop-in if systemd stops reading it at some line.
fn push_broken(
    alloc: Global,
    lines: &mut Vec<String>,
    timer: &LoadedTimer,
    broken: Option<BrokenLine>,
) -> Result<(), AllocError>
    ensures { OnOk result (map string_bytes lines.new.items ≡ with_lines (map string_bytes lines.old.items) (broken_line_if timer.now broken)) }
{
    if let Some(broken) = broken {
        let line = broken_text(alloc, timer, broken)?;
        push_line_once(lines, line)?;
    }
    Ok(())
}

/// Appends a line, unless it is among the lines already.
fn push_line_once(lines: &mut Vec<String>, line: String) -> Result<(), AllocError>
    ensures { OnOk result (map string_bytes lines.new.items ≡ with_line (map string_bytes lines.old.items) (string_bytes line)) }
{
    if !has_line(lines.as_slice(), line.as_str()) {
        lines.push(line)?;
    }
    Ok(())
}

fn has_line(lines: &[String], line: &str) -> bool
    ensures { result ≡ list_any (λ known. bytes_eq known line.now) (map string_bytes lines.now) }
{
    lines.iter().any(|known| known.as_str() == line)
}

/// Appends these lines to a text.
pub(crate) fn push_all_lines(text: &mut String, lines: &[String]) -> Result<(), AllocError>
    ensures { OnOk result (string_bytes text.new ≡ string_bytes text.old ++ text_of (map string_bytes lines.now)) }
{
    for line in lines {
        push_with_feed(text, line.as_str())?;
    }
    Ok(())
}

fn push_with_feed(text: &mut String, line: &str) -> Result<(), AllocError>
    ensures { OnOk result (string_bytes text.new ≡ string_bytes text.old ++ (line.now ++ codes "\n")) }
{
    text.push_str(line)?;
    text.push('\n')
}

/// Returns the exit status of an answer whose status depends only on these error lines.
pub(crate) fn status_by(lines: &str) -> u8
    ensures { result ≡ status_by lines.now }
{
    if lines.is_empty() { 0 } else { INVALID }
}

/// Adds error lines to an answer. If there are any, its exit status becomes at least [`INVALID`].
pub(crate) fn with_errors(answer: Answer, lines: &str) -> Result<Answer, AllocError>
    ensures status { IfOk result (λ changed. changed.status ≤ max answer.status 1) }
    ensures changed { IfOk result (λ changed. printed_of changed ≡ with_errors lines.now (printed_of answer)) }
{
    let Answer {
        out,
        mut err,
        status,
    } = answer;
    err.push_str(lines)?;
    let status = if lines.is_empty() {
        status
    } else {
        status.max(INVALID)
    };
    Ok(Answer { out, err, status })
}

/// Adds lines for standard error to an answer, and keeps its exit status.
pub(crate) fn with_notes(answer: Answer, lines: &str) -> Result<Answer, AllocError>
    ensures status { IfOk result (λ changed. changed.status ≡ answer.status) }
    ensures changed { IfOk result (λ changed. printed_of changed ≡ with_notes lines.now (printed_of answer)) }
{
    let Answer {
        out,
        mut err,
        status,
    } = answer;
    err.push_str(lines)?;
    Ok(Answer { out, err, status })
}

/// Appends a line for each masked unit.
pub(crate) fn push_masked(text: &mut String, masked: &[String]) -> Result<(), AllocError>
    ensures { OnOk result (string_bytes text.new ≡ string_bytes text.old ++ masked_lines (map string_bytes masked.now)) }
{
    for name in masked {
        push_masked_name(text, name.as_str())?;
    }
    Ok(())
}

fn push_masked_name(text: &mut String, name: &str) -> Result<(), AllocError>
    ensures { OnOk result (string_bytes text.new ≡ string_bytes text.old ++ (name.now ++ codes ": masked\n")) }
{
    text.push_str(name)?;
    text.push_str(": masked\n")
}
