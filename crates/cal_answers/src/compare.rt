//! The verb `same`: whether two timers elapse at the same instants.

ghost use Rattle.std.specs.Prelude.{◌≡◌, ◌≤◌, ◌++◌, IfOk, OnOk, map, option_map, string_bytes};
ghost use Rattle.std.specs.List.{flat_map};
ghost use Rattle.cal_tasks.specs.rules.SameReport.{comparison_of};
ghost use Rattle.cal_timers_report.specs.rules.ReportView.{comparison_seen};
ghost use Rattle.cal_answers.specs.rules.ErrorText.{has_target, line_unless, lines_of_both};
ghost use Rattle.cal_answers.specs.rules.Output.{IsComparedAnswer, IsSameAnswer, IsUnloadedPair, folder_of_both, if_folder, is_loaded_folder, is_named, is_same, not_a_timer, same_output};
ghost use Rattle.cal_answers.specs.rules.Printed.{printed_of};
ghost use Rattle.cal_bytes.specs.rules.Trim.{trim_end_matches};
ghost use Rattle.cal_machine.specs.rules.Places.{is_slash};

use crate::answer::{
    Answer, Context, INVALID, UNUSABLE, fault_lines, push_all_lines, push_fault_line,
    push_ignored_lines, push_masked, stopped,
};
use cal_load::{Loaded, LoadedTimer, TargetFault, is_path};
use cal_tasks::compare;
use cal_timers_report::{Comparison, same_json, same_text};
use std::alloc::{AllocError, Global};

/// Compares two timers; `first` is what was loaded for the target `one`, and `second` for `other`. A folder as a target
/// is an error, even if it has only one timer, and so is a timer that is masked or can't be loaded.
pub(crate) fn same(
    alloc: Global,
    context: Context<'_>,
    one: &str,
    other: &str,
    first: &Loaded,
    second: &Loaded,
) -> Result<Answer, AllocError>
    ensures status { IfOk result (λ answer. answer.status ≤ 2) }
    ensures answer { IfOk result (λ answer.
        IsSameAnswer context.entry one.now other.now first.now second.now (printed_of answer)) }
{
    if let Some(folder) = folder_of_both(one, other, first, second) {
        let reason = not_a_timer(alloc, folder)?;
        return stopped(alloc, reason.as_str());
    }
    match (first.timers.first(), second.timers.first()) {
        (Some(one), Some(other)) => {
            let err = lines_of_both(alloc, first, second)?;
            compared(alloc, context, one, other, err)
        }
        _ => unloaded(alloc, first, second),
    }
}

/// Returns the first of the two targets that was loaded as a folder, if there is one.
fn folder_of_both<'t>(
    one: &'t str,
    other: &'t str,
    first: &Loaded,
    second: &Loaded,
) -> Option<&'t str>
    ensures { option_map (λ folder. folder.now) result ≡ folder_of_both one.now other.now first.now second.now }
{
    if_folder(one, first).or(if_folder(other, second))
}

/// Returns the reason for which a folder is rejected.
pub(crate) fn not_a_timer(alloc: Global, folder: &str) -> Result<String, AllocError>
    ensures { IfOk result (λ reason. string_bytes reason ≡ not_a_timer folder.now) }
{
    Ok(format!(in alloc; "{folder}: a directory, not a timer")?)
}

/// Returns the target if it was loaded as a folder.
pub(crate) fn if_folder<'t>(target: &'t str, loaded: &Loaded) -> Option<&'t str>
    ensures { option_map (λ folder. folder.now) result ≡ if_folder target.now loaded.now }
{
    if is_folder(target, loaded) {
        Some(target)
    } else {
        None
    }
}

/// Returns whether a target was loaded as a folder that has a timer or is empty. If a target is a file, the timer's
/// name is the target itself; if it is a folder, the name is that of a unit in it. Returns `false` if nothing in the
/// folder could be loaded; then the errors or masked units are reported instead.
fn is_folder(target: &str, loaded: &Loaded) -> bool
    ensures { result ≡ is_loaded_folder target.now loaded.now }
{
    match loaded.timers.first() {
        Some(timer) => is_path(target) && !is_named(target, timer),
        None => loaded.faults.is_empty() && loaded.masked.is_empty(),
    }
}

/// Returns whether the name of a timer is the target itself, without the slashes at the target's end.
fn is_named(target: &str, timer: &LoadedTimer) -> bool
    ensures { result ≡ is_named target.now timer.now }
{
    timer.name.as_str() == without_end_slashes(target)
}

fn without_end_slashes(target: &str) -> &str
    ensures { result.now ≡ trim_end_matches is_slash target.now }
{
    target.trim_end_matches('/')
}

/// Returns the answer for two timers that were loaded. `err` has the error lines about their drop-ins, and about lines
/// of their files that are ignored.
fn compared(
    alloc: Global,
    context: Context<'_>,
    one: &LoadedTimer,
    other: &LoadedTimer,
    err: String,
) -> Result<Answer, AllocError>
    ensures status { IfOk result (λ answer. answer.status ≤ 2) }
    ensures answer { IfOk result (λ answer. IsComparedAnswer context.entry (string_bytes err)
        (comparison_of context.entry.at one.now other.now) (printed_of answer)) }
{
    let found = compare(alloc, context.at, one, other)?;
    let out = same_output(alloc, context, &found)?;
    let status = if is_same(&found) && err.is_empty() {
        0
    } else {
        INVALID
    };
    Ok(Answer { out, err, status })
}

/// Returns whether both timers elapse at the same instants.
fn is_same(found: &Comparison<'_>) -> bool
    ensures { result ≡ is_same (comparison_seen found.now) }
{
    found.one.only.is_none() && found.other.only.is_none()
}

fn same_output(
    alloc: Global,
    context: Context<'_>,
    found: &Comparison<'_>,
) -> Result<String, AllocError>
    ensures { IfOk result (λ out. string_bytes out ≡ same_output context.entry (comparison_seen found.now)) }
{
    if context.is_json {
        same_json(alloc, context.shown.local, found)
    } else {
        same_text(alloc, context.shown.local, found)
    }
}

/// Returns the answer if at least one of two timers couldn't be loaded: the error lines, and a line for each masked
/// unit, since a masked unit isn't loaded and has no error line.
fn unloaded(alloc: Global, first: &Loaded, second: &Loaded) -> Result<Answer, AllocError>
    ensures status { IfOk result (λ answer. answer.status ≤ 2) }
    ensures answer { IfOk result (λ answer. IsUnloadedPair first.now second.now (printed_of answer)) }
{
    let mut err = lines_of_both(alloc, first, second)?;
    push_masked(&mut err, first.masked.as_slice())?;
    push_masked(&mut err, second.masked.as_slice())?;
    Ok(Answer {
        out: String::new(alloc),
        err,
        status: UNUSABLE,
    })
}

/// Returns the error lines about two timers, including those about ignored lines of their files. Something that both
/// timers share, such as a folder of drop-ins or a drop-in, is reported only once.
fn lines_of_both(alloc: Global, first: &Loaded, second: &Loaded) -> Result<String, AllocError>
    ensures { IfOk result (λ lines. string_bytes lines ≡ lines_of_both first.now second.now) }
{
    let mut lines = fault_lines(alloc, first.faults.as_slice())?;
    push_other_faults(
        alloc,
        &mut lines,
        first.faults.as_slice(),
        second.faults.as_slice(),
    )?;
    let mut ignored = Vec::new(alloc);
    push_ignored_lines(alloc, &mut ignored, first.timers.as_slice())?;
    push_ignored_lines(alloc, &mut ignored, second.timers.as_slice())?;
    push_all_lines(&mut lines, ignored.as_slice())?;
    Ok(lines)
}

/// Appends the error lines about `faults`, except for targets that have an error among `known`.
fn push_other_faults(
    alloc: Global,
    lines: &mut String,
    known: &[TargetFault],
    faults: &[TargetFault],
) -> Result<(), AllocError>
    ensures { OnOk result (string_bytes lines.new
        ≡ string_bytes lines.old ++ flat_map (line_unless known.now) faults.now) }
{
    for fault in faults {
        push_line_unless(alloc, lines, known, fault)?;
    }
    Ok(())
}

/// Appends the error line about `fault`, unless its target has an error among `known`.
pub(crate) fn push_line_unless(
    alloc: Global,
    lines: &mut String,
    known: &[TargetFault],
    fault: &TargetFault,
) -> Result<(), AllocError>
    ensures { OnOk result (string_bytes lines.new ≡ string_bytes lines.old ++ line_unless known.now fault.now) }
{
    if has_target(known, fault) {
        return Ok(());
    }
    push_fault_line(alloc, lines, fault)
}

/// Returns whether one of the errors is about the target of `fault`.
fn has_target(known: &[TargetFault], fault: &TargetFault) -> bool
    ensures { result ≡ has_target known.now fault.now }
{
    known.iter().any(|other| other.target == fault.target)
}
