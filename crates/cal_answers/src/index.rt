//! The index of the search path, which is needed if a question is about units, and the errors that are found while it
//! is read.

ghost use Rattle.std.specs.Prelude.{◌≡◌, ◌≤◌, IfOk, map, max, option_map, string_bytes, true};
ghost use Rattle.cal_machine.specs.rules.Machine.{Machine};
ghost use Rattle.cal_timers_text.specs.rules.ErrorLines.{fault_line, reason_words, subject_line, unread_words};
ghost use Rattle.cal_unit_index.specs.rules.Index.{IsIndexOf, shown_fault};
ghost use Rattle.cal_answers.specs.rules.LintTimers.{path_words};
ghost use Rattle.cal_answers.specs.rules.ErrorText.{fault_lines, unreadable_lines};
ghost use Rattle.cal_answers.specs.rules.Printed.{printed_of, with_errors};
ghost use Rattle.cal_answers.specs.rules.Found.{IsIndexFor, has_name, name_units, needs_units};
ghost use Rattle.cal_answers.specs.rules.Remarks.{reported};

use crate::answer::{Answer, fault_lines, with_errors};
use crate::due_faults::due_faults;
use crate::found::{Known, LoadedByVerb};
use cal_load::{TargetFault, TargetReason, is_path};
use cal_machine::Tree;
use cal_timers_command::Question;
use cal_unit_index::{UnitFault, UnitIndex};
use std::alloc::{AllocError, Global};

/// Reads the index of the search path. If the question can't be about units, returns the index of an empty search path,
/// so that no folder is read. `about` is the timer that `due` is about.
pub(crate) fn index_for<T: Tree>(
    alloc: Global,
    tree: &mut T,
    question: &Question,
    about: Option<&str>,
    search_path: &[String],
) -> Result<UnitIndex, AllocError>
    ensures known { IfOk result (λ index. (machine : Machine) → T.shows tree.new machine
        → IsIndexFor machine (map string_bytes search_path.now) index) }
    ensures whole { needs_units question.entry.now (option_map (λ name. name.now) about.entry) ≡ true → IfOk result (λ index. (machine : Machine)
        → T.shows tree.new machine → IsIndexOf machine (map string_bytes search_path.now) index) }
    ensures grows { (machine : Machine) → T.shows tree.new machine → T.shows tree.old machine }
{
    if needs_units(question, about) {
        UnitIndex::read(alloc, tree, search_path)
    } else {
        UnitIndex::read(alloc, tree, &[])
    }
}

/// Returns whether a question can be about units: it names no timers, so that it is about the units that other units
/// start or about all units, or at least one name isn't a path. `next` is never about units, since it names expressions,
/// and nor is `cron`.
fn needs_units(question: &Question, about: Option<&str>) -> bool
    ensures { result ≡ needs_units question.entry.now (option_map (λ name. name.now) about.entry) }
{
    match question {
        Question::List { timers, .. }
        | Question::Show { timers, .. }
        | Question::Lint { timers, .. }
        | Question::Between { timers, .. } => name_units(timers.as_slice()),
        Question::Same { one, other } => !is_path(one.as_str()) || !is_path(other.as_str()),
        Question::Next { .. } | Question::Cron { .. } => false,
        Question::Due { .. } => match about {
            Some(name) => !is_path(name),
            None => false,
        },
    }
}

fn name_units(named: &[String]) -> bool
    ensures { result ≡ name_units (map string_bytes named.now) }
{
    named.is_empty() || has_name(named)
}

/// Returns whether at least one of these texts is not a path.
fn has_name(named: &[String]) -> bool
    ensures { result ≡ has_name (map string_bytes named.now) }
{
    named.iter().any(|text| !is_path(text.as_str()))
}

/// Adds the error lines about unreadable parts of the search path to an answer: for `due`, a line for each that concerns
/// its timer, and for other verbs a line for each folder, file or link. Unless such a path is also a target, no other
/// error line of the answer is about it.
pub(crate) fn with_reported(
    alloc: Global,
    known: &Known<'_>,
    answer: Answer,
) -> Result<Answer, AllocError>
    ensures status { IfOk result (λ changed. changed.status ≤ max answer.status 1) }
    ensures changed { IfOk result (λ changed. printed_of changed
        ≡ with_errors (unreadable_lines (reported known.entry.now known.entry.now.loaded)) (printed_of answer)) }
{
    let faults = reported_faults(alloc, known)?;
    let lines = fault_lines(alloc, faults.as_slice())?;
    with_errors(answer, lines.as_str())
}

/// Returns the errors about the unreadable parts of the search path that are reported.
fn reported_faults(alloc: Global, known: &Known<'_>) -> Result<Vec<TargetFault>, AllocError>
    ensures { IfOk result (λ faults. fault_lines faults.items
        ≡ unreadable_lines (reported known.entry.now known.entry.now.loaded)) }
{
    match &known.loaded {
        LoadedByVerb::Due { timer, .. } => due_faults(alloc, &known.index, &known.about, timer),
        LoadedByVerb::List { .. }
        | LoadedByVerb::Show { .. }
        | LoadedByVerb::Lint { .. }
        | LoadedByVerb::Between { .. }
        | LoadedByVerb::Same { .. }
        | LoadedByVerb::Next { .. }
        | LoadedByVerb::Cron { .. } => target_faults(alloc, known.index.unreadable()),
    }
}

/// Adds an error line to an answer for each path that can't be read.
pub(crate) fn with_unreadable(
    alloc: Global,
    unreadable: &[UnitFault],
    answer: Answer,
) -> Result<Answer, AllocError>
    ensures status { IfOk result (λ changed. changed.status ≤ max answer.status 1) }
    ensures changed { IfOk result (λ changed. printed_of changed ≡ with_errors (unreadable_lines unreadable.now) (printed_of answer)) }
{
    let faults = target_faults(alloc, unreadable)?;
    let lines = fault_lines(alloc, faults.as_slice())?;
    with_errors(answer, lines.as_str())
}

/// Converts errors about paths to [`TargetFault`]s, the form in which errors about targets are reported.
pub(crate) fn target_faults(
    alloc: Global,
    unreadable: &[UnitFault],
) -> Result<Vec<TargetFault>, AllocError>
    ensures lines { IfOk result (λ faults. fault_lines faults.items ≡ unreadable_lines unreadable.now) }
    ensures words { IfOk result (λ faults. map unread_words faults.items ≡ map path_words (map shown_fault unreadable.now)) }
{
    let mut faults = Vec::new(alloc);
    for fault in unreadable {
        faults.push(target_fault(fault)?)?;
    }
    Ok(faults)
}

#[tactic(auto, unfolding(cal_timers_text::specs::rules::ErrorLines::unread_words, cal_timers_text::specs::rules::ErrorLines::fault_line))]
pub(crate) fn target_fault(fault: &UnitFault) -> Result<TargetFault, AllocError>
    ensures line { IfOk result (λ target. fault_line target ≡ subject_line (string_bytes fault.now.path) (reason_words fault.now.reason)) }
    ensures words { IfOk result (λ target. unread_words target ≡ path_words (shown_fault fault.now)) }
{
    Ok(TargetFault {
        target: fault.path.clone()?,
        reason: TargetReason::Path(fault.path.clone()?, fault.reason),
    })
}
