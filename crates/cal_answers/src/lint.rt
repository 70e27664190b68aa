//! The verb `lint`: all problems of the files of timers, of crontabs, of the timers themselves, and lines that have no
//! effect.

ghost use Rattle.std.specs.Prelude.{◌≡◌, ◌≤◌, ◌++◌, ℕ, IfOk, List, OnOk, map, string_bytes};
ghost use Rattle.std.specs.List.{flat_map};
ghost use Rattle.cal_machine.specs.rules.Machine.{Machine};
ghost use Rattle.cal_timers_report.specs.rules.Documents.{lint_document};
ghost use Rattle.cal_timers_text.specs.rules.ErrorLines.{unread_words};
ghost use Rattle.cal_unit_index.specs.rules.Index.{IsIndexOf, shown_fault};
ghost use Rattle.cal_answers.specs.rules.ErrorText.{lint_lines, unfound_line};
ghost use Rattle.cal_answers.specs.rules.LintCandidates.{shown_candidate, with_candidates};
ghost use Rattle.cal_answers.specs.rules.LintFiles.{AreProblemsOfFiles, AreProblemsOfText, HasAlso};
ghost use Rattle.cal_answers.specs.rules.LintOutput.{IsLintBy, has_lines, lint_output};
ghost use Rattle.cal_answers.specs.rules.LintRows.{listed_in, rows_of};
ghost use Rattle.cal_answers.specs.rules.LintStatus.{lint_status};
ghost use Rattle.cal_answers.specs.rules.LintTimers.{path_words, problems_of_timers, unread, unread_error, unread_errors};

use crate::answer::{Answer, Context, INVALID, fault_lines, push_fault_lines};
use crate::candidates::{Candidate, push_error_about};
use crate::compare::push_line_unless;
use crate::crontab_problems::add_crontabs;
use crate::index::target_faults;
use crate::problems::Problems;
use crate::remarks::is_not_found;
use crate::service_problems::add_unguarded;
use crate::setting_problems::add_missing_units;
use crate::timer_problems::{add_failed, add_idle, add_ignored_of};
use cal_crontabs::Crontabs;
use cal_lint::findings;
use cal_load::{Loaded, LoadedFiles, TargetFault};
use cal_tasks::Present;
use cal_timers_report::Style;
use cal_timers_text::{ProblemCounts, unread_words};
use cal_unit_index::{UnitFault, UnitIndex, UnitText};
use std::alloc::{AllocError, Global};

/// The maximum size of the text of a file, in bytes. A file has at most 1,048,576 bytes, and each byte that isn't UTF-8
/// is replaced by at most three bytes.
const MAX_TEXT: usize = 3 * 1_048_576;

/// Returns all problems of the files, each file checked by itself; then those of the crontabs; then what is wrong with
/// the timers that are made of the files; then warnings about expressions and exceptions that have no effect; and then
/// warnings about exceptions that systemd ignores. `index` is the index of the search path, and `is_strict` says whether
/// a warning gives the status [`INVALID`].
pub(crate) fn lint(
    alloc: Global,
    context: Context<'_>,
    is_strict: bool,
    index: &UnitIndex,
    files: &LoadedFiles,
    timers: &Loaded,
    crontabs: &Crontabs,
) -> Result<Answer, AllocError>
    ensures status { IfOk result (λ answer. answer.status ≤ 2) }
    ensures prints { IfOk result (λ answer. IsLintBy context.entry is_strict index.now files.now timers.now crontabs.now (string_bytes answer.out) (string_bytes answer.err) answer.status) }
    ensures lines { IfOk result (λ answer. string_bytes answer.err
        ≡ lint_lines files.now.faults.items timers.now.faults.items crontabs.now.faults.items) }
{
    let mut problems = Problems::new(alloc);
    add_files(alloc, context.style, files.files.as_slice(), &mut problems)?;
    add_crontabs(
        alloc,
        context.style,
        crontabs.crontabs.as_slice(),
        &mut problems,
    )?;
    let found = problems_of_timers(alloc, context.at, index, timers)?;
    problems.add_all(alloc, context.style, found.as_slice())?;
    add_unguarded(
        alloc,
        context.style,
        context.is_user,
        context.unguarded,
        &mut problems,
    )?;
    let err = error_lines(
        alloc,
        files.faults.as_slice(),
        timers.faults.as_slice(),
        crontabs.faults.as_slice(),
    )?;
    let counts = problems.counts();
    let status = lint_status(is_strict, counts, has_lines(err.as_str()));
    let lacking = unread(alloc, index, files, timers, crontabs)?;
    let out = lint_output(alloc, context, lacking.as_slice(), problems)?;
    Ok(Answer { out, err, status })
}

/// Returns the text about these problems, or the JSON document about them and about what can't be read.
fn lint_output(
    alloc: Global,
    context: Context<'_>,
    lacking: &[Candidate],
    problems: Problems,
) -> Result<String, AllocError>
    ensures { IfOk result (λ out. string_bytes out ≡ lint_output context.entry (map shown_candidate lacking.now) (listed_in problems)) }
{
    if !context.is_json {
        return problems.text(alloc, problems.counts());
    }
    json_with(alloc, context.style, lacking, problems)
}

fn json_with(
    alloc: Global,
    style: Style,
    lacking: &[Candidate],
    problems: Problems,
) -> Result<String, AllocError>
    ensures { IfOk result (λ out. string_bytes out ≡ lint_document (rows_of (with_candidates style (listed_in problems) (map shown_candidate lacking.now)))) }
{
    let mut all = problems;
    all.add_all(alloc, style, lacking)?;
    all.json(alloc)
}

/// Returns the problems that are found when timers are loaded, in the order in which they are listed.
fn problems_of_timers(
    alloc: Global,
    at: Present<'_>,
    index: &UnitIndex,
    timers: &Loaded,
) -> Result<Vec<Candidate>, AllocError>
    ensures { IfOk result (λ found. (machine : Machine) (search_path : List (List ℕ)) → IsIndexOf machine search_path index.now
        → map shown_candidate found.items ≡ problems_of_timers at.entry machine search_path timers.now) }
{
    let mut found = Vec::new(alloc);
    add_failed(alloc, timers.faults.as_slice(), &mut found)?;
    add_ignored_of(alloc, timers.timers.as_slice(), &mut found)?;
    add_missing_units(alloc, index, timers.timers.as_slice(), &mut found)?;
    add_idle(alloc, at, timers.timers.as_slice(), &mut found)?;
    Ok(found)
}

/// Returns the exit status for these problems. `is_incomplete` says whether there are also error lines, because
/// something couldn't be read.
fn lint_status(is_strict: bool, counts: ProblemCounts, is_incomplete: bool) -> u8
    ensures { result ≡ lint_status is_strict counts is_incomplete }
{
    if is_incomplete || counts.errors > 0 || (is_strict && counts.warnings > 0) {
        INVALID
    } else {
        0
    }
}

/// Returns whether there are error lines.
fn has_lines(err: &str) -> bool
    ensures { result ≡ has_lines err.now }
{
    !err.is_empty()
}

/// Returns an error about everything that can't be read. The JSON document lists these errors, in addition to the error
/// lines.
fn unread(
    alloc: Global,
    index: &UnitIndex,
    files: &LoadedFiles,
    timers: &Loaded,
    crontabs: &Crontabs,
) -> Result<Vec<Candidate>, AllocError>
    ensures { IfOk result (λ found. (machine : Machine) (search_path : List (List ℕ)) → IsIndexOf machine search_path index.now
        → map shown_candidate found.items ≡ unread machine search_path files.now timers.now crontabs.now) }
{
    let mut found = Vec::new(alloc);
    add_unread(alloc, files.faults.as_slice(), &mut found)?;
    add_unread(alloc, timers.faults.as_slice(), &mut found)?;
    add_unread_paths(alloc, crontabs.faults.as_slice(), &mut found)?;
    add_unread_paths(alloc, index.unreadable(), &mut found)?;
    Ok(found)
}

/// Appends an error for each of these paths, none of which can be read.
fn add_unread_paths(
    alloc: Global,
    unreadable: &[UnitFault],
    found: &mut Vec<Candidate>,
) -> Result<(), AllocError>
    ensures { OnOk result (map shown_candidate found.new.items
        ≡ map shown_candidate found.old.items ++ unread_errors (map path_words (map shown_fault unreadable.now))) }
{
    let faults = target_faults(alloc, unreadable)?;
    add_unread(alloc, faults.as_slice(), found)
}

/// Appends an error for each of `faults` that says that something can't be found or read.
fn add_unread(
    alloc: Global,
    faults: &[TargetFault],
    found: &mut Vec<Candidate>,
) -> Result<(), AllocError>
    ensures { OnOk result (map shown_candidate found.new.items
        ≡ map shown_candidate found.old.items ++ unread_errors (map unread_words faults.now)) }
{
    for fault in faults {
        add_if_unread(alloc, fault, found)?;
    }
    Ok(())
}

fn add_if_unread(
    alloc: Global,
    fault: &TargetFault,
    found: &mut Vec<Candidate>,
) -> Result<(), AllocError>
    ensures { OnOk result (map shown_candidate found.new.items
        ≡ map shown_candidate found.old.items ++ unread_error (unread_words fault.now)) }
{
    match unread_words(fault) {
        Some((subject, message)) => push_error_about(alloc, found, subject, message),
        None => Ok(()),
    }
}

/// Returns the error lines about units, files and folders that can't be read (`of_files`), those about timers that
/// weren't found, such as links to nothing, and those about crontabs that can't be read.
fn error_lines(
    alloc: Global,
    of_files: &[TargetFault],
    timers: &[TargetFault],
    crontabs: &[UnitFault],
) -> Result<String, AllocError>
    ensures { IfOk result (λ lines. string_bytes lines ≡ lint_lines of_files.now timers.now crontabs.now) }
{
    let mut lines = fault_lines(alloc, of_files)?;
    push_unfound(alloc, &mut lines, of_files, timers)?;
    let faults = target_faults(alloc, crontabs)?;
    push_fault_lines(alloc, &mut lines, faults.as_slice())?;
    Ok(lines)
}

/// Appends the error lines about timers that weren't found, unless `of_files` has an error for the same target.
fn push_unfound(
    alloc: Global,
    lines: &mut String,
    of_files: &[TargetFault],
    timers: &[TargetFault],
) -> Result<(), AllocError>
    ensures { OnOk result (string_bytes lines.new
        ≡ string_bytes lines.old ++ flat_map (unfound_line of_files.now) timers.now) }
{
    for fault in timers {
        push_if_unfound(alloc, lines, of_files, fault)?;
    }
    Ok(())
}

fn push_if_unfound(
    alloc: Global,
    lines: &mut String,
    of_files: &[TargetFault],
    fault: &TargetFault,
) -> Result<(), AllocError>
    ensures { OnOk result (string_bytes lines.new ≡ string_bytes lines.old ++ unfound_line of_files.now fault.now) }
{
    if is_not_found(&fault.reason) {
        push_line_unless(alloc, lines, of_files, fault)
    } else {
        Ok(())
    }
}

/// Adds the problems of the files, each file checked by itself.
fn add_files(
    alloc: Global,
    style: Style,
    files: &[UnitText],
    problems: &mut Problems,
) -> Result<(), AllocError>
    ensures { OnOk result (HasAlso (AreProblemsOfFiles style files.now) (listed_in problems.old) (listed_in problems.new)) }
{
    for file in files {
        // systemd accepts comments that aren't UTF-8, so such bytes are replaced instead of being an error.
        let text = String::from_utf8_lossy(alloc, file.bytes.as_slice())?;
        add_file(alloc, style, file.path.as_str(), text.as_str(), problems)?;
    }
    Ok(())
}

/// Adds the problems of a file. No file has a text longer than [`MAX_TEXT`]. For a longer `text`, adds nothing.
fn add_file(
    alloc: Global,
    style: Style,
    path: &str,
    text: &str,
    problems: &mut Problems,
) -> Result<(), AllocError>
    ensures { OnOk result (HasAlso (AreProblemsOfText style path.now text.now) (listed_in problems.old) (listed_in problems.new)) }
{
    if text.len() > MAX_TEXT {
        return Ok(());
    }
    let found = findings(alloc, text)?;
    problems.add_findings(alloc, style, path, text, found)
}
