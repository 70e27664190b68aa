//! Error lines that depend on the whole answer: a hint that the first name may be a misspelled verb, folders without
//! timers, and a missing zone file.

ghost use Rattle.std.specs.Prelude.{◌≡◌, ◌≤◌, ◌++◌, IfOk, OnOk, codes, map, max, option_map, string_bytes};
ghost use Rattle.std.specs.List.{list_any};
ghost use Rattle.cal_answers.specs.rules.ErrorText.{is_not_found};
ghost use Rattle.cal_answers.specs.rules.Printed.{printed_of, with_notes};
ghost use Rattle.cal_answers.specs.rules.Remarks.{empty_folder_lines, folder_lines, is_drop_in, hint_about, hint_at, if_unknown, is_assumed, is_empty, is_empty_lint, is_nothing, is_unknown, may_find_nothing, named_in, shows_no_times, unknown_name, verb_hint, with_empty_folders, zone_note};

use crate::answer::{Answer, UNUSABLE, with_errors, with_notes};
use crate::found::LoadedByVerb;
use crate::local_clock::LocalClock;
use cal_crontabs::Crontabs;
use cal_load::{Loaded, LoadedFiles, TargetFault, TargetReason};
use cal_timers_command::Verb;
use std::alloc::{AllocError, Global};

/// Adds a line to the answer of `list` if the first timer that it names isn't found and resembles a verb: a misspelled
/// verb is taken for the name of a timer.
pub(crate) fn with_verb_hint(
    alloc: Global,
    loaded: &LoadedByVerb<'_>,
    answer: Answer,
) -> Result<Answer, AllocError>
    ensures status { IfOk result (λ changed. changed.status ≡ answer.status) }
    ensures changed { IfOk result (λ changed. printed_of changed ≡ with_notes (verb_hint loaded.now) (printed_of answer)) }
{
    let hint = verb_hint(alloc, loaded)?;
    with_notes(answer, hint.as_str())
}

/// Returns the line that [`with_verb_hint`] adds, or an empty text.
fn verb_hint(alloc: Global, loaded: &LoadedByVerb<'_>) -> Result<String, AllocError>
    ensures { IfOk result (λ hint. string_bytes hint ≡ verb_hint loaded.now) }
{
    match unknown_name(loaded) {
        Some(word) => hint_at(alloc, Verb::similar(alloc, word)?),
        None => Ok(String::new(alloc)),
    }
}

fn hint_at(alloc: Global, verb: Option<Verb>) -> Result<String, AllocError>
    ensures { IfOk result (λ hint. string_bytes hint ≡ hint_at verb) }
{
    let Some(verb) = verb else {
        return Ok(String::new(alloc));
    };
    let name = verb.name();
    Ok(format!(in alloc; "calendar-timers: did you mean the verb '{name}'?\n")?)
}

/// Returns the first timer that `list` names, if there is no such timer.
fn unknown_name<'l>(loaded: &'l LoadedByVerb<'_>) -> Option<&'l str>
    ensures { option_map (λ name. name.now) result ≡ unknown_name loaded.now }
{
    match loaded {
        LoadedByVerb::List { timers, named, .. } => {
            if_unknown(timers.faults.as_slice(), named.first()?.as_str())
        }
        LoadedByVerb::Show { .. }
        | LoadedByVerb::Lint { .. }
        | LoadedByVerb::Between { .. }
        | LoadedByVerb::Same { .. }
        | LoadedByVerb::Next { .. }
        | LoadedByVerb::Due { .. }
        | LoadedByVerb::Cron { .. } => None,
    }
}

/// Returns the target if one of the errors says that there is no such timer.
fn if_unknown<'q>(faults: &[TargetFault], target: &'q str) -> Option<&'q str>
    ensures { option_map (λ target. target.now) result ≡ if_unknown faults.now target.now }
{
    if has_unknown(faults, target) {
        Some(target)
    } else {
        None
    }
}

fn has_unknown(faults: &[TargetFault], target: &str) -> bool
    ensures { result ≡ list_any (is_unknown target.now) faults.now }
{
    faults.iter().any(|fault| is_unknown(target, fault))
}

fn is_unknown(target: &str, fault: &TargetFault) -> bool
    ensures { result ≡ is_unknown target.now fault.now }
{
    is_not_found(&fault.reason) && fault.target.as_str() == target
}

pub(crate) fn is_not_found(reason: &TargetReason) -> bool
    ensures { result ≡ is_not_found reason.now }
{
    matches!(reason, TargetReason::NotFound)
}

/// For verbs that show times, adds a line if the local zone is UTC only because `/etc/localtime` doesn't lead to a zone
/// file.
pub(crate) fn with_zone_note(
    loaded: &LoadedByVerb<'_>,
    local: &LocalClock,
    answer: Answer,
) -> Result<Answer, AllocError>
    ensures status { IfOk result (λ changed. changed.status ≡ answer.status) }
    ensures changed { IfOk result (λ changed. printed_of changed ≡ with_notes (zone_note loaded.now local.now) (printed_of answer)) }
{
    with_notes(answer, zone_note(loaded, local))
}

fn zone_note(loaded: &LoadedByVerb<'_>, local: &LocalClock) -> &'static str
    ensures { result.now ≡ zone_note loaded.now local.now }
{
    if shows_no_times(loaded) || !is_assumed(local) {
        ""
    } else {
        "calendar-timers: /etc/localtime: no zone file, so the local zone is UTC\n"
    }
}

fn shows_no_times(loaded: &LoadedByVerb<'_>) -> bool
    ensures { result ≡ shows_no_times loaded.now }
{
    matches!(
        loaded,
        LoadedByVerb::Lint { .. } | LoadedByVerb::Cron { .. }
    )
}

fn is_assumed(local: &LocalClock) -> bool
    ensures { result ≡ is_assumed local.now }
{
    matches!(local, LocalClock::Assumed)
}

/// Adds an error line for each name if no name ends in `.conf` and loading found nothing at all: then all of the names
/// are those of folders without timers. Changes nothing if the question can't be answered.
pub(crate) fn with_empty_folders(
    alloc: Global,
    loaded: &LoadedByVerb<'_>,
    answer: Answer,
) -> Result<Answer, AllocError>
    ensures status { IfOk result (λ changed. changed.status ≤ max answer.status 1) }
    ensures changed { IfOk result (λ changed. printed_of changed ≡ with_empty_folders loaded.now (printed_of answer)) }
{
    if answer.status == UNUSABLE {
        return Ok(answer);
    }
    let lines = empty_folder_lines(alloc, loaded)?;
    with_errors(answer, lines.as_str())
}

/// Returns a line for each folder that is named, if only folders without timers are.
fn empty_folder_lines(alloc: Global, loaded: &LoadedByVerb<'_>) -> Result<String, AllocError>
    ensures { IfOk result (λ lines. string_bytes lines ≡ empty_folder_lines loaded.now) }
{
    let named = named_in(loaded);
    let mut lines = String::new(alloc);
    if !may_find_nothing(named) && is_nothing(loaded) {
        push_folder_lines(&mut lines, named)?;
    }
    Ok(lines)
}

/// Returns the units, files and folders that were named for `list`, `show`, `lint` or `between`.
fn named_in<'l>(loaded: &'l LoadedByVerb<'_>) -> &'l [String]
    ensures { map string_bytes result.now ≡ named_in loaded.now }
{
    match loaded {
        LoadedByVerb::List { named, .. }
        | LoadedByVerb::Show { named, .. }
        | LoadedByVerb::Lint { named, .. }
        | LoadedByVerb::Between { named, .. } => named,
        LoadedByVerb::Same { .. }
        | LoadedByVerb::Next { .. }
        | LoadedByVerb::Due { .. }
        | LoadedByVerb::Cron { .. } => &[],
    }
}

fn push_folder_lines(lines: &mut String, folders: &[String]) -> Result<(), AllocError>
    ensures { OnOk result (string_bytes lines.new
        ≡ string_bytes lines.old ++ folder_lines (map string_bytes folders.now)) }
{
    for folder in folders {
        push_folder_line(lines, folder.as_str())?;
    }
    Ok(())
}

fn push_folder_line(lines: &mut String, folder: &str) -> Result<(), AllocError>
    ensures { OnOk result (string_bytes lines.new
        ≡ string_bytes lines.old ++ (folder.now ++ codes ": no timers in this directory\n")) }
{
    lines.push_str(folder)?;
    lines.push_str(": no timers in this directory\n")
}

/// Returns whether loading can find nothing although no folder is named: because nothing is named, or because a drop-in
/// is. `lint` skips a drop-in that is empty or a link to `/dev/null`.
fn may_find_nothing(named: &[String]) -> bool
    ensures { result ≡ may_find_nothing (map string_bytes named.now) }
{
    named.is_empty() || has_drop_in(named)
}

fn has_drop_in(named: &[String]) -> bool
    ensures { result ≡ list_any is_drop_in (map string_bytes named.now) }
{
    named.iter().any(|name| is_drop_in(name.as_str()))
}

fn is_drop_in(name: &str) -> bool
    ensures { result ≡ is_drop_in name.now }
{
    name.as_bytes().ends_with(b".conf")
}

/// Returns whether loading found nothing at all: no timer, no file, no crontab, no masked unit and no error. For `same`,
/// `next`, `due` and `cron`, to which a folder can't be given, returns `false`.
fn is_nothing(loaded: &LoadedByVerb<'_>) -> bool
    ensures { result ≡ is_nothing loaded.now }
{
    match loaded {
        LoadedByVerb::List { timers, .. }
        | LoadedByVerb::Show { timers, .. }
        | LoadedByVerb::Between { timers, .. } => is_empty(timers),
        LoadedByVerb::Lint {
            files,
            timers,
            crontabs,
            ..
        } => is_empty_lint(files, timers, crontabs),
        LoadedByVerb::Same { .. }
        | LoadedByVerb::Next { .. }
        | LoadedByVerb::Due { .. }
        | LoadedByVerb::Cron { .. } => false,
    }
}

fn is_empty_lint(files: &LoadedFiles, timers: &Loaded, crontabs: &Crontabs) -> bool
    ensures { result ≡ is_empty_lint files.now timers.now crontabs.now }
{
    files.files.is_empty()
        && files.faults.is_empty()
        && crontabs.crontabs.is_empty()
        && crontabs.faults.is_empty()
        && is_empty(timers)
}

fn is_empty(loaded: &Loaded) -> bool
    ensures { result ≡ is_empty loaded.now }
{
    loaded.timers.is_empty() && loaded.masked.is_empty() && loaded.faults.is_empty()
}
