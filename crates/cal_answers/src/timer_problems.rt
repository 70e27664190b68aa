//! Problems that `lint` finds only when it loads a timer: zones and filled-in expressions that can't be used, files
//! that systemd doesn't read to the end, timers without a setting that starts the unit, and lines without effect.

ghost use Rattle.std.specs.Prelude.{◌≡◌, ◌++◌, ◌∷◌, ◌<◌, ◌^◌, [], OnOk, map};
ghost use Rattle.std.specs.List.{flat_map};
ghost use Rattle.cal_timers_text.specs.rules.Messages.{broken_file_message, nothing_to_do};
ghost use Rattle.cal_answers.specs.rules.LintCandidates.{error_about, in_line, shown_candidate};
ghost use Rattle.cal_answers.specs.rules.LintTimers.{broken_drop_in, broken_drop_ins, failed, idle_line, idle_of, ignored_in, ignored_line, ignored_of, place_in, unless_reported, unusable_zone};

use crate::candidates::{Candidate, Unless, push_error_about, push_in_line};
use crate::setting_problems::add_ignored_settings;
use cal_lint::ProblemKind;
use cal_load::{
    BrokenLine, BrokenReason, IgnoredLine, LoadedTimer, TargetFault, TargetReason, TimerFiles,
    UnusableZone,
};
use cal_tasks::{IdleLine, Present, idle_lines};
use cal_timers_text::{
    NOTHING_TO_DO, broken_drop_in_words, broken_file_words, idle_words, invalid_words, zone_words,
};
use std::alloc::{AllocError, Global};

/// Appends the reasons why timers fail to load. If no setting starts the unit of a timer, the problems of its ignored
/// lines come first. For all other errors, which are about files, folders or names, appends nothing.
pub(crate) fn add_failed(
    alloc: Global,
    faults: &[TargetFault],
    found: &mut Vec<Candidate>,
) -> Result<(), AllocError>
    ensures { OnOk result (map shown_candidate found.new.items ≡ map shown_candidate found.old.items ++ flat_map failed faults.now) }
{
    for fault in faults {
        add_fault(alloc, fault, found)?;
    }
    Ok(())
}

/// Appends a problem for everything that systemd ignores in the files of the timers that were loaded.
pub(crate) fn add_ignored_of(
    alloc: Global,
    timers: &[LoadedTimer],
    found: &mut Vec<Candidate>,
) -> Result<(), AllocError>
    ensures { OnOk result (map shown_candidate found.new.items ≡ map shown_candidate found.old.items ++ flat_map ignored_of timers.now) }
{
    for timer in timers {
        add_ignored_in(alloc, timer.name.as_str(), &timer.files, found)?;
    }
    Ok(())
}

/// Appends the reason why a timer fails to load: the line at which systemd stops reading its file, or that no setting
/// starts its unit. In the second case, the problems of its ignored lines come first. For any other error, which is
/// about a file, a folder or a name, appends nothing.
fn add_fault(
    alloc: Global,
    fault: &TargetFault,
    found: &mut Vec<Candidate>,
) -> Result<(), AllocError>
    ensures { OnOk result (map shown_candidate found.new.items ≡ map shown_candidate found.old.items ++ failed fault.now) }
{
    match &fault.reason {
        TargetReason::Broken(path, line) => add_broken_file(alloc, path.as_str(), *line, found),
        TargetReason::NothingToDo(name, files) => {
            add_idle_timer(alloc, fault.target.as_str(), name.as_str(), files, found)
        }
        _ => Ok(()),
    }
}

/// Appends the error that no setting starts the unit of a timer, after the problems of its lines that are ignored.
fn add_idle_timer(
    alloc: Global,
    target: &str,
    timer: &str,
    files: &TimerFiles,
    found: &mut Vec<Candidate>,
) -> Result<(), AllocError>
    ensures { OnOk result (map shown_candidate found.new.items ≡ map shown_candidate found.old.items
        ++ (ignored_in timer.now files.now ++ error_about target.now nothing_to_do ∷ [])) }
{
    add_ignored_in(alloc, timer, files, found)?;
    push_error_about(alloc, found, target, NOTHING_TO_DO)
}

/// Appends an error for the line at which systemd stops reading a timer's own file.
fn add_broken_file(
    alloc: Global,
    path: &str,
    line: BrokenLine,
    found: &mut Vec<Candidate>,
) -> Result<(), AllocError>
    ensures { OnOk result (map shown_candidate found.new.items ≡ map shown_candidate found.old.items
        ++ in_line ProblemKind.Error path.now line.number (broken_file_message line.reason) (unless_reported line.reason) ∷ []) }
{
    let message = broken_file_words(alloc, line.reason)?;
    push_error(
        alloc,
        found,
        path,
        line.number,
        message.as_str(),
        unless_reported(line.reason),
    )
}

/// Appends a problem for everything that systemd ignores in the files of the timer with this name.
fn add_ignored_in(
    alloc: Global,
    timer: &str,
    files: &TimerFiles,
    found: &mut Vec<Candidate>,
) -> Result<(), AllocError>
    ensures { OnOk result (map shown_candidate found.new.items ≡ map shown_candidate found.old.items ++ ignored_in timer.now files.now) }
{
    add_ignored(alloc, timer, files, files.ignored.as_slice(), found)?;
    add_unusable_zones(alloc, timer, files, files.unusable_zones.as_slice(), found)?;
    add_ignored_settings(alloc, timer, files, found)?;
    add_broken_lines(alloc, timer, files, files.broken.as_slice(), found)
}

/// Appends an error about a line in the file at a path.
fn push_error(
    alloc: Global,
    found: &mut Vec<Candidate>,
    path: &str,
    line: u32,
    message: &str,
    unless: Unless,
) -> Result<(), AllocError>
    ensures { OnOk result (map shown_candidate found.new.items
        ≡ map shown_candidate found.old.items ++ in_line ProblemKind.Error path.now line message.now unless ∷ []) }
{
    push_in_line(
        alloc,
        found,
        ProblemKind::Error,
        path,
        line,
        message,
        unless,
    )
}

/// Appends an error for each of `lines`, which are ignored because their expressions are invalid once the specifiers
/// are filled in. The errors of lines without specifiers were found without loading the timer.
fn add_ignored(
    alloc: Global,
    timer: &str,
    files: &TimerFiles,
    lines: &[IgnoredLine],
    found: &mut Vec<Candidate>,
) -> Result<(), AllocError>
    ensures { OnOk result (map shown_candidate found.new.items
        ≡ map shown_candidate found.old.items ++ map (ignored_line timer.now files.now) lines.now) }
{
    for ignored in lines {
        add_ignored_line(alloc, timer, files, ignored, found)?;
    }
    Ok(())
}

fn add_ignored_line(
    alloc: Global,
    timer: &str,
    files: &TimerFiles,
    ignored: &IgnoredLine,
    found: &mut Vec<Candidate>,
) -> Result<(), AllocError>
    ensures { OnOk result (map shown_candidate found.new.items
        ≡ map shown_candidate found.old.items ++ ignored_line timer.now files.now ignored.now ∷ []) }
{
    let (path, line) = place_in(timer, files, ignored.number);
    let message = invalid_words(alloc, ignored.fault.words())?;
    push_error(
        alloc,
        found,
        path,
        line,
        message.as_str(),
        Unless::ErrorInLine,
    )
}

/// Appends an error for each of `zones`, the lines that are ignored because their zones can't be used.
fn add_unusable_zones(
    alloc: Global,
    timer: &str,
    files: &TimerFiles,
    zones: &[UnusableZone],
    found: &mut Vec<Candidate>,
) -> Result<(), AllocError>
    ensures { OnOk result (map shown_candidate found.new.items
        ≡ map shown_candidate found.old.items ++ map (unusable_zone timer.now files.now) zones.now) }
{
    for zone in zones {
        add_unusable_zone(alloc, timer, files, zone, found)?;
    }
    Ok(())
}

fn add_unusable_zone(
    alloc: Global,
    timer: &str,
    files: &TimerFiles,
    zone: &UnusableZone,
    found: &mut Vec<Candidate>,
) -> Result<(), AllocError>
    ensures { OnOk result (map shown_candidate found.new.items
        ≡ map shown_candidate found.old.items ++ unusable_zone timer.now files.now zone.now ∷ []) }
{
    let (path, line) = place_in(timer, files, zone.number);
    let message = zone_words(alloc, zone.name.as_str(), zone.reason)?;
    push_error(alloc, found, path, line, message.as_str(), Unless::Same)
}

/// Appends an error for each drop-in of the timer that systemd stops reading at some line.
fn add_broken_lines(
    alloc: Global,
    timer: &str,
    files: &TimerFiles,
    lines: &[Option<BrokenLine>],
    found: &mut Vec<Candidate>,
) -> Result<(), AllocError>
    ensures { OnOk result (map shown_candidate found.new.items
        ≡ map shown_candidate found.old.items ++ flat_map (broken_drop_ins timer.now files.now) lines.now) }
{
    for line in lines {
        add_if_broken(alloc, timer, files, *line, found)?;
    }
    Ok(())
}

fn add_if_broken(
    alloc: Global,
    timer: &str,
    files: &TimerFiles,
    line: Option<BrokenLine>,
    found: &mut Vec<Candidate>,
) -> Result<(), AllocError>
    ensures { OnOk result (map shown_candidate found.new.items
        ≡ map shown_candidate found.old.items ++ broken_drop_ins timer.now files.now line) }
{
    match line {
        Some(broken) => add_broken_drop_in(alloc, timer, files, broken, found),
        None => Ok(()),
    }
}

fn add_broken_drop_in(
    alloc: Global,
    timer: &str,
    files: &TimerFiles,
    broken: BrokenLine,
    found: &mut Vec<Candidate>,
) -> Result<(), AllocError>
    ensures { OnOk result (map shown_candidate found.new.items
        ≡ map shown_candidate found.old.items ++ broken_drop_in timer.now files.now broken ∷ []) }
{
    let (path, line) = place_in(timer, files, broken.number);
    let message = broken_drop_in_words(alloc, broken.reason)?;
    push_error(
        alloc,
        found,
        path,
        line,
        message.as_str(),
        unless_reported(broken.reason),
    )
}

/// Returns which problems make `lint` leave out the error for the line at which systemd stops reading a file. If this
/// line is a bad section header, `lint` has already listed an error for it when checking the file by itself.
fn unless_reported(reason: BrokenReason) -> Unless
    ensures { result ≡ unless_reported reason }
{
    match reason {
        BrokenReason::BadHeader => Unless::ErrorInLine,
        BrokenReason::NotUtf8 | BrokenReason::TooLong => Unless::Same,
    }
}

/// Appends a warning about each expression that never elapses or for which systemd 252 fails at some midnight, and
/// about each exception that suppresses nothing.
pub(crate) fn add_idle(
    alloc: Global,
    at: Present<'_>,
    timers: &[LoadedTimer],
    found: &mut Vec<Candidate>,
) -> Result<(), AllocError>
    ensures { OnOk result (map shown_candidate found.new.items ≡ map shown_candidate found.old.items ++ flat_map (idle_of at.entry) timers.now) }
{
    for timer in timers {
        add_idle_of(alloc, at, timer, found)?;
    }
    Ok(())
}

fn add_idle_of(
    alloc: Global,
    at: Present<'_>,
    timer: &LoadedTimer,
    found: &mut Vec<Candidate>,
) -> Result<(), AllocError>
    ensures { OnOk result (map shown_candidate found.new.items ≡ map shown_candidate found.old.items ++ idle_of at.entry timer.now) }
{
    let lines = idle_lines(alloc, at, timer)?;
    add_idle_lines(alloc, timer, lines.as_slice(), found)?;
    Ok(())
}

fn add_idle_lines(
    alloc: Global,
    timer: &LoadedTimer,
    lines: &[IdleLine],
    found: &mut Vec<Candidate>,
) -> Result<(), AllocError>
    ensures { OnOk result (map shown_candidate found.new.items ≡ map shown_candidate found.old.items ++ map (idle_line timer.now) lines.now) }
{
    for idle in lines {
        add_idle_line(alloc, timer, *idle, found)?;
    }
    Ok(())
}

fn add_idle_line(
    alloc: Global,
    timer: &LoadedTimer,
    idle: IdleLine,
    found: &mut Vec<Candidate>,
) -> Result<(), AllocError>
    ensures { OnOk result (map shown_candidate found.new.items ≡ map shown_candidate found.old.items ++ idle_line timer.now idle ∷ []) }
{
    let (path, line) = place_in(timer.name.as_str(), &timer.files, idle.number);
    let words = idle_words(idle.kind);
    push_in_line(
        alloc,
        found,
        ProblemKind::Warning,
        path,
        line,
        words,
        Unless::Same,
    )
}

/// Returns the path of the file that has a line, and the line's number in this file. `number` is the line's continued
/// number. If no file has the line, returns the timer's name and `number`.
pub(crate) fn place_in<'t>(timer: &'t str, files: &'t TimerFiles, number: u32) -> (&'t str, u32)
    ensures path { result.0.now ≡ (place_in timer.now files.now number).0 }
    ensures line { result.1 ≡ (place_in timer.now files.now number).1 }
{
    match files.position(number) {
        Some((path, line)) => placed(path, line),
        None => (timer, number),
    }
}

/// Returns its arguments. This is a function because its contract can then state that `line`, a `u32`, is below 2^32.
fn placed(path: &str, line: u32) -> (&str, u32)
    ensures path { result.0.now ≡ path.now }
    ensures line { result.1 ≡ line }
    ensures fits { line < 2 ^ 32 }
{
    (path, line)
}
