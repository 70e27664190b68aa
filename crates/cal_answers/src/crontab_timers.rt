//! Timers that are made of the entries of crontabs, for `list` and `between` with `--cron`.

ghost use Rattle.std.specs.Prelude.{◌≡◌, ◌++◌, ◌≤◌, IfOk, OnOk, is_some, map, max, string_bytes};
ghost use Rattle.std.specs.List.{AllZip};
ghost use Rattle.std.specs.Option.{option_copied};
ghost use Rattle.cal_machine.specs.rules.Machine.{Machine};
ghost use Rattle.cal_crontabs.specs.rules.Entries.{entry_seen};
ghost use Rattle.cal_answers.specs.rules.CrontabTimers.{AreCrontabTimersOn, AreTimersOfEntries, HasCrontabLines, HasOnly, IsTimerOfEntry, entry_name, entry_notes};
ghost use Rattle.cal_answers.specs.rules.Printed.{printed_of};

use crate::answer::{Answer, with_errors};
use crate::index::with_unreadable;
use crate::loading::texts_of;
use cal_crontabs::{CronEntry, Crontabs, cron_report, load_crontabs, times_are_read};
use cal_load::{Loaded, LoadedTimer, load_expressions};
use cal_machine::Tree;
use std::alloc::{AllocError, Global};

/// Crontabs, and the timers that are made of their entries.
#[derive(Drop)]
pub struct CrontabTimers {
    pub crontabs: Crontabs,
    /// Only timers: one for each valid entry, in the order of the entries.
    pub timers: Loaded,
}

/// If `is_cron`, loads the crontabs of the machine and makes a timer of each valid entry. Otherwise returns `None`.
pub(crate) fn load_crontab_timers<T: Tree>(
    alloc: Global,
    tree: &mut T,
    is_cron: bool,
) -> Result<Option<CrontabTimers>, AllocError>
    ensures context { IfOk result (λ entries. is_some entries ≡ is_cron) }
    ensures known { IfOk result (λ entries. (machine : Machine) → T.shows tree.new machine → AreCrontabTimersOn machine entries) }
    ensures grows { (machine : Machine) → T.shows tree.new machine → T.shows tree.old machine }
{
    if !is_cron {
        return Ok(None);
    }
    let crontabs = load_crontabs(alloc, tree, &[])?;
    let timers = timers_of_crontabs(alloc, tree, &crontabs)?;
    let timers = only_timers(alloc, timers);
    Ok(Some(CrontabTimers { crontabs, timers }))
}

fn only_timers(alloc: Global, timers: Vec<LoadedTimer>) -> Loaded
    ensures { HasOnly timers.items result }
{
    Loaded {
        timers,
        masked: Vec::new(alloc),
        faults: Vec::new(alloc),
        started: None,
    }
}

fn timers_of_crontabs<T: Tree>(
    alloc: Global,
    tree: &mut T,
    crontabs: &Crontabs,
) -> Result<Vec<LoadedTimer>, AllocError>
    ensures made { IfOk result (λ timers. (machine : Machine) → T.shows tree.new machine
        → AreTimersOfEntries machine crontabs.now timers.items) }
    ensures grows { (machine : Machine) → T.shows tree.new machine → T.shows tree.old machine }
{
    times_are_read();
    let report = cron_report(alloc, crontabs.crontabs.as_slice())?;
    timers_of_entries(alloc, tree, report.entries.as_slice())
}

fn timers_of_entries<T: Tree>(
    alloc: Global,
    tree: &mut T,
    entries: &[CronEntry<'_>],
) -> Result<Vec<LoadedTimer>, AllocError>
    ensures made { IfOk result (λ timers. (machine : Machine) → T.shows tree.new machine
        → AllZip (IsTimerOfEntry machine) (map entry_seen entries.now) timers.items) }
    ensures grows { (machine : Machine) → T.shows tree.new machine → T.shows tree.old machine }
{
    let mut timers = Vec::new(alloc);
    for entry in entries {
        let timer = timer_of_entry(alloc, tree, entry)?;
        timers.push(timer)?;
    }
    Ok(timers)
}

/// Returns the timer that elapses when cron runs an entry. It is named after the line of the entry.
fn timer_of_entry<T: Tree>(
    alloc: Global,
    tree: &mut T,
    entry: &CronEntry<'_>,
) -> Result<LoadedTimer, AllocError>
    ensures made { IfOk result (λ timer. (machine : Machine) → T.shows tree.new machine → IsTimerOfEntry machine (entry_seen entry.now) timer) }
    ensures grows { (machine : Machine) → T.shows tree.new machine → T.shows tree.old machine }
{
    let name = entry_name(alloc, entry)?;
    let notes = entry_notes(alloc, entry)?;
    let expressions = texts_of(alloc, entry.expressions.as_slice())?;
    let mut loaded = load_expressions(alloc, tree, expressions.as_slice())?;
    // Valid expressions that name no zone always make a timer.
    let Some(mut timer) = loaded.timers.pop() else {
        return Err(AllocError);
    };
    timer.name = name;
    timer.notes = notes;
    Ok(timer)
}

/// Returns the name of an entry: the path of its crontab and the number of its line.
fn entry_name(alloc: Global, entry: &CronEntry<'_>) -> Result<String, AllocError>
    ensures { IfOk result (λ name. string_bytes name ≡ entry_name (entry_seen entry.now)) }
{
    let file = entry.file.unwrap_or("");
    let line = entry.line;
    format!(in alloc; "{file}:{line}")
}

/// Returns the notes about an entry: the setting that stands for `@reboot`, and the command.
fn entry_notes(alloc: Global, entry: &CronEntry<'_>) -> Result<Vec<String>, AllocError>
    ensures { IfOk result (λ notes. map string_bytes notes.items ≡ entry_notes (entry_seen entry.now)) }
{
    let mut notes = Vec::new(alloc);
    if entry.expressions.is_empty() {
        push_copies(alloc, &mut notes, entry.settings.as_slice())?;
    }
    notes.push(String::from_str(alloc, entry.command)?)?;
    Ok(notes)
}

fn push_copies(alloc: Global, notes: &mut Vec<String>, texts: &[String]) -> Result<(), AllocError>
    ensures { OnOk result (map string_bytes notes.new.items ≡ map string_bytes notes.old.items ++ map string_bytes texts.now) }
{
    for text in texts {
        notes.push(String::from_str(alloc, text.as_str())?)?;
    }
    Ok(())
}

/// Adds an error line for each invalid entry, and for each crontab that can't be read.
pub(crate) fn with_crontab_lines(
    alloc: Global,
    entries: Option<&CrontabTimers>,
    answer: Answer,
) -> Result<Answer, AllocError>
    ensures status { IfOk result (λ changed. changed.status ≤ max answer.status 1) }
    ensures changed { IfOk result (λ changed. HasCrontabLines (option_copied entries.entry) (printed_of answer) (printed_of changed)) }
{
    let Some(entries) = entries else {
        return Ok(answer);
    };
    times_are_read();
    let crontabs = &entries.crontabs;
    let report = cron_report(alloc, crontabs.crontabs.as_slice())?;
    let answer = with_errors(answer, report.errors.as_str())?;
    with_unreadable(alloc, crontabs.faults.as_slice(), answer)
}
