//! The report of `show` and `next`: a timer in detail.

ghost use Rattle.std.specs.Prelude.{◌≡◌, ◌++◌, IfOk, OnOk, map, string_bytes};
ghost use Rattle.std.specs.List.{AllZip};
ghost use Rattle.cal_load.specs.rules.CalendarZones.{expressions_in};
ghost use Rattle.cal_timer.specs.rules.TimerView.{shown};
ghost use Rattle.cal_timers_report.specs.rules.ReportView.{clock_time_seen, line_seen, place_seen, timer_seen};
ghost use Rattle.cal_tasks.specs.rules.Notes.{cron_note, exceptions_note};
ghost use Rattle.cal_tasks.specs.rules.ShowReport.{IsPlaceOf, IsShownLine, IsShownTimer, clock_time, is_skipped};
ghost use Rattle.cal_tasks.specs.rules.Unguarded.{unguarded_seen};
ghost use Rattle.std.specs.Option.{option_map};

use crate::clock_note::{ClockChange, ClockNote};
use crate::elapses::first_elapses;
use crate::from_crontab::is_from_crontab;
use crate::notes::{push_all, push_exceptions_note, push_if};
use crate::past::last_elapse;
use crate::present::Present;
use crate::skipped::clock_notes;
use crate::unguarded::UnguardedTimer;
use cal_load::LoadedTimer;
use cal_timer::TimerLine;
use cal_timers_report::{ClockTime, Place, ShownLine, ShownTimer};
use std::alloc::{AllocError, Global};

/// Returns the report of a timer, with these warnings and at most `count` elapses. The report notes that systemd
/// ignores the exceptions if the timer is one of the `unguarded` timers. Fails only if allocation fails.
pub fn shown_timer<'a>(
    alloc: Global,
    at: Present<'_>,
    timer: &'a LoadedTimer,
    warnings: Vec<String>,
    unguarded: &[UnguardedTimer],
    count: u32,
) -> Result<ShownTimer<'a>, AllocError>
    ensures { IfOk result (λ view. IsShownTimer at.entry count (map string_bytes warnings.items) (map unguarded_seen unguarded.now) timer.now (timer_seen view)) }
{
    let elapses = first_elapses(alloc, at, timer, count)?;
    let last = last_elapse(alloc, at, timer, timer.exceptions())?;
    let notes = clock_notes(alloc, at, timer)?;
    let files = file_paths(alloc, timer)?;
    let changes = notes.first.as_slice();
    let settings = notes_of(alloc, timer, unguarded, changes)?;
    let expressions = shown_lines(alloc, timer, timer.lines())?;
    let exceptions = shown_lines(alloc, timer, timer.exceptions())?;
    let clock = clock_times(alloc, timer, changes)?;
    Ok(ShownTimer {
        unit: timer.name.as_str(),
        files,
        expressions,
        exceptions,
        notes: settings,
        warnings,
        last,
        elapses,
        clock,
        has_more_clock: notes.has_more,
    })
}

/// Returns the notes of a timer: that systemd ignores its exceptions, its other settings, and that cron handles clock
/// changes differently, if there are `changes`.
fn notes_of<'a>(
    alloc: Global,
    timer: &'a LoadedTimer,
    unguarded: &[UnguardedTimer],
    changes: &[ClockNote],
) -> Result<Vec<&'a str>, AllocError>
    ensures { IfOk result (λ notes. map (λ note. note.now) notes.items
        ≡ exceptions_note (map unguarded_seen unguarded.now) timer.now
        ++ (map string_bytes timer.now.notes.items ++ cron_note timer.now changes.now)) }
{
    let mut notes: Vec<&'a str> = Vec::new(alloc);
    push_exceptions_note(&mut notes, timer, unguarded)?;
    push_all(&mut notes, timer.notes.as_slice())?;
    push_cron_note(alloc, &mut notes, timer, changes)?;
    Ok(notes)
}

/// Appends the note that cron handles clock changes differently, if the timer was made of an entry of a crontab and
/// there are `changes`.
fn push_cron_note(
    alloc: Global,
    notes: &mut Vec<&str>,
    timer: &LoadedTimer,
    changes: &[ClockNote],
) -> Result<(), AllocError>
    ensures { OnOk result (map (λ note. note.now) notes.new.items
        ≡ map (λ note. note.now) notes.old.items ++ cron_note timer.now changes.now) }
{
    let is_noted = is_from_crontab(alloc, timer)? && !changes.is_empty();
    push_if(
        notes,
        is_noted,
        "cron has rules of its own for clock changes: cron(8)",
    )
}

/// Returns the paths of a timer's files.
fn file_paths<'a>(alloc: Global, timer: &'a LoadedTimer) -> Result<Vec<&'a str>, AllocError>
    ensures { IfOk result (λ paths. map (λ path. path.now) paths.items
        ≡ map (λ file. string_bytes file.path) timer.now.files.texts.items) }
{
    let mut paths: Vec<&'a str> = Vec::new(alloc);
    for file in &timer.files.texts {
        paths.push(file.path.as_str())?;
    }
    Ok(paths)
}

/// Returns the expressions or the exceptions of a timer, each with its file and the number of its line there.
fn shown_lines<'a>(
    alloc: Global,
    timer: &'a LoadedTimer,
    lines: &'a [TimerLine],
) -> Result<Vec<ShownLine<'a>>, AllocError>
    ensures { IfOk result (λ found. AllZip (IsShownLine timer.now) (map shown lines.now) (map line_seen found.items)) }
{
    let mut found: Vec<ShownLine<'a>> = Vec::new(alloc);
    for line in lines {
        let shown = shown_line(timer, line);
        found.push(shown)?;
    }
    Ok(found)
}

fn shown_line<'a>(timer: &'a LoadedTimer, line: &'a TimerLine) -> ShownLine<'a>
    ensures { IsShownLine timer.now (shown line.now) (line_seen result) }
{
    ShownLine {
        text: line.text.as_str(),
        expr: &line.expr,
        place: place_of(timer, line.number),
    }
}

/// Returns the file that has the line with this continued number, and the number of the line in this file.
fn place_of<'a>(timer: &'a LoadedTimer, number: u32) -> Option<Place<'a>>
    ensures { IsPlaceOf timer.now.files number (option_map place_seen result) }
{
    match timer.files.position(number) {
        Some((file, line)) => Some(Place { file, line }),
        None => None,
    }
}

/// Returns these local times, with the names of their zones.
fn clock_times<'a>(
    alloc: Global,
    timer: &'a LoadedTimer,
    notes: &[ClockNote],
) -> Result<Vec<ClockTime<'a>>, AllocError>
    ensures { IfOk result (λ times. map clock_time_seen times.items
        ≡ map (clock_time (expressions_in timer.now.calendar)) notes.now) }
{
    let mut times: Vec<ClockTime<'a>> = Vec::new(alloc);
    for note in notes {
        times.push(clock_time(timer, *note))?;
    }
    Ok(times)
}

fn clock_time<'a>(timer: &'a LoadedTimer, note: ClockNote) -> ClockTime<'a>
    ensures { clock_time_seen result ≡ clock_time (expressions_in timer.now.calendar) note }
{
    ClockTime {
        local: note.local,
        is_skipped: is_skipped(note.change),
        zone: note.zone_name(timer),
    }
}

fn is_skipped(change: ClockChange) -> bool
    ensures { result ≡ is_skipped change }
{
    match change {
        ClockChange::Skipped => true,
        ClockChange::Repeated => false,
    }
}
