//! Keeping only the earliest notes while notes are collected.

ghost use Rattle.std.specs.Prelude.{◌≡◌, ◌↔◌, ◌<◌, ◌≤ℤ◌, IsTrue, OnOk, length, slice_index_or};
ghost use Rattle.std.specs.List.{All, Contains};
ghost use Rattle.cal_tasks.specs.rules.ClockNotes.{AreEnough, max_notes};
ghost use Rattle.cal_tasks.specs.computed.KeptNotes.{IsLatest, Keeps, max_kept};

use crate::clock_note::ClockNote;
use std::alloc::AllocError;

/// The maximum number of notes about clock changes for one timer.
pub(crate) const MAX_NOTES: usize = 16;

/// The number of notes that are kept: one more than are returned, to know whether there are more.
const MAX_KEPT: usize = MAX_NOTES + 1;

/// Adds a note, unless it is there already. There are at most 17 notes: if there are 17 already, the note replaces the
/// latest one, or isn't added if none of them is about a later local time.
pub(crate) fn keep(notes: &mut Vec<ClockNote>, note: ClockNote) -> Result<(), AllocError>
    ensures { OnOk result (Keeps notes.old.items note notes.new.items) }
{
    if are_enough(notes, note.local) || notes.contains(&note) {
        return Ok(());
    }
    if notes.len() < MAX_KEPT {
        notes.push(note)?;
        return Ok(());
    }
    let latest = latest_of(notes);
    notes[latest] = note;
    Ok(())
}

/// Returns whether there are 17 notes, and none of them is about a later local time than `local`.
pub(crate) fn are_enough(notes: &[ClockNote], local: i64) -> bool
    ensures { IsTrue result ↔ AreEnough max_kept notes.now local }
{
    notes.len() >= MAX_KEPT && notes.iter().all(|note| note.local <= local)
}

/// Returns the index of a note with the latest local time.
fn latest_of(notes: &[ClockNote]) -> usize
    requires { 0 < length notes.now }
    ensures { IsLatest notes.now result }
{
    let mut latest = 0;
    for index in 1..notes.len() {
        let last = notes[latest];
        let note = notes[index];
        if last.local < note.local {
            latest = index;
        }
    }
    latest
}
