//! Collecting the notes of a timer.

ghost use Rattle.std.specs.Prelude.{◌≡◌, ◌++◌, OnOk, map, string_bytes};
ghost use Rattle.cal_tasks.specs.rules.Notes.{exceptions_note, note_if};
ghost use Rattle.cal_tasks.specs.rules.Unguarded.{unguarded_seen};

use crate::unguarded::{UnguardedTimer, has_ignored_exceptions};
use cal_load::LoadedTimer;
use std::alloc::AllocError;

/// Appends the note that systemd ignores the exceptions of the timer, if the timer has exceptions and is one of the
/// `unguarded` timers.
pub(crate) fn push_exceptions_note<'a>(
    notes: &mut Vec<&'a str>,
    timer: &LoadedTimer,
    unguarded: &[UnguardedTimer],
) -> Result<(), AllocError>
    ensures { OnOk result (map (λ note. note.now) notes.new.items
        ≡ map (λ note. note.now) notes.old.items ++ exceptions_note (map unguarded_seen unguarded.now) timer.now) }
{
    let is_noted = has_ignored_exceptions(timer, unguarded);
    push_if(notes, is_noted, "exceptions ignored by systemd")
}

/// Appends `note` if `is_noted` is `true`.
pub(crate) fn push_if<'a>(
    notes: &mut Vec<&'a str>,
    is_noted: bool,
    note: &'a str,
) -> Result<(), AllocError>
    ensures { OnOk result (map (λ note. note.now) notes.new.items
        ≡ map (λ note. note.now) notes.old.items ++ note_if is_noted note.now) }
{
    if is_noted {
        notes.push(note)?;
    }
    Ok(())
}

/// Appends all these notes.
pub(crate) fn push_all<'a>(notes: &mut Vec<&'a str>, more: &'a [String]) -> Result<(), AllocError>
    ensures { OnOk result (map (λ note. note.now) notes.new.items
        ≡ map (λ note. note.now) notes.old.items ++ map string_bytes more.now) }
{
    for note in more {
        notes.push(note.as_str())?;
    }
    Ok(())
}
