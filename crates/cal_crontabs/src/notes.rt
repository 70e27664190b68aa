//! The notes about entries whose settings of a timer don't do quite what cron does.

ghost use Rattle.std.specs.Prelude.{◌≡◌, ◌++◌, ◌∷◌, [], IfOk, OnOk, map, string_bytes};
ghost use Rattle.std.specs.Option.{option_copied};
ghost use Rattle.cal_cron.specs.computed.CrontabViews.{assignment_shown, entry_shown, time_shown};
ghost use Rattle.cal_crontabs.specs.rules.Entries.{anacron_notes, names_anacron, notes_of, reboot_notes, zone_notes, zone_of_assignment};

use cal_cron::{Assignment, CrontabEntry, EntryTime};
use std::alloc::{AllocError, Global};

/// The note about an entry that cron runs when it starts.
const REBOOT: &str = "@reboot isn't a time: the timer elapses when the machine has booted";

/// The note about an entry whose command names anacron.
const ANACRON: &str =
    "the command names anacron, which makes up for missed runs, as Persistent=true does";

/// Returns the notes about an entry. `zone` is the value of `CRON_TZ` above it.
pub(crate) fn notes_of(
    alloc: Global,
    zone: Option<&str>,
    entry: &CrontabEntry<'_>,
) -> Result<Vec<String>, AllocError>
    ensures { IfOk result (λ notes. map string_bytes notes.items ≡ notes_of (option_copied zone.entry) (entry_shown entry.now)) }
{
    let mut notes = Vec::new(alloc);
    push_reboot(alloc, &mut notes, &entry.time)?;
    push_zone(alloc, &mut notes, zone)?;
    push_anacron(alloc, &mut notes, entry.command)?;
    Ok(notes)
}

fn push_reboot(alloc: Global, notes: &mut Vec<String>, time: &EntryTime) -> Result<(), AllocError>
    ensures { OnOk result (map string_bytes notes.new.items
        ≡ map string_bytes notes.old.items ++ reboot_notes (time_shown time.now)) }
{
    match time {
        EntryTime::Reboot => push_text(alloc, notes, REBOOT),
        EntryTime::Times(_) => Ok(()),
    }
}

fn push_zone(alloc: Global, notes: &mut Vec<String>, zone: Option<&str>) -> Result<(), AllocError>
    ensures { OnOk result (map string_bytes notes.new.items
        ≡ map string_bytes notes.old.items ++ zone_notes (option_copied zone.entry)) }
{
    match zone {
        Some(zone) => push_note(
            notes,
            format!(in alloc;
                "CRON_TZ={zone}: cronie runs the entry in that zone, which isn't in the setting"
            )?,
        ),
        None => Ok(()),
    }
}

fn push_anacron(alloc: Global, notes: &mut Vec<String>, command: &str) -> Result<(), AllocError>
    ensures { OnOk result (map string_bytes notes.new.items
        ≡ map string_bytes notes.old.items ++ anacron_notes command.now) }
{
    if names_anacron(command) {
        push_text(alloc, notes, ANACRON)
    } else {
        Ok(())
    }
}

#[tactic(auto, using(crate::proofs::EntryLemmas::contains_is))]
fn names_anacron(command: &str) -> bool
    ensures { result ≡ names_anacron command.now }
{
    command.contains("anacron")
}

fn push_text(alloc: Global, notes: &mut Vec<String>, note: &str) -> Result<(), AllocError>
    ensures { OnOk result (map string_bytes notes.new.items ≡ map string_bytes notes.old.items ++ note.now ∷ []) }
{
    push_note(notes, String::from_str(alloc, note)?)
}

fn push_note(notes: &mut Vec<String>, note: String) -> Result<(), AllocError>
    ensures { OnOk result (map string_bytes notes.new.items ≡ map string_bytes notes.old.items ++ string_bytes note ∷ []) }
{
    notes.push(note)?;
    Ok(())
}

/// Returns the zone in which cronie runs the entries below an assignment, if it assigns one.
pub(crate) fn zone_of_assignment<'t>(assignment: Assignment<'t>) -> Option<&'t str>
    ensures { option_copied result ≡ zone_of_assignment (assignment_shown assignment.entry) }
{
    if assignment.name == "CRON_TZ" {
        Some(assignment.value)
    } else {
        None
    }
}
