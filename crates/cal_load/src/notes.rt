//! The assignments other than `OnCalendar=` that are noted for a timer: those that decide when it starts a unit, and
//! which unit that is (systemd.timer(5), Options). Expressions that depend on more than the timer's name are noted,
//! too, but not here: `Resolved::unclear` has them.

ghost use Rattle.std.specs.Prelude.{◌≡◌, IfOk, OnOk, filter, map, not, string_bytes};
ghost use Rattle.std.specs.List.{list_any};
ghost use Rattle.cal_timer.specs.rules.Keys.{kind_of};
ghost use Rattle.cal_timer.specs.rules.TimerText.{is_reset};
ghost use Rattle.cal_read.specs.rules.SectionAssignments.{shown_owned_assignment};
ghost use Rattle.cal_load.specs.rules.Notes.{is_at, is_monotonic, is_noted, is_started, is_taken, kept_in, kept_with, last_counts, names_unit, note_text, noted_of, notes_in, replaces, service_of, starts, starts_unit, undoes, unit_line};

use cal_read::{Assignment, OwnedAssignment};
use cal_timer::{KeyKind, kind_of};
use cal_unit_index::{is_longer, is_taken_as, is_yes, last_part, without_suffix};
use std::alloc::{AllocError, Global};

/// How accurate a timer is by default, in microseconds: one minute.
const DEFAULT_ACCURACY: u64 = 60_000_000;

/// Returns those of the assignments that are noted for the timer with this name. `name` is the name of a unit, or the
/// path of a file that is read by itself: then the timer's own name is the part after the last slash.
///
/// Assignments that systemd ignores don't count. Every `OnActiveSec=`, `OnBootSec=`, `OnStartupSec=`,
/// `OnUnitActiveSec=` and `OnUnitInactiveSec=` is returned, but an empty value of one of these keys, or of
/// `OnCalendar=`, drops all assignments with these five keys above it. Of each other key, at most one assignment is
/// returned:
///
/// - of `OnClockChange=`, `OnTimezoneChange=`, `Persistent=` and `FixedRandomDelay=` the last one, if it is true;
/// - of `RandomizedDelaySec=` the last one, unless it is 0;
/// - of `AccuracySec=` the last one, if it is longer than the default of one minute;
/// - of `Unit=` the first one that isn't the timer itself, unless it is the service with the timer's name.
///
/// Specifiers that depend only on the timer's name must have been filled in. If a monotonic timer or a `Unit=` still
/// has a `%`, what it stands for depends on the running system, and it is taken as valid.
pub(crate) fn notes_of(
    alloc: Global,
    name: &str,
    assignments: Vec<OwnedAssignment>,
) -> Result<Vec<OwnedAssignment>, AllocError>
    ensures notes { IfOk result (λ notes. map shown_owned_assignment notes.items
        ≡ notes_in name.now (map shown_owned_assignment assignments.items)) }
    ensures starts { IfOk result (λ notes. list_any starts (map shown_owned_assignment notes.items)
        ≡ starts_unit (map shown_owned_assignment assignments.items)) }
{
    let mut notes = kept_of(alloc, assignments)?;
    let own = last_part(alloc, name)?;
    retain_noted(alloc, own, &mut notes)?;
    Ok(notes)
}

/// Returns the assignments that have a known key and a value that systemd accepts, except those that a later assignment
/// undoes. The values of expressions and exceptions aren't examined.
pub(crate) fn kept_of(
    alloc: Global,
    assignments: Vec<OwnedAssignment>,
) -> Result<Vec<OwnedAssignment>, AllocError>
    ensures { IfOk result (λ kept. map shown_owned_assignment kept.items ≡ kept_in (map shown_owned_assignment assignments.items)) }
{
    let mut kept = Vec::new(alloc);
    for assignment in assignments {
        apply_assignment(&mut kept, assignment)?;
    }
    Ok(kept)
}

/// Applies an assignment: removes the earlier ones that it undoes, and appends it if systemd accepts its value.
fn apply_assignment(
    kept: &mut Vec<OwnedAssignment>,
    assignment: OwnedAssignment,
) -> Result<(), AllocError>
    ensures { OnOk result (map shown_owned_assignment kept.new.items
        ≡ kept_with (map shown_owned_assignment kept.old.items) (shown_owned_assignment assignment)) }
{
    remove_undone(kept, &assignment);
    if is_taken(&assignment) {
        kept.push(assignment)?;
    }
    Ok(())
}

/// Removes the assignments that `later` undoes.
fn remove_undone(kept: &mut Vec<OwnedAssignment>, later: &OwnedAssignment)
    ensures { map shown_owned_assignment kept.new.items
        ≡ filter (λ earlier. not (undoes (shown_owned_assignment later.now) earlier)) (map shown_owned_assignment kept.old.items) }
{
    if is_reset(later) || replaces(later) {
        kept.retain(|earlier| !undoes(later, earlier));
    }
}

/// Returns whether the assignment `later` undoes an earlier one.
#[tactic(auto, unfolding(crate::specs::rules::Notes::undoes))]
fn undoes(later: &OwnedAssignment, earlier: &OwnedAssignment) -> bool
    ensures { result ≡ undoes (shown_owned_assignment later.now) (shown_owned_assignment earlier.now) }
{
    let key = earlier.key.as_str();
    (is_reset(later) && is_monotonic(key)) || (replaces(later) && key == later.key.as_str())
}

fn is_monotonic(key: &str) -> bool
    ensures { result ≡ is_monotonic (kind_of key.now) }
{
    matches!(kind_of(key), Some(KeyKind::SpanTrigger))
}

/// Returns whether the assignment clears the timer's expressions and monotonic timers: whether it is an `OnCalendar=`
/// or a monotonic timer without a value.
fn is_reset(assignment: &OwnedAssignment) -> bool
    ensures { result ≡ is_reset (shown_owned_assignment assignment.now) }
{
    let OwnedAssignment { number, key, value } = assignment;
    let assignment = Assignment {
        number: *number,
        key: key.as_str(),
        value: value.as_str(),
    };
    assignment.is_reset()
}

/// Returns whether the assignment replaces earlier ones with the same key.
#[tactic(auto, unfolding(crate::specs::rules::Notes::replaces))]
fn replaces(assignment: &OwnedAssignment) -> bool
    ensures { result ≡ replaces (shown_owned_assignment assignment.now) }
{
    last_counts(kind_of(assignment.key.as_str())) && is_taken(assignment)
}

/// Returns whether only the last of several assignments with the same key counts, if the key is of this kind.
fn last_counts(kind: Option<KeyKind>) -> bool
    ensures { result ≡ last_counts kind }
{
    match kind {
        Some(KeyKind::ChangeTrigger) => true,
        Some(KeyKind::TimingBoolean) => true,
        Some(KeyKind::Delay) => true,
        Some(KeyKind::Accuracy) => true,
        _ => false,
    }
}

/// Returns whether the assignment has a known key and a value that systemd accepts. The values of expressions and
/// exceptions aren't examined.
#[tactic(auto, unfolding(crate::specs::rules::Notes::is_taken))]
pub(crate) fn is_taken(assignment: &OwnedAssignment) -> bool
    ensures { result ≡ is_taken (shown_owned_assignment assignment.now) }
{
    match kind_of(assignment.key.as_str()) {
        Some(kind) => is_taken_as(kind, assignment.value.as_str()),
        None => false,
    }
}

/// Removes the assignments that aren't noted for the timer with the name `own`.
fn retain_noted(alloc: Global, own: &str, kept: &mut Vec<OwnedAssignment>) -> Result<(), AllocError>
    ensures { OnOk result (map shown_owned_assignment kept.new.items
        ≡ noted_of own.now (map shown_owned_assignment kept.old.items)) }
{
    let service = service_of(alloc, own)?;
    let unit = unit_line(own, kept.as_slice());
    kept.retain(|note| is_noted(service.as_str(), unit, note));
    Ok(())
}

/// Returns the name of the unit that the timer `own` starts if it has no `Unit=`.
pub(crate) fn service_of(alloc: Global, own: &str) -> Result<String, AllocError>
    ensures { IfOk result (λ service. string_bytes service ≡ service_of own.now) }
{
    let stem = without_suffix(own);
    Ok(format!(in alloc; "{stem}.service")?)
}

/// Returns the number of the line whose `Unit=` counts: the first in `kept` that doesn't name the timer `own` itself.
pub(crate) fn unit_line(own: &str, kept: &[OwnedAssignment]) -> Option<u32>
    ensures { result ≡ unit_line own.now (map shown_owned_assignment kept.now) }
{
    for assignment in kept {
        if names_unit(own, assignment) {
            return Some(assignment.number);
        }
    }
    None
}

/// Returns whether the assignment is a `Unit=` that doesn't name the timer `own` itself.
#[tactic(auto, unfolding(crate::specs::rules::Notes::names_unit))]
pub(crate) fn names_unit(own: &str, assignment: &OwnedAssignment) -> bool
    ensures { result ≡ names_unit own.now (shown_owned_assignment assignment.now) }
{
    is_started(assignment.key.as_str()) && assignment.value.as_str() != own
}

pub(crate) fn is_started(key: &str) -> bool
    ensures { result ≡ is_started (kind_of key.now) }
{
    matches!(kind_of(key), Some(KeyKind::StartedUnit))
}

/// Returns whether a kept assignment is noted. `service` is the unit that the timer starts by default, and `unit` is
/// the line whose `Unit=` counts, if there is one.
#[tactic(auto, unfolding(crate::specs::rules::Notes::is_noted))]
fn is_noted(service: &str, unit: Option<u32>, assignment: &OwnedAssignment) -> bool
    ensures { result ≡ is_noted service.now unit (shown_owned_assignment assignment.now) }
{
    let value = assignment.value.as_str();
    match kind_of(assignment.key.as_str()) {
        Some(KeyKind::SpanTrigger) => true,
        Some(KeyKind::ChangeTrigger | KeyKind::TimingBoolean) => is_yes(value),
        Some(KeyKind::Delay) => is_longer(0, value),
        Some(KeyKind::Accuracy) => is_longer(DEFAULT_ACCURACY, value),
        Some(KeyKind::StartedUnit) => is_at(unit, assignment.number) && value != service,
        Some(KeyKind::CalendarTrigger | KeyKind::Exception | KeyKind::OtherBoolean) | None => false,
    }
}

fn is_at(line: Option<u32>, number: u32) -> bool
    ensures { result ≡ is_at line number }
{
    match line {
        Some(line) => line == number,
        None => false,
    }
}

/// Returns whether one of these assignments starts the timer's unit by itself.
pub(crate) fn can_start(notes: &[OwnedAssignment]) -> bool
    ensures { result ≡ list_any starts (map shown_owned_assignment notes.now) }
{
    for note in notes {
        if starts(note) {
            return true;
        }
    }
    false
}

/// Returns whether the assignment starts the timer's unit by itself.
#[tactic(auto, unfolding(crate::specs::rules::Notes::starts))]
fn starts(note: &OwnedAssignment) -> bool
    ensures { result ≡ starts (shown_owned_assignment note.now) }
{
    match kind_of(note.key.as_str()) {
        Some(KeyKind::SpanTrigger) => true,
        Some(KeyKind::ChangeTrigger) => is_yes(note.value.as_str()),
        _ => false,
    }
}

/// Returns the notes as they are shown to users, each as `KEY=VALUE`.
pub(crate) fn shown_notes(
    alloc: Global,
    notes: &[OwnedAssignment],
) -> Result<Vec<String>, AllocError>
    ensures { IfOk result (λ shown. map string_bytes shown.items ≡ map note_text (map shown_owned_assignment notes.now)) }
{
    let mut shown = Vec::new(alloc);
    for note in notes {
        shown.push(shown_note(alloc, note)?)?;
    }
    Ok(shown)
}

fn shown_note(alloc: Global, note: &OwnedAssignment) -> Result<String, AllocError>
    ensures { IfOk result (λ shown. string_bytes shown ≡ note_text (shown_owned_assignment note.now)) }
{
    let key = note.key.as_str();
    let value = note.value.as_str();
    Ok(format!(in alloc; "{key}={value}")?)
}
