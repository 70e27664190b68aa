//! The settings of a timer that systemd ignores for reasons that a line by itself doesn't show: values that are invalid
//! once specifiers are filled in, and each `Unit=` that doesn't count (systemd.timer(5), Options; systemd.unit(5),
//! Specifiers).

ghost use Rattle.std.specs.Prelude.{◌≡◌, ◌∷◌, ◌++◌, [], IfOk, OnOk, map};
ghost use Rattle.std.specs.List.{list_any};
ghost use Rattle.std.specs.Option.{option_to_list};
ghost use Rattle.cal_read.specs.rules.SectionAssignments.{shown_owned_assignment};
ghost use Rattle.cal_unit_index.specs.rules.Destinations.{last_part};
ghost use Rattle.cal_unit_index.specs.rules.Files.{shown_unit_text};
ghost use Rattle.cal_load.specs.rules.IgnoredSettings.{counted_line, has_value, ignored_among, ignored_setting, ignored_settings_in, is_below, is_valid_for, name_fault, names_itself, unit_fault, value_fault, why_ignored};
ghost use Rattle.cal_load.specs.rules.Loaded.{assignments_of_files, timer_assignments};
ghost use Rattle.cal_load.specs.rules.Notes.{is_taken, kept_in};
ghost use Rattle.cal_load.specs.rules.Resolved.{resolved_in};

use crate::notes::{is_taken, kept_of, unit_line};
use crate::resolved::{Resolved, resolve};
use crate::texts::read_files;
use cal_read::OwnedAssignment;
use cal_timer::{KeyKind, kind_of};
use cal_unit_index::{UnitText, has_percent, last_part};
use std::alloc::{AllocError, Global};

/// Why systemd ignores a setting of a timer.
#[derive(Clone, Copy)]
pub enum WhyIgnored {
    /// With its specifiers filled in, the value isn't valid for a setting of this kind.
    BadValue(KeyKind),
    /// `Unit=` names the timer itself.
    OwnName,
    /// A `Unit=` above this one counts, so systemd ignores this one, whatever its value is.
    SecondUnit,
}

/// A setting of a timer that systemd ignores.
#[derive(Clone, Copy)]
pub struct IgnoredSetting {
    /// The number of the line. Line numbers continue from file to file.
    pub number: u32,
    pub why: WhyIgnored,
}

/// Returns the settings that systemd ignores in the files of the timer `name`, in order: monotonic timers and `Unit=`
/// settings whose values are invalid once specifiers are filled in, each `Unit=` that names the timer itself, and each
/// `Unit=` after the first one with the valid name of another unit. `name` is the name of a unit, or the path of a file
/// that is read by itself.
///
/// A setting whose value is invalid and has no specifiers is left out, unless it is a `Unit=` after the one that
/// counts. A value that depends on the running system is taken as valid.
///
/// Fails if allocation fails. Also fails if the files are too large for their line numbers to fit into 32 bits; no
/// timer is loaded from such files.
pub fn ignored_settings(
    alloc: Global,
    name: &str,
    files: &[UnitText],
) -> Result<Vec<IgnoredSetting>, AllocError>
    ensures { IfOk result (λ ignored. ignored.items ≡ ignored_settings_in name.now (map shown_unit_text files.now)) }
{
    let counted = counted_line(alloc, name, files)?;
    ignored_among(alloc, name, counted, assignments_of(alloc, files)?)
}

/// Returns the number of the line whose `Unit=` counts: the first with the valid name of another unit.
fn counted_line(alloc: Global, name: &str, files: &[UnitText]) -> Result<Option<u32>, AllocError>
    ensures { IfOk result (λ line. line ≡ counted_line name.now (map shown_unit_text files.now)) }
{
    let kept = kept_in(alloc, name, files)?;
    let own = last_part(alloc, name)?;
    Ok(unit_line(own, kept.as_slice()))
}

/// Returns the assignments of the timer `name` that `kept_of` keeps, with specifiers filled in.
pub(crate) fn kept_in(
    alloc: Global,
    name: &str,
    files: &[UnitText],
) -> Result<Vec<OwnedAssignment>, AllocError>
    ensures { IfOk result (λ kept. map shown_owned_assignment kept.items
        ≡ kept_in (timer_assignments name.now (map shown_unit_text files.now))) }
{
    let assignments = assignments_of(alloc, files)?;
    kept_of(alloc, filled_in(alloc, name, assignments)?)
}

/// Returns the assignments in the sections `Timer` of these files, as far as systemd reads each file.
pub(crate) fn assignments_of(
    alloc: Global,
    files: &[UnitText],
) -> Result<Vec<OwnedAssignment>, AllocError>
    ensures { IfOk result (λ found. map shown_owned_assignment found.items ≡ assignments_of_files (map shown_unit_text files.now)) }
{
    match read_files(alloc, files) {
        Ok(read) => Ok(read.assignments),
        Err(_) => Err(AllocError),
    }
}

/// Returns the assignments of the timer `name` with their specifiers filled in.
fn filled_in(
    alloc: Global,
    name: &str,
    assignments: Vec<OwnedAssignment>,
) -> Result<Vec<OwnedAssignment>, AllocError>
    ensures { IfOk result (λ filled. map shown_owned_assignment filled.items
        ≡ resolved_in name.now (map shown_owned_assignment assignments.items)) }
{
    let Resolved { assignments, .. } = resolve(alloc, name, assignments)?;
    Ok(assignments)
}

/// Returns the settings among these assignments that systemd ignores. `counted` is the line whose `Unit=` counts, if
/// there is one.
fn ignored_among(
    alloc: Global,
    name: &str,
    counted: Option<u32>,
    assignments: Vec<OwnedAssignment>,
) -> Result<Vec<IgnoredSetting>, AllocError>
    ensures { IfOk result (λ ignored. ignored.items
        ≡ ignored_among name.now counted (map shown_owned_assignment assignments.items)) }
{
    let mut ignored = Vec::new(alloc);
    for assignment in assignments {
        push_if_ignored(alloc, &mut ignored, name, counted, assignment)?;
    }
    Ok(ignored)
}

fn push_if_ignored(
    alloc: Global,
    ignored: &mut Vec<IgnoredSetting>,
    name: &str,
    counted: Option<u32>,
    assignment: OwnedAssignment,
) -> Result<(), AllocError>
    ensures { OnOk result (ignored.new.items ≡ ignored.old.items
        ++ option_to_list (ignored_setting name.now counted (shown_owned_assignment assignment))) }
{
    let number = assignment.number;
    if let Some(why) = why_ignored(alloc, name, counted, assignment)? {
        ignored.push(IgnoredSetting { number, why })?;
    }
    Ok(())
}

/// Returns why systemd ignores an assignment of the timer `name`, or `None` if systemd doesn't ignore the assignment.
/// Only monotonic timers and `Unit=` are examined. `counted` is the line whose `Unit=` counts, if there is one. If a
/// value is invalid and has no specifiers, the result is `None`, too, unless the assignment is a `Unit=` below the line
/// `counted`.
#[tactic(auto, unfolding(crate::specs::rules::IgnoredSettings::why_ignored))]
fn why_ignored(
    alloc: Global,
    name: &str,
    counted: Option<u32>,
    assignment: OwnedAssignment,
) -> Result<Option<WhyIgnored>, AllocError>
    ensures { IfOk result (λ why. why ≡ why_ignored name.now counted (shown_owned_assignment assignment)) }
{
    match kind_of(assignment.key.as_str()) {
        Some(KeyKind::SpanTrigger) => { value_fault(alloc, KeyKind::SpanTrigger, name, assignment) }
        Some(KeyKind::StartedUnit) => unit_fault(alloc, name, counted, assignment),
        _ => Ok(None),
    }
}

/// Returns why systemd ignores a `Unit=` of the timer `name`, as [`why_ignored`] does. `counted` is the line whose
/// `Unit=` counts, if there is one.
fn unit_fault(
    alloc: Global,
    name: &str,
    counted: Option<u32>,
    assignment: OwnedAssignment,
) -> Result<Option<WhyIgnored>, AllocError>
    ensures { IfOk result (λ why. why ≡ unit_fault name.now counted (shown_owned_assignment assignment)) }
{
    if is_below(counted, assignment.number) {
        return Ok(Some(WhyIgnored::SecondUnit));
    }
    let copy = copy_of(alloc, &assignment)?;
    match value_fault(alloc, KeyKind::StartedUnit, name, copy)? {
        Some(why) => Ok(Some(why)),
        None => name_fault(alloc, name, assignment),
    }
}

fn copy_of(alloc: Global, assignment: &OwnedAssignment) -> Result<OwnedAssignment, AllocError>
    ensures { IfOk result (λ copy. shown_owned_assignment copy ≡ shown_owned_assignment assignment.now) }
{
    Ok(OwnedAssignment {
        number: assignment.number,
        key: String::from_str(alloc, assignment.key.as_str())?,
        value: String::from_str(alloc, assignment.value.as_str())?,
    })
}

/// Returns [`WhyIgnored::BadValue`] if the assignment has specifiers and its value isn't valid once they are filled in.
fn value_fault(
    alloc: Global,
    kind: KeyKind,
    name: &str,
    assignment: OwnedAssignment,
) -> Result<Option<WhyIgnored>, AllocError>
    ensures { IfOk result (λ why. why ≡ value_fault kind name.now (shown_owned_assignment assignment)) }
{
    if !has_percent(assignment.value.as_str()) || is_valid_for(alloc, name, assignment)? {
        return Ok(None);
    }
    Ok(Some(WhyIgnored::BadValue(kind)))
}

fn is_valid_for(alloc: Global, name: &str, assignment: OwnedAssignment) -> Result<bool, AllocError>
    ensures { IfOk result (λ valid. valid ≡ is_valid_for name.now (shown_owned_assignment assignment)) }
{
    let filled = filled_one(alloc, name, assignment)?;
    Ok(has_taken(filled.as_slice()))
}

/// Returns a list of the assignment with its specifiers filled in, or an empty list if [`resolve`] drops the
/// assignment.
fn filled_one(
    alloc: Global,
    name: &str,
    assignment: OwnedAssignment,
) -> Result<Vec<OwnedAssignment>, AllocError>
    ensures { IfOk result (λ filled. map shown_owned_assignment filled.items
        ≡ resolved_in name.now (shown_owned_assignment assignment ∷ [])) }
{
    let mut one = Vec::new(alloc);
    one.push(assignment)?;
    filled_in(alloc, name, one)
}

fn has_taken(assignments: &[OwnedAssignment]) -> bool
    ensures { result ≡ list_any is_taken (map shown_owned_assignment assignments.now) }
{
    for assignment in assignments {
        if is_taken(assignment) {
            return true;
        }
    }
    false
}

/// Returns [`WhyIgnored::OwnName`] if the value of the assignment, with its specifiers filled in, is the timer's own
/// name.
fn name_fault(
    alloc: Global,
    name: &str,
    assignment: OwnedAssignment,
) -> Result<Option<WhyIgnored>, AllocError>
    ensures { IfOk result (λ why. why ≡ name_fault name.now (shown_owned_assignment assignment)) }
{
    if names_itself(alloc, name, assignment)? {
        return Ok(Some(WhyIgnored::OwnName));
    }
    Ok(None)
}

fn names_itself(alloc: Global, name: &str, assignment: OwnedAssignment) -> Result<bool, AllocError>
    ensures { IfOk result (λ itself. itself ≡ names_itself name.now (shown_owned_assignment assignment)) }
{
    let filled = filled_one(alloc, name, assignment)?;
    let own = last_part(alloc, name)?;
    Ok(have_value(own, filled.as_slice()))
}

fn have_value(value: &str, assignments: &[OwnedAssignment]) -> bool
    ensures { result ≡ list_any (has_value value.now) (map shown_owned_assignment assignments.now) }
{
    for assignment in assignments {
        if has_value(value, assignment) {
            return true;
        }
    }
    false
}

fn has_value(value: &str, assignment: &OwnedAssignment) -> bool
    ensures { result ≡ has_value value.now (shown_owned_assignment assignment.now) }
{
    is_taken(assignment) && assignment.value.as_str() == value
}

/// Returns whether the line with this number is below the line `counted`, or `false` if there is no such line.
fn is_below(counted: Option<u32>, number: u32) -> bool
    ensures { result ≡ is_below counted number }
{
    match counted {
        Some(counted) => counted < number,
        None => false,
    }
}
