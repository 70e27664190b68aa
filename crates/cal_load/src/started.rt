//! The unit that a timer starts, and whether it is missing (systemd.timer(5), Unit=).

ghost use Rattle.std.specs.Prelude.{◌≡◌, ◌+◌, ◌++◌, ℕ, List, IfOk, codes, drop, find, length, map, nat_eq, option_map, string_bytes};
ghost use Rattle.std.specs.List.{ends_with, list_any};
ghost use Rattle.std.specs.Str.{bytes_eq};
ghost use Rattle.cal_machine.specs.rules.Machine.{Machine};
ghost use Rattle.cal_read.specs.rules.SectionAssignments.{shown_owned_assignment};
ghost use Rattle.cal_unit_index.specs.rules.Files.{shown_unit_text};
ghost use Rattle.cal_unit_index.specs.rules.Index.{IsIndexOf, shown_folder};
ghost use Rattle.cal_load.specs.rules.Notes.{names_unit};
ghost use Rattle.cal_load.specs.rules.StartedUnit.{after_at, argument_of, completed, file_suffixes, has_entry, has_template, is_missing_in, is_missing_on, is_template_name, started_by, started_unit_of, unit_named};

use crate::ignored::kept_in;
use crate::notes::{names_unit, service_of};
use crate::specifiers::{instance_in, prefix_in};
use cal_bytes::is_among;
use cal_read::OwnedAssignment;
use cal_unit_index::{
    SearchFolder, UnitIndex, UnitKind, UnitText, has_percent, last_part, stem_base, unit_kind_of,
    without_suffix,
};
use std::alloc::{AllocError, Global};

/// The suffixes of the units that can be missing ([`is_missing`]): these units need a file, and can be instances of a
/// template.
const FILE_SUFFIXES: [&[u8]; 5] = [b".service", b".socket", b".target", b".path", b".timer"];

/// Returns the name of the unit that the timer `name` with these files starts: the unit named by the first `Unit=`
/// whose value is the valid name of another unit, or otherwise the service with the timer's own name. `name` is the
/// name of a unit, or the path of a file that is read by itself. Returns `None` if the started unit depends on the
/// running system, as with `Unit=%H.service`.
///
/// If `Unit=` names a template, the timer starts an instance of the template: the one with the timer's own instance
/// name or, if the timer isn't an instance, with the timer's name without the suffix.
///
/// Fails if allocation fails. Also fails if the files are too large for their line numbers to fit into 32 bits; no
/// timer is loaded from such files.
pub fn started_unit(
    alloc: Global,
    name: &str,
    files: &[UnitText],
) -> Result<Option<String>, AllocError>
    ensures { IfOk result (λ unit. option_map string_bytes unit ≡ started_unit_of name.now (map shown_unit_text files.now)) }
{
    let kept = kept_in(alloc, name, files)?;
    let own = last_part(alloc, name)?;
    started_by(alloc, own, first_unit(own, kept.as_slice()))
}

/// Returns the `Unit=` that counts: the first that doesn't name the timer `own` itself.
fn first_unit<'k>(own: &str, kept: &'k [OwnedAssignment]) -> Option<&'k OwnedAssignment>
    ensures { option_map (λ unit. shown_owned_assignment unit.now) result
        ≡ find (names_unit own.now) (map shown_owned_assignment kept.now) }
{
    for assignment in kept {
        if names_unit(own, assignment) {
            return Some(assignment);
        }
    }
    None
}

/// Returns the unit that the timer `own` starts, or `None` if this depends on the running system. `unit` is the `Unit=`
/// that counts, if there is one.
fn started_by(
    alloc: Global,
    own: &str,
    unit: Option<&OwnedAssignment>,
) -> Result<Option<String>, AllocError>
    ensures { IfOk result (λ started. option_map string_bytes started
        ≡ started_by own.now (option_map (λ unit. shown_owned_assignment unit.now) unit.entry)) }
{
    match unit {
        Some(unit) => unit_named(alloc, own, unit.value.as_str()),
        None => Ok(Some(service_of(alloc, own)?)),
    }
}

fn unit_named(alloc: Global, own: &str, unit: &str) -> Result<Option<String>, AllocError>
    ensures { IfOk result (λ started. option_map string_bytes started ≡ unit_named own.now unit.now) }
{
    if has_percent(unit) {
        return Ok(None);
    }
    Ok(Some(completed(alloc, own, unit)?))
}

/// Returns the unit that the timer `own` starts if its `Unit=` is `unit`, which may be the name of a template.
fn completed(alloc: Global, own: &str, unit: &str) -> Result<String, AllocError>
    ensures { IfOk result (λ started. string_bytes started ≡ completed own.now unit.now) }
{
    if !is_template_name(unit) {
        return String::from_str(alloc, unit);
    }
    let base = stem_base(unit);
    let argument = argument_of(own);
    let suffix = after_at(unit);
    Ok(format!(in alloc; "{base}@{argument}{suffix}")?)
}

/// Returns whether a unit's name is that of a template: directly after its first `@` comes one of [`FILE_SUFFIXES`].
#[tactic(auto, unfolding(crate::specs::rules::StartedUnit::is_template_name))]
fn is_template_name(unit: &str) -> bool
    ensures { result ≡ is_template_name unit.now }
{
    is_among(&FILE_SUFFIXES, after_at(unit).as_bytes())
}

/// Returns the part of a unit's name after its first `@`, or an empty text if it has no `@`.
fn after_at(unit: &str) -> &str
    ensures { result.now ≡ after_at unit.now }
{
    match unit.split_once('@') {
        Some((_, after)) => after,
        None => "",
    }
}

/// Returns the instance name of the unit that the timer `own` starts if its `Unit=` names a template: the timer's own
/// instance name, or its name without the suffix if it isn't an instance.
fn argument_of(own: &str) -> &str
    ensures { result.now ≡ argument_of own.now }
{
    match unit_kind_of(without_suffix(own)) {
        UnitKind::Plain => prefix_in(own),
        UnitKind::Template => instance_in(own),
        UnitKind::Instance => instance_in(own),
    }
}

/// Returns whether no folder of the search path has a file for the unit or, if the unit is an instance, for its
/// template. Units such as mounts and slices can exist without a file, so these are never missing. `index` is the index
/// of the search path.
///
/// Fails only if allocation fails.
pub fn is_missing(alloc: Global, index: &UnitIndex, unit: &str) -> Result<bool, AllocError>
    ensures { IfOk result (λ missing. (machine : Machine) (search_path : List (List ℕ)) → IsIndexOf machine search_path index.now
        → missing ≡ is_missing_on machine search_path unit.now) }
{
    is_missing_in(alloc, index.folders(), unit)
}

fn is_missing_in(alloc: Global, folders: &[SearchFolder], unit: &str) -> Result<bool, AllocError>
    ensures { IfOk result (λ missing. missing ≡ is_missing_in (map shown_folder folders.now) unit.now) }
{
    match file_suffix(unit) {
        Some(suffix) => {
            Ok(!has_entry(folders, unit) && !has_template(alloc, folders, unit, suffix)?)
        }
        None => Ok(false),
    }
}

/// Returns the unit's suffix if it is one of [`FILE_SUFFIXES`], so that the unit exists only if it has a file. Returns
/// `None` for other units.
fn file_suffix(unit: &str) -> Option<&'static str>
    ensures { option_map (λ suffix. suffix.now) result ≡ find (ends_with nat_eq unit.now) file_suffixes }
{
    if unit.as_bytes().ends_with(b".service") {
        return Some(".service");
    }
    if unit.as_bytes().ends_with(b".socket") {
        return Some(".socket");
    }
    if unit.as_bytes().ends_with(b".target") {
        return Some(".target");
    }
    if unit.as_bytes().ends_with(b".path") {
        return Some(".path");
    }
    if unit.as_bytes().ends_with(b".timer") {
        return Some(".timer");
    }
    None
}

/// Returns whether one of the folders has something with this name.
fn has_entry(folders: &[SearchFolder], name: &str) -> bool
    ensures { result ≡ has_entry (map shown_folder folders.now) name.now }
{
    for folder in folders {
        if folder.has(name) {
            return true;
        }
    }
    false
}

/// Returns whether one of the folders has the template of a unit with this suffix, if the unit is an instance.
fn has_template(
    alloc: Global,
    folders: &[SearchFolder],
    unit: &str,
    suffix: &str,
) -> Result<bool, AllocError>
    ensures { IfOk result (λ found. found ≡ has_template (map shown_folder folders.now) unit.now suffix.now) }
{
    let base = stem_base(unit);
    if base.len() == unit.len() {
        return Ok(false);
    }
    let template = format!(in alloc; "{base}@{suffix}")?;
    Ok(has_entry(folders, template.as_str()))
}
