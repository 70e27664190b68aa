//! The names of units (systemd.unit(5), Description). A stem is a unit's name without its suffix `.timer`.

ghost use Rattle.std.specs.Prelude.{◌≡◌, ◌++◌, ◌∷◌, [], ℕ, List, IfOk, OnOk, filter, map, not, option_map, string_bytes};
ghost use Rattle.std.specs.List.{filter_map};
ghost use Rattle.std.specs.Option.{option_to_list};
ghost use Rattle.std.specs.Str.{bytes_eq};
ghost use Rattle.cal_machine.specs.rules.Machine.{Machine};
ghost use Rattle.cal_unit_index.specs.rules.Destinations.{sorted_once, with_texts};
ghost use Rattle.cal_unit_index.specs.rules.Index.{IsIndexOf, destination_of};
ghost use Rattle.cal_unit_index.specs.rules.Names.{is_elsewhere, name_by, name_given, names_on, names_with, shown_alias, unless_elsewhere};
ghost use Rattle.cal_unit_index.specs.rules.Units.{shown_end};

use crate::aliases::Alias;
use crate::follow::{End, following};
use crate::index::UnitIndex;
use crate::name_sets::add_name;
use crate::unit::UnitFile;
use crate::unit_name::{instance_of, is_template};
use std::alloc::{AllocError, Global};
use std::collections::BTreeSet;

/// Returns the stems of all names of a unit: its own, and then the others, sorted by their bytes, each once.
///
/// `file` is what [`crate::find_unit`] found for the stem `asked`. The other names are `asked` and the names that
/// aliases give to the unit. An alias that is a template gives the unit the alias's name with the unit's instance,
/// unless this name leads to another file. An alias that is an instance gives its name only to a unit with the same
/// instance.
///
/// Fails only if allocation fails.
pub fn names_of(
    alloc: Global,
    index: &UnitIndex,
    file: &UnitFile,
    asked: &str,
) -> Result<Vec<String>, AllocError>
    ensures known { IfOk result (λ names. (machine : Machine) (search_path : List (List ℕ)) → IsIndexOf machine search_path index.now
        → map string_bytes names.items ≡ names_on machine search_path (string_bytes file.now.file) (string_bytes file.now.stem) asked.now) }
{
    indexed_names(alloc, index, file, asked)
}

fn indexed_names(
    alloc: Global,
    index: &UnitIndex,
    file: &UnitFile,
    asked: &str,
) -> Result<Vec<String>, AllocError>
    ensures { IfOk result (λ names. map string_bytes names.items
        ≡ names_with (destination_of index.now) (map shown_alias index.now.aliases.items)
        (string_bytes file.now.file) (string_bytes file.now.stem) asked.now) }
{
    let mut names = given_names(alloc, index, file)?;
    add_name(&mut names, String::from_str(alloc, asked)?)?;
    own_first(alloc, file.stem.as_str(), names)
}

/// Returns the stem `own`, and then the other names.
fn own_first(alloc: Global, own: &str, names: BTreeSet<String>) -> Result<Vec<String>, AllocError>
    ensures { IfOk result (λ all. map string_bytes all.items
        ≡ own.now ∷ filter (λ name. not (bytes_eq name own.now)) (map string_bytes names.keys)) }
{
    let mut all = Vec::new(alloc);
    all.push(String::from_str(alloc, own)?)?;
    for name in names {
        push_other(&mut all, own, name)?;
    }
    Ok(all)
}

/// Appends a name, unless it is `own`.
fn push_other(all: &mut Vec<String>, own: &str, name: String) -> Result<(), AllocError>
    ensures { OnOk result (map string_bytes all.new.items
        ≡ map string_bytes all.old.items ++ filter (λ name. not (bytes_eq name own.now)) (string_bytes name ∷ [])) }
{
    if name.as_str() != own {
        all.push(name)?;
    }
    Ok(())
}

/// Returns the names that aliases give to a unit.
fn given_names(
    alloc: Global,
    index: &UnitIndex,
    file: &UnitFile,
) -> Result<BTreeSet<String>, AllocError>
    ensures { IfOk result (λ names. map string_bytes names.keys ≡ sorted_once
        (filter_map (name_by (destination_of index.now) (string_bytes file.now.file) (string_bytes file.now.stem))
        (map shown_alias index.now.aliases.items))) }
{
    let mut names = BTreeSet::new(alloc);
    for alias in index.aliases.as_slice() {
        add_given(alloc, &mut names, index, file, alias)?;
    }
    Ok(names)
}

/// Adds the name that an alias gives to a unit, if there is one.
fn add_given(
    alloc: Global,
    names: &mut BTreeSet<String>,
    index: &UnitIndex,
    file: &UnitFile,
    alias: &Alias,
) -> Result<(), AllocError>
    ensures { OnOk result (map string_bytes names.new.keys ≡ with_texts (map string_bytes names.old.keys)
        (option_to_list (name_by (destination_of index.now) (string_bytes file.now.file) (string_bytes file.now.stem) (shown_alias alias.now)))) }
{
    if alias.unit.as_str() == file.file.as_str() {
        if let Some(name) = name_given(alloc, index, file, alias.stem.as_str())? {
            add_name(names, name)?;
        }
    }
    Ok(())
}

/// Returns the name that an alias gives to the unit with this file, if there is one.
fn name_given(
    alloc: Global,
    index: &UnitIndex,
    file: &UnitFile,
    alias: &str,
) -> Result<Option<String>, AllocError>
    ensures { IfOk result (λ name. option_map string_bytes name
        ≡ name_given (destination_of index.now) (string_bytes file.now.file) (string_bytes file.now.stem) alias.now) }
{
    let mut name = String::from_str(alloc, alias)?;
    if is_template(alias) {
        name.push_str(instance_of(file.stem.as_str()))?;
        return Ok(unless_elsewhere(index, file.file.as_str(), name));
    }
    if instance_of(alias) == instance_of(file.stem.as_str()) {
        return Ok(Some(name));
    }
    Ok(None)
}

fn unless_elsewhere(index: &UnitIndex, file: &str, name: String) -> Option<String>
    ensures { option_map string_bytes result ≡ unless_elsewhere (destination_of index.now) file.now (string_bytes name) }
{
    if is_elsewhere(file, following(index, name.as_str())) {
        return None;
    }
    Some(name)
}

/// Returns whether following aliases ended at a file, but not at the file that was found under the stem `file`.
fn is_elsewhere(file: &str, found: End<'_>) -> bool
    ensures { result ≡ is_elsewhere file.now (shown_end found.entry) }
{
    match found {
        End::AtFile { path: _, stem } => stem != file,
        End::Nowhere | End::Endless => false,
    }
}
