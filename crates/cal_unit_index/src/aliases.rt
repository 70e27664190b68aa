//! The aliases and the units in a search path (systemd.unit(5), Description). A stem is a unit's name without its
//! suffix `.timer`.

ghost use Rattle.std.specs.Prelude.{◌≡◌, ◌++◌, IfOk, OnOk, filter, map, option_map, string_bytes, ◌∷◌, []};
ghost use Rattle.std.specs.List.{flat_map};
ghost use Rattle.std.specs.Option.{option_to_list};
ghost use Rattle.cal_unit_index.specs.rules.Destinations.{sorted_once, stems_of, with_texts};
ghost use Rattle.cal_unit_index.specs.rules.Index.{destination_of, is_unit, shown_folder};
ghost use Rattle.cal_unit_index.specs.rules.Names.{alias_at_file, alias_with, aliases_named, shown_alias};
ghost use Rattle.cal_unit_index.specs.rules.Units.{shown_end};

use crate::destinations::Destination;
use crate::follow::{End, following};
use crate::index::{SearchFolder, UnitIndex};
use crate::name_sets::{add_name, timer_stems};
use crate::unit_name::is_template;
use std::alloc::{AllocError, Global};
use std::collections::BTreeSet;

/// An alias of a unit.
#[derive(Drop)]
pub(crate) struct Alias {
    pub stem: String,
    /// The stem under which the unit's file is found, which can be a template's.
    pub unit: String,
}

/// Returns all aliases, in the order of the folders, and sorted by name in each folder. If several folders have the
/// name of an alias, the alias is in the list several times.
///
/// systemd leaves out an alias whose unit is masked. Such an alias isn't left out here, since whether a unit is masked
/// is only known once its file is read.
pub(crate) fn find_aliases(alloc: Global, index: &UnitIndex) -> Result<Vec<Alias>, AllocError>
    ensures { IfOk result (λ aliases. map shown_alias aliases.items
        ≡ flat_map (λ folder. aliases_named (destination_of index.now) folder.names) (map shown_folder index.now.folders.items)) }
{
    let mut aliases = Vec::new(alloc);
    for folder in index.folders() {
        push_aliases(alloc, &mut aliases, index, folder)?;
    }
    Ok(aliases)
}

/// Appends the aliases whose names are in this folder.
fn push_aliases(
    alloc: Global,
    aliases: &mut Vec<Alias>,
    index: &UnitIndex,
    folder: &SearchFolder,
) -> Result<(), AllocError>
    ensures { OnOk result (map shown_alias aliases.new.items ≡ map shown_alias aliases.old.items
        ++ aliases_named (destination_of index.now) (map string_bytes folder.now.names.keys)) }
{
    for stem in timer_stems(alloc, &folder.names)? {
        push_alias(alloc, aliases, index, stem)?;
    }
    Ok(())
}

/// Appends the alias with this stem, if there is one.
fn push_alias(
    alloc: Global,
    aliases: &mut Vec<Alias>,
    index: &UnitIndex,
    stem: &str,
) -> Result<(), AllocError>
    ensures { OnOk result (map shown_alias aliases.new.items ≡ map shown_alias aliases.old.items
        ++ option_to_list (alias_with (destination_of index.now) stem.now)) }
{
    if let Some(alias) = alias_with(alloc, index, stem)? {
        aliases.push(alias)?;
    }
    Ok(())
}

/// Returns the alias with this stem. Returns `None` if the stem isn't an alias, or if following it doesn't lead to a
/// file.
fn alias_with(alloc: Global, index: &UnitIndex, stem: &str) -> Result<Option<Alias>, AllocError>
    ensures { IfOk result (λ alias. option_map shown_alias alias ≡ alias_with (destination_of index.now) stem.now) }
{
    match index.destination(stem) {
        Some(Destination::Alias(_)) => alias_at_file(alloc, stem, following(index, stem)),
        Some(Destination::File(_)) | None => Ok(None),
    }
}

fn alias_at_file(alloc: Global, stem: &str, found: End<'_>) -> Result<Option<Alias>, AllocError>
    ensures { IfOk result (λ alias. option_map shown_alias alias ≡ alias_at_file stem.now (shown_end found.entry)) }
{
    match found {
        End::AtFile {
            path: _,
            stem: file,
        } => Ok(Some(Alias {
            stem: String::from_str(alloc, stem)?,
            unit: String::from_str(alloc, file)?,
        })),
        End::Nowhere | End::Endless => Ok(None),
    }
}

/// Returns the stems that lead to a file or an alias and aren't those of templates.
pub(crate) fn find_unit_names(
    alloc: Global,
    index: &UnitIndex,
) -> Result<BTreeSet<String>, AllocError>
    ensures { IfOk result (λ names. map string_bytes names.keys ≡ sorted_once
        (flat_map (λ folder. filter (is_unit (destination_of index.now)) (stems_of folder.names)) (map shown_folder index.now.folders.items))) }
{
    let mut names = BTreeSet::new(alloc);
    for folder in index.folders() {
        add_units(alloc, &mut names, index, folder)?;
    }
    Ok(names)
}

/// Adds the stems in this folder that lead to a file or an alias and aren't those of templates.
fn add_units(
    alloc: Global,
    names: &mut BTreeSet<String>,
    index: &UnitIndex,
    folder: &SearchFolder,
) -> Result<(), AllocError>
    ensures { OnOk result (map string_bytes names.new.keys ≡ with_texts (map string_bytes names.old.keys)
        (filter (is_unit (destination_of index.now)) (stems_of (map string_bytes folder.now.names.keys)))) }
{
    for stem in timer_stems(alloc, &folder.names)? {
        add_unit(alloc, names, index, stem)?;
    }
    Ok(())
}

/// Adds this stem if it leads to a file or an alias and isn't that of a template.
fn add_unit(
    alloc: Global,
    names: &mut BTreeSet<String>,
    index: &UnitIndex,
    stem: &str,
) -> Result<(), AllocError>
    ensures { OnOk result (map string_bytes names.new.keys ≡ with_texts (map string_bytes names.old.keys)
        (filter (is_unit (destination_of index.now)) (stem.now ∷ []))) }
{
    if is_unit(index, stem) {
        add_name(names, String::from_str(alloc, stem)?)?;
    }
    Ok(())
}

fn is_unit(index: &UnitIndex, stem: &str) -> bool
    ensures { result ≡ is_unit (destination_of index.now) stem.now }
{
    !is_template(stem) && index.destination(stem).is_some()
}
