//! The names of timers, in a search path or in a folder.

ghost use Rattle.std.specs.Prelude.{◌≡◌, ◌∷◌, [], ℕ, List, Ok, IfOk, OnOk, filter, map, string_bytes};
ghost use Rattle.std.specs.BTreeSet.{insert_key};
ghost use Rattle.std.specs.Cmp.Lexicographic.{slice_cmp};
ghost use Rattle.std.specs.List.{filter_map};
ghost use Rattle.std.specs.Option.{option_to_list};
ghost use Rattle.std.specs.Ordering.{nat_cmp};
ghost use Rattle.std.specs.Result.{IfErr};
ghost use Rattle.cal_unit_index.specs.rules.Destinations.{is_among, sorted_once, with_texts};
ghost use Rattle.cal_unit_index.specs.rules.Index.{IsIndexOf, shown_fault};
ghost use Rattle.cal_unit_index.specs.rules.Starts.{unreadable_wants};
ghost use Rattle.cal_unit_index.specs.rules.UnitName.{unit_stem};
ghost use Rattle.cal_load.specs.rules.AllTargets.{IsUnreadFault, is_text_name, is_visible, text_names_at};
ghost use Rattle.cal_load.specs.rules.AllUnits.{is_among_started, main_stem, own_stems, shown_stems, started_if_all, units_on};
ghost use Rattle.cal_machine.specs.rules.Machine.{Machine};
ghost use Rattle.cal_machine.specs.rules.Places.{names_at};
ghost use Rattle.cal_machine.specs.rules.Seen.{seen};

use crate::fault::TargetLoadFault;
use cal_machine::{Names, Tree, names_at};
use cal_unit_index::{Started, Unit, UnitFault, UnitIndex, find_started, find_unit, unit_stem};
use std::alloc::{AllocError, Global};
use std::collections::BTreeSet;

/// The units that [`units_in`] finds.
pub(crate) struct Units {
    /// The stems of the units' own names.
    pub(crate) stems: BTreeSet<String>,
    /// The stems of the units that other units start, or `None` unless all units were asked for.
    pub(crate) started: Option<BTreeSet<String>>,
    /// The folders `NAME.wants` and `NAME.requires` that can't be read.
    pub(crate) unreadable: Vec<UnitFault>,
}

/// Finds the units that other units start and, if `is_all`, also all others in the search path. Each unit is found
/// once, even if it has aliases. Templates are left out, and so are names under which no file is found.
pub(crate) fn units_in<T: Tree>(
    alloc: Global,
    tree: &mut T,
    index: &UnitIndex,
    is_all: bool,
) -> Result<Units, AllocError>
    ensures stems { IfOk result (λ units. (machine : Machine) (search_path : List (List ℕ)) → T.shows tree.new machine
        → IsIndexOf machine search_path index.now → map string_bytes units.stems.keys ≡ units_on machine search_path is_all) }
    ensures started { IfOk result (λ units. (machine : Machine) (search_path : List (List ℕ)) → T.shows tree.new machine
        → IsIndexOf machine search_path index.now → shown_stems units.started ≡ started_if_all machine search_path is_all) }
    ensures unreadable { IfOk result (λ units. (machine : Machine) (search_path : List (List ℕ)) → T.shows tree.new machine
        → IsIndexOf machine search_path index.now → map shown_fault units.unreadable.items ≡ unreadable_wants machine search_path) }
    ensures grows { (machine : Machine) → T.shows tree.new machine → T.shows tree.old machine }
{
    let Started { stems, unreadable } = find_started(alloc, tree, index)?;
    let started = own_stems(alloc, index, &stems)?;
    if !is_all {
        return Ok(Units {
            stems: started,
            started: None,
            unreadable,
        });
    }
    let mut all = own_stems(alloc, index, &index.unit_names(alloc)?)?;
    add_all_own(alloc, &mut all, index, &stems)?;
    Ok(Units {
        stems: all,
        started: Some(started),
        unreadable,
    })
}

/// Finds a unit for each of `stems`, and returns the stems of the units' own names. Aliases of one unit give one stem.
fn own_stems(
    alloc: Global,
    index: &UnitIndex,
    stems: &BTreeSet<String>,
) -> Result<BTreeSet<String>, AllocError>
    ensures known { IfOk result (λ found. (machine : Machine) (search_path : List (List ℕ)) → IsIndexOf machine search_path index.now
        → map string_bytes found.keys ≡ own_stems machine search_path (map string_bytes stems.now.keys)) }
{
    let mut found = BTreeSet::new(alloc);
    add_all_own(alloc, &mut found, index, stems)?;
    Ok(found)
}

/// Finds a unit for each of `stems`, and adds the stem of its own name to `found`.
fn add_all_own(
    alloc: Global,
    found: &mut BTreeSet<String>,
    index: &UnitIndex,
    stems: &BTreeSet<String>,
) -> Result<(), AllocError>
    ensures known { OnOk result ((machine : Machine) (search_path : List (List ℕ)) → IsIndexOf machine search_path index.now
        → map string_bytes found.new.keys
        ≡ with_texts (map string_bytes found.old.keys) (filter_map (main_stem machine search_path) (map string_bytes stems.now.keys))) }
{
    for stem in stems.iter() {
        add_own(alloc, found, index, stem.as_str())?;
    }
    Ok(())
}

/// Adds the stem of the unit's own name, if a unit is found for `stem`.
fn add_own(
    alloc: Global,
    found: &mut BTreeSet<String>,
    index: &UnitIndex,
    stem: &str,
) -> Result<(), AllocError>
    ensures known { OnOk result ((machine : Machine) (search_path : List (List ℕ)) → IsIndexOf machine search_path index.now
        → map string_bytes found.new.keys
        ≡ with_texts (map string_bytes found.old.keys) (option_to_list (main_stem machine search_path stem.now))) }
{
    if let Unit::Found(file) = find_unit(alloc, index, stem)? {
        add_stem(found, file.stem)?;
    }
    Ok(())
}

fn add_stem(found: &mut BTreeSet<String>, stem: String) -> Result<(), AllocError>
    ensures { OnOk result (map string_bytes found.new.keys
        ≡ insert_key (slice_cmp nat_cmp) (map string_bytes found.old.keys) (string_bytes stem)) }
{
    found.insert(stem)?;
    Ok(())
}

/// Returns whether the unit with this name has one of these stems.
pub(crate) fn has_unit(stems: &BTreeSet<String>, name: &str) -> bool
    ensures { result ≡ is_among_started (map string_bytes stems.now.keys) (unit_stem name.now) }
{
    match unit_stem(name) {
        Some(stem) => has_stem(stems, stem),
        None => false,
    }
}

fn has_stem(stems: &BTreeSet<String>, stem: &str) -> bool
    ensures { result ≡ is_among (map string_bytes stems.now.keys) stem.now }
{
    stems.contains(stem)
}

/// Returns the names of the timers and drop-ins in a folder, sorted by their bytes. Hidden files and names that are not
/// UTF-8 are left out.
pub(crate) fn texts_in<T: Tree>(
    alloc: Global,
    tree: &mut T,
    folder: &str,
) -> Result<BTreeSet<String>, TargetLoadFault>
    ensures known { IfOk result (λ found. (machine : Machine) → T.shows tree.new machine
        → text_names_at machine folder.now ≡ Ok (map string_bytes found.keys)) }
    ensures fault { IfErr result (λ fault. (machine : Machine) → T.shows tree.new machine
        → IsUnreadFault folder.now (names_at machine folder.now) fault) }
    ensures grows { (machine : Machine) → T.shows tree.new machine → T.shows tree.old machine }
{
    let names = names_in(alloc, tree, folder)?;
    Ok(text_names(alloc, names)?)
}

/// Returns those of the names that a timer or a drop-in can have: they end in `.timer` or `.conf` and don't begin with
/// a dot.
fn text_names(alloc: Global, names: Vec<String>) -> Result<BTreeSet<String>, AllocError>
    ensures { IfOk result (λ found. map string_bytes found.keys
        ≡ sorted_once (filter is_text_name (map string_bytes names.items))) }
{
    let mut found = BTreeSet::new(alloc);
    for name in names {
        add_text_name(&mut found, name)?;
    }
    Ok(found)
}

/// Adds the name if it is that of a timer or a drop-in.
fn add_text_name(found: &mut BTreeSet<String>, name: String) -> Result<(), AllocError>
    ensures { OnOk result (map string_bytes found.new.keys
        ≡ with_texts (map string_bytes found.old.keys) (filter is_text_name (string_bytes name ∷ []))) }
{
    if is_text_name(name.as_str()) {
        add_stem(found, name)?;
    }
    Ok(())
}

fn is_text_name(name: &str) -> bool
    ensures { result ≡ is_text_name name.now }
{
    is_visible(name, b".timer") || is_visible(name, b".conf")
}

fn names_in<T: Tree>(
    alloc: Global,
    tree: &mut T,
    folder: &str,
) -> Result<Vec<String>, TargetLoadFault>
    ensures known { IfOk result (λ names. (machine : Machine) → T.shows tree.new machine
        → seen (λ listing. listing.names) (names_at machine folder.now) ≡ Ok (map string_bytes names.items)) }
    ensures fault { IfErr result (λ fault. (machine : Machine) → T.shows tree.new machine
        → IsUnreadFault folder.now (names_at machine folder.now) fault) }
    ensures grows { (machine : Machine) → T.shows tree.new machine → T.shows tree.old machine }
{
    match names_at(alloc, tree, folder) {
        Ok(Names { names, unnamed: _ }) => Ok(names),
        Err(fault) => Err(TargetLoadFault::of_tree(alloc, folder, fault)),
    }
}

fn is_visible(name: &str, suffix: &[u8]) -> bool
    ensures { result ≡ is_visible suffix.now name.now }
{
    let name = name.as_bytes();
    name.ends_with(suffix) && !name.starts_with(b".")
}
