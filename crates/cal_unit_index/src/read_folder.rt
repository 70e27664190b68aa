//! Reading one folder of a search path.

ghost use Rattle.std.specs.Prelude.{◌≡◌, ◌++◌, ◌∷◌, [], ℕ, List, None, Some, IfOk, OnOk, if◌then◌else◌, map, string_bytes};
ghost use Rattle.std.specs.Option.{option_or};
ghost use Rattle.std.specs.Str.{bytes_eq};
ghost use Rattle.cal_machine.specs.rules.Machine.{Machine};
ghost use Rattle.cal_machine.specs.rules.Places.{names_at};
ghost use Rattle.cal_unit_index.specs.rules.Destinations.{listed, shown_destination, stems_of};
ghost use Rattle.cal_unit_index.specs.rules.Index.{HasStems, IsIndexUpTo, entered, faults_of_listing, shown_fault, unreadable_fault};

use crate::destinations::{Destination, find_destination, unit_path};
use crate::fault::{Reason, UnitFault};
use crate::index::{SearchFolder, UnitIndex};
use crate::name_sets::{name_set, timer_stems};
use cal_machine::{Tree, TreeFault, Unreadable, names_at};
use std::alloc::{AllocError, Global};
use std::collections::{BTreeMap, BTreeSet};

/// Enters a folder of the search path in the index: the names in it, and where the timers among them lead. A timer that
/// already has a destination keeps it.
pub(crate) fn read_folder<T: Tree>(
    alloc: Global,
    tree: &mut T,
    search_path: &[String],
    folder: &str,
    index: &mut UnitIndex,
) -> Result<(), AllocError>
    ensures known { OnOk result ((machine : Machine) (done : List (List ℕ)) → T.shows tree.new machine
        → IsIndexUpTo machine (map string_bytes search_path.now) done index.old
        → IsIndexUpTo machine (map string_bytes search_path.now) (done ++ folder.now ∷ []) index.new) }
    ensures grows { (machine : Machine) → T.shows tree.new machine → T.shows tree.old machine }
{
    let names = list_folder(alloc, tree, folder, &mut index.unreadable)?;
    read_names(alloc, tree, search_path, folder, &names, index)?;
    index.folders.push(SearchFolder {
        path: String::from_str(alloc, folder)?,
        names,
    })?;
    Ok(())
}

/// Returns the names in a folder. If the folder can't be read, appends the error to `unreadable` and returns no names.
fn list_folder<T: Tree>(
    alloc: Global,
    tree: &mut T,
    folder: &str,
    unreadable: &mut Vec<UnitFault>,
) -> Result<BTreeSet<String>, AllocError>
    ensures known { IfOk result (λ names. (machine : Machine) → T.shows tree.new machine
        → (map string_bytes names.keys ≡ listed machine folder.now)
        × (map shown_fault unreadable.new.items
        ≡ map shown_fault unreadable.old.items ++ faults_of_listing folder.now (names_at machine folder.now))) }
    ensures grows { (machine : Machine) → T.shows tree.new machine → T.shows tree.old machine }
{
    match names_at(alloc, tree, folder) {
        Ok(found) => name_set(alloc, found.names),
        Err(TreeFault::Unreadable(why)) => {
            push_unreadable(unreadable, String::from_str(alloc, folder)?, why)?;
            Ok(BTreeSet::new(alloc))
        }
        Err(TreeFault::NoMemory) => Err(AllocError),
    }
}

fn push_unreadable(
    unreadable: &mut Vec<UnitFault>,
    path: String,
    why: Unreadable,
) -> Result<(), AllocError>
    ensures { OnOk result (map shown_fault unreadable.new.items
        ≡ map shown_fault unreadable.old.items ++ unreadable_fault (string_bytes path) why ∷ []) }
{
    let reason = Reason::Unreadable(why);
    unreadable.push(UnitFault { path, reason })?;
    Ok(())
}

/// Enters in the index where the timers with these names lead according to a folder.
fn read_names<T: Tree>(
    alloc: Global,
    tree: &mut T,
    search_path: &[String],
    folder: &str,
    names: &BTreeSet<String>,
    index: &mut UnitIndex,
) -> Result<(), AllocError>
    ensures known { OnOk result ((machine : Machine) → T.shows tree.new machine
        → HasStems machine (map string_bytes search_path.now) folder.now (stems_of (map string_bytes names.now.keys)) index.old index.new) }
    ensures grows { (machine : Machine) → T.shows tree.new machine → T.shows tree.old machine }
{
    let stems = timer_stems(alloc, names)?;
    read_stems(alloc, tree, search_path, folder, stems.as_slice(), index)
}

/// Enters in the index where the timers with these stems lead according to a folder.
fn read_stems<T: Tree>(
    alloc: Global,
    tree: &mut T,
    search_path: &[String],
    folder: &str,
    stems: &[&str],
    index: &mut UnitIndex,
) -> Result<(), AllocError>
    ensures known { OnOk result ((machine : Machine) → T.shows tree.new machine
        → HasStems machine (map string_bytes search_path.now) folder.now (map (λ stem. stem.now) stems.now) index.old index.new) }
    ensures grows { (machine : Machine) → T.shows tree.new machine → T.shows tree.old machine }
{
    for stem in stems {
        read_stem(alloc, tree, search_path, folder, stem, index)?;
    }
    Ok(())
}

/// Enters in the index where the timer with this stem leads according to a folder, or that the timer's file can't be
/// read.
fn read_stem<T: Tree>(
    alloc: Global,
    tree: &mut T,
    search_path: &[String],
    folder: &str,
    stem: &str,
    index: &mut UnitIndex,
) -> Result<(), AllocError>
    ensures known { OnOk result ((machine : Machine) → T.shows tree.new machine
        → HasStems machine (map string_bytes search_path.now) folder.now (stem.now ∷ []) index.old index.new) }
    ensures grows { (machine : Machine) → T.shows tree.new machine → T.shows tree.old machine }
{
    match find_destination(alloc, tree, search_path, folder, stem) {
        Ok(Some(destination)) => enter(alloc, &mut index.destinations, stem, destination),
        Ok(None) => Ok(()),
        Err(TreeFault::Unreadable(why)) => {
            push_unreadable(&mut index.unreadable, unit_path(alloc, folder, stem)?, why)
        }
        Err(TreeFault::NoMemory) => Err(AllocError),
    }
}

/// Enters the destination of a stem, unless the stem has one already.
fn enter(
    alloc: Global,
    destinations: &mut BTreeMap<String, Destination>,
    stem: &str,
    destination: Destination,
) -> Result<(), AllocError>
    ensures { OnOk result ((other : List ℕ) → entered destinations.new other
        ≡ option_or (entered destinations.old other) (if bytes_eq other stem.now then Some (shown_destination destination) else None)) }
{
    if !destinations.contains_key(stem) {
        destinations.insert(String::from_str(alloc, stem)?, destination)?;
    }
    Ok(())
}
