//! Loading the timers that a user names, and those that are loaded if the user names none.

ghost use Rattle.std.specs.Prelude.{◌≡◌, ◌≢◌, ◌∷◌, ⊤, ℕ, List, [], All, IfOk, OnOk, map, string_bytes};
ghost use Rattle.cal_machine.specs.rules.Machine.{Machine};
ghost use Rattle.cal_unit_index.specs.rules.Index.{IsIndexOf, shown_fault};
ghost use Rattle.cal_unit_index.specs.rules.UnitName.{unit_stem};
ghost use Rattle.cal_load.specs.rules.AllTargets.Sought.{FolderUnit, ListedUnit, SingleFile, UnreadPath};
ghost use Rattle.cal_load.specs.rules.AllTargets.{HasAllTargets, HasAllUnits, IsFoundIfValid, IsMore, path_in, sought_at, sought_by, sought_in};
ghost use Rattle.cal_load.specs.rules.AllUnits.{IsPushed, is_absent, shown_stems, started_if_all, unit_name};
ghost use Rattle.cal_load.specs.rules.FileFaults.{IsLostIn, lost_starts};
ghost use Rattle.cal_load.specs.rules.Loaded.{IsTimerOn};
ghost use Rattle.cal_load.specs.rules.LoadedTarget.{IsLoadedTarget};

use crate::fault::{TargetLoadFault, push_lost};
use crate::folder::{FolderUnits, units_in_folder};
use crate::loaded::{Loaded, LoadedTarget};
use crate::names::{Units, units_in};
use crate::paths::{is_folder, is_path, path_in, without_slashes};
use crate::target_fault::TargetReason;
use crate::unit::{read_timer_file, read_unit};
use cal_machine::Tree;
use cal_unit_index::{UnitFault, UnitIndex, unit_stem};
use std::alloc::{AllocError, Global};
use std::collections::BTreeSet;

/// Loads the timers that the targets stand for, in the order of the targets. Without a target, loads the timers that
/// other units start and, if `is_all`, also all others in the search path, each once, sorted by name. If all are
/// loaded, [`Loaded::started`] says which timers other units start.
///
/// `index` is the index of the search path. It has no effect if all targets are paths. A target is
///
/// - a path, if it has a `/` or is `.` or `..`: a folder is read as if it were the only folder of the search path
///   (systemd.unit(5), Unit File Load Path), and stands for all its timers with their drop-ins, each once, sorted by
///   name; any other file stands for itself, without drop-ins;
/// - otherwise the name of a timer, with or without `.timer`: its file is read, and then its drop-ins, also those of
///   its aliases (systemd.unit(5)).
///
/// Templates in folders are left out. Their instances are loaded if they are files of the folder, or are linked in a
/// folder `NAME.wants` or `NAME.requires` in it. A template can be loaded by its path, but its name as a target is an
/// error.
///
/// What can't be loaded is in [`Loaded::faults`], and masked units are in [`Loaded::masked`]; everything else is still
/// loaded. If a target is a folder, everything in it that can't be read is an error, too. If there is no target, so is
/// each folder `NAME.wants` or `NAME.requires` that can't be read. Fails only if allocation fails.
pub fn load_timers<T: Tree>(
    alloc: Global,
    tree: &mut T,
    index: &UnitIndex,
    targets: &[&str],
    is_all: bool,
) -> Result<Loaded, AllocError>
    ensures known { IfOk result (λ loaded. (machine : Machine) (search_path : List (List ℕ)) → T.shows tree.new machine
        → IsIndexOf machine search_path index.now → All (IsTimerOn machine search_path) loaded.timers.items) }
    ensures whole { targets.now ≡ [] → IfOk result (HasAllUnits (λ machine search_path. T.shows tree.new machine × IsIndexOf machine search_path index.now) is_all) }
    ensures started { targets.now ≡ [] → IfOk result (λ loaded. (machine : Machine) (search_path : List (List ℕ)) → T.shows tree.new machine
        → IsIndexOf machine search_path index.now → shown_stems loaded.started ≡ started_if_all machine search_path is_all) }
    ensures unreadable { targets.now ≡ [] → IfOk result (λ loaded. (machine : Machine) (search_path : List (List ℕ)) → T.shows tree.new machine
        → IsIndexOf machine search_path index.now → All (IsLostIn loaded.faults.items) (lost_starts machine search_path)) }
    ensures targets { targets.now ≢ [] → IfOk result (HasAllTargets (λ machine search_path. T.shows tree.new machine × IsIndexOf machine search_path index.now)
        (map (λ target. target.now) targets.now)) }
    ensures grows { (machine : Machine) → T.shows tree.new machine → T.shows tree.old machine }
{
    if targets.is_empty() {
        return load_all(alloc, tree, index, is_all);
    }
    let mut loaded = Loaded::new(alloc);
    for target in targets {
        load_target(alloc, tree, index, target, &mut loaded)?;
    }
    Ok(loaded)
}

/// Loads the timers that other units start and, if `is_all`, also all others in the search path.
fn load_all<T: Tree>(
    alloc: Global,
    tree: &mut T,
    index: &UnitIndex,
    is_all: bool,
) -> Result<Loaded, AllocError>
    ensures whole { IfOk result (HasAllUnits (λ machine search_path. T.shows tree.new machine × IsIndexOf machine search_path index.now) is_all) }
    ensures started { IfOk result (λ loaded. (machine : Machine) (search_path : List (List ℕ)) → T.shows tree.new machine
        → IsIndexOf machine search_path index.now → shown_stems loaded.started ≡ started_if_all machine search_path is_all) }
    ensures unreadable { IfOk result (λ loaded. (machine : Machine) (search_path : List (List ℕ)) → T.shows tree.new machine
        → IsIndexOf machine search_path index.now → All (IsLostIn loaded.faults.items) (lost_starts machine search_path)) }
    ensures known { IfOk result (λ loaded. (machine : Machine) (search_path : List (List ℕ)) → T.shows tree.new machine
        → IsIndexOf machine search_path index.now → All (IsTimerOn machine search_path) loaded.timers.items) }
    ensures grows { (machine : Machine) → T.shows tree.new machine → T.shows tree.old machine }
{
    let Units {
        stems,
        started,
        unreadable,
    } = units_in(alloc, tree, index, is_all)?;
    let mut loaded = Loaded::new(alloc);
    for stem in stems {
        load_listed(alloc, tree, index, stem.as_str(), &mut loaded)?;
    }
    loaded.started = started;
    push_lost(&mut loaded.faults, unreadable)?;
    Ok(loaded)
}

/// Loads the unit with this stem. Loads nothing if its file is a link to nothing.
fn load_listed<T: Tree>(
    alloc: Global,
    tree: &mut T,
    index: &UnitIndex,
    stem: &str,
    loaded: &mut Loaded,
) -> Result<(), AllocError>
    ensures more { OnOk result (IsMore (λ machine search_path. T.shows tree.new machine × IsIndexOf machine search_path index.now)
        (λ machine search_path. ListedUnit stem.now ∷ []) loaded.old loaded.new) }
    ensures known { OnOk result ((machine : Machine) (search_path : List (List ℕ)) → T.shows tree.new machine
        → IsIndexOf machine search_path index.now → All (IsTimerOn machine search_path) loaded.old.timers.items
        → All (IsTimerOn machine search_path) loaded.new.timers.items) }
    ensures grows { (machine : Machine) → T.shows tree.new machine → T.shows tree.old machine }
{
    let mut lost = Vec::new(alloc);
    let found = read_unit(alloc, tree, index, stem, &mut lost);
    if is_absent(&found) {
        return Ok(());
    }
    let name = format!(in alloc; "{stem}.timer")?;
    push_found(alloc, loaded, name.as_str(), found, lost)
}

/// Appends what was found for a target, and the errors about its drop-ins.
fn push_found(
    alloc: Global,
    loaded: &mut Loaded,
    target: &str,
    found: Result<LoadedTarget, TargetLoadFault>,
    lost: Vec<UnitFault>,
) -> Result<(), AllocError>
    ensures { OnOk result (IsPushed target.now found loaded.old loaded.new) }
{
    loaded.push(alloc, target, found)?;
    push_lost(&mut loaded.faults, lost)
}

fn is_absent(found: &Result<LoadedTarget, TargetLoadFault>) -> bool
    ensures { result ≡ is_absent found.now }
{
    matches!(found, Err(TargetLoadFault::Target(TargetReason::NotFound)))
}

fn load_target<T: Tree>(
    alloc: Global,
    tree: &mut T,
    index: &UnitIndex,
    target: &str,
    loaded: &mut Loaded,
) -> Result<(), AllocError>
    ensures more { OnOk result (IsMore (λ machine search_path. T.shows tree.new machine × IsIndexOf machine search_path index.now)
        (λ machine search_path. sought_by machine target.now) loaded.old loaded.new) }
    ensures known { OnOk result ((machine : Machine) (search_path : List (List ℕ)) → T.shows tree.new machine
        → IsIndexOf machine search_path index.now → All (IsTimerOn machine search_path) loaded.old.timers.items
        → All (IsTimerOn machine search_path) loaded.new.timers.items) }
    ensures grows { (machine : Machine) → T.shows tree.new machine → T.shows tree.old machine }
{
    if is_path(target) {
        return load_path(alloc, tree, without_slashes(target), loaded);
    }
    let mut lost = Vec::new(alloc);
    let found = read_named(alloc, tree, index, target, &mut lost);
    push_found(alloc, loaded, target, found, lost)
}

/// Reads the timer with this name, which may have the suffix `.timer`.
fn read_named<T: Tree>(
    alloc: Global,
    tree: &mut T,
    index: &UnitIndex,
    name: &str,
    lost: &mut Vec<UnitFault>,
) -> Result<LoadedTarget, TargetLoadFault>
    ensures known { IfOk result (λ found. (machine : Machine) (search_path : List (List ℕ)) → T.shows tree.new machine
        → IsIndexOf machine search_path index.now → IsLoadedTarget machine search_path found) }
    ensures found { (machine : Machine) (search_path : List (List ℕ)) → T.shows tree.new machine
        → IsIndexOf machine search_path index.now → IsFoundIfValid machine search_path (unit_stem name.now) result }
    ensures grows { (machine : Machine) → T.shows tree.new machine → T.shows tree.old machine }
{
    match unit_stem(name) {
        Some(stem) => read_unit(alloc, tree, index, stem, lost),
        None => Err(TargetLoadFault::Target(TargetReason::NotFound)),
    }
}

/// Loads the timer in a file, or the timers in a folder.
fn load_path<T: Tree>(
    alloc: Global,
    tree: &mut T,
    target: &str,
    loaded: &mut Loaded,
) -> Result<(), AllocError>
    ensures more { OnOk result (IsMore (λ machine search_path. T.shows tree.new machine)
        (λ machine search_path. sought_at machine target.now) loaded.old loaded.new) }
    ensures known { OnOk result ((machine : Machine) (search_path : List (List ℕ)) → T.shows tree.new machine
        → All (IsTimerOn machine search_path) loaded.old.timers.items → All (IsTimerOn machine search_path) loaded.new.timers.items) }
    ensures grows { (machine : Machine) → T.shows tree.new machine → T.shows tree.old machine }
{
    if is_folder(alloc, tree, target)? {
        return load_folder(alloc, tree, target, loaded);
    }
    load_file(alloc, tree, target, loaded)
}

/// Loads the timer in the file at this path, without drop-ins.
fn load_file<T: Tree>(
    alloc: Global,
    tree: &mut T,
    path: &str,
    loaded: &mut Loaded,
) -> Result<(), AllocError>
    ensures more { OnOk result (IsMore (λ machine search_path. T.shows tree.new machine)
        (λ machine search_path. SingleFile path.now ∷ []) loaded.old loaded.new) }
    ensures known { OnOk result ((machine : Machine) (search_path : List (List ℕ)) → T.shows tree.new machine
        → All (IsTimerOn machine search_path) loaded.old.timers.items → All (IsTimerOn machine search_path) loaded.new.timers.items) }
    ensures grows { (machine : Machine) → T.shows tree.new machine → T.shows tree.old machine }
{
    let found = read_timer_file(alloc, tree, path);
    loaded.push(alloc, path, found)
}

/// Loads the units of a folder, which is read as if it were the only folder of the search path.
fn load_folder<T: Tree>(
    alloc: Global,
    tree: &mut T,
    folder: &str,
    loaded: &mut Loaded,
) -> Result<(), AllocError>
    ensures more { OnOk result (IsMore (λ machine search_path. T.shows tree.new machine)
        (λ machine search_path. sought_in machine folder.now) loaded.old loaded.new) }
    ensures known { OnOk result ((machine : Machine) (search_path : List (List ℕ)) → T.shows tree.new machine
        → All (IsTimerOn machine search_path) loaded.old.timers.items → All (IsTimerOn machine search_path) loaded.new.timers.items) }
    ensures grows { (machine : Machine) → T.shows tree.new machine → T.shows tree.old machine }
{
    let FolderUnits {
        index,
        stems,
        unread,
    } = units_in_folder(alloc, tree, folder)?;
    load_folder_units(alloc, tree, &index, folder, stems, loaded)?;
    push_unread(alloc, loaded, unread)
}

/// Loads the units of `folder` with these stems. `index` is the index of a search path that has only this folder.
fn load_folder_units<T: Tree>(
    alloc: Global,
    tree: &mut T,
    index: &UnitIndex,
    folder: &str,
    stems: BTreeSet<String>,
    loaded: &mut Loaded,
) -> Result<(), AllocError>
    ensures more { OnOk result (IsMore (λ machine search_path. T.shows tree.new machine × IsIndexOf machine (folder.now ∷ []) index.now)
        (λ machine search_path. map (FolderUnit folder.now) (map string_bytes stems.keys)) loaded.old loaded.new) }
    ensures known { OnOk result ((machine : Machine) (search_path : List (List ℕ)) → T.shows tree.new machine
        → IsIndexOf machine (folder.now ∷ []) index.now → All (IsTimerOn machine search_path) loaded.old.timers.items
        → All (IsTimerOn machine search_path) loaded.new.timers.items) }
    ensures grows { (machine : Machine) → T.shows tree.new machine → T.shows tree.old machine }
{
    for stem in stems {
        load_folder_unit(alloc, tree, index, folder, stem.as_str(), loaded)?;
    }
    Ok(())
}

/// Loads the unit of `folder` with this stem. `index` is the index of a search path that has only this folder.
fn load_folder_unit<T: Tree>(
    alloc: Global,
    tree: &mut T,
    index: &UnitIndex,
    folder: &str,
    stem: &str,
    loaded: &mut Loaded,
) -> Result<(), AllocError>
    ensures more { OnOk result (IsMore (λ machine search_path. T.shows tree.new machine × IsIndexOf machine (folder.now ∷ []) index.now)
        (λ machine search_path. FolderUnit folder.now stem.now ∷ []) loaded.old loaded.new) }
    ensures known { OnOk result ((machine : Machine) (search_path : List (List ℕ)) → T.shows tree.new machine
        → IsIndexOf machine (folder.now ∷ []) index.now → All (IsTimerOn machine search_path) loaded.old.timers.items
        → All (IsTimerOn machine search_path) loaded.new.timers.items) }
    ensures grows { (machine : Machine) → T.shows tree.new machine → T.shows tree.old machine }
{
    let mut lost = Vec::new(alloc);
    let found = read_unit(alloc, tree, index, stem, &mut lost);
    let name = unit_path(alloc, folder, stem)?;
    push_found(alloc, loaded, name.as_str(), found, lost)
}

/// Returns the path that the file of the unit with this stem has in a folder.
fn unit_path(alloc: Global, folder: &str, stem: &str) -> Result<String, AllocError>
    ensures { IfOk result (λ path. string_bytes path ≡ path_in folder.now (unit_name stem.now)) }
{
    let name = format!(in alloc; "{stem}.timer")?;
    path_in(alloc, folder, name.as_str())
}

/// Adds an error for each path that can't be read.
fn push_unread(alloc: Global, loaded: &mut Loaded, unread: Vec<UnitFault>) -> Result<(), AllocError>
    ensures more { OnOk result (IsMore (λ machine search_path. ⊤)
        (λ machine search_path. map UnreadPath (map shown_fault unread.items)) loaded.old loaded.new) }
    ensures timers { OnOk result (loaded.new.timers.items ≡ loaded.old.timers.items) }
{
    for fault in unread {
        push_unread_path(alloc, loaded, &fault)?;
    }
    Ok(())
}

/// Adds the error that this path can't be read.
fn push_unread_path(alloc: Global, loaded: &mut Loaded, fault: &UnitFault) -> Result<(), AllocError>
    ensures more { OnOk result (IsMore (λ machine search_path. ⊤)
        (λ machine search_path. UnreadPath (shown_fault fault.now) ∷ []) loaded.old loaded.new) }
    ensures timers { OnOk result (loaded.new.timers.items ≡ loaded.old.timers.items) }
{
    let path = fault.path.as_str();
    let unread = TargetLoadFault::at(alloc, path, fault.reason);
    loaded.push(alloc, path, Err(unread))
}
