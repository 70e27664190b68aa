//! The drop-ins of a unit on a machine (systemd.unit(5), Description).

ghost use Rattle.std.specs.Prelude.{◌≡◌, ◌++◌, ℕ, List, All, Err, IfOk, OnOk, map, reverse, string_bytes};
ghost use Rattle.std.specs.List.{flat_map};
ghost use Rattle.cal_machine.specs.rules.Machine.{Machine};
ghost use Rattle.cal_machine.specs.rules.Places.{names_at};
ghost use Rattle.cal_unit_index.specs.rules.DropIns.{candidates_in, drop_ins, shown_drop_in, unread_folders};
ghost use Rattle.cal_unit_index.specs.rules.Index.{IsIndexOf, faults_of_listing, shown_fault};
ghost use Rattle.cal_unit_index.specs.rules.SearchFolders.{IsListing, path_of};

use crate::drop_in_files::{DropIn, choose, push_candidates};
use crate::fault::{Reason, UnitFault};
use crate::folders::folders_of;
use crate::index::{SearchFolder, UnitIndex};
use crate::unit_type::UnitType;
use cal_machine::{Names, Tree, TreeFault, Unreadable, names_at};
use std::alloc::{AllocError, Global};

/// The drop-ins of a unit.
#[derive(Drop)]
pub struct DropIns {
    /// The paths of the drop-ins, in the order in which they are read.
    pub paths: Vec<String>,
    /// The drop-in folders that can't be read.
    pub unread: Vec<UnitFault>,
}

/// Returns the drop-ins that count for a unit of this type, in the order in which they are read (systemd.unit(5),
/// Description).
///
/// `names` are the stems of all names of the unit, its own first, as [`crate::names_of`] returns them. Of several
/// drop-ins with the same file name, only the one in the most important folder counts, whether it is a file or not.
/// Fails only if allocation fails.
pub fn find_drop_ins<T: Tree>(
    alloc: Global,
    tree: &mut T,
    index: &UnitIndex,
    unit_type: UnitType,
    names: &[String],
) -> Result<DropIns, AllocError>
    ensures known { IfOk result (λ found. (machine : Machine) (search_path : List (List ℕ)) → T.shows tree.new machine
        → IsIndexOf machine search_path index.now
        → map string_bytes found.paths.items ≡ drop_ins machine search_path unit_type (map string_bytes names.now)) }
    ensures unread { IfOk result (λ found. (machine : Machine) (search_path : List (List ℕ)) → T.shows tree.new machine
        → IsIndexOf machine search_path index.now
        → map shown_fault found.unread.items ≡ unread_folders machine search_path unit_type (map string_bytes names.now)) }
    ensures grows { (machine : Machine) → T.shows tree.new machine → T.shows tree.old machine }
{
    find_below(alloc, tree, index.folders(), unit_type, names)
}

/// Returns the drop-ins in drop-in folders below the folders of the search path.
#[tactic(auto, unfolding(crate::specs::rules::DropIns::drop_ins, crate::specs::rules::DropIns::unread_folders))]
fn find_below<T: Tree>(
    alloc: Global,
    tree: &mut T,
    search_path: &[SearchFolder],
    unit_type: UnitType,
    names: &[String],
) -> Result<DropIns, AllocError>
    ensures known { IfOk result (λ found. (machine : Machine) → T.shows tree.new machine → All (IsListing machine) search_path.now
        → map string_bytes found.paths.items ≡ drop_ins machine (map path_of search_path.now) unit_type (map string_bytes names.now)) }
    ensures unread { IfOk result (λ found. (machine : Machine) → T.shows tree.new machine → All (IsListing machine) search_path.now
        → map shown_fault found.unread.items ≡ unread_folders machine (map path_of search_path.now) unit_type (map string_bytes names.now)) }
    ensures grows { (machine : Machine) → T.shows tree.new machine → T.shows tree.old machine }
{
    let folders = folders_of(alloc, tree, search_path, unit_type, names)?;
    let mut found = Vec::new(alloc);
    let mut unread = Vec::new(alloc);
    push_all(alloc, tree, folders.as_slice(), &mut found, &mut unread)?;
    let paths = choose(alloc, found)?;
    Ok(DropIns { paths, unread })
}

/// Appends the drop-ins in the folders to `found`, and the folders that can't be read to `unread`.
fn push_all<T: Tree>(
    alloc: Global,
    tree: &mut T,
    folders: &[String],
    found: &mut Vec<DropIn>,
    unread: &mut Vec<UnitFault>,
) -> Result<(), AllocError>
    ensures known { OnOk result ((machine : Machine) → T.shows tree.new machine
        → (map shown_drop_in found.new.items
        ≡ map shown_drop_in found.old.items ++ flat_map (candidates_in machine) (map string_bytes folders.now))
        × (map shown_fault unread.new.items ≡ map shown_fault unread.old.items
        ++ flat_map (λ folder. faults_of_listing folder (names_at machine folder)) (map string_bytes folders.now))) }
    ensures grows { (machine : Machine) → T.shows tree.new machine → T.shows tree.old machine }
{
    for folder in folders {
        push_folder(alloc, tree, folder.as_str(), found, unread)?;
    }
    Ok(())
}

/// Appends the drop-ins in a folder to `found`, or the folder to `unread` if it can't be read.
fn push_folder<T: Tree>(
    alloc: Global,
    tree: &mut T,
    folder: &str,
    found: &mut Vec<DropIn>,
    unread: &mut Vec<UnitFault>,
) -> Result<(), AllocError>
    ensures known { OnOk result ((machine : Machine) → T.shows tree.new machine
        → (map shown_drop_in found.new.items ≡ map shown_drop_in found.old.items ++ candidates_in machine folder.now)
        × (map shown_fault unread.new.items
        ≡ map shown_fault unread.old.items ++ faults_of_listing folder.now (names_at machine folder.now))) }
    ensures grows { (machine : Machine) → T.shows tree.new machine → T.shows tree.old machine }
{
    match names_at(alloc, tree, folder) {
        Ok(Names { names, unnamed: _ }) => push_candidates(alloc, found, folder, names),
        Err(TreeFault::Unreadable(why)) => {
            push_unread(alloc, unread, folder, why)?;
            Ok(())
        }
        Err(TreeFault::NoMemory) => Err(AllocError),
    }
}

pub(crate) fn push_unread(
    alloc: Global,
    unread: &mut Vec<UnitFault>,
    folder: &str,
    why: Unreadable,
) -> Result<(), AllocError>
    ensures { OnOk result (map shown_fault unread.new.items
        ≡ map shown_fault unread.old.items ++ faults_of_listing folder.now (Err why)) }
{
    unread.push(UnitFault::at(alloc, folder, Reason::Unreadable(why))?)?;
    Ok(())
}
