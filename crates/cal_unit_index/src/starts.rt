//! Which timers other units start, whether or not those units are started themselves (systemd.unit(5), Description). A
//! stem is a unit's name without its suffix `.timer`. A wants folder is a folder `NAME.wants` or `NAME.requires` below
//! a folder of the search path.

ghost use Rattle.std.specs.Prelude.{◌≡◌, ◌++◌, ◌∷◌, [], ℕ, List, All, IfOk, OnOk, filter, map, option_map, string_bytes};
ghost use Rattle.std.specs.List.{filter_map, flat_map};
ghost use Rattle.std.specs.Option.{option_to_list};
ghost use Rattle.cal_machine.specs.rules.Machine.{Machine};
ghost use Rattle.cal_machine.specs.rules.Places.{entry_at, names_at};
ghost use Rattle.cal_unit_index.specs.rules.Destinations.{sorted_once, with_texts};
ghost use Rattle.cal_unit_index.specs.rules.DropIns.{file_in, shown_drop_in, shown_pair};
ghost use Rattle.cal_unit_index.specs.rules.Folders.{end_at};
ghost use Rattle.cal_unit_index.specs.rules.Index.{IsIndexOf, faults_of_listing, shown_fault};
ghost use Rattle.cal_unit_index.specs.rules.SearchFolders.{IsListing, path_of};
ghost use Rattle.cal_unit_index.specs.rules.Starts.{files_in, is_start, is_unmasked, is_wants_name, started_by, started_in, stem_started, unreadable_named, unreadable_wants};

use crate::drop_in_files::{DropIn, enter_all, file_in};
use crate::drop_ins::push_unread;
use crate::fault::UnitFault;
use crate::folders::{push_folders, reversed};
use crate::index::{SearchFolder, UnitIndex};
use crate::linked_stems::linked_stem;
use crate::name_sets::add_name;
use cal_machine::{Entry, Last, Names, Place, Tree, TreeFault, find_place, look_at, names_at};
use std::alloc::{AllocError, Global};
use std::collections::{BTreeMap, BTreeSet};

/// The timers that other units start.
#[derive(Drop)]
pub struct Started {
    /// The stems of the timers, which need not exist.
    pub stems: BTreeSet<String>,
    /// The folders `NAME.wants` and `NAME.requires` that can't be read, sorted by name. Those with the same name are
    /// sorted from the least important to the most important.
    pub unreadable: Vec<UnitFault>,
}

/// Returns the timers that other units start, on a machine with the search path of this index. A timer is started by a
/// link with its name in a folder `NAME.wants` or `NAME.requires` below a folder of the search path, whatever unit
/// `NAME` is (systemd.unit(5), Description).
///
/// Where a link leads doesn't matter, except that a link to an empty file or to a device, such as `/dev/null`, starts
/// nothing. Of several files or links with the same name in folders with the same name, only the one in the most
/// important folder of the search path counts, even if it starts nothing.
///
/// A link with the name of a template starts an instance of the template: the one with the instance name of `NAME` or,
/// if `NAME` isn't an instance, with `NAME` without its suffix. The link starts nothing if `NAME` doesn't stand for one
/// unit, as in `target.wants`, `a-.target.wants` and `a@.target.wants`.
///
/// Fails only if allocation fails.
pub fn find_started<T: Tree>(
    alloc: Global,
    tree: &mut T,
    index: &UnitIndex,
) -> Result<Started, AllocError>
    ensures known { IfOk result (λ started. (machine : Machine) (search_path : List (List ℕ)) → T.shows tree.new machine
        → IsIndexOf machine search_path index.now
        → map string_bytes started.stems.keys ≡ started_in machine search_path) }
    ensures unreadable { IfOk result (λ started. (machine : Machine) (search_path : List (List ℕ)) → T.shows tree.new machine
        → IsIndexOf machine search_path index.now
        → map shown_fault started.unreadable.items ≡ unreadable_wants machine search_path) }
    ensures grows { (machine : Machine) → T.shows tree.new machine → T.shows tree.old machine }
{
    find_below(alloc, tree, index.folders())
}

/// Returns which timers are started by the wants folders below the folders of a search path.
fn find_below<T: Tree>(
    alloc: Global,
    tree: &mut T,
    search_path: &[SearchFolder],
) -> Result<Started, AllocError>
    ensures known { IfOk result (λ started. (machine : Machine) → T.shows tree.new machine → All (IsListing machine) search_path.now
        → map string_bytes started.stems.keys ≡ started_in machine (map path_of search_path.now)) }
    ensures unreadable { IfOk result (λ started. (machine : Machine) → T.shows tree.new machine → All (IsListing machine) search_path.now
        → map shown_fault started.unreadable.items ≡ unreadable_wants machine (map path_of search_path.now)) }
    ensures grows { (machine : Machine) → T.shows tree.new machine → T.shows tree.old machine }
{
    let roots = reversed(alloc, search_path)?;
    let mut stems = BTreeSet::new(alloc);
    let mut unreadable = Vec::new(alloc);
    for name in wants_names(alloc, search_path)? {
        add_named(
            alloc,
            tree,
            roots.as_slice(),
            name.as_str(),
            &mut stems,
            &mut unreadable,
        )?;
    }
    Ok(Started { stems, unreadable })
}

/// Returns the names of the wants folders in these folders of the search path.
fn wants_names(alloc: Global, search_path: &[SearchFolder]) -> Result<BTreeSet<String>, AllocError>
    ensures { IfOk result (λ names. map string_bytes names.keys
        ≡ sorted_once (flat_map (λ folder. filter is_wants_name (map string_bytes folder.names.keys)) search_path.now)) }
{
    let mut names = BTreeSet::new(alloc);
    for folder in search_path {
        add_wants_names(alloc, &mut names, folder)?;
    }
    Ok(names)
}

/// Adds the names of the wants folders in this folder of the search path.
fn add_wants_names(
    alloc: Global,
    names: &mut BTreeSet<String>,
    folder: &SearchFolder,
) -> Result<(), AllocError>
    ensures { OnOk result (map string_bytes names.new.keys ≡ with_texts (map string_bytes names.old.keys)
        (filter is_wants_name (map string_bytes folder.now.names.keys))) }
{
    for name in folder.names.iter() {
        add_wants_name(alloc, names, name.as_str())?;
    }
    Ok(())
}

/// Adds this name if it is that of a wants folder.
fn add_wants_name(alloc: Global, names: &mut BTreeSet<String>, name: &str) -> Result<(), AllocError>
    ensures { OnOk result (map string_bytes names.new.keys ≡ with_texts (map string_bytes names.old.keys)
        (filter is_wants_name (name.now ∷ []))) }
{
    if is_wants_name(name) {
        add_name(names, String::from_str(alloc, name)?)?;
    }
    Ok(())
}

fn is_wants_name(name: &str) -> bool
    ensures { result ≡ is_wants_name name.now }
{
    let name = name.as_bytes();
    name.ends_with(b".wants") || name.ends_with(b".requires")
}

/// Adds the timers that are started by the wants folders with this name, and appends the wants folders that can't be
/// read to `unreadable`. `roots` has the folders of the search path, from the least important to the most important.
fn add_named<T: Tree>(
    alloc: Global,
    tree: &mut T,
    roots: &[&SearchFolder],
    name: &str,
    stems: &mut BTreeSet<String>,
    unreadable: &mut Vec<UnitFault>,
) -> Result<(), AllocError>
    ensures known { OnOk result ((machine : Machine) → T.shows tree.new machine
        → All (IsListing machine) (map (λ root. root.now) roots.now)
        → (map string_bytes stems.new.keys ≡ with_texts (map string_bytes stems.old.keys)
        (started_by machine (map (λ root. path_of root.now) roots.now) name.now))
        × (map shown_fault unreadable.new.items ≡ map shown_fault unreadable.old.items
        ++ unreadable_named machine (map (λ root. path_of root.now) roots.now) name.now)) }
    ensures grows { (machine : Machine) → T.shows tree.new machine → T.shows tree.old machine }
{
    let mut folders = Vec::new(alloc);
    let names = vec![in alloc; String::from_str(alloc, name)?]?;
    push_folders(alloc, tree, &mut folders, roots, names.as_slice())?;
    let mut found = Vec::new(alloc);
    push_all_files(alloc, tree, folders.as_slice(), &mut found, unreadable)?;
    let files = enter_all(alloc, found)?;
    add_started(alloc, tree, name, files, stems)
}

/// Appends the files in the folders to `found`, and the folders that can't be read to `unreadable`.
fn push_all_files<T: Tree>(
    alloc: Global,
    tree: &mut T,
    folders: &[String],
    found: &mut Vec<DropIn>,
    unreadable: &mut Vec<UnitFault>,
) -> Result<(), AllocError>
    ensures known { OnOk result ((machine : Machine) → T.shows tree.new machine
        → (map shown_drop_in found.new.items
        ≡ map shown_drop_in found.old.items ++ flat_map (files_in machine) (map string_bytes folders.now))
        × (map shown_fault unreadable.new.items ≡ map shown_fault unreadable.old.items
        ++ flat_map (λ folder. faults_of_listing folder (names_at machine folder)) (map string_bytes folders.now))) }
    ensures grows { (machine : Machine) → T.shows tree.new machine → T.shows tree.old machine }
{
    for folder in folders {
        push_files(alloc, tree, folder.as_str(), found, unreadable)?;
    }
    Ok(())
}

/// Appends the files in a folder to `found`, or the folder to `unreadable` if it can't be read.
fn push_files<T: Tree>(
    alloc: Global,
    tree: &mut T,
    folder: &str,
    found: &mut Vec<DropIn>,
    unreadable: &mut Vec<UnitFault>,
) -> Result<(), AllocError>
    ensures known { OnOk result ((machine : Machine) → T.shows tree.new machine
        → (map shown_drop_in found.new.items ≡ map shown_drop_in found.old.items ++ files_in machine folder.now)
        × (map shown_fault unreadable.new.items
        ≡ map shown_fault unreadable.old.items ++ faults_of_listing folder.now (names_at machine folder.now))) }
    ensures grows { (machine : Machine) → T.shows tree.new machine → T.shows tree.old machine }
{
    match names_at(alloc, tree, folder) {
        Ok(Names { names, unnamed: _ }) => push_named(alloc, found, folder, names),
        Err(TreeFault::Unreadable(why)) => push_unread(alloc, unreadable, folder, why),
        Err(TreeFault::NoMemory) => Err(AllocError),
    }
}

/// Appends the files with these names in a folder.
fn push_named(
    alloc: Global,
    found: &mut Vec<DropIn>,
    folder: &str,
    names: Vec<String>,
) -> Result<(), AllocError>
    ensures { OnOk result (map shown_drop_in found.new.items
        ≡ map shown_drop_in found.old.items ++ map (file_in folder.now) (map string_bytes names.items)) }
{
    for name in names {
        found.push(file_in(alloc, folder, name)?)?;
    }
    Ok(())
}

/// Adds the timers that are started by these files in wants folders with the name `folder`. `files` maps their names to
/// their paths.
fn add_started<T: Tree>(
    alloc: Global,
    tree: &mut T,
    folder: &str,
    files: BTreeMap<String, String>,
    stems: &mut BTreeSet<String>,
) -> Result<(), AllocError>
    ensures known { OnOk result ((machine : Machine) → T.shows tree.new machine
        → map string_bytes stems.new.keys
        ≡ with_texts (map string_bytes stems.old.keys) (filter_map (stem_started machine folder.now) (map shown_pair files.entries))) }
    ensures grows { (machine : Machine) → T.shows tree.new machine → T.shows tree.old machine }
{
    for (name, path) in files {
        add_stem(alloc, tree, folder, name.as_str(), path.as_str(), stems)?;
    }
    Ok(())
}

/// Adds the timer, if there is one, that the file with this name and path starts in a wants folder with the name
/// `folder`.
fn add_stem<T: Tree>(
    alloc: Global,
    tree: &mut T,
    folder: &str,
    name: &str,
    path: &str,
    stems: &mut BTreeSet<String>,
) -> Result<(), AllocError>
    ensures known { OnOk result ((machine : Machine) → T.shows tree.new machine
        → map string_bytes stems.new.keys
        ≡ with_texts (map string_bytes stems.old.keys) (option_to_list (stem_started machine folder.now (name.now, path.now)))) }
    ensures grows { (machine : Machine) → T.shows tree.new machine → T.shows tree.old machine }
{
    if let Some(stem) = linked_stem(alloc, folder, name)? {
        if is_start(alloc, tree, path)? {
            add_name(stems, stem)?;
        }
    }
    Ok(())
}

/// Returns whether what is at a path in a wants folder starts a timer, which only links do. Something that can't be
/// examined counts as a link, since it most likely is one, for example with a target that isn't UTF-8.
fn is_start<T: Tree>(alloc: Global, tree: &mut T, path: &str) -> Result<bool, AllocError>
    ensures known { IfOk result (λ is. (machine : Machine) → T.shows tree.new machine
        → is ≡ is_start machine path.now (entry_at machine path.now)) }
    ensures grows { (machine : Machine) → T.shows tree.new machine → T.shows tree.old machine }
{
    match look_at(alloc, tree, path) {
        Ok(Entry::Link(_)) => is_unmasked(alloc, tree, path),
        Ok(_) => Ok(false),
        Err(TreeFault::Unreadable(_)) => Ok(true),
        Err(TreeFault::NoMemory) => Err(AllocError),
    }
}

/// Returns whether the link at a path starts a timer. It does unless it leads to an empty file or a device. As in
/// systemd, a link that can't be followed starts the timer.
fn is_unmasked<T: Tree>(alloc: Global, tree: &mut T, path: &str) -> Result<bool, AllocError>
    ensures known { IfOk result (λ is. (machine : Machine) → T.shows tree.new machine
        → is ≡ is_unmasked (end_at machine path.now)) }
    ensures grows { (machine : Machine) → T.shows tree.new machine → T.shows tree.old machine }
{
    match find_place(alloc, tree, path, Last::Followed) {
        Ok(Place { path: _, entry }) => Ok(!matches!(entry, Entry::Empty | Entry::Device)),
        Err(TreeFault::Unreadable(_)) => Ok(true),
        Err(TreeFault::NoMemory) => Err(AllocError),
    }
}
