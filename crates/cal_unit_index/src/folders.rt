//! The drop-in folders of a unit (systemd.unit(5), Description).

ghost use Rattle.std.specs.Prelude.{◌≡◌, ◌+◌, ◌++◌, ◌∷◌, [], ◌<◌, All, IfOk, OnOk, if◌then◌else◌, map, length, option_map, take, reverse, string_bytes};
ghost use Rattle.std.specs.List.{flat_map};
ghost use Rattle.cal_machine.specs.rules.Machine.{Machine};
ghost use Rattle.cal_machine.specs.rules.Places.{entry_at};
ghost use Rattle.cal_unit_index.specs.rules.Folders.{can_be_folder, end_at, folder_below, folder_name, folder_stems, folders, folders_below, from_root, is_dash_within, is_followed, path_in, prefix_instances, prefixes_of, prefixes_within, stem_folders, type_folder, with_prefix};
ghost use Rattle.cal_unit_index.specs.rules.SearchFolders.{IsListing, path_of};

use crate::index::SearchFolder;
use crate::unit_name::{stem_base, template_of};
use crate::unit_type::UnitType;
use cal_machine::{Entry, Last, Place, Tree, TreeFault, find_place, look_at};
use std::alloc::{AllocError, Global};

/// Returns the drop-in folders that are read for a unit of this type, from the least important to the most important.
///
/// `search_path` has the most important folder first, and `stems` has the stems of all names of the unit, its own first.
/// Fails only if allocation fails.
pub(crate) fn folders_of<T: Tree>(
    alloc: Global,
    tree: &mut T,
    search_path: &[SearchFolder],
    unit_type: UnitType,
    stems: &[String],
) -> Result<Vec<String>, AllocError>
    ensures known { IfOk result (λ found. (machine : Machine) → T.shows tree.new machine
        → All (IsListing machine) search_path.now → map string_bytes found.items
        ≡ folders machine (reverse (map path_of search_path.now)) unit_type (reverse (map string_bytes stems.now))) }
    ensures grows { (machine : Machine) → T.shows tree.new machine → T.shows tree.old machine }
{
    let roots = reversed(alloc, search_path)?;
    let mut folders = type_folders(alloc, tree, roots.as_slice(), unit_type)?;
    let stems = reversed(alloc, stems)?;
    push_all_folders(
        alloc,
        tree,
        &mut folders,
        roots.as_slice(),
        unit_type,
        stems.as_slice(),
    )?;
    Ok(folders)
}

/// Returns the items in reverse order: the most important item, which is the first of `items`, comes last.
#[tactic(auto, using(crate::proofs::FolderLemmas::map_reverse))]
pub(crate) fn reversed<T>(alloc: Global, items: &[T]) -> Result<Vec<&T>, AllocError>
    ensures { IfOk result (λ reversed. map (λ item. item.now) reversed.items ≡ reverse items.now) }
{
    let mut reversed: Vec<&T> = items.iter().collect(alloc)?;
    reversed.reverse();
    Ok(reversed)
}

/// Returns the drop-in folders that are read for all units of this type, below these folders of the search path.
fn type_folders<T: Tree>(
    alloc: Global,
    tree: &mut T,
    roots: &[&SearchFolder],
    unit_type: UnitType,
) -> Result<Vec<String>, AllocError>
    ensures known { IfOk result (λ found. (machine : Machine) → T.shows tree.new machine
        → All (IsListing machine) (map (λ root. root.now) roots.now) → map string_bytes found.items
        ≡ flat_map (folders_below machine (type_folder unit_type ∷ [])) (map (λ root. path_of root.now) roots.now)) }
    ensures grows { (machine : Machine) → T.shows tree.new machine → T.shows tree.old machine }
{
    let mut folders = Vec::new(alloc);
    let names = vec![in alloc; String::from_str(alloc, unit_type.folder())?]?;
    push_folders(alloc, tree, &mut folders, roots, names.as_slice())?;
    Ok(folders)
}

/// Appends the drop-in folders that are read for these stems, below these folders of the search path.
fn push_all_folders<T: Tree>(
    alloc: Global,
    tree: &mut T,
    folders: &mut Vec<String>,
    roots: &[&SearchFolder],
    unit_type: UnitType,
    stems: &[&String],
) -> Result<(), AllocError>
    ensures known { OnOk result ((machine : Machine) → T.shows tree.new machine
        → All (IsListing machine) (map (λ root. root.now) roots.now) → map string_bytes folders.new.items
        ≡ map string_bytes folders.old.items ++ flat_map (stem_folders machine (map (λ root. path_of root.now) roots.now) unit_type)
        (map (λ stem. string_bytes stem.now) stems.now)) }
    ensures grows { (machine : Machine) → T.shows tree.new machine → T.shows tree.old machine }
{
    for stem in stems {
        push_stem_folders(alloc, tree, folders, roots, unit_type, stem.as_str())?;
    }
    Ok(())
}

/// Appends the drop-in folders that are read for this stem, below these folders of the search path.
fn push_stem_folders<T: Tree>(
    alloc: Global,
    tree: &mut T,
    folders: &mut Vec<String>,
    roots: &[&SearchFolder],
    unit_type: UnitType,
    stem: &str,
) -> Result<(), AllocError>
    ensures known { OnOk result ((machine : Machine) → T.shows tree.new machine
        → All (IsListing machine) (map (λ root. root.now) roots.now) → map string_bytes folders.new.items
        ≡ map string_bytes folders.old.items
        ++ stem_folders machine (map (λ root. path_of root.now) roots.now) unit_type stem.now) }
    ensures grows { (machine : Machine) → T.shows tree.new machine → T.shows tree.old machine }
{
    let names = folder_names(alloc, unit_type, stem)?;
    push_folders(alloc, tree, folders, roots, names.as_slice())
}

/// Appends the drop-in folders that have these names, are below one of these folders of the search path, and are read.
pub(crate) fn push_folders<T: Tree>(
    alloc: Global,
    tree: &mut T,
    folders: &mut Vec<String>,
    roots: &[&SearchFolder],
    names: &[String],
) -> Result<(), AllocError>
    ensures known { OnOk result ((machine : Machine) → T.shows tree.new machine
        → All (IsListing machine) (map (λ root. root.now) roots.now) → map string_bytes folders.new.items
        ≡ map string_bytes folders.old.items
        ++ flat_map (folders_below machine (map string_bytes names.now)) (map (λ root. path_of root.now) roots.now)) }
    ensures grows { (machine : Machine) → T.shows tree.new machine → T.shows tree.old machine }
{
    for root in roots {
        push_below(alloc, tree, folders, root, names)?;
    }
    Ok(())
}

/// Appends the drop-in folders that have these names, are below this folder of the search path, and are read.
fn push_below<T: Tree>(
    alloc: Global,
    tree: &mut T,
    folders: &mut Vec<String>,
    root: &SearchFolder,
    names: &[String],
) -> Result<(), AllocError>
    ensures known { OnOk result ((machine : Machine) → T.shows tree.new machine → IsListing machine root.now
        → map string_bytes folders.new.items ≡ map string_bytes folders.old.items
        ++ folders_below machine (map string_bytes names.now) (path_of root.now)) }
    ensures grows { (machine : Machine) → T.shows tree.new machine → T.shows tree.old machine }
{
    for name in names {
        push_folder(alloc, tree, folders, root, name.as_str())?;
    }
    Ok(())
}

/// Appends the drop-in folder with this name below a folder of the search path, if it is read.
fn push_folder<T: Tree>(
    alloc: Global,
    tree: &mut T,
    folders: &mut Vec<String>,
    root: &SearchFolder,
    name: &str,
) -> Result<(), AllocError>
    ensures known { OnOk result ((machine : Machine) → T.shows tree.new machine → IsListing machine root.now
        → map string_bytes folders.new.items ≡ map string_bytes folders.old.items
        ++ folder_below machine (path_of root.now) name.now) }
    ensures grows { (machine : Machine) → T.shows tree.new machine → T.shows tree.old machine }
{
    if !root.has(name) {
        return Ok(());
    }
    let path = path_in(alloc, root.path.as_str(), name)?;
    if is_followed(alloc, tree, path.as_str())? {
        folders.push(path)?;
    }
    Ok(())
}

/// Returns whether the drop-in folder at a path is read. If the path can't be examined, the result is `true`, so that
/// the error is found when the folder is listed.
fn is_followed<T: Tree>(alloc: Global, tree: &mut T, path: &str) -> Result<bool, AllocError>
    ensures known { IfOk result (λ is. (machine : Machine) → T.shows tree.new machine
        → is ≡ is_followed machine (entry_at machine path.now)) }
    ensures grows { (machine : Machine) → T.shows tree.new machine → T.shows tree.old machine }
{
    match look_at(alloc, tree, path) {
        Ok(Entry::Folder) => Ok(true),
        Ok(Entry::Link(target)) => can_be_folder(alloc, tree, target.as_str()),
        Ok(_) => Ok(false),
        Err(TreeFault::Unreadable(_)) => Ok(true),
        Err(TreeFault::NoMemory) => Err(AllocError),
    }
}

/// Returns whether a link with this target leads to a folder, or to something that can't be read. A relative target is
/// looked up in the root folder, in which systemd's managers run.
fn can_be_folder<T: Tree>(alloc: Global, tree: &mut T, target: &str) -> Result<bool, AllocError>
    ensures known { IfOk result (λ is. (machine : Machine) → T.shows tree.new machine
        → is ≡ can_be_folder (end_at machine (from_root target.now))) }
    ensures grows { (machine : Machine) → T.shows tree.new machine → T.shows tree.old machine }
{
    let path = from_root(alloc, target)?;
    match find_place(alloc, tree, path.as_str(), Last::Followed) {
        Ok(Place { path: _, entry }) => Ok(matches!(entry, Entry::Folder)),
        Err(TreeFault::Unreadable(_)) => Ok(true),
        Err(TreeFault::NoMemory) => Err(AllocError),
    }
}

fn from_root(alloc: Global, target: &str) -> Result<String, AllocError>
    ensures { IfOk result (λ path. string_bytes path ≡ from_root target.now) }
{
    if target.starts_with('/') {
        return String::from_str(alloc, target);
    }
    Ok(format!(in alloc; "/{target}")?)
}

fn path_in(alloc: Global, folder: &str, name: &str) -> Result<String, AllocError>
    ensures { IfOk result (λ path. string_bytes path ≡ path_in folder.now name.now) }
{
    Ok(format!(in alloc; "{folder}/{name}")?)
}

/// Returns the names of the drop-in folders that apply to the unit of this type with this stem, from the least
/// important to the most important.
fn folder_names(alloc: Global, unit_type: UnitType, stem: &str) -> Result<Vec<String>, AllocError>
    ensures { IfOk result (λ names. map string_bytes names.items ≡ map (folder_name unit_type) (folder_stems stem.now)) }
{
    let mut names = Vec::new(alloc);
    for stem in folder_stems(alloc, stem)? {
        names.push(folder_name(alloc, unit_type, stem.as_str())?)?;
    }
    Ok(names)
}

fn folder_name(alloc: Global, unit_type: UnitType, stem: &str) -> Result<String, AllocError>
    ensures { IfOk result (λ name. string_bytes name ≡ folder_name unit_type stem.now) }
{
    let suffix = unit_type.suffix();
    Ok(format!(in alloc; "{stem}{suffix}.d")?)
}

/// Returns the stems whose drop-in folders apply to the unit with this stem, from the least important to the most
/// important. For `foo-bar@x`, these are `foo-@`, `foo-@x`, `foo-`, `foo-bar@` and `foo-bar@x`.
#[tactic(auto, unfolding(crate::specs::rules::Folders::folder_stems))]
pub(crate) fn folder_stems(alloc: Global, stem: &str) -> Result<Vec<String>, AllocError>
    ensures { IfOk result (λ stems. map string_bytes stems.items ≡ folder_stems stem.now) }
{
    let prefixes = prefixes_of(alloc, stem)?;
    let template = template_of(stem);
    let mut stems = prefix_instances(alloc, stem, template, prefixes.as_slice())?;
    for prefix in prefixes {
        stems.push(String::from_str(alloc, prefix)?)?;
    }
    if let Some(template) = template {
        stems.push(String::from_str(alloc, template)?)?;
    }
    stems.push(String::from_str(alloc, stem)?)?;
    Ok(stems)
}

/// Returns `PREFIX@` and `PREFIX@INSTANCE` for each prefix if the stem is that of an instance, and otherwise an empty
/// list.
fn prefix_instances(
    alloc: Global,
    stem: &str,
    template: Option<&str>,
    prefixes: &[&str],
) -> Result<Vec<String>, AllocError>
    requires { map (λ prefix. prefix.now) prefixes.now ≡ prefixes_of stem.now }
    ensures { IfOk result (λ stems. map string_bytes stems.items
        ≡ prefix_instances stem.now (option_map (λ template. template.now) template.entry)) }
{
    let mut stems = Vec::new(alloc);
    if template.is_none() {
        return Ok(stems);
    }
    for prefix in prefixes {
        push_with_prefix(alloc, &mut stems, stem, prefix)?;
    }
    Ok(stems)
}

/// Appends `PREFIX@` and `PREFIX@INSTANCE` for this prefix. `stem` is the stem of the instance.
fn push_with_prefix(
    alloc: Global,
    stems: &mut Vec<String>,
    stem: &str,
    prefix: &str,
) -> Result<(), AllocError>
    ensures { OnOk result (map string_bytes stems.new.items
        ≡ map string_bytes stems.old.items ++ with_prefix stem.now prefix.now) }
{
    let instance = &stem[stem_base(stem).len()..];
    stems.push(format!(in alloc; "{prefix}@")?)?;
    stems.push(format!(in alloc; "{prefix}{instance}")?)?;
    Ok(())
}

/// Returns the prefixes of a stem that end with a dash, the shortest first: prefixes of the part before the first `@`,
/// except this part itself and a dash alone.
fn prefixes_of(alloc: Global, stem: &str) -> Result<Vec<&str>, AllocError>
    ensures { IfOk result (λ prefixes. map (λ prefix. prefix.now) prefixes.items ≡ prefixes_of stem.now) }
{
    let mut prefixes = Vec::new(alloc);
    push_prefixes(&mut prefixes, stem_base(stem))?;
    Ok(prefixes)
}

/// Appends the prefixes of `base` that end with a dash, the shortest first, but not `base` itself and not a dash alone.
fn push_prefixes<'n>(stems: &mut Vec<&'n str>, base: &'n str) -> Result<(), AllocError>
    ensures { OnOk result (map (λ stem. stem.now) stems.new.items
        ≡ map (λ stem. stem.now) stems.old.items ++ prefixes_within base.now (length base.now)) }
{
    for index in 0..base.len() {
        push_prefix(stems, base, index)?;
    }
    Ok(())
}

/// Appends the prefix of `base` that ends with the byte at `index`, if this byte is a dash, but neither the first byte
/// of `base` nor the last.
fn push_prefix<'n>(stems: &mut Vec<&'n str>, base: &'n str, index: usize) -> Result<(), AllocError>
    requires { index < length base.now }
    ensures { OnOk result (map (λ stem. stem.now) stems.new.items ≡ map (λ stem. stem.now) stems.old.items
        ++ (if is_dash_within base.now index then take (index + 1) base.now ∷ [] else [])) }
{
    if is_dash_within(base, index) {
        stems.push(&base[..index + 1])?;
    }
    Ok(())
}

/// Returns whether the byte of `base` at `index` is a dash, but neither the first byte nor the last.
fn is_dash_within(base: &str, index: usize) -> bool
    requires { index < length base.now }
    ensures { result ≡ is_dash_within base.now index }
{
    0 < index && index + 1 < base.len() && base.as_bytes()[index] == b'-'
}
