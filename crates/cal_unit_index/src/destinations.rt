//! Where the names of units lead (systemd.unit(5), Description and Unit File Load Path). A stem is a unit's name
//! without its suffix `.timer`.

ghost use Rattle.std.specs.Prelude.{◌≡◌, IfOk, map, option_map, string_bytes};
ghost use Rattle.std.specs.List.{list_any};
ghost use Rattle.cal_machine.specs.rules.Machine.{Machine, Tells, shown_entry};
ghost use Rattle.cal_unit_index.specs.rules.Destinations.{alias_of, destination_at_path, destination_of_entry, destination_of_link, is_below, last_part, shown_destination, target_path, unit_path};

use crate::paths::parts_of;
use crate::unit_name::{file_stem, may_lead};
use cal_machine::{Entry, Last, Tree, TreeFault, after_prefix, find_place, look_at};
use std::alloc::{AllocError, Global};

/// Where the name of a unit leads.
#[derive(Drop)]
pub(crate) enum Destination {
    /// To the file of the unit with this name. The file is at this path, and can be a link.
    File(String),
    /// To the unit with this stem, of which it is an alias.
    Alias(String),
}

/// Returns where a stem leads according to this folder of the search path. Returns `None` if nothing that can be a
/// unit's file or an alias is at the stem's path in the folder.
///
/// A link that leads into the search path stands for an alias of the unit whose name is the last part of the path to
/// which the link leads. If the link can't be an alias of this unit, the stem leads nowhere. A link that leads out of
/// the search path is itself the unit's file.
pub(crate) fn find_destination<T: Tree>(
    alloc: Global,
    tree: &mut T,
    search_path: &[String],
    folder: &str,
    stem: &str,
) -> Result<Option<Destination>, TreeFault>
    ensures known { (machine : Machine) → T.shows tree.new machine
        → Tells (option_map shown_destination) result (destination_at_path machine (map string_bytes search_path.now) folder.now stem.now) }
    ensures grows { (machine : Machine) → T.shows tree.new machine → T.shows tree.old machine }
{
    let file = unit_path(alloc, folder, stem)?;
    let entry = look_at(alloc, tree, file.as_str())?;
    destination_of_entry(alloc, tree, search_path, folder, stem, file, entry)
}

/// Returns where a stem leads, given what is at `file`, its path in this folder.
fn destination_of_entry<T: Tree>(
    alloc: Global,
    tree: &mut T,
    search_path: &[String],
    folder: &str,
    stem: &str,
    file: String,
    entry: Entry,
) -> Result<Option<Destination>, TreeFault>
    ensures known { (machine : Machine) → T.shows tree.new machine
        → Tells (option_map shown_destination) result
        (destination_of_entry machine (map string_bytes search_path.now) folder.now stem.now (string_bytes file) (shown_entry entry)) }
    ensures grows { (machine : Machine) → T.shows tree.new machine → T.shows tree.old machine }
{
    match entry {
        Entry::Empty | Entry::File => Ok(Some(Destination::File(file))),
        Entry::Missing | Entry::Device | Entry::Folder => Ok(None),
        Entry::Link(target) => {
            let target = target_path(alloc, folder, target.as_str())?;
            let place = find_place(alloc, tree, target.as_str(), Last::Kept)?;
            Ok(destination_of_link(alloc, search_path, stem, file, place.path.as_str())?)
        }
    }
}

/// Returns where a link with this stem and the path `file` leads, if it leads to `place`.
fn destination_of_link(
    alloc: Global,
    search_path: &[String],
    stem: &str,
    file: String,
    place: &str,
) -> Result<Option<Destination>, AllocError>
    ensures { IfOk result (λ destination. option_map shown_destination destination
        ≡ destination_of_link (map string_bytes search_path.now) stem.now (string_bytes file) place.now) }
{
    if !is_in_path(search_path, place) {
        return Ok(Some(Destination::File(file)));
    }
    match alias_of(alloc, stem, place)? {
        Some(other) => Ok(Some(Destination::Alias(String::from_str(alloc, other)?))),
        None => Ok(None),
    }
}

/// Returns whether a place is in a folder of the search path, or below one.
fn is_in_path(search_path: &[String], place: &str) -> bool
    ensures { result ≡ list_any (is_below place.now) (map string_bytes search_path.now) }
{
    for folder in search_path {
        if is_below(place, folder.as_str()) {
            return true;
        }
    }
    false
}

fn is_below(place: &str, folder: &str) -> bool
    ensures { result ≡ is_below place.now folder.now }
{
    match after_prefix(folder, place) {
        Some(rest) => rest.as_bytes().starts_with(b"/"),
        None => false,
    }
}

/// Returns the stem of the unit of which a link with the stem `stem` is an alias. The link leads to `place`, which is
/// in the search path. Returns `None` if the link can't be an alias.
fn alias_of<'p>(alloc: Global, stem: &str, place: &'p str) -> Result<Option<&'p str>, AllocError>
    ensures { IfOk result (λ other. option_map (λ other. other.now) other ≡ alias_of stem.now place.now) }
{
    match file_stem(last_part(alloc, place)?) {
        Some(other) if may_lead(stem, other) => Ok(Some(other)),
        _ => Ok(None),
    }
}

/// Returns the part of a path after its last slash.
pub fn last_part(alloc: Global, path: &str) -> Result<&str, AllocError>
    ensures { IfOk result (λ part. part.now ≡ last_part path.now) }
{
    let parts = parts_of(alloc, path)?;
    match parts.last() {
        Some(part) => Ok(*part),
        None => Ok(""),
    }
}

/// Returns the path to which a link in this folder leads if its target is `target`.
fn target_path(alloc: Global, folder: &str, target: &str) -> Result<String, AllocError>
    ensures { IfOk result (λ path. string_bytes path ≡ target_path folder.now target.now) }
{
    if target.as_bytes().starts_with(b"/") {
        return String::from_str(alloc, target);
    }
    Ok(format!(in alloc; "{folder}/{target}")?)
}

/// Returns the path of the file with this stem in a folder.
pub(crate) fn unit_path(alloc: Global, folder: &str, stem: &str) -> Result<String, AllocError>
    ensures { IfOk result (λ path. string_bytes path ≡ unit_path folder.now stem.now) }
{
    Ok(format!(in alloc; "{folder}/{stem}.timer")?)
}
