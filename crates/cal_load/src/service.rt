//! How a service guards the exceptions of a timer: the service's files, and what they say. The stem of a service is its
//! name without `.service`.

ghost use Rattle.std.specs.Prelude.{◌≡◌, ◌++◌, ℕ, List, IfOk, OnOk, codes, find, map, option_map, string_bytes};
ghost use Rattle.std.specs.Option.{option_to_list};
ghost use Rattle.cal_machine.specs.rules.Machine.{Machine};
ghost use Rattle.cal_read.specs.rules.SectionAssignments.{shown_owned_assignment};
ghost use Rattle.cal_unit_index.specs.rules.Destinations.{is_among};
ghost use Rattle.cal_unit_index.specs.rules.Files.{shown_unit_text};
ghost use Rattle.cal_unit_index.specs.rules.Index.{IsIndexOf, shown_folder};
ghost use Rattle.cal_load.specs.rules.Readable.{section_read};
ghost use Rattle.cal_load.specs.rules.Service.{guard_on, own_path, path_among, service_assignments, service_paths, template_path, timer_stem};

use crate::guard::{Guard, guard_in};
use crate::readable::read_section;
use crate::texts::append;
use cal_machine::Tree;
use cal_read::OwnedAssignment;
use cal_unit_index::{
    DropInTexts, DropIns, SearchFolder, UnitIndex, UnitText, UnitType, find_drop_ins, last_part,
    read_drop_ins, stem_base, without_suffix,
};
use std::alloc::{AllocError, Global};

/// The name of the sections that make up a service.
const SERVICE_SECTION: &str = "Service";

/// Returns the guard of the service with this stem, if the timer with the name `timer` starts it: whether the service
/// runs `calendar-timers due` about this timer in an `ExecCondition=`, and a failure of it skips the service. `timer`
/// is the name of a unit, or the path of a file that is read by itself. `index` is the index of the search path, and
/// `is_user` says whether the timer and the service are units of a user.
///
/// The service has the first file of its name in the search path, or else that of its template, and its drop-ins. Files
/// and folders that can't be read count as absent. Aliases aren't followed, neither those of the service nor those of
/// the timer.
///
/// Fails only if allocation fails.
pub fn service_guard<T: Tree>(
    alloc: Global,
    tree: &mut T,
    index: &UnitIndex,
    is_user: bool,
    timer: &str,
    stem: &str,
) -> Result<Guard, AllocError>
    ensures known { IfOk result (λ guard. (machine : Machine) (search_path : List (List ℕ)) → T.shows tree.new machine
        → IsIndexOf machine search_path index.now → guard ≡ guard_on machine search_path is_user timer.now stem.now) }
    ensures grows { (machine : Machine) → T.shows tree.new machine → T.shows tree.old machine }
{
    let paths = service_paths(alloc, tree, index, stem)?;
    let DropInTexts { texts, faults: _ } = read_drop_ins(alloc, tree, paths.as_slice())?;
    let assignments = service_assignments(alloc, texts.as_slice())?;
    let timer = timer_stem(alloc, timer)?;
    guard_in(alloc, is_user, timer, assignments.as_slice())
}

/// Returns the name of a timer without its folder and without `.timer`.
fn timer_stem(alloc: Global, timer: &str) -> Result<&str, AllocError>
    ensures { IfOk result (λ stem. stem.now ≡ timer_stem timer.now) }
{
    let own = last_part(alloc, timer)?;
    Ok(without_suffix(own))
}

/// Returns the paths of a service's files, in the order in which they are read.
fn service_paths<T: Tree>(
    alloc: Global,
    tree: &mut T,
    index: &UnitIndex,
    stem: &str,
) -> Result<Vec<String>, AllocError>
    ensures known { IfOk result (λ paths. (machine : Machine) (search_path : List (List ℕ)) → T.shows tree.new machine
        → IsIndexOf machine search_path index.now → map string_bytes paths.items ≡ service_paths machine search_path stem.now) }
    ensures grows { (machine : Machine) → T.shows tree.new machine → T.shows tree.old machine }
{
    let mut paths = own_paths(alloc, index.folders(), stem)?;
    let names = vec![in alloc; String::from_str(alloc, stem)?]?;
    let DropIns {
        paths: drop_ins,
        unread: _,
    } = find_drop_ins(alloc, tree, index, UnitType::Service, names.as_slice())?;
    append(&mut paths, drop_ins)?;
    Ok(paths)
}

/// Returns the path of the service's own file, if it has one.
fn own_paths(alloc: Global, folders: &[SearchFolder], stem: &str) -> Result<Vec<String>, AllocError>
    ensures { IfOk result (λ paths. map string_bytes paths.items ≡ option_to_list (own_path (map shown_folder folders.now) stem.now)) }
{
    let mut paths = Vec::new(alloc);
    if let Some(own) = own_path(alloc, folders, stem)? {
        paths.push(own)?;
    }
    Ok(paths)
}

/// Returns the path of the file with the service's name or, if no folder has such a file, of its template's file.
fn own_path(
    alloc: Global,
    folders: &[SearchFolder],
    stem: &str,
) -> Result<Option<String>, AllocError>
    ensures { IfOk result (λ path. option_map string_bytes path ≡ own_path (map shown_folder folders.now) stem.now) }
{
    let name = format!(in alloc; "{stem}.service")?;
    match path_among(alloc, folders, name.as_str())? {
        Some(path) => Ok(Some(path)),
        None => template_path(alloc, folders, stem),
    }
}

/// Returns the path of the file of the service's template, if the service is an instance.
fn template_path(
    alloc: Global,
    folders: &[SearchFolder],
    stem: &str,
) -> Result<Option<String>, AllocError>
    ensures { IfOk result (λ path. option_map string_bytes path ≡ template_path (map shown_folder folders.now) stem.now) }
{
    let base = stem_base(stem);
    if base.len() == stem.len() {
        return Ok(None);
    }
    let name = format!(in alloc; "{base}@.service")?;
    path_among(alloc, folders, name.as_str())
}

/// Returns the path of the file with this name in the first of the folders that has it.
fn path_among(
    alloc: Global,
    folders: &[SearchFolder],
    name: &str,
) -> Result<Option<String>, AllocError>
    ensures { IfOk result (λ path. option_map string_bytes path ≡ path_among (map shown_folder folders.now) name.now) }
{
    match folder_with(folders, name) {
        Some(folder) => {
            let path = folder.path.as_str();
            Ok(Some(format!(in alloc; "{path}/{name}")?))
        }
        None => Ok(None),
    }
}

/// Returns the first of the folders that has something with this name.
fn folder_with<'f>(folders: &'f [SearchFolder], name: &str) -> Option<&'f SearchFolder>
    ensures { option_map (λ folder. shown_folder folder.now) result
        ≡ find (λ folder. is_among folder.names name.now) (map shown_folder folders.now) }
{
    for folder in folders {
        if folder.has(name) {
            return Some(folder);
        }
    }
    None
}

/// Returns the assignments in the sections `Service` of these files.
fn service_assignments(
    alloc: Global,
    files: &[UnitText],
) -> Result<Vec<OwnedAssignment>, AllocError>
    ensures { IfOk result (λ found. map shown_owned_assignment found.items ≡ service_assignments (map shown_unit_text files.now)) }
{
    let mut found = Vec::new(alloc);
    for file in files {
        push_assignments(alloc, &mut found, file)?;
    }
    Ok(found)
}

/// Appends the assignments in the sections `Service` of a file.
fn push_assignments(
    alloc: Global,
    found: &mut Vec<OwnedAssignment>,
    file: &UnitText,
) -> Result<(), AllocError>
    ensures { OnOk result (map shown_owned_assignment found.new.items
        ≡ map shown_owned_assignment found.old.items ++ section_read (codes "Service") 1 file.now.bytes.items) }
{
    let bytes = file.bytes.as_slice();
    // This can't happen: a file of a unit that was read has at most 1,048,576 bytes.
    if bytes.len() >= u32::MAX as usize {
        return Err(AllocError);
    }
    let read = read_section(alloc, SERVICE_SECTION, 1, bytes)?;
    append(found, read.assignments)
}
