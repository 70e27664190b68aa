//! Which unreadable parts of the search path are errors of `due`.

ghost use Rattle.std.specs.Prelude.{◌≡◌, ◌++◌, ◌∷◌, [], IfOk, OnOk, filter, false, string_bytes};
ghost use Rattle.std.specs.List.{list_any};
ghost use Rattle.std.specs.Option.{option_map_or};
ghost use Rattle.std.specs.Str.{bytes_eq};
ghost use Rattle.cal_unit_index.specs.rules.Destinations.{last_part};
ghost use Rattle.cal_unit_index.specs.rules.UnitName.{is_template, without_suffix};
ghost use Rattle.cal_answers.specs.rules.DueFaults.{can_be_file_of, concerns, is_own_file, is_search_folder};
ghost use Rattle.cal_answers.specs.rules.ErrorText.{fault_lines, unreadable_lines};

use crate::index::target_fault;
use cal_load::{Loaded, LoadedTimer, TargetFault};
use cal_unit_index::{
    SearchFolder, UnitFault, UnitIndex, UnitKind, last_part, unit_kind_of, without_suffix,
};
use std::alloc::{AllocError, Global};

/// Returns the errors about unreadable parts of the search path that concern the timer that `due` is about. `about` is the
/// name by which it was looked for, and `loaded` what was loaded for it. Other errors can't change whether its run is due,
/// so they must not make the service fail.
pub(crate) fn due_faults(
    alloc: Global,
    index: &UnitIndex,
    about: &Option<String>,
    loaded: &Option<Loaded>,
) -> Result<Vec<TargetFault>, AllocError>
    ensures { IfOk result (λ faults. fault_lines faults.items
        ≡ unreadable_lines (filter (concerns index.now about.now loaded.now) index.now.unreadable.items)) }
{
    let mut faults = Vec::new(alloc);
    for fault in index.unreadable() {
        add_concerning(alloc, &mut faults, index, about, loaded, fault)?;
    }
    Ok(faults)
}

/// Appends an error if it concerns the timer.
fn add_concerning(
    alloc: Global,
    faults: &mut Vec<TargetFault>,
    index: &UnitIndex,
    about: &Option<String>,
    loaded: &Option<Loaded>,
    fault: &UnitFault,
) -> Result<(), AllocError>
    ensures { OnOk result (fault_lines faults.new.items ≡ fault_lines faults.old.items
        ++ unreadable_lines (filter (concerns index.now about.now loaded.now) (fault.now ∷ []))) }
{
    if concerns(alloc, index, about, loaded, fault)? {
        faults.push(target_fault(fault)?)?;
    }
    Ok(())
}

fn concerns(
    alloc: Global,
    index: &UnitIndex,
    about: &Option<String>,
    loaded: &Option<Loaded>,
    fault: &UnitFault,
) -> Result<bool, AllocError>
    ensures { IfOk result (λ concerned. concerned ≡ concerns index.now about.now loaded.now fault.now) }
{
    let path = fault.path.as_str();
    Ok(is_search_folder(index.folders(), path) || is_own_file(alloc, about, loaded, path)?)
}

fn is_search_folder(folders: &[SearchFolder], path: &str) -> bool
    ensures { result ≡ list_any (λ folder. bytes_eq (string_bytes folder.path) path.now) folders.now }
{
    folders.iter().any(|folder| folder.path.as_str() == path)
}

/// Returns whether the path has the name of the file of the timer that `due` is about.
fn is_own_file(
    alloc: Global,
    about: &Option<String>,
    loaded: &Option<Loaded>,
    path: &str,
) -> Result<bool, AllocError>
    ensures { IfOk result (λ own. own ≡ is_own_file about.now loaded.now path.now) }
{
    let file = without_suffix(last_part(alloc, path)?);
    Ok(is_file_of_about(file, about) || is_file_of_loaded(file, loaded))
}

fn is_file_of_about(file: &str, about: &Option<String>) -> bool
    ensures { result ≡ option_map_or (λ name. can_be_file_of file.now (without_suffix (string_bytes name))) about.now false }
{
    match about {
        Some(name) => can_be_file_of(file, without_suffix(name.as_str())),
        None => false,
    }
}

fn is_file_of_loaded(file: &str, loaded: &Option<Loaded>) -> bool
    ensures { result ≡ option_map_or
        (λ loaded. list_any (λ timer. can_be_file_of file.now (without_suffix (string_bytes timer.name))) loaded.timers.items) loaded.now false }
{
    match loaded {
        Some(loaded) => is_file_of_any(file, loaded.timers.as_slice()),
        None => false,
    }
}

fn is_file_of_any(file: &str, timers: &[LoadedTimer]) -> bool
    ensures { result ≡ list_any (λ timer. can_be_file_of file.now (without_suffix (string_bytes timer.name))) timers.now }
{
    timers.iter().any(|timer| can_be_file_of(file, without_suffix(timer.name.as_str())))
}

/// Returns whether the file with the stem `file` can be that of the timer with the stem `stem`: it has the same stem, or
/// that of its template.
fn can_be_file_of(file: &str, stem: &str) -> bool
    ensures { result ≡ can_be_file_of file.now stem.now }
{
    file == stem || (is_template(file) && stem.as_bytes().starts_with(file.as_bytes()))
}

fn is_template(stem: &str) -> bool
    ensures { result ≡ is_template stem.now }
{
    matches!(unit_kind_of(stem), UnitKind::Template)
}
