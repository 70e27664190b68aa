//! Timers with exceptions that systemd ignores, or may ignore, because of the service that they start
//! (systemd.service(5), ExecCondition= and SuccessExitStatus=).

ghost use Rattle.std.specs.Prelude.{◌≡◌, ◌++◌, ◌∷◌, [], ℕ, List, IfOk, OnOk, map, option_map, string_bytes};
ghost use Rattle.std.specs.Option.{option_to_list};
ghost use Rattle.cal_machine.specs.rules.Machine.{Machine};
ghost use Rattle.cal_unit_index.specs.rules.Index.{IsIndexOf};
ghost use Rattle.cal_load.specs.rules.Service.{guard_on};
ghost use Rattle.cal_tasks.specs.rules.Unguarded.{entry_of, has_exceptions, unguarded_seen};
ghost use Rattle.cal_answers.specs.rules.Unguarded.{flaw_by, flaw_of, folder_of, folders_for, or_root, own_elsewhere, service_flaw, service_stem, started_flaw, unguarded_among, unguarded_on, unit_flaw};

use crate::found::LoadedByVerb;
use crate::setting_problems::is_in_search_path;
use cal_load::{Guard, LoadedTimer, service_guard, started_unit};
use cal_machine::{Tree, before_last_byte};
use cal_tasks::{GuardFlaw, UnguardedTimer, own_path};
use cal_unit_index::{UnitIndex, UnitText};
use std::alloc::{AllocError, Global};

/// Returns the loaded timers that have exceptions, and start a service whose guard has a flaw, in the order in which
/// they were loaded. Only `list`, `show` and `lint` need them; for the other verbs, the list is empty. `index` is the
/// index of the search path, and `is_user` says whether the units are those of a user.
///
/// The service of a timer whose own file is in a folder of the search path is looked for in the search path. The
/// service of any other timer is looked for only in the folder that has the timer's own file.
pub(crate) fn unguarded_on<T: Tree>(
    alloc: Global,
    tree: &mut T,
    index: &UnitIndex,
    is_user: bool,
    loaded: &LoadedByVerb<'_>,
) -> Result<Vec<UnguardedTimer>, AllocError>
    ensures known { IfOk result (λ list. (machine : Machine) (search_path : List (List ℕ)) → T.shows tree.new machine
        → IsIndexOf machine search_path index.now → map unguarded_seen list.items ≡ unguarded_on machine search_path is_user loaded.now) }
    ensures grows { (machine : Machine) → T.shows tree.new machine → T.shows tree.old machine }
{
    match loaded {
        LoadedByVerb::List { timers, .. }
        | LoadedByVerb::Show { timers, .. }
        | LoadedByVerb::Lint { timers, .. } => {
            unguarded_among(alloc, tree, index, is_user, timers.timers.as_slice())
        }
        LoadedByVerb::Between { .. }
        | LoadedByVerb::Same { .. }
        | LoadedByVerb::Next { .. }
        | LoadedByVerb::Due { .. }
        | LoadedByVerb::Cron { .. } => Ok(Vec::new(alloc)),
    }
}

/// Returns those of these timers that have exceptions, and start a service whose guard has a flaw.
fn unguarded_among<T: Tree>(
    alloc: Global,
    tree: &mut T,
    index: &UnitIndex,
    is_user: bool,
    timers: &[LoadedTimer],
) -> Result<Vec<UnguardedTimer>, AllocError>
    ensures known { IfOk result (λ list. (machine : Machine) (search_path : List (List ℕ)) → T.shows tree.new machine
        → IsIndexOf machine search_path index.now → map unguarded_seen list.items ≡ unguarded_among machine search_path is_user timers.now) }
    ensures grows { (machine : Machine) → T.shows tree.new machine → T.shows tree.old machine }
{
    let mut list = Vec::new(alloc);
    for timer in timers {
        push_if_unguarded(alloc, tree, index, is_user, timer, &mut list)?;
    }
    Ok(list)
}

/// Appends the timer, if it has exceptions and starts a service whose guard has a flaw.
fn push_if_unguarded<T: Tree>(
    alloc: Global,
    tree: &mut T,
    index: &UnitIndex,
    is_user: bool,
    timer: &LoadedTimer,
    list: &mut Vec<UnguardedTimer>,
) -> Result<(), AllocError>
    ensures known { OnOk result ((machine : Machine) (search_path : List (List ℕ)) → T.shows tree.new machine
        → IsIndexOf machine search_path index.now → map unguarded_seen list.new.items
        ≡ map unguarded_seen list.old.items
        ++ option_to_list (option_map (entry_of timer.now) (flaw_of machine search_path is_user timer.now))) }
    ensures grows { (machine : Machine) → T.shows tree.new machine → T.shows tree.old machine }
{
    if let Some(flaw) = flaw_of(alloc, tree, index, is_user, timer)? {
        list.push(entry_of(alloc, timer, flaw)?)?;
    }
    Ok(())
}

fn entry_of(
    alloc: Global,
    timer: &LoadedTimer,
    flaw: GuardFlaw,
) -> Result<UnguardedTimer, AllocError>
    ensures { IfOk result (λ entry. unguarded_seen entry ≡ entry_of timer.now flaw) }
{
    Ok(UnguardedTimer {
        name: String::from_str(alloc, timer.name.as_str())?,
        path: String::from_str(alloc, own_path(timer))?,
        flaw,
    })
}

/// Returns the flaw in the guard of the service that the timer starts. Returns `None` if the timer has no exceptions.
fn flaw_of<T: Tree>(
    alloc: Global,
    tree: &mut T,
    index: &UnitIndex,
    is_user: bool,
    timer: &LoadedTimer,
) -> Result<Option<GuardFlaw>, AllocError>
    ensures known { IfOk result (λ flaw. (machine : Machine) (search_path : List (List ℕ)) → T.shows tree.new machine
        → IsIndexOf machine search_path index.now → flaw ≡ flaw_of machine search_path is_user timer.now) }
    ensures grows { (machine : Machine) → T.shows tree.new machine → T.shows tree.old machine }
{
    if has_exceptions(timer) {
        return started_flaw(alloc, tree, index, is_user, timer);
    }
    Ok(None)
}

fn has_exceptions(timer: &LoadedTimer) -> bool
    ensures { result ≡ has_exceptions timer.now }
{
    !timer.exceptions().is_empty()
}

/// Returns the flaw in the guard of the service that the timer starts.
fn started_flaw<T: Tree>(
    alloc: Global,
    tree: &mut T,
    index: &UnitIndex,
    is_user: bool,
    timer: &LoadedTimer,
) -> Result<Option<GuardFlaw>, AllocError>
    ensures known { IfOk result (λ flaw. (machine : Machine) (search_path : List (List ℕ)) → T.shows tree.new machine
        → IsIndexOf machine search_path index.now → flaw ≡ started_flaw machine search_path is_user timer.now) }
    ensures grows { (machine : Machine) → T.shows tree.new machine → T.shows tree.old machine }
{
    let unit = started_unit(alloc, timer.name.as_str(), timer.files.texts.as_slice())?;
    unit_flaw(alloc, tree, index, is_user, timer, unit.as_deref())
}

/// Returns the flaw in the guard of the unit that the timer starts. `unit` is `None` if that unit depends on the
/// running system.
fn unit_flaw<T: Tree>(
    alloc: Global,
    tree: &mut T,
    index: &UnitIndex,
    is_user: bool,
    timer: &LoadedTimer,
    unit: Option<&str>,
) -> Result<Option<GuardFlaw>, AllocError>
    ensures known { IfOk result (λ flaw. (machine : Machine) (search_path : List (List ℕ)) → T.shows tree.new machine
        → IsIndexOf machine search_path index.now → flaw
        ≡ unit_flaw machine (folders_for search_path timer.now.files.texts.items) is_user (string_bytes timer.now.name) (option_map (λ unit. unit.now) unit.entry)) }
    ensures grows { (machine : Machine) → T.shows tree.new machine → T.shows tree.old machine }
{
    match unit {
        Some(unit) => service_flaw(alloc, tree, index, is_user, timer, service_stem(unit)),
        None => Ok(None),
    }
}

/// Returns the flaw in the guard of the service with this stem. Returns `None` if there is no service, or no flaw.
fn service_flaw<T: Tree>(
    alloc: Global,
    tree: &mut T,
    index: &UnitIndex,
    is_user: bool,
    timer: &LoadedTimer,
    stem: Option<&str>,
) -> Result<Option<GuardFlaw>, AllocError>
    ensures known { IfOk result (λ flaw. (machine : Machine) (search_path : List (List ℕ)) → T.shows tree.new machine
        → IsIndexOf machine search_path index.now → flaw
        ≡ service_flaw machine (folders_for search_path timer.now.files.texts.items) is_user (string_bytes timer.now.name) (option_map (λ stem. stem.now) stem.entry)) }
    ensures grows { (machine : Machine) → T.shows tree.new machine → T.shows tree.old machine }
{
    match stem {
        Some(stem) => {
            let guard = guard_of(alloc, tree, index, is_user, timer, stem)?;
            Ok(flaw_by(guard))
        }
        None => Ok(None),
    }
}

fn flaw_by(guard: Guard) -> Option<GuardFlaw>
    ensures { result ≡ flaw_by guard }
{
    match guard {
        Guard::Asks => None,
        Guard::Missing => Some(GuardFlaw::Missing),
        Guard::Unknown => Some(GuardFlaw::Unknown),
        Guard::FailureAccepted => Some(GuardFlaw::FailureAccepted),
    }
}

/// Returns the guard of the service with this stem, which the timer starts.
fn guard_of<T: Tree>(
    alloc: Global,
    tree: &mut T,
    index: &UnitIndex,
    is_user: bool,
    timer: &LoadedTimer,
    stem: &str,
) -> Result<Guard, AllocError>
    ensures known { IfOk result (λ guard. (machine : Machine) (search_path : List (List ℕ)) → T.shows tree.new machine
        → IsIndexOf machine search_path index.now → guard
        ≡ guard_on machine (folders_for search_path timer.now.files.texts.items) is_user (string_bytes timer.now.name) stem.now) }
    ensures grows { (machine : Machine) → T.shows tree.new machine → T.shows tree.old machine }
{
    let name = timer.name.as_str();
    match own_elsewhere(index, timer.files.texts.as_slice()) {
        Some(own) => guard_in_folder(alloc, tree, folder_of(own), is_user, name, stem),
        None => service_guard(alloc, tree, index, is_user, name, stem),
    }
}

/// Returns the path of the first of these files, a timer's own file, unless it is in a folder of the search path.
fn own_elsewhere<'f>(index: &UnitIndex, files: &'f [UnitText]) -> Option<&'f str>
    ensures { (machine : Machine) (search_path : List (List ℕ)) → IsIndexOf machine search_path index.now
        → option_map (λ own. own.now) result ≡ own_elsewhere search_path files.now }
{
    if is_in_search_path(index, files) {
        return None;
    }
    match files.first() {
        Some(own) => Some(own.path.as_str()),
        None => None,
    }
}

/// Returns the guard of the service with this stem, if the search path has only this folder. `timer` is the name of the
/// timer that starts the service.
fn guard_in_folder<T: Tree>(
    alloc: Global,
    tree: &mut T,
    folder: &str,
    is_user: bool,
    timer: &str,
    stem: &str,
) -> Result<Guard, AllocError>
    ensures known { IfOk result (λ guard. (machine : Machine) → T.shows tree.new machine
        → guard ≡ guard_on machine (folder.now ∷ []) is_user timer.now stem.now) }
    ensures grows { (machine : Machine) → T.shows tree.new machine → T.shows tree.old machine }
{
    let folder = String::from_str(alloc, folder)?;
    let index = UnitIndex::read(alloc, tree, std::slice::from_ref(&folder))?;
    service_guard(alloc, tree, &index, is_user, timer, stem)
}

/// Returns the stem of a service, or `None` if the unit isn't a service.
fn service_stem(unit: &str) -> Option<&str>
    ensures { option_map (λ stem. stem.now) result ≡ service_stem unit.now }
{
    unit.strip_suffix(".service")
}

/// Returns the folder that has the file at a path.
fn folder_of(path: &str) -> &str
    ensures { result.now ≡ folder_of path.now }
{
    match before_last_byte(path, '/') {
        Some(folder) => or_root(folder),
        None => ".",
    }
}

fn or_root(folder: &str) -> &str
    ensures { result.now ≡ or_root folder.now }
{
    if folder.is_empty() { "/" } else { folder }
}
