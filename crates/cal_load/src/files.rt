//! Reading the files that a user names, each once.

ghost use Rattle.std.specs.Prelude.{◌≡◌, ◌≢◌, ◌∷◌, ◌++◌, ℕ, List, [], All, Some, IfOk, OnOk, map, string_bytes};
ghost use Rattle.std.specs.List.{flat_map};
ghost use Rattle.cal_machine.specs.rules.Machine.{Machine};
ghost use Rattle.cal_unit_index.specs.rules.DropIns.{drop_ins};
ghost use Rattle.cal_unit_index.specs.rules.Files.{file_at, shown_file, shown_unit_text};
ghost use Rattle.cal_unit_index.specs.rules.Index.{IsIndexOf};
ghost use Rattle.cal_unit_index.specs.rules.Names.{names_on};
ghost use Rattle.cal_unit_index.specs.rules.UnitName.{unit_stem};
ghost use Rattle.cal_unit_index.specs.rules.Units.{Unit as FoundUnit, unit_on};
ghost use Rattle.cal_unit_index.specs.rules.Units.Unit.{FoundAt};
ghost use Rattle.cal_load.specs.rules.AllFiles.{AreTextsAt, AreTried, HasTried, IsTaken, all_paths, folder_paths, paths_by, paths_if_valid, paths_in, paths_of_unit, taken_of, text_of, unit_paths};
ghost use Rattle.cal_load.specs.rules.AllTargets.{text_names_at};
ghost use Rattle.cal_load.specs.rules.AllUnits.{IsPathReason, is_absent_reason};
ghost use Rattle.cal_load.specs.rules.FileFaults.{AreFaultsOf, AreLostAlso, AreReadAlso, AreReadFor, Cause, IsCause, all_lost, cause_of, cause_of_unit, lost_as, lost_by, lost_drop_in, lost_drop_ins, lost_file, lost_folder, lost_listed, lost_named, lost_of_unit, lost_texts};
ghost use Rattle.cal_load.specs.rules.Loaded.{IsStoredOn};

use crate::fault::{TargetLoadFault, push_lost, push_once, push_path};
use crate::folder::{FolderUnits, units_in_folder};
use crate::names::{Units, texts_in, units_in};
use crate::paths::{is_folder, is_path, path_in, without_slashes};
use crate::target_fault::{TargetFault, TargetReason};
use cal_machine::Tree;
use cal_unit_index::{
    DropIns, FileRead, Reason, Unit, UnitFile, UnitIndex, UnitText, UnitType, find_drop_ins,
    find_unit, names_of, read_file, unit_stem,
};
use std::alloc::{AllocError, Global};
use std::collections::{BTreeMap, BTreeSet};

/// What [`load_files`] returns: files that aren't parsed yet, and the errors about what couldn't be read.
#[derive(Drop)]
pub struct LoadedFiles {
    /// The files in the order of the targets, each once. Their bytes needn't be UTF-8.
    pub files: Vec<UnitText>,
    /// The units, files and folders that couldn't be read, each with the reason. No error is in the list twice: if
    /// several targets lead to the same file and it can't be used, there is one error, with the first of these targets.
    /// If a drop-in or a folder can't be read, the target in the error is the path of this drop-in or folder.
    pub faults: Vec<TargetFault>,
}

/// Reads the files that the targets stand for, in the order of the targets, each file once. Without a target, reads the
/// files of the timers that other units start and, if `is_all`, also those of all other timers in the search path.
///
/// `index` is the index of the search path. A target is a path or the name of a timer, as for [`crate::load_timers`]:
///
/// - A timer stands for its file and its drop-ins. A masked timer has no files.
/// - A folder stands for all its files with the suffix `.timer` or `.conf`, sorted by name, and then for the drop-ins
///   of its timers. To find these, the folder is read as if it were the only folder of the search path
///   (systemd.unit(5), Unit File Load Path).
/// - Any other file stands for itself.
///
/// What can't be read is in [`LoadedFiles::faults`], and all other files are still read. A folder `NAME.wants` or
/// `NAME.requires` that can't be read is an error if there is no target, or if it is in a folder that is a target. A
/// drop-in that is a folder, or a link to nothing, is skipped. Without a target, a unit that has no file is skipped,
/// too.
///
/// Fails only if allocation fails.
pub fn load_files<T: Tree>(
    alloc: Global,
    tree: &mut T,
    index: &UnitIndex,
    targets: &[&str],
    is_all: bool,
) -> Result<LoadedFiles, AllocError>
    ensures known { IfOk result (λ loaded. (machine : Machine) → T.shows tree.new machine
        → All (IsStoredOn machine) loaded.files.items) }
    ensures whole { targets.now ≡ [] → IfOk result (λ loaded. (machine : Machine) (search_path : List (List ℕ)) → T.shows tree.new machine
        → IsIndexOf machine search_path index.now → AreTextsAt machine (all_paths machine search_path is_all) loaded.files.items
        × AreFaultsOf (all_lost machine search_path is_all) loaded.faults.items) }
    ensures targets { targets.now ≢ [] → IfOk result (λ loaded. (machine : Machine) (search_path : List (List ℕ)) → T.shows tree.new machine
        → IsIndexOf machine search_path index.now
        → AreTextsAt machine (flat_map (paths_by machine search_path) (map (λ target. target.now) targets.now)) loaded.files.items
        × AreFaultsOf (flat_map (lost_by machine search_path) (map (λ target. target.now) targets.now)) loaded.faults.items) }
    ensures grows { (machine : Machine) → T.shows tree.new machine → T.shows tree.old machine }
{
    if targets.is_empty() {
        return all_files(alloc, tree, index, is_all);
    }
    let mut reading = Reading::new(alloc);
    for target in targets {
        reading.take_target(alloc, tree, index, target)?;
    }
    Ok(reading.loaded)
}

/// Reads the files of the timers that other units start and, if `is_all`, also of all others in the search path.
fn all_files<T: Tree>(
    alloc: Global,
    tree: &mut T,
    index: &UnitIndex,
    is_all: bool,
) -> Result<LoadedFiles, AllocError>
    ensures known { IfOk result (λ loaded. (machine : Machine) → T.shows tree.new machine
        → All (IsStoredOn machine) loaded.files.items) }
    ensures whole { IfOk result (λ loaded. (machine : Machine) (search_path : List (List ℕ)) → T.shows tree.new machine
        → IsIndexOf machine search_path index.now → AreTextsAt machine (all_paths machine search_path is_all) loaded.files.items
        × AreFaultsOf (all_lost machine search_path is_all) loaded.faults.items) }
    ensures grows { (machine : Machine) → T.shows tree.new machine → T.shows tree.old machine }
{
    let Units {
        stems,
        started: _,
        unreadable,
    } = units_in(alloc, tree, index, is_all)?;
    let mut reading = Reading::new(alloc);
    reading.take_units(alloc, tree, index, stems)?;
    push_lost(&mut reading.loaded.faults, unreadable)?;
    Ok(reading.loaded)
}

/// What is at a path.
#[derive(Clone, Copy)]
enum Taken {
    /// A file with text, which was read.
    Read,
    /// An empty file or a device, or a link to one: it masks the unit.
    Masked,
    /// Nothing, or something that can't be read as a file, for this reason.
    Unusable(Reason),
}

/// The files that were read so far.
#[derive(Drop)]
struct Reading {
    /// The paths at which reading was tried, each with what is there.
    seen: BTreeMap<String, Taken>,
    loaded: LoadedFiles,
}

impl Reading {
    fn new(alloc: Global) -> Reading
        ensures no_faults { result.loaded.faults.items ≡ [] }
        ensures tried { (machine : Machine) → AreTried machine [] result }
    {
        Reading {
            seen: BTreeMap::new(alloc),
            loaded: LoadedFiles {
                files: Vec::new(alloc),
                faults: Vec::new(alloc),
            },
        }
    }

    /// Reads the files of the units with these stems.
    fn take_units<T: Tree>(
        &mut self,
        alloc: Global,
        tree: &mut T,
        index: &UnitIndex,
        stems: BTreeSet<String>,
    ) -> Result<(), AllocError>
        ensures tried { OnOk result ((machine : Machine) → T.shows tree.new machine → HasTried machine self.old → HasTried machine self.new) }
        ensures read { OnOk result ((machine : Machine) (search_path : List (List ℕ)) → T.shows tree.new machine → IsIndexOf machine search_path index.now
            → AreReadAlso machine (flat_map (unit_paths machine search_path) (map string_bytes stems.keys))
            (flat_map (lost_listed machine search_path) (map string_bytes stems.keys)) self.old self.new) }
        ensures grows { (machine : Machine) → T.shows tree.new machine → T.shows tree.old machine }
    {
        for stem in stems {
            self.take_listed(alloc, tree, index, stem.as_str())?;
        }
        Ok(())
    }

    /// Reads the files of the unit with this stem. Skips a unit that has no file, for example because its file is a
    /// link to nothing.
    fn take_listed<T: Tree>(
        &mut self,
        alloc: Global,
        tree: &mut T,
        index: &UnitIndex,
        stem: &str,
    ) -> Result<(), AllocError>
        ensures tried { OnOk result ((machine : Machine) → T.shows tree.new machine → HasTried machine self.old → HasTried machine self.new) }
        ensures read { OnOk result ((machine : Machine) (search_path : List (List ℕ)) → T.shows tree.new machine → IsIndexOf machine search_path index.now
            → AreReadAlso machine (unit_paths machine search_path stem.now) (lost_listed machine search_path stem.now) self.old self.new) }
        ensures grows { (machine : Machine) → T.shows tree.new machine → T.shows tree.old machine }
    {
        let Some(reason) = self.take_unit(alloc, tree, index, stem)? else {
            return Ok(());
        };
        if is_absent(&reason) {
            return Ok(());
        }
        let target = format!(in alloc; "{stem}.timer")?;
        push_once(&mut self.loaded.faults, TargetFault { target, reason })
    }

    /// Reads the files that a target stands for. If the target is a name, these are the files of a unit. If it is a
    /// path, they are the files of the folder at this path, or the single file there.
    fn take_target<T: Tree>(
        &mut self,
        alloc: Global,
        tree: &mut T,
        index: &UnitIndex,
        target: &str,
    ) -> Result<(), AllocError>
        ensures tried { OnOk result ((machine : Machine) → T.shows tree.new machine → HasTried machine self.old → HasTried machine self.new) }
        ensures read { OnOk result ((machine : Machine) (search_path : List (List ℕ)) → T.shows tree.new machine → IsIndexOf machine search_path index.now
            → AreReadAlso machine (paths_by machine search_path target.now) (lost_by machine search_path target.now) self.old self.new) }
        ensures grows { (machine : Machine) → T.shows tree.new machine → T.shows tree.old machine }
    {
        if !is_path(target) {
            return self.take_named(alloc, tree, index, target);
        }
        let path = without_slashes(target);
        if is_folder(alloc, tree, path)? {
            return self.take_folder(alloc, tree, path);
        }
        self.take_path(alloc, tree, path)
    }

    /// Reads the files of the unit with this name.
    fn take_named<T: Tree>(
        &mut self,
        alloc: Global,
        tree: &mut T,
        index: &UnitIndex,
        name: &str,
    ) -> Result<(), AllocError>
        ensures tried { OnOk result ((machine : Machine) → T.shows tree.new machine → HasTried machine self.old → HasTried machine self.new) }
        ensures read { OnOk result ((machine : Machine) (search_path : List (List ℕ)) → T.shows tree.new machine → IsIndexOf machine search_path index.now
            → AreReadAlso machine (paths_if_valid machine search_path (unit_stem name.now)) (lost_named machine search_path name.now) self.old self.new) }
        ensures grows { (machine : Machine) → T.shows tree.new machine → T.shows tree.old machine }
    {
        let Some(stem) = unit_stem(name) else {
            return push_named(alloc, &mut self.loaded.faults, name, TargetReason::NotFound);
        };
        match self.take_unit(alloc, tree, index, stem)? {
            Some(reason) => push_named(alloc, &mut self.loaded.faults, name, reason),
            None => Ok(()),
        }
    }

    /// Reads the files of the unit that is found for the stem `asked`. Returns why the unit can't be read, or `None` if
    /// it was read or is masked.
    fn take_unit<T: Tree>(
        &mut self,
        alloc: Global,
        tree: &mut T,
        index: &UnitIndex,
        asked: &str,
    ) -> Result<Option<TargetReason>, AllocError>
        ensures tried { OnOk result ((machine : Machine) → T.shows tree.new machine → HasTried machine self.old → HasTried machine self.new) }
        ensures read { IfOk result (λ reason. (machine : Machine) (search_path : List (List ℕ)) → T.shows tree.new machine → IsIndexOf machine search_path index.now
            → AreReadFor machine (unit_paths machine search_path asked.now) (lost_of_unit machine search_path asked.now (unit_on machine search_path asked.now))
            (cause_of_unit machine (unit_on machine search_path asked.now)) reason self.old self.new) }
        ensures grows { (machine : Machine) → T.shows tree.new machine → T.shows tree.old machine }
    {
        match find_unit(alloc, index, asked)? {
            Unit::NotFound => Ok(Some(TargetReason::NotFound)),
            Unit::Template => Ok(Some(TargetReason::Template)),
            Unit::Endless => Ok(Some(TargetReason::TooManyAliases)),
            Unit::Found(file) => self.take_found(alloc, tree, index, asked, &file),
        }
    }

    /// Reads the file of a unit and, unless the file masks the unit, its drop-ins. `asked` is the stem by which the
    /// unit was asked for. Returns the reason if the file can't be used.
    fn take_found<T: Tree>(
        &mut self,
        alloc: Global,
        tree: &mut T,
        index: &UnitIndex,
        asked: &str,
        file: &UnitFile,
    ) -> Result<Option<TargetReason>, AllocError>
        ensures tried { OnOk result ((machine : Machine) → T.shows tree.new machine → HasTried machine self.old → HasTried machine self.new) }
        ensures read { IfOk result (λ reason. (machine : Machine) (search_path : List (List ℕ)) (unit : FoundUnit) → T.shows tree.new machine
            → IsIndexOf machine search_path index.now
            → FoundAt (string_bytes file.now.path) (string_bytes file.now.file) (string_bytes file.now.stem) ≡ unit
            → AreReadFor machine (paths_of_unit machine search_path asked.now unit) (lost_of_unit machine search_path asked.now unit)
            (cause_of_unit machine unit) reason self.old self.new) }
        ensures grows { (machine : Machine) → T.shows tree.new machine → T.shows tree.old machine }
    {
        match self.take(alloc, tree, file.path.as_str())? {
            Taken::Read => {
                self.take_drop_ins(alloc, tree, index, asked, file)?;
                Ok(None)
            }
            Taken::Masked => Ok(None),
            Taken::Unusable(reason) => {
                let reason = unusable(alloc, file.path.as_str(), reason)?;
                Ok(Some(reason))
            }
        }
    }

    /// Reads the drop-ins of a unit under all its names. `asked` is the stem by which the unit was asked for.
    fn take_drop_ins<T: Tree>(
        &mut self,
        alloc: Global,
        tree: &mut T,
        index: &UnitIndex,
        asked: &str,
        file: &UnitFile,
    ) -> Result<(), AllocError>
        ensures tried { OnOk result ((machine : Machine) → T.shows tree.new machine → HasTried machine self.old → HasTried machine self.new) }
        ensures read { OnOk result ((machine : Machine) (search_path : List (List ℕ)) → T.shows tree.new machine
            → IsIndexOf machine search_path index.now
            → let names = names_on machine search_path (string_bytes file.now.file) (string_bytes file.now.stem) asked.now in
            AreReadAlso machine (drop_ins machine search_path UnitType.Timer names) (lost_drop_ins machine search_path names) self.old self.new) }
        ensures grows { (machine : Machine) → T.shows tree.new machine → T.shows tree.old machine }
    {
        let names = names_of(alloc, index, file, asked)?;
        let DropIns { paths, unread } = find_drop_ins(
            alloc,
            tree,
            index,
            UnitType::Timer,
            names.as_slice(),
        )?;
        push_lost(&mut self.loaded.faults, unread)?;
        for path in paths {
            self.take_drop_in(alloc, tree, path)?;
        }
        Ok(())
    }

    /// Reads the drop-in at a path. Skips a folder or a link to nothing, as systemd does.
    fn take_drop_in<T: Tree>(
        &mut self,
        alloc: Global,
        tree: &mut T,
        path: String,
    ) -> Result<(), AllocError>
        ensures read { OnOk result ((machine : Machine) → T.shows tree.new machine
            → AreReadAlso machine (string_bytes path ∷ []) (lost_drop_in machine (string_bytes path)) self.old self.new) }
        ensures grows { (machine : Machine) → T.shows tree.new machine → T.shows tree.old machine }
    {
        match self.take(alloc, tree, path.as_str())? {
            Taken::Read => Ok(()),
            Taken::Masked => Ok(()),
            Taken::Unusable(Reason::Missing) => Ok(()),
            Taken::Unusable(Reason::IsFolder) => Ok(()),
            Taken::Unusable(Reason::TooLarge) => {
                push_path(&mut self.loaded.faults, path, Reason::TooLarge)
            }
            Taken::Unusable(Reason::Unreadable(why)) => {
                push_path(&mut self.loaded.faults, path, Reason::Unreadable(why))
            }
        }
    }

    /// Reads the timers and drop-ins in a folder, and then the drop-ins of its units, which are in its subfolders.
    fn take_folder<T: Tree>(
        &mut self,
        alloc: Global,
        tree: &mut T,
        folder: &str,
    ) -> Result<(), AllocError>
        ensures read { OnOk result ((machine : Machine) → T.shows tree.new machine
            → AreReadAlso machine (folder_paths machine folder.now) (lost_folder machine folder.now) self.old self.new) }
        ensures grows { (machine : Machine) → T.shows tree.new machine → T.shows tree.old machine }
    {
        self.take_texts(alloc, tree, folder)?;
        let FolderUnits {
            index,
            stems,
            unread,
        } = units_in_folder(alloc, tree, folder)?;
        self.take_units(alloc, tree, &index, stems)?;
        push_lost(&mut self.loaded.faults, unread)
    }

    /// Reads the timers and drop-ins in a folder.
    fn take_texts<T: Tree>(
        &mut self,
        alloc: Global,
        tree: &mut T,
        folder: &str,
    ) -> Result<(), AllocError>
        ensures read { OnOk result ((machine : Machine) → T.shows tree.new machine
            → AreReadAlso machine (paths_in folder.now (text_names_at machine folder.now)) (lost_texts machine folder.now) self.old self.new) }
        ensures grows { (machine : Machine) → T.shows tree.new machine → T.shows tree.old machine }
    {
        let names = match texts_in(alloc, tree, folder) {
            Ok(names) => names,
            Err(TargetLoadFault::Target(reason)) => {
                return push_named(alloc, &mut self.loaded.faults, folder, reason);
            }
            Err(TargetLoadFault::NoMemory) => return Err(AllocError),
        };
        for name in names {
            let path = path_in(alloc, folder, name.as_str())?;
            self.take_path(alloc, tree, path.as_str())?;
        }
        Ok(())
    }

    /// Reads the file at a path. If it can't be used, adds an error whose target is the path.
    fn take_path<T: Tree>(
        &mut self,
        alloc: Global,
        tree: &mut T,
        path: &str,
    ) -> Result<(), AllocError>
        ensures read { OnOk result ((machine : Machine) → T.shows tree.new machine
            → AreReadAlso machine (path.now ∷ []) (lost_file machine path.now) self.old self.new) }
        ensures grows { (machine : Machine) → T.shows tree.new machine → T.shows tree.old machine }
    {
        match self.take(alloc, tree, path)? {
            Taken::Read => Ok(()),
            Taken::Masked => Ok(()),
            Taken::Unusable(reason) => {
                let reason = unusable(alloc, path, reason)?;
                push_named(alloc, &mut self.loaded.faults, path, reason)
            }
        }
    }

    /// Returns what is at a path. Reads the file there, unless this has been tried before.
    fn take<T: Tree>(
        &mut self,
        alloc: Global,
        tree: &mut T,
        path: &str,
    ) -> Result<Taken, AllocError>
        ensures tried { IfOk result (λ taken. (machine : Machine) → T.shows tree.new machine
            → IsTaken machine path.now taken self.old self.new) }
        ensures faults { OnOk result (self.new.loaded.faults.items ≡ self.old.loaded.faults.items) }
        ensures grows { (machine : Machine) → T.shows tree.new machine → T.shows tree.old machine }
    {
        if let Some(taken) = self.seen.get(path) {
            return Ok(*taken);
        }
        let found = read_file(alloc, tree, path)?;
        self.push_file(alloc, path, found)
    }

    /// Records what was found at a path that hasn't been tried before, and adds the file if there is one.
    fn push_file(&mut self, alloc: Global, path: &str, found: FileRead) -> Result<Taken, AllocError>
        ensures taken { IfOk result (λ taken. taken ≡ taken_of (shown_file found)) }
        ensures tried { OnOk result ((machine : Machine) (paths : List (List ℕ)) → shown_file found ≡ file_at machine path.now
            → AreTried machine paths self.old → AreTried machine (paths ++ path.now ∷ []) self.new) }
        ensures faults { OnOk result (self.new.loaded.faults.items ≡ self.old.loaded.faults.items) }
    {
        let taken = taken_of(&found);
        self.seen.insert(String::from_str(alloc, path)?, taken)?;
        push_text(alloc, &mut self.loaded.files, path, found)?;
        Ok(taken)
    }
}

fn taken_of(found: &FileRead) -> Taken
    ensures { result ≡ taken_of (shown_file found.now) }
{
    match found {
        FileRead::Mask => Taken::Masked,
        FileRead::Unusable(reason) => Taken::Unusable(*reason),
        FileRead::Text(_) => Taken::Read,
    }
}

/// Appends the text that was found at a path, if there is one.
fn push_text(
    alloc: Global,
    files: &mut Vec<UnitText>,
    path: &str,
    found: FileRead,
) -> Result<(), AllocError>
    ensures { OnOk result (map shown_unit_text files.new.items
        ≡ map shown_unit_text files.old.items ++ text_of path.now (shown_file found)) }
{
    match found {
        FileRead::Mask => Ok(()),
        FileRead::Unusable(_) => Ok(()),
        FileRead::Text(bytes) => {
            let path = String::from_str(alloc, path)?;
            files.push(UnitText { path, bytes })?;
            Ok(())
        }
    }
}

/// Returns the reason to report for a target if its own file, at this path, can't be used.
fn unusable(alloc: Global, path: &str, reason: Reason) -> Result<TargetReason, AllocError>
    ensures { IfOk result (λ found. IsCause (cause_of path.now reason) found) }
{
    match reason {
        Reason::Missing => Ok(TargetReason::NotFound),
        Reason::Unreadable(why) => path_reason(alloc, path, Reason::Unreadable(why)),
        Reason::IsFolder => path_reason(alloc, path, Reason::IsFolder),
        Reason::TooLarge => path_reason(alloc, path, Reason::TooLarge),
    }
}

fn path_reason(alloc: Global, path: &str, reason: Reason) -> Result<TargetReason, AllocError>
    ensures { IfOk result (λ found. IsPathReason path.now reason found) }
{
    let path = String::from_str(alloc, path)?;
    Ok(TargetReason::Path(path, reason))
}

fn is_absent(reason: &TargetReason) -> bool
    ensures { result ≡ is_absent_reason reason.now }
{
    matches!(reason, TargetReason::NotFound)
}

/// Adds the error that the target with this name can't be read for this reason, unless the same error is there already.
fn push_named(
    alloc: Global,
    faults: &mut Vec<TargetFault>,
    name: &str,
    reason: TargetReason,
) -> Result<(), AllocError>
    ensures { OnOk result ((cause : Cause) → IsCause cause reason
        → AreLostAlso (lost_as name.now (Some cause)) faults.old.items faults.new.items) }
{
    let target = String::from_str(alloc, name)?;
    push_once(faults, TargetFault { target, reason })
}
