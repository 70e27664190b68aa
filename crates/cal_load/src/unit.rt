//! Reading a timer from its files.

ghost use Rattle.std.specs.Prelude.{◌≡◌, ◌∷◌, ◌++◌, ℕ, List, None, Some, IfOk, OnOk, map, string_bytes};
ghost use Rattle.cal_machine.specs.rules.Machine.{Machine};
ghost use Rattle.std.specs.Result.{IfErr};
ghost use Rattle.cal_unit_index.specs.rules.DropIns.{drop_ins};
ghost use Rattle.cal_unit_index.specs.rules.Files.{UnitText as FileText, file_at, shown_unit_text, texts_at};
ghost use Rattle.cal_unit_index.specs.rules.Index.{IsIndexOf};
ghost use Rattle.cal_unit_index.specs.rules.Names.{names_on};
ghost use Rattle.cal_unit_index.specs.rules.Units.{unit_on};
ghost use Rattle.cal_load.specs.rules.Notes.{note_text, starts_unit};
ghost use Rattle.cal_load.specs.rules.Position.{AreFirstLines};
ghost use Rattle.cal_load.specs.rules.TextFaults.{IsReadFault, IsTextFault};
ghost use Rattle.cal_load.specs.rules.AllTargets.{IsReadAt};
ghost use Rattle.cal_load.specs.rules.AllUnits.{IsFileFault, IsTimerFileFault, IsUnitFault, IsUnusableFault, unit_name};
ghost use Rattle.cal_load.specs.rules.Loaded.{IsCalendarBy, IsStartedBy, IsTimerReadFrom, broken_of_files, broken_own, ignored_of_files, noted_in_files, timer_assignments, unclear_of_files, unit_texts};
ghost use Rattle.cal_load.specs.rules.LoadedTarget.{IsFoundTarget, IsLoadedFile, IsLoadedUnit, IsOwnFile};

use crate::calendar::{Calendar, CalendarLines, IgnoredLine, read_calendar};
use crate::fault::TargetLoadFault;
use crate::loaded::{LoadedTarget, LoadedTimer};
use crate::notes::{can_start, notes_of, shown_notes};
use crate::readable::BrokenLine;
use crate::resolved::{Resolved, resolve};
use crate::target_fault::TargetReason;
use crate::texts::{ReadFiles, append, read_files};
use crate::timer_files::TimerFiles;
use crate::zones::{CalendarZones, load_calendar_zones};
use cal_machine::Tree;
use cal_unit_index::{
    DropInTexts, DropIns, FileRead, Reason, Unit, UnitFault, UnitFile, UnitIndex, UnitText,
    UnitType, find_drop_ins, find_unit, names_of, read_drop_ins, read_file,
};
use std::alloc::{AllocError, Global};

/// What was read in the files of a timer.
#[derive(Drop)]
struct ParsedFiles {
    first_lines: Vec<u32>,
    broken: Vec<Option<BrokenLine>>,
    calendar: Calendar,
    ignored: Vec<IgnoredLine>,
    /// Whether an expression that depends on more than the timer's name, or a setting that isn't an expression,
    /// starts the timer's unit.
    is_started: bool,
    notes: Vec<String>,
}

/// Reads the unit that is found for this stem, with its drop-ins. Adds to `lost` the drop-ins and drop-in folders that
/// can't be read.
pub(crate) fn read_unit<T: Tree>(
    alloc: Global,
    tree: &mut T,
    index: &UnitIndex,
    asked: &str,
    lost: &mut Vec<UnitFault>,
) -> Result<LoadedTarget, TargetLoadFault>
    ensures known { IfOk result (λ found. (machine : Machine) (search_path : List (List ℕ)) → T.shows tree.new machine
        → IsIndexOf machine search_path index.now → IsLoadedUnit machine search_path asked.now found) }
    ensures fault { IfErr result (λ fault. (machine : Machine) (search_path : List (List ℕ)) → T.shows tree.new machine
        → IsIndexOf machine search_path index.now → IsUnitFault machine search_path asked.now (unit_on machine search_path asked.now) fault) }
    ensures grows { (machine : Machine) → T.shows tree.new machine → T.shows tree.old machine }
{
    match find_unit(alloc, index, asked)? {
        Unit::NotFound => Err(TargetLoadFault::Target(TargetReason::NotFound)),
        Unit::Template => Err(TargetLoadFault::Target(TargetReason::Template)),
        Unit::Endless => Err(TargetLoadFault::Target(TargetReason::TooManyAliases)),
        Unit::Found(file) => read_found(alloc, tree, index, asked, file, lost),
    }
}

/// Reads the unit with this file and its drop-ins. `asked` is the stem by which the unit was asked for.
fn read_found<T: Tree>(
    alloc: Global,
    tree: &mut T,
    index: &UnitIndex,
    asked: &str,
    file: UnitFile,
    lost: &mut Vec<UnitFault>,
) -> Result<LoadedTarget, TargetLoadFault>
    ensures known { IfOk result (λ found. (machine : Machine) (search_path : List (List ℕ)) → T.shows tree.new machine
        → IsIndexOf machine search_path index.now → IsFoundTarget machine search_path (string_bytes file.path) (string_bytes file.file)
        (string_bytes file.stem) asked.now found) }
    ensures fault { IfErr result (λ fault. (machine : Machine) (search_path : List (List ℕ)) → T.shows tree.new machine
        → IsIndexOf machine search_path index.now → IsFileFault machine (file_at machine (string_bytes file.path)) (string_bytes file.path)
        (unit_name (string_bytes file.stem)) (unit_texts machine search_path (string_bytes file.path) (string_bytes file.file) (string_bytes file.stem) asked.now) fault) }
    ensures grows { (machine : Machine) → T.shows tree.new machine → T.shows tree.old machine }
{
    let Some(own) = read_own(alloc, tree, file.path.as_str())? else {
        return Ok(LoadedTarget::Masked);
    };
    let drop_ins = drop_in_texts(alloc, tree, index, asked, &file, lost)?;
    let files = with_drop_ins(alloc, own, drop_ins)?;
    let stem = file.stem.as_str();
    let name = format!(in alloc; "{stem}.timer")?;
    Ok(LoadedTarget::Timer(timer_from_files(alloc, tree, name, files)?))
}

/// Reads the file at a path. Returns `None` if the file masks a unit, because it is empty or a device. Fails with
/// [`TargetReason::NotFound`] if nothing is there.
fn read_own<T: Tree>(
    alloc: Global,
    tree: &mut T,
    path: &str,
) -> Result<Option<UnitText>, TargetLoadFault>
    ensures known { IfOk result (λ own. (machine : Machine) → T.shows tree.new machine → IsOwnFile machine path.now own) }
    ensures fault { IfErr result (λ fault. (machine : Machine) (name : List ℕ) (files : List FileText) → T.shows tree.new machine
        → IsFileFault machine (file_at machine path.now) path.now name files fault) }
    ensures grows { (machine : Machine) → T.shows tree.new machine → T.shows tree.old machine }
{
    match read_file(alloc, tree, path)? {
        FileRead::Mask => Ok(None),
        FileRead::Unusable(reason) => Err(own_fault(alloc, path, reason)),
        FileRead::Text(bytes) => {
            let path = String::from_str(alloc, path)?;
            Ok(Some(UnitText { path, bytes }))
        }
    }
}

/// Returns the error for a target whose own file can't be used.
fn own_fault(alloc: Global, path: &str, reason: Reason) -> TargetLoadFault
    ensures { IsUnusableFault reason path.now result }
{
    match reason {
        Reason::Missing => TargetLoadFault::Target(TargetReason::NotFound),
        Reason::Unreadable(why) => TargetLoadFault::at(alloc, path, Reason::Unreadable(why)),
        Reason::IsFolder => TargetLoadFault::at(alloc, path, Reason::IsFolder),
        Reason::TooLarge => TargetLoadFault::at(alloc, path, Reason::TooLarge),
    }
}

/// Reads the drop-ins of a unit. Adds to `lost` the drop-ins and drop-in folders that can't be read.
fn drop_in_texts<T: Tree>(
    alloc: Global,
    tree: &mut T,
    index: &UnitIndex,
    asked: &str,
    file: &UnitFile,
    lost: &mut Vec<UnitFault>,
) -> Result<Vec<UnitText>, AllocError>
    ensures known { IfOk result (λ texts. (machine : Machine) (search_path : List (List ℕ)) → T.shows tree.new machine
        → IsIndexOf machine search_path index.now → map shown_unit_text texts.items
        ≡ texts_at machine (drop_ins machine search_path UnitType.Timer
        (names_on machine search_path (string_bytes file.now.file) (string_bytes file.now.stem) asked.now))) }
    ensures grows { (machine : Machine) → T.shows tree.new machine → T.shows tree.old machine }
{
    let names = names_of(alloc, index, file, asked)?;
    let DropIns { paths, unread } = find_drop_ins(
        alloc,
        tree,
        index,
        UnitType::Timer,
        names.as_slice(),
    )?;
    let DropInTexts { texts, faults } = read_drop_ins(alloc, tree, paths.as_slice())?;
    append(lost, unread)?;
    append(lost, faults)?;
    Ok(texts)
}

/// Returns the unit's own file, and then its drop-ins.
fn with_drop_ins(
    alloc: Global,
    own: UnitText,
    drop_ins: Vec<UnitText>,
) -> Result<Vec<UnitText>, AllocError>
    ensures { IfOk result (λ files. files.items ≡ own ∷ drop_ins.items) }
{
    let mut files = vec![in alloc; own]?;
    append(&mut files, drop_ins)?;
    Ok(files)
}

/// Reads the timer in the file at a path, without drop-ins.
pub(crate) fn read_timer_file<T: Tree>(
    alloc: Global,
    tree: &mut T,
    path: &str,
) -> Result<LoadedTarget, TargetLoadFault>
    ensures known { IfOk result (λ found. (machine : Machine) → T.shows tree.new machine → IsLoadedFile machine found) }
    ensures fault { IfErr result (λ fault. (machine : Machine) → T.shows tree.new machine
        → IsTimerFileFault machine path.now fault) }
    ensures grows { (machine : Machine) → T.shows tree.new machine → T.shows tree.old machine }
    ensures read { IfOk result (λ found. (machine : Machine) → T.shows tree.new machine → IsReadAt machine path.now found) }
{
    let Some(own) = read_own(alloc, tree, path)? else {
        return Ok(LoadedTarget::Masked);
    };
    let name = String::from_str(alloc, path)?;
    let files = vec![in alloc; own]?;
    Ok(LoadedTarget::Timer(timer_from_files(alloc, tree, name, files)?))
}

/// Parses the files of a timer, and loads the zones that they name. Fails if systemd doesn't read the timer's own file
/// to the end, if a file is too large, or if no setting starts the timer's unit.
fn timer_from_files<T: Tree>(
    alloc: Global,
    tree: &mut T,
    name: String,
    files: Vec<UnitText>,
) -> Result<LoadedTimer, TargetLoadFault>
    ensures name { IfOk result (λ timer. timer.name ≡ name) }
    ensures read { IfOk result (λ timer. (machine : Machine) → T.shows tree.new machine
        → IsTimerReadFrom machine (map shown_unit_text files.items) timer) }
    ensures fault { IfErr result (λ fault. (machine : Machine) → T.shows tree.new machine
        → IsTextFault machine (string_bytes name) (map shown_unit_text files.items) fault) }
    ensures grows { (machine : Machine) → T.shows tree.new machine → T.shows tree.old machine }
{
    let mut parsed = parse_files(alloc, name.as_str(), files.as_slice())?;
    let found = load_calendar_zones(alloc, tree, &mut parsed.calendar)?;
    let ParsedFiles {
        first_lines,
        broken,
        calendar,
        ignored,
        is_started,
        notes,
    } = parsed;
    let CalendarZones { zones, unusable } = found;
    let files = TimerFiles {
        texts: files,
        first_lines,
        broken,
        ignored,
        unusable_zones: unusable,
    };
    if !is_started && calendar.lines().is_empty() {
        return Err(TargetLoadFault::Target(TargetReason::NothingToDo(name, files)));
    }
    Ok(LoadedTimer {
        name,
        files,
        calendar,
        zones,
        notes,
    })
}

/// Parses the files of the timer with this name. Fails if systemd doesn't read the timer's own file to the end, or if a
/// file is too large.
fn parse_files(
    alloc: Global,
    name: &str,
    files: &[UnitText],
) -> Result<ParsedFiles, TargetLoadFault>
    ensures whole { OnOk result (broken_own (map shown_unit_text files.now) ≡ None) }
    ensures broken { IfOk result (λ parsed. parsed.broken.items ≡ broken_of_files (map shown_unit_text files.now)) }
    ensures calendar { IfOk result (λ parsed. IsCalendarBy (timer_assignments name.now (map shown_unit_text files.now)) parsed.calendar) }
    ensures starts { IfOk result (λ parsed. IsStartedBy (unclear_of_files name.now (map shown_unit_text files.now))
        (starts_unit (timer_assignments name.now (map shown_unit_text files.now))) parsed.is_started) }
    ensures ignored { IfOk result (λ parsed. parsed.ignored.items ≡ ignored_of_files name.now (map shown_unit_text files.now)) }
    ensures numbered { IfOk result (λ parsed. AreFirstLines (map shown_unit_text files.now) parsed.first_lines.items) }
    ensures notes { IfOk result (λ parsed. map string_bytes parsed.notes.items
        ≡ map note_text (noted_in_files name.now (map shown_unit_text files.now))) }
    ensures fault { IfErr result (λ fault. (machine : Machine) → IsTextFault machine name.now (map shown_unit_text files.now) fault) }
{
    let ReadFiles {
        first_lines,
        assignments,
        broken,
    } = read_files(alloc, files)?;
    if let Some(line) = own_broken(broken.as_slice()) {
        return Err(broken_fault(alloc, files, line));
    }
    let Resolved {
        assignments,
        unclear,
    } = resolve(alloc, name, assignments)?;
    let CalendarLines { calendar, ignored } = read_calendar(alloc, assignments.as_slice())?;
    let notes = notes_of(alloc, name, assignments)?;
    let is_started = !unclear.is_empty() || can_start(notes.as_slice());
    let mut noted = unclear;
    append(&mut noted, notes)?;
    Ok(ParsedFiles {
        first_lines,
        broken,
        calendar,
        ignored,
        is_started,
        notes: shown_notes(alloc, noted.as_slice())?,
    })
}

/// Returns the line at which systemd stops reading the first of a unit's files, its own file.
fn own_broken(broken: &[Option<BrokenLine>]) -> Option<BrokenLine>
    ensures { (files : List FileText) → broken.now ≡ broken_of_files files → result ≡ broken_own files }
{
    match broken.first() {
        Some(line) => *line,
        None => None,
    }
}

/// Returns the error for a unit if systemd stops reading its own file, the first of `files`, at this line.
fn broken_fault(alloc: Global, files: &[UnitText], line: BrokenLine) -> TargetLoadFault
    ensures { broken_own (map shown_unit_text files.now) ≡ Some line → IsReadFault (map shown_unit_text files.now) result }
{
    match files.first() {
        Some(own) => TargetLoadFault::broken(alloc, own.path.as_str(), line),
        // This can't happen: a unit has a file of its own.
        None => TargetLoadFault::NoMemory,
    }
}
