//! Problems of a timer's settings that depend on its name, on its other settings or on other units: settings that
//! systemd ignores, and a unit to start that doesn't exist.

ghost use Rattle.std.specs.Prelude.{◌≡◌, ◌++◌, ◌∷◌, ℕ, [], IfOk, List, OnOk, map, string_bytes};
ghost use Rattle.std.specs.List.{flat_map, list_any};
ghost use Rattle.std.specs.Option.{option_map};
ghost use Rattle.cal_machine.specs.rules.Machine.{Machine};
ghost use Rattle.cal_machine.specs.rules.Places.{is_slash};
ghost use Rattle.cal_timers_text.specs.rules.Messages.{missing_unit_message};
ghost use Rattle.cal_load.specs.rules.IgnoredSettings.{ignored_settings_in};
ghost use Rattle.cal_unit_index.specs.rules.Files.{shown_unit_text};
ghost use Rattle.cal_unit_index.specs.rules.Index.{IsIndexOf};
ghost use Rattle.cal_answers.specs.rules.LintCandidates.{error_about, shown_candidate};
ghost use Rattle.cal_answers.specs.rules.LintTimers.{if_missing, ignored_setting, missing_error, missing_unit, missing_units};
ghost use Rattle.cal_answers.specs.rules.LintUnits.{is_directly_in, is_in_folders, is_name_below};

use crate::candidates::{Candidate, Unless, push_error_about, push_in_line};
use crate::timer_problems::place_in;
use cal_lint::ProblemKind;
use cal_load::{
    IgnoredSetting, LoadedTimer, TimerFiles, ignored_settings, is_missing, started_unit,
};
use cal_machine::after_prefix;
use cal_timers_text::{ignored_setting_words, missing_unit_words};
use cal_unit_index::{UnitIndex, UnitText};
use std::alloc::{AllocError, Global};

/// Appends a warning about each setting that systemd ignores in the files of the timer with this name.
pub(crate) fn add_ignored_settings(
    alloc: Global,
    timer: &str,
    files: &TimerFiles,
    found: &mut Vec<Candidate>,
) -> Result<(), AllocError>
    ensures { OnOk result (map shown_candidate found.new.items ≡ map shown_candidate found.old.items
        ++ map (ignored_setting timer.now files.now) (ignored_settings_in timer.now (map shown_unit_text files.now.texts.items))) }
{
    let settings = ignored_settings(alloc, timer, files.texts.as_slice())?;
    add_settings(alloc, timer, files, settings.as_slice(), found)
}

fn add_settings(
    alloc: Global,
    timer: &str,
    files: &TimerFiles,
    settings: &[IgnoredSetting],
    found: &mut Vec<Candidate>,
) -> Result<(), AllocError>
    ensures { OnOk result (map shown_candidate found.new.items
        ≡ map shown_candidate found.old.items ++ map (ignored_setting timer.now files.now) settings.now) }
{
    for setting in settings {
        add_setting(alloc, timer, files, *setting, found)?;
    }
    Ok(())
}

/// Appends a warning about a setting that systemd ignores. `lint` leaves out the warning if the setting's line has a
/// problem already.
fn add_setting(
    alloc: Global,
    timer: &str,
    files: &TimerFiles,
    setting: IgnoredSetting,
    found: &mut Vec<Candidate>,
) -> Result<(), AllocError>
    ensures { OnOk result (map shown_candidate found.new.items
        ≡ map shown_candidate found.old.items ++ ignored_setting timer.now files.now setting ∷ []) }
{
    let (path, line) = place_in(timer, files, setting.number);
    let message = ignored_setting_words(alloc, setting.why)?;
    push_in_line(
        alloc,
        found,
        ProblemKind::Warning,
        path,
        line,
        message.as_str(),
        Unless::ProblemInLine,
    )
}

/// Appends an error about each timer in the search path whose unit to start has no file there, since systemd refuses to
/// start such a timer. `index` is the index of the search path. Appends nothing if any part of the search path can't be
/// read.
pub(crate) fn add_missing_units(
    alloc: Global,
    index: &UnitIndex,
    timers: &[LoadedTimer],
    found: &mut Vec<Candidate>,
) -> Result<(), AllocError>
    ensures { OnOk result ((machine : Machine) (search_path : List (List ℕ)) → IsIndexOf machine search_path index.now
        → map shown_candidate found.new.items ≡ map shown_candidate found.old.items ++ missing_units machine search_path timers.now) }
{
    if !index.unreadable().is_empty() {
        return Ok(());
    }
    add_missing(alloc, index, timers, found)
}

fn add_missing(
    alloc: Global,
    index: &UnitIndex,
    timers: &[LoadedTimer],
    found: &mut Vec<Candidate>,
) -> Result<(), AllocError>
    ensures { OnOk result ((machine : Machine) (search_path : List (List ℕ)) → IsIndexOf machine search_path index.now
        → map shown_candidate found.new.items ≡ map shown_candidate found.old.items
        ++ flat_map (λ timer. missing_error timer (missing_unit machine search_path timer)) timers.now) }
{
    for timer in timers {
        let unit = missing_unit(alloc, index, timer)?;
        add_if_missing(alloc, timer, unit, found)?;
    }
    Ok(())
}

/// Appends an error about a timer whose unit to start is missing.
fn add_if_missing(
    alloc: Global,
    timer: &LoadedTimer,
    unit: Option<String>,
    found: &mut Vec<Candidate>,
) -> Result<(), AllocError>
    ensures { OnOk result (map shown_candidate found.new.items
        ≡ map shown_candidate found.old.items ++ missing_error timer.now (option_map string_bytes unit)) }
{
    match unit {
        Some(unit) => add_missing_unit(alloc, timer.name.as_str(), unit.as_str(), found),
        None => Ok(()),
    }
}

fn add_missing_unit(
    alloc: Global,
    timer: &str,
    unit: &str,
    found: &mut Vec<Candidate>,
) -> Result<(), AllocError>
    ensures { OnOk result (map shown_candidate found.new.items
        ≡ map shown_candidate found.old.items ++ error_about timer.now (missing_unit_message unit.now) ∷ []) }
{
    let message = missing_unit_words(alloc, unit)?;
    push_error_about(alloc, found, timer, message.as_str())
}

/// Returns the unit that a timer of the search path starts, if the unit has no file in any folder of the search path.
fn missing_unit(
    alloc: Global,
    index: &UnitIndex,
    timer: &LoadedTimer,
) -> Result<Option<String>, AllocError>
    ensures { IfOk result (λ unit. (machine : Machine) (search_path : List (List ℕ)) → IsIndexOf machine search_path index.now
        → option_map string_bytes unit ≡ missing_unit machine search_path timer.now) }
{
    if !is_in_search_path(index, timer.files.texts.as_slice()) {
        return Ok(None);
    }
    let unit = started_unit(alloc, timer.name.as_str(), timer.files.texts.as_slice())?;
    if_missing(alloc, index, unit)
}

/// Returns the unit if it has no file in any folder of the search path.
fn if_missing(
    alloc: Global,
    index: &UnitIndex,
    unit: Option<String>,
) -> Result<Option<String>, AllocError>
    ensures { IfOk result (λ missing. (machine : Machine) (search_path : List (List ℕ)) → IsIndexOf machine search_path index.now
        → option_map string_bytes missing ≡ if_missing machine search_path (option_map string_bytes unit)) }
{
    let Some(unit) = unit else {
        return Ok(None);
    };
    if is_missing(alloc, index, unit.as_str())? {
        return Ok(Some(unit));
    }
    Ok(None)
}

/// Returns whether the first of these files, a timer's own file, is in a folder of the search path. If it isn't, a path
/// or a folder was given as a target, and the unit that the timer starts can be in any folder.
pub(crate) fn is_in_search_path(index: &UnitIndex, files: &[UnitText]) -> bool
    ensures { (machine : Machine) (search_path : List (List ℕ)) → IsIndexOf machine search_path index.now
        → result ≡ is_in_folders search_path files.now }
{
    match files.first() {
        Some(own) => index.folders().iter().any(|folder| is_directly_in(
            folder.path.as_str(),
            own.path.as_str(),
        )),
        None => false,
    }
}

/// Returns whether the path is directly in the folder, and not in a subfolder.
#[tactic(auto, unfolding(crate::specs::rules::LintUnits::is_directly_in, cal_machine::specs::rules::Prefix::after_prefix))]
fn is_directly_in(folder: &str, path: &str) -> bool
    ensures { result ≡ is_directly_in folder.now path.now }
{
    match after_prefix(folder, path) {
        Some(rest) => is_name_below(rest.as_bytes()),
        None => false,
    }
}

/// Returns whether `rest` is a slash followed by a text without slashes.
fn is_name_below(rest: &[u8]) -> bool
    ensures { result ≡ is_name_below rest.now }
{
    match rest.split_first() {
        Some((first, name)) => *first == b'/' && !has_slash(name),
        None => false,
    }
}

fn has_slash(text: &[u8]) -> bool
    ensures { result ≡ list_any is_slash text.now }
{
    text.iter().any(|byte| *byte == b'/')
}
