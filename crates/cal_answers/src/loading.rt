//! Loading what a question names.

ghost use Rattle.std.specs.Prelude.{◌≡◌, ◌∷◌, ◌++◌, ℕ, List, [], All, IfOk, OnOk, map, option_map, string_bytes};
ghost use Rattle.cal_cron.specs.computed.Translation.{exprs_in};
ghost use Rattle.cal_machine.specs.rules.Machine.{Machine};
ghost use Rattle.cal_unit_index.specs.rules.Index.{IsIndexOf};
ghost use Rattle.cal_crontabs.specs.rules.Crontabs.{AreCrontabsOn};
ghost use Rattle.cal_load.specs.rules.Expressions.{IsTimerOrReason};
ghost use Rattle.cal_load.specs.rules.Loaded.{IsStoredOn, IsTimerOn};
ghost use Rattle.cal_answers.specs.rules.Found.{AreAll, AreFilesOn, AreLintedOn, AreLoadedOn, AreMadeOf, AreTimersOn, HasAllFor, HasAllLinted, HasDue, HasUnits, IsDueOn, IsLoadedFor, IsSideOn, asks_all, is_entry_reason, is_invalid_entry};
ghost use Rattle.cal_answers.specs.rules.LintTargets.{AreFilesOf, crontab_targets, other_targets};

use crate::crontab_timers::load_crontab_timers;
use crate::found::LoadedByVerb;
use cal_crontabs::{
    Crontabs, is_crontab, is_path_start, load_crontab_files, load_crontabs, times_are_read,
};
use cal_load::{Loaded, LoadedFiles, TargetReason, load_expressions, load_files, load_timers};
use cal_machine::Tree;
use cal_timers_command::Question;
use cal_unit_index::UnitIndex;
use std::alloc::{AllocError, Global};

/// Loads what a question names. If `list`, `lint` or `between` names no timers, loads the timers that other units start
/// or, with `--all`, all timers in the search path. With `--cron`, the entries of crontabs are loaded, too. `index` is
/// the index of the search path, and `about` is the timer that `due` is about.
pub(crate) fn load_by_verb<'q, T: Tree>(
    alloc: Global,
    tree: &mut T,
    index: &UnitIndex,
    question: &'q Question,
    about: Option<&str>,
) -> Result<LoadedByVerb<'q>, AllocError>
    ensures question { IfOk result (IsLoadedFor question.entry.now) }
    ensures known { IfOk result (λ loaded. (machine : Machine) (search_path : List (List ℕ)) → T.shows tree.new machine
        → IsIndexOf machine search_path index.now → AreLoadedOn machine search_path (option_map (λ name. name.now) about.entry) loaded) }
    ensures whole { IfOk result (AreAll (λ machine search_path. T.shows tree.new machine × IsIndexOf machine search_path index.now)
        (asks_all question.entry.now) (option_map (λ name. name.now) about.entry)) }
    ensures grows { (machine : Machine) → T.shows tree.new machine → T.shows tree.old machine }
{
    match question {
        Question::List {
            timers,
            is_all,
            is_cron,
        } => {
            let entries = load_crontab_timers(alloc, tree, *is_cron)?;
            Ok(LoadedByVerb::List {
                timers: load_named(alloc, tree, index, timers.as_slice(), *is_all)?,
                named: timers.as_slice(),
                is_all: *is_all,
                entries,
            })
        }
        Question::Show { timers, count } => Ok(LoadedByVerb::Show {
            timers: load_named(alloc, tree, index, timers.as_slice(), false)?,
            named: timers.as_slice(),
            count: *count,
        }),
        Question::Between {
            from,
            to,
            timers,
            is_all,
            is_cron,
        } => {
            let entries = load_crontab_timers(alloc, tree, *is_cron)?;
            Ok(LoadedByVerb::Between {
                timers: load_named(alloc, tree, index, timers.as_slice(), *is_all)?,
                named: timers.as_slice(),
                from: from.as_str(),
                to: to.as_str(),
                entries,
            })
        }
        Question::Lint {
            timers,
            is_all,
            is_strict,
        } => {
            let (files, whole, crontabs) = load_linted(
                alloc,
                tree,
                index,
                timers.as_slice(),
                *is_all,
            )?;
            Ok(LoadedByVerb::Lint {
                files,
                timers: whole,
                crontabs,
                named: timers.as_slice(),
                is_strict: *is_strict,
            })
        }
        Question::Same { one, other } => {
            let one = one.as_str();
            let other = other.as_str();
            let (first, second) = load_sides(alloc, tree, index, one, other)?;
            Ok(LoadedByVerb::Same {
                first,
                one,
                second,
                other,
            })
        }
        Question::Next { expressions, count } => {
            let expressions = expressions.as_slice();
            let timers = load_named_expressions(alloc, tree, expressions)?;
            Ok(LoadedByVerb::Next {
                timers,
                expressions,
                count: *count,
            })
        }
        Question::Due { timer } => Ok(LoadedByVerb::Due {
            timer: load_due(alloc, tree, index, about)?,
            named: timer.as_deref(),
        }),
        Question::Cron { crontabs } => Ok(LoadedByVerb::Cron {
            crontabs: load_named_crontabs(alloc, tree, crontabs.as_slice())?,
            named: crontabs.as_slice(),
        }),
    }
}

/// Loads the timers with these names or, if there are none, the timers that other units start or, if `is_all` is `true`,
/// all timers.
fn load_named<T: Tree>(
    alloc: Global,
    tree: &mut T,
    index: &UnitIndex,
    named: &[String],
    is_all: bool,
) -> Result<Loaded, AllocError>
    ensures known { IfOk result (λ loaded. (machine : Machine) (search_path : List (List ℕ)) → T.shows tree.new machine
        → IsIndexOf machine search_path index.now → AreTimersOn machine search_path loaded) }
    ensures whole { IfOk result (HasAllFor (λ machine search_path. T.shows tree.new machine × IsIndexOf machine search_path index.now) is_all
        (map string_bytes named.now)) }
    ensures grows { (machine : Machine) → T.shows tree.new machine → T.shows tree.old machine }
{
    let texts = texts_of(alloc, named)?;
    let loaded = load_timers(alloc, tree, index, texts.as_slice(), is_all)?;
    Ok(loaded)
}

/// Loads one timer that has all these expressions.
fn load_named_expressions<T: Tree>(
    alloc: Global,
    tree: &mut T,
    expressions: &[String],
) -> Result<Loaded, AllocError>
    ensures known { IfOk result (λ loaded. (machine : Machine) → T.shows tree.new machine
        → AreMadeOf machine (map string_bytes expressions.now) loaded) }
    ensures outcome { IfOk result (IsTimerOrReason (λ machine. T.shows tree.new machine) (map string_bytes expressions.now)) }
    ensures grows { (machine : Machine) → T.shows tree.new machine → T.shows tree.old machine }
{
    let texts = texts_of(alloc, expressions)?;
    let loaded = load_expressions(alloc, tree, texts.as_slice())?;
    Ok(loaded)
}

/// Loads the crontabs that these files and lines stand for or, if `named` is empty, those of the machine.
fn load_named_crontabs<T: Tree>(
    alloc: Global,
    tree: &mut T,
    named: &[String],
) -> Result<Crontabs, AllocError>
    ensures known { IfOk result (λ crontabs. (machine : Machine) → T.shows tree.new machine
        → AreCrontabsOn machine (map string_bytes named.now) crontabs) }
    ensures grows { (machine : Machine) → T.shows tree.new machine → T.shows tree.old machine }
{
    let texts = texts_of(alloc, named)?;
    let crontabs = load_crontabs(alloc, tree, texts.as_slice())?;
    Ok(crontabs)
}

/// Loads the named files, the timers made of them, and the named crontabs. If `named` is empty, loads the timers that
/// other units start or, if `is_all` is `true`, all timers, with their files.
fn load_linted<T: Tree>(
    alloc: Global,
    tree: &mut T,
    index: &UnitIndex,
    named: &[String],
    is_all: bool,
) -> Result<(LoadedFiles, Loaded, Crontabs), AllocError>
    ensures known { IfOk result (λ all. (machine : Machine) (search_path : List (List ℕ)) → T.shows tree.new machine
        → IsIndexOf machine search_path index.now → AreLintedOn machine search_path (map string_bytes named.now) all.0 all.1 all.2) }
    ensures whole { IfOk result (λ all. HasAllLinted (λ machine search_path. T.shows tree.new machine × IsIndexOf machine search_path index.now) is_all
        (map string_bytes named.now) all.1) }
    ensures files { IfOk result (λ all. (machine : Machine) (search_path : List (List ℕ)) → T.shows tree.new machine
        → IsIndexOf machine search_path index.now → AreFilesOn machine search_path is_all (map string_bytes named.now) all.0) }
    ensures grows { (machine : Machine) → T.shows tree.new machine → T.shows tree.old machine }
{
    let texts = texts_of(alloc, named)?;
    let linted = load_lint_targets(alloc, tree, index, texts.as_slice(), is_all)?;
    Ok(linted)
}

/// Like [`load_linted`], for string slices.
fn load_lint_targets<T: Tree>(
    alloc: Global,
    tree: &mut T,
    index: &UnitIndex,
    targets: &[&str],
    is_all: bool,
) -> Result<(LoadedFiles, Loaded, Crontabs), AllocError>
    ensures known { IfOk result (λ all. (machine : Machine) (search_path : List (List ℕ)) → T.shows tree.new machine
        → IsIndexOf machine search_path index.now → AreLintedOn machine search_path (map (λ text. text.now) targets.now) all.0 all.1 all.2) }
    ensures whole { IfOk result (λ all. HasAllLinted (λ machine search_path. T.shows tree.new machine × IsIndexOf machine search_path index.now) is_all
        (map (λ text. text.now) targets.now) all.1) }
    ensures files { IfOk result (λ all. (machine : Machine) (search_path : List (List ℕ)) → T.shows tree.new machine
        → IsIndexOf machine search_path index.now → AreFilesOn machine search_path is_all (map (λ text. text.now) targets.now) all.0) }
    ensures grows { (machine : Machine) → T.shows tree.new machine → T.shows tree.old machine }
{
    if targets.is_empty() {
        let linted = load_lint_units(alloc, tree, index, is_all)?;
        return Ok(linted);
    }
    times_are_read();
    let split = split_targets(alloc, tree, targets)?;
    let crontabs = load_crontab_files(alloc, tree, split.crontabs.as_slice())?;
    let files = load_other_files(alloc, tree, index, split.others.as_slice(), is_all)?;
    let timers = load_whole_timers(alloc, tree, index, split.others.as_slice(), is_all)?;
    Ok((files, timers, crontabs))
}

/// Loads the timers that other units start or, if `is_all` is `true`, all timers, with their files. Loads no crontabs.
fn load_lint_units<T: Tree>(
    alloc: Global,
    tree: &mut T,
    index: &UnitIndex,
    is_all: bool,
) -> Result<(LoadedFiles, Loaded, Crontabs), AllocError>
    ensures known { IfOk result (λ all. (machine : Machine) (search_path : List (List ℕ)) → T.shows tree.new machine
        → IsIndexOf machine search_path index.now → AreLintedOn machine search_path [] all.0 all.1 all.2) }
    ensures whole { IfOk result (λ all. HasUnits (λ machine search_path. T.shows tree.new machine × IsIndexOf machine search_path index.now) is_all all.1) }
    ensures files { IfOk result (λ all. (machine : Machine) (search_path : List (List ℕ)) → T.shows tree.new machine
        → IsIndexOf machine search_path index.now → AreFilesOn machine search_path is_all [] all.0) }
    ensures grows { (machine : Machine) → T.shows tree.new machine → T.shows tree.old machine }
{
    times_are_read();
    let crontabs = load_crontab_files(alloc, tree, &[])?;
    let files = load_files(alloc, tree, index, &[], is_all)?;
    let timers = load_timers(alloc, tree, index, &[], is_all)?;
    Ok((files, timers, crontabs))
}

/// The targets of `lint`.
#[derive(Drop)]
struct LintTargets<'t> {
    crontabs: Vec<&'t str>,
    others: Vec<&'t str>,
}

/// Separates the crontabs from the other targets.
fn split_targets<'t, T: Tree>(
    alloc: Global,
    tree: &mut T,
    targets: &[&'t str],
) -> Result<LintTargets<'t>, AllocError>
    ensures known { IfOk result (λ split. (machine : Machine) → T.shows tree.new machine
        → (map (λ text. text.now) split.crontabs.items ≡ crontab_targets exprs_in machine (map (λ text. text.now) targets.now))
        × (map (λ text. text.now) split.others.items ≡ other_targets exprs_in machine (map (λ text. text.now) targets.now))) }
    ensures grows { (machine : Machine) → T.shows tree.new machine → T.shows tree.old machine }
{
    let mut split = LintTargets {
        crontabs: Vec::new(alloc),
        others: Vec::new(alloc),
    };
    for target in targets {
        add_target(alloc, tree, &mut split, target)?;
    }
    Ok(split)
}

fn add_target<'t, T: Tree>(
    alloc: Global,
    tree: &mut T,
    split: &mut LintTargets<'t>,
    target: &'t str,
) -> Result<(), AllocError>
    ensures known { OnOk result ((machine : Machine) → T.shows tree.new machine
        → (map (λ text. text.now) split.new.crontabs.items ≡ map (λ text. text.now) split.old.crontabs.items ++ crontab_targets exprs_in machine (target.now ∷ []))
        × (map (λ text. text.now) split.new.others.items ≡ map (λ text. text.now) split.old.others.items ++ other_targets exprs_in machine (target.now ∷ []))) }
    ensures grows { (machine : Machine) → T.shows tree.new machine → T.shows tree.old machine }
{
    if is_crontab(alloc, tree, target)? {
        split.crontabs.push(target)?;
    } else {
        split.others.push(target)?;
    }
    Ok(())
}

/// Loads the files of these targets, which are not crontabs. If there are none, loads nothing.
fn load_other_files<T: Tree>(
    alloc: Global,
    tree: &mut T,
    index: &UnitIndex,
    targets: &[&str],
    is_all: bool,
) -> Result<LoadedFiles, AllocError>
    ensures known { IfOk result (λ files. (machine : Machine) → T.shows tree.new machine
        → All (IsStoredOn machine) files.files.items) }
    ensures files { IfOk result (λ files. (machine : Machine) (search_path : List (List ℕ)) → T.shows tree.new machine
        → IsIndexOf machine search_path index.now → AreFilesOf machine search_path (map (λ text. text.now) targets.now) files) }
    ensures grows { (machine : Machine) → T.shows tree.new machine → T.shows tree.old machine }
{
    if targets.is_empty() {
        return Ok(no_files(alloc));
    }
    let files = load_files(alloc, tree, index, targets, is_all)?;
    Ok(files)
}

fn no_files(alloc: Global) -> LoadedFiles
    ensures files { result.files.items ≡ [] }
    ensures faults { result.faults.items ≡ [] }
{
    LoadedFiles {
        files: Vec::new(alloc),
        faults: Vec::new(alloc),
    }
}

/// Loads the timers with these names, except names that end in `.conf`: a drop-in is not a timer by itself. If there are
/// no other names, loads nothing.
fn load_whole_timers<T: Tree>(
    alloc: Global,
    tree: &mut T,
    index: &UnitIndex,
    targets: &[&str],
    is_all: bool,
) -> Result<Loaded, AllocError>
    ensures known { IfOk result (λ loaded. (machine : Machine) (search_path : List (List ℕ)) → T.shows tree.new machine
        → IsIndexOf machine search_path index.now → All (IsTimerOn machine search_path) loaded.timers.items) }
    ensures none { targets.now ≡ [] → IfOk result (λ loaded. loaded.timers.items ≡ []) }
    ensures grows { (machine : Machine) → T.shows tree.new machine → T.shows tree.old machine }
{
    let timers: Vec<&str> = targets
        .iter()
        .copied()
        .filter(|target| !target.ends_with(".conf"))
        .collect(alloc)?;
    if timers.is_empty() {
        return Ok(Loaded {
            timers: Vec::new(alloc),
            masked: Vec::new(alloc),
            faults: Vec::new(alloc),
            started: None,
        });
    }
    load_timers(alloc, tree, index, timers.as_slice(), is_all)
}

/// Loads the two timers that `same` compares.
fn load_sides<T: Tree>(
    alloc: Global,
    tree: &mut T,
    index: &UnitIndex,
    one: &str,
    other: &str,
) -> Result<(Loaded, Loaded), AllocError>
    ensures known { IfOk result (λ both. (machine : Machine) (search_path : List (List ℕ)) → T.shows tree.new machine
        → IsIndexOf machine search_path index.now → IsSideOn machine search_path one.now both.0 × IsSideOn machine search_path other.now both.1) }
    ensures grows { (machine : Machine) → T.shows tree.new machine → T.shows tree.old machine }
{
    let first = load_side(alloc, tree, index, one)?;
    let second = load_side(alloc, tree, index, other)?;
    Ok((first, second))
}

/// Loads a unit or a file. If neither exists, loads the target as an expression or as an entry of a crontab. If that
/// fails too, returns the error about the entry if the target has the form of one, and otherwise the error about the
/// unit or the file.
fn load_side<T: Tree>(
    alloc: Global,
    tree: &mut T,
    index: &UnitIndex,
    target: &str,
) -> Result<Loaded, AllocError>
    ensures known { IfOk result (λ loaded. (machine : Machine) (search_path : List (List ℕ)) → T.shows tree.new machine
        → IsIndexOf machine search_path index.now → IsSideOn machine search_path target.now loaded) }
    ensures grows { (machine : Machine) → T.shows tree.new machine → T.shows tree.old machine }
{
    let loaded = load_timers(alloc, tree, index, &[target], false)?;
    match loaded.faults.first() {
        Some(fault) if matches!(fault.reason, TargetReason::NotFound) => {
            let expression = load_expressions(alloc, tree, &[target])?;
            if expression.timers.is_empty() && !is_invalid_entry(target, &expression) {
                Ok(loaded)
            } else {
                Ok(expression)
            }
        }
        _ => Ok(loaded),
    }
}

/// Returns whether loading a target failed because it is an invalid entry of a crontab. A target that begins like a
/// path is never an entry.
fn is_invalid_entry(target: &str, loaded: &Loaded) -> bool
    ensures { result ≡ is_invalid_entry target.now loaded.now }
{
    match loaded.faults.first() {
        Some(fault) => is_entry_reason(&fault.reason) && !is_path_start(target.as_bytes()),
        None => false,
    }
}

fn is_entry_reason(reason: &TargetReason) -> bool
    ensures { result ≡ is_entry_reason reason.now }
{
    matches!(reason, TargetReason::CrontabEntry(_))
}

/// Loads the timer that `due` is about, if there is one.
fn load_due<T: Tree>(
    alloc: Global,
    tree: &mut T,
    index: &UnitIndex,
    about: Option<&str>,
) -> Result<Option<Loaded>, AllocError>
    ensures known { IfOk result (λ timer. (machine : Machine) (search_path : List (List ℕ)) → T.shows tree.new machine
        → IsIndexOf machine search_path index.now → IsDueOn machine search_path (option_map (λ name. name.now) about.entry) timer) }
    ensures whole { IfOk result (HasDue (λ machine search_path. T.shows tree.new machine × IsIndexOf machine search_path index.now)
        (option_map (λ name. name.now) about.entry)) }
    ensures grows { (machine : Machine) → T.shows tree.new machine → T.shows tree.old machine }
{
    let Some(name) = about else {
        return Ok(None);
    };
    let timer = load_timers(alloc, tree, index, &[name], false)?;
    Ok(Some(timer))
}

pub(crate) fn texts_of(alloc: Global, texts: &[String]) -> Result<Vec<&str>, AllocError>
    ensures { IfOk result (λ copies. map (λ text. text.now) copies.items ≡ map string_bytes texts.now) }
{
    let mut copies = Vec::new(alloc);
    for text in texts {
        copies.push(text.as_str())?;
    }
    Ok(copies)
}
