//! The zones that the start and the end of a range name.

ghost use Rattle.std.specs.Prelude.{◌≡◌, IfOk, MatchOption, false, is_some};
ghost use Rattle.cal_civil.specs.rules.ZoneName.{is_zone_name};
ghost use Rattle.cal_machine.specs.rules.Machine.{Machine};
ghost use Rattle.cal_zone.specs.rules.ZoneTable.{zone_named};
ghost use Rattle.cal_zone_files.specs.declared.fault.FileReason.{FileReason};
ghost use Rattle.cal_zone_files.specs.rules.ZoneFiles.{HasZonesOf, IsReasonOn};
ghost use Rattle.cal_answers.specs.rules.RangeZones.{AreRangeZones, HasZoneAtEnd, IsTableOf, last_part, range_end, range_start};

use crate::local_clock::only;
use cal_bytes::last_word;
use cal_machine::Tree;
use cal_timers_command::Question;
use cal_zone::{ZoneName, ZoneTable};
use cal_zone_files::{ZonesFault, load_zones};
use std::alloc::{AllocError, Global};

/// The zones, besides UTC, that the start and the end of the range of `between` name.
#[derive(Drop)]
pub struct RangeZones {
    /// The zones for the start of the range.
    pub from: ZoneTable,
    /// The zones for the end of the range.
    pub before: ZoneTable,
}

impl RangeZones {
    /// Loads the zones that the start and the end of the range of `between` name. For other verbs, loads none. A zone
    /// whose file can't be used is left out, so parsing the start or the end of the range fails as for an unknown zone.
    pub(crate) fn load<T: Tree>(
        alloc: Global,
        tree: &mut T,
        question: &Question,
    ) -> Result<RangeZones, AllocError>
        ensures zones { IfOk result (λ zones. (machine : Machine) → T.shows tree.new machine
            → AreRangeZones machine question.entry.now zones) }
        ensures grows { (machine : Machine) → T.shows tree.new machine → T.shows tree.old machine }
    {
        let from = zone_at_end(alloc, tree, range_start(question))?;
        let before = zone_at_end(alloc, tree, range_end(question))?;
        Ok(RangeZones { from, before })
    }
}

/// Returns the text of the range's start if the verb is `between`, and otherwise an empty text.
fn range_start(question: &Question) -> &str
    ensures { result.now ≡ range_start question.entry.now }
{
    match question {
        Question::Between { from, .. } => from.as_str(),
        Question::List { .. }
        | Question::Show { .. }
        | Question::Lint { .. }
        | Question::Same { .. }
        | Question::Next { .. }
        | Question::Due { .. }
        | Question::Cron { .. } => "",
    }
}

/// Returns the text of the range's end if the verb is `between`, and otherwise an empty text.
fn range_end(question: &Question) -> &str
    ensures { result.now ≡ range_end question.entry.now }
{
    match question {
        Question::Between { to, .. } => to.as_str(),
        Question::List { .. }
        | Question::Show { .. }
        | Question::Lint { .. }
        | Question::Same { .. }
        | Question::Next { .. }
        | Question::Due { .. }
        | Question::Cron { .. } => "",
    }
}

/// If the last word of the text is the name of a zone, loads this zone.
fn zone_at_end<T: Tree>(alloc: Global, tree: &mut T, text: &str) -> Result<ZoneTable, AllocError>
    ensures zone { IfOk result (λ table. (machine : Machine) → T.shows tree.new machine → HasZoneAtEnd machine text.now table) }
    ensures grows { (machine : Machine) → T.shows tree.new machine → T.shows tree.old machine }
{
    let Some(name) = name_at_end(text) else {
        return Ok(ZoneTable::new(alloc));
    };
    let table = zone_if_usable(alloc, tree, name.as_str())?;
    Ok(table)
}

/// Returns the last word of the text if it has the form of a zone's name and isn't the only word.
#[tactic(auto, unfolding(cal_civil::specs::rules::ZoneName::is_zone_name))]
fn name_at_end(text: &str) -> Option<ZoneName<'_>>
    ensures { MatchOption result
        (is_zone_name (last_part text.now) ≡ false)
        (λ name. name.text.now ≡ last_part text.now) }
{
    let Some((_, word)) = last_word(text) else {
        return None;
    };
    ZoneName::new(word)
}

/// Loads the zone of this name, unless its file can't be used.
fn zone_if_usable<T: Tree>(alloc: Global, tree: &mut T, name: &str) -> Result<ZoneTable, AllocError>
    ensures known { IfOk result (λ table. (machine : Machine) → T.shows tree.new machine → HasZonesOf machine table) }
    ensures zone { IfOk result (λ table. (machine : Machine) → T.shows tree.new machine
        → is_some (zone_named table name.now) ≡ false → (reason : FileReason) × IsReasonOn machine name.now reason) }
    ensures grows { (machine : Machine) → T.shows tree.new machine → T.shows tree.old machine }
{
    let names = only(alloc, name)?;
    let loaded = load_zones(alloc, tree, names.as_slice());
    let table = table_of(alloc, loaded)?;
    Ok(table)
}

/// Returns the table that was loaded, or a table with only UTC if loading failed. Fails only if loading failed because
/// memory ran out.
fn table_of(alloc: Global, loaded: Result<ZoneTable, ZonesFault>) -> Result<ZoneTable, AllocError>
    ensures { IfOk result (IsTableOf loaded) }
{
    match loaded {
        Ok(table) => Ok(table),
        Err(ZonesFault::NoMemory) => Err(AllocError),
        Err(_) => Ok(ZoneTable::new(alloc)),
    }
}
