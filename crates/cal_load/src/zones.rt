//! The zones that the expressions of a timer name.

ghost use Rattle.std.specs.Prelude.{◌≡◌, ◌∷◌, ◌++◌, [], List, IfOk, OnOk, filter, map, not, option_copied, string_bytes};
ghost use Rattle.std.specs.List.{find};
ghost use Rattle.std.specs.Option.{option_to_list};
ghost use Rattle.std.specs.Result.{IfErr};
ghost use Rattle.cal_spec.specs.rules.Fields.{Fields};
ghost use Rattle.cal_zone_files.specs.rules.ZoneFiles.{HasZonesOf};
ghost use Rattle.cal_timer.specs.rules.TimerEntries.{TimerLine as Entry};
ghost use Rattle.cal_timer.specs.rules.TimerView.{shown};
ghost use Rattle.cal_machine.specs.rules.Machine.{Machine};
ghost use Rattle.cal_load.specs.rules.CalendarZones.{HasZonesFor};
ghost use Rattle.cal_load.specs.rules.Expressions.{names_zone};
ghost use Rattle.cal_load.specs.rules.Loaded.{HasNames, IsTried, IsZoned, is_loaded, zone_names_in};
ghost use Rattle.cal_load.specs.rules.TextFaults.{IsZonesError};
ghost use Rattle.cal_load.specs.rules.UnusableZones.{has_zone};

use crate::calendar::Calendar;
use cal_machine::Tree;
use cal_timer::TimerLine;
use cal_zone::ZoneTable;
use cal_zone_files::{FileReason, ZonesFault, load_zone, load_zones};
use std::alloc::{AllocError, Global};

/// A line with an expression or an exception that is ignored because the zone that it names can't be used.
#[derive(Drop)]
pub struct UnusableZone {
    /// The number of the line. Line numbers continue from file to file.
    pub number: u32,
    /// The name of the zone.
    pub name: String,
    /// Why the zone file can't be used.
    pub reason: FileReason,
}

/// The zones of a calendar that were loaded, and the lines whose zone can't be used.
#[derive(Drop)]
pub(crate) struct CalendarZones {
    pub(crate) zones: ZoneTable,
    /// First the lines with expressions, and then those with exceptions, each in order.
    pub(crate) unusable: Vec<UnusableZone>,
}

/// Loads the zones that a calendar names, one by one. As in systemd, a line whose zone can't be used is ignored: it is
/// removed from the calendar, and the other lines stay. Fails only if allocation fails.
pub(crate) fn load_calendar_zones<T: Tree>(
    alloc: Global,
    tree: &mut T,
    calendar: &mut Calendar,
) -> Result<CalendarZones, AllocError>
    ensures known { IfOk result (λ found. (machine : Machine) → T.shows tree.new machine
        → IsZoned machine calendar.old calendar.new found) }
    ensures zoned { IfOk result (λ found. HasZonesFor found.zones calendar.new) }
    ensures grows { (machine : Machine) → T.shows tree.new machine → T.shows tree.old machine }
{
    let mut found = CalendarZones {
        zones: ZoneTable::new(alloc),
        unusable: Vec::new(alloc),
    };
    try_zones(alloc, tree, &mut found, calendar.lines())?;
    try_zones(alloc, tree, &mut found, calendar.exceptions())?;
    let CalendarZones {
        zones,
        mut unusable,
    } = found;
    calendar.retain_zoned(&zones);
    retain_unloaded(&mut unusable, &zones);
    Ok(CalendarZones { zones, unusable })
}

/// Loads the zones that these lines name. Adds each line whose zone can't be used to the unusable zones.
fn try_zones<T: Tree>(
    alloc: Global,
    tree: &mut T,
    found: &mut CalendarZones,
    lines: &[TimerLine],
) -> Result<(), AllocError>
    ensures tried { OnOk result ((machine : Machine) (before : List (Entry Fields)) → T.shows tree.new machine
        → IsTried machine before found.old → IsTried machine (before ++ map shown lines.now) found.new) }
    ensures grows { (machine : Machine) → T.shows tree.new machine → T.shows tree.old machine }
{
    for line in lines {
        try_zone(alloc, tree, found, line)?;
    }
    Ok(())
}

/// Loads the zone that the line names, if it names one. If the zone can't be used, adds the line to the unusable zones.
fn try_zone<T: Tree>(
    alloc: Global,
    tree: &mut T,
    found: &mut CalendarZones,
    line: &TimerLine,
) -> Result<(), AllocError>
    ensures tried { OnOk result ((machine : Machine) (before : List (Entry Fields)) → T.shows tree.new machine
        → IsTried machine before found.old → IsTried machine (before ++ shown line.now ∷ []) found.new) }
    ensures grows { (machine : Machine) → T.shows tree.new machine → T.shows tree.old machine }
{
    let Some(name) = line.expr.zone_name() else {
        return Ok(());
    };
    let number = line.number;
    match load_zone(alloc, tree, &mut found.zones, name) {
        Ok(()) => Ok(()),
        Err(ZonesFault::OfZone(name, reason)) => {
            found.unusable.push(UnusableZone {
                number,
                name,
                reason,
            })?;
            Ok(())
        }
        // Of the other errors, only the one for running out of memory can occur. The rest are about the local zone,
        // which isn't looked up here.
        Err(_) => Err(AllocError),
    }
}

/// Removes the lines that name a zone which isn't in the table.
pub(crate) fn retain_zoned(lines: &mut Vec<TimerLine>, zones: &ZoneTable)
    ensures { map shown lines.new.items ≡ filter (has_zone zones.now) (map shown lines.old.items) }
{
    lines.retain(|line| has_zone(zones, line));
}

fn has_zone(zones: &ZoneTable, line: &TimerLine) -> bool
    ensures { result ≡ has_zone zones.now (shown line.now) }
{
    match line.expr.zone_name() {
        Some(name) => zones.find(name).is_some(),
        None => true,
    }
}

/// Removes the lines whose zone is in the table after all: if its file was replaced in the meantime, the zone may have
/// been loaded for a later line.
fn retain_unloaded(unusable: &mut Vec<UnusableZone>, zones: &ZoneTable)
    ensures { unusable.new.items ≡ filter (λ line. not (is_loaded zones.now line)) unusable.old.items }
{
    unusable.retain(|line| !is_loaded(zones, line));
}

fn is_loaded(zones: &ZoneTable, line: &UnusableZone) -> bool
    ensures { result ≡ is_loaded zones.now line.now }
{
    zones.find(line.name.as_str()).is_some()
}

/// Loads the zones that these lines name. Fails if one of them can't be loaded.
pub(crate) fn load_named_zones<T: Tree>(
    alloc: Global,
    tree: &mut T,
    lines: &[TimerLine],
) -> Result<ZoneTable, ZonesFault>
    ensures names { IfOk result (λ table. HasNames table (zone_names_in (map shown lines.now))) }
    ensures zones { IfOk result (λ table. (machine : Machine) → T.shows tree.new machine → HasZonesOf machine table) }
    ensures fault { IfErr result (λ fault. (machine : Machine) → T.shows tree.new machine
        → IsZonesError machine (zone_names_in (map shown lines.now)) fault) }
    ensures grows { (machine : Machine) → T.shows tree.new machine → T.shows tree.old machine }
{
    let mut names = Vec::new(alloc);
    push_zone_names(alloc, &mut names, lines)?;
    load_zones(alloc, tree, names.as_slice())
}

/// Appends the names of the zones that the lines name.
fn push_zone_names(
    alloc: Global,
    names: &mut Vec<String>,
    lines: &[TimerLine],
) -> Result<(), AllocError>
    ensures { OnOk result (map string_bytes names.new.items
        ≡ map string_bytes names.old.items ++ zone_names_in (map shown lines.now)) }
{
    for line in lines {
        push_zone_name(alloc, names, line.expr.zone_name())?;
    }
    Ok(())
}

/// Appends the name of the zone that a line names. `name` is `None` if the line names no zone.
fn push_zone_name(
    alloc: Global,
    names: &mut Vec<String>,
    name: Option<&str>,
) -> Result<(), AllocError>
    ensures { OnOk result (map string_bytes names.new.items
        ≡ map string_bytes names.old.items ++ option_to_list (option_copied name.entry)) }
{
    if let Some(name) = name {
        names.push(String::from_str(alloc, name)?)?;
    }
    Ok(())
}

/// Returns the first line that names this zone.
pub(crate) fn first_with_zone<'l>(lines: &'l [TimerLine], zone: &str) -> Option<&'l TimerLine>
    ensures { option_copied result ≡ find (λ line. names_zone zone.now (shown line)) lines.now }
{
    lines.iter().find(|line| is_named(line, zone))
}

fn is_named(line: &TimerLine, zone: &str) -> bool
    ensures { result ≡ names_zone zone.now (shown line.now) }
{
    match line.expr.zone_name() {
        Some(name) => name == zone,
        None => false,
    }
}
