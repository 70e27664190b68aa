//! Which zone to use: the zone that an option names, or else the environment variable `TZ`, or else the machine's own
//! zone.

ghost use Rattle.std.specs.Prelude.{◌≡◌, IfOk, IfSome, option_map};
ghost use Rattle.cal_machine.specs.rules.Machine.{Machine};
ghost use Rattle.cal_zone.specs.rules.ZoneArgument.{HasOffset};
ghost use Rattle.cal_zone_files.specs.rules.LocalZone.{IsResultOf, argument_zone, machine_local_zone, unread_fault, zone_by_variable};

use crate::fault::{Origin, ZonesFault};
use crate::variable::variable_zone;
use cal_machine::{Tree, TreeFault};
use cal_zone::ZoneArgument;
use std::alloc::Global;

/// Finds which zone to use, as the local zone or as the zone in which times are shown, without reading the file of this
/// zone. Returns `None` for the machine's own zone, which [`load_machine_zone`](crate::load_machine_zone) loads.
///
/// If the option for the zone is given, its value `argument` decides ([`ZoneArgument::read`]).
///
/// Otherwise, if `by_variable` is `true` and the variable `TZ` is set, its value decides (tzset(3)). It can be a valid
/// POSIX rule; or, with or without a `:` in front, the name of a zone or the path of a file below
/// `/usr/share/zoneinfo`. If the value is empty or only `:`, the zone is UTC. If it is `/etc/localtime`, with or
/// without a `:` in front, the zone is the machine's.
///
/// Otherwise, the zone is the machine's.
///
/// Fails with [`ZonesFault::Unclear`] if the option or the variable decides and doesn't say which zone to use, with
/// [`ZonesFault::Unread`] if the variable can't be read or is not UTF-8, and with [`ZonesFault::NoMemory`] if
/// allocation fails.
pub fn find_local_zone<T: Tree>(
    alloc: Global,
    tree: &mut T,
    argument: Option<&str>,
    by_variable: bool,
) -> Result<Option<ZoneArgument>, ZonesFault>
    ensures zone { (machine : Machine) → T.shows tree.new machine
        → IsResultOf (machine_local_zone machine (option_map (λ text. text.now) argument.entry) by_variable) result }
    ensures offset { IfOk result (λ zone. IfSome zone HasOffset) }
    ensures grows { (machine : Machine) → T.shows tree.new machine → T.shows tree.old machine }
{
    match argument {
        Some(text) => argument_zone(alloc, text),
        None if by_variable => find_variable_zone(alloc, tree),
        None => Ok(None),
    }
}

/// Returns the zone that the option's value names.
fn argument_zone(alloc: Global, text: &str) -> Result<Option<ZoneArgument>, ZonesFault>
    ensures zone { IsResultOf (argument_zone text.now) result }
    ensures offset { IfOk result (λ zone. IfSome zone HasOffset) }
{
    match ZoneArgument::read(alloc, text)? {
        Some(zone) => Ok(Some(zone)),
        None => Err(ZonesFault::Unclear(Origin::Argument)),
    }
}

fn find_variable_zone<T: Tree>(
    alloc: Global,
    tree: &mut T,
) -> Result<Option<ZoneArgument>, ZonesFault>
    ensures zone { (machine : Machine) → T.shows tree.new machine → IsResultOf (zone_by_variable machine) result }
    ensures offset { IfOk result (λ zone. IfSome zone HasOffset) }
    ensures grows { (machine : Machine) → T.shows tree.new machine → T.shows tree.old machine }
{
    let value = match tree.variable(alloc, "TZ") {
        Ok(value) => value,
        Err(fault) => return Err(unread(Origin::Variable, fault)),
    };
    match value {
        Some(text) => variable_zone(alloc, text.as_str()),
        None => Ok(None),
    }
}

fn unread(origin: Origin, fault: TreeFault) -> ZonesFault
    ensures { result ≡ unread_fault origin fault }
{
    match fault {
        TreeFault::NoMemory => ZonesFault::NoMemory,
        TreeFault::Unreadable(_) => ZonesFault::Unread(origin),
    }
}
