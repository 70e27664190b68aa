//! The zones of a question, with the rules or the zone tables that each [`Zone`] borrows.

ghost use Rattle.std.specs.Prelude.{◌≡◌, ◌≢◌, ◌∷◌, [], IfErr, IfOk, map, option_map, string_bytes};
ghost use Rattle.cal_machine.specs.rules.Machine.{Machine};
ghost use Rattle.cal_zone_files.specs.rules.LocalZone.{machine_local_zone};
ghost use Rattle.cal_zone.specs.rules.Zone.{zone_of};
ghost use Rattle.cal_zone.specs.rules.ZoneArgument.{by_rule, of_name};
ghost use Rattle.cal_answers.specs.rules.LocalClock.{IsLocalZone, IsUnusable, clock_zone};

use cal_machine::Tree;
use cal_zone::{Rules, Zone, ZoneArgument, ZoneFault, ZoneTable};
use cal_zone_files::{Origin, ZonesFault, find_local_zone, load_machine_zone, load_zones};
use std::alloc::{AllocError, Global};

/// The local zone, or the zone in which times are shown, with the data that its [`Zone`] borrows.
#[derive(Drop)]
pub enum LocalClock {
    /// UTC, or a zone with a fixed UTC offset.
    Fixed(Zone<'static>),
    /// The zone with these rules.
    Ruled(Rules),
    /// The zone with this name in this table.
    Named(String, ZoneTable),
    /// UTC, because `/etc/localtime` doesn't lead to a zone file.
    Assumed,
}

impl LocalClock {
    /// Finds which zone to use, and reads its file if it has one. `option` is the value of `--zone` or `--in`, if it is
    /// given. If `by_variable` is `false`, the variable `TZ` is ignored.
    ///
    /// Fails as [`find_local_zone`] and [`load_zones`] do, and with [`ZonesFault::Unclear`] if the rule in the option
    /// is invalid.
    pub(crate) fn find<T: Tree>(
        alloc: Global,
        tree: &mut T,
        option: Option<&str>,
        by_variable: bool,
    ) -> Result<LocalClock, ZonesFault>
        ensures zone { IfOk result (λ clock. (machine : Machine) → T.shows tree.new machine → IsLocalZone machine
            (machine_local_zone machine (option_map (λ text. text.now) option.entry) by_variable) (clock_zone clock)) }
        ensures fault { IfErr result (λ fault. fault ≢ ZonesFault.NoMemory → (machine : Machine) → T.shows tree.new machine
            → IsUnusable machine (machine_local_zone machine (option_map (λ text. text.now) option.entry) by_variable)) }
        ensures grows { (machine : Machine) → T.shows tree.new machine → T.shows tree.old machine }
    {
        match find_local_zone(alloc, tree, option, by_variable) {
            Ok(Some(ZoneArgument::Utc)) => Ok(LocalClock::Fixed(Zone::utc())),
            Ok(Some(ZoneArgument::Offset(seconds))) => {
                Ok(LocalClock::Fixed(Zone::offset(seconds)))
            }
            Ok(Some(ZoneArgument::Posix(rule))) => ruled(alloc, rule.as_str()),
            Ok(Some(ZoneArgument::Name(name))) => named(alloc, tree, name),
            Ok(None) => of_machine(alloc, tree),
            Err(fault) => Err(fault),
        }
    }

    /// Returns the zone, or `None` if the zone has a name that isn't in its table.
    pub(crate) fn zone(&self) -> Option<Zone<'_>>
        ensures { option_map zone_of result ≡ clock_zone self.now }
    {
        match self {
            LocalClock::Fixed(zone) => Some(*zone),
            LocalClock::Ruled(rules) => Some(Zone::rules(rules)),
            LocalClock::Named(name, table) => table.find(name.as_str()),
            LocalClock::Assumed => Some(Zone::utc()),
        }
    }
}

fn ruled(alloc: Global, rule: &str) -> Result<LocalClock, ZonesFault>
    ensures zone { IfOk result (λ clock. (machine : Machine)
        → IsLocalZone machine (Ok (Some (by_rule rule.now))) (clock_zone clock)) }
    ensures fault { IfErr result (λ fault. fault ≢ ZonesFault.NoMemory → (machine : Machine)
        → IsUnusable machine (Ok (Some (by_rule rule.now)))) }
{
    match Rules::posix(alloc, rule) {
        Ok(rules) => Ok(LocalClock::Ruled(rules)),
        Err(ZoneFault::NoMemory) => Err(ZonesFault::NoMemory),
        Err(_) => Err(ZonesFault::Unclear(Origin::Argument)),
    }
}

fn named<T: Tree>(alloc: Global, tree: &mut T, name: String) -> Result<LocalClock, ZonesFault>
    ensures zone { IfOk result (λ clock. (machine : Machine) → T.shows tree.new machine
        → IsLocalZone machine (Ok (Some (of_name (string_bytes name)))) (clock_zone clock)) }
    ensures fault { IfErr result (λ fault. fault ≢ ZonesFault.NoMemory → (machine : Machine) → T.shows tree.new machine
        → IsUnusable machine (Ok (Some (of_name (string_bytes name))))) }
    ensures grows { (machine : Machine) → T.shows tree.new machine → T.shows tree.old machine }
{
    let names = only(alloc, name.as_str())?;
    let table = load_zones(alloc, tree, names.as_slice())?;
    Ok(LocalClock::Named(name, table))
}

/// Loads the machine's own zone. Fails only with [`ZonesFault::NoMemory`].
pub(crate) fn of_machine<T: Tree>(alloc: Global, tree: &mut T) -> Result<LocalClock, ZonesFault>
    ensures zone { IfOk result (λ clock. (machine : Machine) → T.shows tree.new machine
        → IsLocalZone machine (Ok None) (clock_zone clock)) }
    ensures fault { IfErr result (λ fault. fault ≡ ZonesFault.NoMemory) }
    ensures grows { (machine : Machine) → T.shows tree.new machine → T.shows tree.old machine }
{
    match load_machine_zone(alloc, tree)? {
        Some(rules) => Ok(LocalClock::Ruled(rules)),
        None => Ok(LocalClock::Assumed),
    }
}

/// Returns a list with only this name.
pub(crate) fn only(alloc: Global, name: &str) -> Result<Vec<String>, AllocError>
    ensures { IfOk result (λ names. map string_bytes names.items ≡ name.now ∷ []) }
{
    let mut names = Vec::new(alloc);
    names.push(String::from_str(alloc, name)?)?;
    Ok(names)
}
