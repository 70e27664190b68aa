//! The table of named zones.

ghost use Rattle.std.specs.Prelude.{◌≡◌, option_map, IfSome, IfErr, OnErr, MatchResult};
ghost use Rattle.std.specs.FinMap as map;

use crate::{Rules, Zone, ZoneFault, ZoneName};
use cal_civil::is_utc_name;
use std::alloc::Global;
use std::collections::BTreeMap;
use std::marker::Model;

/// A table of zones: a finite map from names to rules. The name `UTC`, ignoring case, always stands for UTC and is not
/// in the map.
#[derive(Drop)]
pub struct ZoneTable {
    alloc: Global,
    zones: BTreeMap<String, Rules>,
}

impl Model for ZoneTable {
    ghost use Rattle.std.specs.Coded.{coded_list, coded_ℕ};
    ghost use Rattle.std.specs.FinMap as map;
    ghost use Rattle.cal_zone.specs.rules.ZoneTable.{ZoneMap};
    ghost use Rattle.cal_zone.specs.contracts.rules.Rules.{the_row};

    ghost Value = { ZoneMap };

    ghost coded = { map.code (coded_list coded_ℕ) the_row.coded };

    ghost use Rattle.cal_zone.specs.rules.AddedZones.{zone_map_in};

    ghost view = { λ table. zone_map_in table.zones };
}

impl ZoneTable {
    ghost use Rattle.cal_zone.specs.rules.Zone.{is_utc, zone_of};
    ghost use Rattle.cal_civil.specs.rules.ZoneName.{is_utc_name};
    ghost use Rattle.cal_zone.specs.rules.AddedZones.{IsAddable, IsAddFault};
    ghost use Rattle.cal_zone.specs.rules.ZoneTable.{zone_named};

    /// Creates an empty table, in which only `UTC` is found.
    pub fn new(alloc: Global) -> Self
        ensures { result ≡ map.empty }
    {
        ZoneTable {
            alloc,
            zones: BTreeMap::new(alloc),
        }
    }

    /// Adds a zone with these rules under `name`.
    ///
    /// On failure the table is unchanged and the rules are returned to the caller. Fails with [`ZoneFault::BadName`] if
    /// `name` doesn't have the form of a zone's name, with [`ZoneFault::NameTaken`] if the table already has a zone of
    /// this name (as it always does for `UTC`, ignoring case), and with [`ZoneFault::NoMemory`] if allocation fails.
    pub fn add(&mut self, name: &str, rules: Rules) -> Result<(), (Rules, ZoneFault)>
        ensures added { MatchResult result
            (λ _. IsAddable self.old name.now × (self.new ≡ map.insert self.old name.now rules))
            (λ refused. IsAddFault self.old name.now refused.1) }
        ensures unchanged { OnErr result (self.new ≡ self.old) }
        ensures handed_back { IfErr result (λ refused. refused.0 ≡ rules) }
    {
        match ZoneName::new(name) {
            Some(name) => self.add_named(name, rules),
            None => Err((rules, ZoneFault::BadName)),
        }
    }

    /// Adds a zone with these rules, as [`ZoneTable::add`] does, under a name that has been checked already.
    pub fn add_named(&mut self, name: ZoneName<'_>, rules: Rules) -> Result<(), (Rules, ZoneFault)>
        ensures added { MatchResult result
            (λ _. IsAddable self.old name.entry.text.now
            × (self.new ≡ map.insert self.old name.entry.text.now rules))
            (λ refused. IsAddFault self.old name.entry.text.now refused.1) }
        ensures unchanged { OnErr result (self.new ≡ self.old) }
        ensures handed_back { IfErr result (λ refused. refused.0 ≡ rules) }
    {
        let text = name.as_str();
        if self.find(text).is_some() {
            return Err((rules, ZoneFault::NameTaken));
        }
        let Ok(key) = String::from_str(self.alloc, text) else {
            return Err((rules, ZoneFault::NoMemory));
        };
        match self.zones.insert(key, rules) {
            Ok(_) => Ok(()),
            Err(refused) => {
                let (_, rules) = refused.value;
                Err((rules, ZoneFault::NoMemory))
            }
        }
    }

    /// Returns the zone named `name`: UTC for `UTC`, ignoring case, and otherwise the zone that was added under exactly
    /// this name. Returns `None` if there is no such zone.
    #[tactic(auto, unfolding(crate::specs::rules::Zone::zone_of, crate::specs::rules::ZoneTable::zone_named))]
    pub fn find(&self, name: &str) -> Option<Zone<'_>>
        ensures zone { option_map zone_of result ≡ zone_named self.now name.now }
        ensures distinct { IfSome result (λ zone. is_utc zone ≡ is_utc_name name.now) }
    {
        if is_utc_name(name) {
            return Some(Zone::utc());
        }
        match self.zones.get(name) {
            Some(rules) => Some(Zone::rules(rules)),
            None => None,
        }
    }
}
