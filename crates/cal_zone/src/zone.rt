//! The type of time zones. It distinguishes UTC itself from a zone whose UTC offset is always 0.

ghost use Rattle.std.specs.Prelude.{◌≡◌, true, false};
ghost use Rattle.jiff.specs.Types.{Offset};
ghost use Rattle.jiff.specs.Words.{fixed_zone, IsOffsetSeconds};

use crate::Rules;

/// A time zone: UTC, a fixed UTC offset, or rules such as those of a zone file.
#[derive(Clone, Copy)]
pub struct Zone<'t> {
    pub(crate) kind: ZoneKind<'t>,
}

#[derive(Clone, Copy)]
pub(crate) enum ZoneKind<'t> {
    Utc,
    Offset(FixedOffset),
    Rules(&'t Rules),
}

/// A fixed UTC offset in seconds, in the range that `jiff` accepts.
#[derive(Clone, Copy)]
pub(crate) struct FixedOffset {
    pub(crate) seconds: i32,
    ghost in_range: { IsOffsetSeconds seconds },
}

impl<'t> Zone<'t> {
    ghost use Rattle.cal_zone.specs.rules.Zone.{is_utc, utc, zone_of};
    ghost use Rattle.cal_zone.specs.rules.FixedOffsetZone.{fixed_offset_zone};

    /// Returns UTC. In UTC, a local second and its place, the second of Unix time at which the clock shows it, are the
    /// same number.
    pub fn utc() -> Zone<'static>
        ensures { result ≡ utc }
    {
        Zone {
            kind: ZoneKind::Utc,
        }
    }

    /// Returns the zone with a fixed UTC offset of `seconds` seconds, from -93,599 to 93,599. Even with the offset 0,
    /// this zone is not the same as [`Zone::utc`]: instants in the two zones are printed differently.
    #[tactic(auto, using(crate::proofs::ZoneLemmas::fixed), unfolding(crate::specs::rules::FixedOffsetZone::fixed_offset_zone))]
    pub fn offset(seconds: i32) -> Zone<'static>
        requires { IsOffsetSeconds seconds }
        ensures zone { (offset : Offset) → offset.seconds ≡ seconds → zone_of result ≡ fixed_zone offset }
        ensures ahead { zone_of result ≡ fixed_offset_zone seconds }
        ensures distinct { is_utc result ≡ false }
    {
        Zone {
            kind: ZoneKind::Offset(FixedOffset { seconds }),
        }
    }

    /// Returns the zone with these rules. It isn't the same as [`Zone::utc`], even if its UTC offset is always 0.
    #[tactic(auto, unfolding(crate::specs::rules::Zone::zone_of))]
    pub fn rules(rules: &'t Rules) -> Zone<'t>
        ensures zone { zone_of result ≡ rules.now }
        ensures distinct { is_utc result ≡ false }
    {
        Zone {
            kind: ZoneKind::Rules(rules),
        }
    }

    /// Returns whether this is [`Zone::utc`]. A zone with the fixed offset 0 is not.
    pub fn is_utc(self) -> bool
        ensures { result ≡ is_utc self.entry }
    {
        matches!(self.kind, ZoneKind::Utc)
    }
}
