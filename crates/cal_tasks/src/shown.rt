//! Conversion of an instant to the local time of a zone.

ghost use Rattle.std.specs.Prelude.{◌≡◌, pos, neg_ℤ};
ghost use Rattle.jiff.specs.Words.{IsBetween};
ghost use Rattle.cal_civil.specs.rules.LocalSecond.{max_offset};
ghost use Rattle.cal_zone.specs.rules.Zone.{local_shown_at, zone_of};

use cal_zone::{Instant, Zone, civil};

/// Returns the local second that the zone's clock shows at `instant`.
pub(crate) fn local_shown(zone: Zone<'_>, instant: Instant) -> i64
    ensures value { result ≡ local_shown_at (zone_of zone.entry) instant.secs }
    ensures range { IsBetween (neg_ℤ (pos max_offset)) (pos 7_258_305_597) result }
{
    instant.secs() + i64::from(civil(zone, instant).offset)
}
