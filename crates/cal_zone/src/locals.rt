//! Conversion from instants back to local seconds. The place of a local second is the second of Unix time that it is
//! converted to, if the zone's clock shows it then.

ghost use Rattle.std.specs.Prelude.{◌≡◌};
ghost use Rattle.cal_zone.specs.computed.PlaceAt.{IsLocalAt};
ghost use Rattle.cal_zone.specs.rules.Zone.{local_shown_at, zone_of};

use crate::civil_time::offset_in;
use crate::{Instant, Zone, place};
use cal_civil::LOCAL_END;
use jiff::Timestamp;

/// Returns the local second of the years 1970 to 2199 whose place is `instant`, or `None` if there is no such local
/// second.
///
/// The result, if there is one, is the local second that the zone's clock shows at `instant`. After clocks are turned
/// back, they show some local times again. An instant at which a local time is shown for the second time is not the
/// place of this local time, so the result for such an instant is `None`. (systemd.time(7), Calendar Events.)
pub(crate) fn local_at(zone: Zone, instant: Instant) -> Option<i64>
    ensures { IsLocalAt (zone_of zone.entry) instant.secs result }
{
    let local = local_shown_at(zone, instant);
    if local < 0 || LOCAL_END <= local {
        return None;
    }
    match place(zone, local) {
        Some(place) if place == instant.secs() => Some(local),
        _ => None,
    }
}

/// Returns the local second that the zone's clock shows at `instant`, whether for the first or for the second time.
#[tactic(auto, using(cal_civil::proofs::LocalLemmas::local_arith), unfolding(crate::specs::rules::Zone::local_shown_at))]
fn local_shown_at(zone: Zone, instant: Instant) -> i64
    ensures { result ≡ local_shown_at (zone_of zone.entry) instant.secs }
{
    let Ok(timestamp) = Timestamp::from_second(instant.secs()) else {
        unreachable!()
    };
    instant.secs() + i64::from(offset_in(zone, timestamp).seconds())
}
