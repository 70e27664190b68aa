//! The next change of a zone: the next instant at which its UTC offset changes.

ghost use Rattle.std.specs.Prelude.{◌≡◌, ◌≢◌, ◌<ℤ◌, ◌≤ℤ◌, ◌+ℤ◌, ◌<◌, pos, option_map};
ghost use Rattle.cal_zone.specs.rules.Instant.{IsInstant};
ghost use Rattle.cal_zone.specs.rules.Zone.{zone_of};
ghost use Rattle.cal_tasks.specs.rules.ZoneChange.{IsNextChange, IsZoneChange, utc_offset};

use cal_civil::DAY;
use cal_zone::{Instant, Zone, civil};

/// The number of days in which the next change of a zone is searched for: three years.
const MAX_DAYS: u32 = 1_096;

const DAY_SECONDS: u32 = 86_400;

/// Returns the next change of a zone after `after`: an instant at which the zone's UTC offset isn't the one a second
/// before.
///
/// The offset at `after` is compared with the offsets one day after it, two days after it, and so on, up to 1,096 days
/// (three years) or to the end of 2199. Returns `None` if they are all the same, as they are in a zone without changes.
/// So if an offset lasts less than a day, its changes may not be found.
pub(crate) fn next_change(zone: Zone<'_>, after: Instant) -> Option<Instant>
    ensures { IsNextChange (zone_of zone.entry) after.secs (option_map (λ change. change.secs) result) }
{
    let offset = offset_at(zone, after.secs());
    let mut from = after;
    for _ in 0..MAX_DAYS {
        let Some(to) = Instant::new(from.secs() + DAY) else {
            return None;
        };
        if offset_at(zone, to.secs()) != offset {
            return Some(change_within(zone, from, DAY_SECONDS));
        }
        from = to;
    }
    None
}

/// Returns a change of a zone after `from` and at most `seconds` later. The UTC offset at the end of this time must
/// differ from the one at `from`.
fn change_within(zone: Zone<'_>, from: Instant, seconds: u32) -> Instant
    requires until { IsInstant (from.secs +ℤ pos seconds) }
    requires differs { utc_offset (zone_of zone) (from.secs +ℤ pos seconds)
        ≢ utc_offset (zone_of zone) from.secs }
    ensures change { IsZoneChange (zone_of zone.entry) result.secs }
    ensures after { from.secs <ℤ result.secs }
    ensures until { result.secs ≤ℤ (from.secs +ℤ pos seconds) }
{
    let offset = offset_at(zone, from.secs());
    let mut low = from.secs();
    let mut width = seconds;
    while width > 1 {
        let half = width / 2;
        if offset_at(zone, low + i64::from(half)) == offset {
            low += i64::from(half);
            width -= half;
        } else {
            width = half;
        }
    }
    let Some(change) = Instant::new(low + i64::from(width)) else {
        unreachable!()
    };
    change
}

/// Returns the UTC offset of a zone at an instant, in seconds.
fn offset_at(zone: Zone<'_>, second: i64) -> i32
    requires { IsInstant second }
    ensures { result ≡ utc_offset (zone_of zone.entry) second }
{
    let Some(instant) = Instant::new(second) else {
        unreachable!()
    };
    civil(zone, instant).offset
}
