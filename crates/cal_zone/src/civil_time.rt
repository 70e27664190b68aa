//! Conversion from Unix time to civil time.
ghost use Rattle.std.specs.Prelude.{◌≡◌};
ghost use Rattle.jiff.specs.Types.{TimeZone};
ghost use Rattle.jiff.specs.Words.{nanos_of_seconds, offset_at};
ghost use Rattle.cal_zone.specs.rules.CivilAt.{civil_at_offset, IsCivil};
ghost use Rattle.cal_zone.specs.rules.Civil.{civil_of};
ghost use Rattle.cal_zone.specs.rules.Zone.{offset_of, zone_of};

use crate::zone::{FixedOffset, ZoneKind};
use crate::{Civil, Instant, Zone};
use jiff::{Timestamp, tz};
use jiff_core::Offset;
use jiff_core::civil::DateTime;

/// Returns the civil date and time that clocks in the zone show at `instant`.
#[tactic(auto, using(cal_civil::proofs::LocalLemmas::local_arith))]
pub fn civil(zone: Zone, instant: Instant) -> Civil
    ensures value { result ≡ civil_of (zone_of zone.entry) instant.secs }
    ensures ranges { IsCivil result }
{
    let Ok(timestamp) = Timestamp::from_second(instant.secs()) else {
        unreachable!()
    };
    civil_at(offset_in(zone, timestamp).to_plain(), instant)
}

/// Returns what a clock with the given UTC offset shows at `instant`.
pub(crate) fn civil_at(offset: Offset, instant: Instant) -> Civil
    ensures value { (tz : TimeZone) → offset_at tz (nanos_of_seconds instant.secs) ≡ offset.seconds
        → result ≡ civil_of tz instant.secs }
    ensures ranges { IsCivil result }
{
    let Ok(timestamp) = Timestamp::from_second(instant.secs()) else {
        unreachable!()
    };
    fields(offset.to_datetime(timestamp.to_plain()), offset)
}

/// Returns the UTC offset of the zone at `timestamp`.
#[tactic(auto, using(crate::proofs::ZoneLemmas::offsets))]
pub(crate) fn offset_in(zone: Zone, timestamp: Timestamp) -> tz::Offset
    ensures { result.seconds ≡ offset_at (zone_of zone.entry) timestamp.nanosecond }
{
    match zone.kind {
        ZoneKind::Utc => tz::Offset::UTC,
        ZoneKind::Offset(ahead) => fixed_offset(ahead),
        ZoneKind::Rules(rules) => rules.offset(timestamp),
    }
}

/// Converts a fixed offset to the `Offset` type of `jiff`.
#[tactic(auto, using(cal_civil::proofs::LocalLemmas::local_arith, crate::proofs::OffsetLemmas::same_offset))]
pub(crate) fn fixed_offset(ahead: FixedOffset) -> tz::Offset
    ensures { result ≡ offset_of ahead }
{
    let Ok(offset) = tz::Offset::from_seconds(ahead.seconds) else {
        unreachable!()
    };
    offset
}

fn fields(shown: DateTime, offset: Offset) -> Civil
    ensures { result ≡ civil_at_offset offset.seconds shown }
{
    Civil {
        year: shown.date.year,
        month: shown.date.month,
        day: shown.date.day,
        weekday: shown.date.weekday().index() + 1,
        hour: shown.time.hour,
        minute: shown.time.minute,
        second: shown.time.second,
        offset: offset.seconds,
    }
}
