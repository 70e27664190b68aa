//! Laws of local seconds, dates, zones and offsets, for the proofs of other crates.
//!
//! A law is a function that does nothing at run time. Its contract states a fact, and a proof uses this fact by naming
//! the function. The place of a local second is the second of Unix time that it is converted to, if the zone's clock
//! shows it then.
ghost use Rattle.std.specs.Prelude.{◌≡◌, ℕ, ◌/◌, ◌<◌, ℤ, pos, ◌≤ℤ◌, ◌<ℤ◌, ◌+ℤ◌, ◌-ℤ◌, ◌*ℤ◌, List, Some, None, false};
ghost use Rattle.std.specs.FinMap.{insert};
ghost use Rattle.jiff.specs.Types.{Date, Fold, Gap, Offset, TimeZone, UTC, Unambiguous};
ghost use Rattle.jiff.specs.Words.{ambiguous_at, civil_nanos, epoch_day, fixed_zone, nanos_of_seconds, offset_at, picked_instant, IsBetween, IsEpochDay, IsOffsetSeconds};
ghost use Rattle.cal_civil.specs.rules.Days.{date_of};
ghost use Rattle.cal_civil.specs.rules.OffsetText.{offset_text};
ghost use Rattle.cal_civil.specs.rules.LocalSecond.{civil_date, day_of, seconds_in_all, seconds_per_day, first_year, last_year};
ghost use Rattle.cal_civil.specs.rules.OffsetWord.{AreWholeMinutes, IsOffsetWord};
ghost use Rattle.cal_civil.specs.computed.ReadOffset.{offset_in};
ghost use Rattle.cal_zone.specs.computed.PlaceAt.{place_at};
ghost use Rattle.cal_zone.specs.rules.Place.{datetime_of, place_of, settle_of};
ghost use Rattle.cal_zone.specs.rules.Zone.{local_shown_at};
ghost use Rattle.cal_zone.specs.rules.ZoneTable.{ZoneMap, zone_named};
ghost use Rattle.cal_civil.specs.rules.ZoneName.{is_utc_name};

/// Every day number in the range of `jiff`'s calendar has a date, and no other date has that day number.
#[tactic(auto, using(cal_civil::proofs::DayLemmas::dates))]
pub fn days_have_one_date()
    ensures number { (day : ℤ) → IsEpochDay day → epoch_day (date_of day) ≡ day }
    ensures only { (day : ℤ) (date : Date) → epoch_day date ≡ day → date_of day ≡ date }
{}

/// There are 7,258,118,400 supported local seconds, from 0 on. Each of them is in the years 1970 to 2199, and each
/// second of a date in these years is one of them.
pub fn local_seconds_are_counted()
    ensures count { seconds_in_all ≡ 7_258_118_400 }
    ensures years { (local : ℕ) → local < seconds_in_all
        → IsBetween (pos first_year) (pos last_year) (civil_date (local / seconds_per_day)).year }
    ensures all { (date : Date) (second : ℕ) → IsBetween (pos first_year) (pos last_year) date.year → second < seconds_per_day
        → (pos 0 ≤ℤ (epoch_day date *ℤ pos seconds_per_day +ℤ pos second))
        × ((epoch_day date *ℤ pos seconds_per_day +ℤ pos second) <ℤ pos seconds_in_all) }
{}

/// The civil time of the local second `local` is `local` seconds after 1970-01-01 00:00:00, and `settle_of` returns the
/// instant that `jiff`'s compatible conversion picks for this civil time. In UTC, the place of `local` is the same
/// number, `local`.
#[tactic(auto, using(crate::proofs::PlaceLemmas::as_jiff))]
pub fn places_are_those_of_jiff()
    ensures civil { (local : ℤ) → IsEpochDay (day_of local)
        → civil_nanos (datetime_of local) ≡ nanos_of_seconds local }
    ensures settled { (tz : TimeZone) (local : ℤ) → IsEpochDay (day_of local)
        → picked_instant tz (datetime_of local) ≡ nanos_of_seconds (settle_of tz local) }
    ensures utc { (local : ℤ) → place_of UTC local ≡ Some local }
{}

/// At the place of a local second, the zone's clock shows that local second.
pub fn places_show_their_local_time()
    ensures { (tz : TimeZone) (local place : ℤ) → place_of tz local ≡ Some place → local_shown_at tz place ≡ local }
{}

/// A local second and its place differ by the zone's UTC offset at the place, and so by at most 93,599 seconds. Both
/// statements hold whatever `jiff`'s conversion returns.
pub fn places_are_near()
    ensures by_the_offset { (tz : TimeZone) (local place : ℤ) → place_of tz local ≡ Some place
        → local -ℤ place ≡ offset_at tz (nanos_of_seconds place) }
    ensures within { (tz : TimeZone) (local place : ℤ) → place_of tz local ≡ Some place
        → IsOffsetSeconds (local -ℤ place) }
{}

/// No two local seconds have the same place.
#[tactic(auto, using(crate::proofs::PlaceLemmas::one_local_second))]
pub fn places_are_of_one_local_second()
    ensures { (tz : TimeZone) (a b place : ℤ) → place_of tz a ≡ Some place → place_of tz b ≡ Some place → a ≡ b }
{}

/// States how the place of a local second follows from what `jiff` reports for its civil time: that it occurs once, is
/// in a gap, or is in a fold.
///
/// Only one UTC offset is tried. For a civil time that occurs once, it is the offset that `jiff` reports; for a gap or
/// a fold, it is the offset before the transition. Subtracting this offset from the local second yields an instant. If
/// the zone has this offset at that instant, the instant is the place, and otherwise there is no place. So in a fold,
/// only the first occurrence can be the place.
pub fn places_by_the_offset_tried()
    ensures once { (tz : TimeZone) (local : ℤ) (offset : Offset)
        → ambiguous_at tz (datetime_of local) ≡ Unambiguous offset → place_of tz local ≡ place_at tz local offset }
    ensures skipped { (tz : TimeZone) (local : ℤ) (before after : Offset)
        → ambiguous_at tz (datetime_of local) ≡ Gap before after → place_of tz local ≡ place_at tz local before }
    ensures twice { (tz : TimeZone) (local : ℤ) (before after : Offset)
        → ambiguous_at tz (datetime_of local) ≡ Fold before after → place_of tz local ≡ place_at tz local before }
    ensures at { (tz : TimeZone) (local : ℤ) (offset : Offset)
        → offset_at tz (nanos_of_seconds (local -ℤ offset.seconds)) ≡ offset.seconds
        → place_at tz local offset ≡ Some (local -ℤ offset.seconds) }
    ensures none { (tz : TimeZone) (local : ℤ) (offset : Offset)
        → (offset_at tz (nanos_of_seconds (local -ℤ offset.seconds)) ≡ offset.seconds → ⊥)
        → place_at tz local offset ≡ None }
{}

/// In a zone with a fixed offset, the place of a local second is that local second minus the offset.
#[tactic(auto, using(crate::proofs::PlaceLemmas::fixed_places))]
pub fn fixed_zones_place_every_local_second()
    ensures place { (offset : Offset) (local : ℤ)
        → place_of (fixed_zone offset) local ≡ Some (local -ℤ offset.seconds) }
    ensures settled { (offset : Offset) (local : ℤ)
        → settle_of (fixed_zone offset) local ≡ local -ℤ offset.seconds }
{}

/// A zone that was added to a table under a name other than `UTC` (ignoring case) is found under this name. Look-ups of
/// all other names return the same as before.
#[tactic(auto, using(crate::proofs::ZoneMapLemmas::one_name))]
pub fn tables_change_at_one_name()
    ensures here { (table : ZoneMap) (name : List ℕ) (zone : TimeZone) → is_utc_name name ≡ false
        → zone_named (insert table name zone) name ≡ Some zone }
    ensures elsewhere { (table : ZoneMap) (name other : List ℕ) (zone : TimeZone) → (other ≡ name → ⊥)
        → zone_named (insert table name zone) other ≡ zone_named table other }
{}

/// A word is an offset if and only if it is a sign, two digits for hours from 00 to 25, a colon, and two digits for
/// minutes from 00 to 59; this form is the project's own. No word stands for two offsets. The offsets that words stand
/// for are exactly the whole minutes up to 25:59 east or west of UTC. Each of these offsets is printed as a word that
/// is parsed as the same offset.
pub fn one_offset_word()
    ensures found { (word : List ℕ) (seconds : ℤ) → offset_in word ≡ Some seconds → IsOffsetWord word seconds }
    ensures only { (word : List ℕ) (seconds : ℤ) → IsOffsetWord word seconds → offset_in word ≡ Some seconds }
    ensures minutes { (word : List ℕ) (seconds : ℤ) → offset_in word ≡ Some seconds → AreWholeMinutes seconds }
    ensures back { (seconds : ℤ) → AreWholeMinutes seconds → offset_in (offset_text seconds) ≡ Some seconds }
{}
