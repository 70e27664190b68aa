//! Conversion of many local seconds of one zone to their places, the seconds of Unix time at which the zone's clock
//! shows them, and back. Within a cached range, a conversion is one subtraction or addition.

ghost use Rattle.std.specs.Prelude.{◌≡◌, IfSome};
ghost use Rattle.cal_civil.specs.rules.LocalSecond.{IsLocalSecond};
ghost use Rattle.cal_zone.specs.computed.PlaceAt.{IsLocalAt};
ghost use Rattle.cal_zone.specs.rules.Place.{place_of};
ghost use Rattle.cal_zone.specs.rules.Zone.{zone_of};

use crate::local_offset_range::{LocalOffsetRange, local_range_at};
use crate::locals::local_at;
use crate::zone::ZoneKind;
use crate::{Instant, Zone, place};
use cal_civil::LOCAL_END;
use std::marker::Model;

/// If no range that contains a local second is found, the next search for a range is made for a local second that is at
/// least this many seconds later. Local seconds before that are converted one by one, since a search costs more than a
/// conversion.
const SEEK_RETRY_DISTANCE: i64 = 1_000;

/// A converter from local seconds of one zone to their places and back, fast for ascending local seconds.
///
/// It caches a range of local seconds with a constant UTC offset and asks `jiff` only outside it. The cached range
/// never changes a result, so contracts see only the zone.
#[derive(Drop)]
pub struct PlaceCache<'z> {
    zone: Zone<'z>,
    range: LocalOffsetRange,
    /// Local seconds before this one don't start a search for a range.
    seek_from: i64,
}

impl<'z> Model for PlaceCache<'z> {
    ghost use Rattle.cal_zone.specs.declared.zone.Zone.{Zone};
    ghost use Rattle.cal_zone.specs.computed.LocalOffsetRange.{IsLocalOffsetRange};
    ghost use Rattle.cal_zone.specs.rules.Zone.{zone_of};

    ghost Value = { Zone };

    ghost view = { λ place_cache. place_cache.zone };

    ghost invariant = { λ place_cache. IsLocalOffsetRange (zone_of place_cache.zone) place_cache.range };
}

impl<'z> PlaceCache<'z> {
    ghost use Rattle.cal_zone.specs.computed.LocalOffsetRange.{AreAtOffset};

    /// Creates an empty cache for the zone.
    pub fn new(zone: Zone<'z>) -> PlaceCache<'z>
        ensures { result ≡ zone.entry }
    {
        PlaceCache {
            zone,
            range: LocalOffsetRange {
                from: 0,
                to: 0,
                offset: 0,
            },
            seek_from: 0,
        }
    }

    /// Returns the zone that was passed to [`PlaceCache::new`].
    pub fn zone(&self) -> Zone<'z>
        ensures { result ≡ self.now }
    {
        self.zone
    }

    /// Returns the place of `local`, as the function [`place`] does, or `None` if the clock skips it.
    #[tactic(auto, using(crate::proofs::PlaceLemmas::places))]
    pub fn place(&mut self, local: i64) -> Option<i64>
        requires { IsLocalSecond local }
        ensures value { result ≡ place_of (zone_of self.old) local }
        ensures zone { self.new ≡ self.old }
    {
        if matches!(self.zone.kind, ZoneKind::Utc) {
            return Some(local);
        }
        if self.range.from <= local && local < self.range.to {
            return Some(local - self.range.offset);
        }
        self.place_outside(local)
    }

    /// Returns the UTC offset of all local seconds from `from` to `to` (inclusive), if the zone is UTC or all of them
    /// are in the cached range. Each of them then has a place, which is the local second minus this offset. `None` only
    /// means that the offset isn't known to be constant.
    #[tactic(auto, using(crate::proofs::PlaceLemmas::places))]
    pub fn offset_over(&self, from: i64, to: i64) -> Option<i64>
        ensures { IfSome result (AreAtOffset (zone_of self.now) from to) }
    {
        if matches!(self.zone.kind, ZoneKind::Utc) {
            return Some(0);
        }
        if self.range.from <= from && to < self.range.to {
            return Some(self.range.offset);
        }
        None
    }

    /// Returns the local second whose place is `instant`, as the function [`local_at`] does, or `None` if there is no
    /// such local second.
    pub fn local_at(&mut self, instant: Instant) -> Option<i64>
        ensures value { IsLocalAt (zone_of self.old) instant.secs result }
        ensures zone { self.new ≡ self.old }
    {
        if let Some(local) = instant.secs().checked_add(self.range.offset) {
            if 0 <= local
                && self.range.from <= local
                && local < self.range.to
                && local < LOCAL_END
            {
                return Some(local);
            }
        }
        self.local_outside(instant)
    }

    /// Computes [`PlaceCache::local_at`] by the zone's rules, for an instant that isn't the place of a local second in
    /// the cached range. If there is a result, may also cache a range that contains this local second, for the calls
    /// that follow.
    #[cold]
    #[inline(never)]
    fn local_outside(&mut self, instant: Instant) -> Option<i64>
        ensures value { IsLocalAt (zone_of self.old) instant.secs result }
        ensures zone { self.new ≡ self.old }
    {
        let local = local_at(self.zone, instant)?;
        if local >= self.seek_from {
            self.seek(local);
        }
        Some(local)
    }

    /// Computes [`PlaceCache::place`] by the zone's rules, for a local second outside the cached range. May also cache
    /// a range that contains `local`, for the calls that follow.
    #[cold]
    #[inline(never)]
    fn place_outside(&mut self, local: i64) -> Option<i64>
        requires { IsLocalSecond local }
        ensures value { result ≡ place_of (zone_of self.old) local }
        ensures zone { self.new ≡ self.old }
    {
        if local >= self.seek_from {
            self.seek(local);
        }
        place(self.zone, local)
    }

    /// Caches a range that contains `local` and has a constant offset. If none is found, local seconds before `local`
    /// plus [`SEEK_RETRY_DISTANCE`] don't start another search.
    fn seek(&mut self, local: i64)
        requires { IsLocalSecond local }
        ensures { self.new ≡ self.old }
    {
        match local_range_at(self.zone, local) {
            Some(range) => self.range = range,
            None => self.seek_from = local + SEEK_RETRY_DISTANCE,
        }
    }
}
