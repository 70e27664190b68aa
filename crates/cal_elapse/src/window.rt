//! The conversion of an expression's matches to instants, in the order in which the matches are found.

ghost use Rattle.std.specs.Prelude.{◌≡◌, ◌⊎◌, ◌↔◌, ◌≤◌, ℤ, pos, ◌+ℤ◌, ◌≤ℤ◌, ◌<ℤ◌, Some, IsSomeAnd, cond, slice_get};
ghost use Rattle.std.specs.Ordering.{int_cmp};
ghost use Rattle.std.specs.List.Sorted.{IsStrictlySortedBy};
ghost use Rattle.cal_civil.specs.rules.LocalSecond.{IsLocalSecond, seconds_in_all, max_offset};
ghost use Rattle.cal_zone.specs.rules.Instant.{IsInstant, last_instant};
ghost use Rattle.cal_zone.specs.rules.Place.{place_of};
ghost use Rattle.cal_zone.specs.rules.Zone.{zone_of};
ghost use Rattle.cal_rising.specs.rules.Elements.{Has};
ghost use Rattle.cal_elapse.specs.computed.Ring.{IsInMinutes, IsNear};
ghost use Rattle.cal_elapse.specs.computed.Window.{start_of, to_place, with_place};

use crate::bits::{lowest_bit, without_lowest};
use crate::search::searcher::{Matches, SearchStart, Searcher};
use crate::{NoMemory, Pending};
use cal_civil::MAX_OFFSET;
use cal_spec::Expr;
use cal_zone::{Instant, PlaceCache, Zone};
use std::alloc::Global;

/// The state of a source of elapses: the search, the pending instants, and the instant returned last. It satisfies
/// `IsReady` after every public call.
#[derive(Drop)]
pub struct Window<'z> {
    pub searcher: Searcher,
    place_cache: PlaceCache<'z>,
    /// The base: all elapses are later than this instant. No code reads it, only contracts do.
    base: i64,
    /// The match that was found last, which has not been converted to an instant yet. `None` if no match is left.
    ahead: Option<i64>,
    /// The instant that was returned last, or the base if none has been returned.
    pub last: i64,
    /// The instants after `last` to which matches before `ahead` resolve. If `ahead` is `None`, these are the instants
    /// after `last` to which any match resolves.
    pending: Pending,
}

/// The local seconds after the match that was converted last, up to and including `until`. All matches in this range
/// can be converted together, with the UTC offset `offset`.
#[derive(Clone, Copy)]
struct ConvertibleRange {
    until: i64,
    offset: i64,
}

impl<'z> Window<'z> {
    ghost use Rattle.std.specs.Prelude.{◌≡◌, ◌↔◌, ◌<◌, ◌≤◌, [], ◌∷◌, ℤ, pos, ◌+ℤ◌, ◌≤ℤ◌, ◌<ℤ◌, true, None, Some, IfOk, drop, slice_get, unsigned_abs};
    ghost use Rattle.cal_zone.specs.rules.Zone.{zone_of};
    ghost use Rattle.cal_elapse.specs.rules.ElapsesAfter.{elapses_after};
    ghost use Rattle.cal_rising.specs.rules.Elements.{Has};
    ghost use Rattle.cal_elapse.specs.computed.Masks.{sets_in};
    ghost use Rattle.cal_elapse.specs.rules.MostMonths.{IsExamined};
    ghost use Rattle.cal_elapse.specs.computed.Searched.{IsMostSearched, IsSearched};
    ghost use Rattle.cal_elapse.specs.rules.Elapses.{IsPlace, timed};
    ghost use Rattle.cal_elapse.specs.computed.Window.{AreConvertible, IsPlacedTo, IsReady, bound_of, timed_of, to_place};
    ghost use Rattle.cal_spec.specs.rules.Members.{sets_of};

    /// Creates the window and searches for the first match. The search starts at the first local second that can
    /// resolve to an instant after the base. Fails with `NoMemory` if allocation fails.
    pub fn new(
        alloc: Global,
        expr: &Expr,
        zone: Zone<'z>,
        base: Instant,
    ) -> Result<Window<'z>, NoMemory>
        ensures ready { IfOk result IsReady }
        ensures timed { IfOk result (λ window. timed_of window ≡ timed expr.now (zone_of zone.entry)) }
        ensures last { IfOk result (λ window. window.last ≡ base.secs) }
        ensures base { IfOk result (λ window. window.base ≡ base.secs) }
        ensures searched { IfOk result (λ window. window.searcher.searches ≡ 1) }
        ensures masks { IfOk result (λ window. sets_in window.searcher.masks ≡ sets_of expr.now) }
        ensures examined { IfOk result
            (λ window. IsExamined (sets_of expr.now) (start_of base.secs) window.searcher.most_months) }
    {
        let pending = Pending::new(alloc)?;
        let mut searcher = Searcher::of(expr);
        let ahead = match searcher.search(SearchStart::At(start_of(base))) {
            Matches::First(found) => found.local,
            // This can't happen, because a search from `At` never returns a batch.
            Matches::Batch(_) => None,
        };
        let base = base.secs();
        Ok(Window {
            searcher,
            place_cache: PlaceCache::new(zone),
            base,
            ahead,
            last: base,
            pending,
        })
    }

    /// Converts matches to instants until no later match can resolve to an instant at or before the smallest pending
    /// one, or no match is left.
    #[tactic(auto, using(cal_civil::proofs::LocalLemmas::local_arith, crate::proofs::ReadyLemmas::few_searches, crate::proofs::ReadyLemmas::placed_is_match))]
    pub fn fill(&mut self)
        requires { IsReady self.old }
        ensures ready { IsReady self.new }
        ensures masks { self.new.searcher.masks ≡ self.old.searcher.masks }
        ensures timed { timed_of self.new ≡ timed_of self.old }
        ensures base { self.new.base ≡ self.old.base }
        ensures last { self.new.last ≡ self.old.last }
        ensures full { to_place self.new.ahead (slice_get self.new.pending 0) ≡ None }
    {
        // A local variable, so that it stays in a register from one match to the next.
        let mut ahead = self.ahead;
        // Most calls convert a single match, so only after the first one is it worth trying to convert several at once.
        let mut several = false;
        while let Some(local) = ahead {
            if !is_to_place(local, self.pending.least()) {
                break;
            }
            put_place(&mut self.pending, &mut self.place_cache, local, self.last);
            ahead = self.search_after(local, several);
            several = true;
        }
        self.ahead = ahead;
    }

    /// Returns the first match after `local` that still has to be converted, or `None` if none is left. `local` must
    /// already be converted. If `several` is true, the searcher may first return batches of matches that can be
    /// converted together. Each batch is converted, or skipped if nothing is pending, and the search continues after
    /// it. The match that is returned has not been converted.
    fn search_after(&mut self, local: i64, several: bool) -> Option<i64>
        requires { IsPlacedTo self.old local }
        ensures ready { IsReady (record self.new { ahead = result }) }
        ensures later { unsigned_abs local < bound_of result }
        ensures masks { self.new.searcher.masks ≡ self.old.searcher.masks }
        ensures timed { timed_of self.new ≡ timed_of self.old }
        ensures base { self.new.base ≡ self.old.base }
        ensures last { self.new.last ≡ self.old.last }
    {
        let mut converted = local;
        loop {
            let range = self.convertible_after(converted, several);
            let start = SearchStart::After {
                local: converted,
                until: range.until,
            };
            let next = match self.searcher.search(start) {
                Matches::First(found) => return found.local,
                Matches::Batch(next) => next,
            };
            // If nothing is pending, none of these matches resolves to an instant after the one returned last.
            if self.pending.least().is_some() {
                put_minutes(
                    &mut self.pending,
                    next.start - range.offset,
                    next.minutes,
                    next.seconds,
                );
            }
            converted = next.last;
        }
    }

    /// Returns how far the matches after `local` can be converted together. `local` is a match that has already been
    /// converted. The range ends with the hour of `local` or earlier, and it is empty if `several` is false.
    ///
    /// The range is also empty unless both of these conditions are met:
    ///
    /// - The UTC offset is known to be constant from `local` to the end of its hour.
    /// - Nothing is pending, or the smallest pending instant is at or before the instant of `local`.
    ///
    /// All matches in the range have to be converted before the smallest pending instant can be returned. If nothing is
    /// pending, none of them resolves to an instant after the one returned last.
    #[inline(always)]
    #[tactic(auto, using(cal_civil::proofs::LocalLemmas::local_arith))]
    fn convertible_after(&self, local: i64, several: bool) -> ConvertibleRange
        requires { IsPlacedTo self.now local }
        ensures { local <ℤ result.until → AreConvertible self.now local result.until result.offset }
    {
        let nothing = ConvertibleRange {
            until: local,
            offset: 0,
        };
        if !several {
            return nothing;
        }
        let end = hour_end(local);
        let Some(offset) = self.place_cache.offset_over(local, end) else {
            return nothing;
        };
        match self.pending.least() {
            Some(least) if least <= local - offset => ConvertibleRange {
                until: end.min(least + MAX_OFFSET),
                offset,
            },
            Some(_) => nothing,
            None => ConvertibleRange {
                until: (end - offset).min(self.last) + offset,
                offset,
            },
        }
    }

    /// Removes and returns the smallest pending instant, which is the next elapse, or returns `None` if nothing is
    /// pending. The caller must have called `fill` before.
    #[tactic(auto, using(crate::proofs::SearchedLemmas::taken))]
    pub fn take(&mut self) -> Option<i64>
        requires ready { IsReady self.old }
        requires full { to_place self.old.ahead (slice_get self.old.pending 0) ≡ None }
        ensures ready { IsReady self.new }
        ensures masks { self.new.searcher.masks ≡ self.old.searcher.masks }
        ensures timed { timed_of self.new ≡ timed_of self.old }
        ensures base { self.new.base ≡ self.old.base }
        ensures searched { IsSearched (timed_of self.old) self.old.base result self.new.searcher.searches }
        ensures examined { IsMostSearched (sets_in self.old.searcher.masks) self.old.base result self.new.searcher.most_months }
        ensures given { result ≡ slice_get (elapses_after (timed_of self.old ∷ []) self.old.last) 0 }
        ensures left { elapses_after (timed_of self.new ∷ []) self.new.last
            ≡ drop 1 (elapses_after (timed_of self.old ∷ []) self.old.last) }
    {
        let instant = self.pending.take_least();
        if let Some(instant) = instant {
            self.last = instant;
        }
        instant
    }

    /// Returns whether `instant` is an elapse of the expression, even if `instant` has already been returned or is not
    /// after the base. It is an elapse if and only if the local second that the zone's clock shows at `instant` matches
    /// and resolves to `instant`. Doesn't search.
    #[tactic(auto, using(cal_civil::proofs::LocalLemmas::local_arith))]
    pub fn has_elapse(&mut self, instant: Instant) -> bool
        ensures has { (result ≡ true) ↔ IsPlace (timed_of self.old) instant.secs }
        ensures same { self.new ≡ self.old }
    {
        match self.place_cache.local_at(instant) {
            Some(local) => self.searcher.is_match(local),
            None => false,
        }
    }
}

/// Returns the local second at which the first search starts. No earlier local second resolves to an instant after the
/// base.
#[tactic(auto, using(cal_civil::proofs::LocalLemmas::local_arith))]
fn start_of(base: Instant) -> i64
    ensures start { result ≡ pos (start_of base.secs) }
    ensures inside { result ≤ℤ pos seconds_in_all }
{
    (base.secs() - MAX_OFFSET).max(0)
}

/// Returns the last local second in the hour of `local`.
#[tactic(auto, using(cal_civil::proofs::LocalLemmas::local_arith))]
fn hour_end(local: i64) -> i64
    requires { IsLocalSecond local }
    ensures order { local ≤ℤ result }
    ensures inside { IsLocalSecond result }
{
    local - local % 3_600 + 3_599
}

/// Returns whether the match `local` could resolve to an instant at or before `least`, the smallest pending instant,
/// and so has to be converted first. If nothing is pending, every match has to be converted.
fn is_to_place(local: i64, least: Option<i64>) -> bool
    requires { IsLocalSecond local }
    ensures { to_place (Some local) least ≡ cond result (Some local) None }
{
    match least {
        Some(instant) => local - MAX_OFFSET <= instant,
        None => true,
    }
}

/// If `local` resolves to an instant after `last`, the instant returned last, adds this instant to `pending`.
/// Otherwise, `pending` is unchanged.
fn put_place(pending: &mut Pending, place_cache: &mut PlaceCache<'_>, local: i64, last: i64)
    requires local_in { IsLocalSecond local }
    requires last_in { pos 0 ≤ℤ last }
    requires before { (i : ℤ) → Has pending.old i → i ≤ℤ (local +ℤ pos max_offset) }
    requires near { (i : ℤ) → Has pending.old i → local ≤ℤ (i +ℤ pos max_offset) }
    ensures put { pending.new ≡ with_place (place_of (zone_of place_cache.old) local) last pending.old }
    ensures zone { place_cache.new ≡ place_cache.old }
{
    if let Some(instant) = place_cache.place(local) {
        put_if_after(pending, instant, last);
    }
}

/// Adds an instant to the pending instants, if it is after `last`, the instant returned last.
fn put_if_after(pending: &mut Pending, instant: i64, last: i64)
    requires instant { last <ℤ instant → IsInstant instant }
    requires near { (i : ℤ) → Has pending.old i → last <ℤ instant → IsNear i instant }
    ensures { pending.new ≡ with_place (Some instant) last pending.old }
{
    if last < instant {
        pending.put(instant);
    }
}

/// Adds the instants that are m minutes and s seconds after `start` to the pending instants, for each set bit m of
/// `minutes` and each set bit s of `seconds`. `pending` must not be empty, and `start` must be after the smallest
/// pending instant, and at most 1 second after the last of all instants. All new instants must differ from each pending
/// instant by at most 187,199 seconds.
fn put_minutes(pending: &mut Pending, start: i64, minutes: u64, seconds: u64)
    requires rises { IsStrictlySortedBy int_cmp pending.old }
    requires begun { IsSomeAnd (slice_get pending.old 0) (λ least. least <ℤ start) }
    requires inside { start ≤ℤ (last_instant +ℤ pos 1) }
    requires instants { (i : ℤ) → IsInMinutes start minutes seconds i → IsInstant i }
    requires near { (member i : ℤ) → Has pending.old member → IsInMinutes start minutes seconds i → IsNear member i }
    ensures rises { IsStrictlySortedBy int_cmp pending.new }
    ensures members { (i : ℤ) → Has pending.new i ↔ (Has pending.old i ⊎ IsInMinutes start minutes seconds i) }
{
    let mut left = minutes;
    while left != 0 {
        pending.put_bits(start + 60 * i64::from(lowest_bit(left)), seconds);
        left = without_lowest(left);
    }
}
