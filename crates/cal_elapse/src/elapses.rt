//! The elapses of a calendar expression in a zone, in increasing order (systemd.time(7), Calendar Events).

ghost use Rattle.cal_elapse.specs.rules.Months.{months_in_all};

use crate::NoMemory;
use crate::window::Window;
use cal_rising::Rising;
use cal_spec::Expr;
use cal_zone::{Instant, Zone};
use std::alloc::Global;
use std::marker::Model;

/// A source that returns the elapses after a base, for one expression in one zone. These are the instants after the
/// base to which the matching local seconds of the years 1970 to 2199 resolve, each once, in increasing order.
///
/// Matches are found in the order of local time. If the clock is turned back, a later match can resolve to an earlier
/// instant. An instant is therefore returned only when no later match can resolve to the same instant or an earlier
/// one.
#[derive(Drop)]
pub struct Elapses<'z> {
    window: Window<'z>,
}

impl<'z> Model for Elapses<'z> {
    ghost use Rattle.cal_elapse.specs.computed.Window.{IsReady};
    ghost use Rattle.cal_elapse.specs.declared.window.Window.{Window as PlainWindow};

    ghost Value = { PlainWindow };

    ghost view = { λ e. e.window };

    ghost invariant = { λ e. IsReady e.window };
}

impl<'z> Elapses<'z> {
    ghost use Rattle.std.specs.Prelude.{◌≡◌, ◌≤◌, [], ◌∷◌, IfOk};
    ghost use Rattle.cal_zone.specs.rules.Zone.{zone_of};
    ghost use Rattle.cal_elapse.specs.rules.ElapsesAfter.{elapses_after};
    ghost use Rattle.cal_elapse.specs.computed.Masks.{sets_in};
    ghost use Rattle.cal_elapse.specs.rules.MostMonths.{IsExamined};
    ghost use Rattle.cal_elapse.specs.computed.RemainingElapses.{remaining_elapses};
    ghost use Rattle.cal_elapse.specs.rules.Elapses.{timed};
    ghost use Rattle.cal_elapse.specs.computed.Window.{start_of, timed_of};
    ghost use Rattle.cal_spec.specs.rules.Members.{sets_of};

    /// Creates the source of the elapses after `base`, for an expression in a zone, and searches for the first match.
    ///
    /// Only this call allocates. Fails with `NoMemory` if allocation fails.
    pub fn new(
        alloc: Global,
        expr: &Expr,
        zone: Zone<'z>,
        base: Instant,
    ) -> Result<Elapses<'z>, NoMemory>
        ensures rest { IfOk result (λ elapses. remaining_elapses elapses
            ≡ elapses_after (timed expr.now (zone_of zone.entry) ∷ []) base.secs) }
        ensures timed { IfOk result (λ elapses. timed_of elapses ≡ timed expr.now (zone_of zone.entry)) }
        ensures base { IfOk result (λ elapses. elapses.base ≡ base.secs) }
        ensures searched { IfOk result (λ elapses. elapses.searcher.searches ≡ 1) }
        ensures masks { IfOk result (λ elapses. sets_in elapses.searcher.masks ≡ sets_of expr.now) }
        ensures examined { IfOk result
            (λ elapses. IsExamined (sets_of expr.now) (start_of base.secs) elapses.searcher.most_months) }
        ensures few { IfOk result (λ elapses. elapses.searcher.most_months ≤ months_in_all) }
    {
        Ok(Elapses {
            window: Window::new(alloc, expr, zone, base)?,
        })
    }

    /// Returns how many searches have been made: one by `new`, and one after each match that `next` has dealt with.
    /// `next` converts a match to an instant, or skips it if it is in a gap. One search finds the first match at or
    /// after a local second, as one call of [`next_local`](crate::next_local) does.
    pub fn searches(&self) -> u64
        ensures { result ≡ self.now.searcher.searches }
    {
        self.window.searcher.searches()
    }

    /// Returns the largest number of months that a single search has examined so far.
    pub fn most_months(&self) -> u32
        ensures kept { result ≡ self.now.searcher.most_months }
        ensures few { result ≤ months_in_all }
    {
        self.window.searcher.most_months()
    }
}

impl Rising for Elapses<'_> {
    ghost use Rattle.std.specs.Prelude.{◌≡◌, ◌≤◌, IfSome, IsSome, drop, slice_get};
    ghost use Rattle.std.specs.Ordering.{int_eq};
    ghost use Rattle.std.specs.Set.{is_member};
    ghost use Rattle.cal_elapse.specs.computed.RemainingElapses.{remaining_elapses, rises-remaining_elapses};
    ghost use Rattle.cal_elapse.specs.computed.Masks.{sets_in};
    ghost use Rattle.cal_elapse.specs.computed.Searched.{IsMostSearched, IsSearched};
    ghost use Rattle.cal_elapse.specs.computed.Window.{timed_of};

    ghost rest = { remaining_elapses };

    /// Removes and returns the next elapse. Returns `None` if there are no more.
    ///
    /// The first search starts at s, the local second base - 93,599, or 0 if that is negative. After `next` has
    /// returned an elapse e, `searches` counts the first search and one search after each match from s to the local
    /// second e + 93,599. After `next` has returned `None`, `searches` counts the first search and one search after
    /// each match from s on. `most_months` is the largest number of months that one of these searches examined, at most
    /// 2,760.
    fn next(&mut self) -> Option<i64>
        ensures given { result ≡ slice_get (remaining_elapses self.old) 0 }
        ensures left { remaining_elapses self.new ≡ drop 1 (remaining_elapses self.old) }
        ensures masks { self.new.searcher.masks ≡ self.old.searcher.masks }
        ensures timed { timed_of self.new ≡ timed_of self.old }
        ensures base { self.new.base ≡ self.old.base }
        ensures searched { IsSearched (timed_of self.old) self.old.base result self.new.searcher.searches }
        ensures examined { IsMostSearched (sets_in self.old.searcher.masks) self.old.base result self.new.searcher.most_months }
        ensures few { self.new.searcher.most_months ≤ months_in_all }
    {
        self.window.fill();
        self.window.take()
    }

    /// Returns whether `number` is an elapse that `next` has yet to return. The result is never `None`. Doesn't search.
    fn has(&mut self, number: i64) -> Option<bool>
        ensures has { IfSome result (λ has. has ≡ is_member int_eq (remaining_elapses self.old) number) }
        ensures says { IsSome result }
        ensures same { remaining_elapses self.new ≡ remaining_elapses self.old }
        ensures window { self.new ≡ self.old }
    {
        match Instant::new(number) {
            Some(instant) if self.window.last < number => Some(self.window.has_elapse(instant)),
            _ => Some(false),
        }
    }

    ghost rises = { rises-remaining_elapses };
}
