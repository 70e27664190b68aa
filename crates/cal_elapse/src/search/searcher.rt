//! The searcher, which finds an expression's matches one after another and counts its searches. The module `window`
//! uses it. This module itself finds the matches that follow a match in the same hour. For all other searches, it calls
//! `next_local` or `next_after` of the module `search`.
//!
//! Every search goes through one function, [`Searcher::search`], which finds the matches and counts the searches. It can
//! return several consecutive matches at once. A batch of k matches counts as k searches, because k calls of `next_local`
//! would have found them one after another.

ghost use Rattle.std.specs.Prelude.{◌%◌, ◌≡◌, ◌+◌, ◌-◌, ◌*◌, ◌/◌, ◌<◌, ◌≤◌, ◌≤ℤ◌, pos, true, max, IfSome, unsigned_abs};
ghost use Rattle.cal_civil.specs.rules.LocalSecond.{IsLocalSecond, seconds_in_all};
ghost use Rattle.cal_elapse.specs.computed.RemainingMatches.{AreNext, AreRemaining, minute_matches};
ghost use Rattle.cal_elapse.specs.computed.Masks.{sets_in};
ghost use Rattle.cal_elapse.specs.computed.SearchStart.{CanStart};
ghost use Rattle.cal_spec.specs.rules.Match.{matches};
ghost use Rattle.cal_spec.specs.rules.Members.{sets_of};
ghost use Rattle.cal_elapse.specs.rules.Months.{months_in_all, minutes_in_all};

use crate::bits::{highest_bit, lowest_bit};
use crate::search::{Found, next_after, next_local};
use crate::{Masks, match_test};
use cal_spec::Expr;

/// The starting point of a search.
#[derive(Drop)]
pub enum SearchStart {
    /// At a local second, or at 7,258,118,400, the end of the local seconds. Such a search finds at most one match.
    At(i64),
    /// After the match `local`. Its day is known to match, so if the next match is on the same day, no search for a day
    /// is needed. The search can find several matches at once, none of them after the local second `until`.
    After { local: i64, until: i64 },
}

/// The result of a search.
#[derive(Drop)]
pub enum Matches {
    /// The first match, or no match if none is left.
    First(Found),
    /// Consecutive matches, beginning with the first one.
    Batch(NextMatches),
}

/// The matches that follow a given match in its minute, or in the later minutes of its hour; there is at least one.
/// They are the local seconds that are m minutes and s seconds after `start`, for each set bit m of `minutes` and each
/// set bit s of `seconds`.
#[derive(Drop)]
pub struct NextMatches {
    pub start: i64,
    pub minutes: u64,
    pub seconds: u64,
    /// The last of these matches.
    pub last: i64,
    ghost start_low: { pos 0 ≤ℤ start },
    ghost some_minute: { 0 < minutes },
    ghost some_second: { 0 < seconds },
    ghost last_in: { IsLocalSecond last },
}

/// The masks of an expression, the number of searches made with them, and the largest number of months that a single
/// search examined. A mask has one bit for each value that a field matches. The fields of this type are private, and
/// only `search` finds matches and changes the counts, so that every search is counted.
#[derive(Drop)]
pub struct Searcher {
    masks: Masks,
    searches: u64,
    most_months: u32,
    ghost few_months: { most_months ≤ months_in_all },
}

impl Searcher {
    ghost use Rattle.cal_elapse.specs.computed.SearchResult.{AreFound, months_of, searches_of};
    ghost use Rattle.cal_elapse.specs.declared.search.searcher.SearchStart.TheVariants.{After};

    /// Creates a searcher for an expression. It has made no searches.
    pub fn of(expr: &Expr) -> Searcher
        ensures masks { sets_in result.masks ≡ sets_of expr.now }
        ensures none { result.searches ≡ 0 }
        ensures examined { result.most_months ≡ 0 }
    {
        Searcher {
            masks: Masks::of(expr),
            searches: 0,
            most_months: 0,
        }
    }

    /// Returns how many searches have been made: one for each match that `search` has returned, and one for each call
    /// that found no match.
    pub fn searches(&self) -> u64
        ensures { result ≡ self.now.searches }
    {
        self.searches
    }

    /// Returns the largest number of months that a single search has examined so far.
    pub fn most_months(&self) -> u32
        ensures kept { result ≡ self.now.most_months }
        ensures few { result ≤ months_in_all }
    {
        self.most_months
    }

    /// Returns the first match from `start` on, or several consecutive matches, beginning with the first one. Counts one
    /// search for each match that it returns, and one search if it finds none. The first match is the same as that of
    /// `next_local`, called for the first local second that may be the result, and each further match is the same as that
    /// of `next_local`, called for the local second after the match before it.
    #[inline(always)]
    #[tactic(auto, using(cal_civil::proofs::LocalLemmas::local_arith))]
    pub fn search(&mut self, start: SearchStart) -> Matches
        requires start { CanStart (matches (sets_in self.old.masks)) start }
        requires few { self.old.searches ≤ seconds_in_all }
        ensures found { AreFound (sets_in self.old.masks) start result }
        ensures masks { self.new.masks ≡ self.old.masks }
        ensures counted { self.new.searches
            ≡ self.old.searches + searches_of (matches (sets_in self.old.masks)) start result }
        ensures most { self.new.most_months ≡ max self.old.most_months (months_of result) }
    {
        let matches = match start {
            SearchStart::At(local) => Matches::First(next_local(&self.masks, local)),
            SearchStart::After { local, until } => self.find_after(local, until),
        };
        let (searches, months) = match &matches {
            Matches::First(found) => (1, found.months),
            // Each of these searches examines one month: that of the match before the batch.
            Matches::Batch(next) => (next.minutes.count_ones() * next.seconds.count_ones(), 1),
        };
        self.searches += u64::from(searches);
        self.most_months = self.most_months.max(months);
        matches
    }

    /// Returns whether a local second matches. The call doesn't count as a search.
    pub fn is_match(&self, local: i64) -> bool
        requires { IsLocalSecond local }
        ensures { result ≡ matches (sets_in self.now.masks) (unsigned_abs local) }
    {
        match_test::is_match(&self.masks, local)
    }

    /// Finds the matches that follow `local` in its minute, or if there are none, those in the later minutes of its
    /// hour. `local` must itself match. If no match follows in its hour, or if one of them is after `until`, finds only
    /// the first match after `local`. If that match is in the same hour, one month counts as examined: the month of
    /// `local`.
    #[inline(always)]
    #[tactic(auto, using(cal_civil::proofs::LocalLemmas::local_arith))]
    fn find_after(&self, local: i64, until: i64) -> Matches
        requires inside { IsLocalSecond local }
        requires is_match { matches (sets_in self.now.masks) (unsigned_abs local) ≡ true }
        ensures { AreFound (sets_in self.now.masks) (After local until) result }
    {
        let Some(next) = next_matches(&self.masks, local) else {
            return Matches::First(next_after(&self.masks, local));
        };
        if next.last <= until {
            return Matches::Batch(next);
        }
        let first = lowest_bit(next.minutes) * 60 + lowest_bit(next.seconds);
        Matches::First(Found {
            local: Some(next.start + i64::from(first)),
            months: 1,
        })
    }
}

/// Returns the later matches in the minute of `local`, which must itself match. If there are none, returns the matches
/// in the later minutes of its hour, or `None` if there are none either.
#[inline(always)]
#[tactic(auto, using(cal_civil::proofs::LocalLemmas::local_arith))]
fn next_matches(masks: &Masks, local: i64) -> Option<NextMatches>
    requires inside { IsLocalSecond local }
    requires is_match { matches (sets_in masks.now) (unsigned_abs local) ≡ true }
    ensures { IfSome result (λ next. AreNext (matches (sets_in masks.now)) (unsigned_abs local)
        (unsigned_abs next.start) next.minutes next.seconds (unsigned_abs next.last)) }
{
    let seconds = rest_of_minute(masks, local);
    if seconds != 0 {
        let start = local + 1;
        return Some(NextMatches {
            start,
            minutes: 1,
            seconds,
            last: start + i64::from(highest_bit(seconds)),
        });
    }
    let minutes = rest_of_hour(masks, local);
    if minutes == 0 {
        return None;
    }
    let minute = minute_of(local) + 1;
    let seconds = masks.seconds;
    Some(NextMatches {
        start: i64::from(minute) * 60,
        minutes,
        seconds,
        last: local_in(minute + highest_bit(minutes), highest_bit(seconds)),
    })
}

/// Returns the matches that follow `local` in its minute. `local` must itself match. Bit i of the result stands for the
/// local second that comes i + 1 seconds after `local`.
#[tactic(auto, using(cal_civil::proofs::LocalLemmas::local_arith))]
fn rest_of_minute(masks: &Masks, local: i64) -> u64
    requires inside { IsLocalSecond local }
    requires is_match { matches (sets_in masks.now) (unsigned_abs local) ≡ true }
    ensures { AreRemaining (matches (sets_in masks.now)) (unsigned_abs local) result }
{
    masks.seconds >> (second_of_minute(local) + 1)
}

/// Returns the minutes with matches that follow the minute of `local` in its hour. `local` must itself match. Bit i of
/// the result stands for the minute that comes i + 1 minutes after the minute of `local`.
#[tactic(auto, using(cal_civil::proofs::LocalLemmas::local_arith))]
fn rest_of_hour(masks: &Masks, local: i64) -> u64
    requires inside { IsLocalSecond local }
    requires is_match { matches (sets_in masks.now) (unsigned_abs local) ≡ true }
    ensures { AreRemaining (minute_matches (sets_in masks.now)) (unsigned_abs local / 60) result }
{
    masks.minutes >> (minute_of(local) % 60 + 1)
}

/// Returns the minute of a local second, counted from the start of 1970.
#[tactic(auto, using(cal_civil::proofs::LocalLemmas::local_arith))]
fn minute_of(local: i64) -> u32
    requires { IsLocalSecond local }
    ensures { result ≡ unsigned_abs local / 60 }
{
    (local / 60) as u32
}

/// Returns how many seconds after the start of its minute a local second is, 0 to 59.
#[tactic(auto, using(cal_civil::proofs::LocalLemmas::local_arith))]
fn second_of_minute(local: i64) -> u32
    requires { IsLocalSecond local }
    ensures { result ≡ unsigned_abs local % 60 }
{
    (local % 60) as u32
}

/// Returns the local second that is `second` seconds after the start of `minute`, which is counted from the start of
/// 1970.
fn local_in(minute: u32, second: u32) -> i64
    requires minute { minute < minutes_in_all }
    requires second { second < 60 }
    ensures { result ≡ pos (minute * 60 + second) }
{
    i64::from(minute) * 60 + i64::from(second)
}
