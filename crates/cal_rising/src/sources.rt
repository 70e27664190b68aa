//! The union of several sources of strictly increasing numbers.

ghost use Rattle.std.specs.Prelude.{◌≡◌, ◌++◌, ◌∷◌, [], map, true, false, ℤ, ◌≤ℤ◌, IfErr, OnErr, OnOk, slice_get, drop};
ghost use Rattle.std.specs.List.{All, list_any};
ghost use Rattle.std.specs.Set.{is_member};
ghost use Rattle.std.specs.Ordering.{int_eq};
ghost use Rattle.cal_rising.specs.rules.Merge.{HasHead, lesser, numbers, advanced};
ghost use Rattle.cal_rising.specs.rules.RisingList.{IsSameFrom, union};

use crate::peeked::Peeked;
use crate::{NoMemory, Rising};
use std::alloc::Global;
use std::marker::Model;

/// Several sources of strictly increasing numbers. A contract can see the remaining numbers of each source.
#[derive(Drop)]
pub struct Sources<S: Rising> {
    sources: Vec<Peeked<S>>,
}

impl<S: Rising> Model for Sources<S> {
    ghost use Rattle.std.specs.Prelude.{map, List, ℤ};
    ghost use Rattle.cal_rising.specs.rules.Merge.{numbers};

    ghost Value = { List (List ℤ) };

    ghost view = { λ sources. map numbers sources.sources.items };
}

impl<S: Rising> Sources<S> {
    /// Creates an empty set of sources.
    pub fn new(alloc: Global) -> Self
        ensures { result ≡ [] }
    {
        Sources {
            sources: Vec::new(alloc),
        }
    }

    /// Adds a source. If allocation fails, the existing sources are unchanged and the new source is returned to the
    /// caller.
    pub fn add(&mut self, source: S) -> Result<(), (S, NoMemory)>
        ensures added { OnOk result (self.new ≡ self.old ++ S.rest source ∷ []) }
        ensures unchanged { OnErr result (self.new ≡ self.old) }
        ensures handed_back { IfErr result (λ refused. refused.0 ≡ source) }
    {
        if let Err(refused) = self.sources.reserve(1) {
            return Err((source, refused));
        }
        self.sources.push_reserved(Peeked::new(source));
        Ok(())
    }

    /// Returns whether `number` is among the remaining numbers of at least one source. The caller promises not to ask
    /// for a smaller number again, so numbers below `number` may be dropped.
    pub fn has_onward(&mut self, number: i64) -> bool
        ensures has { result ≡ is_member int_eq (union self.old) number }
        ensures left { IsSameFrom number (union self.new) (union self.old) }
    {
        has_onward_in_any(&mut self.sources, number)
    }
}

impl<S: Rising> Rising for Sources<S> {
    ghost rest = { union };

    /// Removes the smallest remaining number from each source that has it, and returns this number. Returns `None` if
    /// no source has a number left. To compare the sources, first reads the next number of each source ahead, unless
    /// that has already been done.
    fn next(&mut self) -> Option<i64>
        ensures given { result ≡ slice_get (union self.old) 0 }
        ensures left { union self.new ≡ drop 1 (union self.old) }
    {
        peek_all(&mut self.sources);
        let least = least_head(&self.sources);
        if let Some(number) = least {
            advance_all_past(&mut self.sources, number);
        }
        least
    }

    ghost use Rattle.cal_rising.specs.computed.Rises.{rises-union};

    ghost rises = { rises-union };
}

/// Makes sure that the next number of each source, if the source has one, has been read ahead.
fn peek_all<S: Rising>(sources: &mut Vec<Peeked<S>>)
    ensures same { map numbers sources.new.items ≡ map numbers sources.old.items }
    ensures taken { All HasHead sources.new.items }
{
    for peeked in sources.iter_mut() {
        peeked.peek();
    }
}

/// Returns the smallest of the numbers that were read ahead, or `None` if there are none.
#[tactic(auto, unfolding(crate::specs::rules::RisingList::union))]
fn least_head<S: Rising>(sources: &Vec<Peeked<S>>) -> Option<i64>
    requires { All HasHead sources.now.items }
    ensures { result ≡ slice_get (union (map numbers sources.now.items)) 0 }
{
    let mut least = None;
    for peeked in sources {
        least = lesser(least, peeked.head());
    }
    least
}

/// In each source, drops the number read ahead if it is at most `number`.
fn advance_all_past<S: Rising>(sources: &mut Vec<Peeked<S>>, number: i64)
    requires { All HasHead sources.old.items }
    ensures { map numbers sources.new.items ≡ map (advanced number) (map numbers sources.old.items) }
{
    for peeked in sources.iter_mut() {
        peeked.advance_past(number);
    }
}

/// Returns whether `number` is among the remaining numbers of at least one source. The caller promises not to ask for a
/// smaller number again, so numbers below `number` may be dropped.
fn has_onward_in_any<S: Rising>(sources: &mut Vec<Peeked<S>>, number: i64) -> bool
    ensures has { result ≡ list_any (λ xs. is_member int_eq xs number) (map numbers sources.old.items) }
    ensures left { (i : ℤ) → number ≤ℤ i → list_any (λ xs. is_member int_eq xs i) (map numbers sources.new.items)
        ≡ list_any (λ xs. is_member int_eq xs i) (map numbers sources.old.items) }
{
    for peeked in sources.iter_mut() {
        if peeked.has_onward(number) {
            return true;
        }
    }
    false
}

/// Returns the smaller of two numbers, or the only one if the other is `None`. Returns `None` if both are `None`.
fn lesser(one: Option<i64>, other: Option<i64>) -> Option<i64>
    ensures { result ≡ lesser one other }
{
    match (one, other) {
        (Some(x), Some(y)) => Some(x.min(y)),
        (None, found) | (found, None) => found,
    }
}
