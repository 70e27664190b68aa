//! The merge of several sources into one, which returns each of their numbers once. It skips the numbers of some other
//! sources, the exceptions.

ghost use Rattle.std.specs.Prelude.{◌≡◌, ◌++◌, ◌∷◌, [], true, false, IfErr, OnErr, OnOk, slice_get, drop};
ghost use Rattle.cal_rising.specs.rules.Merge.{merged};

use crate::sources::Sources;
use crate::{NoMemory, Rising};
use std::alloc::Global;
use std::marker::Model;

/// A merge of sources and exceptions: a source that returns each number of the sources once, in increasing order,
/// unless an exception has it.
///
/// A contract can see the remaining numbers of each source and of each exception, and whether `next` has been called.
#[derive(Drop)]
pub struct Merge<S: Rising> {
    sources: Sources<S>,
    exceptions: Sources<S>,
    started: bool,
}

impl<S: Rising> Model for Merge<S> {
    ghost use Rattle.cal_rising.specs.rules.Merge.{Merge};

    ghost Value = { Merge };

    ghost view = { λ merge. record { started = merge.started; lists = merge.sources; exceptions = merge.exceptions } };
}

impl<S: Rising> Merge<S> {
    /// Creates a merge without sources or exceptions, which returns no numbers.
    pub fn new(alloc: Global) -> Self
        ensures { result ≡ record { started = false; lists = []; exceptions = [] } }
    {
        Merge {
            sources: Sources::new(alloc),
            exceptions: Sources::new(alloc),
            started: false,
        }
    }

    /// Adds a source. This must happen before the first call of `next`.
    ///
    /// If allocation fails, the merge is unchanged and the source is returned to the caller.
    pub fn add(&mut self, source: S) -> Result<(), (S, NoMemory)>
        requires { self.old.started ≡ false }
        ensures added { OnOk result
            (self.new ≡ record { started = false; lists = self.old.lists ++ S.rest source ∷ []; exceptions = self.old.exceptions }) }
        ensures unchanged { OnErr result (self.new ≡ self.old) }
        ensures handed_back { IfErr result (λ refused. refused.0 ≡ source) }
    {
        self.sources.add(source)
    }

    /// Adds an exception: a source whose numbers the merge does not return, even if sources that were added by
    /// [`Merge::add`] have them. This must happen before the first call of `next`.
    ///
    /// If allocation fails, the merge is unchanged and the exception is returned to the caller.
    pub fn add_except(&mut self, exception: S) -> Result<(), (S, NoMemory)>
        requires { self.old.started ≡ false }
        ensures added { OnOk result
            (self.new ≡ record { started = false; lists = self.old.lists; exceptions = self.old.exceptions ++ S.rest exception ∷ [] }) }
        ensures unchanged { OnErr result (self.new ≡ self.old) }
        ensures handed_back { IfErr result (λ refused. refused.0 ≡ exception) }
    {
        self.exceptions.add(exception)
    }
}

impl<S: Rising> Rising for Merge<S> {
    ghost rest = { merged };

    /// Removes and returns the smallest remaining number that a source has and no exception has. Returns `None` if
    /// there is no such number. All smaller numbers of the sources are dropped: for each of them, there is an exception
    /// that has it.
    fn next(&mut self) -> Option<i64>
        ensures given { result ≡ slice_get (merged self.old) 0 }
        ensures left { merged self.new ≡ drop 1 (merged self.old) }
        ensures marked { self.new.started ≡ true }
    {
        self.started = true;
        while let Some(number) = self.sources.next() {
            if !self.exceptions.has_onward(number) {
                return Some(number);
            }
        }
        None
    }

    ghost use Rattle.cal_rising.specs.rules.RisingList.{union};
    ghost use Rattle.cal_rising.specs.computed.Rises.{rises-union, rises-without};

    ghost rises = { λ merge. rises-without (union merge.lists) (union merge.exceptions) (rises-union merge.lists) };
}
