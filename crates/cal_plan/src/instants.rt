//! A source that returns instants.

use cal_elapse::Rising;
use cal_zone::Instant;
use std::marker::Model;

/// A wrapper around a source of numbers that are all instants, such as elapses. It returns each number as an
/// [`Instant`]. Contracts see the numbers that it has yet to return.
#[derive(Drop)]
pub struct Instants<S: Rising> {
    source: S,
}

impl<S: Rising> Model for Instants<S> {
    ghost use Rattle.std.specs.Prelude.{List, ℤ};
    ghost use Rattle.cal_plan.specs.rules.Instants.{AreInstants};

    ghost Value = { List ℤ };

    ghost view = { λ instants. S.rest instants.source };

    ghost invariant = { λ instants. AreInstants (S.rest instants.source) };
}

impl<S: Rising> Instants<S> {
    ghost use Rattle.std.specs.Prelude.{◌≡◌, drop, option_map, slice_get};
    ghost use Rattle.std.specs.List.Sorted.{IsStrictlySortedBy};
    ghost use Rattle.std.specs.Ordering.{int_cmp};
    ghost use Rattle.cal_plan.specs.rules.Instants.{AreInstants};

    /// Wraps a source. All numbers that it has yet to return must be instants.
    pub fn new(source: S) -> Self
        requires { AreInstants (S.rest source) }
        ensures { result ≡ S.rest source }
    {
        Instants { source }
    }

    /// Removes and returns the next instant. Returns `None` if there are no more.
    pub fn next(&mut self) -> Option<Instant>
        ensures given { option_map (λ instant. instant.secs) result ≡ slice_get self.old 0 }
        ensures left { self.new ≡ drop 1 self.old }
        ensures rises { IsStrictlySortedBy int_cmp self.old }
    {
        Instant::new(self.source.next()?)
    }

    /// Returns the source, which has yet to return the remaining numbers.
    pub fn into_inner(self) -> S
        ensures rest { S.rest result ≡ self }
        ensures instants { AreInstants self }
    {
        self.source
    }
}
