//! The trait of sources that return numbers one after another, each greater than the last.

ghost use Rattle.std.specs.Prelude.{◌≡◌, ℤ, List, IfSome, drop, slice_get};
ghost use Rattle.std.specs.List.Sorted.{IsStrictlySortedBy};
ghost use Rattle.std.specs.Ordering.{int_cmp, int_eq};
ghost use Rattle.std.specs.Set.{is_member};

/// A source of strictly increasing numbers. The numbers that it has yet to return are its rest.
pub trait Rising {
    /// The numbers that the source has yet to return.
    ghost rest: { Self → List ℤ };

    /// Removes and returns the first number of the rest. Returns `None` if the rest is empty. Does not allocate.
    fn next(&mut self) -> Option<i64>
        ensures given { result ≡ slice_get (rest self.old) 0 }
        ensures left { rest self.new ≡ drop 1 (rest self.old) };

    /// Returns whether the rest contains `number`, or `None` if the source cannot tell. The rest does not change. Does
    /// not allocate.
    ///
    /// The default implementation returns `None`. A [`Merge`](crate::Merge) then reads the numbers of the source until
    /// it reaches `number` or a greater number.
    fn has(&mut self, _number: i64) -> Option<bool>
        ensures has { IfSome result (λ has. has ≡ is_member int_eq (rest self.old) _number) }
        ensures same { rest self.new ≡ rest self.old }
    {
        None
    }

    /// The rest of every source is strictly increasing.
    ghost rises: { (s : Self) → IsStrictlySortedBy int_cmp (rest s) };
}
