//! A source that returns the numbers of a list.

ghost use Rattle.std.specs.Prelude.{◌≡◌, IfSome, IsSome, drop};
ghost use Rattle.std.specs.List.Sorted.{IsStrictlySortedBy, IsStrictlySortedBy-prop};
ghost use Rattle.std.specs.Ordering.{int_cmp, int_eq};
ghost use Rattle.std.specs.Set.{is_member};

use crate::Rising;

/// A list of strictly increasing numbers, and how many of them have been returned.
#[derive(Drop)]
pub struct Listed {
    numbers: Vec<i64>,
    given: usize,
    ghost rising: { IsStrictlySortedBy int_cmp (drop given numbers.items) } by { IsStrictlySortedBy-prop int_cmp (drop given numbers.items) },
}

impl Listed {
    /// Creates a source of these numbers, which must be strictly increasing.
    pub fn new(numbers: Vec<i64>) -> Self
        requires { IsStrictlySortedBy int_cmp numbers.items }
        ensures { ⟦<Listed as Rising>⟧.rest result ≡ numbers.items }
    {
        Listed { numbers, given: 0 }
    }
}

impl Rising for Listed {
    ghost rest = { λ listed. drop listed.given listed.numbers.items };

    #[tactic(auto, using(cal_bytes::proofs::General::rises_after))]
    fn next(&mut self) -> Option<i64> {
        let number = self.numbers.get(self.given).copied();
        if number.is_some() {
            self.given += 1;
        }
        number
    }

    /// Returns whether `number` is in the list and has not been returned yet. The result is never `None`.
    fn has(&mut self, number: i64) -> Option<bool>
        ensures has { IfSome result (λ has. has ≡ is_member int_eq (drop self.old.given self.old.numbers.items) number) }
        ensures says { IsSome result }
        ensures same { self.new ≡ self.old }
    {
        Some(
            self.numbers
                .iter()
                .skip(self.given)
                .any(|here| *here == number),
        )
    }

    ghost rises = { λ listed. listed.rising };
}
