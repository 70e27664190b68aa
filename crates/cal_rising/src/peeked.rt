//! A source of a merge that may have been read one number ahead: this number was read from the source, but the merge
//! has not returned it yet.

ghost use Rattle.std.specs.Prelude.{◌≡◌, ◌≤ℤ◌, None, IfSome};
ghost use Rattle.std.specs.Set.{is_member};
ghost use Rattle.std.specs.Ordering.{int_eq};
ghost use Rattle.cal_rising.specs.rules.Merge.{HasHead, numbers, advanced};
ghost use Rattle.cal_rising.specs.rules.RisingList.{IsSameFrom};

use crate::Rising;
use std::marker::Model;

/// How many misses [`Peeked::has_onward`] counts without reading from the source. At the next miss, it reads a number.
/// In a miss, the source answers that it does not have the number asked for. Reading is put off because, in a source
/// with few numbers, finding the next number costs far more than asking whether the source has a certain number.
const MISSES_BEFORE_STEP: u8 = 128;

/// A source whose next number may have been read ahead ("peeked"). A contract can see the number read ahead, if any,
/// and the rest of the source.
#[derive(Drop)]
pub struct Peeked<S: Rising> {
    head: Option<i64>,
    source: S,
    /// The misses counted so far. When `step_toward` reads from the source, counting starts again at 0.
    misses: u8,
}

impl<S: Rising> Model for Peeked<S> {
    ghost use Rattle.std.specs.List.Sorted.{IsStrictlySortedBy};
    ghost use Rattle.std.specs.Ordering.{int_cmp};
    ghost use Rattle.cal_rising.specs.rules.Merge.{Peeked, numbers_by};

    ghost Value = { Peeked };

    ghost view = { λ peeked. record { head = peeked.head; after = S.rest peeked.source } };

    ghost invariant = { λ peeked. IsStrictlySortedBy int_cmp (numbers_by peeked.head (S.rest peeked.source)) };
}

impl<S: Rising> Peeked<S> {
    /// Wraps a source. No number is read ahead yet.
    pub fn new(source: S) -> Self
        ensures { result ≡ record { head = None; after = S.rest source } }
    {
        Peeked {
            head: None,
            source,
            misses: 0,
        }
    }

    /// Reads one number ahead from the source, unless that has already been done. The numbers yet to be returned stay
    /// the same.
    pub fn peek(&mut self)
        ensures same { numbers self.new ≡ numbers self.old }
        ensures taken { HasHead self.new }
    {
        if self.head.is_none() {
            self.head = self.source.next();
        }
    }

    /// Returns the number read ahead, if there is one.
    pub fn head(&self) -> Option<i64>
        ensures { result ≡ self.now.head }
    {
        self.head
    }

    /// Drops the number read ahead if it is at most `number`.
    pub fn advance_past(&mut self, number: i64)
        requires { HasHead self.old }
        ensures { numbers self.new ≡ advanced number (numbers self.old) }
    {
        if self.head.is_some_and(|head| head <= number) {
            self.head = None;
        }
    }

    /// Returns whether `number` is yet to be returned, that is, whether it is the number read ahead or in the rest of
    /// the source. The caller promises not to ask for a smaller number again, so numbers below `number` may be dropped.
    /// If the source cannot tell whether it has `number`, its numbers are read until `number` or a greater number is
    /// reached.
    #[tactic(auto, using(crate::proofs::WithoutLemmas::member_arith))]
    pub fn has_onward(&mut self, number: i64) -> bool
        ensures has { result ≡ is_member int_eq (numbers self.old) number }
        ensures left { IsSameFrom number (numbers self.new) (numbers self.old) }
    {
        match self.has(number) {
            Some(true) => true,
            Some(false) => {
                self.step_toward(number);
                false
            }
            None => {
                self.skip_to(number);
                self.head == Some(number)
            }
        }
    }

    /// Returns whether `number` is yet to be returned, that is, whether it is the number read ahead or in the rest of
    /// the source. Returns `None` if the source cannot tell. If a number has been read ahead and is at least `number`,
    /// the source is not asked.
    #[tactic(auto, using(crate::proofs::WithoutLemmas::member_arith))]
    fn has(&mut self, number: i64) -> Option<bool>
        ensures has { IfSome result (λ has. has ≡ is_member int_eq (numbers self.old) number) }
        ensures same { numbers self.new ≡ numbers self.old }
    {
        match self.head {
            Some(head) if number <= head => Some(head == number),
            _ => self.source.has(number),
        }
    }

    /// Reads numbers from the source until the number read ahead is at least `number`, or the source ends.
    fn skip_to(&mut self, number: i64)
        ensures left { IsSameFrom number (numbers self.new) (numbers self.old) }
        ensures reached { IfSome self.new.head (λ head. number ≤ℤ head) }
        ensures taken { HasHead self.new }
    {
        self.peek();
        'steps: while self.head.is_some_and(|head| head < number) {
            self.head = None;
            self.peek();
        }
    }

    /// Does nothing if the number read ahead is at least `number`. Otherwise counts a miss, unless
    /// [`MISSES_BEFORE_STEP`] misses have been counted already. In that case, drops the number read ahead, if any,
    /// reads the next one from the source, and starts counting again at 0.
    fn step_toward(&mut self, number: i64)
        ensures { IsSameFrom number (numbers self.new) (numbers self.old) }
    {
        if self.head.is_some_and(|head| head >= number) {
            return;
        }
        if self.misses < MISSES_BEFORE_STEP {
            self.misses += 1;
            return;
        }
        self.misses = 0;
        self.head = None;
        self.peek();
    }
}
