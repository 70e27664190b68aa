//! Laws about the elapses of expressions, with and without exceptions. An exception is an expression at whose elapses a
//! timer doesn't elapse. Each law is a function with an empty body, whose contract states the law.

ghost use Rattle.std.specs.Prelude.{◌≡◌, ◌↔◌, ◌+◌, ◌++◌, ◌∷◌, [], ℕ, ℤ, pos, ◌≤ℤ◌, List, Some, map, suc, take, drop, slice_get};
ghost use Rattle.jiff.specs.Types.{TimeZone};
ghost use Rattle.cal_zone.specs.rules.Instant.{IsInstant};
ghost use Rattle.cal_spec.specs.rules.Fields.{Fields};
ghost use Rattle.cal_spec.specs.rules.Members.{sets_of};
ghost use Rattle.cal_elapse.specs.rules.ElapsesAfter.{elapses_after, elapses_except, each_after};
ghost use Rattle.cal_elapse.specs.rules.Elapses.{Timed, AreElapses, timed};
ghost use Rattle.cal_elapse.specs.rules.Covered.{AreAmong, AreKept, IsCovered};
ghost use Rattle.cal_rising.specs.rules.RisingList.{union, without};
ghost use Rattle.cal_rising.specs.rules.Elements.{Has};

/// There is exactly one list of the elapses of expressions after a base, without those of exceptions. The list is
/// strictly increasing. It contains exactly the instants after the base to which a matching local second of an
/// expression resolves and which are not elapses of an exception. No other list has both properties. If there are no
/// exceptions, this list is the list of all elapses of the expressions after the base.
pub fn elapses_are_one_list()
    ensures these { (es exceptions : List Timed) (base : ℤ) → AreElapses es exceptions base (elapses_except es exceptions base) }
    ensures only { (es exceptions : List Timed) (base : ℤ) (xs : List ℤ) → AreElapses es exceptions base xs
        → xs ≡ elapses_except es exceptions base }
    ensures none { (es : List Timed) (base : ℤ) → elapses_except es [] base ≡ elapses_after es base }
{}

/// The elapses after a base can be listed for each expression and each exception separately. Removing the union of the
/// exceptions' lists from the union of the expressions' lists yields the elapses of the expressions without those of
/// the exceptions.
#[tactic(auto, using(crate::proofs::ElapsesLemmas::continued))]
pub fn elapses_of_each()
    ensures { (es exceptions : List Timed) (base : ℤ) → without (union (each_after es base)) (union (each_after exceptions base))
        ≡ elapses_except es exceptions base }
{}

/// Exceptions cover an expression if and only if, after every base, none of the expression's elapses is left once the
/// elapses of the exceptions are removed. An exception covers an expression in the same zone if it matches all values
/// that the expression matches, field by field, and counts days from the same end of the month.
///
/// Covered expressions may be left out. More generally, suppose that some expressions are left out, and that each of
/// their elapses is also an elapse of an exception or of an expression that is kept. Then the same elapses remain once
/// the elapses of the exceptions are removed.
pub fn covered_are_left_out()
    ensures covered { (e : Timed) (exceptions : List Timed) → IsCovered e exceptions
        ↔ ((base : ℤ) → elapses_except (e ∷ []) exceptions base ≡ []) }
    ensures among { (fields others : Fields) (zone : TimeZone) → AreAmong (sets_of fields) (sets_of others)
        → IsCovered (timed fields zone) (timed others zone ∷ []) }
    ensures kept { (all exceptions kept : List Timed) (base : ℤ) → AreKept all exceptions kept
        → elapses_except kept exceptions base ≡ elapses_except all exceptions base }
{}

/// If one of the elapses becomes the new base, the elapses after this base are exactly those that follow this elapse in
/// the list.
#[tactic(auto, using(crate::proofs::ElapsesLemmas::continued))]
pub fn elapses_go_on()
    ensures { (es exceptions : List Timed) (base e : ℤ) (k : ℕ) → slice_get (elapses_except es exceptions base) k ≡ Some e
        → elapses_except es exceptions e ≡ drop (suc k) (elapses_except es exceptions base) }
{}

/// The elapses after a base can be listed in two parts. Suppose that there are at least k + 1 of them, and that e is
/// the last of the first k + 1. These k + 1 elapses, followed by the first m elapses after e, are the first k + 1 + m
/// elapses after the base.
#[tactic(auto, using(crate::proofs::ElapsesLemmas::continued))]
pub fn elapses_in_parts()
    ensures { (es exceptions : List Timed) (base e : ℤ) (k m : ℕ) → slice_get (elapses_except es exceptions base) k ≡ Some e
        → take (suc k) (elapses_except es exceptions base) ++ take m (elapses_except es exceptions e)
        ≡ take (suc k + m) (elapses_except es exceptions base) }
{}

/// Every elapse after a base of 0 or more is an instant, and can therefore be a base. The law holds for every list of
/// expressions in zones, whatever the exceptions are.
pub fn elapses_are_instants()
    ensures each { (list : List (Fields × TimeZone)) (exceptions : List Timed) (base elapse : ℤ) → pos 0 ≤ℤ base
        → Has (elapses_except (map (λ e. timed e.0 e.1) list) exceptions base) elapse → IsInstant elapse }
    ensures first { (list : List (Fields × TimeZone)) (exceptions : List Timed) (base elapse : ℤ) → pos 0 ≤ℤ base
        → slice_get (elapses_except (map (λ e. timed e.0 e.1) list) exceptions base) 0 ≡ Some elapse → IsInstant elapse }
{}
