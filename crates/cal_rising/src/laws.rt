//! Laws about the definitions that the contracts of this crate use. Each law is a function with an empty body, whose
//! contract states the law.

ghost use Rattle.std.specs.Prelude.{◌≡◌, [], ℤ, List};
ghost use Rattle.cal_rising.specs.rules.RisingList.{IsUnion, IsUnionWithout, union, without};

/// The union of lists is strictly increasing and contains exactly the numbers of the lists. No other list has both
/// properties.
pub fn union_is_one_list()
    ensures this { (lists : List (List ℤ)) → IsUnion lists (union lists) }
    ensures only { (lists : List (List ℤ)) (list : List ℤ) → IsUnion lists list → list ≡ union lists }
{}

/// If the numbers of some lists, the exceptions, are left out of the union of other lists, the result is strictly
/// increasing. The result contains a number if and only if at least one of the other lists has it and no exception has
/// it. No other list has both properties. If there are no exceptions, the result is the union of the other lists.
pub fn union_without_is_one_list()
    ensures this { (lists exceptions : List (List ℤ)) → IsUnionWithout lists exceptions (without (union lists) (union exceptions)) }
    ensures only { (lists exceptions : List (List ℤ)) (list : List ℤ) → IsUnionWithout lists exceptions list
        → list ≡ without (union lists) (union exceptions) }
    ensures none { (lists : List (List ℤ)) → without (union lists) (union []) ≡ union lists }
{}
