//! Merges of lists of numbers, and of the elapses of expressions, with and without exceptions. An exception is a source
//! whose numbers a merge leaves out.

ghost use Rattle.std.specs.Prelude.{◌≡◌, false};
ghost use Rattle.std.specs.List.Sorted.{IsStrictlySortedBy};
ghost use Rattle.std.specs.Ordering.{int_cmp};

use super::elapses_of;
use crate::numbers::{add, add_except, expect_first, expect_numbers, listed, merge_two};
use crate::shared::{SUMMER_TIME, posix};
use cal_base::Zone;
use cal_elapse::{Elapses, Listed, Merge};
use std::alloc::Global;
use std::test::Fail;

#[test]
fn no_source(rt: HostRuntime) -> Result<(), Fail> {
    let mut merge: Merge<Listed> = Merge::new(rt.alloc());
    expect_numbers(&mut merge, &[])
}

/// Expects the merge of two lists to return these numbers.
fn expect_merged(alloc: Global, one: &[i64], two: &[i64], numbers: &[i64]) -> Result<(), Fail>
    requires one { IsStrictlySortedBy int_cmp one.now }
    requires two { IsStrictlySortedBy int_cmp two.now }
{
    let mut merge = merge_two(alloc, one, two)?;
    expect_numbers(&mut merge, numbers)
}

/// Checks that `i64::MAX` is a number like any other, and that a number that is in both lists is returned once.
#[test]
fn two_lists(rt: HostRuntime) -> Result<(), Fail> {
    expect_merged(rt.alloc(), &[i64::MAX], &[1], &[1, i64::MAX])?;
    expect_merged(rt.alloc(), &[1, 5, 9], &[5, 7], &[1, 5, 7, 9])
}

/// Expects the merge of two lists, without the numbers of a third, to return these numbers.
fn expect_without(
    alloc: Global,
    one: &[i64],
    two: &[i64],
    exception: &[i64],
    numbers: &[i64],
) -> Result<(), Fail>
    requires one { IsStrictlySortedBy int_cmp one.now }
    requires two { IsStrictlySortedBy int_cmp two.now }
    requires exception { IsStrictlySortedBy int_cmp exception.now }
{
    let mut merge = merge_two(alloc, one, two)?;
    add_except(&mut merge, listed(alloc, exception)?)?;
    expect_numbers(&mut merge, numbers)
}

/// Checks that a merge leaves out the numbers of its exception. A number of the exception that none of the merged lists
/// has makes no difference.
#[test]
fn exceptions(rt: HostRuntime) -> Result<(), Fail> {
    expect_without(rt.alloc(), &[1, 5, 9], &[5, 7], &[5, 8], &[1, 7, 9])?;
    expect_without(rt.alloc(), &[], &[], &[5, 8], &[])
}

/// Adds the elapses of an expression to a merge that has not returned a number yet.
fn add_elapses<'z>(
    alloc: Global,
    merge: &mut Merge<Elapses<'z>>,
    text: &str,
    zone: Zone<'z>,
    base: i64,
) -> Result<(), Fail>
    requires { merge.old.started ≡ false }
    ensures { merge.new.started ≡ false }
{
    let elapses = elapses_of(alloc, text, zone, base)?;
    Ok(add(merge, elapses)?)
}

/// Returns the merge of the elapses of these expressions that are later than `base`.
pub(super) fn merge_elapses<'z>(
    alloc: Global,
    texts: &[&str],
    zone: Zone<'z>,
    base: i64,
) -> Result<Merge<Elapses<'z>>, Fail> {
    let mut merge = Merge::new(alloc);
    for text in texts {
        add_elapses(alloc, &mut merge, text, zone, base)?;
    }
    Ok(merge)
}

/// Bases, each with the first elapses after it. The expression is `0,1:30` in UTC, and the exception is `02:30` in a
/// zone that is one hour ahead of UTC, and two hours in summer. On 2024-03-31, when the clock skips 02:30, nothing is
/// suppressed. On 2024-10-27, when the clock shows 02:30 twice, only the first occurrence is suppressed.
static IN_GAP_AND_FOLD: [(i64, &[i64]); 2] = [
    (
        1_711_756_800,
        &[1_711_758_600, 1_711_845_000, 1_711_848_600, 1_711_935_000],
    ),
    (1_729_987_200, &[1_729_992_600]),
];

/// Adds to a merge that has not returned a number yet: the elapses of `0,1:30` in UTC after `base`, and as an exception
/// the elapses of `02:30` in the local zone after `base`.
fn add_without_half_past_two<'z>(
    alloc: Global,
    merge: &mut Merge<Elapses<'z>>,
    local: Zone<'z>,
    base: i64,
) -> Result<(), Fail>
    requires { merge.old.started ≡ false }
{
    add_elapses(alloc, merge, "0,1:30", Zone::utc(), base)?;
    let exception = elapses_of(alloc, "02:30", local, base)?;
    Ok(add_except(merge, exception)?)
}

#[test]
fn in_gap_and_fold(rt: HostRuntime) -> Result<(), Fail> {
    let rules = posix(rt.alloc(), SUMMER_TIME)?;
    for (base, instants) in &IN_GAP_AND_FOLD {
        let mut merge = Merge::new(rt.alloc());
        add_without_half_past_two(rt.alloc(), &mut merge, Zone::rules(&rules), *base)?;
        expect_first(&mut merge, instants)?;
    }
    Ok(())
}
