//! Sources of strictly increasing numbers, and merges of them, for the modules that test merges. A merge leaves out the
//! numbers of its exceptions, which are sources, too.

ghost use Rattle.std.specs.Prelude.{◌≡◌, false, IfOk};
ghost use Rattle.std.specs.List.Sorted.{IsStrictlySortedBy};
ghost use Rattle.std.specs.Ordering.{int_cmp};

use crate::shared::ensure;
use cal_elapse::{Listed, Merge, Rising};
use std::alloc::{AllocError, Global};
use std::test::Fail;

/// Returns a source of these numbers.
pub fn listed(alloc: Global, numbers: &[i64]) -> Result<Listed, AllocError>
    requires { IsStrictlySortedBy int_cmp numbers.now }
{
    Ok(Listed::new(Vec::from_slice(alloc, numbers)?))
}

/// Adds a source to a merge that has not returned a number yet.
pub fn add<S: Rising + Drop>(merge: &mut Merge<S>, source: S) -> Result<(), AllocError>
    requires { merge.old.started ≡ false }
    ensures { merge.new.started ≡ false }
{
    match merge.add(source) {
        Ok(()) => Ok(()),
        Err((_, refused)) => Err(refused),
    }
}

/// Adds an exception to a merge that has not returned a number yet.
pub fn add_except<S: Rising + Drop>(merge: &mut Merge<S>, exception: S) -> Result<(), AllocError>
    requires { merge.old.started ≡ false }
    ensures { merge.new.started ≡ false }
{
    match merge.add_except(exception) {
        Ok(()) => Ok(()),
        Err((_, refused)) => Err(refused),
    }
}

/// Returns the merge of two lists.
pub fn merge_two(alloc: Global, one: &[i64], two: &[i64]) -> Result<Merge<Listed>, AllocError>
    requires one { IsStrictlySortedBy int_cmp one.now }
    requires two { IsStrictlySortedBy int_cmp two.now }
    ensures { IfOk result (λ merge. merge.started ≡ false) }
{
    let mut merge = Merge::new(alloc);
    add(&mut merge, listed(alloc, one)?)?;
    add(&mut merge, listed(alloc, two)?)?;
    Ok(merge)
}

/// Checks that these are the next numbers of the source. For each number, `has` must not return `Some(false)` just
/// before the number is returned, and must not return `Some(true)` just after.
pub fn expect_first<S: Rising>(source: &mut S, numbers: &[i64]) -> Result<(), Fail> {
    for number in numbers {
        ensure(source.has(*number) != Some(false), "a number is denied")?;
        let found = source.next();
        if found != Some(*number) {
            return Err((*number).into());
        }
        ensure(source.has(*number) != Some(true), "a number is still there")?;
    }
    Ok(())
}

/// Checks that the source returns these numbers, and then `None` twice.
pub fn expect_numbers<S: Rising>(source: &mut S, numbers: &[i64]) -> Result<(), Fail> {
    expect_first(source, numbers)?;
    ensure(source.next().is_none(), "a number too many")?;
    ensure(source.next().is_none(), "a number after the end")
}
