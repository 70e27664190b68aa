//! The search for the next matching local second, the set of pending instants, and the search for the first 64-bit word
//! that is not 0. An instant is pending if it has been found, but not returned yet. Expected results are worked out by
//! hand.

ghost use Rattle.std.specs.Prelude.{◌≡◌, []};

use crate::shared::{ensure, expr};
use cal_elapse::{Found, Masks, Pending, first_set, next_local};
use cal_spec::Expr;
use std::alloc::Global;
use std::test::Fail;

/// Searches for the first match from the local second `from` on. Returns `None` if `from` is outside the supported
/// range.
fn found_from(expr: &Expr, from: i64) -> Option<Found> {
    if from < 0 || from > 7_258_118_400 {
        return None;
    }
    Some(next_local(&Masks::of(expr), from))
}

/// An expression, the local second where the search starts, the expected match, and the expected number of months
/// examined.
type Search = (&'static str, i64, Option<i64>, u32);

static SEARCHES: [Search; 8] = [
    // The first four rows are about leap days: the first one in the range; the one after it; the first one after 2096,
    // which is in 2104, because 2100 is not a leap year; and the end of the range, from where no leap day is found.
    ("*-2-29 0:0:0", 0, Some(68_169_600), 3),
    ("*-2-29 0:0:0", 68_169_601, Some(194_400_000), 5),
    ("*-2-29 0:0:0", 3_981_398_400, Some(4_233_686_400), 8),
    ("*-2-29 0:0:0", 7_258_118_400, None, 0),
    // In the next two rows: a date that doesn't fall on the given weekday, and day 31 of the months that don't have a
    // day 31.
    ("Mon 2024-01-02", 0, None, 1),
    ("*-2,4,6,9,11-31", 0, None, 1_150),
    // In the last two rows: the last second of the range, and a match in the next year.
    ("*:*:*", 7_258_118_399, Some(7_258_118_399), 1),
    ("*-1-31 0:0:0", 2_592_001, Some(34_128_000), 2),
];

fn expect_found(alloc: Global, search: &Search) -> Result<(), Fail> {
    let (text, from, local, months) = *search;
    let found = found_from(&expr(alloc, text)?, from);
    ensure(found == Some(Found { local, months }), text)
}

#[test]
fn finds_the_next(rt: HostRuntime) -> Result<(), Fail> {
    for search in &SEARCHES {
        expect_found(rt.alloc(), search)?;
    }
    Ok(())
}

/// Puts two instants into an empty set, and then the first one again. The two may be at most 187,199 seconds apart.
pub(crate) fn put_three(pending: &mut Pending, one: i64, other: i64) -> Result<(), Fail>
    requires { pending.old ≡ [] }
{
    if one < 0 || one > 7_258_211_998 {
        return Err(one.into());
    }
    if other < 0 || other > 7_258_211_998 || one.abs_diff(other) > 187_199 {
        return Err(other.into());
    }
    pending.put(one);
    pending.put(other);
    pending.put(one);
    Ok(())
}

/// Expects the set to return these instants from the earliest to the latest, and then to be empty.
pub(crate) fn expect_members(pending: &mut Pending, members: &[i64]) -> Result<(), Fail> {
    for member in members {
        ensure(pending.least() == Some(*member), "another instant")?;
        ensure(pending.take_least() == Some(*member), "another is taken")?;
    }
    ensure(pending.least().is_none(), "an instant is left")?;
    ensure(pending.take_least().is_none(), "an instant is taken")
}

/// Pairs of instants, and the order in which the set returns them. The set is a ring of 187,200 cells, and an instant
/// is in the cell of its seconds modulo 187,200. The end of the ring is between the instants of the second pair. The
/// instants of the third pair are as far apart as instants in the set may be.
static PAIRS: [(i64, i64, [i64; 2]); 3] = [
    (100, 50, [50, 100]),
    (187_199, 187_201, [187_199, 187_201]),
    (187_199, 0, [0, 187_199]),
];

#[test]
fn each_once_rising(rt: HostRuntime) -> Result<(), Fail> {
    for (one, other, members) in &PAIRS {
        let mut pending = Pending::new(rt.alloc())?;
        put_three(&mut pending, *one, *other)?;
        expect_members(&mut pending, members)?;
    }
    Ok(())
}

/// Calls `first_set` with no words at all, and then with as many words as the set of pending instants has: first with
/// all words 0, and then with all words 0 but the last one.
#[test]
fn first_set_word() -> Result<(), Fail> {
    let mut cells = [0; 2_925];
    ensure(first_set(&[]).is_none(), "no words")?;
    ensure(first_set(&cells).is_none(), "all 0")?;
    cells[2_924] = 1;
    ensure(first_set(&cells) == Some(2_924), "the last word")
}

/// Checks that `first_set` finds the only word that is not 0, at each index of a slice of up to 70 words.
#[test]
fn each_index() -> Result<(), Fail> {
    for length in 0..=70 {
        for index in 0..length {
            let mut cells = [0; 70];
            cells[index] = 1 << (index % 64);
            if first_set(&cells[..length]) != Some(index) {
                return Err(length.into());
            }
        }
    }
    Ok(())
}
