//! The elapses of one expression in a zone, and of several expressions merged. Expected instants are worked out by
//! hand, or found by testing every local second.

mod filter;
mod merges;

use crate::shared::{NEW_YEAR, ensure, expr, instant};
use cal_base::Zone;
use cal_elapse::{Elapses, Rising};
use std::alloc::Global;
use std::test::Fail;

/// Parses an expression and returns its elapses that are later than `base`.
pub(crate) fn elapses_of<'z>(
    alloc: Global,
    text: &str,
    zone: Zone<'z>,
    base: i64,
) -> Result<Elapses<'z>, Fail> {
    let expr = expr(alloc, text)?;
    Ok(Elapses::new(alloc, &expr, zone, instant(base)?)?)
}

/// Expects `next` to return `answers`, in this order. Just before `next` returns a number, `has` must not return
/// `Some(false)` for this number.
fn expect_answers(
    elapses: &mut Elapses<'_>,
    answers: &[Option<i64>],
    about: &str,
) -> Result<(), Fail> {
    for answer in answers {
        if let Some(number) = *answer {
            ensure(elapses.has(number) != Some(false), about)?;
        }
        ensure(elapses.next() == *answer, about)?;
    }
    Ok(())
}

/// An expression, a base time, and the first elapses after it, followed by `None` if there are no more.
type Row = (&'static str, i64, &'static [Option<i64>]);

/// Expects the expression of a row to have the elapses of this row as its first elapses after the base time.
fn expect_elapses(alloc: Global, zone: Zone<'_>, row: &Row) -> Result<(), Fail> {
    let (text, base, answers) = row;
    let mut elapses = elapses_of(alloc, text, zone, *base)?;
    expect_answers(&mut elapses, answers, text)
}

/// UTC offsets in seconds, each with a row for a zone at that offset.
static AT_OFFSETS: [(i32, Row); 6] = [
    // In the first two rows, the last elapse is the last local second of 2199 at -10:00, which comes after 2199 has
    // ended in UTC. The base of the second row is this elapse, so no elapse is left.
    (
        -36_000,
        ("23:59:59", 7_258_118_398, &[Some(7_258_154_399), None]),
    ),
    (-36_000, ("23:59:59", 7_258_154_399, &[None])),
    // In the next two rows, the expression matches every second.
    (
        19_800,
        (
            "*:*:*",
            NEW_YEAR,
            &[
                Some(1_704_067_201),
                Some(1_704_067_202),
                Some(1_704_067_203),
            ],
        ),
    ),
    (
        19_800,
        (
            "*:*:*",
            1_704_067_202,
            &[Some(1_704_067_203), Some(1_704_067_204)],
        ),
    ),
    // In the last two rows: at the largest offset east, the first two local midnights are before 1970 in UTC; at the
    // largest offset west, the last elapse is the last supported instant.
    (93_599, ("daily", 0, &[Some(79_201)])),
    (
        -93_599,
        ("*:*:*", 7_258_211_997, &[Some(7_258_211_998), None]),
    ),
];

#[test]
fn at_offsets(rt: HostRuntime) -> Result<(), Fail> {
    for (offset, row) in &AT_OFFSETS {
        if *offset < -93_599 || *offset > 93_599 {
            return Err((*offset).into());
        }
        expect_elapses(rt.alloc(), Zone::offset(*offset), row)?;
    }
    Ok(())
}

/// Counts the searches for an expression that matches every second. `new` makes the first search, and every later
/// search follows a local second that was found. When the third elapse has been returned, these local seconds are, in
/// any zone, the 187,202 from 93,599 seconds before the base to 93,599 seconds after this elapse. Each search examines
/// only the month in which it starts.
#[test]
fn searches_of_every_second(rt: HostRuntime) -> Result<(), Fail> {
    let mut elapses = elapses_of(rt.alloc(), "*:*:*", Zone::utc(), NEW_YEAR)?;
    let before = elapses.searches();
    for _ in 0..3 {
        let _elapse = elapses.next();
    }
    let counts = (before, elapses.searches(), elapses.most_months());
    ensure(counts == (1, 187_203, 1), "searches or months")
}

/// Returns the next elapse and the number of searches made so far.
fn next_counted(elapses: &mut Elapses<'_>) -> (Option<i64>, u64) {
    let elapse = elapses.next();
    (elapse, elapses.searches())
}

/// A search that finds nothing is counted too. After the last elapse there are no more searches.
#[test]
fn searches_to_the_end(rt: HostRuntime) -> Result<(), Fail> {
    let mut elapses = elapses_of(rt.alloc(), "2024-01-02", Zone::utc(), NEW_YEAR)?;
    for answer in &[(Some(1_704_153_600), 2), (None, 2), (None, 2)] {
        ensure(next_counted(&mut elapses) == *answer, "2024-01-02")?;
    }
    Ok(())
}
