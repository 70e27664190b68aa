//! Elapses compared with the instants that are found by testing every local second.

use super::merges::merge_elapses;
use crate::numbers::expect_first;
use crate::shared::{FORWARD_AND_BACK, ensure, posix};
use cal_base::{Zone, place};
use cal_elapse::Rising;
use std::alloc::Global;
use std::test::Fail;

/// The instants that are compared are later than this one. The rule [`FORWARD_AND_BACK`] has both its transitions in
/// the three days after it.
const BASE: i64 = 1_711_756_800;

/// The last instant that is compared, three days after [`BASE`].
const LIMIT: i64 = 1_712_016_000;

/// The largest UTC offset of a zone, east or west, in seconds.
const MAX_OFFSET: i64 = 93_599;

/// Returns whether `*:0/7:13` or `*:*:30` matches a local second.
fn is_in_either(local: i64) -> bool {
    let (minute, second) = (local / 60 % 60, local % 60);
    second == 30 || (second == 13 && minute % 7 == 0)
}

/// Returns the instants after [`BASE`] and up to [`LIMIT`] at which the zone's clock first shows a local second: any
/// local second if `is_every` is true, and otherwise one that `*:0/7:13` or `*:*:30` matches. The instants are sorted,
/// and each is in the list once.
fn by_filter(alloc: Global, zone: Zone<'_>, is_every: bool) -> Result<Vec<i64>, Fail> {
    let mut instants = Vec::new(alloc);
    for local in BASE - MAX_OFFSET..=LIMIT + MAX_OFFSET {
        if local < 0 || local > 7_258_118_399 {
            return Err(local.into());
        }
        if !is_every && !is_in_either(local) {
            continue;
        }
        match place(zone, local) {
            Some(instant) if instant > BASE && instant <= LIMIT => instants.push(instant)?,
            _ => {}
        }
    }
    instants.sort_unstable();
    instants.dedup();
    Ok(instants)
}

/// Expects the source to return these instants, and then no other instant up to [`LIMIT`].
fn expect_all<S: Rising>(source: &mut S, instants: &[i64]) -> Result<(), Fail> {
    expect_first(source, instants)?;
    let after = source.next().unwrap_or(i64::MAX);
    ensure(after > LIMIT, "one more in the range")
}

/// Expects the merged elapses of the expressions to be the instants that `by_filter` returns.
fn agree(alloc: Global, texts: &[&str], is_every: bool) -> Result<(), Fail> {
    let rules = posix(alloc, FORWARD_AND_BACK)?;
    let zone = Zone::rules(&rules);
    let instants = by_filter(alloc, zone, is_every)?;
    let mut merge = merge_elapses(alloc, texts, zone, BASE)?;
    expect_all(&mut merge, &instants)
}

/// Compares the elapses of an expression that matches every second with the instants that `by_filter` returns.
#[test]
fn forward_and_soon_back(rt: HostRuntime) -> Result<(), Fail> {
    agree(rt.alloc(), &["*:*:*"], true)
}

/// Compares the merged elapses of two expressions with the instants that `by_filter` returns.
#[test]
fn merged_forward_and_soon_back(rt: HostRuntime) -> Result<(), Fail> {
    agree(rt.alloc(), &["*:0/7:13", "*:*:30"], false)
}
