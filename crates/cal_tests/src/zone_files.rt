//! Loading zone files into the table of zones, and rejecting invalid ones.

use cal_bytes::{Faulty, Port, Then};
use cal_library_tests::shared::{ensure, zone_file};
use cal_zone::LoadFault::{self, Zone};
use cal_zone::ZoneFault::{self, BadFile, BadName, NameTaken, TooLarge};
use cal_zone::{ZoneTable, load_zone, place};
use std::alloc::Global;
use std::test::Fail;

/// Returns the instant of local midnight on 2024-01-01 in the zone with this name, if there is one.
fn midnight(table: &ZoneTable, name: &str) -> Option<i64> {
    place(table.find(name)?, 1_704_067_200)
}

/// Returns the instants of local midnight on 2024-01-01 in `UTC`, `Test/Fixed`, `Test/A` and `1x`.
fn midnights(table: &ZoneTable) -> [Option<i64>; 4] {
    [
        midnight(table, "UTC"),
        midnight(table, "Test/Fixed"),
        midnight(table, "Test/A"),
        midnight(table, "1x"),
    ]
}

/// The instant of local midnight on 2024-01-01 in UTC.
const IN_UTC: Option<i64> = Some(1_704_067_200);

/// The instant of local midnight on 2024-01-01 in a zone that is one hour ahead of UTC.
const HOUR_AHEAD: Option<i64> = Some(1_704_063_600);

/// A file to be loaded under a name, the expected result, and what [`midnights`] should return afterwards.
#[derive(Clone, Copy)]
struct Row<'a> {
    name: &'a str,
    bytes: &'a [u8],
    /// Number of bytes after which the source does what `then` says.
    limit: usize,
    then: Then,
    want: Result<(), LoadFault>,
    midnights: [Option<i64>; 4],
}

/// Loads the file of each row, in order, into one table, and expects the results of the rows.
fn check(alloc: Global, rows: &[Row<'_>]) -> Result<(), Fail> {
    let mut table = ZoneTable::new(alloc);
    for row in rows {
        let loaded = load(alloc, &mut table, row)?;
        expect_loaded(row, loaded)?;
        ensure(midnights(&table) == row.midnights, row.name)?;
    }
    Ok(())
}

/// The result of loading a file, and whether its source failed.
type Loaded = (Result<(), LoadFault>, bool);

/// Loads the file of a row into the table, from a source that returns at most 50 bytes in each call.
fn load(alloc: Global, table: &mut ZoneTable, row: &Row<'_>) -> Result<Loaded, Fail> {
    let bytes = row.bytes.to_vec(alloc)?;
    let mut from = Port::new(Faulty::new(bytes, 50, row.limit, row.then));
    let loaded = load_zone(alloc, table, row.name, &mut from);
    Ok((loaded, from.failed()))
}

/// Expects the result of loading the file to be the one that the row wants, and the source to have failed if and only
/// if this result is `ReadFailed`.
fn expect_loaded(row: &Row<'_>, (loaded, failed): Loaded) -> Result<(), Fail> {
    ensure(loaded == row.want, row.name)?;
    ensure(failed == (row.want == Err(LoadFault::ReadFailed)), row.name)
}

/// Returns the row for a zone file that is loaded under the name `Test/Fixed`.
fn row_of(bytes: &[u8]) -> Row<'_> {
    Row {
        name: "Test/Fixed",
        bytes,
        limit: AMPLE_LIMIT,
        then: Then::Error,
        want: Ok(()),
        midnights: [IN_UTC, HOUR_AHEAD, None, None],
    }
}

#[test]
fn one_name_more(rt: HostRuntime) -> Result<(), Fail> {
    let bytes = zone_file(rt.alloc())?;
    let first = row_of(bytes.as_slice());
    let second = Row {
        name: "Test/A",
        midnights: [IN_UTC, HOUR_AHEAD, HOUR_AHEAD, None],
        ..first
    };
    check(rt.alloc(), &[first, second])
}

/// A limit that lets a source return only a part of the zone file.
const CUTTING_LIMIT: usize = 9;

/// A limit that lets a source return the whole zone file.
const AMPLE_LIMIT: usize = 999;

/// Files that can't be loaded: the name, how many bytes the source returns, what it does after them, and the expected
/// error. If a file has several errors, an invalid name is reported first, then an error in reading, then invalid
/// contents, and last a name that is taken.
static REFUSALS: [(&str, usize, Then, LoadFault); 8] = [
    ("1x", CUTTING_LIMIT, Then::Error, Zone(BadName)),
    ("1x", CUTTING_LIMIT, Then::Endless, Zone(BadName)),
    ("Test/A", CUTTING_LIMIT, Then::Error, LoadFault::ReadFailed),
    (
        "utc",
        CUTTING_LIMIT,
        Then::Interrupted,
        LoadFault::ReadFailed,
    ),
    ("utc", CUTTING_LIMIT, Then::Endless, Zone(TooLarge)),
    ("utc", CUTTING_LIMIT, Then::Zero, Zone(BadFile)),
    ("utc", AMPLE_LIMIT, Then::Error, Zone(NameTaken)),
    ("Test/Fixed", AMPLE_LIMIT, Then::Error, Zone(NameTaken)),
];

/// Checks that a file that can't be loaded leaves the table unchanged.
#[test]
fn refusals_in_order(rt: HostRuntime) -> Result<(), Fail> {
    let bytes = zone_file(rt.alloc())?;
    let first = row_of(bytes.as_slice());
    for (name, limit, then, fault) in &REFUSALS {
        let second = Row {
            name,
            limit: *limit,
            then: *then,
            want: Err(*fault),
            ..first
        };
        check(rt.alloc(), &[first, second])?;
    }
    Ok(())
}

/// Expects bytes that are not a zone file to be rejected with this error.
fn check_bytes(alloc: Global, bytes: &[u8], fault: ZoneFault) -> Result<(), Fail> {
    let row = Row {
        name: "Test/A",
        bytes,
        limit: bytes.len(),
        then: Then::Zero,
        want: Err(Zone(fault)),
        midnights: [IN_UTC, None, None, None],
    };
    check(alloc, &[row])
}

/// Tests three files that are not zone files. The last two have the largest size that a zone file may have, and one
/// byte more.
#[test]
fn bytes_that_are_no_zone_file(rt: HostRuntime) -> Result<(), Fail> {
    check_bytes(rt.alloc(), b"hello", BadFile)?;
    let zeros: Vec<u8> = vec![in rt.alloc(); 0; 1_048_577]?;
    check_bytes(rt.alloc(), &zeros[1..], BadFile)?;
    check_bytes(rt.alloc(), &zeros, TooLarge)
}
