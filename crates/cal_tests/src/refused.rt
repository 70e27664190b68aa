//! Calls that allocate. `tests/refused.py` makes each of their allocations fail in turn.
//!
//! A test succeeds if every allocation succeeds. Otherwise it fails with the call's `NoMemory` or `AllocError`; if the
//! call promises to leave an argument unchanged, the test first checks that. `tests/refused.py` checks that a test
//! fails if and only if an allocation has failed.

use cal_bytes::Port;
use cal_command::Ask;
use cal_library_tests::shared::{ensure, zone_file};
use cal_zone::{ZoneTable, load_zone};
use std::test::Fail;

static ARGUMENTS: [&str; 4] = [
    "calendar",
    "--iterations=2",
    "--now=@1704067200",
    "*-*-* 12:30:00",
];

#[test]
fn a_command_line(rt: HostRuntime) -> Result<(), Fail> {
    let ask = Ask::of(rt.alloc(), &ARGUMENTS)?;
    ensure(ask.request.iterations == 2, "iterations")
}

/// Checks that the zone is in the zone table if it was loaded, and not in it if memory ran out.
#[test]
fn a_loaded_zone(rt: HostRuntime) -> Result<(), Fail> {
    let bytes = zone_file(rt.alloc())?;
    let mut table = ZoneTable::new(rt.alloc());
    let mut from = Port::new(bytes.as_slice());
    let loaded = load_zone(rt.alloc(), &mut table, "Test/Fixed", &mut from);
    let is_there = table.find("Test/Fixed").is_some();
    ensure(loaded.is_ok() == is_there, "the table")?;
    Ok(loaded?)
}
