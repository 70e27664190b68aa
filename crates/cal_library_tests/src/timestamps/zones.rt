//! Zone names as the last word of a timestamp.

use super::{PRESENT, Table, expect_moments, zone_east};
use crate::shared::{SUMMER_TIME, ensure, posix};
use cal_base::{Zone, ZoneTable};
use cal_read::StampFault::*;
use std::alloc::Global;
use std::test::Fail;

/// Zone names have to match exactly, except that case is ignored in `UTC`.
static NAMES: Table = Table {
    moments: "\
2012-11-23 Test/Fixed -> 1353625200000000|2012-11-23 1:2 Test/Fixed -> 1353628920000000|\
Fri 1:2\tTest/Fixed\x20 -> 1353628920000000|today Test/Fixed -> 1353625200000000|tomorrow A -> 1353733200000000|\
1:2 A -> 1353650520000000|1:2 utc -> 1353632520000000|1:2 Utc -> 1353632520000000",
    refusals: &[
        (
            NoSuchZone,
            "\
1:2 test/fixed|1:2 Test/Fixe|1:2 Test/Fixed/|1:2 a|1:2 CET|1:2 Test,Fixed|1:2 T\u{e4}",
        ),
        (StrayWord, "1:2 /Test|1:2 1A|1:2 \u{e4}|1:2 Test/Fixed A"),
    ],
};

/// `today` and times without a date are on the present day in the named zone, even if it is another day in the local
/// zone.
static DAYS_OF_THE_ZONE_NAMED: Table = Table {
    moments: "\
today East -> 1353664800000000|1:2 East -> 1353668520000000|Sat 1:2 East -> 1353668520000000|\
today West -> 1353582000000000|Thu 1:2 West -> 1353585720000000|2012-11-23 West -> 1353668400000000",
    refusals: &[(WrongWeekday, "Fri 1:2 East|Fri 1:2 West")],
};

/// A local time that the clock skips is moved forward by the length of the gap, and a local time that the clock shows
/// twice resolves to the first occurrence.
static CHANGES_OF_A_CLOCK: Table = Table {
    moments: "\
2024-03-31 01:59:59.5 -> 1711846799500000|2024-03-31 02:00 -> 1711846800000000|\
2024-03-31 02:30 -> 1711848600000000|Sun 2024-03-31 02:30:15.25 -> 1711848615250000|\
2024-03-31 03:00 -> 1711846800000000|2024-10-27 02:00 -> 1729987200000000|\
2024-10-27 02:59:59 -> 1729990799000000|2024-10-27 03:00 -> 1729994400000000|\
2024-10-27 02:30 UTC -> 1729996200000000",
    refusals: &[],
};

/// Makes a table of zones from names and POSIX rules.
fn table_of(alloc: Global, zones: &[(&str, &str)]) -> Result<ZoneTable, Fail> {
    let mut table = ZoneTable::new(alloc);
    for (name, rule) in zones {
        ensure(table.add(name, posix(alloc, rule)?).is_ok(), name)?;
    }
    Ok(table)
}

#[test]
fn names(rt: HostRuntime) -> Result<(), Fail> {
    let table = table_of(rt.alloc(), &[("Test/Fixed", "CET-1"), ("A", "EST5")])?;
    expect_moments(PRESENT, Zone::utc(), &table, &NAMES)
}

#[test]
fn days_of_the_zone_named(rt: HostRuntime) -> Result<(), Fail> {
    let table = table_of(rt.alloc(), &[("East", "EAST-14"), ("West", "WEST11")])?;
    let local = zone_east(50_400)?;
    expect_moments(PRESENT, local, &table, &DAYS_OF_THE_ZONE_NAMED)
}

#[test]
fn changes_of_a_clock(rt: HostRuntime) -> Result<(), Fail> {
    let table = ZoneTable::new(rt.alloc());
    let rules = posix(rt.alloc(), SUMMER_TIME)?;
    expect_moments(PRESENT, Zone::rules(&rules), &table, &CHANGES_OF_A_CLOCK)
}
