//! `today`, `yesterday` and `tomorrow`, and times without a date, which are on the present day.

use super::{PRESENT, Table, ZonedTable, expect_in_utc, expect_moments, expect_zoned_tables};
use crate::shared::posix;
use cal_base::{Zone, ZoneTable};
use cal_read::StampFault::*;
use std::test::Fail;

/// Yesterday, today and tomorrow, in UTC and at +14:00, where the next day has already begun.
static RELATIVE_DAYS: [ZonedTable; 2] = [
    ZonedTable {
        now: PRESENT,
        east: 0,
        table: Table {
            moments: "\
today -> 1353628800000000|yesterday -> 1353542400000000|tomorrow -> 1353715200000000|\
\x20today\t -> 1353628800000000|\ttomorrow  utc\x20 -> 1353715200000000|yesterday\tUTC -> 1353542400000000",
            refusals: &[],
        },
    },
    ZonedTable {
        now: PRESENT,
        east: 50_400,
        table: Table {
            moments: "\
today -> 1353664800000000|yesterday -> 1353578400000000|tomorrow -> 1353751200000000|\
today utc -> 1353628800000000|yesterday Utc -> 1353542400000000|tomorrow UTC -> 1353715200000000|\
12:00 -> 1353708000000000|12:00 UTC -> 1353672000000000|Sat 0:0 -> 1353664800000000|\
Fri 0:0 UTC -> 1353628800000000",
            refusals: &[(WrongWeekday, "Fri 0:0|Sat 0:0 UTC")],
        },
    },
];

/// Misspelled words for days, and words that can't stand before or after a word for a day.
static REFUSED_DAYS: Table = Table {
    moments: "",
    refusals: &[
        (BadWeekday, "Today|TODAY|todays|Yesterday|Tomorrow UTC"),
        (
            StrayWord,
            "\
today 12:00|today 2012-11-23|today +8:00|today /|today UTC x|today UTC UTC|today UTC 5",
        ),
        (
            NoSuchZone,
            "\
today Mars/One|yesterday Fri|tomorrow today|today U!|12:00 today|2012-11-23 today",
        ),
        (BadDate, "Fri today"),
    ],
};

/// Instants in seconds of Unix time, each with what timestamps resolve to if this instant is the present. The clock of
/// the local zone skips midnight on 2024-03-10, and shows midnight on 2024-11-03 twice.
static DAYS_OF_A_CHANGE: [(i64, Table); 2] = [
    // In this row, the present is on the day whose midnight is skipped.
    (
        1_710_086_400,
        Table {
            moments: "\
today -> 1710046800000000|yesterday -> 1709960400000000|tomorrow -> 1710129600000000|0:30 -> 1710048600000000|\
1:00 -> 1710046800000000|Sun 0:0 -> 1710046800000000",
            refusals: &[],
        },
    ),
    // In this row, the present is on the day whose midnight occurs twice.
    (
        1_730_653_200,
        Table {
            moments: "\
today -> 1730606400000000|yesterday -> 1730520000000000|tomorrow -> 1730696400000000|0:30 -> 1730608200000000|\
1:00 -> 1730613600000000",
            refusals: &[],
        },
    ),
];

/// The first and the last days of the supported range.
static FIRST_AND_LAST_DAYS: [ZonedTable; 4] = [
    ZonedTable {
        now: 0,
        east: 0,
        table: Table {
            moments: "today -> 0|tomorrow -> 86400000000|Thu 0:0 -> 0|Thursday 23:59:59.9999999 -> 86399999999",
            refusals: &[(OutOfRange, "yesterday"), (WrongWeekday, "Wed 0:0")],
        },
    },
    ZonedTable {
        now: 0,
        east: 93_599,
        table: Table {
            moments: "tomorrow -> 79201000000|Fri 23:59:59 -> 79200000000",
            refusals: &[(OutOfRange, "today|yesterday")],
        },
    },
    ZonedTable {
        now: 0,
        east: -93_599,
        table: Table {
            moments: "tomorrow -> 7199000000",
            refusals: &[
                (OutOfRange, "yesterday|today|Tue 12:00"),
                (WrongWeekday, "Wed 12:00"),
            ],
        },
    },
    ZonedTable {
        now: 7_258_211_998,
        east: -93_599,
        table: Table {
            moments: "\
today -> 7258125599000000|yesterday -> 7258039199000000|23:59:59.999999 -> 7258211998999999|\
2199-12-31 23:59:59 -> 7258211998000000|Tue 2199-12-31 -> 7258125599000000",
            refusals: &[(OutOfRange, "tomorrow")],
        },
    },
];

#[test]
fn relative_days(rt: HostRuntime) -> Result<(), Fail> {
    expect_zoned_tables(rt.alloc(), &RELATIVE_DAYS)
}

#[test]
fn refused_days(rt: HostRuntime) -> Result<(), Fail> {
    expect_in_utc(rt.alloc(), &REFUSED_DAYS)
}

#[test]
fn days_of_a_change(rt: HostRuntime) -> Result<(), Fail> {
    let zones = ZoneTable::new(rt.alloc());
    let rules = posix(rt.alloc(), "CST5CDT,M3.2.0/0,M11.1.0/1")?;
    for (now, table) in &DAYS_OF_A_CHANGE {
        expect_moments(*now, Zone::rules(&rules), &zones, table)?;
    }
    Ok(())
}

#[test]
fn first_and_last_days(rt: HostRuntime) -> Result<(), Fail> {
    expect_zoned_tables(rt.alloc(), &FIRST_AND_LAST_DAYS)
}
