//! Timestamps with two errors: the leftmost word's error comes first, then `WrongWeekday`, then `OutOfRange`.

use super::{PRESENT, Table, ZonedTable, expect_in_utc, expect_zoned_tables};
use cal_read::StampFault::*;
use std::test::Fail;

/// If several words are invalid, the leftmost error is reported.
static EARLIER_WORDS_FIRST: Table = Table {
    moments: "",
    refusals: &[
        (
            BadWeekday,
            "foo 2012-13-1|foo 12|foo 25:00|foo 1:2 Mars/One|foo 1:2 UTC x",
        ),
        (BadDate, "12 25:00|12 Mars/One|12 -|Mon 12 25:00"),
        (
            NoSuchDate,
            "2013-02-29 25:00|2013-02-29 Mars/One|2013-02-29 -|Mon 2013-02-29",
        ),
        (
            BadTime,
            "\
2012-11-23 25:00 Mars/One|2012-11-23 25:00 -|25:00 Mars/One|25:00 2013-02-29|25:00 12",
        ),
        (
            NoSuchZone,
            "1:2 Mars/One x|2012-11-23 Mars/One x|1:2 Mars/One 25:00|today Mars/One x",
        ),
        (
            StrayWord,
            "1:2 - Mars/One|2012-11-23 - 25:00|today - Mars/One|today 25:00 Mars/One",
        ),
    ],
};

/// The weekday is compared with the date only after all words are parsed.
static WEEKDAYS_AFTER_WORDS: Table = Table {
    moments: "",
    refusals: &[
        (BadTime, "Mon 2012-11-23 25:00|Mon 25:00"),
        (NoSuchZone, "Mon 2012-11-23 1:2 Mars/One|Mon 1:2 Mars/One"),
        (
            StrayWord,
            "Mon 2012-11-23 1:2 UTC x|Mon 2012-11-23 -|Mon 1:2 -",
        ),
        (WrongWeekday, "Mon 2012-11-23 1:2|Mon 1:2"),
    ],
};

/// Whether the moment is in the supported range is checked last.
static RANGE_LAST: [ZonedTable; 2] = [
    ZonedTable {
        now: PRESENT,
        east: 3_600,
        table: Table {
            moments: "1970-1-1 1:0 -> 0|Thu 1970-1-1 1:0 -> 0",
            refusals: &[
                (OutOfRange, "1970-1-1|Thu 1970-1-1|1970-1-1 0:59:59.999999"),
                (WrongWeekday, "Fri 1970-1-1"),
                (BadTime, "1970-1-1 25:00"),
                (NoSuchZone, "1970-1-1 0:0 Mars/One"),
                (StrayWord, "1970-1-1 0:0 -"),
            ],
        },
    },
    ZonedTable {
        now: PRESENT,
        east: -93_599,
        table: Table {
            moments: "\
2199-12-31 23:59:59.999999 -> 7258211998999999|Tue 2199-12-31 23:59:59 -> 7258211998000000",
            refusals: &[(WrongWeekday, "Wed 2199-12-31 23:59:59")],
        },
    },
];

#[test]
fn order(rt: HostRuntime) -> Result<(), Fail> {
    expect_in_utc(rt.alloc(), &EARLIER_WORDS_FIRST)?;
    expect_in_utc(rt.alloc(), &WEEKDAYS_AFTER_WORDS)?;
    expect_zoned_tables(rt.alloc(), &RANGE_LAST)
}
