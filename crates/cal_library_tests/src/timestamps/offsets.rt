//! Timestamps with a fixed offset in place of a zone name, and parsing printed instants.

use super::{PRESENT, Table, ZonedTable, expect_in_utc, expect_zoned_tables};
use cal_base::SpanFault;
use cal_read::StampFault::*;
use std::test::Fail;

/// An offset after each kind of word that it can follow, the smallest and the largest offset, and words that are not
/// offsets.
static OFFSETS: Table = Table {
    moments: "\
2012-11-23 11:12 +08:00 -> 1353640320000000|today +08:00 -> 1353600000000000|\
2012-11-23 +08:00 -> 1353600000000000|2012-11-23 -08:00 -> 1353657600000000|\
2012-11-23 11:12:13.5 -05:30 -> 1353688933500000|Fri 2012-11-23 11:12 +08:00 -> 1353640320000000|\
Fri 2012-11-23 +08:00 -> 1353600000000000|Fri 11:12 +08:00 -> 1353640320000000|11:12 +08:00 -> 1353640320000000|\
11:12 +14:00 -> 1353705120000000|Sat 11:12 +14:00 -> 1353705120000000|Thu 11:12 -11:00 -> 1353622320000000|\
11:12 -00:00 -> 1353669120000000|11:12 +00:00 -> 1353669120000000|yesterday -11:00 -> 1353495600000000|\
tomorrow +14:00 -> 1353751200000000|today -25:59 -> 1353635940000000|today +25:59 -> 1353621660000000|\
\x20today\t+08:00\x20 -> 1353600000000000|12-11-23 1:2 +00:01 -> 1353632460000000|\
2012-11-23 1:2\t -25:59 -> 1353726060000000|1970-1-1 -00:01 -> 60000000|70-1-1 1:0 +01:00 -> 0|\
2199-12-31 23:59:59 -25:59 -> 7258211939000000",
    refusals: &[
        (
            StrayWord,
            "\
2012-11-23 +8|2012-11-23 +26:00|2012-11-23 -26:00|2012-11-23 +02:60|2012-11-23 +2:00|2012-11-23 +0200|\
2012-11-23 +02|2012-11-23 +|2012-11-23 -|2012-11-23 +02:00:00|2012-11-23 +UTC|2012-11-23 \u{2212}02:00|\
2012-11-23 1:2 +8|2012-11-23 1:2 +02:00 UTC|2012-11-23 1:2 UTC +02:00|2012-11-23 +02:00 UTC|\
2012-11-23 +02:00 12:00|2012-11-23 +02:00 +02:00|1:2 +2:00|1:2 +02:00 x|1:2 -99:00|today +26:00|today +8|\
today -|today UTC +02:00|yesterday +02:00 UTC|tomorrow +02:00 12:00",
        ),
        (BadTime, "Fri +02:00|Fri -02:00|25:00 +x"),
        (BadDate, "Fri +5|Fri -5|12 +02:00|Fri +2012-11-23"),
        (BadWeekday, "foo +02:00|now +02:00"),
        (NoSuchDate, "2013-02-29 +x"),
        (
            WrongWeekday,
            "Mon 2012-11-23 +02:00|Fri 11:12 +14:00|Fri 11:12 -11:00",
        ),
        (
            BadSpan(SpanFault::BadNumber),
            "+02:00|-02:00|+02:00 2012-11-23",
        ),
    ],
};

/// The first moment, the last one that can be written with an offset, and offsets that shift a local time into the
/// supported range or out of it.
static RANGE_ENDS: [ZonedTable; 1] = [ZonedTable {
    now: PRESENT,
    east: 7_200,
    table: Table {
        moments: "\
1970-1-1 +00:00 -> 0|1970-1-2 1:59 +25:59 -> 0|2199-12-31 23:59:59.999999 -25:59 -> 7258211939999999",
        refusals: &[(
            OutOfRange,
            "1970-1-1 +00:01|1970-1-1 0:59 +01:00|1970-1-2 1:58:59 +25:59",
        )],
    },
}];

/// Instants as reports print them: at both occurrences of a repeated local time, one day before and one day after a
/// skipped local time, and at the ends of the range. A printed instant is not a valid timestamp if its offset has
/// seconds, or if its local year is 1969 or 2200.
static LINES_OF_REPORTS: [ZonedTable; 1] = [ZonedTable {
    now: 0,
    east: 19_800,
    table: Table {
        moments: "\
Mon 2024-01-01 12:30:00 UTC -> 1704112200000000|Mon 2024-01-01 05:30:01 +05:30 -> 1704067201000000|\
Sun 2024-10-27 02:30:00 +02:00 -> 1729989000000000|Sun 2024-10-27 02:30:00 +01:00 -> 1729992600000000|\
Sat 2024-03-30 02:30:00 +01:00 -> 1711762200000000|Mon 2024-04-01 02:30:00 +02:00 -> 1711931400000000|\
Mon 2024-01-01 12:30:00 +00:00 -> 1704112200000000|Tue 2199-12-31 23:59:59 -10:00 -> 7258154399000000|\
Thu 1970-01-01 00:00:00 UTC -> 0",
        refusals: &[
            (
                StrayWord,
                "\
Thu 1970-01-01 00:53:28 +00:53:28|Thu 1970-01-01 01:46:41 -25:59:59|Tue 2199-12-31 23:59:59 -25:59:59",
            ),
            (
                NoSuchDate,
                "\
Wed 2200-01-01 09:59:59 UTC|Wed 2200-01-01 01:58:59 +00:00|Wed 1969-12-31 23:59:59 -00:01",
            ),
        ],
    },
}];

#[test]
fn offsets(rt: HostRuntime) -> Result<(), Fail> {
    expect_in_utc(rt.alloc(), &OFFSETS)
}

#[test]
fn range_ends(rt: HostRuntime) -> Result<(), Fail> {
    expect_zoned_tables(rt.alloc(), &RANGE_ENDS)
}

#[test]
fn lines_of_reports(rt: HostRuntime) -> Result<(), Fail> {
    expect_zoned_tables(rt.alloc(), &LINES_OF_REPORTS)
}
