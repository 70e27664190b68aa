//! Timestamps (systemd.time(7), Parsing Timestamps): valid ones with their moments, in microseconds of Unix time, and
//! invalid ones with their errors. The values are worked out by hand.

use crate::shared::{ensure, instant};
use cal_base::{Setting, SpanFault, Zone, ZoneTable};
use cal_read::StampFault::{self, *};
use cal_read::read_stamp;
use std::alloc::Global;
use std::test::Fail;

mod civil_times;
mod days;
mod offsets;
mod order;
mod span_texts;
mod zones;

/// The instant that is the present in most of these tests, Fri 2012-11-23 10:15:22 UTC, in seconds of Unix time.
const PRESENT: i64 = 1_353_665_722;

/// Timestamps, separated by `|`. In `moments`, each timestamp is followed by an arrow and the microseconds of its
/// moment. In `refusals`, each error is followed by the timestamps that are rejected with this error.
struct Table {
    moments: &'static str,
    refusals: &'static [(StampFault, &'static str)],
}

/// The present in seconds of Unix time, the offset of the local zone in seconds east of UTC (0 for UTC itself), and
/// what timestamps resolve to with this present and this local zone.
struct ZonedTable {
    now: i64,
    east: i32,
    table: Table,
}

/// Valid and invalid timestamps of many forms, in three tables: at +08:00, in UTC, and in UTC when the present is one
/// minute after the start of 1970.
static EACH_FORM: [ZonedTable; 3] = [
    ZonedTable {
        now: PRESENT,
        east: 28_800,
        table: Table {
            moments: "\
11:12 -> 1353640320000000|today UTC -> 1353628800000000|yesterday -> 1353513600000000",
            refusals: &[
                (WrongWeekday, "Mon 2012-11-23"),
                (OutOfRange, "-2000000000"),
                (Empty, ""),
                (BadWeekday, "foo 2012-11-23"),
                (BadDate, "12"),
                (BadTime, "2012-11-23 25:00"),
                (NoSuchDate, "2013-02-29"),
                (BadSpan(SpanFault::UnknownUnit), "+5x"),
                (NoSuchZone, "today Mars/One"),
                (StrayWord, "11:12 UTC x"),
            ],
        },
    },
    ZonedTable {
        now: PRESENT,
        east: 0,
        table: Table {
            moments: "\
@1395716396 -> 1395716396000000|12-11-23 1:2:3.4567891 -> 1353632523456789|70-1-1 -> 0|\
@7258211998.999999 -> 7258211998999999",
            refusals: &[
                (OutOfRange, "@7258211999"),
                (BadSpan(SpanFault::Empty), "+"),
                (BadWeekday, "now UTC|Mon, 2012-11-26"),
                (StrayWord, "tomorrow 12:00"),
                (BadDate, "Thu"),
            ],
        },
    },
    ZonedTable {
        now: 60,
        east: 0,
        table: Table {
            moments: "",
            refusals: &[(OutOfRange, "5min ago|yesterday")],
        },
    },
];

/// Parses a timestamp and returns the microseconds of its moment.
fn micros(setting: Setting<'_>, text: &str) -> Result<i64, StampFault> {
    let moment = read_stamp(text, setting.now, setting.local, setting.zones)?;
    Ok(moment.micros())
}

/// Expects each timestamp to resolve to the microseconds next to it.
fn expect_micros(setting: Setting<'_>, moments: &str) -> Result<(), Fail> {
    if moments.is_empty() {
        return Ok(());
    }
    for line in moments.split('|') {
        let (text, expected) = line.split_once(" -> ").ok_or("no arrow")?;
        ensure(micros(setting, text) == Ok(expected.parse()?), text)?;
    }
    Ok(())
}

/// Expects each timestamp to be rejected with this error.
fn expect_fault(setting: Setting<'_>, fault: StampFault, texts: &str) -> Result<(), Fail> {
    for text in texts.split('|') {
        ensure(micros(setting, text) == Err(fault), text)?;
    }
    Ok(())
}

/// Expects the valid timestamps of the table to resolve to their moments, and the invalid ones to be rejected with
/// their errors.
fn expect_moments(now: i64, local: Zone<'_>, zones: &ZoneTable, table: &Table) -> Result<(), Fail> {
    let setting = Setting {
        now: instant(now)?,
        local,
        zones,
    };
    expect_micros(setting, table.moments)?;
    for (fault, texts) in table.refusals {
        expect_fault(setting, *fault, texts)?;
    }
    Ok(())
}

/// Expects the valid timestamps of each table to resolve to their moments, and the invalid ones to be rejected with
/// their errors. There are no named zones.
fn expect_zoned_tables(alloc: Global, rows: &[ZonedTable]) -> Result<(), Fail> {
    let zones = ZoneTable::new(alloc);
    for row in rows {
        let local = zone_east(row.east)?;
        expect_moments(row.now, local, &zones, &row.table)?;
    }
    Ok(())
}

/// Expects the valid timestamps of the table to resolve to their moments, and the invalid ones to be rejected with
/// their errors, if the present is [`PRESENT`] and the local zone is UTC. There are no named zones.
fn expect_in_utc(alloc: Global, table: &Table) -> Result<(), Fail> {
    expect_moments(PRESENT, Zone::utc(), &ZoneTable::new(alloc), table)
}

/// Returns the zone this many seconds east of UTC, or UTC itself for 0.
fn zone_east(seconds: i32) -> Result<Zone<'static>, Fail> {
    if seconds == 0 {
        return Ok(Zone::utc());
    }
    if seconds < -93_599 || seconds > 93_599 {
        return Err(seconds.into());
    }
    Ok(Zone::offset(seconds))
}

#[test]
fn each_form(rt: HostRuntime) -> Result<(), Fail> {
    expect_zoned_tables(rt.alloc(), &EACH_FORM)
}
