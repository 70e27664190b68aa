//! How instants are printed, with the local time that a clock shows.

use crate::shared::{SUMMER_TIME, ensure, instant, posix, zone_file_of_2024};
use cal_base::{Instant, Port, Rules, Zone, write_instant};
use std::alloc::Global;
use std::test::Fail;

/// Returns whether `write_instant` prints the instant as `text`.
fn is_printed(alloc: Global, zone: Zone, instant: Instant, text: &str) -> bool {
    let mut out = Port::new(Vec::new(alloc));
    let written = write_instant(&mut out, zone, instant);
    written.is_ok() && out.into_inner().as_slice() == text.as_bytes()
}

/// Expects each instant to be printed as the text next to it.
fn expect_texts(alloc: Global, zone: Zone, rows: &[(i64, &str)]) -> Result<(), Fail> {
    for (secs, text) in rows {
        ensure(is_printed(alloc, zone, instant(*secs)?, text), text)?;
    }
    Ok(())
}

#[test]
fn in_utc(rt: HostRuntime) -> Result<(), Fail> {
    expect_texts(
        rt.alloc(),
        Zone::utc(),
        &[
            (1_582_934_400, "Sat 2020-02-29 00:00:00 UTC"),
            (0, "Thu 1970-01-01 00:00:00 UTC"),
            // In the next three rows: the last second of 2199 in UTC, the last second of 2199 at -10:00, and the last
            // supported instant.
            (7_258_118_399, "Tue 2199-12-31 23:59:59 UTC"),
            (7_258_154_399, "Wed 2200-01-01 09:59:59 UTC"),
            (7_258_211_998, "Thu 2200-01-02 01:59:58 UTC"),
        ],
    )
}

/// UTC offsets in seconds, each with an instant and how it is printed at that offset.
static BY_OFFSET: [(i32, i64, &str); 7] = [
    (0, 0, "Thu 1970-01-01 00:00:00 +00:00"),
    // In the next three rows: offsets with seconds, up to the largest ones west and east of UTC.
    (3_208, 0, "Thu 1970-01-01 00:53:28 +00:53:28"),
    (-93_599, 100_000, "Thu 1970-01-01 01:46:41 -25:59:59"),
    (93_599, 79_201, "Sat 1970-01-03 00:00:00 +25:59:59"),
    // In the next row: the last second of 2199 at -10:00.
    (-36_000, 7_258_154_399, "Tue 2199-12-31 23:59:59 -10:00"),
    // In the last two rows: offsets of less than an hour west of UTC.
    (-1, 0, "Wed 1969-12-31 23:59:59 -00:00:01"),
    (-60, 0, "Wed 1969-12-31 23:59:00 -00:01"),
];

#[test]
fn at_offsets(rt: HostRuntime) -> Result<(), Fail> {
    for (offset, secs, text) in &BY_OFFSET {
        if *offset < -93_599 || *offset > 93_599 {
            return Err((*offset).into());
        }
        expect_texts(rt.alloc(), Zone::offset(*offset), &[(*secs, *text)])?;
    }
    Ok(())
}

/// Instants around the two transitions of 2024, each with how it is printed. At two of these instants, the clock shows
/// the same local time.
static IN_2024: [(i64, &str); 6] = [
    (1_711_762_200, "Sat 2024-03-30 02:30:00 +01:00"),
    (1_711_846_799, "Sun 2024-03-31 01:59:59 +01:00"),
    (1_711_846_800, "Sun 2024-03-31 03:00:00 +02:00"),
    (1_729_989_000, "Sun 2024-10-27 02:30:00 +02:00"),
    (1_729_992_600, "Sun 2024-10-27 02:30:00 +01:00"),
    // The last row is in the year after the transitions that the zone file lists.
    (1_751_328_000, "Tue 2025-07-01 02:00:00 +02:00"),
];

/// Tests a zone with a POSIX rule first, and then the same zone with a zone file that lists the transitions of 2024.
#[test]
fn by_rules(rt: HostRuntime) -> Result<(), Fail> {
    let rules = posix(rt.alloc(), SUMMER_TIME)?;
    expect_texts(rt.alloc(), Zone::rules(&rules), &IN_2024)?;
    let bytes = zone_file_of_2024(rt.alloc())?;
    let Ok(rules) = Rules::file(rt.alloc(), "Europe/Berlin", bytes.as_slice()) else {
        return Err("a zone file is refused".into());
    };
    expect_texts(rt.alloc(), Zone::rules(&rules), &IN_2024)
}
