//! Converting local seconds to Unix time, around transitions and at fixed offsets. The place of a local second is the
//! second of Unix time at which the zone's clock first shows it. To settle a local second is to convert it even if the
//! clock skips it.

use crate::shared::{SUMMER_TIME, posix};
use cal_base::{Zone, place, settle};
use std::test::Fail;

/// Expects `place` to return what is next to each local second: its place, or `None` if it has no place.
fn expect_places(zone: Zone, rows: &[(i64, Option<i64>)]) -> Result<(), Fail> {
    for (local, instant) in rows {
        if *local < 0 || *local > 7_258_118_399 || place(zone, *local) != *instant {
            return Err((*local).into());
        }
    }
    Ok(())
}

/// Expects each local second to settle to the Unix second next to it.
fn expect_settled(zone: Zone, rows: &[(i64, i64)]) -> Result<(), Fail> {
    for (local, second) in rows {
        if *local < -300_000 || *local > 7_258_500_000 || settle(zone, *local) != *second {
            return Err((*local).into());
        }
    }
    Ok(())
}

/// In the gap from 02:00 to 03:00 on 2024-03-31 a local second has no place, and settling moves it forward by the
/// length of the gap. In the fold from 02:00 to 03:00 on 2024-10-27 the place of a local second is its first
/// occurrence.
#[test]
fn gap_and_fold(rt: HostRuntime) -> Result<(), Fail> {
    let rules = posix(rt.alloc(), SUMMER_TIME)?;
    expect_places(
        Zone::rules(&rules),
        &[
            (1_711_850_399, Some(1_711_846_799)),
            (1_711_850_400, None),
            (1_711_852_200, None),
            (1_711_853_999, None),
            (1_711_854_000, Some(1_711_846_800)),
            (1_729_994_400, Some(1_729_987_200)),
            (1_729_996_200, Some(1_729_989_000)),
            (1_729_997_999, Some(1_729_990_799)),
            (1_729_998_000, Some(1_729_994_400)),
        ],
    )?;
    expect_settled(
        Zone::rules(&rules),
        &[
            (1_711_850_399, 1_711_846_799),
            (1_711_850_400, 1_711_846_800),
            (1_711_852_200, 1_711_848_600),
            (1_711_853_999, 1_711_850_399),
            (1_711_854_000, 1_711_846_800),
            (1_729_996_200, 1_729_989_000),
            (1_729_997_999, 1_729_990_799),
            (-300_000, -303_600),
            (7_258_500_000, 7_258_496_400),
        ],
    )
}

/// UTC offsets in seconds, each with a local second and its Unix second.
static AT_OFFSETS: [(i32, i64, i64); 4] = [
    (0, 1_704_067_200, 1_704_067_200),
    // In the next two rows: the first local second at the largest offset east, and the last one at the largest offset
    // west.
    (93_599, 0, -93_599),
    (-93_599, 7_258_118_399, 7_258_211_998),
    (3_208, 3_208, 0),
];

#[test]
fn fixed_offsets() -> Result<(), Fail> {
    for (offset, local, second) in &AT_OFFSETS {
        if *offset < -93_599 || *offset > 93_599 {
            return Err((*offset).into());
        }
        let zone = Zone::offset(*offset);
        expect_places(zone, &[(*local, Some(*second))])?;
        expect_settled(zone, &[(*local, *second)])?;
    }
    expect_settled(Zone::offset(93_599), &[(-300_000, -393_599)])?;
    expect_settled(Zone::offset(-93_599), &[(7_258_500_000, 7_258_593_599)])
}
