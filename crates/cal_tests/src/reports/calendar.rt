//! Calendar reports in UTC.

use super::{CALENDAR, NOON_THIRTY, Row, check};
use std::test::Fail;

/// A report made one second before the last supported local second. The only elapse left is at that local second.
const LAST_SECOND: Row<'static> = Row {
    about: "last second",
    texts: &["*-*-* 23:59:59"],
    iterations: 2,
    now: 7_258_118_398,
    out: "  Original form: *-*-* 23:59:59
Normalized form: *-*-* 23:59:59
    Next elapse: Tue 2199-12-31 23:59:59 UTC
       From now: 1s left
",
    ..CALENDAR
};

const LAST_SECOND_OVER: &str = "  Original form: *-*-* 23:59:59
Normalized form: *-*-* 23:59:59
    Next elapse: never
";

const TWO_TIMES: &str = "  Original form: 12:30
Normalized form: *-*-* 12:30:00
    Next elapse: Mon 2024-01-01 12:30:00 UTC
       From now: 12h 30min left

  Original form: *-*-* 1:2:3
Normalized form: *-*-* 01:02:03
    Next elapse: Mon 2024-01-01 01:02:03 UTC
       From now: 1h 2min 3s left
";

static TIMES_OF_DAY: [Row<'static>; 4] = [
    NOON_THIRTY,
    LAST_SECOND,
    Row {
        about: "last second over",
        now: 7_258_118_399,
        out: LAST_SECOND_OVER,
        ..LAST_SECOND
    },
    Row {
        about: "two times of day",
        texts: &["12:30", "*-*-* 1:2:3"],
        out: TWO_TIMES,
        ..CALENDAR
    },
];

#[test]
fn times_of_day(rt: HostRuntime) -> Result<(), Fail> {
    check(rt.alloc(), &TIMES_OF_DAY)
}

/// A request for the next five leap days, made at noon on 2019-03-15.
pub(super) const LEAP_DAYS: Row<'static> = Row {
    about: "leap days",
    texts: &["*-2-29 0:0:0"],
    iterations: 5,
    now: 1_552_651_200,
    out: "  Original form: *-2-29 0:0:0
Normalized form: *-02-29 00:00:00
    Next elapse: Sat 2020-02-29 00:00:00 UTC
       From now: 11month 2w 1d 16h 30min left
       Iter. #2: Thu 2024-02-29 00:00:00 UTC
       From now: 4y 11month 2w 1d 16h 30min left
       Iter. #3: Tue 2028-02-29 00:00:00 UTC
       From now: 8y 11month 2w 1d 16h 30min left
       Iter. #4: Sun 2032-02-29 00:00:00 UTC
       From now: 12y 11month 2w 1d 16h 30min left
       Iter. #5: Fri 2036-02-29 00:00:00 UTC
       From now: 16y 11month 2w 1d 16h 30min left
",
    ..CALENDAR
};

const LAST_MONDAYS_OF_MAY: &str = "  Original form: Mon *-05~07/1
Normalized form: Mon *-05~07/1 00:00:00
    Next elapse: Mon 2024-05-27 00:00:00 UTC
       From now: 4month 3w 4d 6h left
       Iter. #2: Mon 2025-05-26 00:00:00 UTC
       From now: 1y 4month 3w 3d left
";

const NEVER: &str = "  Original form: 2100-02-29
Normalized form: 2100-02-29 00:00:00
    Next elapse: never
";

const LISTS_OF_WEEKDAYS: &str = "  Original form: Sat,Thu,Mon..Wed,Sat..Sun
Normalized form: Mon..Thu,Sat,Sun *-*-* 00:00:00
    Next elapse: Tue 2024-01-02 00:00:00 UTC
       From now: 1d left

  Original form: Wed, 17:48
Normalized form: Wed *-*-* 17:48:00
    Next elapse: Wed 2024-01-03 17:48:00 UTC
       From now: 2d 17h 48min left
";

/// Leap days, last Mondays of a month, a date that doesn't exist, and lists of weekdays.
static EXPRESSIONS: [Row<'static>; 4] = [
    LEAP_DAYS,
    Row {
        about: "last Mondays of May",
        texts: &["Mon *-05~07/1"],
        iterations: 2,
        out: LAST_MONDAYS_OF_MAY,
        ..CALENDAR
    },
    Row {
        about: "never",
        texts: &["2100-02-29"],
        out: NEVER,
        ..CALENDAR
    },
    Row {
        about: "lists of weekdays",
        texts: &["Sat,Thu,Mon..Wed,Sat..Sun", "Wed, 17:48"],
        out: LISTS_OF_WEEKDAYS,
        ..CALENDAR
    },
];

#[test]
fn expressions(rt: HostRuntime) -> Result<(), Fail> {
    check(rt.alloc(), &EXPRESSIONS)
}
