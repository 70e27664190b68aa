//! Calendar reports in zones other than UTC, and reports with a base time.

use super::{CALENDAR, Local, Row, check};
use std::test::Fail;

/// There is no elapse on 2024-03-31, when the clock skips 02:30.
const GAP: &str = "  Original form: 02:30
Normalized form: *-*-* 02:30:00
    Next elapse: Sat 2024-03-30 02:30:00 +01:00
       (in UTC): Sat 2024-03-30 01:30:00 UTC
       From now: 1h 30min left
       Iter. #2: Mon 2024-04-01 02:30:00 +02:00
       (in UTC): Mon 2024-04-01 00:30:00 UTC
       From now: 2d 30min left
";

/// If a local time occurs twice, the expression elapses at the first occurrence.
const FOLD: &str = "  Original form: 02:30
Normalized form: *-*-* 02:30:00
    Next elapse: Sun 2024-10-27 02:30:00 +02:00
       (in UTC): Sun 2024-10-27 00:30:00 UTC
       From now: 30min left
       Iter. #2: Mon 2024-10-28 02:30:00 +01:00
       (in UTC): Mon 2024-10-28 01:30:00 UTC
       From now: 1d 1h 30min left
";

const FOLD_SECOND_PASS: &str = "  Original form: 02:30
Normalized form: *-*-* 02:30:00
    Next elapse: Mon 2024-10-28 02:30:00 +01:00
       (in UTC): Mon 2024-10-28 01:30:00 UTC
       From now: 1d 20min left
";

const BEFORE_THE_GAP: Row<'static> = Row {
    about: "gap",
    texts: &["02:30"],
    iterations: 2,
    now: 1_711_756_800,
    local: Local::Summer,
    out: GAP,
    ..CALENDAR
};

static CHANGES_OF_THE_OFFSET: [Row<'static>; 3] = [
    BEFORE_THE_GAP,
    Row {
        about: "fold",
        now: 1_729_987_200,
        out: FOLD,
        ..BEFORE_THE_GAP
    },
    Row {
        about: "fold, from its second pass on",
        iterations: 1,
        now: 1_729_991_400,
        out: FOLD_SECOND_PASS,
        ..BEFORE_THE_GAP
    },
];

#[test]
fn changes_of_the_offset(rt: HostRuntime) -> Result<(), Fail> {
    check(rt.alloc(), &CHANGES_OF_THE_OFFSET)
}

const LAST_SECOND_WEST: &str = "  Original form: *-*-* 23:59:59
Normalized form: *-*-* 23:59:59
    Next elapse: Tue 2199-12-31 23:59:59 -10:00
       (in UTC): Wed 2200-01-01 09:59:59 UTC
       From now: 10h 1s left
";

const FARTHEST_WEST: &str = "  Original form: *:*:*
Normalized form: *-*-* *:*:*
    Next elapse: Tue 2199-12-31 23:59:59 -25:59:59
       (in UTC): Thu 2200-01-02 01:59:58 UTC
       From now: 1s left
";

const FARTHEST_EAST: &str = "  Original form: *-*-* 00:00:00
Normalized form: *-*-* 00:00:00
    Next elapse: Sat 1970-01-03 00:00:00 +25:59:59
       (in UTC): Thu 1970-01-01 22:00:01 UTC
       From now: 22h 1s left
";

/// Three elapses in a local zone that is 5 hours and 30 minutes ahead of UTC.
pub(super) const EVERY_SECOND: Row<'static> = Row {
    about: "every second",
    texts: &["*:*:*"],
    iterations: 3,
    local: Local::Offset(19_800),
    out: "  Original form: *:*:*
Normalized form: *-*-* *:*:*
    Next elapse: Mon 2024-01-01 05:30:01 +05:30
       (in UTC): Mon 2024-01-01 00:00:01 UTC
       From now: 1s left
       Iter. #2: Mon 2024-01-01 05:30:02 +05:30
       (in UTC): Mon 2024-01-01 00:00:02 UTC
       From now: 2s left
       Iter. #3: Mon 2024-01-01 05:30:03 +05:30
       (in UTC): Mon 2024-01-01 00:00:03 UTC
       From now: 3s left
",
    ..CALENDAR
};

/// A report made in a zone ten hours behind UTC, 10 hours and 1 second before the clock shows the last supported local
/// second.
const BEFORE_THE_LAST_SECOND: Row<'static> = Row {
    about: "last second west",
    texts: &["*-*-* 23:59:59"],
    iterations: 2,
    now: 7_258_118_398,
    local: Local::Offset(-36_000),
    out: LAST_SECOND_WEST,
    ..CALENDAR
};

static OFFSETS: [Row<'static>; 4] = [
    BEFORE_THE_LAST_SECOND,
    Row {
        about: "last second of the farthest zone west",
        texts: &["*:*:*"],
        iterations: 2,
        now: 7_258_211_997,
        local: Local::Offset(-93_599),
        out: FARTHEST_WEST,
        ..CALENDAR
    },
    Row {
        about: "first midnight of the farthest zone east",
        texts: &["*-*-* 00:00:00"],
        now: 0,
        local: Local::Offset(93_599),
        out: FARTHEST_EAST,
        ..CALENDAR
    },
    EVERY_SECOND,
];

#[test]
fn offsets(rt: HostRuntime) -> Result<(), Fail> {
    check(rt.alloc(), &OFFSETS)
}

const IN_ITS_ZONE: &str = "  Original form: daily Test/Fixed
Normalized form: *-*-* 00:00:00 Test/Fixed
    Next elapse: Mon 2024-01-01 23:00:00 UTC
       From now: 23h left
";

/// An expression with an offset uses this offset, and not the local zone.
const TWO_HOURS_EAST: &str = "  Original form: daily +02:00
Normalized form: *-*-* 00:00:00 +02:00
    Next elapse: Mon 2024-01-01 22:00:00 UTC
       From now: 22h left
";

/// In a zone far west of UTC, the last local seconds of 2199 are already in 2200 in UTC.
const FAR_WEST: &str = "  Original form: *-*-* 23:59:59 -25:59
Normalized form: *-*-* 23:59:59 -25:59
    Next elapse: Wed 2200-01-01 01:58:59 UTC
       From now: 1h 59min left
       Iter. #2: Thu 2200-01-02 01:58:59 UTC
       From now: 1d 1h 59min left
";

static ZONES_OF_EXPRESSIONS: [Row<'static>; 3] = [
    Row {
        about: "zone file, and a zone that isn't there",
        texts: &["daily Test/West", "daily Test/Fixed"],
        out: IN_ITS_ZONE,
        err: "daily Test/West: no such zone\n",
        ..CALENDAR
    },
    Row {
        about: "an expression on a clock two hours ahead",
        texts: &["daily +02:00"],
        out: TWO_HOURS_EAST,
        ..CALENDAR
    },
    Row {
        about: "the last seconds of the farthest offset west",
        texts: &["*-*-* 23:59:59 -25:59"],
        iterations: 3,
        now: 7_258_118_399,
        out: FAR_WEST,
        ..CALENDAR
    },
];

#[test]
fn zones_of_expressions(rt: HostRuntime) -> Result<(), Fail> {
    check(rt.alloc(), &ZONES_OF_EXPRESSIONS)
}

const AFTER_THE_SECOND: &str = "  Original form: *:*:*
Normalized form: *-*-* *:*:*
    Next elapse: Mon 2024-01-01 05:30:03 +05:30
       (in UTC): Mon 2024-01-01 00:00:03 UTC
       From now: 3s left
       Iter. #2: Mon 2024-01-01 05:30:04 +05:30
       (in UTC): Mon 2024-01-01 00:00:04 UTC
       From now: 4s left
";

const AFTER_THE_FIRST: &str = "  Original form: *:*:*
Normalized form: *-*-* *:*:*
    Next elapse: Mon 2024-01-01 05:30:02 +05:30
       (in UTC): Mon 2024-01-01 00:00:02 UTC
       From now: 2s left
       Iter. #2: Mon 2024-01-01 05:30:03 +05:30
       (in UTC): Mon 2024-01-01 00:00:03 UTC
       From now: 3s left
";

/// The elapses of an expression that matches every second. The base is the second elapse of [`EVERY_SECOND`].
const FROM_THE_SECOND: Row<'static> = Row {
    about: "every second, from the second elapse on",
    iterations: 2,
    base: Some("@1704067202"),
    out: AFTER_THE_SECOND,
    ..EVERY_SECOND
};

/// The elapses of an expression that matches every second. The base is the first elapse of [`EVERY_SECOND`].
pub(super) const FROM_THE_FIRST: Row<'static> = Row {
    about: "every second, from the first elapse on",
    base: Some("@1704067201"),
    out: AFTER_THE_FIRST,
    ..FROM_THE_SECOND
};

/// If the base is an elapse, the elapses after it are listed. If the base is invalid, only its error is reported.
static BASES: [Row<'static>; 4] = [
    FROM_THE_SECOND,
    FROM_THE_FIRST,
    Row {
        about: "last second west, from its elapse on",
        base: Some("@7258154399"),
        out: "  Original form: *-*-* 23:59:59
Normalized form: *-*-* 23:59:59
    Next elapse: never
",
        ..BEFORE_THE_LAST_SECOND
    },
    Row {
        about: "a base of another weekday",
        texts: &["daily"],
        base: Some("Mon 2012-11-23"),
        err: "--base-time: weekday does not fit the date\n",
        ..CALENDAR
    },
];

#[test]
fn bases(rt: HostRuntime) -> Result<(), Fail> {
    check(rt.alloc(), &BASES)
}
