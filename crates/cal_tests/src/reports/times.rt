//! Reports on time spans and timestamps, and error lines for invalid ones.

use super::{CALENDAR, Local, Row, check};
use cal_request::Verb;
use std::test::Fail;

/// Several time spans, one of them invalid.
pub(super) const SPAN_LIST: Row<'static> = Row {
    about: "span list",
    texts: &["1year 0.000001s", "300ms20s 5day", ".7", "0", "5x"],
    out: "Original: 1year 0.000001s
      μs: 31557600000001
   Human: 1y 1us

Original: 300ms20s 5day
      μs: 432020300000
   Human: 5d 20s 300ms

Original: .7
      μs: 700000
   Human: 700ms

Original: 0
      μs: 0
   Human: 0
",
    err: "5x: unknown unit\n",
    verb: Verb::Timespan,
    now: 0,
    ..CALENDAR
};

/// A request for timestamps in UTC. The present is Fri 2012-11-23 10:15:22 UTC.
const TIMESTAMP: Row<'static> = Row {
    verb: Verb::Timestamp,
    now: 1_353_665_722,
    ..CALENDAR
};

const LISTED: &str = "  Original form: 11:12
Normalized form: Fri 2012-11-23 11:12:00 +08:00
       (in UTC): Fri 2012-11-23 03:12:00 UTC
   UNIX seconds: @1353640320
       From now: 7h 3min 22s ago

  Original form: today UTC
Normalized form: Fri 2012-11-23 08:00:00 +08:00
       (in UTC): Fri 2012-11-23 00:00:00 UTC
   UNIX seconds: @1353628800
       From now: 10h 15min 22s ago

  Original form: yesterday
Normalized form: Thu 2012-11-22 00:00:00 +08:00
       (in UTC): Wed 2012-11-21 16:00:00 UTC
   UNIX seconds: @1353513600
       From now: 1d 18h 15min 22s ago
";

const LISTED_REFUSALS: &str = "Mon 2012-11-23: weekday does not fit the date
-2000000000: timestamp out of range
: empty timestamp
foo 2012-11-23: bad weekday
12: bad date
2012-11-23 25:00: bad time
2013-02-29: no such date
+5x: bad time span: unknown unit
today Mars/One: no such zone
11:12 UTC x: stray word
";

/// Several timestamps, most of them invalid, in a local zone that is 8 hours ahead of UTC.
pub(super) const STAMP_LIST: Row<'static> = Row {
    about: "stamp list",
    texts: &[
        "11:12",
        "Mon 2012-11-23",
        "-2000000000",
        "",
        "today UTC",
        "foo 2012-11-23",
        "12",
        "2012-11-23 25:00",
        "2013-02-29",
        "+5x",
        "today Mars/One",
        "11:12 UTC x",
        "yesterday",
    ],
    local: Local::Offset(28_800),
    out: LISTED,
    err: LISTED_REFUSALS,
    ..TIMESTAMP
};

/// A skipped local time is moved forward by the length of the gap.
const MOVED_ON: &str = "  Original form: 2024-03-31 02:30
Normalized form: Sun 2024-03-31 03:30:00 +02:00
       (in UTC): Sun 2024-03-31 01:30:00 UTC
   UNIX seconds: @1711848600
       From now: 11y 4month 6d 3h 14min 38s left
";

const IN_UTC: &str = "  Original form: @1395716396
Normalized form: Tue 2014-03-25 02:59:56 UTC
   UNIX seconds: @1395716396
       From now: 1y 3month 4w 2d 3h 14min 34s left

  Original form: 12-11-23 1:2:3.4567891
Normalized form: Fri 2012-11-23 01:02:03 UTC
   UNIX seconds: @1353632523.456789
       From now: 9h 13min 18s 543ms 211us ago
";

static LISTS: [Row<'static>; 4] = [
    SPAN_LIST,
    STAMP_LIST,
    Row {
        about: "seconds of Unix time, and microseconds",
        texts: &["@1395716396", "12-11-23 1:2:3.4567891"],
        out: IN_UTC,
        ..TIMESTAMP
    },
    Row {
        about: "a timestamp in a gap",
        texts: &["2024-03-31 02:30"],
        local: Local::Summer,
        out: MOVED_ON,
        ..TIMESTAMP
    },
];

#[test]
fn lists(rt: HostRuntime) -> Result<(), Fail> {
    check(rt.alloc(), &LISTS)
}
