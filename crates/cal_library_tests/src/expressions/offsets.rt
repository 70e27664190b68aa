//! Expressions with a fixed offset in place of a zone name: where it may stand, the smallest and the largest offset,
//! and words that are not offsets.

use super::normal_texts::expect_normal_texts;
use super::refusals::{Refused, expect_refusals};
use cal_spec::SpecFault::*;
use std::alloc::Global;
use std::test::Fail;

/// An offset after each kind of word that it can follow.
const PLACES: &str = "\
daily +02:00 -> *-*-* 00:00:00 +02:00|12:00 +02:00 -> *-*-* 12:00:00 +02:00|\
12:00:30 -05:30 -> *-*-* 12:00:30 -05:30|*:*:* +05:45 -> *-*-* *:*:* +05:45|\
Mon +02:00 -> Mon *-*-* 00:00:00 +02:00|Mon, -02:00 -> Mon *-*-* 00:00:00 -02:00|\
Sat-Mon +02:00 -> Mon,Sat,Sun *-*-* 00:00:00 +02:00|2024-1-1 +02:00 -> 2024-01-01 00:00:00 +02:00|\
2024-1-1 -12:00 -> 2024-01-01 00:00:00 -12:00|1-1 -12:00 -> *-01-01 00:00:00 -12:00|\
*-*~1 +01:00 -> *-*~01 00:00:00 +01:00|Mon 2024-1-1 +02:00 -> Mon 2024-01-01 00:00:00 +02:00|\
Mon 12:00 +02:00 -> Mon *-*-* 12:00:00 +02:00|2024-1-1 12:00 -02:00 -> 2024-01-01 12:00:00 -02:00|\
Mon 2024-1-1 12:00 +02:00 -> Mon 2024-01-01 12:00:00 +02:00|\x20\t12:00 \t +02:00\t -> *-*-* 12:00:00 +02:00|\
minutely +02:00 -> *-*-* *:*:00 +02:00|hourly -03:30 -> *-*-* *:00:00 -03:30|\
DAILY +02:00 -> *-*-* 00:00:00 +02:00|weekly +02:00 -> Mon *-*-* 00:00:00 +02:00|\
monthly -02:00 -> *-*-01 00:00:00 -02:00|quarterly +02:00 -> *-01,04,07,10-01 00:00:00 +02:00|\
semi-annually +02:00 -> *-01,07-01 00:00:00 +02:00|bi-annually -02:00 -> *-01,07-01 00:00:00 -02:00|\
yearly +02:00 -> *-01-01 00:00:00 +02:00|annually -00:30 -> *-01-01 00:00:00 -00:30";

/// The smallest and the largest hours and minutes. An offset of zero is written with a plus sign, and is not the same
/// as `UTC`.
const BOUNDS: &str = "\
12:00 +00:00 -> *-*-* 12:00:00 +00:00|12:00 -00:00 -> *-*-* 12:00:00 +00:00|12:00 utc -> *-*-* 12:00:00 UTC|\
12:00 +00:01 -> *-*-* 12:00:00 +00:01|12:00 -00:01 -> *-*-* 12:00:00 -00:01|\
12:00 +00:59 -> *-*-* 12:00:00 +00:59|12:00 -01:00 -> *-*-* 12:00:00 -01:00|\
12:00 +09:59 -> *-*-* 12:00:00 +09:59|12:00 +10:00 -> *-*-* 12:00:00 +10:00|\
12:00 -24:00 -> *-*-* 12:00:00 -24:00|12:00 +25:00 -> *-*-* 12:00:00 +25:00|\
12:00 +25:59 -> *-*-* 12:00:00 +25:59|12:00 -25:59 -> *-*-* 12:00:00 -25:59";

/// Words in place of a zone that look like offsets but are not, and words after a zone.
static NO_OFFSETS: [Refused; 1] = [(
    StrayWord,
    "\
12:00 +26:00|12:00 -26:00|12:00 +99:00|12:00 +02:60|12:00 +25:60|12:00 +2:00|12:00 +002:00|12:00 +02:0|\
12:00 +02:000|12:00 +02|12:00 +0200|12:00 +02:|12:00 +:00|12:00 +|12:00 -|12:00 +02:00:00|12:00 +02.00|\
12:00 +02-00|12:00 ++2:00|12:00 +-2:00|12:00 +a2:00|12:00 +02:a0|12:00 +02:00Z|12:00 +UTC|12:00 + 02:00|\
12:00 +02: 00|12:00 +02 :00|12:00 02:00|12:00 \u{2212}02:00|12:00 +\u{660}2:00|Mon -5|Mon +1-1|Mon -1-1|\
Mon +1:2|2024-1-1 +x|2024-1-1 -1:2|2024-1-1 +12:00:00|daily -5|daily +2:00|weekly +26:00|12:00 +02:00 UTC|\
12:00 UTC +02:00|12:00 +02:00 +02:00|daily +02:00 x|daily UTC -02:00|Mon +02:00 12:00|Mon +02:00 2024-1-1|\
Mon UTC +02:00|2024-1-1 +02:00 12:00|2024-1-1 +02:00 UTC",
)];

/// The first word of an expression is never an offset. An offset after an invalid first word doesn't change the error.
static FIRST_WORDS: [Refused; 3] = [
    (
        BadTime,
        "+02:00|-02:00|+02:00 12:00|-01:00 UTC|+02:00 daily",
    ),
    (BadDate, "-5|+5|+5 12:00|-1-1|+1-1-1|+|- +02:00|-5 +02:00"),
    (UnknownShorthand, "Foo +02:00|fortnightly +02:00"),
];

/// The error of the leftmost invalid word is reported, whether or not the offset after it is valid.
static ORDER: [Refused; 5] = [
    (BadWeekday, "Mon,,Tue +02:00|Mon,,Tue +x"),
    (BadDate, "7 +02:00|7 +x|1 -1"),
    (BadTime, "12:x +x|2024-1-1 5 +x|2024-1-1 \u{2212}02:00"),
    (OutOfField, "25:00 +x|12:60 +02:00|13-1 -5"),
    (NoRepeat, "20/4:00 +02:00|20/4:00 +x"),
];

#[test]
fn accepted(rt: HostRuntime) -> Result<(), Fail> {
    expect_normal_texts(rt.alloc(), PLACES)?;
    expect_normal_texts(rt.alloc(), BOUNDS)
}

#[test]
fn refused(rt: HostRuntime) -> Result<(), Fail> {
    expect_refusals(rt.alloc(), &NO_OFFSETS)?;
    expect_refusals(rt.alloc(), &FIRST_WORDS)?;
    expect_refusals(rt.alloc(), &ORDER)
}
