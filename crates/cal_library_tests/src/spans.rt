//! Time spans: how they are parsed, why they are rejected and how they are printed. The values follow systemd.time(7),
//! Parsing Time Spans, and are worked out by hand.

use crate::shared::ensure;
use cal_base::{Port, Span, SpanFault, read_span, write_span};
use std::alloc::Global;
use std::test::Fail;

/// Spans, each with its length in microseconds and how this length is printed.
static READ_AND_WRITTEN: [(&str, u64, &str); 11] = [
    // In the first five rows: a fraction down to the microsecond, parts without blanks between them, a number without a
    // unit, zero, and seconds that make up whole minutes.
    ("1year 0.000001s", 31_557_600_000_001, "1y 1us"),
    ("300ms20s 5day", 432_020_300_000, "5d 20s 300ms"),
    (".7", 700_000, "700ms"),
    ("0", 0, "0"),
    ("300s", 300_000_000, "5min"),
    // In the next three rows: a fraction with an exact value, and two fractions in which the value of each digit is
    // rounded down.
    ("1.5h", 5_400_000_000, "1h 30min"),
    ("0.0000019s", 1, "1us"),
    ("1.0000001h", 3_600_000_360, "1h 360us"),
    // In the next two rows: thirty days, which are not a month, and a month, which is a twelfth of a year.
    ("30d", 2_592_000_000_000, "4w 2d"),
    ("1M 1m", 2_629_860_000_000, "1month 1min"),
    // In the last row: the largest span.
    (
        "9223372036854775807us",
        9_223_372_036_854_775_807,
        "292271y 1w 1d 10h 54s 775ms 807us",
    ),
];

/// Numbers are added up, each in its own unit, or in seconds if it has no unit. A number may begin or end with its
/// decimal point.
const SUMS: &str = "\
5 5 -> 10000000|5\t5 -> 10000000| \t5 \t s\t  -> 5000000|1y2months3w4d5h6min7s8ms9us -> 38995567008009|\
1. -> 1000000|.5 -> 500000|1.h -> 3600000000";

/// Every spelling of every unit.
const UNIT_WORDS: &str = "\
3usec -> 3|3us -> 3|3\u{b5}s -> 3|3\u{3bc}s -> 3|3 \u{3bc}s 4\u{b5}s -> 7|3msec -> 3000|3ms -> 3000|\
3seconds -> 3000000|3second -> 3000000|3sec -> 3000000|3s -> 3000000|3minutes -> 180000000|3minute -> 180000000|\
3min -> 180000000|3m -> 180000000|3hours -> 10800000000|3hour -> 10800000000|3hr -> 10800000000|\
3h -> 10800000000|3days -> 259200000000|3day -> 259200000000|3d -> 259200000000|3weeks -> 1814400000000|\
3week -> 1814400000000|3w -> 1814400000000|3months -> 7889400000000|3month -> 7889400000000|3M -> 7889400000000|\
3years -> 94672800000000|3year -> 94672800000000|3y -> 94672800000000";

/// The value of each digit after the point is rounded down separately.
const FRACTIONS: &str = "\
0.00000009min -> 5|0.000000019min -> 0|0.9us -> 0|0.1y -> 3155760000000|0.99999y -> 31557284424000|\
0.999999999999999999999999999999y -> 31557599999997|0.123456789012345678901234567890y -> 3895999964934|\
0.1M -> 262980000000|0.999999999999999999999999999999M -> 2629799999997|\
0.123456789012345678901234567890M -> 324666663743|0.1w -> 60480000000|\
0.999999999999999999999999999999w -> 604799999998|0.123456789012345678901234567890w -> 74666665994|\
0.1d -> 8640000000|0.999999999999999999999999999999d -> 86399999997|\
0.123456789012345678901234567890d -> 10666666569|0.1h -> 360000000|\
0.999999999999999999999999999999h -> 3599999999|0.123456789012345678901234567890h -> 444444440|\
0.1min -> 6000000|0.999999999999999999999999999999min -> 59999999|\
0.123456789012345678901234567890min -> 7407406|0.1s -> 100000|0.999999999999999999999999999999s -> 999999|\
0.123456789012345678901234567890s -> 123456|0.1ms -> 100|0.999999999999999999999999999999ms -> 999|\
0.123456789012345678901234567890ms -> 123|0.999999999999999999999999999999us -> 0";

/// The largest span, and other spans with many digits.
const UP_TO_THE_LIMIT: &str = "\
9223372036854775806us 1us -> 9223372036854775807|9223372036854.775807 -> 9223372036854775807|\
1000000000000000000us -> 1000000000000000000|0000000000000000000000001us -> 1";

/// Spans that are longer than the largest one.
static ABOVE_THE_LIMIT: [(SpanFault, &str); 1] = [(
    SpanFault::TooLarge,
    "\
9223372036854775808us|9223372036854775807us 1us|9223372036854.775808|18446744073709551615us 1us|\
18446744073709551616us|1000000000000000000|1000000000000000000000000|1000000000000000000000000us|\
5s 18446744073709551615y",
)];

/// Invalid spans, by their error. If several parts of a span are invalid, the leftmost error is reported.
static FIRST_FAULTS: [(SpanFault, &str); 4] = [
    (SpanFault::Empty, "| \t "),
    (
        SpanFault::BadNumber,
        "\
1..5|1.2.3s|.|. s|x|s5|-5s|5-s|5 s s|5\u{e9}|5\ns|1..5x|5 1..5 99999999999999999999",
    ),
    (
        SpanFault::UnknownUnit,
        "\
5x|5S|5mins|5se|5\u{3bc}|5\u{3bc}s\u{b5}s|5infinity|99999999999999999999x|99999999999999999999 x|5x 1..5",
    ),
    (SpanFault::TooLarge, "99999999999999999999 1..5"),
];

/// Parses a span and returns its microseconds.
fn micros(text: &str) -> Result<u64, SpanFault> {
    Ok(read_span(text)?.micros())
}

/// Expects each span to have the microseconds next to it. The rows are separated by `|`.
fn expect_values(rows: &str) -> Result<(), Fail> {
    for row in rows.split('|') {
        let (text, wanted) = row.split_once(" -> ").ok_or("no arrow")?;
        ensure(micros(text) == Ok(wanted.parse()?), text)?;
    }
    Ok(())
}

/// Expects each span to be rejected with this error. The spans are separated by `|`.
fn expect_fault(fault: SpanFault, texts: &str) -> Result<(), Fail> {
    for text in texts.split('|') {
        ensure(micros(text) == Err(fault), text)?;
    }
    Ok(())
}

/// Returns whether the span is printed as `text`.
fn is_printed(alloc: Global, span: Span, text: &str) -> bool {
    let mut out = Port::new(Vec::new(alloc));
    let written = write_span(&mut out, span);
    written.is_ok() && out.into_inner().as_slice() == text.as_bytes()
}

#[test]
fn reads_and_writes(rt: HostRuntime) -> Result<(), Fail> {
    for (text, wanted, human) in &READ_AND_WRITTEN {
        ensure(micros(text) == Ok(*wanted), text)?;
        let span = Span::new(*wanted).ok_or("above the limit")?;
        ensure(is_printed(rt.alloc(), span, human), human)?;
    }
    Ok(())
}

#[test]
fn reads() -> Result<(), Fail> {
    for rows in [SUMS, UNIT_WORDS, FRACTIONS, UP_TO_THE_LIMIT] {
        expect_values(rows)?;
    }
    Ok(())
}

#[test]
fn refuses() -> Result<(), Fail> {
    for (fault, texts) in ABOVE_THE_LIMIT.iter().chain(&FIRST_FAULTS) {
        expect_fault(*fault, texts)?;
    }
    Ok(())
}

static FAULTS: [(SpanFault, u8, &str); 4] = [
    (SpanFault::Empty, 1, "empty time span"),
    (SpanFault::BadNumber, 2, "bad number"),
    (SpanFault::UnknownUnit, 3, "unknown unit"),
    (SpanFault::TooLarge, 4, "time span too large"),
];

/// Each error has the number and the message that are listed in [`FAULTS`].
#[test]
fn numbers_and_shown_words(rt: HostRuntime) -> Result<(), Fail> {
    for (fault, number, message) in &FAULTS {
        let shown = format!(in rt.alloc(); "{fault}")?;
        ensure(
            *fault as u8 == *number && shown.as_str() == *message,
            message,
        )?;
    }
    Ok(())
}
