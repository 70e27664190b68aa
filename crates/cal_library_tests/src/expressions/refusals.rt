//! Invalid expressions, each with the one error that is reported.

use super::expect_fault;
use cal_spec::SpecFault::{self, *};
use std::alloc::Global;
use std::test::Fail;

/// An error, and expressions that are rejected with it, separated by `|`.
pub(super) type Refused = (SpecFault, &'static str);

/// At least one expression for each error that a short expression can have.
static REFUSED_TEXTS: [Refused; 12] = [
    (Empty, ""),
    (BadWeekday, "Mon,,Tue"),
    (BadDate, "7|*-1~5-2"),
    (BadTime, "*:*/5"),
    (FractionalSecond, "0:0:1.5"),
    (NumberTooLarge, "10000-1-1"),
    (OutOfField, "*~29|25:00"),
    (BackwardRange, "12..1-*-*|*-*~9..3|69..70-1-1"),
    (ZeroRepeat, "*:0/0"),
    (NoRepeat, "20/4:00|00:00/60|*-*~1/1|2199/1-1-1"),
    (StrayWord, "12:00 UTC now"),
    (UnknownShorthand, "fortnightly"),
];

static BLANKS: [Refused; 1] = [(Empty, " |\t| \t \t")];

/// Words in places where they can't stand, and first words that are not shorthands.
static WORDS: [Refused; 2] = [
    (
        StrayWord,
        "\
12:00 13:00|12:00 2012-1-1|Mon 12:00 13:00|12:00 *|2012-1-1 12:00 UTC UTC|2012-1-1 UTC 12:00|Mon UTC 12:00|\
Mon UTC Mon|12:00 UTC 5|daily 5|daily 12:00|daily UTC x|weekly *-*-*|DAILY daily daily|daily ,|bi-annually -|\
12:00 A!B|12:00 Etc/GMT.5|12:00 Mars,One|12:00 a:b|12:00 Z~|2012-1-1 U~C|daily A*|daily \u{c4}|12:00 A\u{e4}|\
12:00 _A|12:00 +A",
    ),
    (
        UnknownShorthand,
        "\
Foo|foo-bar|UTC|x|dailyy|dail|semi-annual|annual|never|now|Foo-Mon|mo|monda|a-|Mo-Tu|MonTue|semi--annually|\
UTC 12:00",
    ),
];

static WEEKDAYS: [Refused; 1] = [(
    BadWeekday,
    "\
Foo,Mon|x1|Mo,Tu|daily,|Mon,,|Mon,Foo|Mon.Tue|Mon...Tue|Mon-|Mon..|Mon-Foo|Mon..Foo|Mon-Tue-Wed|Mon..Tue..Wed|\
Mon/2|Mon1|Mon-1|Mon,1|Mon:Tue|Mon~Tue|Mon*|Mon--Tue|Mon.-Tue|Mon-.Tue|Mon,Tuesda|Mon,Tues|Sun..Su|Mon,-Tue|\
Mon\u{e4}|Mon,,12:00|a1 12:00",
)];

/// Malformed dates.
static DATES: [Refused; 1] = [(
    BadDate,
    "\
*|1,2|2012|,Mon|-|-1-1|1-|1--1|1-1-1-1|2012-1-1-|1~1-1|1~1~1|*~*~*|~|~1|1~|1-1-1~1|2012-1-1x|1x-1-1|1-x-1|1-1-x|\
2012-*/2-1|*/2-1|1-*/2|**-1|*1-1|1*-1|1,-1|,1-1|1,,2-1|1,*-1|*,1-1|1..-1|1...3-1|1.3-1|1.-1|..3-1|1../2-1|1/-1|\
1/2/3-1|1/2..3-1|1..2..3-1|1..3/-1|1..3/2/1-1|/2-1|1/*-1|1..*-1|+1-1|1 -1|@0|1/1/1|Mon 5|1\u{e4}-1|1-\u{661}|\
1-1.5|1-1..2.5|1~*/1|1~1,",
)];

/// Malformed times, and fractions of a second.
static TIMES: [Refused; 2] = [
    (
        BadTime,
        "\
:|0:|:0|0:0:|0:0:0:0|::|0::0|*/2:0|0:0x|0-1:0|0~1:0|0:0,|0:,0|0:1..|0:1...2|0:..2|0:1/|0:/1|0:1/2/3|0:**|0:1,*|\
0:*,1|0:0:*0|0:0:*/1|2012-1-1 5|2012-1-1 2012-1-1|1-1 ,|2012-1-1T12:00|12:00x|0:0:1...5|0:0:.5|0:1.5|1.5:0|\
0:0:1x.5|0:0:x|0:0:1..|0:0:1../2|0:0:1/2/3|0:0:\u{664}|0:0:1..2..3|*:*:*,1",
    ),
    (
        FractionalSecond,
        "\
0:0:1.|0:0:1..5.|0:0:1/2.5|0:0:1..5/2.5|0:0:1,2.5|0:0:1.5x|0:0:1.5.5|0:0:60.5|0:0:1. 5|0:0:1..5.5|0:0:0000.0",
    ),
];

/// Values that are too large or out of range, ranges that run backwards, and invalid repetitions. In the expression
/// rejected with `BadDate`, a malformed part comes before a number that is too large.
static NUMBERS: [Refused; 6] = [
    (
        NumberTooLarge,
        "\
1-10000-1|1-1-10000|1~10000|10000:0|0:10000|0:0:10000|1..10000-1-1|1/10000-1-1|1..2/10000-1-1|10000x-1-1|\
000010000-1-1|99999999999999999999999-1-1|65536-1-1|67536-1-1|0:0:10000.5|1,10000,1x-1-1|10000..-1-1",
    ),
    (BadDate, "1x,10000-1-1"),
    (
        OutOfField,
        "\
9999-1-1|00009999-1-1|1969-1-1|2200-1-1|100-1-1|999-1-1|1970..2200-1-1|1969..1970-1-1|0-1|13-1|0..3-1|1..13-1|\
1-0|1-32|1~0|1~1..29|24:0|0:60|0:0:60|0..24:0|0:0..60|0:0:0..60|2012-|2012-13|0/1-1|24/1:0|1..0-1",
    ),
    (BackwardRange, "3..1-1|1-9..3|5..4:0|0:5..4|0:0:5..4"),
    (
        ZeroRepeat,
        "1/0-1-1|1..2/0-1-1|1/0-1|1-1/0|*~1/0|0/0:0|0:0:0/0|0:0:5..5/0|0:1/00",
    ),
    (
        NoRepeat,
        "\
12/1-1|1-31/1|23/1:0|0:59/1|0:0:59/1|1~28/28|2198/2-1-1|0:1/59|6/7-1|99/201-1-1|0/9999:0|1~5/5|1~5/9999",
    ),
];

/// Expressions with several errors, grouped by the error that comes first in the order that docs/GRAMMAR.md describes.
static ORDER: [Refused; 11] = [
    (
        BadDate,
        "\
13,1x-1|1x,13-1|1x-13|1x,10000-1|1-1x 25:0|1-1-1-1 0:0:0:0|13-1-1-1|10000-1-1-1|1~10000-1|2000-1x-13",
    ),
    (
        OutOfField,
        "\
13-1x|13,12..1-1|13,1/0-1|13,12/1-1|13..1-1|13/0-1|13..12/0-1|13/1-1|0:60:1.5|25:0:1.5|13-1-1 25:x|99:x|\
13-1 25:0x|1-1 25:0x|1-1 25:0 5|13-1 0:0 5|13-1 0:0:0:0|25:0 5|Mon 13-1|13-1 A!|1-1 25:0 A!|2000-13-1x|\
1969-1x-1|0:0:60 UTC x",
    ),
    (
        NumberTooLarge,
        "0,10000-1|10000,0-1|10000,1x-1|0:0:10000,1.5",
    ),
    (BackwardRange, "12..1,13-1|2..1,1/0-1|2..1,12/1-1|12..1/0-1"),
    (ZeroRepeat, "1/0,13-1|1/0,12/1-1|1/0,2..1-1|12/0-1"),
    (NoRepeat, "12/1,13-1|12/1,1/0-1|12/1,2..1-1"),
    (
        FractionalSecond,
        "0:0:1.5,1x|0:0:1.5,10000|0:0:60,1.5|0:0:1.5 5",
    ),
    (BadTime, "0:0:1x,1.5|1-1 0x:25|25:0:0:0|10000:1:1:1"),
    (StrayWord, "0:0 5 25"),
    (UnknownShorthand, "Foo 13-1|Foo UTC 5"),
    (BadWeekday, "Mon,, 13-1|Mon,, daily 5|Foo1 25:0"),
];

/// Expects each expression to be rejected with this error. The expressions are separated by `|`.
fn expect_faults(alloc: Global, fault: SpecFault, lines: &str) -> Result<(), Fail> {
    for text in lines.split('|') {
        expect_fault(alloc, text, fault)?;
    }
    Ok(())
}

pub(super) fn expect_refusals(alloc: Global, table: &[Refused]) -> Result<(), Fail> {
    for (fault, lines) in table {
        expect_faults(alloc, *fault, lines)?;
    }
    Ok(())
}

#[test]
fn refused_texts(rt: HostRuntime) -> Result<(), Fail> {
    for table in &[
        &REFUSED_TEXTS[..],
        &BLANKS,
        &WORDS,
        &WEEKDAYS,
        &DATES,
        &TIMES,
        &NUMBERS,
        &ORDER,
    ] {
        expect_refusals(rt.alloc(), table)?;
    }
    Ok(())
}
