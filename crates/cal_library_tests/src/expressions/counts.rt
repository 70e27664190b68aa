//! How many bytes and how many parts an expression may have.

use super::{expect_fault, expect_normal_text};
use cal_spec::SpecFault::{self, *};
use std::alloc::{AllocError, Global};
use std::test::Fail;

/// Long expressions, each on a line of its own. The line begins with a count, and `#` in the line stands for that many
/// copies of `piece`.
struct Table {
    piece: &'static str,
    /// Valid expressions. A line has the count, a colon, the expression, an arrow, and the expression's normal form.
    accepted: &'static str,
    refused: &'static [(SpecFault, &'static str)],
}

/// An expression may have up to 4,096 bytes. If it has more, `TextTooLong` is reported before any other error. A zone
/// name may have up to 255 bytes.
static BYTES: [Table; 4] = [
    Table {
        piece: " ",
        accepted: "4091: 12:00# -> *-*-* 12:00:00\n4091: #daily -> *-*-* 00:00:00",
        refused: &[(Empty, "4096: #"), (TextTooLong, "4092: 12:00#\n4097: #")],
    },
    Table {
        piece: "0",
        accepted: "4091: #1-1-1 -> 2001-01-01 00:00:00",
        refused: &[(TextTooLong, "4092: #1-1-1")],
    },
    Table {
        piece: "!",
        accepted: "",
        refused: &[(TextTooLong, "4092: Mon,,#")],
    },
    Table {
        piece: "b",
        accepted: "254: daily A# -> *-*-* 00:00:00 A#",
        refused: &[(StrayWord, "255: daily A#")],
    },
];

/// An expression may have up to 240 counted parts. Every part is counted except the first part of the hour, of the
/// minute and of the second. The first counted part over the limit is rejected before it is parsed, and before the
/// values of its component are checked.
static PARTS: [Table; 1] = [Table {
    piece: ",1",
    accepted: "\
237: 1#-1-1 -> 2001-01-01 00:00:00
239: 1#-*-* -> 2001-*-* 00:00:00
239: *-*~1# -> *-*~01 00:00:00
240: 1#:0 -> *-*-* 01:00:00
240: *:1# -> *-*-* *:01:00
240: *-*-* *:*:1# UTC -> *-*-* *:*:01 UTC
239: 1#-*-* 0:0:0 -> 2001-*-* 00:00:00
236: 1#-*-* 0,0:0,0:0,0 UTC -> 2001-*-* 00:00:00 UTC
239: 1,1:1#:1 -> *-*-* 01:01:01
",
    refused: &[
        (
            TooManyParts,
            "\
238: 1#-1-1
240: 1#-*-*
240: *-*~1#
241: 1#:0
241: *:1#
241: *-*-* *:*:1# UTC
239: 1#,10000-1-1
239: 1#-1x-1
240: 1969#-1-1
239: 1#-*-* 0:0:0,0
240: *:*:1#,1.5
239: 1,1:1#:1,1
",
        ),
        (BadDate, "238: 1#,-1-1\n238: 1#-1x-1\n240: 1x#-1-1"),
        (OutOfField, "239: 1969#-1-1\n239: 1#-*-* 24:0,0"),
        (BadTime, "239: 1#-*-* 0x,1:0\n239: *:1#,"),
        (FractionalSecond, "239: *:*:1#,1.5"),
    ],
}];

/// Replaces the `#` in `text`, if there is one, by `count` copies of `piece`.
fn written_out(alloc: Global, text: &str, piece: &str, count: u16) -> Result<String, AllocError> {
    let Some((front, back)) = text.split_once("#") else {
        return String::from_str(alloc, text);
    };
    let mut whole = String::from_str(alloc, front)?;
    for _ in 0..count {
        whole.push_str(piece)?;
    }
    whole.push_str(back)?;
    Ok(whole)
}

/// Splits a line into its count and the text after it.
fn split_count(line: &str) -> Result<(u16, &str), Fail> {
    let (count, text) = line.split_once(": ").ok_or("no count")?;
    Ok((count.parse()?, text))
}

/// Expects each expression to have the normal form next to it.
fn expect_accepted(alloc: Global, piece: &str, lines: &str) -> Result<(), Fail> {
    for line in lines.lines() {
        let (count, rest) = split_count(line)?;
        let (text, normal) = rest.split_once(" -> ").ok_or("no arrow")?;
        let text = written_out(alloc, text, piece, count)?;
        let normal = written_out(alloc, normal, piece, count)?;
        expect_normal_text(alloc, &text, &normal)?;
    }
    Ok(())
}

/// Expects each expression to be rejected with this error.
fn expect_refused(alloc: Global, piece: &str, fault: SpecFault, lines: &str) -> Result<(), Fail> {
    for line in lines.lines() {
        let (count, text) = split_count(line)?;
        let text = written_out(alloc, text, piece, count)?;
        expect_fault(alloc, &text, fault)?;
    }
    Ok(())
}

/// Checks a table: each expression in `accepted` is parsed to the normal form beside it, and each in `refused` is
/// rejected with the error beside it.
fn expect_table(alloc: Global, table: &Table) -> Result<(), Fail> {
    expect_accepted(alloc, table.piece, table.accepted)?;
    for (fault, lines) in table.refused {
        expect_refused(alloc, table.piece, *fault, lines)?;
    }
    Ok(())
}

#[test]
fn bytes_and_parts(rt: HostRuntime) -> Result<(), Fail> {
    for table in BYTES.iter().chain(&PARTS) {
        expect_table(rt.alloc(), table)?;
    }
    Ok(())
}
