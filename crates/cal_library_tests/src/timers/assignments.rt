//! Sections, keys, values and resets in timer files. A reset is a key with an empty value that clears the list of
//! expressions.

use super::{Lines, Row, expect_files, is_read};
use crate::shared::ensure;
use cal_read::TimerFault;
use cal_spec::SpecFault;
use std::alloc::Global;
use std::test::Fail;

static SECTIONS: [Row; 9] = [
    // The first row is an empty file.
    ("", Err(TimerFault::NothingToDo)),
    (
        "OnCalendar=hourly\n[Timer]\nOnCalendar=daily\n[Unit]\nOnCalendar=weekly",
        Ok(&[(3, "daily")]),
    ),
    (
        "[Timer]\nOnCalendar=daily\n[Unit]\nOnBootSec=\n[Timer]\nOnCalendar=hourly",
        Ok(&[(2, "daily"), (6, "hourly")]),
    ),
    (" \t[Timer] \t\nOnCalendar=daily", Ok(&[(2, "daily")])),
    // In the next row, lines that only begin or only end like a section header are not section headers.
    (
        "[Timer]\n[Unit\nUnit]\n[\n]\nOnCalendar=daily",
        Ok(&[(6, "daily")]),
    ),
    // In the next row, a section header contains `=`.
    (
        "[Timer]\n[a=b]\nOnCalendar=hourly\n[Timer]\nOnCalendar=daily",
        Ok(&[(5, "daily")]),
    ),
    ("[timer]\nOnCalendar=daily", Err(TimerFault::NothingToDo)),
    ("[ Timer ]\nOnCalendar=daily", Err(TimerFault::NothingToDo)),
    (
        "[Timer]\n]\n[]\nOnCalendar=x!",
        Err(TimerFault::NothingToDo),
    ),
];

static KEYS_AND_VALUES: [Row; 8] = [
    // In the first row, a repetition is rejected because it reaches no further value.
    (
        "[Timer]\nOnCalendar=20/4:00",
        Err(TimerFault::BadLine(2, SpecFault::NoRepeat)),
    ),
    (
        "[Timer]\n\t OnCalendar \t=\t daily \t\n",
        Ok(&[(2, "daily")]),
    ),
    (
        "[Timer]\n\rOnCalendar\r=\rdaily\r \r\n",
        Ok(&[(2, "daily")]),
    ),
    // In the next two rows: keys that only look like `OnCalendar`, lines without `=`, and other keys.
    (
        "[Timer]\noncalendar=x\nONCALENDAR=x\nOnCalendars=x\nX-OnCalendar=x\nOn Calendar=x\nOnCalendar=daily",
        Ok(&[(7, "daily")]),
    ),
    (
        "[Timer]\nOnCalendar\nx\n=\n=x\nOnCalendar=daily\nAccuracySec=\nPersistent=a=b",
        Ok(&[(6, "daily")]),
    ),
    (
        "[Timer]\nOnCalendar=a=b",
        Err(TimerFault::BadLine(2, SpecFault::BadWeekday)),
    ),
    (
        "[Timer]\nOnCalendar=fortnightly",
        Err(TimerFault::BadLine(2, SpecFault::UnknownShorthand)),
    ),
    // In the last row, the first invalid line is reported, although a later reset drops its expression.
    (
        "[Timer]\nOnCalendar=25:00\nOnCalendar=\nOnCalendar=7",
        Err(TimerFault::BadLine(2, SpecFault::OutOfField)),
    ),
];

/// The keys that reset the list of expressions if their value is empty.
static KEYS: [&str; 6] = [
    "OnCalendar",
    "OnActiveSec",
    "OnBootSec",
    "OnStartupSec",
    "OnUnitActiveSec",
    "OnUnitInactiveSec",
];

/// A file, in which `KEY` stands for one of [`KEYS`], and the expressions that the file has.
type RowOfKey = (&'static str, Lines);

/// One of [`KEYS`] with an empty value resets the list. Another key, a comment or a key in another section doesn't.
static RESETS: [RowOfKey; 4] = [
    (
        "[Timer]\nOnCalendar=daily\nKEY=\n[Timer]\nOnCalendar=hourly",
        &[(5, "hourly")],
    ),
    (
        "[Timer]\nOnCalendar=daily\nKEY =\\\n\t\r\n[Timer]\nOnCalendar=hourly",
        &[(6, "hourly")],
    ),
    ("[Timer]\nOnCalendar=daily\nX-KEY=\n", &[(2, "daily")]),
    (
        "[Timer]\nOnCalendar=daily\n#OnCalendar=\n[Unit]\nKEY=\n[Timer]\n",
        &[(2, "daily")],
    ),
];

/// Replaces `KEY` in a file by this key.
fn file_with_key(alloc: Global, file: &str, key: &str) -> Result<String, Fail> {
    let (before, after) = file.split_once("KEY").ok_or("no key")?;
    let mut whole = String::from_str(alloc, before)?;
    whole.push_str(key)?;
    whole.push_str(after)?;
    Ok(whole)
}

/// Expects each file, with this key in place of `KEY`, to have the expressions next to it.
fn expect_with_key(alloc: Global, key: &str, rows: &[RowOfKey]) -> Result<(), Fail> {
    for (file, lines) in rows {
        let with_key = file_with_key(alloc, file, key)?;
        ensure(is_read(alloc, with_key.as_bytes(), &Ok(*lines)), file)?;
    }
    Ok(())
}

#[test]
fn sections(rt: HostRuntime) -> Result<(), Fail> {
    expect_files(rt.alloc(), &SECTIONS)
}

#[test]
fn keys_and_values(rt: HostRuntime) -> Result<(), Fail> {
    expect_files(rt.alloc(), &KEYS_AND_VALUES)
}

#[test]
fn resets(rt: HostRuntime) -> Result<(), Fail> {
    for key in &KEYS {
        expect_with_key(rt.alloc(), key, &RESETS)?;
    }
    Ok(())
}
