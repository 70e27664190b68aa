//! Timer files: which expressions and exceptions a file ends up with, and why a file is rejected.

use crate::shared::{TIMER_FILE, ensure};
use cal_base::Port;
use cal_read::{Timer, TimerFault, TimerLine, read_timer};
use std::alloc::Global;
use std::test::Fail;

mod assignments;
mod bytes;
mod counts;
mod exceptions;
mod lines;

/// The expressions of [`TIMER_FILE`].
pub(crate) const UNIT_LINES: Lines = &[(6, "Mon  *:0/30"), (9, "hourly")];

/// The expressions of `EXCEPT_FILE`, whose exceptions are [`EXCEPT_EXCEPTIONS`].
pub(crate) const EXCEPT_LINES: Lines = &[(5, "12:00")];

pub(crate) const EXCEPT_EXCEPTIONS: Lines = &[(3, "Sat,Sun 12:00")];

/// Expressions or exceptions of a file, each with the number of its first line.
pub type Lines = &'static [(u32, &'static str)];

/// A file, and its expressions or the error it is rejected with.
type Row = (&'static str, Result<Lines, TimerFault>);

/// Parses the timer file that has these bytes.
pub fn read(alloc: Global, file: &[u8]) -> Result<Timer, TimerFault> {
    read_timer(alloc, &mut Port::new(file))
}

/// Returns whether the list has exactly these expressions, in this order.
fn has_lines(list: &[TimerLine], expected: Lines) -> bool {
    if list.len() != expected.len() {
        return false;
    }
    for (line, (number, text)) in list.iter().zip(expected) {
        if line.number != *number || line.text.as_str() != *text {
            return false;
        }
    }
    true
}

/// Expects the timer to have these expressions and exceptions.
pub fn expect_timer(
    timer: &Timer,
    expected: Lines,
    exceptions: Lines,
    about: &str,
) -> Result<(), Fail> {
    ensure(has_lines(timer.lines(), expected), about)?;
    ensure(has_lines(timer.exceptions(), exceptions), about)
}

/// Expects the file to have these expressions and exceptions.
pub fn expect_lists(
    alloc: Global,
    file: &[u8],
    expected: Lines,
    exceptions: Lines,
) -> Result<(), Fail> {
    let timer = read(alloc, file)?;
    expect_timer(&timer, expected, exceptions, "another list")
}

/// Returns the error that a file is rejected with, if any.
fn fault_of(alloc: Global, file: &[u8]) -> Option<TimerFault> {
    read(alloc, file).err()
}

/// Returns whether parsing the file has the result `expected`: a timer with exactly these expressions, or this error.
fn is_read(alloc: Global, file: &[u8], expected: &Result<Lines, TimerFault>) -> bool {
    match (read(alloc, file), expected) {
        (Ok(timer), Ok(lines)) => has_lines(timer.lines(), lines),
        (Err(found), Err(fault)) => found == *fault,
        _ => false,
    }
}

/// Expects each file to have the expressions of its row or, if the row has an error instead, to be rejected with it.
fn expect_files(alloc: Global, rows: &[Row]) -> Result<(), Fail> {
    for (file, expected) in rows {
        ensure(is_read(alloc, file.as_bytes(), expected), file)?;
    }
    Ok(())
}

#[test]
fn timer_file(rt: HostRuntime) -> Result<(), Fail> {
    expect_lists(rt.alloc(), TIMER_FILE, UNIT_LINES, &[])
}
