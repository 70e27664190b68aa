//! How many expressions and how many bytes a timer file may have.

use super::{Lines, UNIT_LINES, expect_lists, fault_of, is_read};
use crate::shared::{TIMER_FILE, ensure};
use cal_read::{Timer, TimerFault};
use std::alloc::{AllocError, Global};
use std::test::Fail;

pub(super) const DAILY: &str = "OnCalendar=daily";

pub(super) const EXCEPTION: &str = "X-ExceptOnCalendar=Sat";

pub(super) const RESET: &str = "OnCalendar=";

/// The lines of a file after `[Timer]`, each with the number of its copies, and the expressions or the error of the
/// file.
type Counted = (&'static [(u32, &'static str)], Result<Lines, TimerFault>);

/// A file may have up to 256 expressions, not counting expressions that an empty `OnCalendar=` has dropped. The error
/// has the line number of the first expression or exception over the limit.
static COUNTED: [Counted; 5] = [
    (
        &[(256, DAILY), (1, RESET), (1, "OnCalendar=hourly")],
        Ok(&[(259, "hourly")]),
    ),
    // In the next row, there are too many exceptions, which have a limit of their own.
    (
        &[(257, EXCEPTION), (1, DAILY)],
        Err(TimerFault::TooMany(258)),
    ),
    (&[(257, DAILY)], Err(TimerFault::TooMany(258))),
    // An empty `OnCalendar=` after the expression over the limit comes too late.
    (
        &[(257, DAILY), (1, RESET), (1, "OnCalendar=hourly")],
        Err(TimerFault::TooMany(258)),
    ),
    // In the last row, the expression over the limit is invalid, but isn't parsed.
    (
        &[(256, DAILY), (1, "OnCalendar=x!")],
        Err(TimerFault::TooMany(258)),
    ),
];

/// Appends `count` copies of the line.
fn push_lines(file: &mut String, count: u32, line: &str) -> Result<(), AllocError> {
    for _ in 0..count {
        file.push_str(line)?;
        file.push('\n')?;
    }
    Ok(())
}

/// Returns a timer file with the given number of copies of each line.
pub(super) fn counted_file(alloc: Global, lines: &[(u32, &str)]) -> Result<String, AllocError> {
    let mut file = String::from_str(alloc, "[Timer]\n")?;
    for (count, line) in lines {
        push_lines(&mut file, *count, line)?;
    }
    Ok(file)
}

#[test]
fn one_too_many(rt: HostRuntime) -> Result<(), Fail> {
    for (lines, expected) in &COUNTED {
        let file = counted_file(rt.alloc(), lines)?;
        if !is_read(rt.alloc(), file.as_bytes(), expected) {
            return Err((*lines).into());
        }
    }
    Ok(())
}

/// Returns `TIMER_FILE`, padded with comments to `len` bytes.
fn fill_file(alloc: Global, len: usize) -> Result<Vec<u8>, AllocError> {
    let mut bytes = TIMER_FILE.to_vec(alloc)?;
    for place in bytes.len()..len {
        bytes.push(if place % 64 == 0 { b'\n' } else { b'#' })?;
    }
    Ok(bytes)
}

#[test]
fn the_largest_file(rt: HostRuntime) -> Result<(), Fail> {
    ensure(Timer::FILE_LIMIT == 1_048_576, "another limit")?;
    let largest = fill_file(rt.alloc(), 1_048_576)?;
    expect_lists(rt.alloc(), &largest, UNIT_LINES, &[])
}

#[test]
fn a_larger_file(rt: HostRuntime) -> Result<(), Fail> {
    let larger = fill_file(rt.alloc(), 1_048_577)?;
    let fault = fault_of(rt.alloc(), &larger);
    ensure(fault == Some(TimerFault::TooLarge), "not too large")
}
