//! Timer files with exceptions: the lists of expressions and of exceptions, and why a file is rejected. An exception is
//! an expression after `X-ExceptOnCalendar=`; when it elapses, the timer doesn't.

use super::{EXCEPT_EXCEPTIONS, EXCEPT_LINES, Lines, expect_lists, fault_of};
use crate::shared::{EXCEPT_FILE, ensure};
use cal_read::TimerFault;
use cal_spec::SpecFault;
use std::test::Fail;

/// Files, each with its expressions and its exceptions.
static READ: [(&[u8], Lines, Lines); 4] = [
    (EXCEPT_FILE, EXCEPT_LINES, EXCEPT_EXCEPTIONS),
    // In the next row, an empty `X-ExceptOnCalendar=` clears only the exceptions.
    (
        b"[Timer]\nOnCalendar=daily\nX-ExceptOnCalendar=Sat\nX-ExceptOnCalendar = \nX-ExceptOnCalendar=Sun",
        &[(2, "daily")],
        &[(5, "Sun")],
    ),
    // In the next row, there are no exceptions: the key has to match exactly, and counts only in the section `Timer`.
    (
        b"[Unit]\nX-ExceptOnCalendar=x!\n[Timer]\nOnCalendar=daily\nx-exceptoncalendar=x!\nExceptOnCalendar=x!\nX-ExceptOnCalendars=x!",
        &[(4, "daily")],
        &[],
    ),
    (
        b"[Timer]\nX-ExceptOnCalendar=Sat \\\n12:00\nOnCalendar=daily",
        &[(4, "daily")],
        &[(2, "Sat  12:00")],
    ),
];

/// Files, each with the error it is rejected with.
static REFUSED: [(&str, TimerFault); 4] = [
    // In the first two rows, a file ends up with only an exception, but needs an expression.
    ("[Timer]\nX-ExceptOnCalendar=Sat", TimerFault::NothingToDo),
    (
        "[Timer]\nOnCalendar=daily\nX-ExceptOnCalendar=Sat\nOnBootSec=",
        TimerFault::NothingToDo,
    ),
    // In the next row, a file with an invalid exception is rejected, although a later line drops the exception.
    (
        "[Timer]\nOnCalendar=daily\nX-ExceptOnCalendar=20/4:00\nX-ExceptOnCalendar=",
        TimerFault::BadLine(3, SpecFault::NoRepeat),
    ),
    (
        "[Timer]\nX-ExceptOnCalendar=25:00\nOnCalendar=20/4:00",
        TimerFault::BadLine(2, SpecFault::OutOfField),
    ),
];

#[test]
fn lists(rt: HostRuntime) -> Result<(), Fail> {
    for (file, expressions, exceptions) in &READ {
        expect_lists(rt.alloc(), file, expressions, exceptions)?;
    }
    Ok(())
}

#[test]
fn refused(rt: HostRuntime) -> Result<(), Fail> {
    for (file, fault) in &REFUSED {
        ensure(fault_of(rt.alloc(), file.as_bytes()) == Some(*fault), file)?;
    }
    Ok(())
}
