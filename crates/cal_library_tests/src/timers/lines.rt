//! Line ends, byte order marks, comments and continued lines in timer files.

use super::{Row, expect_files};
use cal_read::TimerFault;
use cal_spec::SpecFault;
use std::test::Fail;

static ENDS_OF_LINES_AND_MARKS: [Row; 7] = [
    ("[Timer]\r\nOnCalendar=daily\r\n", Ok(&[(2, "daily")])),
    (
        "[Timer]\r\r\n\r\nOnCalendar=Mon \\\r\n 12:00\r\n",
        Ok(&[(3, "Mon  12:00")]),
    ),
    ("\n\n[Timer]\n\nOnCalendar=daily\n\n", Ok(&[(5, "daily")])),
    ("\u{FEFF}[Timer]\nOnCalendar=daily\n", Ok(&[(2, "daily")])),
    (
        "\u{FEFF}\u{FEFF}[Timer]\nOnCalendar=daily",
        Err(TimerFault::NothingToDo),
    ),
    (
        "\n\u{FEFF}[Timer]\nOnCalendar=daily",
        Err(TimerFault::NothingToDo),
    ),
    ("[Timer]\rOnCalendar=daily", Err(TimerFault::NothingToDo)),
];

static COMMENTS: [Row; 6] = [
    (
        "# x\n[Timer]\n; x\n \t # x\nOnCalendar=daily",
        Ok(&[(5, "daily")]),
    ),
    (
        "[Timer]\n#OnCalendar=hourly\n;OnCalendar=\nOnCalendar=daily",
        Ok(&[(4, "daily")]),
    ),
    // In the next two rows, a backslash at the end of a comment doesn't continue the comment.
    ("[Timer]\n# x \\\nOnCalendar=daily", Ok(&[(3, "daily")])),
    (
        "[Timer]\nOnCalendar=Mon \\\n; x \\\n12:00\nOnCalendar=daily",
        Ok(&[(2, "Mon  12:00"), (5, "daily")]),
    ),
    // In the last two rows, `#` and `;` don't begin a comment, because they aren't at the start of a line.
    (
        "[Timer]\nOnCalendar=daily # x",
        Err(TimerFault::BadLine(2, SpecFault::StrayWord)),
    ),
    (
        "[Timer]\nOnCalendar=;",
        Err(TimerFault::BadLine(2, SpecFault::BadDate)),
    ),
];

static CONTINUED_LINES: [Row; 10] = [
    (
        "[Timer]\nOnCalendar=Mon\\\n12:00\\\nUTC\nOnCalendar=daily",
        Ok(&[(2, "Mon 12:00 UTC"), (5, "daily")]),
    ),
    (
        "[Timer]\nOnCalendar\\\n=\\\ndaily\nOnCalendar=hourly",
        Ok(&[(2, "daily"), (5, "hourly")]),
    ),
    // In the next row, a line with only blanks and a backslash adds a space.
    (
        "[Timer]\nOnCalendar=Mon\\\n \\\n12:00",
        Ok(&[(2, "Mon  12:00")]),
    ),
    // In the next row, a backslash at the end of the file becomes a space, which is trimmed.
    ("[Timer]\nOnCalendar=daily\\", Ok(&[(2, "daily")])),
    (
        "[Ti\\\nmer]\n[Timer]\nOnCalendar=daily",
        Ok(&[(4, "daily")]),
    ),
    // In the next three rows, a line ends in two backslashes, in three backslashes, or in a backslash and a blank. Only
    // the line with three backslashes is continued, with a space in place of the last one.
    (
        "[Timer]\nOnCalendar=daily\\\\\nOnCalendar=daily",
        Err(TimerFault::BadLine(2, SpecFault::BadWeekday)),
    ),
    (
        "[Timer]\nOnCalendar=12:00 \\\\\\\n5",
        Err(TimerFault::BadLine(2, SpecFault::StrayWord)),
    ),
    (
        "[Timer]\nOnCalendar=daily\\ \n",
        Err(TimerFault::BadLine(2, SpecFault::BadWeekday)),
    ),
    // In the next row, the error has the number of the first of the continued lines.
    (
        "[Timer]\n\nOnCalendar=Mon \\\n\\\n25:00",
        Err(TimerFault::BadLine(3, SpecFault::OutOfField)),
    ),
    ("[Timer]\\\nOnCalendar=daily", Err(TimerFault::NothingToDo)),
];

#[test]
fn ends_of_lines_and_marks(rt: HostRuntime) -> Result<(), Fail> {
    expect_files(rt.alloc(), &ENDS_OF_LINES_AND_MARKS)
}

#[test]
fn comments(rt: HostRuntime) -> Result<(), Fail> {
    expect_files(rt.alloc(), &COMMENTS)
}

#[test]
fn continued_lines(rt: HostRuntime) -> Result<(), Fail> {
    expect_files(rt.alloc(), &CONTINUED_LINES)
}
