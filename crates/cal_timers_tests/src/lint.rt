//! Tests of hints and findings with arguments that `calendar-timers lint` never passes: an empty text, and lines and
//! columns at which it finds no problems.

use cal_library_tests::shared::ensure;
use cal_lint::{Ambiguity, Finding, Problem, ProblemKind, find_hint};
use cal_timers_report::Style;
use cal_timers_text::finding_text;
use std::alloc::Global;
use std::test::Fail;

#[test]
fn no_hint_for_an_empty_text(rt: HostRuntime) -> Result<(), Fail> {
    let hint = find_hint(rt.alloc(), "")?;
    ensure(hint.is_none(), "a hint")
}

/// The line and the column of an ambiguity, the text of the file, and what is printed.
type Row = (u32, u32, &'static str, &'static str);

static PLACES: [Row; 3] = [
    // A column counts bytes, and the caret is placed by characters: before the word, `Ä`, `ö` and the tab have 5
    // bytes and are printed as 6 characters.
    (
        1,
        6,
        "Äö\t1-5ß 09:00",
        "ü\\x0a:1:6: warning: this is a month and a day, not a range of weekdays\nÄö\\x091-5ß 09:00\n      ^~~~\n",
    ),
    // In the first of the next two rows, the column is inside a character. In the second, the file doesn't have the
    // line.
    (
        1,
        2,
        "ä",
        "ü\\x0a:1:2: warning: this is a month and a day, not a range of weekdays\nä\n",
    ),
    (
        9,
        2,
        "ä",
        "ü\\x0a:9:2: warning: this is a month and a day, not a range of weekdays\n\n",
    ),
];

fn expect(alloc: Global, row: Row) -> Result<(), Fail> {
    let (line, column, text, expected) = row;
    let style = Style {
        width: 80,
        is_bold: false,
    };
    let finding = Finding {
        line,
        column,
        kind: ProblemKind::Warning,
        problem: Problem::Ambiguous(Ambiguity::MonthDay),
        mistake: None,
        suggestion: None,
    };
    let found = finding_text(alloc, "ü\n", text, &finding, style)?;
    ensure(found.as_str() == expected, found.as_str())
}

#[test]
fn places(rt: HostRuntime) -> Result<(), Fail> {
    for row in PLACES {
        expect(rt.alloc(), row)?;
    }
    Ok(())
}
