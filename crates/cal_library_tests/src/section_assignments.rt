//! Reading the assignments in all sections of a unit file that have a given name, such as `[Timer]`.

use crate::shared::ensure;
use cal_read::{Assignments, OwnedAssignment};
use std::alloc::Global;
use std::test::Fail;

/// The name of a section, and the assignments in all sections with this name: the line number, the key and the value of
/// each.
type Row = (&'static str, &'static [(u32, &'static str, &'static str)]);

/// The first example of systemd.syntax(7), followed by lines of our own that open `[Section A]` again. A continuation
/// line loses its leading blanks.
const EXAMPLE: &str = "\
[Section A]
KeyOne=value 1
KeyTwo=value 2

# a comment

[Section B]
Setting=\"something\" \"some thing\" \"\u{2026}\"
KeyTwo=value 2 \\
       value 2 continued

[Section C]
KeyThree=value 3\\
# this line is ignored
; this line is ignored too
       value 3 continued
[Section A]
 KeyOne = = 
KeyThree
KeyTwo=
";

static SECTIONS: [Row; 5] = [
    (
        "Section A",
        &[
            (2, "KeyOne", "value 1"),
            (3, "KeyTwo", "value 2"),
            (18, "KeyOne", "="),
            (20, "KeyTwo", ""),
        ],
    ),
    (
        "Section B",
        &[
            (8, "Setting", "\"something\" \"some thing\" \"\u{2026}\""),
            (9, "KeyTwo", "value 2  value 2 continued"),
        ],
    ),
    (
        "Section C",
        &[(13, "KeyThree", "value 3 value 3 continued")],
    ),
    ("section a", &[]),
    ("", &[]),
];

/// Returns whether an assignment has this line, key and value.
fn is_assignment(found: &OwnedAssignment, (number, key, value): (u32, &str, &str)) -> bool {
    found.number == number && found.key.as_str() == key && found.value.as_str() == value
}

/// Expects the sections with this name in [`EXAMPLE`] to have these assignments, in this order, and no others.
fn expect_section(alloc: Global, (section, expected): &Row) -> Result<(), Fail> {
    let mut assignments = Assignments::new(section, 1, EXAMPLE);
    for row in *expected {
        match assignments.next(alloc)? {
            Some(found) => ensure(is_assignment(&found, *row), section)?,
            None => return Err("an assignment is missing".into()),
        }
    }
    ensure(assignments.next(alloc)?.is_none(), section)
}

#[test]
fn sections(rt: HostRuntime) -> Result<(), Fail> {
    for row in &SECTIONS {
        expect_section(rt.alloc(), row)?;
    }
    Ok(())
}
