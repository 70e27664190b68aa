//! The functions of an expression that return its fields, and whether a local second matches.

use crate::shared::{ensure, expr};
use cal_spec::{Field, Part};
use std::test::Fail;

const POINT: Part = Part {
    start: 0,
    end: None,
    step: None,
};

/// The components of `mon,fri 12-1/2-3,1 *:30:45`, in normal form.
static COMPONENTS: [(Field, Option<&[Part]>); 6] = [
    (
        Field::Year,
        Some(&[Part {
            start: 2012,
            ..POINT
        }]),
    ),
    (
        Field::Month,
        Some(&[Part {
            start: 1,
            step: Some(2),
            ..POINT
        }]),
    ),
    (
        Field::Day,
        Some(&[Part { start: 1, ..POINT }, Part { start: 3, ..POINT }]),
    ),
    (Field::Hour, None),
    (Field::Minute, Some(&[Part { start: 30, ..POINT }])),
    (Field::Second, Some(&[Part { start: 45, ..POINT }])),
];

#[test]
fn components(rt: HostRuntime) -> Result<(), Fail> {
    let listed = expr(rt.alloc(), "mon,fri 12-1/2-3,1 *:30:45")?;
    for (field, parts) in &COMPONENTS {
        ensure(listed.field(*field) == *parts, "another component")?;
    }
    Ok(())
}

/// An expression, the weekdays that match from Monday on, whether days are counted from the month's end, the name of
/// the zone, and its offset.
type Row = (
    &'static str,
    [bool; 7],
    bool,
    Option<&'static str>,
    Option<i32>,
);

static ROWS: [Row; 3] = [
    (
        "Mon *-05~07/1",
        [true, false, false, false, false, false, false],
        true,
        None,
        None,
    ),
    ("Mon..Sun 12:00 utc", [true; 7], false, Some("UTC"), None),
    ("daily +02:00", [true; 7], false, None, Some(7_200)),
];

#[test]
fn weekdays_and_zones(rt: HostRuntime) -> Result<(), Fail> {
    for (text, weekdays, from_end, name, offset) in &ROWS {
        let found = expr(rt.alloc(), text)?;
        ensure(found.weekdays() == *weekdays, text)?;
        ensure(found.from_end() == *from_end, text)?;
        ensure(found.zone_name() == *name, text)?;
        ensure(found.zone_offset() == *offset, text)?;
    }
    Ok(())
}

/// Checks that the last Monday of May 2024 matches at midnight, and that the Monday before doesn't.
#[test]
fn matches(rt: HostRuntime) -> Result<(), Fail> {
    let last_monday = expr(rt.alloc(), "Mon *-05~07/1")?;
    ensure(last_monday.has(1_716_768_000), "2024-05-27")?;
    ensure(!last_monday.has(1_716_163_200), "2024-05-20")
}
