//! The form of zone names, and finding zones by name. The name of a zone begins with a letter, continues with letters,
//! digits, `/`, `_`, `+` or `-`, and has at most 255 bytes.

use crate::shared::{NEW_YEAR, ensure, posix};
use cal_base::{Zone, ZoneFault, ZoneName, ZoneTable, is_zone_name, place};
use std::alloc::Global;
use std::test::Fail;

const NAMES: &str = "\
A|z|UTC|Europe/Berlin|Etc/GMT+12|America/Port-au-Prince|America/Argentina/Rio_Gallegos|a/|a0";

const NO_NAMES: &str = "\
| |1x|/a|_a|+a|-a|a b| a|a |a.b|a:b|a,b|a\0|é|aé|Zürich";

/// Returns whether `text` can be made a [`ZoneName`], which then has this text.
fn keeps_name(text: &str) -> bool {
    match ZoneName::new(text) {
        Some(name) => name.as_str() == text,
        None => false,
    }
}

/// Expects all texts to be valid names, or all to be invalid. The texts are separated by `|`.
fn expect_names(texts: &str, are_names: bool) -> Result<(), Fail> {
    for text in texts.split('|') {
        ensure(is_zone_name(text.as_bytes()) == are_names, text)?;
        ensure(keeps_name(text) == are_names, text)?;
    }
    Ok(())
}

#[test]
fn names() -> Result<(), Fail> {
    expect_names(NAMES, true)?;
    expect_names(NO_NAMES, false)
}

/// Checks that a name of 255 bytes is valid, and a name of 256 bytes isn't.
#[test]
fn lengths() -> Result<(), Fail> {
    let letters = [b'a'; 256];
    ensure(is_zone_name(&letters[..255]), "255 letters")?;
    ensure(!is_zone_name(&letters), "256 letters")
}

/// Adds the zone of a POSIX rule to the table. If the table rejects the zone and hands the rules back, returns the
/// error, and the instant at which a clock that follows the returned rules shows 1970-01-01 02:00:00. This instant
/// shows which rules were handed back.
fn add(
    alloc: Global,
    table: &mut ZoneTable,
    name: &str,
    rule: &str,
) -> Result<Option<(ZoneFault, Option<i64>)>, Fail> {
    match table.add(name, posix(alloc, rule)?) {
        Ok(()) => Ok(None),
        Err((rules, fault)) => Ok(Some((fault, place(Zone::rules(&rules), 7_200)))),
    }
}

/// Returns the instant at which New Year 2024 begins in the zone with this name, or `None` if there is no such zone.
fn midnight(table: &ZoneTable, name: &str) -> Option<i64> {
    place(table.find(name)?, NEW_YEAR)
}

/// Expects each name to find a zone in which New Year 2024 begins at the instant next to the name, or no zone if
/// `None` is next to it.
fn expect_found(table: &ZoneTable, rows: &[(&str, Option<i64>)]) -> Result<(), Fail> {
    for (name, instant) in rows {
        ensure(midnight(table, name) == *instant, name)?;
    }
    Ok(())
}

/// Names that can't be added to a table that has `Test/Fixed`, each with the error. `UTC` is in every table.
static REFUSED: [(&str, ZoneFault); 7] = [
    ("Test/Fixed", ZoneFault::NameTaken),
    ("utc", ZoneFault::NameTaken),
    ("UTC", ZoneFault::NameTaken),
    ("Utc", ZoneFault::NameTaken),
    ("1x", ZoneFault::BadName),
    ("", ZoneFault::BadName),
    ("a b", ZoneFault::BadName),
];

/// Expects each name to be rejected with its error, the rules to be handed back, and the table to stay unchanged.
///
/// By the rules, the clock is two hours ahead of UTC, so 02:00 on the first day of 1970 is the instant 0.
fn expect_refused(
    alloc: Global,
    table: &mut ZoneTable,
    rows: &[(&str, ZoneFault)],
) -> Result<(), Fail> {
    for (name, fault) in rows {
        let refused = add(alloc, table, name, "EET-2")?;
        ensure(refused == Some((*fault, Some(0))), name)?;
        expect_found(table, &FOUND)?;
    }
    Ok(())
}

/// Names, each with the instant at which New Year 2024 begins in the zone that it finds, or `None` if it finds no zone.
/// `Test/Fixed` is the only zone besides UTC.
static FOUND: [(&str, Option<i64>); 6] = [
    ("Test/Fixed", Some(1_704_063_600)),
    ("uTc", Some(NEW_YEAR)),
    ("test/fixed", None),
    ("Test/Fixe", None),
    ("1x", None),
    ("", None),
];

#[test]
fn refusals_change_nothing(rt: HostRuntime) -> Result<(), Fail> {
    let mut table = ZoneTable::new(rt.alloc());
    let refused = add(rt.alloc(), &mut table, "Test/Fixed", "CET-1")?;
    ensure(refused.is_none(), "the first zone")?;
    expect_refused(rt.alloc(), &mut table, &REFUSED)
}
