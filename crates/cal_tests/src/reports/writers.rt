//! Reports to writers that are slow or fail, and requests that continue a report that was cut off.

use super::timers::{CONTINUED_TIMER, EXCEPT_TIMER};
use super::times::{SPAN_LIST, STAMP_LIST};
use super::zones::{EVERY_SECOND, FROM_THE_FIRST};
use super::{
    CALENDAR, KnownZones, NOON_THIRTY, Row, check, expect_texts, known_zones, run_row, status,
};
use cal_bytes::{Faulty, Port, Then};
use cal_library_tests::shared::ensure;
use cal_request::{RunFault, Status};
use std::alloc::Global;
use std::test::Fail;

/// A request with a valid expression and an invalid one, for which a report and an error line are written.
const ONE_REFUSED: Row<'static> = Row {
    about: "noon thirty and a refused text",
    texts: &["*-*-* 12:30:00", "x"],
    err: "x: unknown shorthand\n",
    ..NOON_THIRTY
};

/// Rows for every verb.
static ROWS: [Row<'static>; 6] = [
    ONE_REFUSED,
    EVERY_SECOND,
    CONTINUED_TIMER,
    EXCEPT_TIMER,
    SPAN_LIST,
    STAMP_LIST,
];

/// Runs the row with writers that take one byte in each call, and expects them to get all bytes.
fn check_slow(alloc: Global, row: &Row<'_>, zones: &KnownZones) -> Result<(), Fail> {
    let mut out = Port::new(Faulty::new(Vec::new(alloc), 1, 9_999, Then::Error));
    let mut err = Port::new(Faulty::new(Vec::new(alloc), 1, 9_999, Then::Error));
    let mut input = Port::new(row.input);
    let ended = run_row(alloc, row, zones, &mut input, &mut out, &mut err)?;
    let (out, err) = (out.into_inner(), err.into_inner());
    expect_texts(row, (out.bytes(), err.bytes(), ended))
}

#[test]
fn slow_writers(rt: HostRuntime) -> Result<(), Fail> {
    let zones = known_zones(rt.alloc())?;
    for row in &ROWS {
        check_slow(rt.alloc(), row, &zones)?;
    }
    Ok(())
}

/// How a run with a failing writer ended: the bytes that this writer got, the result of the run, and whether the writer
/// of reports and the writer of error lines failed.
type Cut<'a> = (&'a [u8], Result<Status, RunFault>, (bool, bool));

/// Returns the expected result of a run: `fault` if an output was cut off, and otherwise the row's status.
fn end_of_cut(row: &Row<'_>, is_cut: bool, fault: RunFault) -> Result<Status, RunFault> {
    if is_cut { Err(fault) } else { Ok(status(row)) }
}

/// Expects the run of the row to have ended as `wanted` says; `cut` is how it ended.
fn expect_cut(row: &Row<'_>, cut: Cut<'_>, wanted: Cut<'_>) -> Result<(), Fail> {
    ensure(cut.0 == wanted.0, row.about)?;
    ensure(cut.1 == wanted.1, row.about)?;
    ensure(cut.2 == wanted.2, row.about)
}

/// Checks a run whose writer of reports fails after `front`, a prefix of the reports. Expects the writer to have
/// exactly this prefix, and the run to report the failure unless nothing is missing.
fn check_cut_out(
    alloc: Global,
    row: &Row<'_>,
    zones: &KnownZones,
    front: &[u8],
    then: Then,
) -> Result<(), Fail> {
    let mut out = Port::new(Faulty::new(Vec::new(alloc), 3, front.len(), then));
    let mut err = Port::new(Vec::new(alloc));
    let mut input = Port::new(row.input);
    let ended = run_row(alloc, row, zones, &mut input, &mut out, &mut err)?;
    let failed = (out.failed(), err.failed());
    let out = out.into_inner();
    let is_cut = front.len() < row.out.len();
    let ends = end_of_cut(row, is_cut, RunFault::OutFailed);
    let wanted = (front, ends, (is_cut, false));
    expect_cut(row, (out.bytes(), ended, failed), wanted)
}

/// The ways in which a writer can fail.
static FAILURES: [Then; 3] = [Then::Error, Then::Interrupted, Then::Zero];

/// Checks the row with its reports cut off at every length, from no bytes to all of them.
fn check_cuts_out(alloc: Global, row: &Row<'_>, zones: &KnownZones) -> Result<(), Fail> {
    let text = row.out.as_bytes();
    for limit in 0..=text.len() {
        for then in &FAILURES {
            check_cut_out(alloc, row, zones, &text[..limit], *then)?;
        }
    }
    Ok(())
}

#[test]
fn reports_that_are_cut(rt: HostRuntime) -> Result<(), Fail> {
    let zones = known_zones(rt.alloc())?;
    for row in &ROWS {
        check_cuts_out(rt.alloc(), row, &zones)?;
    }
    Ok(())
}

const AFTER_THE_SECOND: &str = "  Original form: *:*:*
Normalized form: *-*-* *:*:*
    Next elapse: Mon 2024-01-01 05:30:03 +05:30
       (in UTC): Mon 2024-01-01 00:00:03 UTC
       From now: 3s left
";

const AFTER_THE_FRIDAY: &str = "  Original form: 12:00
Normalized form: *-*-* 12:00:00
    Except form: Sat,Sun 12:00
Normalized form: Sat,Sun *-*-* 12:00:00
    Next elapse: Mon 2024-01-08 12:00:00 UTC
       From now: 3d 12h left
";

/// [`EVERY_SECOND`], and the requests that continue its report. The row at index 1 has the first elapse as its base,
/// and the row at index 2 has the second.
static EVERY_SECOND_RESUMED: [Row<'static>; 3] = [
    EVERY_SECOND,
    FROM_THE_FIRST,
    Row {
        about: "every second after the second",
        iterations: 1,
        base: Some("@1704067202"),
        out: AFTER_THE_SECOND,
        ..EVERY_SECOND
    },
];

/// [`EXCEPT_TIMER`], and the request that continues its report after the first elapse.
static EXCEPT_TIMER_RESUMED: [Row<'static>; 2] = [
    EXCEPT_TIMER,
    Row {
        about: "noon after the Friday's",
        iterations: 1,
        base: Some("@1704456000"),
        out: AFTER_THE_FRIDAY,
        ..EXCEPT_TIMER
    },
];

#[test]
fn second_runs(rt: HostRuntime) -> Result<(), Fail> {
    check(rt.alloc(), &EVERY_SECOND_RESUMED)?;
    check(rt.alloc(), &EXCEPT_TIMER_RESUMED)
}

/// Appends the elapses in the complete lines of a report, each followed by a line feed. The last line may be cut off.
fn push_elapses(elapses: &mut String, report: &[u8]) -> Result<(), Fail> {
    let (lines, _cut_off) = str::from_utf8(report)?
        .rsplit_once('\n')
        .unwrap_or(("", ""));
    for line in lines.lines() {
        if line.starts_with("    Next elapse: ") || line.starts_with("       Iter. #") {
            let (_label, elapse) = line.split_once(": ").ok_or("no label")?;
            elapses.push_str(elapse)?;
            elapses.push('\n')?;
        }
    }
    Ok(())
}

/// Runs a row with a writer that fails after `limit` bytes of its reports, and appends the elapses that it has then.
fn push_run(
    alloc: Global,
    elapses: &mut String,
    row: &Row<'_>,
    zones: &KnownZones,
    limit: usize,
) -> Result<(), Fail> {
    let mut out = Port::new(Faulty::new(Vec::new(alloc), 3, limit, Then::Error));
    let mut err = Port::new(Vec::new(alloc));
    let mut input = Port::new(row.input);
    let _ended = run_row(alloc, row, zones, &mut input, &mut out, &mut err)?;
    push_elapses(elapses, out.into_inner().bytes())
}

/// Cuts the report of the first row off after `limit` bytes, and runs the row that continues it: the row at index `k`
/// if `k` elapses are complete, and none if all are. Expects both runs together to have the elapses `all`.
fn check_resumed(
    alloc: Global,
    rows: &[Row<'_>],
    zones: &KnownZones,
    limit: usize,
    all: &str,
) -> Result<(), Fail> {
    let first = rows.first().ok_or("no rows")?;
    let mut elapses = String::new(alloc);
    push_run(alloc, &mut elapses, first, zones, limit)?;
    if let Some(second) = rows.get(elapses.lines().count()) {
        push_run(alloc, &mut elapses, second, zones, second.out.len())?;
    }
    ensure(elapses.as_str() == all, first.about)
}

/// The elapses of [`EVERY_SECOND`].
const EVERY_SECOND_ELAPSES: &str = "\
Mon 2024-01-01 05:30:01 +05:30
Mon 2024-01-01 05:30:02 +05:30
Mon 2024-01-01 05:30:03 +05:30
";

/// The elapses of [`EXCEPT_TIMER`].
const EXCEPT_TIMER_ELAPSES: &str = "\
Fri 2024-01-05 12:00:00 UTC
Mon 2024-01-08 12:00:00 UTC
";

/// Checks the first row with its reports cut off at every length, from no bytes to all of them.
fn check_all_resumed(alloc: Global, rows: &[Row<'_>], all: &str) -> Result<(), Fail> {
    let zones = known_zones(alloc)?;
    let first = rows.first().ok_or("no rows")?;
    let report = first.out.as_bytes();
    for limit in 0..=report.len() {
        check_resumed(alloc, rows, &zones, limit, all)?;
    }
    Ok(())
}

#[test]
fn reports_that_are_resumed(rt: HostRuntime) -> Result<(), Fail> {
    check_all_resumed(rt.alloc(), &EVERY_SECOND_RESUMED, EVERY_SECOND_ELAPSES)?;
    check_all_resumed(rt.alloc(), &EXCEPT_TIMER_RESUMED, EXCEPT_TIMER_ELAPSES)
}

/// Checks a run whose writer of error lines fails after `front`, a prefix of the error lines. Expects the writer to
/// have exactly this prefix, the run to report the failure unless nothing is missing, and all reports of the row to be
/// written.
fn check_cut_err(
    alloc: Global,
    row: &Row<'_>,
    zones: &KnownZones,
    front: &[u8],
    then: Then,
) -> Result<(), Fail> {
    let mut out = Port::new(Vec::new(alloc));
    let mut err = Port::new(Faulty::new(Vec::new(alloc), 1, front.len(), then));
    let mut input = Port::new(row.input);
    let ended = run_row(alloc, row, zones, &mut input, &mut out, &mut err)?;
    let failed = (out.failed(), err.failed());
    let (out, err) = (out.into_inner(), err.into_inner());
    let is_cut = front.len() < row.err.len();
    let ends = end_of_cut(row, is_cut, RunFault::ErrFailed);
    let wanted = (front, ends, (false, is_cut));
    expect_cut(row, (err.bytes(), ended, failed), wanted)?;
    // Nothing was offered to the writer after it had failed.
    let is_last = err.calls() == front.len() as u64 + u64::from(is_cut);
    ensure(is_last, row.about)?;
    ensure(out.as_slice() == row.out.as_bytes(), row.about)
}

/// Checks the row with its error lines cut off at every length, from no bytes to all of them.
fn check_cuts_err(alloc: Global, row: &Row<'_>, zones: &KnownZones) -> Result<(), Fail> {
    let text = row.err.as_bytes();
    for limit in 0..=text.len() {
        for then in &FAILURES {
            check_cut_err(alloc, row, zones, &text[..limit], *then)?;
        }
    }
    Ok(())
}

/// An invalid base time, for which only an error line is written.
const REFUSED_BASE: Row<'static> = Row {
    about: "a refused base",
    texts: &["*-*-* 12:30:00"],
    iterations: 2,
    base: Some("x"),
    err: "--base-time: bad weekday\n",
    ..CALENDAR
};

/// Rows whose error lines, if they have any, are written after all of their reports.
static CUT_REFUSALS: [Row<'static>; 6] = [
    ONE_REFUSED,
    SPAN_LIST,
    REFUSED_BASE,
    EVERY_SECOND,
    CONTINUED_TIMER,
    EXCEPT_TIMER,
];

#[test]
fn refusals_that_are_cut(rt: HostRuntime) -> Result<(), Fail> {
    let zones = known_zones(rt.alloc())?;
    for row in &CUT_REFUSALS {
        check_cuts_err(rt.alloc(), row, &zones)?;
    }
    Ok(())
}

/// Returns the part of `text` before the first occurrence of `part`.
fn before<'t>(text: &'t str, part: &str) -> Result<&'t str, Fail> {
    let end = text.find(part).ok_or("the part is missing")?;
    Ok(text.get(..end).unwrap_or(""))
}

/// Returns the reports of [`STAMP_LIST`] that are written if its error lines are cut off after `limit` bytes. The first
/// report precedes all error lines, the second one comes after three error lines, and the third one after all of them.
fn reports_until(stamps: &Row<'static>, limit: usize) -> Result<&'static str, Fail> {
    if limit == stamps.err.len() {
        return Ok(stamps.out);
    }
    let first_three = before(stamps.err, "foo")?;
    let next = if limit < first_three.len() {
        "\n  Original form: today"
    } else {
        "\n  Original form: yesterday"
    };
    before(stamps.out, next)
}

/// Checks [`STAMP_LIST`] with its error lines cut off at every length, from no bytes to all of them.
fn check_cuts_of_stamps(
    alloc: Global,
    stamps: &Row<'static>,
    zones: &KnownZones,
) -> Result<(), Fail> {
    let text = stamps.err.as_bytes();
    for limit in 0..=text.len() {
        let out = reports_until(stamps, limit)?;
        let row = Row { out, ..*stamps };
        for then in &FAILURES {
            check_cut_err(alloc, &row, zones, &text[..limit], *then)?;
        }
    }
    Ok(())
}

static STAMPS: Row<'static> = STAMP_LIST;

#[test]
fn refusals_of_stamps_that_are_cut(rt: HostRuntime) -> Result<(), Fail> {
    let zones = known_zones(rt.alloc())?;
    check_cuts_of_stamps(rt.alloc(), &STAMPS, &zones)
}
