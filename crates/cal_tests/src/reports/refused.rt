//! Reports for which the script `tests/refused.py` makes each allocation fail in turn. The script checks that a test
//! fails with `NoMemory` or `AllocError` if and only if an allocation has failed.

use super::calendar::LEAP_DAYS;
use super::timers::{CONTINUED_TIMER, EXCEPT_TIMER};
use super::times::{SPAN_LIST, STAMP_LIST};
use super::{KnownZones, Row, RunOutput, expect_texts, run_row};
use cal_bytes::Port;
use cal_library_tests::shared::{SUMMER_TIME, ensure};
use cal_request::RunFault;
use cal_zone::{Rules, ZoneTable};
use std::alloc::Global;
use std::test::Fail;

/// Runs the row with writers whose memory is allocated before the run.
fn check_refused(alloc: Global, row: &Row<'_>) -> Result<(), Fail> {
    let summer = Rules::posix(alloc, SUMMER_TIME)?;
    let table = ZoneTable::new(alloc);
    let zones = KnownZones { summer, table };
    let mut out = Port::new(Vec::with_capacity(alloc, 4_096)?);
    let mut err = Port::new(Vec::with_capacity(alloc, 4_096)?);
    let mut input = Port::new(row.input);
    let ended = run_row(alloc, row, &zones, &mut input, &mut out, &mut err)?;
    let (out, err) = (out.into_inner(), err.into_inner());
    expect_texts_or_none(row, (out.as_slice(), err.as_slice(), ended))
}

/// Expects that the row's texts were written. If the verb allocates and its run ran out of memory, expects instead that
/// nothing was written, and fails with `NoMemory`.
fn expect_texts_or_none(row: &Row<'_>, written: RunOutput<'_>) -> Result<(), Fail> {
    let (out, err, ended) = written;
    if ended == Err(RunFault::NoMemory) && row.verb.seeks_elapses() {
        ensure(out.is_empty() && err.is_empty(), row.about)?;
        return Err(RunFault::NoMemory.into());
    }
    expect_texts(row, written)
}

static CALENDAR_ROW: Row<'static> = LEAP_DAYS;

static TIMER_ROW: Row<'static> = CONTINUED_TIMER;

static EXCEPT_ROW: Row<'static> = EXCEPT_TIMER;

static SPAN_ROW: Row<'static> = SPAN_LIST;

static STAMP_ROW: Row<'static> = STAMP_LIST;

#[test]
fn a_calendar(rt: HostRuntime) -> Result<(), Fail> {
    check_refused(rt.alloc(), &CALENDAR_ROW)
}

#[test]
fn a_timer(rt: HostRuntime) -> Result<(), Fail> {
    check_refused(rt.alloc(), &TIMER_ROW)
}

#[test]
fn a_timer_with_an_exception(rt: HostRuntime) -> Result<(), Fail> {
    check_refused(rt.alloc(), &EXCEPT_ROW)
}

/// Reports on time spans and timestamps, here and in the next test, don't allocate: only allocations before the run can
/// fail.
#[test]
fn time_spans(rt: HostRuntime) -> Result<(), Fail> {
    check_refused(rt.alloc(), &SPAN_ROW)
}

#[test]
fn timestamps(rt: HostRuntime) -> Result<(), Fail> {
    check_refused(rt.alloc(), &STAMP_ROW)
}
