//! The numbers and the messages of the errors of timestamps, timer files and zone files. `tests/pages.py` compares the
//! numbers with the order of the variants.

use crate::shared::ensure;
use cal_base::{LoadFault, SpanFault, ZoneFault};
use cal_read::{StampFault, TimerFault};
use cal_spec::SpecFault;
use std::test::Fail;

static STAMP_FAULTS: [(StampFault, u8, &str); 10] = [
    (StampFault::Empty, 1, "empty timestamp"),
    (StampFault::BadWeekday, 2, "bad weekday"),
    (StampFault::BadDate, 3, "bad date"),
    (StampFault::BadTime, 4, "bad time"),
    (StampFault::NoSuchDate, 5, "no such date"),
    (StampFault::WrongWeekday, 6, "weekday does not fit the date"),
    (
        StampFault::BadSpan(SpanFault::UnknownUnit),
        7,
        "bad time span: unknown unit",
    ),
    (StampFault::NoSuchZone, 8, "no such zone"),
    (StampFault::StrayWord, 9, "stray word"),
    (StampFault::OutOfRange, 10, "timestamp out of range"),
];

static TIMER_FAULTS: [(TimerFault, u8, &str); 7] = [
    (TimerFault::ReadFailed, 1, "cannot be read"),
    (TimerFault::TooLarge, 2, "larger than 1048576 bytes"),
    (TimerFault::NotUtf8(3), 3, "not UTF-8"),
    (
        TimerFault::BadLine(2, SpecFault::BadWeekday),
        4,
        "bad weekday",
    ),
    (TimerFault::TooMany(258), 5, "more than 256 expressions"),
    (TimerFault::NothingToDo, 6, "no calendar expression"),
    (TimerFault::NoMemory, 7, ""),
];

static LOAD_FAULTS: [(LoadFault, u8, &str); 2] = [
    (LoadFault::ReadFailed, 1, "cannot be read"),
    (LoadFault::Zone(ZoneFault::BadFile), 2, "bad zone file"),
];

#[test]
fn stamp_faults(_rt: HostRuntime) -> Result<(), Fail> {
    for (place, (fault, number, message)) in STAMP_FAULTS.iter().enumerate() {
        ensure(usize::from(*number) == place + 1, message)?;
        ensure(fault.words() == *message, message)?;
    }
    Ok(())
}

#[test]
fn timer_faults(_rt: HostRuntime) -> Result<(), Fail> {
    for (place, (fault, number, message)) in TIMER_FAULTS.iter().enumerate() {
        ensure(usize::from(*number) == place + 1, message)?;
        ensure(fault.words() == *message, message)?;
    }
    Ok(())
}

#[test]
fn load_faults(_rt: HostRuntime) -> Result<(), Fail> {
    for (place, (fault, number, message)) in LOAD_FAULTS.iter().enumerate() {
        ensure(usize::from(*number) == place + 1, message)?;
        ensure(fault.words() == *message, message)?;
    }
    Ok(())
}
