//! Why the program stops early: the text and the exit status for each reason.

use cal_bytes::Port;
use cal_command::CommandFault::*;
use cal_library_tests::shared::ensure;
use cal_request::RunFault;
use cal_work::{LoadFault, Stop, write_stop};
use cal_zone::ZoneFault;
use std::alloc::Global;
use std::test::Fail;

/// Expects a stop to have this text and this status.
fn expect_stop(alloc: Global, stop: &Stop, text: &str, status: u8) -> Result<(), Fail> {
    let mut out = Port::new(Vec::new(alloc));
    let written = write_stop(&mut out, stop);
    ensure(written.is_ok() && stop.status() == status, text)?;
    ensure(out.into_inner().as_slice() == text.as_bytes(), text)
}

/// Expects each stop to have a line with this message, and this status.
fn expect_lines(alloc: Global, rows: &[(Stop, &str, u8)]) -> Result<(), Fail> {
    for (stop, message, status) in rows {
        let line = format!(in alloc; "calendar-analyze: {message}\n")?;
        expect_stop(alloc, stop, line.as_str(), *status)?;
    }
    Ok(())
}

#[test]
fn own_lines(rt: HostRuntime) -> Result<(), Fail> {
    let rows = [
        (Stop::Command(BadIterations), "bad iterations", 2),
        (Stop::Command(BadNow), "bad now", 2),
        (Stop::Command(BadZones), "bad zones", 2),
        (Stop::Command(BadLocal), "bad local zone", 2),
        (Stop::Command(NoMemory), "out of memory", 1),
        (Stop::LocalRule, "--local: bad rule", 2),
        (Stop::LocalName, "--local: no such zone", 2),
        (Stop::Clock, "clock out of range", 2),
        (Stop::Run(RunFault::OutFailed), "output failed", 1),
        (Stop::Run(RunFault::NoMemory), "out of memory", 1),
    ];
    expect_lines(rt.alloc(), &rows)
}

/// The errors of a zone file `A`, each with its message and its status.
static ZONE_ROWS: [(LoadFault, &str, u8); 4] = [
    (LoadFault::ReadFailed, "--zones: A: cannot be read", 2),
    (
        LoadFault::Zone(ZoneFault::BadFile),
        "--zones: A: bad zone file",
        2,
    ),
    (
        LoadFault::Zone(ZoneFault::NameTaken),
        "--zones: A: zone name taken",
        2,
    ),
    (LoadFault::Zone(ZoneFault::NoMemory), "out of memory", 1),
];

#[test]
fn zone_files(rt: HostRuntime) -> Result<(), Fail> {
    for (fault, message, status) in &ZONE_ROWS {
        let name = String::from_str(rt.alloc(), "A")?;
        let row = (Stop::Zones(name, *fault), *message, *status);
        expect_lines(rt.alloc(), &[row])?;
    }
    Ok(())
}

#[test]
fn other_texts(rt: HostRuntime) -> Result<(), Fail> {
    let usage = Usage(String::from_str(rt.alloc(), "usage\n")?);
    let help = Help(String::from_str(rt.alloc(), "help\n")?);
    let open = Stop::Open(String::from_str(rt.alloc(), "f")?);
    let failed = Stop::Run(RunFault::ErrFailed);
    expect_stop(rt.alloc(), &Stop::Command(usage), "usage\n", 2)?;
    expect_stop(rt.alloc(), &Stop::Command(help), "help\n", 0)?;
    expect_stop(rt.alloc(), &open, "f: cannot be read\n", 1)?;
    expect_stop(rt.alloc(), &failed, "", 1)
}
