//! Files that can't be used, and outputs that fail.

use super::{check, perform};
use cal_bytes::{Faulty, Port, Then};
use cal_library_tests::memory::{Item, MemoryInputs, MemorySystem};
use cal_library_tests::shared::{ensure, zone_file};
use cal_request::RunFault;
use cal_work::{Ended, work};
use std::alloc::Global;
use std::io::BufWriter;
use std::test::Fail;

/// Runs the program with the arguments in `line` and a file `f` that has these bytes. Expects nothing on standard
/// output, `err` on standard error, and this status.
fn check_bytes(alloc: Global, bytes: &[u8], line: &str, err: &str, status: u8) -> Result<(), Fail> {
    let items = [("f", Item::File(bytes))];
    check(alloc, MemorySystem::new(&items), (line, "", err, status))
}

const ZONE_UNREAD: &str = "calendar-analyze: --zones: A: cannot be read\n";

const ZONE_TOO_LARGE: &str = "calendar-analyze: --zones: A: larger than 1048576 bytes\n";

const ZONE_CUT: &str = "calendar-analyze: --zones: A: bad zone file\n";

const TIMER_UNREAD: &str = "f: cannot be read\n";

const TIMER_TOO_LARGE: &str = "f: larger than 1048576 bytes\n";

const TIMER_CUT: &str = "f: no calendar expression\n";

/// Tests a zone file and a timer file that can't be read.
#[test]
fn files_that_fail(rt: HostRuntime) -> Result<(), Fail> {
    let locked = MemorySystem::new(&[("f", Item::Locked)]);
    let line = "calendar|--zones=A=f|daily";
    check(rt.alloc(), locked, (line, "", ZONE_UNREAD, 2))?;
    check(rt.alloc(), locked, ("timer|f", "", TIMER_UNREAD, 1))
}

/// Tests a zone file and a timer file that are one byte too large, or of which only a part is there.
#[test]
fn files_that_are_rejected(rt: HostRuntime) -> Result<(), Fail> {
    let large = vec![in rt.alloc(); b'#'; 1_048_577]?;
    let zone = zone_file(rt.alloc())?;
    let part = zone.as_slice().get(..60).ok_or("a short file")?;
    let line = "calendar|--zones=A=f|daily";
    check_bytes(rt.alloc(), &large, line, ZONE_TOO_LARGE, 2)?;
    check_bytes(rt.alloc(), part, line, ZONE_CUT, 2)?;
    check_bytes(rt.alloc(), &large, "timer|f", TIMER_TOO_LARGE, 1)?;
    check_bytes(rt.alloc(), b"[Timer]\n", "timer|f", TIMER_CUT, 1)
}

/// Runs the program with a standard output that fails after 3 bytes. Expects standard output to have the first 3 bytes
/// of `whole`, standard error to report the failure, and the status to be 1.
fn check_cut_out(alloc: Global, args: &[&str], whole: &[u8]) -> Result<(), Fail> {
    let mut inputs = MemoryInputs::new(MemorySystem::new(&[]));
    let writer = Faulty::new(Vec::new(alloc), 7, 3, Then::Error);
    let mut out = Port::new(BufWriter::new(alloc, writer)?);
    let mut err = Port::new(Vec::new(alloc));
    let ended = work(alloc, &mut inputs, args, &mut out, &mut err);
    let want = Ended {
        status: 1,
        written: Err(RunFault::OutFailed),
    };
    let (writer, _left) = out.into_inner().into_parts();
    ensure(ended == want, "how it ended")?;
    ensure(Some(writer.bytes()) == whole.get(..3), "standard output")?;
    let line = "calendar-analyze: output failed\n";
    ensure(
        err.into_inner().as_slice() == line.as_bytes(),
        "standard error",
    )
}

const HOUR: &str = "Original: 1h
      μs: 3600000000
   Human: 1h
";

#[test]
fn outputs_that_fail(rt: HostRuntime) -> Result<(), Fail> {
    let memory = MemorySystem::new(&[]);
    let help = perform(rt.alloc(), memory, "--help")?;
    check_cut_out(rt.alloc(), &["timespan", "1h"], HOUR.as_bytes())?;
    check_cut_out(rt.alloc(), &["--help"], help.out.as_slice())
}

/// Runs the program with a standard error that fails after 3 bytes. Expects standard error to have `front`, the first 3
/// bytes of the error line, and the status to be the one that the run would have without the failure.
fn check_cut_err(alloc: Global, args: &[&str], front: &str, status: u8) -> Result<(), Fail> {
    let mut inputs = MemoryInputs::new(MemorySystem::new(&[]));
    let mut out = Port::new(BufWriter::new(alloc, Vec::new(alloc))?);
    let mut err = Port::new(Faulty::new(Vec::new(alloc), 7, 3, Then::Zero));
    let ended = work(alloc, &mut inputs, args, &mut out, &mut err);
    let want = Ended {
        status,
        written: Err(RunFault::ErrFailed),
    };
    ensure(ended == want, front)?;
    ensure(err.into_inner().bytes() == front.as_bytes(), front)
}

#[test]
fn standard_error_that_fails(rt: HostRuntime) -> Result<(), Fail> {
    check_cut_err(rt.alloc(), &["timespan", "5x"], "5x:", 1)?;
    check_cut_err(rt.alloc(), &["calendar", "--now=5", "daily"], "cal", 2)
}
