//! Tests of `work`, which does everything between the arguments and the exit status. The files and the clock are in
//! memory. The tests check the bytes on both outputs, and the status.

mod answers;
mod failures;
mod reads;

use cal_bytes::Port;
use cal_library_tests::memory::{MemoryInputs, MemorySystem};
use cal_library_tests::shared::ensure;
use cal_work::work;
use std::alloc::Global;
use std::io::BufWriter;
use std::test::Fail;

/// What the program did: the bytes on standard output and on standard error, and the exit status.
#[derive(Drop)]
struct Done {
    out: Vec<u8>,
    err: Vec<u8>,
    status: u8,
}

impl Done {
    fn of(out: Port<BufWriter<Vec<u8>>>, err: Port<Vec<u8>>, status: u8) -> Done {
        let (out, _left) = out.into_inner().into_parts();
        let err = err.into_inner();
        Done { out, err, status }
    }
}

/// Runs the program with the arguments in `line`, which are separated by `|`.
fn perform(alloc: Global, system: MemorySystem<'_>, line: &str) -> Result<Done, Fail> {
    let arguments: Vec<&str> = line.split('|').collect(alloc)?;
    perform_arguments(alloc, system, arguments.as_slice())
}

fn perform_arguments(
    alloc: Global,
    system: MemorySystem<'_>,
    arguments: &[&str],
) -> Result<Done, Fail> {
    let mut out = Port::new(BufWriter::new(alloc, Vec::new(alloc))?);
    let mut err = Port::new(Vec::new(alloc));
    let mut inputs = MemoryInputs::new(system);
    let ended = work(alloc, &mut inputs, arguments, &mut out, &mut err);
    Ok(Done::of(out, err, ended.status))
}

/// Arguments, separated by `|`, with the expected texts on standard output and standard error and the expected status.
type Row<'a> = (&'a str, &'a str, &'a str, u8);

/// Runs the program with the row's arguments, and expects the row's outputs and status.
fn check(alloc: Global, system: MemorySystem<'_>, row: Row<'_>) -> Result<(), Fail> {
    let done = perform(alloc, system, row.0)?;
    expect_done(&done, row)
}

/// Expects the arguments on each line to be rejected with this status, and with the error line after the arrow.
fn check_refused(
    alloc: Global,
    system: MemorySystem<'_>,
    lines: &str,
    status: u8,
) -> Result<(), Fail> {
    for line in lines.lines() {
        let (arguments, told) = line.split_once(" -> ").ok_or("no arrow")?;
        let err = format!(in alloc; "{told}\n")?;
        check(alloc, system, (arguments, "", &err, status))?;
    }
    Ok(())
}

/// Expects the outputs and the status to be those of the row.
fn expect_done(done: &Done, row: Row<'_>) -> Result<(), Fail> {
    let (line, out, err, status) = row;
    ensure(done.out.as_slice() == out.as_bytes(), line)?;
    ensure(done.err.as_slice() == err.as_bytes(), line)?;
    ensure(done.status == status, line)
}
