//! How often the timer file is read.

use cal_bytes::Port;
use cal_library_tests::memory::{Item, MemoryInputs, MemorySystem};
use cal_library_tests::shared::ensure;
use cal_work::work;
use std::alloc::Global;
use std::io::BufWriter;
use std::test::Fail;

const HOURLY: &[u8] = b"[Timer]\nOnCalendar=hourly\n";

/// Runs the program with the arguments in `line`, which are separated by `|`, and files `h` and `l`, of which only `h`
/// can be read. Returns how many calls of `fetch` were made for the file that was opened last.
fn fetches_of(alloc: Global, line: &str) -> Result<u32, Fail> {
    let items = [("h", Item::File(HOURLY)), ("l", Item::Locked)];
    let arguments: Vec<&str> = line.split('|').collect(alloc)?;
    let mut inputs = MemoryInputs::new(MemorySystem::new(&items));
    let mut out = Port::new(BufWriter::new(alloc, Vec::new(alloc))?);
    let mut err = Port::new(Vec::new(alloc));
    work(alloc, &mut inputs, arguments.as_slice(), &mut out, &mut err);
    Ok(inputs.fetches)
}

/// Tests that nothing is read from the timer file if the base time is invalid. Otherwise, `h` takes two reads: one for
/// its bytes, and one that finds its end.
#[test]
fn an_invalid_base_leaves_the_file_unread(rt: HostRuntime) -> Result<(), Fail> {
    let rows = [
        ("timer|--base-time=x|h", 0),
        ("timer|--base-time=x|l", 0),
        ("timer|h", 2),
        ("timer|l", 1),
    ];
    for (line, count) in &rows {
        ensure(fetches_of(rt.alloc(), line)? == *count, line)?;
    }
    Ok(())
}
