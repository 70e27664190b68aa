//! The numbers and the messages of the errors of command lines. `tests/pages.py` compares the numbers with the order of
//! the variants.

use cal_command::CommandFault;
use cal_library_tests::shared::ensure;
use std::alloc::{AllocError, Global};
use std::test::Fail;

/// Returns each error of a command line with its number and its message.
fn command_faults(alloc: Global) -> Result<[(CommandFault, u8, &'static str); 7], AllocError> {
    let usage = String::from_str(alloc, "usage text")?;
    let help = String::from_str(alloc, "help text")?;
    Ok([
        (CommandFault::Usage(usage), 1, "usage text"),
        (CommandFault::Help(help), 2, "help text"),
        (CommandFault::BadIterations, 3, "bad iterations"),
        (CommandFault::BadNow, 4, "bad now"),
        (CommandFault::BadZones, 5, "bad zones"),
        (CommandFault::BadLocal, 6, "bad local zone"),
        (CommandFault::NoMemory, 7, ""),
    ])
}

#[test]
fn command_faults_in_order(rt: HostRuntime) -> Result<(), Fail> {
    for (place, (fault, number, message)) in command_faults(rt.alloc())?.iter().enumerate() {
        ensure(usize::from(*number) == place + 1, message)?;
        ensure(fault.words() == *message, message)?;
    }
    Ok(())
}
