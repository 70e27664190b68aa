//! The program `calendar-analyze`: reports when calendar expressions and the timers of timer files elapse, what
//! timestamps resolve to, and how long time spans are (systemd-analyze(1), systemd.time(7), systemd.timer(5)).
#![tactic(auto)]

ghost use Rattle.std.specs.Prelude.{◌≡◌, false};

use cal_bytes::{Port, Sink};
pub use cal_command::{Ask, CommandFault, LocalZone, ZoneItem};
use cal_machine::HostInputs;
use cal_options::NOT_UTF_8;
pub use cal_report::{laws, run};
pub use cal_request::{Request, RunFault, Status, Verb};
pub use cal_work::{Ended, Inputs, LoadFault, OpenFault, Stop, load_zone, work, write_stop};
use std::alloc::Global;
use std::io::{BufWriter, ErrorKind, IsTerminal};
use std::process::ExitCode;
use std::rt::Env;
use std::{env, io};

/// The size of the output buffer, in bytes.
const BUFFER_BYTES: usize = 8192;

fn main(rt: HostRuntime) -> ExitCode {
    let mut err = Port::new(rt.stderr());
    let out = rt.stdout();
    // On a terminal, output isn't buffered, so that error lines appear between the reports, in the order of the
    // arguments.
    let capacity = if out.is_terminal() { 0 } else { BUFFER_BYTES };
    let arguments = match given_arguments(&rt) {
        Ok(arguments) => arguments,
        Err(error) => return exit_with(&mut err, &stop_of(rt.alloc(), &error)),
    };
    let Ok(buffer) = BufWriter::with_capacity(rt.alloc(), capacity, out) else {
        return exit_with(&mut err, &Stop::Run(RunFault::NoMemory));
    };
    let mut out = Port::new(buffer);
    let mut inputs = HostInputs::new(&rt);
    let ended = work(
        rt.alloc(),
        &mut inputs,
        arguments.as_slice(),
        &mut out,
        &mut err,
    );
    ExitCode::from(ended.status)
}

/// Returns the arguments after the program's name.
fn given_arguments<R: Env + AllocGlobal>(rt: &R) -> io::Result<Vec<String>> {
    Ok(env::args(rt)?.skip(1).collect(rt.alloc())?)
}

/// Converts an error from reading the arguments into a [`Stop`]. Unless memory ran out, the reason is that an argument
/// isn't UTF-8.
fn stop_of(alloc: Global, error: &io::Error) -> Stop {
    if error.kind() == ErrorKind::OutOfMemory {
        return Stop::Run(RunFault::NoMemory);
    }
    match String::from_str(alloc, NOT_UTF_8) {
        Ok(text) => Stop::Command(CommandFault::Usage(text)),
        Err(_) => Stop::Run(RunFault::NoMemory),
    }
}

/// Writes the error line for a stop that comes before [`work`] is called, and returns the exit status.
fn exit_with<E: Sink>(err: &mut E, stop: &Stop) -> ExitCode
    requires { E.is_failed err.old ≡ false }
{
    // If the line can't be written, the exit status still reports the failure.
    let _ = write_stop(err, stop);
    ExitCode::from(stop.status())
}
