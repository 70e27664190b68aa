//! The program `calendar-timers`, which shows when the systemd timers of a machine elapse (systemd.timer(5),
//! systemd.time(7)).
#![tactic(auto)]

ghost use Rattle.std.specs.Prelude.{◌≡◌, false};

use cal_answers::answer_arguments;
use cal_bytes::{Port, Sink, put_all};
use cal_machine::HostSystem;
use cal_options::NOT_UTF_8;
use cal_timers_report::Style;
use std::env::FillError;
use std::io::{ErrorKind, IsTerminal};
use std::process::ExitCode;
use std::rt::Env;
use std::{env, io};

/// The exit status if memory for the arguments runs out.
const FAILED: u8 = 1;

/// The exit status if an argument isn't UTF-8.
const USAGE: u8 = 2;

/// The exit status of `due` for each error. With a status from 1 to 254, systemd would skip the service silently
/// (systemd.service(5), ExecCondition=).
const NOT_KNOWN: u8 = 255;

/// The minimum width of output to a terminal, in columns.
const MIN_WIDTH: usize = 80;

/// The width of output that doesn't go to a terminal, in columns: so large that in practice nothing is cut.
const MAX_WIDTH: usize = 1_000_000;

const OUT_OF_MEMORY: &str = "calendar-timers: out of memory\n";

fn main(rt: HostRuntime) -> ExitCode {
    let mut err = Port::new(rt.stderr());
    let arguments = match given_arguments(&rt) {
        Ok(arguments) => arguments,
        Err(error) if error.kind() == ErrorKind::OutOfMemory => {
            return exit_with(&mut err, OUT_OF_MEMORY, status_unless_due(&rt, FAILED));
        }
        Err(_) => return exit_with(&mut err, NOT_UTF_8, status_unless_due(&rt, USAGE)),
    };
    let system = HostSystem::new(&rt);
    let mut out = Port::new(rt.stdout());
    let status = answer_arguments(
        rt.alloc(),
        system,
        arguments.as_slice(),
        style_of(&rt),
        &mut out,
        &mut err,
    );
    ExitCode::from(status)
}

/// Returns the arguments after the program's name.
fn given_arguments<R: Env + AllocGlobal>(rt: &R) -> io::Result<Vec<String>> {
    Ok(env::args(rt)?.skip(1).collect(rt.alloc())?)
}

/// Returns the exit status for arguments that can't be read: [`NOT_KNOWN`] if one of them is `due`, since this may be
/// the verb, and otherwise `status`. Allocates nothing.
fn status_unless_due<R: Env>(rt: &R, status: u8) -> u8 {
    let mut word = [0; 3];
    for index in 1..usize::MAX {
        match rt.arg(index, &mut word) {
            Ok(_) if word == *b"due" => return NOT_KNOWN,
            Ok(_) | Err(FillError::TooLong) => word = [0; 3],
            Err(FillError::NotPresent) => return status,
        }
    }
    status
}

/// Writes the error line about arguments that can't be read, and returns the exit status.
fn exit_with<E: Sink>(err: &mut E, line: &str, status: u8) -> ExitCode
    requires { E.is_failed err.old ≡ false }
{
    // If the line can't be written, the exit status still reports the failure.
    let _ = put_all(err, line.as_bytes());
    ExitCode::from(status)
}

/// Returns the style of the output. On a terminal, tables are cut to its width, and text is bold or red unless the
/// variable `NO_COLOR` is set and not empty (no-color.org). For other outputs, tables are in practice not cut, and all
/// text is plain.
fn style_of(rt: &HostRuntime) -> Style {
    if !rt.stdout().is_terminal() {
        return Style {
            width: MAX_WIDTH,
            is_bold: false,
        };
    }
    let is_plain = match env::var(rt, "NO_COLOR") {
        Ok(value) => !value.is_empty(),
        Err(_) => false,
    };
    Style {
        width: width_of(rt),
        is_bold: !is_plain,
    }
}

/// Returns the width in the variable `COLUMNS`, or [`MIN_WIDTH`] if the variable is missing, invalid or less than
/// [`MIN_WIDTH`].
fn width_of(rt: &HostRuntime) -> usize {
    match env::var(rt, "COLUMNS") {
        Ok(columns) => columns
            .as_str()
            .parse::<usize>()
            .unwrap_or(0)
            .max(MIN_WIDTH),
        Err(_) => MIN_WIDTH,
    }
}
