//! A whole run: from the arguments to the bytes on both outputs and the exit status.

ghost use Rattle.std.specs.Prelude.{◌≡◌, ℤ, IfOk, IsTrue, Option, false, map};
ghost use Rattle.cal_answers.specs.rules.Output.{IsAnswerOn};
ghost use Rattle.cal_answers.specs.rules.Printed.{printed_of};
ghost use Rattle.cal_machine.specs.rules.Seen.{ClockShows};
ghost use Rattle.cal_answers.specs.rules.Run.{IsRunOf, IsToPrint, Prints, status_unless};

use crate::answer::Answer;
use crate::whole::read_and_answer;
use cal_bytes::{Sink, put_all, put_pieces};
use cal_machine::System;
use cal_options::ArgumentFault;
use cal_timers_command::{Command, asks_due};
use cal_timers_report::Style;
use std::alloc::{AllocError, Global};
use std::convert::AsStr;

/// The exit status if standard output or allocation fails.
const FAILED: u8 = 1;

/// The exit status if the arguments are invalid.
const USAGE: u8 = 2;

/// The exit status of `due` if there is an error line. With a status from 1 to 254, systemd would skip the service
/// silently (systemd.service(5), ExecCondition=).
const NOT_KNOWN: u8 = 255;

/// Answers the question that the arguments ask, or prints help. Writes the answer to `out` and error lines to `err`,
/// and returns the exit status.
///
/// Each question about the system is asked at most once. If `out` fails, for example because nobody reads the pipe any
/// more, it has a prefix of the answer, the last line on `err` reports the failure, and the status is 1. If `err`
/// fails, only the status can report errors. If there is any error line, the status of `due` is [`NOT_KNOWN`].
pub fn answer_arguments<S: System + Drop, T: AsStr, O: Sink, E: Sink>(
    alloc: Global,
    system: S,
    arguments: &[T],
    style: Style,
    out: &mut O,
    err: &mut E,
) -> u8
    requires out { O.is_failed out.old ≡ false }
    requires err { E.is_failed err.old ≡ false }
    ensures { IsRunOf S.gives (map T.text arguments.now) style result (O.is_failed out.new) (E.is_failed err.new)
        (O.written out.old) (O.written out.new) (E.written err.old) (E.written err.new) }
{
    let is_due = asks_due(arguments);
    match answer_for(alloc, system, arguments, style) {
        Ok(answer) => write_answer(
            is_due,
            answer.out.as_str(),
            answer.err.as_str(),
            answer.status,
            out,
            err,
        ),
        Err(AllocError) => {
            let line = "calendar-timers: out of memory\n";
            write_answer(is_due, "", line, FAILED, out, err)
        }
    }
}

/// Returns what is to be written for these arguments.
fn answer_for<S: System + Drop, T: AsStr>(
    alloc: Global,
    system: S,
    arguments: &[T],
    style: Style,
) -> Result<Answer, AllocError>
    ensures { IfOk result (λ answer. IsToPrint S.gives (map T.text arguments.now) style (printed_of answer)) }
{
    match Command::of(alloc, arguments) {
        Ok(command) => answer_on_system(alloc, system, &command, style),
        Err(ArgumentFault::Help(text)) => Ok(Answer {
            out: text,
            err: String::new(alloc),
            status: 0,
        }),
        Err(ArgumentFault::Usage(text)) => Ok(Answer {
            out: String::new(alloc),
            err: text,
            status: USAGE,
        }),
        Err(ArgumentFault::NoMemory) => Err(AllocError),
    }
}

/// Answers the question of a command about the system or, with `--root`, about the part of the system below this root.
fn answer_on_system<S: System + Drop>(
    alloc: Global,
    system: S,
    command: &Command,
    style: Style,
) -> Result<Answer, AllocError>
    ensures { IfOk result (λ answer. (clock : Option ℤ) × IsTrue (S.gives (ClockShows clock))
        × IsAnswerOn S.gives command.entry.now clock style (printed_of answer)) }
{
    let clock = system.clock();
    let root = String::from_str(alloc, command.options.root.as_str())?;
    read_and_answer(alloc, system.below(root), command, clock, style)
}

/// Writes `answer` to `out` and then `lines` to `err`, and returns the exit status, which is usually `status`. If `out`
/// fails, a last line on `err` says so, and the exit status is [`FAILED`]. If `is_due` is `true` and there is any error
/// line, the exit status is [`NOT_KNOWN`] instead.
fn write_answer<O: Sink, E: Sink>(
    is_due: bool,
    answer: &str,
    lines: &str,
    status: u8,
    out: &mut O,
    err: &mut E,
) -> u8
    requires out { O.is_failed out.old ≡ false }
    requires err { E.is_failed err.old ≡ false }
    ensures { Prints is_due (record { out = answer.now; err = lines.now; status = status }) result (O.is_failed out.new) (E.is_failed err.new)
        (O.written out.old) (O.written out.new) (E.written err.old) (E.written err.new) }
{
    match put_all(out, answer.as_bytes()) {
        Ok(()) => {
            // If writing the error lines fails, only the status is left to report anything.
            let _ = put_all(err, lines.as_bytes());
            status_unless(is_due, !lines.is_empty(), status)
        }
        Err(_) => {
            let _ = put_pieces(
                err,
                &[lines.as_bytes(), b"calendar-timers: output failed\n"],
            );
            status_unless(is_due, true, FAILED)
        }
    }
}

fn status_unless(is_due: bool, is_error: bool, status: u8) -> u8
    ensures { result ≡ status_unless is_due is_error status }
{
    if is_due && is_error {
        NOT_KNOWN
    } else {
        status
    }
}
