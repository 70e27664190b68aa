//! From a question to the answer, on one machine.

ghost use Rattle.std.specs.Prelude.{◌≤◌, IfOk};
ghost use Rattle.cal_answers.specs.rules.Output.{IsAnswerOn};
ghost use Rattle.cal_answers.specs.rules.Printed.{printed_of};

use crate::answer::{Answer, answer_question};
use crate::reading::read_question;
use cal_machine::System;
use cal_timers_command::Command;
use cal_timers_report::Style;
use std::alloc::{AllocError, Global};

/// Reads everything that the answer to a command's question depends on, and returns the answer. Asks `system` each
/// question about the machine at most once.
///
/// `clock` is the time that the machine's clock shows, in seconds of Unix time, or `None` if the clock can't be read.
/// If the command has `--now`, `clock` isn't used. Fails only if allocation fails.
pub(crate) fn read_and_answer<S: System + Drop>(
    alloc: Global,
    system: S,
    command: &Command,
    clock: Option<i64>,
    style: Style,
) -> Result<Answer, AllocError>
    ensures status { IfOk result (λ answer. answer.status ≤ 2) }
    ensures answer { IfOk result (λ answer. IsAnswerOn S.gives command.entry.now clock style (printed_of answer)) }
{
    let found = read_question(alloc, system, command, clock)?;
    answer_question(alloc, &command.options, &found, style)
}
