//! Timers that are read from several texts: a unit file and its drop-ins (systemd.unit(5)).

ghost use Rattle.std.specs.Prelude.{◌≡◌, ◌≢◌, ◌+◌, ◌<◌, ◌^◌, Ok, Err, MatchResult, IfErr, All, length};
ghost use Rattle.cal_spec.specs.computed.Expr.{expr_in};
ghost use Rattle.cal_timer.specs.rules.TimerEntries.{lists_of};
ghost use Rattle.cal_read.specs.rules.TimerTexts.{assignments_of, IsFirstOf};

use cal_timer::{Timer, TimerFault, TimerLists, without_mark};
use std::alloc::Global;

/// The text of a unit file or of a drop-in.
#[derive(Clone, Copy)]
pub struct NumberedText<'t> {
    /// The number of the first line. Usually 1; a caller that needs different line numbers in different texts can
    /// continue the count from text to text.
    pub first: u32,
    /// The text, which may begin with a byte order mark.
    pub text: &'t str,
}

/// Why reading a timer from several texts failed.
#[derive(Clone, Copy, PartialEq, Eq, Debug)]
pub struct FileFault {
    /// The index of the text that contains the invalid line. It is `None` if all lines are valid, and the error is that
    /// the list of expressions is empty. If allocation fails, it is the index of the text that was being read, if any.
    pub file: Option<usize>,
    /// The error, with the number of its line if it belongs to a line.
    pub fault: TimerFault,
}

/// Reads a timer from the texts of a unit file and of its drop-ins, in this order, and returns its calendar expressions
/// and its exceptions.
///
/// The assignments of each text follow those of the texts before it, so a drop-in can clear a list that the unit file
/// filled. A section ends at the end of its text.
///
/// Fails with the error of the first invalid line, [`TimerFault::TooMany`] or [`TimerFault::BadLine`], or with
/// [`TimerFault::NothingToDo`] if all lines are valid and the list of expressions is empty after the last line. Fails
/// with [`TimerFault::NoMemory`] only if allocation fails. [`FileFault::file`] says which text an error belongs to.
pub fn read_texts(alloc: Global, files: &[NumberedText<'_>]) -> Result<Timer, FileFault>
    requires { All (λ file. file.first + length file.text.now < 2 ^ 32) files.now }
    ensures lists { MatchResult result
        (λ timer. lists_of expr_in (assignments_of files.now) ≡ Ok timer)
        (λ found. found.fault ≢ TimerFault.NoMemory → lists_of expr_in (assignments_of files.now) ≡ Err found.fault) }
    ensures file { IfErr result (λ found. found.fault ≢ TimerFault.NoMemory
        → IsFirstOf expr_in files.now found.file found.fault) }
{
    let mut lists = TimerLists::new(alloc);
    for (index, file) in files.iter().enumerate() {
        if let Err(fault) = lists.take_text(alloc, file.first, without_mark(file.text)) {
            return Err(FileFault {
                file: Some(index),
                fault,
            });
        }
    }
    match lists.into_timer() {
        Ok(timer) => Ok(timer),
        Err(fault) => Err(FileFault { file: None, fault }),
    }
}
