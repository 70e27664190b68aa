//! Reading timer files (systemd.timer(5), OnCalendar=; systemd.syntax(7)).

ghost use Rattle.std.specs.Prelude.{◌≡◌, ◌≢◌, ◌+◌, ◌≤◌, ◌↔◌, ◌==◌, ℕ, List, Ok, Err, Result, MatchResult, IsTrue, false, length, count_by};
ghost use Rattle.std.specs.Result.{IsErrOf};
ghost use Rattle.cal_bytes.specs.rules.Whole.{is_read_failed};
ghost use Rattle.cal_bytes.specs.declared.whole.WholeFault.{WholeFault};
ghost use Rattle.cal_spec.specs.computed.Expr.{expr_in};
ghost use Rattle.cal_timer.specs.rules.TimerEntries.{timer_file_limit, timer_in, timer_of, timer_text, ReadsWhole};
ghost use Rattle.cal_timer.specs.rules.TimerText.{without_mark};

use crate::{Timer, TimerFault, TimerLists};
use cal_bytes::{Source, WholeFault, read_whole};
use std::alloc::Global;

/// Reads a timer file to its end, and returns its list of calendar expressions (systemd.timer(5), OnCalendar=) and its
/// list of exceptions (`X-ExceptOnCalendar=`).
///
/// The errors are, in the order in which they are checked:
///
/// - [`TimerFault::ReadFailed`] if and only if a read fails, or [`TimerFault::TooLarge`] if the input has more than
///   1,048,576 bytes;
/// - [`TimerFault::NotUtf8`] if the bytes are not valid UTF-8;
/// - for each logical line in order, [`TimerFault::TooMany`] if it adds to a list that already has 256 entries, or else
///   [`TimerFault::BadLine`] if its expression or exception is invalid;
/// - [`TimerFault::NothingToDo`] if the list of expressions is empty after the last line.
///
/// Fails with [`TimerFault::NoMemory`] only if allocation fails.
pub fn read_timer<R: Source>(alloc: Global, input: &mut R) -> Result<Timer, TimerFault>
    requires { R.is_failed input.old ≡ false }
    ensures failed { IsTrue (R.is_failed input.new) ↔ IsErrOf result TimerFault.ReadFailed }
    ensures sure { R.may_fail input.old ≡ false → R.is_failed input.new ≡ false }
    ensures list { (read : Result (List ℕ) WholeFault)
        × ReadsWhole (R.remaining input.old) (R.remaining input.new) timer_file_limit read
        × (R.is_failed input.new ≡ is_read_failed read)
        × MatchResult result
        (λ timer. timer_text expr_in read ≡ Ok timer)
        (λ fault. fault ≢ TimerFault.NoMemory → timer_text expr_in read ≡ Err fault) }
{
    let bytes = match read_whole(alloc, input, Timer::FILE_LIMIT) {
        Ok(bytes) => bytes,
        Err(WholeFault::ReadFailed) => return Err(TimerFault::ReadFailed),
        Err(WholeFault::TooLarge) => return Err(TimerFault::TooLarge),
        Err(WholeFault::NoMemory) => return Err(TimerFault::NoMemory),
    };
    read_bytes(alloc, bytes.as_slice())
}

/// Parses a timer file from its bytes.
#[tactic(auto, unfolding(crate::specs::rules::TimerEntries::timer_in, crate::specs::rules::TimerEntries::broken_line))]
fn read_bytes(alloc: Global, bytes: &[u8]) -> Result<Timer, TimerFault>
    requires { length bytes.now ≤ timer_file_limit }
    ensures { MatchResult result
        (λ timer. timer_in expr_in bytes.now ≡ Ok timer)
        (λ fault. fault ≢ TimerFault.NoMemory → timer_in expr_in bytes.now ≡ Err fault) }
{
    match str::from_utf8(bytes) {
        Ok(text) => read_utf8(alloc, text),
        Err(error) => Err(TimerFault::NotUtf8(line_after(&bytes[..error.valid_up_to()]))),
    }
}

/// Returns the number of the physical line that contains the first byte after `bytes`, the beginning of a file.
fn line_after(bytes: &[u8]) -> u32
    requires { length bytes.now ≤ timer_file_limit }
    ensures { result ≡ count_by (λ b. b == 10) bytes.now + 1 }
{
    bytes.iter().filter(|byte| **byte == b'\n').count() as u32 + 1
}

/// Parses a timer file from its text.
#[tactic(auto, using(crate::proofs::ListedLemmas::lists_from_entries, crate::proofs::ListedLemmas::lists_from_fault), unfolding(crate::specs::rules::TimerEntries::timer_of))]
fn read_utf8(alloc: Global, text: &str) -> Result<Timer, TimerFault>
    requires { length text.now ≤ timer_file_limit }
    ensures { MatchResult result
        (λ timer. timer_of expr_in text.now ≡ Ok timer)
        (λ fault. fault ≢ TimerFault.NoMemory → timer_of expr_in text.now ≡ Err fault) }
{
    let mut lists = TimerLists::new(alloc);
    lists.take_text(alloc, 1, without_mark(text))?;
    lists.into_timer()
}

/// Removes a byte order mark from the start of the text, if there is one.
#[tactic(auto, unfolding(crate::specs::rules::TimerText::without_mark))]
pub fn without_mark(text: &str) -> &str
    ensures mark { result.now ≡ without_mark text.now }
    ensures shorter { length result.now ≤ length text.now }
{
    text.strip_prefix("\u{FEFF}").unwrap_or(text)
}
