//! The lists of expressions (systemd.timer(5), OnCalendar=) and of exceptions, which are built line by line.

ghost use Rattle.std.specs.Prelude.{◌≡◌, ◌≢◌, ◌+◌, ◌<◌, ◌^◌, ◌∷◌, List, Some, Ok, Err, IfErr, MatchResult, false, length, map};
ghost use Rattle.cal_spec.specs.computed.Expr.{expr_in};
ghost use Rattle.cal_timer.specs.rules.Assignments as assignments;
ghost use Rattle.cal_timer.specs.rules.Assignments.{assignments_in};
ghost use Rattle.cal_timer.specs.rules.LineView.{line_at};
ghost use Rattle.cal_timer.specs.rules.TimerView.{shown_assignment, shown};
ghost use Rattle.cal_timer.specs.computed.ResumedLists.{changed, empty_lists, with_assignment, resumed};
ghost use Rattle.cal_timer.specs.rules.Lines.{Line, logical_lines};
ghost use Rattle.cal_timer.specs.rules.TimerEntries.{bad_line, entry_of, some_entries};

use crate::assignments::{Assignment, read_assignment, section};
use crate::lines::{first_logical, trim};
use crate::{Timer, TimerFault, TimerLine};
use cal_spec::{SpecFault, read_expr};
use std::alloc::Global;
use std::marker::Model;

/// The maximum length of the list of expressions, and of the list of exceptions.
pub const MAX_EXPRESSIONS: usize = 256;

/// The name of the section whose assignments are read.
const TIMER_SECTION: &[u8] = b"Timer";

/// The two lists of a timer while its texts are being read: the expressions and the exceptions so far. Contracts see
/// the contents of both lists.
#[derive(Drop)]
pub struct TimerLists {
    expressions: Vec<TimerLine>,
    exceptions: Vec<TimerLine>,
}

impl Model for TimerLists {
    ghost use Rattle.std.specs.Prelude.{map};
    ghost use Rattle.cal_spec.specs.rules.Fields.{Fields};
    ghost use Rattle.cal_timer.specs.rules.TimerEntries.{Timer};
    ghost use Rattle.cal_timer.specs.rules.TimerView.{shown};

    ghost Value = { Timer Fields };

    ghost view = { λ lists. record { expressions = map shown lists.expressions.items; exceptions = map shown lists.exceptions.items } };
}

impl TimerLists {
    /// Creates two empty lists.
    pub fn new(alloc: Global) -> TimerLists
        ensures { result ≡ empty_lists }
    {
        TimerLists {
            expressions: Vec::new(alloc),
            exceptions: Vec::new(alloc),
        }
    }

    /// Applies the assignments in the section `Timer` of a text to the lists, in order. The first line of the text has
    /// the number `first`. Lines before the first section header belong to no section. A byte order mark is not
    /// removed.
    ///
    /// Stops at the first error and returns it: [`TimerFault::TooMany`] if an assignment adds to a list that already
    /// has 256 entries, or else [`TimerFault::BadLine`] if its expression or exception is invalid. Fails with
    /// [`TimerFault::NoMemory`] if allocation fails. An empty list of expressions is not an error here.
    pub fn take_text(&mut self, alloc: Global, first: u32, text: &str) -> Result<(), TimerFault>
        requires { first + length text.now < 2 ^ 32 }
        ensures { MatchResult result
            (λ _. resumed expr_in self.old (assignments_in false (logical_lines first text.now)) ≡ Ok self.new)
            (λ fault. fault ≢ TimerFault.NoMemory
            → resumed expr_in self.old (assignments_in false (logical_lines first text.now)) ≡ Err fault) }
    {
        let mut inside = false;
        let mut number = first;
        let mut rest = text;
        while let Some(line) = first_logical(alloc, number, rest)? {
            inside = self.take_line(alloc, inside, line.number, line.text.as_str())?;
            number = line.next;
            rest = line.rest;
        }
        Ok(())
    }

    /// Applies a logical line to the lists. `inside` says whether the section `Timer` is open before the line. Returns
    /// whether this section is open after the line.
    fn take_line(
        &mut self,
        alloc: Global,
        inside: bool,
        number: u32,
        line: &str,
    ) -> Result<bool, TimerFault>
        ensures { MatchResult result
            (λ goes_on. (after : List Line)
            → resumed expr_in self.old (assignments_in inside (line_at number line.now ∷ after))
            ≡ resumed expr_in self.new (assignments_in goes_on after))
            (λ fault. fault ≢ TimerFault.NoMemory → (after : List Line)
            → resumed expr_in self.old (assignments_in inside (line_at number line.now ∷ after)) ≡ Err fault) }
    {
        let line = trim(line);
        if let Some(name) = section(line) {
            return Ok(name == TIMER_SECTION);
        }
        if !inside {
            return Ok(false);
        }
        let Some(assignment) = read_assignment(number, line) else {
            return Ok(true);
        };
        self.assign(alloc, assignment)?;
        Ok(true)
    }

    /// Applies an assignment to the lists: it can add to one of the lists, clear one of them, or leave both unchanged.
    fn assign(&mut self, alloc: Global, assignment: Assignment<'_>) -> Result<(), TimerFault>
        ensures { MatchResult result
            (λ _. (after : List assignments.Assignment)
            → resumed expr_in self.old (shown_assignment assignment.entry ∷ after) ≡ resumed expr_in self.new after)
            (λ fault. fault ≢ TimerFault.NoMemory → (after : List assignments.Assignment)
            → resumed expr_in self.old (shown_assignment assignment.entry ∷ after) ≡ Err fault) }
    {
        change(
            alloc,
            &mut self.expressions,
            assignment,
            assignment.is_expression(),
            assignment.is_reset(),
        )?;
        change(
            alloc,
            &mut self.exceptions,
            assignment,
            assignment.is_exception(),
            assignment.is_exception_reset(),
        )
    }

    /// Returns the timer with these lists. Fails with [`TimerFault::NothingToDo`] if the list of expressions is empty.
    pub fn into_timer(self) -> Result<Timer, TimerFault>
        ensures lists { MatchResult result
            (λ timer. some_entries self ≡ Ok timer)
            (λ fault. some_entries self ≡ Err fault) }
        ensures nothing { IfErr result (λ fault. fault ≡ TimerFault.NothingToDo) }
    {
        if self.expressions.is_empty() {
            return Err(TimerFault::NothingToDo);
        }
        Ok(Timer::new(self.expressions, self.exceptions))
    }
}

/// Adds the expression of the assignment to the list if `adds` is `true`; otherwise clears the list if `empties` is
/// `true`.
fn change(
    alloc: Global,
    list: &mut Vec<TimerLine>,
    assignment: Assignment<'_>,
    adds: bool,
    empties: bool,
) -> Result<(), TimerFault>
    ensures { MatchResult result
        (λ _. changed expr_in adds empties (map shown list.old.items) (shown_assignment assignment.entry) ≡ Ok (map shown list.new.items))
        (λ fault. fault ≢ TimerFault.NoMemory
        → changed expr_in adds empties (map shown list.old.items) (shown_assignment assignment.entry) ≡ Err fault) }
{
    if adds {
        return add_line(alloc, list, assignment);
    }
    if empties {
        list.clear();
    }
    Ok(())
}

/// Adds the expression of an assignment to a list. If the list is full, fails with `TooMany` without parsing the
/// expression.
#[tactic(auto, unfolding(crate::specs::computed::ResumedLists::with_assignment))]
fn add_line(
    alloc: Global,
    list: &mut Vec<TimerLine>,
    assignment: Assignment<'_>,
) -> Result<(), TimerFault>
    ensures { MatchResult result
        (λ _. with_assignment expr_in (map shown list.old.items) (shown_assignment assignment.entry) ≡ Ok (map shown list.new.items))
        (λ fault. fault ≢ TimerFault.NoMemory
        → with_assignment expr_in (map shown list.old.items) (shown_assignment assignment.entry) ≡ Err fault) }
{
    if list.len() >= MAX_EXPRESSIONS {
        return Err(TimerFault::TooMany(assignment.number));
    }
    let line = read_line(alloc, assignment)?;
    list.push(line)?;
    Ok(())
}

/// Parses the expression of an assignment. Fails with `BadLine` if the expression is invalid, and with `NoMemory` if
/// allocation fails.
fn read_line(alloc: Global, assignment: Assignment<'_>) -> Result<TimerLine, TimerFault>
    ensures { MatchResult result
        (λ line. entry_of (shown_assignment assignment.entry) (expr_in assignment.entry.value.now) ≡ Some (shown line))
        (λ fault. fault ≢ TimerFault.NoMemory
        → bad_line assignment.entry.number (expr_in assignment.entry.value.now) ≡ Some fault) }
{
    match read_expr(alloc, assignment.value) {
        Ok(expr) => Ok(TimerLine {
            number: assignment.number,
            text: String::from_str(alloc, assignment.value)?,
            expr,
        }),
        Err(SpecFault::NoMemory) => Err(TimerFault::NoMemory),
        Err(fault) => Err(TimerFault::BadLine(assignment.number, fault)),
    }
}
