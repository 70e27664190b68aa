//! All errors in the texts of a timer (systemd.timer(5), OnCalendar=), not only the first.

ghost use Rattle.std.specs.Prelude.{◌≡◌, ◌+◌, ◌<◌, ◌≤◌, ◌^◌, ◌++◌, [], IfOk, OnOk, All, length, map};
ghost use Rattle.std.specs.Option.{option_to_list};
ghost use Rattle.cal_spec.specs.computed.Expr.{expr_in};
ghost use Rattle.cal_timer.specs.rules.TimerView.{shown_assignment};
ghost use Rattle.cal_read.specs.computed.CountedFaults.{count_with, counted_faults, counts_over, counts_with, fault_at, fault_beside};
ghost use Rattle.cal_read.specs.rules.TimerFaults.{faults_of, in_file};
ghost use Rattle.cal_timer.specs.rules.TimerText.{max_expressions};
ghost use Rattle.cal_read.specs.rules.TimerTexts.{assignments_at};

use crate::{Assignments, FileFault, NumberedText};
use cal_spec::{SpecFault, read_expr};
use cal_timer::{Assignment, MAX_EXPRESSIONS, TimerFault, without_mark};
use std::alloc::{AllocError, Global};

/// The lengths of the lists of expressions and exceptions, each capped at [`MAX_EXPRESSIONS`]. Invalid expressions and
/// exceptions count as well.
#[derive(Clone, Copy)]
struct Counts {
    expressions: usize,
    exceptions: usize,
}

impl Counts {
    /// Returns the lengths of both lists after `assignment`. `self` has their lengths before it.
    fn with(self, assignment: Assignment<'_>) -> Counts
        ensures { result ≡ counts_with self (shown_assignment assignment.entry) }
    {
        Counts {
            expressions: count_with(
                self.expressions,
                assignment.is_expression(),
                assignment.is_reset(),
            ),
            exceptions: count_with(
                self.exceptions,
                assignment.is_exception(),
                assignment.is_exception_reset(),
            ),
        }
    }
}

/// Returns the length of a list after an assignment. `count` is the length before it. If `adds` is `true`, the list
/// grows by one, up to [`MAX_EXPRESSIONS`]. Otherwise, if `empties` is `true`, the new length is 0.
fn count_with(count: usize, adds: bool, empties: bool) -> usize
    ensures { result ≡ count_with count adds empties }
{
    if adds {
        if count < MAX_EXPRESSIONS {
            count + 1
        } else {
            MAX_EXPRESSIONS
        }
    } else if empties {
        0
    } else {
        count
    }
}

/// Returns the error of an assignment, or `None` if it has no error. `counts` are the lengths of the lists before the
/// assignment.
fn fault_at(
    alloc: Global,
    counts: Counts,
    assignment: Assignment<'_>,
) -> Result<Option<TimerFault>, AllocError>
    ensures { IfOk result (λ found. found ≡ fault_at expr_in counts (shown_assignment assignment.entry)) }
{
    if assignment.is_expression() {
        return fault_beside(alloc, counts.expressions, assignment);
    }
    if assignment.is_exception() {
        return fault_beside(alloc, counts.exceptions, assignment);
    }
    Ok(None)
}

/// Returns the error of an assignment that adds to a list of length `count`, or `None` if the assignment has no error.
fn fault_beside(
    alloc: Global,
    count: usize,
    assignment: Assignment<'_>,
) -> Result<Option<TimerFault>, AllocError>
    ensures { IfOk result (λ found. found ≡ fault_beside expr_in count (shown_assignment assignment.entry)) }
{
    if count >= MAX_EXPRESSIONS {
        return Ok(Some(TimerFault::TooMany(assignment.number)));
    }
    match read_expr(alloc, assignment.value) {
        Ok(_) => Ok(None),
        Err(SpecFault::NoMemory) => Err(AllocError),
        Err(fault) => Ok(Some(TimerFault::BadLine(assignment.number, fault))),
    }
}

/// Appends the error `fault`, if there is one, to the list `found`. `index` is the index of the text that has the
/// error, and is stored with it.
fn push_fault(
    found: &mut Vec<FileFault>,
    index: usize,
    fault: Option<TimerFault>,
) -> Result<(), AllocError>
    ensures { OnOk result (found.new.items ≡ found.old.items ++ map (in_file index) (option_to_list fault)) }
{
    if let Some(fault) = fault {
        found.push(FileFault {
            file: Some(index),
            fault,
        })?;
    }
    Ok(())
}

/// Appends the errors of the text with the index `index` to `found`, and returns the lengths that the lists of
/// expressions and exceptions have after this text. `counts` are the lengths before the text.
fn take_faults(
    alloc: Global,
    found: &mut Vec<FileFault>,
    counts: Counts,
    index: usize,
    file: &NumberedText<'_>,
) -> Result<Counts, AllocError>
    requires { file.now.first + length file.now.text.now < 2 ^ 32 }
    ensures faults { OnOk result (found.new.items
        ≡ found.old.items ++ map (in_file index) (counted_faults expr_in counts (assignments_at file.now))) }
    ensures counts { IfOk result (λ after. after ≡ counts_over counts (assignments_at file.now)) }
{
    let mut counts = counts;
    let mut assignments = Assignments::new("Timer", file.first, without_mark(file.text));
    while let Some(owned) = assignments.next(alloc)? {
        let assignment = owned.as_assignment();
        let fault = fault_at(alloc, counts, assignment)?;
        push_fault(found, index, fault)?;
        counts = counts.with(assignment);
    }
    Ok(counts)
}

/// Returns all errors in the texts of a unit file and of its drop-ins, in the order of their lines.
///
/// An expression or an exception has an error if it is invalid, or if its list already has 256 elements. Invalid
/// expressions and exceptions, too, count as elements until the list is cleared. [`TimerFault::NothingToDo`] is not
/// among these errors. If this function returns any errors, [`crate::read_texts`] fails with the first one, unless
/// allocation fails. `find_faults` itself fails only if allocation fails.
pub fn find_faults(alloc: Global, files: &[NumberedText<'_>]) -> Result<Vec<FileFault>, AllocError>
    requires { All (λ file. file.first + length file.text.now < 2 ^ 32) files.now }
    ensures { IfOk result (λ found. found.items ≡ faults_of expr_in [] 0 files.now) }
{
    let mut found = Vec::new(alloc);
    let mut counts = Counts {
        expressions: 0,
        exceptions: 0,
    };
    for (index, file) in files.iter().enumerate() {
        counts = take_faults(alloc, &mut found, counts, index, file)?;
    }
    Ok(found)
}
