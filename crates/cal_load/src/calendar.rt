//! The calendar of a timer, and how it is read from the timer's assignments.

ghost use Rattle.std.specs.Prelude.{◌≡◌, ◌∷◌, ◌++◌, [], List, IfOk, OnOk, false, filter, map, true};
ghost use Rattle.cal_timer.specs.rules.Assignments as assignments;
ghost use Rattle.cal_timer.specs.rules.TimerView.{shown, shown_assignment};
ghost use Rattle.cal_read.specs.rules.SectionAssignments.{shown_owned_assignment};
ghost use Rattle.cal_load.specs.rules.CalendarZones.{exceptions_in, expressions_in};
ghost use Rattle.cal_load.specs.rules.Loaded.{AreReadFrom, entries_after, ignored_more};
ghost use Rattle.cal_load.specs.rules.UnusableZones.{has_zone};

use crate::zones::retain_zoned;
use cal_read::{Assignment, OwnedAssignment};
use cal_spec::{SpecFault, read_expr};
use cal_timer::TimerLine;
use cal_zone::ZoneTable;
use std::alloc::{AllocError, Global};

/// The calendar expressions of a timer, and its exceptions.
#[derive(Drop)]
pub struct Calendar {
    lines: Vec<TimerLine>,
    exceptions: Vec<TimerLine>,
}

/// A line that is ignored because its expression or exception is invalid.
#[derive(Clone, Copy)]
pub struct IgnoredLine {
    /// The number of the line. Line numbers continue from file to file.
    pub number: u32,
    /// Why the expression or exception is invalid.
    pub fault: SpecFault,
}

/// The calendar of a timer, and the lines that were ignored in reading it.
#[derive(Drop)]
pub(crate) struct CalendarLines {
    pub(crate) calendar: Calendar,
    pub(crate) ignored: Vec<IgnoredLine>,
}

impl Calendar {
    /// Creates a calendar with these expressions and no exceptions.
    pub(crate) fn of_expressions(alloc: Global, lines: Vec<TimerLine>) -> Calendar
        ensures expressions { expressions_in result ≡ map shown lines.items }
        ensures exceptions { exceptions_in result ≡ [] }
    {
        Calendar {
            lines,
            exceptions: Vec::new(alloc),
        }
    }

    /// Returns the expressions in order, each with its text and the number of its line.
    pub(crate) fn lines(&self) -> &[TimerLine]
        ensures { map shown result.now ≡ expressions_in self.now }
    {
        self.lines.as_slice()
    }

    /// Returns the exceptions. A timer that [`crate::load_expressions`] returns has none.
    pub(crate) fn exceptions(&self) -> &[TimerLine]
        ensures { map shown result.now ≡ exceptions_in self.now }
    {
        self.exceptions.as_slice()
    }

    /// Removes the expressions and exceptions that name a zone which isn't in the table.
    pub(crate) fn retain_zoned(&mut self, zones: &ZoneTable)
        ensures expressions { expressions_in self.new ≡ filter (has_zone zones.now) (expressions_in self.old) }
        ensures exceptions { exceptions_in self.new ≡ filter (has_zone zones.now) (exceptions_in self.old) }
    {
        retain_zoned(&mut self.lines, zones);
        retain_zoned(&mut self.exceptions, zones);
    }
}

/// Reads the expressions and exceptions among these assignments. A line with an invalid expression is ignored, as in
/// systemd. A line with an invalid exception is ignored, too; systemd itself reads no exceptions. Fails only if
/// allocation fails.
pub(crate) fn read_calendar(
    alloc: Global,
    assignments: &[OwnedAssignment],
) -> Result<CalendarLines, AllocError>
    ensures { IfOk result (AreReadFrom (map shown_owned_assignment assignments.now)) }
{
    let mut read = CalendarLines {
        calendar: Calendar::of_expressions(alloc, Vec::new(alloc)),
        ignored: Vec::new(alloc),
    };
    for assignment in assignments {
        read_assignment(alloc, &mut read, assignment)?;
    }
    Ok(read)
}

/// Applies one more assignment. An expression or an exception is added to its list, or recorded as ignored if it is
/// invalid. An assignment that resets one of the lists clears it. Any other assignment has no effect.
fn read_assignment(
    alloc: Global,
    read: &mut CalendarLines,
    assignment: &OwnedAssignment,
) -> Result<(), AllocError>
    ensures { OnOk result ((before : List assignments.Assignment) → AreReadFrom before read.old
        → AreReadFrom (before ++ shown_owned_assignment assignment.now ∷ []) read.new) }
{
    let assignment = borrowed(assignment);
    change(
        alloc,
        &mut read.calendar.lines,
        &mut read.ignored,
        assignment,
        assignment.is_expression(),
        assignment.is_reset(),
    )?;
    change(
        alloc,
        &mut read.calendar.exceptions,
        &mut read.ignored,
        assignment,
        assignment.is_exception(),
        assignment.is_exception_reset(),
    )?;
    Ok(())
}

/// Returns the assignment with its key and value borrowed.
pub(crate) fn borrowed(owned: &OwnedAssignment) -> Assignment<'_>
    ensures { shown_assignment result ≡ shown_owned_assignment owned.now }
{
    Assignment {
        number: owned.number,
        key: owned.key.as_str(),
        value: owned.value.as_str(),
    }
}

/// If `adds` is `true`, adds the assignment's expression to `list`, or its line to `ignored` if the expression is
/// invalid. Otherwise, if `empties` is `true`, clears `list`.
fn change(
    alloc: Global,
    list: &mut Vec<TimerLine>,
    ignored: &mut Vec<IgnoredLine>,
    assignment: Assignment<'_>,
    adds: bool,
    empties: bool,
) -> Result<(), AllocError>
    ensures list { OnOk result (map shown list.new.items
        ≡ entries_after adds empties (map shown list.old.items) (shown_assignment assignment.entry)) }
    ensures ignored { OnOk result (ignored.new.items
        ≡ ignored.old.items ++ ignored_more adds (shown_assignment assignment.entry)) }
{
    if adds {
        return add_line(alloc, list, ignored, assignment);
    }
    if empties {
        list.clear();
    }
    Ok(())
}

/// Adds the expression of the assignment to the list, or to the ignored lines if it is invalid.
fn add_line(
    alloc: Global,
    list: &mut Vec<TimerLine>,
    ignored: &mut Vec<IgnoredLine>,
    assignment: Assignment<'_>,
) -> Result<(), AllocError>
    ensures list { OnOk result (map shown list.new.items
        ≡ entries_after true false (map shown list.old.items) (shown_assignment assignment.entry)) }
    ensures ignored { OnOk result (ignored.new.items
        ≡ ignored.old.items ++ ignored_more true (shown_assignment assignment.entry)) }
{
    let number = assignment.number;
    match read_expr(alloc, assignment.value) {
        Ok(expr) => {
            let text = String::from_str(alloc, assignment.value)?;
            list.push(TimerLine { number, text, expr })?;
        }
        Err(SpecFault::NoMemory) => return Err(AllocError),
        Err(fault) => ignored.push(IgnoredLine { number, fault })?,
    }
    Ok(())
}
