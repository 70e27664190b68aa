//! The assignments in all sections of a unit file that have a given name, such as `Timer`, in order
//! (systemd.syntax(7)).

ghost use Rattle.std.specs.Prelude.{◌≡◌, ◌+◌, ◌<◌, ◌^◌, ◌∷◌, ◌++◌, [], false, length, map, IfOk, MatchOption, OnErr, List};
ghost use Rattle.std.specs.Option.{option_map, option_to_list};
ghost use Rattle.cal_timer.specs.rules.LineView.{line_at};
ghost use Rattle.cal_timer.specs.rules.Lines.{Line, logical_lines};
ghost use Rattle.cal_timer.specs.rules.TimerView.{shown_assignment};
ghost use Rattle.cal_read.specs.rules.SectionAssignments.{section_assignments, shown_owned_assignment};

use cal_timer::{Assignment, first_logical, read_assignment, section, trim};
use std::alloc::{AllocError, Global};
use std::marker::Model;

/// An assignment that owns its key and value, both without leading and trailing blanks and carriage returns.
#[derive(Debug, Drop)]
pub struct OwnedAssignment {
    /// The number of the assignment's line. A continued line has the number of its first physical line.
    pub number: u32,
    pub key: String,
    pub value: String,
}

impl OwnedAssignment {
    /// Returns this assignment as an [`Assignment`], which borrows the key and the value.
    pub(crate) fn as_assignment(&self) -> Assignment<'_>
        ensures { shown_assignment result ≡ shown_owned_assignment self.now }
    {
        Assignment {
            number: self.number,
            key: self.key.as_str(),
            value: self.value.as_str(),
        }
    }
}

/// The assignments in all sections with a given name, which [`Assignments::next`] returns one after another. Contracts
/// see the list of the assignments that remain.
#[derive(Debug, Drop)]
pub struct Assignments<'t> {
    section: &'t str,
    /// Whether a section called `section` is open before the next line.
    inside: bool,
    /// The number of the next line.
    number: u32,
    rest: &'t str,
}

impl<'t> Model for Assignments<'t> {
    ghost use Rattle.std.specs.Prelude.{◌+◌, ◌<◌, ◌^◌, List, length};
    ghost use Rattle.cal_timer.specs.rules.Lines.{logical_lines};
    ghost use Rattle.cal_timer.specs.rules.Assignments.{Assignment};
    ghost use Rattle.cal_read.specs.rules.SectionAssignments.{section_assignments};

    ghost Value = { List Assignment };

    ghost view = { λ s. section_assignments s.section.now s.inside (logical_lines s.number s.rest.now) };

    ghost invariant = { λ s. s.number + length s.rest.now < 2 ^ 32 };
}

impl<'t> Assignments<'t> {
    /// Creates the `Assignments` of all sections with this name in `text`. The first line of the text has the number
    /// `first`. Lines before the first section header belong to no section. A byte order mark is not removed.
    pub fn new(section: &'t str, first: u32, text: &'t str) -> Assignments<'t>
        requires { first + length text.now < 2 ^ 32 }
        ensures { result ≡ section_assignments section.now false (logical_lines first text.now) }
    {
        Assignments {
            section,
            inside: false,
            number: first,
            rest: text,
        }
    }

    /// Returns the next assignment, or `None` if there are no more. Fails only if allocation fails; a later call then
    /// returns the same assignment.
    pub fn next(&mut self, alloc: Global) -> Result<Option<OwnedAssignment>, AllocError>
        ensures next { IfOk result (λ found. MatchOption found (self.old ≡ [])
            (λ owned. self.old ≡ shown_owned_assignment owned ∷ self.new)) }
        ensures kept { OnErr result (self.new ≡ self.old) }
    {
        let mut inside = self.inside;
        let mut number = self.number;
        let mut rest = self.rest;
        while let Some(line) = first_logical(alloc, number, rest)? {
            let (goes_on, assignment) = read_section_line(
                self.section,
                inside,
                line.number,
                line.text.as_str(),
            );
            inside = goes_on;
            number = line.next;
            rest = line.rest;
            if let Some(assignment) = assignment {
                let owned = to_owned_assignment(alloc, assignment)?;
                *self = Assignments {
                    section: self.section,
                    inside,
                    number,
                    rest,
                };
                return Ok(Some(owned));
            }
        }
        Ok(None)
    }
}

/// Returns whether the section called `name` is open after `line`, and the assignment in `line` if `line` is an
/// assignment of this section. `inside` says whether the section is open before `line`.
fn read_section_line<'l>(
    name: &str,
    inside: bool,
    number: u32,
    line: &'l str,
) -> (bool, Option<Assignment<'l>>)
    ensures { (after : List Line) → section_assignments name.now inside (line_at number line.now ∷ after)
        ≡ option_to_list (option_map shown_assignment result.1) ++ section_assignments name.now result.0 after }
{
    let line = trim(line);
    if let Some(opened) = section(line) {
        return (opened == name.as_bytes(), None);
    }
    if !inside {
        return (false, None);
    }
    (true, read_assignment(number, line))
}

/// Copies an assignment into an [`OwnedAssignment`], which owns its key and value.
fn to_owned_assignment(
    alloc: Global,
    assignment: Assignment<'_>,
) -> Result<OwnedAssignment, AllocError>
    ensures { IfOk result (λ owned. shown_owned_assignment owned ≡ shown_assignment assignment.entry) }
{
    Ok(OwnedAssignment {
        number: assignment.number,
        key: String::from_str(alloc, assignment.key)?,
        value: String::from_str(alloc, assignment.value)?,
    })
}
