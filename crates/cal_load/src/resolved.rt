//! The assignments of a timer with their specifiers filled in (systemd.unit(5), Specifiers).

ghost use Rattle.std.specs.Prelude.{◌≡◌, ◌∷◌, ◌++◌, ◌||◌, [], IfOk, OnOk, map, string_bytes};
ghost use Rattle.std.specs.Option.{option_to_list};
ghost use Rattle.cal_read.specs.rules.SectionAssignments.{shown_owned_assignment};
ghost use Rattle.cal_timer.specs.rules.Keys.{kind_of};
ghost use Rattle.cal_timer.specs.rules.TimerText.{is_exception, is_expression};
ghost use Rattle.cal_load.specs.rules.Resolved.{after_reset, is_usable, may_have_specifiers, resolved, resolved_by, resolved_in, takes_specifiers, unclear_in, unclear_of, unclear_with, unusable, value_filled};
ghost use Rattle.cal_load.specs.rules.Specifiers.{shown_filled};
ghost use Rattle.cal_load.specs.rules.Specifiers.Filling.{Text, Unclear};

use crate::calendar::borrowed;
use crate::notes::is_started;
use crate::specifiers::{Filled, fill, fill_unit};
use cal_read::OwnedAssignment;
use cal_timer::{KeyKind, kind_of};
use cal_unit_index::{has_percent, last_part};
use std::alloc::{AllocError, Global};

/// The assignments of a timer with their specifiers filled in.
#[derive(Drop)]
pub(crate) struct Resolved {
    pub(crate) assignments: Vec<OwnedAssignment>,
    /// The expressions that depend on more than the timer's name, and that aren't cleared later. They aren't in
    /// `assignments`.
    pub(crate) unclear: Vec<OwnedAssignment>,
}

/// Fills in the specifiers in the assignments of the timer with this name. `name` is the name of a unit, or the path of
/// a file that is read by itself: then the timer's own name is the part after the last slash.
///
/// Assignments without specifiers are kept as they are, and so are those whose key doesn't take specifiers. What becomes
/// of any other assignment depends on its specifiers:
///
/// - If they stand for the timer's name or parts of it, they are filled in.
/// - If they depend on anything else, an expression is moved to `unclear`. Any other assignment is kept as it is.
/// - If they are invalid, or if the filled-in value is empty or still has a `%`, an expression or exception is kept as
///   it is, and is then invalid because of its `%`. Any other assignment is dropped. In `Unit=`, a specifier that
///   systemd doesn't know there is invalid.
pub(crate) fn resolve(
    alloc: Global,
    name: &str,
    assignments: Vec<OwnedAssignment>,
) -> Result<Resolved, AllocError>
    ensures assignments { IfOk result (λ resolved. map shown_owned_assignment resolved.assignments.items
        ≡ resolved_in name.now (map shown_owned_assignment assignments.items)) }
    ensures unclear { IfOk result (λ resolved. map shown_owned_assignment resolved.unclear.items
        ≡ unclear_in name.now (map shown_owned_assignment assignments.items)) }
{
    let own = last_part(alloc, name)?;
    let mut resolved = Resolved {
        assignments: Vec::new(alloc),
        unclear: Vec::new(alloc),
    };
    for assignment in assignments {
        resolved.add(alloc, own, assignment)?;
    }
    Ok(resolved)
}

impl Resolved {
    /// Fills in the specifiers in one more assignment of the timer with the name `own`, and adds or drops the
    /// assignment.
    #[tactic(auto, unfolding(crate::specs::rules::Resolved::resolved))]
    fn add(
        &mut self,
        alloc: Global,
        own: &str,
        assignment: OwnedAssignment,
    ) -> Result<(), AllocError>
        ensures assignments { OnOk result (map shown_owned_assignment self.new.assignments.items
            ≡ map shown_owned_assignment self.old.assignments.items ++ option_to_list (resolved own.now (shown_owned_assignment assignment))) }
        ensures unclear { OnOk result (map shown_owned_assignment self.new.unclear.items
            ≡ unclear_with own.now (map shown_owned_assignment self.old.unclear.items) (shown_owned_assignment assignment)) }
    {
        if !may_have_specifiers(&assignment) {
            return self.add_plain(assignment);
        }
        match fill_value(alloc, own, &assignment)? {
            Filled::Text(text) => push_filled(&mut self.assignments, assignment, text),
            Filled::Unclear => self.add_unclear(assignment),
            Filled::Invalid => push_unusable(&mut self.assignments, assignment),
        }
    }

    /// Adds an assignment without specifiers. If it clears the timer's list of expressions, `unclear` is cleared, too.
    fn add_plain(&mut self, assignment: OwnedAssignment) -> Result<(), AllocError>
        ensures assignments { OnOk result (map shown_owned_assignment self.new.assignments.items
            ≡ map shown_owned_assignment self.old.assignments.items ++ shown_owned_assignment assignment ∷ []) }
        ensures unclear { OnOk result (map shown_owned_assignment self.new.unclear.items
            ≡ after_reset (map shown_owned_assignment self.old.unclear.items) (shown_owned_assignment assignment)) }
    {
        if borrowed(&assignment).is_reset() {
            self.unclear.clear();
        }
        self.assignments.push(assignment)?;
        Ok(())
    }

    /// Adds an assignment that depends on more than the timer's name: an expression to `unclear`, and any other
    /// assignment to `assignments`.
    fn add_unclear(&mut self, assignment: OwnedAssignment) -> Result<(), AllocError>
        ensures assignments { OnOk result (map shown_owned_assignment self.new.assignments.items
            ≡ map shown_owned_assignment self.old.assignments.items ++ option_to_list (resolved_by (shown_owned_assignment assignment) Unclear)) }
        ensures unclear { OnOk result (map shown_owned_assignment self.new.unclear.items
            ≡ map shown_owned_assignment self.old.unclear.items ++ unclear_of (shown_owned_assignment assignment)) }
    {
        if borrowed(&assignment).is_expression() {
            self.unclear.push(assignment)?;
        } else {
            self.assignments.push(assignment)?;
        }
        Ok(())
    }
}

/// Fills in the specifiers in the value of an assignment of the timer with the name `own`.
fn fill_value(alloc: Global, own: &str, assignment: &OwnedAssignment) -> Result<Filled, AllocError>
    ensures { IfOk result (λ filled. shown_filled filled ≡ value_filled own.now (shown_owned_assignment assignment.now)) }
{
    let value = assignment.value.as_str();
    if is_started(assignment.key.as_str()) {
        return fill_unit(alloc, own, value);
    }
    fill(alloc, own, value)
}

/// Appends the assignment with `text`, its filled-in value. If this value can't be used, calls [`push_unusable`]
/// instead.
fn push_filled(
    resolved: &mut Vec<OwnedAssignment>,
    assignment: OwnedAssignment,
    text: String,
) -> Result<(), AllocError>
    ensures { OnOk result (map shown_owned_assignment resolved.new.items ≡ map shown_owned_assignment resolved.old.items
        ++ option_to_list (resolved_by (shown_owned_assignment assignment) (Text (string_bytes text)))) }
{
    if !is_usable(text.as_str()) {
        return push_unusable(resolved, assignment);
    }
    let OwnedAssignment {
        number,
        key,
        value: _,
    } = assignment;
    resolved.push(OwnedAssignment {
        number,
        key,
        value: text,
    })?;
    Ok(())
}

/// Handles an assignment whose filled-in value can't be used. An expression or an exception is appended as it is. Any
/// other assignment is dropped.
fn push_unusable(
    resolved: &mut Vec<OwnedAssignment>,
    assignment: OwnedAssignment,
) -> Result<(), AllocError>
    ensures { OnOk result (map shown_owned_assignment resolved.new.items ≡ map shown_owned_assignment resolved.old.items
        ++ option_to_list (unusable (shown_owned_assignment assignment))) }
{
    if is_entry(&assignment) {
        resolved.push(assignment)?;
    }
    Ok(())
}

/// Returns whether the assignment is an expression or an exception.
fn is_entry(assignment: &OwnedAssignment) -> bool
    ensures { result ≡ (is_expression (shown_owned_assignment assignment.now) || is_exception (shown_owned_assignment assignment.now)) }
{
    let assignment = borrowed(assignment);
    assignment.is_expression() || assignment.is_exception()
}

/// Returns whether `text`, a value with its specifiers filled in, can be valid. It can't if it is empty or has a `%`:
/// no expression, time span or unit name has one.
fn is_usable(text: &str) -> bool
    ensures { result ≡ is_usable text.now }
{
    !(text.is_empty() || has_percent(text))
}

/// Returns whether the value has a `%`, and specifiers are filled in in the values of the key.
fn may_have_specifiers(assignment: &OwnedAssignment) -> bool
    ensures { result ≡ may_have_specifiers (shown_owned_assignment assignment.now) }
{
    has_percent(assignment.value.as_str()) && takes_specifiers(assignment.key.as_str())
}

fn takes_specifiers(key: &str) -> bool
    ensures { result ≡ takes_specifiers (kind_of key.now) }
{
    matches!(
        kind_of(key),
        Some(
            KeyKind::SpanTrigger
                | KeyKind::CalendarTrigger
                | KeyKind::Exception
                | KeyKind::StartedUnit
        )
    )
}
