//! How a service guards the exceptions of the timer that starts it (systemd.service(5), ExecCondition= and
//! SuccessExitStatus=).

ghost use Rattle.std.specs.Prelude.{◌≡◌, IfOk, OnOk, if◌then◌else◌, map};
ghost use Rattle.std.specs.List.{list_any};
ghost use Rattle.cal_bytes.specs.rules.Separators.{words};
ghost use Rattle.cal_read.specs.rules.SectionAssignments.{shown_owned_assignment};
ghost use Rattle.cal_unit_index.specs.rules.Destinations.{is_among};
ghost use Rattle.cal_load.specs.rules.Condition.{is_guard, may_be_guard};
ghost use Rattle.cal_load.specs.declared.guard.Guard.TheVariants.{Asks, FailureAccepted, Missing, Unknown};
ghost use Rattle.cal_load.specs.rules.Guard.{after_assignment, counted_values, guard_in, has_failure, values_after};

use crate::condition::{is_guard, may_be_guard};
use cal_bytes::first_word;
use cal_read::OwnedAssignment;
use std::alloc::{AllocError, Global};

/// The key of a condition.
const CONDITION_KEY: &str = "ExecCondition";

/// The key of the exit statuses that count as success.
const STATUS_KEY: &str = "SuccessExitStatus";

/// Whether systemd obeys the exceptions of a timer, which depends on the service that the timer starts.
#[derive(Clone, Copy, PartialEq, Eq)]
pub enum Guard {
    /// A condition of the service runs `calendar-timers due` about the timer, so systemd obeys the exceptions.
    Asks,
    /// No condition of the service runs `calendar-timers due` about the timer, so systemd ignores the exceptions.
    Missing,
    /// The words of the service's conditions don't tell whether one of them runs `calendar-timers due` about the timer.
    Unknown,
    /// A condition of the service runs `calendar-timers due` about the timer, but `SuccessExitStatus=` of the service
    /// has the status 1, so systemd ignores the exceptions.
    FailureAccepted,
}

/// Returns the guard of a service with these assignments, which the timer with this stem starts. `is_user` says whether
/// they are units of a user.
pub(crate) fn guard_in(
    alloc: Global,
    is_user: bool,
    stem: &str,
    assignments: &[OwnedAssignment],
) -> Result<Guard, AllocError>
    ensures { IfOk result (λ guard. guard ≡ guard_in is_user stem.now (map shown_owned_assignment assignments.now)) }
{
    let conditions = counted_values(alloc, CONDITION_KEY, assignments)?;
    if any_is_guard(alloc, is_user, stem, conditions.as_slice())? {
        let statuses = counted_values(alloc, STATUS_KEY, assignments)?;
        return Ok(asked_guard(statuses.as_slice()));
    }
    let may = any_may_be_guard(alloc, conditions.as_slice())?;
    Ok(unasked_guard(may))
}

/// Returns the guard of a service with these values of `SuccessExitStatus=`, if one of its conditions runs
/// `calendar-timers due` about the timer.
fn asked_guard(statuses: &[&str]) -> Guard
    ensures { result ≡ (if list_any has_failure (map (λ value. value.now) statuses.now) then FailureAccepted else Asks) }
{
    if any_has_failure(statuses) {
        Guard::FailureAccepted
    } else {
        Guard::Asks
    }
}

fn unasked_guard(may_be_guard: bool) -> Guard
    ensures { result ≡ (if may_be_guard then Unknown else Missing) }
{
    if may_be_guard {
        Guard::Unknown
    } else {
        Guard::Missing
    }
}

/// Returns the values of this key after its last empty value, which drops those before it.
fn counted_values<'a>(
    alloc: Global,
    key: &str,
    assignments: &'a [OwnedAssignment],
) -> Result<Vec<&'a str>, AllocError>
    ensures { IfOk result (λ values. map (λ value. value.now) values.items
        ≡ counted_values key.now (map shown_owned_assignment assignments.now)) }
{
    let mut values = Vec::new(alloc);
    for assignment in assignments {
        push_if_keyed(&mut values, key, assignment)?;
    }
    Ok(values)
}

/// Appends the value of an assignment of this key, or drops all values if it is empty.
fn push_if_keyed<'a>(
    values: &mut Vec<&'a str>,
    key: &str,
    assignment: &'a OwnedAssignment,
) -> Result<(), AllocError>
    ensures { OnOk result (map (λ value. value.now) values.new.items
        ≡ after_assignment key.now (map (λ value. value.now) values.old.items) (shown_owned_assignment assignment.now)) }
{
    if assignment.key.as_str() != key {
        return Ok(());
    }
    push_or_clear(values, assignment.value.as_str())
}

/// Appends the value, or drops all values if it is empty.
fn push_or_clear<'a>(values: &mut Vec<&'a str>, value: &'a str) -> Result<(), AllocError>
    ensures { OnOk result (map (λ value. value.now) values.new.items ≡ values_after (map (λ value. value.now) values.old.items) value.now) }
{
    if value.is_empty() {
        values.clear();
    } else {
        values.push(value)?;
    }
    Ok(())
}

fn any_is_guard(
    alloc: Global,
    is_user: bool,
    stem: &str,
    conditions: &[&str],
) -> Result<bool, AllocError>
    ensures { IfOk result (λ any. any ≡ list_any (is_guard is_user stem.now) (map (λ value. value.now) conditions.now)) }
{
    for condition in conditions {
        if is_guard(alloc, is_user, stem, condition)? {
            return Ok(true);
        }
    }
    Ok(false)
}

fn any_may_be_guard(alloc: Global, conditions: &[&str]) -> Result<bool, AllocError>
    ensures { IfOk result (λ any. any ≡ list_any may_be_guard (map (λ value. value.now) conditions.now)) }
{
    for condition in conditions {
        if may_be_guard(alloc, condition)? {
            return Ok(true);
        }
    }
    Ok(false)
}

fn any_has_failure(statuses: &[&str]) -> bool
    ensures { result ≡ list_any has_failure (map (λ value. value.now) statuses.now) }
{
    for value in statuses {
        if has_failure(value) {
            return true;
        }
    }
    false
}

/// Returns whether a value of `SuccessExitStatus=` has the exit status 1.
fn has_failure(value: &str) -> bool
    ensures { result ≡ has_failure value.now }
{
    has_word(value, "1") || has_word(value, "FAILURE")
}

/// Returns whether `word` is one of the words of `text`.
fn has_word(text: &str, word: &str) -> bool
    ensures { result ≡ is_among (words text.now) word.now }
{
    let mut rest = text;
    while let Some((first, after)) = first_word(rest) {
        if word == first {
            return true;
        }
        rest = after;
    }
    false
}
