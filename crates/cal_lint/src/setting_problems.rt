//! The problems of the settings in a section `Timer`: invalid expressions and exceptions; valid ones that systemd 252
//! rejects or computes wrongly, or that may not mean what their author thinks; and other settings whose values systemd
//! ignores.

ghost use Rattle.std.specs.Prelude.{◌≡◌, ◌+◌, ◌<◌, ◌^◌, ◌++◌, ◌∷◌, [], All, IfOk, IfSome, OnOk, length, map, string_bytes};
ghost use Rattle.std.specs.List.{find};
ghost use Rattle.std.specs.Option.{option_map, option_to_list};
ghost use Rattle.cal_timer.specs.rules.TimerView.{shown_assignment};
ghost use Rattle.cal_lint.specs.rules.Ambiguities.{ambiguity_in};
ghost use Rattle.cal_lint.specs.rules.Systemd252.{IsNotRejected, rejection_in};
ghost use Rattle.cal_lint.specs.rules.Findings.{HasGoodSuggestion, advice, concerns, fault_on, flaws_of, if_valid, instance_problems, is_checked, is_on, problem_in, rejections_of, reported_flaw, setting_problems, shown_finding, unchecked_problems};
ghost use Rattle.cal_lint.specs.rules.IgnoredValues.{ignored_setting};
ghost use Rattle.cal_lint.specs.rules.OpenSteps.{flaw_in};
ghost use Rattle.cal_lint.specs.declared.problems.Problem.TheVariants.{Ambiguous, IgnoredValue, Invalid, OpenStep, Rejected};

use crate::accepted::{accepted_form, accepted_text};
use crate::ambiguities::{Ambiguity, find_ambiguity};
use crate::closed_steps::closed_form;
use crate::columns::{ambiguity_start, fault_start, value_column};
use crate::hints::{Hint, Mistake, find_hint};
use crate::ignored_values::ignored_setting;
use crate::instances::fits_no_instance;
use crate::older_systemd::{Rejection, systemd_252};
use crate::open_steps::{OpenStepFlaw, find_open_step_flaw};
use crate::problems::{Finding, Problem, ProblemKind, finding_with, plain_finding};
use cal_read::{Assignment, FileFault, TimerFault};
use cal_spec::{SpecFault, read_expr};
use cal_unit_index::has_percent;
use std::alloc::{AllocError, Global};

/// Appends the problems of a setting in a section `Timer`. `faults` are all errors of the timer that has this setting,
/// and `line` is the first physical line of the setting.
pub(crate) fn add_setting_problems(
    alloc: Global,
    found: &mut Vec<Finding>,
    faults: &[FileFault],
    setting: Assignment<'_>,
    line: &str,
) -> Result<(), AllocError>
    requires { 1 + length line.now < 2 ^ 32 }
    ensures problems { OnOk result (map shown_finding found.new.items ≡ map shown_finding found.old.items
        ++ map (problem_in setting.entry.number line.now setting.entry.value.now) (setting_problems faults.now (shown_assignment setting.entry))) }
    ensures suggestions { OnOk result (All HasGoodSuggestion found.old.items → All HasGoodSuggestion found.new.items) }
{
    if !is_checked(setting) {
        return add_unchecked(alloc, found, setting, line);
    }
    match fault_on(faults, setting.number) {
        Some(fault) => add_invalid(alloc, found, setting, line, fault),
        None => add_advice(alloc, found, setting, line),
    }
}

/// If the setting is an expression or exception with specifiers, appends a problem if no usual instance makes it valid.
/// For any other setting, appends a problem if systemd ignores it because of its value.
fn add_unchecked(
    alloc: Global,
    found: &mut Vec<Finding>,
    setting: Assignment<'_>,
    line: &str,
) -> Result<(), AllocError>
    requires { 1 + length line.now < 2 ^ 32 }
    ensures problems { OnOk result (map shown_finding found.new.items ≡ map shown_finding found.old.items
        ++ map (problem_in setting.entry.number line.now setting.entry.value.now) (unchecked_problems (shown_assignment setting.entry))) }
    ensures suggestions { OnOk result (All HasGoodSuggestion found.old.items → All HasGoodSuggestion found.new.items) }
{
    if setting.is_expression() || setting.is_exception() {
        add_unfit(alloc, found, setting, line)
    } else {
        add_ignored_value(found, setting, line)
    }
}

/// Appends the problem of an expression or exception with specifiers, if no usual instance makes it valid.
fn add_unfit(
    alloc: Global,
    found: &mut Vec<Finding>,
    setting: Assignment<'_>,
    line: &str,
) -> Result<(), AllocError>
    requires { 1 + length line.now < 2 ^ 32 }
    ensures problems { OnOk result (map shown_finding found.new.items ≡ map shown_finding found.old.items
        ++ map (problem_in setting.entry.number line.now setting.entry.value.now) (instance_problems (shown_assignment setting.entry))) }
    ensures suggestions { OnOk result (All HasGoodSuggestion found.old.items → All HasGoodSuggestion found.new.items) }
{
    if fits_no_instance(alloc, setting.value)? {
        let column = value_column(line, setting.value, 0);
        found.push(plain_finding(setting.number, column, Problem::NoInstanceFits))?;
    }
    Ok(())
}

/// Appends the problem of an assignment that is neither an expression nor an exception, if systemd ignores it because
/// of its value.
fn add_ignored_value(
    found: &mut Vec<Finding>,
    assignment: Assignment<'_>,
    line: &str,
) -> Result<(), AllocError>
    requires { 1 + length line.now < 2 ^ 32 }
    ensures problems { OnOk result (map shown_finding found.new.items ≡ map shown_finding found.old.items
        ++ map (problem_in assignment.entry.number line.now assignment.entry.value.now) (option_to_list (option_map IgnoredValue (ignored_setting (shown_assignment assignment.entry))))) }
    ensures suggestions { OnOk result (All HasGoodSuggestion found.old.items → All HasGoodSuggestion found.new.items) }
{
    if let Some(kind) = ignored_setting(assignment) {
        let column = value_column(line, assignment.value, 0);
        found.push(plain_finding(assignment.number, column, Problem::IgnoredValue(kind)))?;
    }
    Ok(())
}

/// Appends the error `fault` of an expression or exception, with the mistake that the value resembles and what to write
/// instead, if these are known.
fn add_invalid(
    alloc: Global,
    found: &mut Vec<Finding>,
    assignment: Assignment<'_>,
    line: &str,
    fault: TimerFault,
) -> Result<(), AllocError>
    requires { 1 + length line.now < 2 ^ 32 }
    ensures problems { OnOk result (map shown_finding found.new.items ≡ map shown_finding found.old.items
        ++ problem_in assignment.entry.number line.now assignment.entry.value.now (Invalid fault) ∷ []) }
    ensures suggestions { OnOk result (All HasGoodSuggestion found.old.items → All HasGoodSuggestion found.new.items) }
{
    let value = assignment.value;
    let start = fault_start(alloc, value)?;
    let (mistake, suggestion) = advice_for(alloc, fault, value)?;
    found.push(Finding {
        line: assignment.number,
        column: value_column(line, value, start),
        kind: ProblemKind::Error,
        problem: Problem::Invalid(fault),
        mistake,
        suggestion,
    })?;
    Ok(())
}

/// If the value of `assignment` is a valid expression, appends a problem if systemd 252 rejects the expression, another
/// if systemd 252 computes it wrongly, and another if its meaning is ambiguous. For an exception, only its meaning is
/// considered.
fn add_advice(
    alloc: Global,
    found: &mut Vec<Finding>,
    assignment: Assignment<'_>,
    line: &str,
) -> Result<(), AllocError>
    requires { 1 + length line.now < 2 ^ 32 }
    ensures problems { OnOk result (map shown_finding found.new.items ≡ map shown_finding found.old.items
        ++ map (problem_in assignment.entry.number line.now assignment.entry.value.now) (advice (shown_assignment assignment.entry))) }
    ensures suggestions { OnOk result (All HasGoodSuggestion found.old.items → All HasGoodSuggestion found.new.items) }
{
    let rejected = rejection_by_systemd(alloc, assignment)?;
    push_rejection(alloc, found, assignment, line, rejected)?;
    add_concerns(alloc, found, assignment, line)
}

/// If the value of `assignment` is a valid expression, appends a problem if systemd 252 computes the expression
/// wrongly, and another if its meaning is ambiguous. For an exception, only its meaning is considered.
fn add_concerns(
    alloc: Global,
    found: &mut Vec<Finding>,
    assignment: Assignment<'_>,
    line: &str,
) -> Result<(), AllocError>
    requires { 1 + length line.now < 2 ^ 32 }
    ensures problems { OnOk result (map shown_finding found.new.items ≡ map shown_finding found.old.items
        ++ map (problem_in assignment.entry.number line.now assignment.entry.value.now) (concerns (shown_assignment assignment.entry))) }
    ensures suggestions { OnOk result (All HasGoodSuggestion found.old.items → All HasGoodSuggestion found.new.items) }
{
    let flaw = flaw_by_systemd(alloc, assignment)?;
    let ambiguity = ambiguity_of(alloc, assignment.value)?;
    push_flaw(alloc, found, assignment, line, flaw)?;
    push_ambiguity(found, assignment, line, ambiguity)
}

/// Returns what systemd 252 computes wrongly in a valid expression. Failures when the clock is set forward at midnight
/// are left out; `cal_tasks` reports them, since they depend on the zone. Returns `None` if the value is not a valid
/// expression, and for an exception: systemd doesn't read exceptions.
fn flaw_by_systemd(
    alloc: Global,
    assignment: Assignment<'_>,
) -> Result<Option<OpenStepFlaw>, AllocError>
    ensures { IfOk result (λ found. option_to_list (option_map OpenStep found)
        ≡ flaws_of (shown_assignment assignment.entry)) }
{
    if assignment.is_exception() {
        Ok(None)
    } else {
        flaw_of(alloc, assignment.value)
    }
}

fn flaw_of(alloc: Global, value: &str) -> Result<Option<OpenStepFlaw>, AllocError>
    ensures { IfOk result (λ found. found ≡ reported_flaw (if_valid (flaw_in value.now))) }
{
    match find_open_step_flaw(alloc, value) {
        Ok(flaw) => Ok(reported_flaw(flaw)),
        Err(SpecFault::NoMemory) => Err(AllocError),
        Err(_) => Ok(None),
    }
}

/// Returns the flaw if it is reported for every zone. Returns `None` for [`OpenStepFlaw::FailsAtMidnightChanges`],
/// which `cal_tasks` reports only for zones whose clock is set forward at midnight.
pub fn reported_flaw(flaw: Option<OpenStepFlaw>) -> Option<OpenStepFlaw>
    ensures { result ≡ reported_flaw flaw }
{
    match flaw {
        Some(OpenStepFlaw::LosesElapses(field)) => Some(OpenStepFlaw::LosesElapses(field)),
        Some(OpenStepFlaw::FailsAtClockChanges(field)) => {
            Some(OpenStepFlaw::FailsAtClockChanges(field))
        }
        Some(OpenStepFlaw::FailsAtMidnightChanges) => None,
        None => None,
    }
}

/// Returns why systemd 252 rejects a valid expression. Returns `None` if systemd 252 accepts the expression, if the
/// value is not a valid expression, and for an exception: systemd doesn't read exceptions.
fn rejection_by_systemd(
    alloc: Global,
    assignment: Assignment<'_>,
) -> Result<Option<Rejection>, AllocError>
    ensures { IfOk result (λ found. option_to_list (option_map Rejected found)
        ≡ rejections_of (shown_assignment assignment.entry)) }
{
    if assignment.is_exception() {
        Ok(None)
    } else {
        rejection_of(alloc, assignment.value)
    }
}

/// Appends the problem that systemd 252 rejects the expression, if `rejected` has a reason. Suggests the normal form of
/// the expression if systemd 252 accepts this form.
fn push_rejection(
    alloc: Global,
    found: &mut Vec<Finding>,
    assignment: Assignment<'_>,
    line: &str,
    rejected: Option<Rejection>,
) -> Result<(), AllocError>
    requires { 1 + length line.now < 2 ^ 32 }
    ensures problems { OnOk result (map shown_finding found.new.items ≡ map shown_finding found.old.items
        ++ map (problem_in assignment.entry.number line.now assignment.entry.value.now) (option_to_list (option_map Rejected rejected))) }
    ensures suggestions { OnOk result (All HasGoodSuggestion found.old.items → All HasGoodSuggestion found.new.items) }
{
    if let Some(rejection) = rejected {
        let column = value_column(line, assignment.value, 0);
        let suggestion = accepted_form(alloc, assignment.value)?;
        let problem = Problem::Rejected(rejection);
        found.push(finding_with(assignment.number, column, problem, suggestion))?;
    }
    Ok(())
}

/// Appends the problem that systemd 252 computes the expression wrongly, if there is a flaw. Suggests ranges in place
/// of steps without an end.
fn push_flaw(
    alloc: Global,
    found: &mut Vec<Finding>,
    assignment: Assignment<'_>,
    line: &str,
    flaw: Option<OpenStepFlaw>,
) -> Result<(), AllocError>
    requires { 1 + length line.now < 2 ^ 32 }
    ensures problems { OnOk result (map shown_finding found.new.items ≡ map shown_finding found.old.items
        ++ map (problem_in assignment.entry.number line.now assignment.entry.value.now) (option_to_list (option_map OpenStep flaw))) }
    ensures suggestions { OnOk result (All HasGoodSuggestion found.old.items → All HasGoodSuggestion found.new.items) }
{
    if let Some(flaw) = flaw {
        let column = value_column(line, assignment.value, 0);
        let suggestion = closed_suggestion(alloc, assignment.value)?;
        let problem = Problem::OpenStep(flaw);
        found.push(finding_with(assignment.number, column, problem, suggestion))?;
    }
    Ok(())
}

/// Returns a valid expression with ranges in place of steps without an end, unless systemd 252 rejects it.
fn closed_suggestion(alloc: Global, value: &str) -> Result<Option<String>, AllocError>
    ensures { IfOk result (λ found. IfSome found (λ text. IsNotRejected (string_bytes text))) }
{
    let expr = match read_expr(alloc, value) {
        Ok(expr) => expr,
        Err(SpecFault::NoMemory) => return Err(AllocError),
        Err(_) => return Ok(None),
    };
    match closed_form(alloc, &expr)? {
        Some(closed) => accepted_text(alloc, closed),
        None => Ok(None),
    }
}

/// Appends the problem that the meaning of a valid expression is ambiguous, if there is an ambiguity.
fn push_ambiguity(
    found: &mut Vec<Finding>,
    assignment: Assignment<'_>,
    line: &str,
    ambiguity: Option<Ambiguity>,
) -> Result<(), AllocError>
    requires { 1 + length line.now < 2 ^ 32 }
    ensures problems { OnOk result (map shown_finding found.new.items ≡ map shown_finding found.old.items
        ++ map (problem_in assignment.entry.number line.now assignment.entry.value.now) (option_to_list (option_map Ambiguous ambiguity))) }
    ensures suggestions { OnOk result (All HasGoodSuggestion found.old.items → All HasGoodSuggestion found.new.items) }
{
    if let Some(ambiguity) = ambiguity {
        let value = assignment.value;
        let column = value_column(line, value, ambiguity_start(ambiguity, value));
        found.push(plain_finding(assignment.number, column, Problem::Ambiguous(ambiguity)))?;
    }
    Ok(())
}

/// Returns why systemd 252 rejects a valid expression. Returns `None` if systemd 252 accepts the expression, or if
/// `value` is not a valid expression. Fails only if allocation fails.
fn rejection_of(alloc: Global, value: &str) -> Result<Option<Rejection>, AllocError>
    ensures { IfOk result (λ found. found ≡ if_valid (rejection_in value.now)) }
{
    match systemd_252(alloc, value) {
        Ok(rejection) => Ok(rejection),
        Err(SpecFault::NoMemory) => Err(AllocError),
        Err(_) => Ok(None),
    }
}

/// Returns why a valid expression may not mean what its author thinks. Returns `None` if no [`Ambiguity`] applies to the
/// expression, or if `value` is not a valid expression. Fails only if allocation fails.
fn ambiguity_of(alloc: Global, value: &str) -> Result<Option<Ambiguity>, AllocError>
    ensures { IfOk result (λ found. found ≡ if_valid (ambiguity_in value.now)) }
{
    match find_ambiguity(alloc, value) {
        Ok(ambiguity) => Ok(ambiguity),
        Err(SpecFault::NoMemory) => Err(AllocError),
        Err(_) => Ok(None),
    }
}

/// Returns the known mistake that an invalid expression resembles, and a valid expression to write instead, if these
/// are known. Returns neither if `fault` is not [`TimerFault::BadLine`].
fn advice_for(
    alloc: Global,
    fault: TimerFault,
    value: &str,
) -> Result<(Option<Mistake>, Option<String>), AllocError>
    ensures { IfOk result (λ advice. IfSome advice.1 (λ text. IsNotRejected (string_bytes text))) }
{
    match fault {
        TimerFault::BadLine(_, _) => match find_hint(alloc, value)? {
            Some(Hint { mistake, instead }) => Ok((Some(mistake), instead)),
            None => Ok((None, None)),
        },
        _ => Ok((None, None)),
    }
}

/// Returns whether the assignment is an expression or an exception without specifiers. A specifier begins with `%`.
fn is_checked(assignment: Assignment<'_>) -> bool
    ensures { result ≡ is_checked (shown_assignment assignment.entry) }
{
    (assignment.is_expression() || assignment.is_exception()) && !has_percent(assignment.value)
}

/// Returns the first error in the line with this number, if there is one.
fn fault_on(faults: &[FileFault], number: u32) -> Option<TimerFault>
    ensures { result ≡ fault_on faults.now number }
{
    match first_on(faults, number) {
        Some(found) => Some(found.fault),
        None => None,
    }
}

fn first_on(faults: &[FileFault], number: u32) -> Option<FileFault>
    ensures { result ≡ find (is_on number) faults.now }
{
    faults.iter().copied().find(|found| is_on(number, *found))
}

fn is_on(number: u32, found: FileFault) -> bool
    ensures { result ≡ is_on number found }
{
    match found.fault.line() {
        Some(line) => line == number,
        None => false,
    }
}
