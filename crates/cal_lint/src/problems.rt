//! All problems in the lines of a timer unit, as data for programs that print the problems or mark them in an editor.
//!
//! An exception is an expression after this project's key `X-ExceptOnCalendar=`. When an exception elapses, the timer
//! doesn't.

ghost use Rattle.std.specs.Prelude.{◌≡◌, ◌+◌, ◌<◌, ◌^◌, ◌++◌, ◌∷◌, [], All, IfOk, None, OnOk, if◌then◌else◌, length, map};
ghost use Rattle.std.specs.Option.{option_to_list};
ghost use Rattle.cal_timer.specs.rules.Assignments.{assignment_of};
ghost use Rattle.cal_timer.specs.rules.LineView.{line_at};
ghost use Rattle.cal_timer.specs.rules.TimerView.{shown_assignment};
ghost use Rattle.cal_lint.specs.rules.Columns.{first_column, value_in};
ghost use Rattle.cal_lint.specs.rules.Findings.{HasGoodSuggestion, assigned_problems, begins_with_bracket, findings_in, header_problem, line_problems, placed_line, problem_at, problem_in, problem_kind_of, problems_of, shown_finding, timer_faults};
ghost use Rattle.cal_lint.specs.rules.InstallNames.{has_bad_name};
ghost use Rattle.cal_lint.specs.declared.problems.Problem.TheVariants.{BadUnitName};

use crate::ambiguities::Ambiguity;
use crate::columns::{first_column, physical_line, physical_lines, value_column};
use crate::hints::Mistake;
use crate::install_names::has_bad_name;
use crate::older_systemd::Rejection;
use crate::open_steps::OpenStepFlaw;
use crate::sections::{OpenSection, Section, header_name, is_unknown_section, section_after};
use crate::setting_problems::add_setting_problems;
use crate::unknown_keys::is_unknown_key;
use cal_read::{
    Assignment, FileFault, NumberedText, TimerFault, find_faults, first_logical, read_assignment,
    trim, without_mark,
};
use cal_timer::KeyKind;
use std::alloc::{AllocError, Global};

/// How serious a problem is.
#[derive(Clone, Copy)]
pub enum ProblemKind {
    /// This project or systemd 252 rejects the expression, no usual instance makes it valid, systemd 252 stops reading
    /// the file, or the timer can't be enabled.
    Error,
    /// systemd 252 ignores the line, or accepts the expression but computes it wrongly, or the expression may not mean
    /// what its author thinks.
    Warning,
}

/// What is wrong with a line (systemd.syntax(7)).
#[derive(Clone, Copy)]
pub enum Problem {
    /// The expression or the exception is invalid, or its list is full.
    Invalid(TimerFault),
    /// The instance, `%i` or `%I`, is the only specifier of the expression or exception, and no usual instance makes it
    /// valid.
    NoInstanceFits,
    /// Neither systemd 252 nor this project knows the key in this section. systemd ignores the line.
    UnknownKey(Section),
    /// systemd 252 rejects the expression, which is valid here.
    Rejected(Rejection),
    /// The expression or the exception is valid, but may not mean what its author thinks.
    Ambiguous(Ambiguity),
    /// The line begins with `[`, but isn't a section header: it doesn't end with `]`, or it has a control character, a
    /// quote or a backslash. systemd doesn't read the file any further, and doesn't load the unit unless the file is a
    /// drop-in.
    BadHeader,
    /// The line opens a section that systemd doesn't know in timers, and whose name doesn't begin with `X-`. systemd
    /// ignores the lines in it.
    UnknownSection,
    /// The line comes before the first section header, so systemd ignores it.
    OutsideSection,
    /// The line isn't an assignment, since it has no `=`. systemd ignores it.
    NoEquals,
    /// The line begins with `=`, so systemd ignores it.
    NoKey,
    /// The setting in the section `Install` has a name for which `systemctl enable` fails: one that isn't a unit name,
    /// or an alias that isn't the name of a timer.
    BadUnitName,
    /// systemd ignores the setting, which is of this kind, because of its value.
    IgnoredValue(KeyKind),
    /// systemd 252 computes the elapses of the expression wrongly, because of a step without an end.
    OpenStep(OpenStepFlaw),
}

impl Problem {
    /// Returns whether the problem is an error or only a warning.
    pub fn kind(self) -> ProblemKind
        ensures { result ≡ problem_kind_of self }
    {
        match self {
            Problem::Invalid(_)
            | Problem::NoInstanceFits
            | Problem::Rejected(_)
            | Problem::BadHeader
            | Problem::BadUnitName => ProblemKind::Error,
            _ => ProblemKind::Warning,
        }
    }
}

/// A problem of a unit file, and where it is.
#[derive(Drop)]
pub struct Finding {
    /// The number of the line, from 1. A continued line has the number of its first physical line.
    pub line: u32,
    /// The byte of the line, counted from 1, at which the problem begins. For an invalid expression or exception, this
    /// is the first byte of the word at fault (see [`fault_span`]); for [`Ambiguity::Abbreviation`], that of the
    /// abbreviation. For all other problems of a value, it is the first byte of the value. If the line is continued and
    /// doesn't contain the whole value, the column is 1. For problems of a key, a header or a whole line, it is the
    /// first byte after the line's leading blanks.
    pub column: u32,
    pub kind: ProblemKind,
    pub problem: Problem,
    /// The known mistake that an invalid expression resembles, if there is one.
    pub mistake: Option<Mistake>,
    /// An expression to write instead, if one is known. [`crate::systemd_252`] finds no reason to reject it.
    pub suggestion: Option<String>,
}

/// A logical line of a unit file.
#[derive(Clone, Copy)]
struct UnitLine<'l> {
    /// The section that is open before the line.
    section: OpenSection,
    number: u32,
    /// The text of the line, without blanks at its start and its end.
    text: &'l str,
    /// The first physical line of the logical line. Columns are counted in it.
    physical: &'l str,
}

/// Returns all problems of the lines of a unit file (systemd.timer(5), Options; systemd.syntax(7)), in the order of the
/// lines. The first line has the number 1. `text` must have fewer than 2^32 - 1 bytes.
///
/// In the sections that systemd reads in timers, `Unit`, `Timer` and `Install`, unknown keys are problems, and so are
/// lines that aren't assignments. Further problems are lines before the first section, unknown sections and
/// invalid section headers; names in `Install` for which `systemctl enable` fails; and in `Timer`:
///
/// - invalid lines, as [`find_faults`] returns them;
/// - what [`crate::systemd_252`] and [`crate::find_open_step_flaw`] return for valid expressions, except for
///   [`OpenStepFlaw::FailsAtMidnightChanges`];
/// - what [`crate::find_ambiguity`] returns for valid expressions and exceptions;
/// - other settings whose values systemd ignores.
///
/// Monotonic timers, `Unit=` and names in `Install` with a `%` aren't checked, since systemd fills in specifiers first
/// (systemd.unit(5), Specifiers). Expressions and exceptions with a `%` are checked only if the instance is their only
/// specifier: then it is a problem if no usual instance makes them valid. Not checked at all are values in `Unit`, and
/// whether lines are UTF-8 or too long for systemd.
///
/// [`crate::systemd_252`] finds no reason to reject a suggestion. Fails only if allocation fails.
pub fn findings(alloc: Global, text: &str) -> Result<Vec<Finding>, AllocError>
    requires { 1 + length text.now < 2 ^ 32 }
    ensures problems { IfOk result (λ found. map shown_finding found.items ≡ findings_in text.now) }
    ensures suggestions { IfOk result (λ found. All HasGoodSuggestion found.items) }
{
    let faults = timer_faults(alloc, text)?;
    let physical = physical_lines(alloc, without_mark(text))?;
    let mut found = Vec::new(alloc);
    let mut section = OpenSection::Outside;
    let mut number = 1;
    let mut rest = without_mark(text);
    while let Some(logical) = first_logical(alloc, number, rest)? {
        let line = UnitLine {
            section,
            number: logical.number,
            text: trim(logical.text.as_str()),
            physical: physical_line(&physical, logical.number),
        };
        add_line(alloc, &mut found, &faults, line)?;
        section = section_after(section, line.text);
        number = logical.next;
        rest = logical.rest;
    }
    Ok(found)
}

/// Returns all errors in the lines of a text whose first line has the number 1.
fn timer_faults(alloc: Global, text: &str) -> Result<Vec<FileFault>, AllocError>
    requires { 1 + length text.now < 2 ^ 32 }
    ensures { IfOk result (λ found. found.items ≡ timer_faults text.now) }
{
    find_faults(alloc, &[NumberedText { first: 1, text }])
}

/// Appends the problems of a line, which depend on the section that is open before it. An empty line has none.
fn add_line(
    alloc: Global,
    found: &mut Vec<Finding>,
    faults: &[FileFault],
    line: UnitLine<'_>,
) -> Result<(), AllocError>
    requires { 1 + length line.physical.now < 2 ^ 32 }
    ensures problems { OnOk result (map shown_finding found.new.items ≡ map shown_finding found.old.items
        ++ map (problem_in line.entry.number line.entry.physical.now (value_in (line_at line.entry.number line.entry.text.now)))
        (line_problems faults.now (placed_line line.entry))) }
    ensures suggestions { OnOk result (All HasGoodSuggestion found.old.items → All HasGoodSuggestion found.new.items) }
{
    if line.text.is_empty() {
        return Ok(());
    }
    if begins_with_bracket(line.text) {
        return add_header(found, line);
    }
    match line.section {
        OpenSection::Outside => push_line_problem(found, line, Problem::OutsideSection),
        OpenSection::Known(section) => add_assigned(alloc, found, faults, section, line),
        OpenSection::Ignored => Ok(()),
    }
}

fn begins_with_bracket(text: &str) -> bool
    ensures { result ≡ begins_with_bracket text.now }
{
    matches!(text.as_bytes(), [b'[', ..])
}

/// Appends the problem of a line that begins with `[`, if it has one.
fn add_header(found: &mut Vec<Finding>, line: UnitLine<'_>) -> Result<(), AllocError>
    requires { 1 + length line.physical.now < 2 ^ 32 }
    ensures problems { OnOk result (map shown_finding found.new.items ≡ map shown_finding found.old.items
        ++ map (problem_at line.entry.number (first_column line.entry.physical.now)) (option_to_list (header_problem line.entry.text.now))) }
    ensures suggestions { OnOk result (All HasGoodSuggestion found.old.items → All HasGoodSuggestion found.new.items) }
{
    if let Some(problem) = header_problem(line.text) {
        push_line_problem(found, line, problem)?;
    }
    Ok(())
}

/// Returns the problem of a line that begins with `[`, if it has one.
fn header_problem(text: &str) -> Option<Problem>
    ensures { result ≡ header_problem text.now }
{
    match header_name(text) {
        None => Some(Problem::BadHeader),
        Some(name) if is_unknown_section(name) => Some(Problem::UnknownSection),
        Some(_) => None,
    }
}

/// Appends the problems of a line that isn't a header, in a section that systemd knows.
fn add_assigned(
    alloc: Global,
    found: &mut Vec<Finding>,
    faults: &[FileFault],
    section: Section,
    line: UnitLine<'_>,
) -> Result<(), AllocError>
    requires { 1 + length line.physical.now < 2 ^ 32 }
    ensures problems { OnOk result (map shown_finding found.new.items ≡ map shown_finding found.old.items
        ++ map (problem_in line.entry.number line.entry.physical.now (value_in (line_at line.entry.number line.entry.text.now)))
        (assigned_problems faults.now section (assignment_of (line_at line.entry.number line.entry.text.now)))) }
    ensures suggestions { OnOk result (All HasGoodSuggestion found.old.items → All HasGoodSuggestion found.new.items) }
{
    let Some(assignment) = read_assignment(line.number, line.text) else {
        return push_line_problem(found, line, Problem::NoEquals);
    };
    if assignment.key.is_empty() {
        return push_line_problem(found, line, Problem::NoKey);
    }
    add_assignment(alloc, found, faults, section, assignment, line.physical)
}

/// Appends the problems of an assignment. `line` is the assignment's first physical line.
fn add_assignment(
    alloc: Global,
    found: &mut Vec<Finding>,
    faults: &[FileFault],
    section: Section,
    assignment: Assignment<'_>,
    line: &str,
) -> Result<(), AllocError>
    requires { 1 + length line.now < 2 ^ 32 }
    ensures problems { OnOk result (map shown_finding found.new.items ≡ map shown_finding found.old.items
        ++ map (problem_in assignment.entry.number line.now assignment.entry.value.now) (problems_of faults.now section (shown_assignment assignment.entry))) }
    ensures suggestions { OnOk result (All HasGoodSuggestion found.old.items → All HasGoodSuggestion found.new.items) }
{
    if is_unknown_key(section, assignment.key) {
        let problem = Problem::UnknownKey(section);
        found.push(plain_finding(assignment.number, first_column(line), problem))?;
        return Ok(());
    }
    match section {
        Section::Unit => Ok(()),
        Section::Timer => add_setting_problems(alloc, found, faults, assignment, line),
        Section::Install => add_bad_name(found, assignment, line),
    }
}

/// Appends the problem of an assignment in a section `Install` that has a name for which `systemctl enable` fails.
fn add_bad_name(
    found: &mut Vec<Finding>,
    assignment: Assignment<'_>,
    line: &str,
) -> Result<(), AllocError>
    requires { 1 + length line.now < 2 ^ 32 }
    ensures problems { OnOk result (map shown_finding found.new.items ≡ map shown_finding found.old.items
        ++ map (problem_in assignment.entry.number line.now assignment.entry.value.now) (if has_bad_name (shown_assignment assignment.entry) then BadUnitName ∷ [] else [])) }
    ensures suggestions { OnOk result (All HasGoodSuggestion found.old.items → All HasGoodSuggestion found.new.items) }
{
    if has_bad_name(assignment) {
        let column = value_column(line, assignment.value, 0);
        found.push(plain_finding(assignment.number, column, Problem::BadUnitName))?;
    }
    Ok(())
}

/// Appends a problem of a whole line, which begins after the line's leading blanks.
fn push_line_problem(
    found: &mut Vec<Finding>,
    line: UnitLine<'_>,
    problem: Problem,
) -> Result<(), AllocError>
    requires { 1 + length line.physical.now < 2 ^ 32 }
    ensures problems { OnOk result (map shown_finding found.new.items ≡ map shown_finding found.old.items
        ++ problem_at line.entry.number (first_column line.entry.physical.now) problem ∷ []) }
    ensures suggestions { OnOk result (All HasGoodSuggestion found.old.items → All HasGoodSuggestion found.new.items) }
{
    let column = first_column(line.physical);
    found.push(plain_finding(line.number, column, problem))?;
    Ok(())
}

/// Returns a finding whose `mistake` is `None`.
pub(crate) fn finding_with(
    line: u32,
    column: u32,
    problem: Problem,
    suggestion: Option<String>,
) -> Finding
    ensures problem { shown_finding result ≡ problem_at line column problem }
    ensures suggestion { result.suggestion ≡ suggestion }
{
    Finding {
        line,
        column,
        kind: problem.kind(),
        problem,
        mistake: None,
        suggestion,
    }
}

/// Returns a finding whose `mistake` and `suggestion` are `None`.
pub(crate) fn plain_finding(line: u32, column: u32, problem: Problem) -> Finding
    ensures problem { shown_finding result ≡ problem_at line column problem }
    ensures suggestion { result.suggestion ≡ None }
{
    finding_with(line, column, problem, None)
}
