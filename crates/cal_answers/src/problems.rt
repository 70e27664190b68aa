//! The problems that `lint` prints.

ghost use Rattle.std.specs.Prelude.{◌≡◌, ◌++◌, ◌∷◌, [], IfOk, OnOk, count_by, map, option_map, string_bytes};
ghost use Rattle.std.specs.List.{flat_map, list_any};
ghost use Rattle.std.specs.Str.{bytes_eq};
ghost use Rattle.cal_crontabs.specs.rules.Findings.{finding_message, finding_seen};
ghost use Rattle.cal_tasks.specs.rules.Unguarded.{unguarded_seen};
ghost use Rattle.cal_timers_report.specs.rules.Documents.{lint_document};
ghost use Rattle.cal_timers_report.specs.rules.ReportView.{problem_seen};
ghost use Rattle.cal_answers.specs.rules.LintCandidates.{candidate_row, has_in_line, has_in_line_of, has_text, is_left_out, shown_candidate, with_candidate, with_candidates};
ghost use Rattle.cal_answers.specs.rules.LintCrontabs.{listed_cron, problem_kind, with_problem};
ghost use Rattle.cal_answers.specs.rules.LintFiles.{listed_finding};
ghost use Rattle.cal_answers.specs.rules.LintOutput.{text_with};
ghost use Rattle.cal_answers.specs.rules.LintService.{unguarded_problem};
ghost use Rattle.cal_answers.specs.rules.LintRows.{is_error_at, is_error_kind, is_problem_at, lint_counts, listed_as, listed_in, rows_of, shown_problem};

use crate::candidates::{Candidate, Unless};
use cal_crontabs::{CronFinding, CronFindingKind};
use cal_lint::{Finding, ProblemKind};
use cal_tasks::UnguardedTimer;
use cal_timers_report::{ProblemRow, Style, lint_json};
use cal_timers_text::{
    ProblemCounts, finding_text, message_of, placed_text, problem_text, push_counts,
    service_suggestion, unguarded_message, unguarded_text,
};
use std::alloc::{AllocError, Global};

/// The problems that were found so far, in the order in which they are printed.
#[derive(Drop)]
pub(crate) struct Problems {
    list: Vec<Problem>,
}

/// A problem of a file or a timer, with all that is printed about it.
#[derive(Drop)]
struct Problem {
    /// The path of the file that has the problem. If the problem has no line, this can also be the name of a timer, or
    /// the path of a folder.
    file: String,
    line: Option<u32>,
    column: Option<u32>,
    is_error: bool,
    message: String,
    suggestion: Option<String>,
    /// The lines about the problem in the text output.
    text: String,
}

impl Problem {
    /// Returns whether the problem is in this line of a file.
    fn is_at(&self, file: &str, line: u32) -> bool
        ensures { result ≡ is_problem_at file.now line (shown_problem self.now) }
    {
        match self.line {
            Some(own) => own == line && self.file.as_str() == file,
            None => false,
        }
    }

    fn is_error_at(&self, file: &str, line: u32) -> bool
        ensures { result ≡ is_error_at file.now line (shown_problem self.now) }
    {
        self.is_error && self.is_at(file, line)
    }

    fn has_text(&self, text: &str) -> bool
        ensures { result ≡ bytes_eq (string_bytes self.now.text) text.now }
    {
        self.text.as_str() == text
    }
}

impl Problems {
    pub(crate) fn new(alloc: Global) -> Problems
        ensures { listed_in result ≡ [] }
    {
        Problems {
            list: Vec::new(alloc),
        }
    }

    /// Adds the problems of the file at a path, whose content is `text`.
    pub(crate) fn add_findings(
        &mut self,
        alloc: Global,
        style: Style,
        path: &str,
        text: &str,
        found: Vec<Finding>,
    ) -> Result<(), AllocError>
        ensures { OnOk result (listed_in self.new ≡ listed_in self.old ++ map (listed_finding style path.now text.now) found.items) }
    {
        for finding in found {
            self.add_finding(alloc, style, path, text, finding)?;
        }
        Ok(())
    }

    fn add_finding(
        &mut self,
        alloc: Global,
        style: Style,
        path: &str,
        text: &str,
        finding: Finding,
    ) -> Result<(), AllocError>
        ensures { OnOk result (listed_in self.new ≡ listed_in self.old ++ listed_finding style path.now text.now finding ∷ []) }
    {
        let shown = finding_text(alloc, path, text, &finding, style)?;
        let message = message_of(alloc, finding.problem, finding.mistake)?;
        self.list.push(Problem {
            file: String::from_str(alloc, path)?,
            line: Some(finding.line),
            column: Some(finding.column),
            is_error: is_error(finding.kind),
            message,
            suggestion: finding.suggestion,
            text: shown,
        })?;
        Ok(())
    }

    /// Adds a problem of a crontab, unless a problem with the same text is listed already.
    pub(crate) fn add_cron_finding(
        &mut self,
        alloc: Global,
        style: Style,
        finding: &CronFinding<'_>,
    ) -> Result<(), AllocError>
        ensures { OnOk result (listed_in self.new ≡ with_problem (listed_in self.old) (listed_cron style (finding_seen finding.now))) }
    {
        let message = cron_message(alloc, finding.kind)?;
        let text = placed_text(
            alloc,
            finding.name,
            finding.line,
            finding.column,
            problem_kind(finding.kind),
            message.as_str(),
            style,
        )?;
        if self.has_text(text.as_str()) {
            return Ok(());
        }
        self.list.push(Problem {
            file: String::from_str(alloc, finding.name)?,
            line: Some(finding.line),
            column: Some(finding.column),
            is_error: finding.kind.is_error(),
            message,
            suggestion: None,
            text,
        })?;
        Ok(())
    }

    /// Adds these candidates in order. Leaves out each candidate that is listed already, or whose line already has a
    /// problem of the kind that its [`Unless`](crate::candidates::Unless) names.
    pub(crate) fn add_all(
        &mut self,
        alloc: Global,
        style: Style,
        candidates: &[Candidate],
    ) -> Result<(), AllocError>
        ensures { OnOk result (listed_in self.new ≡ with_candidates style (listed_in self.old) (map shown_candidate candidates.now)) }
    {
        for candidate in candidates {
            self.add(alloc, style, candidate)?;
        }
        Ok(())
    }

    fn add(&mut self, alloc: Global, style: Style, candidate: &Candidate) -> Result<(), AllocError>
        ensures { OnOk result (listed_in self.new ≡ with_candidate style (listed_in self.old) (shown_candidate candidate.now)) }
    {
        let text = problem_text(
            alloc,
            candidate.file.as_str(),
            candidate.line,
            candidate.kind,
            candidate.message.as_str(),
            style,
        )?;
        if self.leaves_out(candidate, text.as_str()) {
            return Ok(());
        }
        self.push(alloc, candidate, text)
    }

    fn push(&mut self, alloc: Global, candidate: &Candidate, text: String) -> Result<(), AllocError>
        ensures { OnOk result (listed_in self.new
            ≡ listed_in self.old ++ record { row = candidate_row (shown_candidate candidate.now); text = string_bytes text } ∷ []) }
    {
        self.list.push(Problem {
            file: String::from_str(alloc, candidate.file.as_str())?,
            line: candidate.line,
            column: None,
            is_error: is_error(candidate.kind),
            message: String::from_str(alloc, candidate.message.as_str())?,
            suggestion: None,
            text,
        })?;
        Ok(())
    }

    /// Adds the warning that systemd ignores the exceptions of a timer, or may ignore them, with the line that the
    /// service needs. `is_user` says whether the timer is a unit of a user.
    pub(crate) fn add_unguarded(
        &mut self,
        alloc: Global,
        style: Style,
        is_user: bool,
        timer: &UnguardedTimer,
    ) -> Result<(), AllocError>
        ensures { OnOk result (listed_in self.new ≡ listed_in self.old ++ unguarded_problem style is_user (unguarded_seen timer.now) ∷ []) }
    {
        let path = timer.path.as_str();
        let suggestion = service_suggestion(timer.flaw, is_user);
        self.list.push(Problem {
            file: String::from_str(alloc, path)?,
            line: None,
            column: None,
            is_error: false,
            message: String::from_str(alloc, unguarded_message(timer.flaw))?,
            suggestion: owned(alloc, suggestion)?,
            text: unguarded_text(alloc, path, timer.flaw, is_user, style)?,
        })?;
        Ok(())
    }

    /// Returns whether a candidate with this text is left out because of a problem that is listed already.
    fn leaves_out(&self, candidate: &Candidate, text: &str) -> bool
        ensures { result ≡ is_left_out (shown_candidate candidate.now) text.now (listed_in self.now) }
    {
        self.has_in_line_of(candidate) || self.has_text(text)
    }

    fn has_in_line_of(&self, candidate: &Candidate) -> bool
        ensures { result ≡ has_in_line_of candidate.now.unless (string_bytes candidate.now.file) candidate.now.line (listed_in self.now) }
    {
        match candidate.line {
            Some(line) => self.has_in_line(candidate.unless, candidate.file.as_str(), line),
            None => false,
        }
    }

    fn has_in_line(&self, unless: Unless, file: &str, line: u32) -> bool
        ensures { result ≡ has_in_line unless file.now line (listed_in self.now) }
    {
        match unless {
            Unless::Same => false,
            Unless::ErrorInLine => self.has_error_at(file, line),
            Unless::ProblemInLine => self.has_problem_at(file, line),
        }
    }

    /// Returns whether a line of a file has an error or a warning.
    fn has_problem_at(&self, file: &str, line: u32) -> bool
        ensures { result ≡ list_any (λ problem. is_problem_at file.now line problem.row) (listed_in self.now) }
    {
        self.list.iter().any(|known| known.is_at(file, line))
    }

    /// Returns whether a line of a file has an error.
    fn has_error_at(&self, file: &str, line: u32) -> bool
        ensures { result ≡ list_any (λ problem. is_error_at file.now line problem.row) (listed_in self.now) }
    {
        self.list.iter().any(|known| known.is_error_at(file, line))
    }

    fn has_text(&self, text: &str) -> bool
        ensures { result ≡ has_text text.now (listed_in self.now) }
    {
        self.list.iter().any(|known| known.has_text(text))
    }

    pub(crate) fn counts(&self) -> ProblemCounts
        ensures { result ≡ lint_counts (listed_in self.now) }
    {
        let list = self.list.as_slice();
        let errors = error_count(list);
        ProblemCounts {
            errors,
            warnings: list.len().saturating_sub(errors),
        }
    }

    /// Returns the text about each problem and, if there are errors or warnings, a last line that says how many.
    pub(crate) fn text(&self, alloc: Global, counts: ProblemCounts) -> Result<String, AllocError>
        ensures { IfOk result (λ text. string_bytes text ≡ text_with counts (listed_in self.now)) }
    {
        let mut text = String::new(alloc);
        push_texts(&mut text, self.list.as_slice())?;
        push_counts(&mut text, counts)?;
        Ok(text)
    }

    pub(crate) fn json(&self, alloc: Global) -> Result<String, AllocError>
        ensures { IfOk result (λ text. string_bytes text ≡ lint_document (rows_of (listed_in self.now))) }
    {
        let mut rows = Vec::new(alloc);
        for problem in &self.list {
            rows.push(row_of(problem))?;
        }
        lint_json(alloc, rows.as_slice())
    }
}

fn owned(alloc: Global, text: Option<&str>) -> Result<Option<String>, AllocError>
    ensures { IfOk result (λ owned. option_map string_bytes owned ≡ option_map (λ text. text.now) text.entry) }
{
    match text {
        Some(text) => Ok(Some(String::from_str(alloc, text)?)),
        None => Ok(None),
    }
}

fn push_texts(text: &mut String, problems: &[Problem]) -> Result<(), AllocError>
    ensures { OnOk result (string_bytes text.new
        ≡ string_bytes text.old ++ flat_map (λ problem. problem.text) (map listed_as problems.now)) }
{
    for problem in problems {
        text.push_str(problem.text.as_str())?;
    }
    Ok(())
}

fn error_count(problems: &[Problem]) -> usize
    ensures { result ≡ count_by (λ problem. problem.is_error) problems.now }
{
    problems.iter().filter(|problem| problem.is_error).count()
}

fn cron_message(alloc: Global, kind: CronFindingKind) -> Result<String, AllocError>
    ensures { IfOk result (λ message. string_bytes message ≡ finding_message kind) }
{
    let mut message = String::new(alloc);
    kind.push_words(&mut message)?;
    Ok(message)
}

fn problem_kind(kind: CronFindingKind) -> ProblemKind
    ensures { result ≡ problem_kind kind }
{
    if kind.is_error() {
        ProblemKind::Error
    } else {
        ProblemKind::Warning
    }
}

fn is_error(kind: ProblemKind) -> bool
    ensures { result ≡ is_error_kind kind }
{
    match kind {
        ProblemKind::Error => true,
        ProblemKind::Warning => false,
    }
}

fn row_of(problem: &Problem) -> ProblemRow<'_>
    ensures { problem_seen result ≡ shown_problem problem.now }
{
    ProblemRow {
        file: problem.file.as_str(),
        line: problem.line,
        column: problem.column,
        is_error: problem.is_error,
        message: problem.message.as_str(),
        suggestion: problem.suggestion.as_deref(),
    }
}
