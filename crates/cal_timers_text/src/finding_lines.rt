//! The output of `lint`: problems of timers, with the lines of the files that have them.

ghost use Rattle.std.specs.Prelude.{◌≡◌, ◌++◌, IfOk, OnOk, string_bytes};
ghost use Rattle.std.specs.Option.{option_map};
ghost use Rattle.cal_timers_text.specs.rules.LintText.{after_file, caret_line, caret_lines, counted, counts_end, counts_line, counts_separator, excerpt, finding_lines, finding_place, is_in_value, key_of, kind_text, physical_line, placed_line, problem_line, suggestion_line, word_at_fault, word_from};

use crate::messages::push_message;
use cal_bytes::{first_word, trim_blanks_end};
use cal_lint::{Finding, Problem, ProblemKind};
use cal_timer::without_mark;
use cal_timers_report::{Emphasis, Style, push_blanks, push_printable, push_times, shown_width};
use std::alloc::{AllocError, Global};

/// How many problems `lint` found.
#[derive(Clone, Copy)]
pub struct ProblemCounts {
    pub errors: usize,
    pub warnings: usize,
}

/// Returns the lines about a problem in the file at `path`, whose content is `text`.
///
/// The first line has the path, the line number, the column and the message. Below it are the line of the file, a caret
/// below the word at this column, and what to write instead, if that is known. There is no caret if the problem is in a
/// value that continues on the next line.
#[tactic(auto, unfolding(crate::specs::rules::LintText::finding_lines))]
pub fn finding_text(
    alloc: Global,
    path: &str,
    text: &str,
    finding: &Finding,
    style: Style,
) -> Result<String, AllocError>
    ensures { IfOk result (λ lines. string_bytes lines ≡ finding_lines style path.now text.now finding.now) }
{
    let mut out = String::new(alloc);
    push_place(&mut out, path, finding.line, finding.column)?;
    push_kind(&mut out, finding.kind, style)?;
    push_message(&mut out, finding.problem, finding.mistake)?;
    out.push('\n')?;
    push_excerpt(&mut out, text, finding)?;
    Ok(out)
}

/// Returns the line about a problem that has no column, or not even a line. `file` is the path of the file. If the
/// problem has no line, it can also be the name of a timer, or the path of a folder.
#[tactic(auto, unfolding(crate::specs::rules::LintText::problem_line))]
pub fn problem_text(
    alloc: Global,
    file: &str,
    line: Option<u32>,
    kind: ProblemKind,
    message: &str,
    style: Style,
) -> Result<String, AllocError>
    ensures { IfOk result (λ text. string_bytes text ≡ problem_line style file.now line kind message.now) }
{
    let mut out = String::new(alloc);
    push_printable(&mut out, file)?;
    push_line_number(&mut out, line)?;
    push_kind(&mut out, kind, style)?;
    out.push_str(message)?;
    out.push('\n')?;
    Ok(out)
}

/// Returns the line about a problem whose line and column are known, without the line of the file. `lint` prints it for
/// crontabs.
#[tactic(auto, unfolding(crate::specs::rules::LintText::placed_line))]
pub fn placed_text(
    alloc: Global,
    file: &str,
    line: u32,
    column: u32,
    kind: ProblemKind,
    message: &str,
    style: Style,
) -> Result<String, AllocError>
    ensures { IfOk result (λ text. string_bytes text ≡ placed_line style file.now line column kind message.now) }
{
    let mut out = String::new(alloc);
    push_place(&mut out, file, line, column)?;
    push_kind(&mut out, kind, style)?;
    out.push_str(message)?;
    out.push('\n')?;
    Ok(out)
}

/// Appends what is between the file and the message: `:LINE: `, or `: ` if there is no line number.
fn push_line_number(out: &mut String, line: Option<u32>) -> Result<(), AllocError>
    ensures { OnOk result (string_bytes out.new ≡ string_bytes out.old ++ after_file line) }
{
    match line {
        Some(line) => write!(out, ":{line}: "),
        None => out.push_str(": "),
    }
}

/// Appends a line with the numbers of errors and warnings, such as `1 error, 2 warnings`. Leaves out a number that is
/// 0, and appends nothing if both numbers are 0.
#[tactic(auto, unfolding(crate::specs::rules::LintText::counts_line))]
pub fn push_counts(out: &mut String, counts: ProblemCounts) -> Result<(), AllocError>
    ensures { OnOk result (string_bytes out.new ≡ string_bytes out.old ++ counts_line counts.errors counts.warnings) }
{
    push_count(out, counts.errors, "error")?;
    push_separator(out, counts)?;
    push_count(out, counts.warnings, "warning")?;
    push_line_end(out, counts)
}

/// Appends what separates the numbers of errors and warnings, or nothing if one of them is 0.
fn push_separator(out: &mut String, counts: ProblemCounts) -> Result<(), AllocError>
    ensures { OnOk result (string_bytes out.new
        ≡ string_bytes out.old ++ counts_separator counts.errors counts.warnings) }
{
    if counts.errors > 0 && counts.warnings > 0 {
        out.push_str(", ")
    } else {
        Ok(())
    }
}

/// Appends a line feed, or nothing if there are neither errors nor warnings.
fn push_line_end(out: &mut String, counts: ProblemCounts) -> Result<(), AllocError>
    ensures { OnOk result (string_bytes out.new
        ≡ string_bytes out.old ++ counts_end counts.errors counts.warnings) }
{
    if counts.errors > 0 || counts.warnings > 0 {
        out.push('\n')
    } else {
        Ok(())
    }
}

/// Appends a number and a noun, with an `s` if the number is greater than 1, or nothing if the number is 0.
#[tactic(auto, unfolding(crate::specs::rules::LintText::counted))]
fn push_count(out: &mut String, count: usize, noun: &str) -> Result<(), AllocError>
    ensures { OnOk result (string_bytes out.new ≡ string_bytes out.old ++ counted count noun.now) }
{
    match count {
        0 => Ok(()),
        1 => write!(out, "1 {noun}"),
        _ => write!(out, "{count} {noun}s"),
    }
}

/// Appends `PATH:LINE:COLUMN: `.
#[tactic(auto, unfolding(crate::specs::rules::LintText::finding_place))]
fn push_place(out: &mut String, path: &str, line: u32, column: u32) -> Result<(), AllocError>
    ensures { OnOk result (string_bytes out.new ≡ string_bytes out.old ++ finding_place path.now line column) }
{
    push_printable(out, path)?;
    write!(out, ":{line}:{column}: ")
}

#[tactic(auto, unfolding(crate::specs::rules::LintText::kind_text))]
fn push_kind(out: &mut String, kind: ProblemKind, style: Style) -> Result<(), AllocError>
    ensures { OnOk result (string_bytes out.new ≡ string_bytes out.old ++ kind_text style kind) }
{
    match kind {
        ProblemKind::Error => {
            style.begin(out, Emphasis::Error)?;
            out.push_str("error:")?;
            style.end(out)?;
            out.push(' ')
        }
        ProblemKind::Warning => out.push_str("warning: "),
    }
}

/// Appends the line of the file that has the problem, a line with a caret if the column of the problem is known, and a
/// line with what to write instead if that is known.
#[tactic(auto, unfolding(crate::specs::rules::LintText::excerpt))]
fn push_excerpt(out: &mut String, text: &str, finding: &Finding) -> Result<(), AllocError>
    ensures { OnOk result (string_bytes out.new ≡ string_bytes out.old ++ excerpt text.now finding.now) }
{
    let line = physical_line(text, finding.line);
    push_printable(out, line)?;
    out.push('\n')?;
    push_word_mark(out, line, finding)?;
    match &finding.suggestion {
        Some(suggestion) => push_suggestion(out, suggestion.as_str()),
        None => Ok(()),
    }
}

fn push_suggestion(out: &mut String, suggestion: &str) -> Result<(), AllocError>
    ensures { OnOk result (string_bytes out.new ≡ string_bytes out.old ++ suggestion_line suggestion.now) }
{
    out.push_str("  write instead: ")?;
    push_printable(out, suggestion)?;
    out.push('\n')
}

/// Appends a line with a caret below the word at fault in a line of the file, or nothing if the column isn't known.
fn push_word_mark(out: &mut String, line: &str, finding: &Finding) -> Result<(), AllocError>
    ensures { OnOk result (string_bytes out.new
        ≡ string_bytes out.old ++ caret_lines (word_at_fault line.now finding.now)) }
{
    match word_at_fault(line, finding) {
        Some((before, word)) => push_caret(out, before, word),
        None => Ok(()),
    }
}

/// Appends a line with `^` below the first character of the word, and `~` below its other characters. `before` is the
/// text before the word.
#[tactic(auto, unfolding(crate::specs::rules::LintText::caret_line))]
fn push_caret(out: &mut String, before: &str, word: &str) -> Result<(), AllocError>
    ensures { OnOk result (string_bytes out.new ≡ string_bytes out.old ++ caret_line before.now word.now) }
{
    push_blanks(out, shown_width(before))?;
    out.push('^')?;
    push_times(out, '~', shown_width(word).saturating_sub(1))?;
    out.push('\n')
}

/// Returns the physical line with this number, counted from 1, or an empty text if there is no such line.
#[tactic(auto, unfolding(crate::specs::rules::LintText::physical_line))]
fn physical_line(text: &str, number: u32) -> &str
    ensures { result.now ≡ physical_line text.now number }
{
    without_mark(text)
        .lines()
        .nth((number as usize).saturating_sub(1))
        .unwrap_or("")
}

/// Returns the text before the column of the problem, and the word that begins at the column. If the problem is in a
/// value, this word is the first one from the column on. Otherwise, it is a key: the text from the column up to the
/// first `=`, or to the end of the line if there is no `=`, without blanks at its end. The key can be empty, as in
/// `=5min`.
///
/// Returns `None` if the line doesn't have this column, or if the column isn't known because the value continues on the
/// next line.
#[tactic(auto, unfolding(crate::specs::rules::LintText::word_at_fault))]
fn word_at_fault<'t>(line: &'t str, finding: &Finding) -> Option<(&'t str, &'t str)>
    ensures { option_map (λ fault. (fault.0.now, fault.1.now)) result ≡ word_at_fault line.now finding.now }
{
    if is_in_value(finding.problem) && finding.column <= 1 {
        return None;
    }
    let parts = line.split_at_checked((finding.column as usize).saturating_sub(1))?;
    Some((parts.0, word_from(finding.problem, parts.1)))
}

/// Returns the first word of `after` if the problem is in a value, and otherwise the key with which `after` begins.
fn word_from(problem: Problem, after: &str) -> &str
    ensures { result.now ≡ word_from problem after.now }
{
    if !is_in_value(problem) {
        return key_of(after);
    }
    match first_word(after) {
        Some((word, _)) => word,
        None => "",
    }
}

/// Returns whether a problem is in the value of a setting.
fn is_in_value(problem: Problem) -> bool
    ensures { result ≡ is_in_value problem }
{
    matches!(
        problem,
        Problem::Invalid(_)
            | Problem::NoInstanceFits
            | Problem::Rejected(_)
            | Problem::Ambiguous(_)
            | Problem::BadUnitName
            | Problem::IgnoredValue(_)
            | Problem::OpenStep(_)
    )
}

/// Returns the key of a setting, without blanks at its end: the text before the first `=`, or all of the text if it has
/// no `=`.
#[tactic(auto, unfolding(crate::specs::rules::LintText::key_of))]
fn key_of(setting: &str) -> &str
    ensures { result.now ≡ key_of setting.now }
{
    match setting.split_once('=') {
        Some((key, _)) => trim_blanks_end(key),
        None => trim_blanks_end(setting),
    }
}
