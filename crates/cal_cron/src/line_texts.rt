//! Splitting a line of a crontab into its time fields, its user and its command.

ghost use Rattle.std.specs.Prelude.{false, ◌≡◌, ◌<◌, ◌≤◌, ◌==◌, drop, length, slice_index, take, true};
ghost use Rattle.std.specs.List.{list_any};
ghost use Rattle.std.specs.Option.{option_copied, option_map};
ghost use Rattle.cal_bytes.specs.rules.Separators.{is_blank};
ghost use Rattle.cal_cron.specs.computed.CrontabViews.{assignment_shown, job_shown};
ghost use Rattle.cal_cron.specs.rules.CronMessages.{word_end};
ghost use Rattle.cal_cron.specs.rules.CrontabLines.{assignment_in, assignment_of, command_len, ends_command, escapes_next, input_at, is_name, job_in, job_of, says_nothing, time_end, user_and_command};

use crate::columns::{fields_end, word_end, word_start};
use crate::shortcuts::begins_with_at;
use crate::{Assignment, CronField, CrontabFormat};
use cal_bytes::trim_blanks;

/// The user and the command of an entry, and the input of the command.
#[derive(Clone, Copy)]
pub(crate) struct JobTexts<'t> {
    pub user: Option<&'t str>,
    pub command: &'t str,
    pub input: Option<&'t str>,
}

/// Returns whether a line without leading and trailing blanks is empty or a comment.
pub(crate) fn says_nothing(line: &str) -> bool
    ensures { result ≡ says_nothing line.now }
{
    matches!(line.as_bytes(), [] | [b'#', ..])
}

/// Parses a line as the assignment of a value to a variable. Returns `None` if the line isn't an assignment.
#[tactic(auto, unfolding(crate::specs::rules::CrontabLines::assignment_in))]
pub(crate) fn assignment_in(line: &str) -> Option<Assignment<'_>>
    ensures { option_map assignment_shown result ≡ assignment_in line.now }
{
    let Some((name, value)) = line.split_once('=') else {
        return None;
    };
    assignment_of(trim_blanks(name), trim_blanks(value))
}

fn assignment_of<'t>(name: &'t str, value: &'t str) -> Option<Assignment<'t>>
    ensures { option_map assignment_shown result ≡ assignment_of name.now value.now }
{
    if is_name(name) && !value.is_empty() {
        Some(Assignment { name, value })
    } else {
        None
    }
}

/// Returns whether a text can be the name of a variable: it isn't empty and has no blanks.
fn is_name(name: &str) -> bool
    ensures { result ≡ is_name name.now }
{
    !name.is_empty() && !has_blank(name.as_bytes())
}

fn has_blank(text: &[u8]) -> bool
    ensures { result ≡ list_any is_blank text.now }
{
    text.iter().any(|byte| is_blank(*byte))
}

fn is_blank(byte: u8) -> bool
    ensures { result ≡ is_blank byte }
{
    byte == b' ' || byte == b'\t'
}

/// Returns the index after the time fields of an entry: after one word that begins with `@`, or after five words.
#[tactic(auto, unfolding(crate::specs::rules::CrontabLines::time_end))]
pub(crate) fn time_end(line: &[u8]) -> usize
    ensures value { result ≡ time_end line.now }
    ensures within { result ≤ length line.now }
    ensures ends { result < length line.now → is_blank (slice_index line.now result) ≡ true }
{
    if begins_with_at(&line[word_start(line, 0)..]) {
        word_end(line, 0)
    } else {
        word_end(line, fields_end(line, CronField::Weekday))
    }
}

/// Splits the text after the time fields into the user, if the format has one, the command and its input.
#[tactic(auto, unfolding(crate::specs::rules::CrontabLines::job_in))]
pub(crate) fn job_in(format: CrontabFormat, text: &str) -> JobTexts<'_>
    ensures { job_shown result ≡ job_in format text.now }
{
    match format {
        CrontabFormat::System => user_and_command(text),
        _ => job_of(None, trim_blanks(text)),
    }
}

fn user_and_command(text: &str) -> JobTexts<'_>
    ensures { job_shown result ≡ user_and_command text.now }
{
    let end = word_end(text.as_bytes(), 0);
    job_of(
        Some(trim_blanks(text_until(text, end))),
        trim_blanks(text_from(text, end)),
    )
}

/// Splits a text at the first `%` that isn't escaped by a backslash, into the command before it and the input after it.
#[tactic(auto, unfolding(crate::specs::rules::CrontabLines::job_of))]
fn job_of<'t>(user: Option<&'t str>, text: &'t str) -> JobTexts<'t>
    ensures { job_shown result ≡ job_of (option_copied user.entry) text.now }
{
    let len = command_len(text.as_bytes());
    JobTexts {
        user,
        command: command_until(text, len),
        input: input_at(text, len),
    }
}

/// Returns the length in bytes of the command with which the text begins.
#[tactic(auto, using(crate::proofs::CommandLemmas::command_step, crate::proofs::CommandLemmas::command_end))]
fn command_len(text: &[u8]) -> usize
    ensures value { result ≡ command_len false text.now }
    ensures within { result ≤ length text.now }
    ensures ends { result < length text.now → slice_index text.now result ≡ 37 }
{
    let mut is_escaped = false;
    let mut len = 0;
    for byte in text {
        if ends_command(is_escaped, *byte) {
            return len;
        }
        is_escaped = escapes_next(is_escaped, *byte);
        len += 1;
    }
    len
}

fn ends_command(is_escaped: bool, byte: u8) -> bool
    ensures { result ≡ ends_command is_escaped byte }
{
    !is_escaped && byte == b'%'
}

fn escapes_next(is_escaped: bool, byte: u8) -> bool
    ensures { result ≡ escapes_next is_escaped byte }
{
    !is_escaped && byte == b'\\'
}

fn command_until(text: &str, end: usize) -> &str
    requires within { end ≤ length text.now }
    requires percent { end < length text.now → slice_index text.now end ≡ 37 }
    ensures { result.now ≡ take end text.now }
{
    &text[..end]
}

/// Returns the text after the `%` at `index`, or `None` if `index` is the end of the text.
fn input_at(text: &str, index: usize) -> Option<&str>
    requires within { index ≤ length text.now }
    requires percent { index < length text.now → slice_index text.now index ≡ 37 }
    ensures { option_map (λ input. input.now) result ≡ input_at index text.now }
{
    if index < text.len() {
        Some(&text[index + 1..])
    } else {
        None
    }
}

/// Returns the first `end` bytes of `text`, which must be followed by a blank or by nothing.
pub(crate) fn text_until(text: &str, end: usize) -> &str
    requires within { end ≤ length text.now }
    requires blank { end < length text.now → is_blank (slice_index text.now end) ≡ true }
    ensures { result.now ≡ take end text.now }
{
    &text[..end]
}

/// Returns `text` without its first `start` bytes. A blank or the end of the text must be at `start`.
pub(crate) fn text_from(text: &str, start: usize) -> &str
    requires within { start ≤ length text.now }
    requires blank { start < length text.now → is_blank (slice_index text.now start) ≡ true }
    ensures { result.now ≡ drop start text.now }
{
    &text[start..]
}
