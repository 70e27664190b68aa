//! Reading the lines of a crontab.

ghost use Rattle.std.specs.Prelude.{◌≡◌, ◌+◌, ◌<◌, ◌^◌, ◌++◌, IfOk, OnOk, drop, length, map};
ghost use Rattle.std.specs.List.{list_any};
ghost use Rattle.std.specs.Option.{option_map};
ghost use Rattle.cal_bytes.specs.rules.Separators.{is_blank};
ghost use Rattle.cal_bytes.specs.rules.Trim.{trim_end_matches};
ghost use Rattle.cal_cron.specs.computed.CrontabViews.{content_shown, job_shown, line_shown, time_shown};
ghost use Rattle.cal_cron.specs.computed.Lines.{LineGivesUnlessNoMemory};
ghost use Rattle.cal_cron.specs.computed.Translation.{exprs_in};
ghost use Rattle.cal_cron.specs.rules.CrontabLines.{content_by, content_of, crontab_lines, entry_by, entry_for, entry_in, is_missing, lacks, is_line_feed, line_at, line_by, single_entry_time, time_of};

use crate::columns::fault_start;
use crate::line_texts::{
    JobTexts, assignment_in, job_in, says_nothing, text_from, text_until, time_end,
};
use crate::{
    CronFault, CrontabEntry, CrontabFormat, CrontabLine, EntryFault, EntryTime, LineContent,
    LineFault, read_cron,
};
use cal_bytes::{blanks_in_front, trim_blanks, trim_blanks_end};
use cal_timer::first_line;
use std::alloc::{AllocError, Global};

/// Reads the lines of a crontab (crontab(5)): its entries, the variables that it sets, and the errors in it, in the
/// order of the lines. Blank lines and comments are left out. Fails only if allocation fails.
///
/// Commands are never run, and the names of users aren't checked. The variable `CRON_TZ` is returned like any other
/// variable: it doesn't change the zone of the expressions, and callers should tell their users so.
pub fn read_crontab<'t>(
    alloc: Global,
    format: CrontabFormat,
    text: &'t str,
) -> Result<Vec<CrontabLine<'t>>, AllocError>
    requires { length text.now + 1 < 2 ^ 32 }
    ensures { IfOk result (λ found. map line_shown found.items ≡ crontab_lines exprs_in format text.now) }
{
    let mut found: Vec<CrontabLine<'t>> = Vec::new(alloc);
    let mut number: u32 = 1;
    let mut rest = text;
    while let Some((line, after)) = first_line(rest) {
        push_line(alloc, &mut found, format, number, line)?;
        number += 1;
        rest = after;
    }
    Ok(found)
}

/// Reads the time of an entry that is given by itself: five time fields or a word that begins with `@`. A command may
/// follow. Fails with [`CronFault::NoMemory`] only if allocation fails, and with [`CronFault::FieldCount`] if the text
/// has too few words for an entry, or contains a line feed.
#[tactic(auto, unfolding(crate::specs::rules::CrontabLines::single_entry_time))]
pub fn read_entry_time(alloc: Global, text: &str) -> Result<EntryTime, CronFault>
    ensures { LineGivesUnlessNoMemory time_shown result (single_entry_time exprs_in text.now) }
{
    if has_line_feed(text.as_bytes()) {
        return Err(CronFault::FieldCount);
    }
    read_time(alloc, text_until(text, time_end(text.as_bytes())))
}

fn has_line_feed(text: &[u8]) -> bool
    ensures { result ≡ list_any is_line_feed text.now }
{
    text.iter().any(|byte| *byte == b'\n')
}

/// Appends a line, unless it is blank or a comment.
#[tactic(auto, unfolding(crate::specs::rules::CrontabLines::line_at))]
fn push_line<'t>(
    alloc: Global,
    found: &mut Vec<CrontabLine<'t>>,
    format: CrontabFormat,
    number: u32,
    line: &'t str,
) -> Result<(), AllocError>
    requires { length line.now + 1 < 2 ^ 32 }
    ensures { OnOk result (map line_shown found.new.items
        ≡ map line_shown found.old.items ++ line_at exprs_in format number line.now) }
{
    match read_content(alloc, format, line) {
        Ok(Some(content)) => {
            found.push(CrontabLine {
                number,
                column: blanks_in_front(line.as_bytes()) as u32 + 1,
                text: trim_blanks(line),
                content,
            })?;
            Ok(())
        }
        Ok(None) => Ok(()),
        Err(refused) => Err(refused),
    }
}

/// Returns what a line says, or `None` if it is blank or a comment.
#[tactic(auto, unfolding(crate::specs::rules::CrontabLines::content_of))]
fn read_content<'t>(
    alloc: Global,
    format: CrontabFormat,
    line: &'t str,
) -> Result<Option<LineContent<'t>>, AllocError>
    requires { length line.now + 1 < 2 ^ 32 }
    ensures { IfOk result (λ content. option_map content_shown content ≡ content_of exprs_in format line.now) }
{
    if says_nothing(trim_blanks(line)) {
        return Ok(None);
    }
    match assignment_in(line) {
        Some(assignment) => Ok(Some(LineContent::Assignment(assignment))),
        None => match read_entry(alloc, format, line) {
            Ok(content) => Ok(Some(content)),
            Err(refused) => Err(refused),
        },
    }
}

/// Parses a line as an entry. Returns the first error in it as [`LineContent::Invalid`].
#[tactic(auto, unfolding(crate::specs::rules::CrontabLines::entry_in))]
fn read_entry<'t>(
    alloc: Global,
    format: CrontabFormat,
    line: &'t str,
) -> Result<LineContent<'t>, AllocError>
    requires { length line.now + 1 < 2 ^ 32 }
    ensures { IfOk result (λ content. content_shown content ≡ entry_in exprs_in format line.now) }
{
    let end = time_end(line.as_bytes());
    let time_text = text_until(line, end);
    match read_time(alloc, time_text) {
        Ok(time) => Ok(entry_for(format, line, time, text_from(line, end))),
        Err(CronFault::NoMemory) => Err(AllocError),
        Err(fault) => Ok(LineContent::Invalid(LineFault {
            column: fault_start(time_text, fault) as u32 + 1,
            fault: EntryFault::Time(fault),
        })),
    }
}

/// Parses the time fields of an entry as [`read_cron`] does, except that `@reboot` isn't an error.
fn read_time(alloc: Global, text: &str) -> Result<EntryTime, CronFault>
    ensures { LineGivesUnlessNoMemory time_shown result (time_of (exprs_in text.now)) }
{
    match read_cron(alloc, text) {
        Ok(exprs) => Ok(EntryTime::Times(exprs)),
        Err(CronFault::Reboot) => Ok(EntryTime::Reboot),
        Err(fault) => Err(fault),
    }
}

/// Returns the entry with this time, or the error that its user or its command is missing. `text` is the part of the
/// line after the time fields.
fn entry_for<'t>(
    format: CrontabFormat,
    line: &'t str,
    time: EntryTime,
    text: &'t str,
) -> LineContent<'t>
    requires { length line.now + 1 < 2 ^ 32 }
    ensures { content_shown result ≡ entry_for format line.now (time_shown time) text.now }
{
    let job = job_in(format, text);
    match lacks(format, &job) {
        None => LineContent::Entry(CrontabEntry {
            time,
            user: job.user,
            command: job.command,
            input: job.input,
        }),
        Some(fault) => LineContent::Invalid(LineFault {
            column: end_column(line),
            fault,
        }),
    }
}

/// Returns the column directly after the last word of a line.
fn end_column(line: &str) -> u32
    requires { length line.now + 1 < 2 ^ 32 }
    ensures { result ≡ length (trim_end_matches is_blank line.now) + 1 }
{
    trim_blanks_end(line).len() as u32 + 1
}

/// Returns what an entry lacks. A line that is given as an argument needs no command.
fn lacks(format: CrontabFormat, job: &JobTexts<'_>) -> Option<EntryFault>
    ensures { result ≡ lacks format (job_shown job.now) }
{
    match format {
        CrontabFormat::Argument => None,
        _ if has_empty_user(job) => Some(EntryFault::NoUser),
        _ if job.command.is_empty() => Some(EntryFault::NoCommand),
        _ => None,
    }
}

/// Returns whether the entry should name a user, but doesn't.
fn has_empty_user(job: &JobTexts<'_>) -> bool
    ensures { result ≡ is_missing (job_shown job.now).user }
{
    match job.user {
        Some(user) => user.is_empty(),
        None => false,
    }
}
