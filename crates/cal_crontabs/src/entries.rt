//! The entries of crontabs as settings of timers, and the error lines about invalid entries.

ghost use Rattle.std.specs.Prelude.{◌≡◌, ◌++◌, ◌∷◌, [], ℕ, List, Option, IfOk, OnOk, map, string_bytes};
ghost use Rattle.std.specs.List.{flat_map};
ghost use Rattle.std.specs.Option.{option_copied, option_map};
ghost use Rattle.cal_cron.specs.computed.CrontabViews.{content_shown, entry_shown, line_shown, time_shown};
ghost use Rattle.cal_cron.specs.computed.Translation.{exprs_in};
ghost use Rattle.cal_crontabs.specs.rules.Crontabs.{shown_crontab};
ghost use Rattle.cal_crontabs.specs.rules.Entries.{calendar_setting, entries_at, entries_in, entries_of, entry_seen, entry_view, expressions_of, file_of, settings_of, zone_after};
ghost use Rattle.cal_crontabs.specs.rules.ErrorLines.{error_lines_at, error_lines_in, error_lines_of};

use crate::crontabs::Crontab;
use crate::error_lines::push_error_line;
use crate::lines::lines_of;
use crate::notes::{notes_of, zone_of_assignment};
use cal_cron::{CrontabEntry, CrontabFormat, CrontabLine, EntryTime, LineContent};
use cal_spec::{Expr, normal_text};
use std::alloc::{AllocError, Global};

/// An entry of a crontab, and the settings of a timer that elapses when cron runs its command.
#[derive(Drop)]
pub struct CronEntry<'t> {
    /// The path of the crontab, or `None` for an entry that is given as an argument.
    pub file: Option<&'t str>,
    /// The number of the line, from 1.
    pub line: u32,
    /// The line, without leading and trailing blanks.
    pub text: &'t str,
    /// The user as whom the command runs, if the entry names one.
    pub user: Option<&'t str>,
    /// The command, as it is written.
    pub command: &'t str,
    /// The input of the command, as it is written.
    pub input: Option<&'t str>,
    /// The expressions in normal form, of which one elapses when cron runs the command. None for `@reboot`.
    pub expressions: Vec<String>,
    /// The settings, each as `KEY=VALUE`: `OnCalendar=` once or twice, or `OnBootSec=0` for `@reboot`.
    pub settings: Vec<String>,
    pub notes: Vec<String>,
}

/// The entries of crontabs.
#[derive(Drop)]
pub struct CronReport<'t> {
    pub entries: Vec<CronEntry<'t>>,
    /// The error lines about entries that aren't valid, each with a line feed.
    pub errors: String,
}

/// Returns the entries of the crontabs, in the order of their lines. Fails only if allocation fails.
pub fn cron_report<'t>(alloc: Global, crontabs: &'t [Crontab]) -> Result<CronReport<'t>, AllocError>
    ensures entries { IfOk result (λ report. map entry_seen report.entries.items
        ≡ flat_map (entries_of exprs_in) (map shown_crontab crontabs.now)) }
    ensures errors { IfOk result (λ report. string_bytes report.errors
        ≡ flat_map (error_lines_of exprs_in) (map shown_crontab crontabs.now)) }
{
    let mut report = CronReport {
        entries: Vec::new(alloc),
        errors: String::new(alloc),
    };
    for crontab in crontabs {
        report.add_crontab(alloc, crontab)?;
    }
    Ok(report)
}

impl<'t> CronReport<'t> {
    /// Adds the entries of a crontab.
    #[tactic(auto, unfolding(crate::specs::rules::Entries::entries_of, crate::specs::rules::ErrorLines::error_lines_of))]
    fn add_crontab(&mut self, alloc: Global, crontab: &'t Crontab) -> Result<(), AllocError>
        ensures entries { OnOk result (map entry_seen self.new.entries.items
            ≡ map entry_seen self.old.entries.items ++ entries_of exprs_in (shown_crontab crontab.now)) }
        ensures errors { OnOk result (string_bytes self.new.errors
            ≡ string_bytes self.old.errors ++ error_lines_of exprs_in (shown_crontab crontab.now)) }
    {
        let lines = lines_of(alloc, crontab.format, crontab.text.as_str())?;
        self.add_lines(alloc, crontab, lines.as_slice())
    }

    /// Adds the entries in the lines of a crontab.
    fn add_lines(
        &mut self,
        alloc: Global,
        crontab: &'t Crontab,
        lines: &[CrontabLine<'t>],
    ) -> Result<(), AllocError>
        ensures entries { OnOk result (map entry_seen self.new.entries.items
            ≡ map entry_seen self.old.entries.items ++ entries_in (shown_crontab crontab.now) (map line_shown lines.now)) }
        ensures errors { OnOk result (string_bytes self.new.errors
            ≡ string_bytes self.old.errors ++ error_lines_in (shown_crontab crontab.now) (map line_shown lines.now)) }
    {
        let mut zone: Option<&'t str> = None;
        for line in lines {
            let below = zone_after(zone, &line.content);
            self.add_line(alloc, crontab, zone, line)?;
            zone = below;
        }
        Ok(())
    }

    /// Adds the entry of a line, or the error line if the entry is invalid. `zone` is the value of `CRON_TZ` above the line.
    fn add_line(
        &mut self,
        alloc: Global,
        crontab: &'t Crontab,
        zone: Option<&'t str>,
        line: &CrontabLine<'t>,
    ) -> Result<(), AllocError>
        ensures entries { OnOk result (map entry_seen self.new.entries.items
            ≡ map entry_seen self.old.entries.items ++ entries_at (shown_crontab crontab.now) (option_copied zone.entry) (line_shown line.now)) }
        ensures errors { OnOk result (string_bytes self.new.errors
            ≡ string_bytes self.old.errors ++ error_lines_at (shown_crontab crontab.now) (line_shown line.now)) }
    {
        match &line.content {
            LineContent::Assignment(_) => Ok(()),
            LineContent::Entry(entry) => {
                let entry = entry_at(alloc, crontab, zone, line.number, line.text, entry)?;
                self.entries.push(entry)?;
                Ok(())
            }
            LineContent::Invalid(fault) => {
                push_error_line(&mut self.errors, crontab.name.as_str(), line.number, *fault)
            }
        }
    }
}

/// Returns the value of `CRON_TZ` for the entries below a line. `zone` is the value above the line.
fn zone_after<'t>(zone: Option<&'t str>, content: &LineContent<'t>) -> Option<&'t str>
    ensures { option_copied result ≡ zone_after (option_copied zone.entry) (content_shown content.now) }
{
    match content {
        LineContent::Assignment(assignment) => zone_of_assignment(*assignment).or(zone),
        LineContent::Entry(_) | LineContent::Invalid(_) => zone,
    }
}

fn entry_at<'t>(
    alloc: Global,
    crontab: &'t Crontab,
    zone: Option<&'t str>,
    line: u32,
    text: &'t str,
    entry: &CrontabEntry<'t>,
) -> Result<CronEntry<'t>, AllocError>
    ensures { IfOk result (λ seen. entry_seen seen
        ≡ entry_view (shown_crontab crontab.now) (option_copied zone.entry) line text.now (entry_shown entry.now)) }
{
    Ok(CronEntry {
        file: file_of(crontab),
        line,
        text,
        user: entry.user,
        command: entry.command,
        input: entry.input,
        expressions: expressions_of(alloc, &entry.time)?,
        settings: settings_of(alloc, &entry.time)?,
        notes: notes_of(alloc, zone, entry)?,
    })
}

fn file_of(crontab: &Crontab) -> Option<&str>
    ensures { option_map (λ file. file.now) result ≡ file_of (shown_crontab crontab.now) }
{
    match crontab.format {
        CrontabFormat::Argument => None,
        CrontabFormat::User | CrontabFormat::System => Some(crontab.name.as_str()),
    }
}

/// Returns the expressions that elapse when cron runs an entry.
fn expressions_of(alloc: Global, time: &EntryTime) -> Result<Vec<String>, AllocError>
    ensures { IfOk result (λ texts. map string_bytes texts.items ≡ expressions_of (time_shown time.now)) }
{
    match time {
        EntryTime::Reboot => Ok(Vec::new(alloc)),
        EntryTime::Times(exprs) => exprs.texts(alloc),
    }
}

/// Returns the settings of a timer that elapses when cron runs an entry.
fn settings_of(alloc: Global, time: &EntryTime) -> Result<Vec<String>, AllocError>
    ensures { IfOk result (λ settings. map string_bytes settings.items ≡ settings_of (time_shown time.now)) }
{
    let mut settings = Vec::new(alloc);
    match time {
        EntryTime::Reboot => settings.push(String::from_str(alloc, "OnBootSec=0")?)?,
        EntryTime::Times(exprs) => {
            settings.push(calendar_setting(alloc, &exprs.first)?)?;
            if let Some(other) = &exprs.other {
                settings.push(calendar_setting(alloc, other)?)?;
            }
        }
    }
    Ok(settings)
}

/// Returns the setting `OnCalendar=` with an expression in its normal form.
fn calendar_setting(alloc: Global, expr: &Expr) -> Result<String, AllocError>
    ensures { IfOk result (λ text. string_bytes text ≡ calendar_setting expr.now) }
{
    let mut setting = String::from_str(alloc, "OnCalendar=")?;
    let normal = normal_text(alloc, expr)?;
    setting.push_str(normal.as_str())?;
    Ok(setting)
}
