//! Crontabs: their entries, the variables that they set, and the errors in them (crontab(5)).

ghost use Rattle.std.specs.Prelude.{◌≡◌, ◌++◌, OnOk, string_bytes};
ghost use Rattle.cal_cron.specs.rules.CronMessages.{entry_message};
ghost use Rattle.cal_cron.specs.rules.CrontabLines.{format_of_path};

use crate::{CronExprs, CronFault};
use std::alloc::AllocError;

/// The format of a crontab: what follows the time fields of its entries.
#[derive(Clone, Copy)]
pub enum CrontabFormat {
    /// Lines that are given as arguments. A command, but no user, may follow the time fields.
    Argument,
    /// The crontab of a user. A command follows the time fields.
    User,
    /// `/etc/crontab`, or a file in `/etc/cron.d`. A user and a command follow the time fields.
    System,
}

impl CrontabFormat {
    /// Returns the format of the crontab at a path.
    pub fn of_path(path: &str) -> CrontabFormat
        ensures { result ≡ format_of_path path.now }
    {
        if path == "/etc/crontab" || path.as_bytes().starts_with(b"/etc/cron.d/") {
            CrontabFormat::System
        } else {
            CrontabFormat::User
        }
    }
}

/// A line of a crontab that isn't blank and isn't a comment.
#[derive(Drop)]
pub struct CrontabLine<'t> {
    /// The number of the line, from 1.
    pub number: u32,
    /// The number of the byte at which the text begins, from 1.
    pub column: u32,
    /// The line without leading and trailing blanks.
    pub text: &'t str,
    pub content: LineContent<'t>,
}

/// What a line of a crontab says.
#[derive(Drop)]
pub enum LineContent<'t> {
    Assignment(Assignment<'t>),
    Entry(CrontabEntry<'t>),
    Invalid(LineFault),
}

/// The assignment of a value to a variable, which applies to the entries below it.
#[derive(Clone, Copy)]
pub struct Assignment<'t> {
    pub name: &'t str,
    /// The value as it is written, with its quotes.
    pub value: &'t str,
}

/// An entry of a crontab. Its command is never run.
#[derive(Drop)]
pub struct CrontabEntry<'t> {
    pub time: EntryTime,
    /// The user as whom the command runs, if the entry names a user.
    pub user: Option<&'t str>,
    /// The command, which ends before the first `%` that isn't escaped by a backslash.
    pub command: &'t str,
    /// The input of the command: the text after the `%` at which the command ends. Each further `%` stands for a line
    /// feed.
    pub input: Option<&'t str>,
}

/// When cron runs the command of an entry.
#[derive(Drop)]
pub enum EntryTime {
    /// When one of these expressions elapses.
    Times(CronExprs),
    /// Once, when cron starts.
    Reboot,
}

/// An error in a line of a crontab.
#[derive(Clone, Copy)]
pub struct LineFault {
    /// The number of the byte at which the error begins, from 1.
    pub column: u32,
    pub fault: EntryFault,
}

/// Why an entry of a crontab is invalid.
#[derive(Clone, Copy)]
pub enum EntryFault {
    /// The time fields are invalid. This is never [`CronFault::Reboot`] or [`CronFault::NoMemory`].
    Time(CronFault),
    /// Nothing follows the time fields, although each entry of a system crontab names a user.
    NoUser,
    /// No command follows the time fields or, in a system crontab, the user.
    NoCommand,
}

impl EntryFault {
    /// Appends the message for users, such as `hour: value out of range`. Fails only if allocation fails.
    pub fn push_words(&self, out: &mut String) -> Result<(), AllocError>
        ensures { OnOk result (string_bytes out.new ≡ string_bytes out.old ++ entry_message self.now) }
    {
        match self {
            EntryFault::Time(fault) => fault.push_words(out),
            EntryFault::NoUser => out.push_str("expected a user and a command"),
            EntryFault::NoCommand => out.push_str("expected a command"),
        }
    }
}
