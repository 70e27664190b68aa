//! The report of a verb: what `calendar-timers` answers, as data. The text for people and the JSON document are made
//! from it.

use cal_spec::Expr;
use cal_zone::Instant;

/// A row in the report of the verb `list`: a unit, its next elapse and its notes.
#[derive(Drop)]
pub struct ListRow<'a> {
    /// The name of the unit, or the path of its file.
    pub unit: &'a str,
    /// The next elapse. `None` for a timer that doesn't elapse any more, a masked unit and a unit that fails to load.
    pub next: Option<Instant>,
    /// Short notes, such as `disabled` or `OnBootSec=15min`.
    pub notes: Vec<&'a str>,
}

/// A timer in the report of `show` and `next`.
#[derive(Drop)]
pub struct ShownTimer<'a> {
    /// The name of the timer or, for `next`, the expression.
    pub unit: &'a str,
    /// The paths of the timer's files, in the order in which systemd reads them.
    pub files: Vec<&'a str>,
    pub expressions: Vec<ShownLine<'a>>,
    pub exceptions: Vec<ShownLine<'a>>,
    /// The other settings that decide when the timer starts a unit, and which unit that is, each as `KEY=VALUE`, and
    /// other notes about the timer.
    pub notes: Vec<&'a str>,
    /// Warnings about expressions that systemd may interpret differently or compute wrongly.
    pub warnings: Vec<String>,
    /// The last elapse at or before the present.
    pub last: Option<Instant>,
    /// The next elapses, in order.
    pub elapses: Vec<Instant>,
    /// Local times that the expressions match, and that one of the next clock changes skips or repeats.
    pub clock: Vec<ClockTime<'a>>,
    /// Whether there are more such local times than those in `clock`.
    pub has_more_clock: bool,
}

/// An expression or an exception of a timer.
#[derive(Clone, Copy)]
pub struct ShownLine<'a> {
    /// The expression as it is written.
    pub text: &'a str,
    pub expr: &'a Expr,
    /// The line of the file with the expression or exception, or `None` if the expression was given on the command
    /// line.
    pub place: Option<Place<'a>>,
}

/// A line of a file.
#[derive(Clone, Copy)]
pub struct Place<'a> {
    /// The path of the file.
    pub file: &'a str,
    /// The number of the line in this file, from 1.
    pub line: u32,
}

/// A local time that a clock change skips or repeats.
#[derive(Clone, Copy)]
pub struct ClockTime<'a> {
    /// The local time, in seconds since 1970-01-01 00:00:00 on the clock of the zone.
    pub local: i64,
    /// Whether the clock skips the local time. If not, the clock shows it twice, and only the first occurrence can be
    /// an elapse.
    pub is_skipped: bool,
    /// The name of the zone on whose clock the local time is, or `None` if this is the local zone.
    pub zone: Option<&'a str>,
}

/// An elapse in the report of `between`.
#[derive(Clone, Copy)]
pub struct UnitElapse<'a> {
    /// The name of the timer.
    pub unit: &'a str,
    pub instant: Instant,
}

/// The report of `same`: what only one of two timers has.
#[derive(Drop)]
pub struct Comparison<'a> {
    pub one: Side<'a>,
    pub other: Side<'a>,
}

/// One of two timers that are compared, and what only this timer has.
#[derive(Drop)]
pub struct Side<'a> {
    /// The name of this timer.
    pub unit: &'a str,
    /// If the name is an entry of a crontab, the expressions that it was read as, in normal form. Otherwise empty.
    pub read_as: Vec<&'a str>,
    /// The first instant at which this timer elapses and the other timer doesn't.
    pub only: Option<Instant>,
    /// The settings that this timer has and the other timer doesn't, each as `KEY=VALUE`.
    pub settings: Vec<&'a str>,
}

/// A problem in the report of `lint`.
#[derive(Clone, Copy)]
pub struct ProblemRow<'a> {
    /// The path of the file that has the problem. If the problem has no line, this can also be the name of a timer, or
    /// the path of a folder.
    pub file: &'a str,
    /// The number of the line with the problem, from 1. `None` for a problem of a timer, file or folder as a whole.
    pub line: Option<u32>,
    /// The byte of the line, counted from 1, at which the problem begins, or 1 if the problem is in a value that
    /// continues on the next line. `None` if only the line is known.
    pub column: Option<u32>,
    pub is_error: bool,
    pub message: &'a str,
    /// What to write instead, if that is known.
    pub suggestion: Option<&'a str>,
}
