//! What is read to answer a question.

use crate::crontab_timers::CrontabTimers;
use crate::local_clock::LocalClock;
use crate::range_zones::RangeZones;
use cal_crontabs::Crontabs;
use cal_load::{Loaded, LoadedFiles};
use cal_tasks::{BootTime, UnguardedTimer};
use cal_unit_index::UnitIndex;
use cal_zone::Instant;

/// What was found when reading all that the answer to a question depends on.
#[derive(Drop)]
pub enum Found<'q> {
    /// The question can't be answered, for this reason.
    Unanswerable(String),
    /// All that the answer depends on, apart from the options and the style of the output.
    Answerable(Known<'q>),
}

/// All that the answer to a question depends on, apart from the options and the style of the output.
#[derive(Drop)]
pub struct Known<'q> {
    /// The present: that of the command, or else the time at which the timer triggered the run that `due` checks, or else
    /// that of the clock.
    pub now: Instant,
    /// The local zone: the zone of expressions that name no zone.
    pub local: LocalClock,
    /// The zone in which times are shown.
    pub shown: LocalClock,
    /// The timer that `due` is about, or `None` if it is about no timer. `None` for the other verbs.
    pub about: Option<String>,
    /// The boot time that counts for the run that `due` checks.
    pub boot: BootTime,
    /// The zones that the start and the end of a range can name.
    pub range: RangeZones,
    /// The index of the units' search path, or an empty index if no unit is needed.
    pub index: UnitIndex,
    /// What was loaded for the question.
    pub loaded: LoadedByVerb<'q>,
    /// For `list`, `show` and `lint`, the timers whose exceptions systemd ignores. Empty for the other verbs.
    pub unguarded: Vec<UnguardedTimer>,
}

/// What was loaded for a question, with the parts of the question that the answer needs. `named` are the units, files and
/// folders that the question names.
#[derive(Drop)]
pub enum LoadedByVerb<'q> {
    List {
        timers: Loaded,
        named: &'q [String],
        /// Whether `--all` is given.
        is_all: bool,
        /// The entries of crontabs, if `--cron` is given.
        entries: Option<CrontabTimers>,
    },
    Show {
        timers: Loaded,
        named: &'q [String],
        /// The maximum number of elapses to show.
        count: u32,
    },
    Lint {
        /// The files, not parsed.
        files: LoadedFiles,
        /// The timers. A drop-in that is named is only among the files.
        timers: Loaded,
        /// The crontabs that are named. They are neither among the files nor among the timers.
        crontabs: Crontabs,
        named: &'q [String],
        /// Whether a warning gives the status 1.
        is_strict: bool,
    },
    Between {
        timers: Loaded,
        named: &'q [String],
        /// The text of the range's start.
        from: &'q str,
        /// The text of the range's end.
        to: &'q str,
        /// The entries of crontabs, if `--cron` is given.
        entries: Option<CrontabTimers>,
    },
    Same {
        first: Loaded,
        /// The argument for which `first` was loaded.
        one: &'q str,
        second: Loaded,
        /// The argument for which `second` was loaded.
        other: &'q str,
    },
    Next {
        timers: Loaded,
        expressions: &'q [String],
        /// The maximum number of elapses to show.
        count: u32,
    },
    Due {
        /// The timer that is named or, if none is, the timer that started the service. `None` if there is neither.
        timer: Option<Loaded>,
        named: Option<&'q str>,
    },
    Cron {
        crontabs: Crontabs,
        /// The files and lines of crontabs that are named.
        named: &'q [String],
    },
}
