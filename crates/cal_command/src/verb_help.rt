//! The texts of the help. In all of them `{n}` begins a new line.

use cal_request::Verb;

/// A verb, and what its help says about it.
#[derive(Clone, Copy)]
pub(crate) struct VerbHelp {
    pub(crate) verb: Verb,
    /// What the verb does, in one line.
    pub(crate) about: &'static str,
    /// What the help says below the options: notes and examples.
    pub(crate) notes: &'static str,
}

/// The texts for `calendar-analyze VERB --help`, in the order in which the help of the program lists the verbs. That help
/// shows only `about`.
pub(crate) const VERB_HELPS: [VerbHelp; 4] = [
    VerbHelp {
        verb: Verb::Calendar,
        about: "Parse calendar expressions and show when they next elapse",
        notes: CALENDAR_NOTES,
    },
    VerbHelp {
        verb: Verb::Timestamp,
        about: "Parse timestamps and show the instants they resolve to",
        notes: TIMESTAMP_NOTES,
    },
    VerbHelp {
        verb: Verb::Timespan,
        about: "Parse time spans and show how long they are",
        notes: TIMESPAN_NOTES,
    },
    VerbHelp {
        verb: Verb::Timer,
        about: "Parse a timer file and show when the timer next elapses",
        notes: TIMER_NOTES,
    },
];

/// What the help of the program says below the list of the verbs.
pub(crate) const STATUSES: &str =
    "Exit status:{n}  0  success{n}  1  an input or the base time is invalid, output failed or memory ran out{n}  2  the command line, a zone file, the local zone or the clock is invalid{n}{n}See 'calendar-analyze VERB --help' for the options of a verb.";

const CALENDAR_NOTES: &str =
    "A TEXT may end in its zone: UTC, +hh:mm, -hh:mm or a name from --zones.{n}TZ is ignored, and the machine's zone is used only if you name its file, as in{n}the last example.{n}Put '--' before a TEXT that begins with '-'. Join a value that begins with '-'{n}to its option with '=', as in --base-time=-1d.{n}{n}Examples:{n}  calendar-analyze calendar --iterations=3 'Mon..Fri 09:00'{n}  calendar-analyze calendar --zones=here=/etc/localtime --local=here daily";

const TIMESTAMP_NOTES: &str =
    "A TEXT may end in its zone: UTC, +hh:mm, -hh:mm or a name from --zones.{n}TZ is ignored, and the machine's zone is used only if you name its file, as in{n}the last example.{n}Put '--' before a TEXT that begins with '-'. Join a value that begins with '-'{n}to its option with '=', as in --local=-05:00.{n}{n}Examples:{n}  calendar-analyze timestamp --local=+01:00 'today' '@1395716396' -- -5min{n}  calendar-analyze timestamp --zones=here=/etc/localtime --local=here now";

const TIMESPAN_NOTES: &str = "Example:{n}  calendar-analyze timespan '1h 30min' 300s";

const TIMER_NOTES: &str =
    "TZ is ignored, and the machine's zone is used only if you name its file, as in{n}the last example.{n}Put '--' before a FILE that begins with '-'. Join a value that begins with '-'{n}to its option with '=', as in --base-time=-1d.{n}{n}Examples:{n}  calendar-analyze timer --iterations=5 backup.timer{n}  calendar-analyze timer --zones=here=/etc/localtime --local=here backup.timer";
