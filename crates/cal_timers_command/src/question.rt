//! What the arguments ask: a question, and the options that most verbs share.

ghost use Rattle.std.specs.Option.{ForSome};
ghost use Rattle.cal_zone.specs.rules.Instant.{IsInstant};

/// What the arguments ask.
#[derive(Drop)]
pub struct Command {
    pub question: Question,
    pub options: Options,
}

/// A question, with what its verb needs.
#[derive(Drop)]
pub enum Question {
    /// When timers elapse next. `timers` are units, files and folders. If there are none, the question is about the
    /// units that other units start or, if `is_all` (`--all`), about all units. If `is_cron` (`--cron`), it is also about
    /// the entries of the machine's crontabs.
    List {
        timers: Vec<String>,
        is_all: bool,
        is_cron: bool,
    },
    /// What the files of timers say, and when the timers elapse next. `timers` are one or more units, files and
    /// folders. `count` is the maximum number of elapses, from 1 to 1,000,000: the value of `--count`, or 5 if the
    /// option isn't given.
    Show {
        timers: Vec<String>,
        count: u32,
    },
    /// Which errors and likely mistakes the files of timers have. `timers` and `is_all` are those of
    /// [`Question::List`]. If `is_strict` (`--strict`), warnings give status 1, too.
    Lint {
        timers: Vec<String>,
        is_all: bool,
        is_strict: bool,
    },
    /// All elapses of timers in a time range, which starts at `from` and ends at `to`. The form of these two times isn't
    /// checked. `timers`, `is_all` and `is_cron` are those of [`Question::List`].
    Between {
        from: String,
        to: String,
        timers: Vec<String>,
        is_all: bool,
        is_cron: bool,
    },
    /// Whether two timers elapse at the same instants. Each is a unit, a file, a calendar expression or
    /// an entry of a crontab.
    Same {
        one: String,
        other: String,
    },
    /// When calendar expressions elapse next. `expressions` are one or more expressions and entries of crontabs. `count`
    /// is that of [`Question::Show`].
    Next {
        expressions: Vec<String>,
        count: u32,
    },
    /// Whether the run of a service that starts now is due. `timer` is a unit or a file. If it is `None`, the question
    /// is about the unit in `$TRIGGER_UNIT`.
    Due {
        timer: Option<String>,
    },
    /// Which settings of timers the entries of crontabs stand for. `crontabs` are files, and lines of crontabs. If there
    /// are none, the question is about the crontabs of the machine.
    Cron {
        crontabs: Vec<String>,
    },
}

/// The options that most verbs share.
#[derive(Drop)]
pub struct Options {
    /// The value of `--zone`, or `UTC` if `--utc` is given. The value isn't empty, and its form isn't checked. If
    /// neither option is given, this is `None`: the local zone is the machine's or, for `next`, that of `TZ` if it is
    /// set.
    pub zone: Option<String>,
    /// The value of `--in`: the zone in which times are shown. The value isn't empty, and its form isn't checked. If
    /// the option isn't given, this is `None`. `lint` and `cron` don't have this option.
    pub shown_in: Option<String>,
    /// The value of `--now`: the present, in seconds of Unix time, from 0 to 7,258,211,998. If the option isn't given,
    /// this is `None`, which stands for the system's clock.
    pub now: Option<i64>,
    /// The value of `--root`: a folder. If the option isn't given, this is an empty string, which stands for the root
    /// of the machine itself.
    pub root: String,
    /// Whether `--user` is given, so that the units are those of the user instead of those of the system. `next` and
    /// `cron` don't have this option.
    pub is_user: bool,
    /// Whether `--json` is given, so that the answer is printed as JSON.
    pub is_json: bool,
    ghost timed: { ForSome now IsInstant },
}
