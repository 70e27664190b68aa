//! The table of options: the options and the positional argument of each verb. The values that `clap` has parsed are
//! looked up by these rows, too. `--iterations` and `--base-time` are options of systemd-analyze(1); the other options
//! are this project's own.

ghost use Rattle.std.specs.Prelude.{◌≡◌, map};
ghost use Rattle.cal_options.specs.rules.Arguments.{shown_argument};
ghost use Rattle.cal_command.specs.rules.CommandLine.{verb_rules};

use cal_options::{Argument, ArgumentForm, NumberOption};
use cal_request::Verb;

pub(crate) const ITERATIONS: Argument = Argument {
    name: "iterations",
    form: ArgumentForm::Value,
    value_name: "N",
    help: "Show at most N elapses, 1 to 1000000 [default: 1]",
};

/// The numbers that `--iterations` accepts.
pub(crate) const ITERATIONS_NUMBER: NumberOption = NumberOption {
    option: ITERATIONS,
    least: 1,
    most: 1_000_000,
};

pub(crate) const BASE_TIME: Argument = Argument {
    name: "base-time",
    form: ArgumentForm::Value,
    value_name: "STAMP",
    help: "Show elapses after this timestamp [default: now]",
};

pub(crate) const LOCAL: Argument = Argument {
    name: "local",
    form: ArgumentForm::Value,
    value_name: "ZONE",
    help: "Local zone: UTC, +hh:mm, -hh:mm, posix:RULE or a{n}name from --zones [default: UTC]",
};

pub(crate) const ZONES: Argument = Argument {
    name: "zones",
    form: ArgumentForm::Value,
    value_name: "NAME=FILE,..",
    help: "Read 1 to 64 zone files [default: none]",
};

pub(crate) const NOW: Argument = Argument {
    name: "now",
    form: ArgumentForm::Value,
    value_name: "@N",
    help: "Current time in Unix seconds [default: the clock]",
};

/// The name under which `clap` stores the texts of a verb, or the path of the timer file.
pub(crate) const TEXT: &str = "text";

const EXPRESSIONS: Argument = Argument {
    name: TEXT,
    form: ArgumentForm::AtLeastOne,
    value_name: "TEXT",
    help: "Calendar expression, as in systemd.time(7)",
};

const TIMESTAMPS: Argument = Argument {
    name: TEXT,
    form: ArgumentForm::AtLeastOne,
    value_name: "TEXT",
    help: "Timestamp, as in systemd.time(7)",
};

const SPANS: Argument = Argument {
    name: TEXT,
    form: ArgumentForm::AtLeastOne,
    value_name: "TEXT",
    help: "Time span, as in systemd.time(7)",
};

const TIMER_FILE: Argument = Argument {
    name: TEXT,
    form: ArgumentForm::One,
    value_name: "FILE",
    help: "Timer file, as in systemd.timer(5)",
};

const CALENDAR_ARGUMENTS: [Argument; 6] = [ITERATIONS, BASE_TIME, LOCAL, ZONES, NOW, EXPRESSIONS];

const TIMESTAMP_ARGUMENTS: [Argument; 4] = [LOCAL, ZONES, NOW, TIMESTAMPS];

const TIMESPAN_ARGUMENTS: [Argument; 1] = [SPANS];

const TIMER_ARGUMENTS: [Argument; 6] = [ITERATIONS, BASE_TIME, LOCAL, ZONES, NOW, TIMER_FILE];

/// Returns the arguments of a verb, in the order in which the help lists them.
pub(crate) fn arguments_of(verb: Verb) -> &'static [Argument]
    ensures { map shown_argument result.now ≡ verb_rules verb }
{
    match verb {
        Verb::Calendar => &CALENDAR_ARGUMENTS,
        Verb::Timestamp => &TIMESTAMP_ARGUMENTS,
        Verb::Timespan => &TIMESPAN_ARGUMENTS,
        Verb::Timer => &TIMER_ARGUMENTS,
    }
}
