//! The table of options: the options and the positional arguments of each verb. The values that `clap` has parsed are
//! looked up by these rows, too.

ghost use Rattle.std.specs.Prelude.{◌≡◌, map};
ghost use Rattle.std.specs.List.{list_any};
ghost use Rattle.cal_options.specs.rules.Arguments.{is_value_option, shown_argument};
ghost use Rattle.cal_timers_command.specs.rules.CommandLine.{needs_value, verb_rules};

use crate::verb::Verb;
use cal_options::{Argument, ArgumentForm, NumberOption};

const COUNT: Argument = Argument {
    name: "count",
    form: ArgumentForm::ShortValue(b'n'),
    value_name: "N",
    help: "Show at most N elapses, 1 to 1000000 [default: 5]",
};

/// The numbers that `--count` accepts.
pub(crate) const COUNT_NUMBER: NumberOption = NumberOption {
    option: COUNT,
    least: 1,
    most: 1_000_000,
};

pub(crate) const ZONE: Argument = Argument {
    name: "zone",
    form: ArgumentForm::Value,
    value_name: "ZONE",
    help: "Local zone: UTC, +hh:mm, -hh:mm, posix:RULE or a zone name{n}[default: the machine's zone; for 'next', first TZ]",
};

pub(crate) const IN: Argument = Argument {
    name: "in",
    form: ArgumentForm::Value,
    value_name: "ZONE",
    help: "Show times in this zone [default: that of --zone or --utc,{n}of TZ or of the machine, in this order]",
};

/// `values.rt` checks that `--utc` isn't given together with `--zone`. `clap` could do so, but then its contract
/// wouldn't say which errors are possible: it says so only for commands whose arguments have no rules about each other.
pub(crate) const UTC: Argument = Argument {
    name: "utc",
    form: ArgumentForm::Flag,
    value_name: "",
    help: "Use UTC as the local zone",
};

pub(crate) const NOW: Argument = Argument {
    name: "now",
    form: ArgumentForm::Value,
    value_name: "@N",
    help: "Current time in Unix seconds [default: the clock]",
};

pub(crate) const ROOT: Argument = Argument {
    name: "root",
    form: ArgumentForm::Value,
    value_name: "DIR",
    help: "Look for units and zones below this directory [default: /]",
};

pub(crate) const USER: Argument = Argument {
    name: "user",
    form: ArgumentForm::Flag,
    value_name: "",
    help: "Look for the units of the user, not of the system",
};

pub(crate) const ALL: Argument = Argument {
    name: "all",
    form: ArgumentForm::ShortFlag(b'a'),
    value_name: "",
    help: "Without UNIT, FILE and DIR,{n}also take timers that no other unit starts",
};

pub(crate) const CRON: Argument = Argument {
    name: "cron",
    form: ArgumentForm::Flag,
    value_name: "",
    help: "Also take the entries of crontabs",
};

pub(crate) const STRICT: Argument = Argument {
    name: "strict",
    form: ArgumentForm::Flag,
    value_name: "",
    help: "Exit with status 1 for warnings, too",
};

pub(crate) const JSON: Argument = Argument {
    name: "json",
    form: ArgumentForm::Flag,
    value_name: "",
    help: "Print JSON",
};

/// The options that most verbs share, which the help of the program lists.
pub(crate) const SHARED: [Argument; 7] = [ZONE, UTC, IN, NOW, ROOT, USER, JSON];

/// The name under which `clap` stores the first argument of `between` or `same`.
const FIRST: &str = "first";

/// The name under which `clap` stores the second argument of `between` or `same`.
const SECOND: &str = "second";

/// The name under which `clap` stores all other targets.
const TARGET: &str = "target";

pub(crate) const ANY_TIMERS: Argument = Argument {
    name: TARGET,
    form: ArgumentForm::Any,
    value_name: "UNIT|FILE|DIR",
    help: "Unit, timer file or directory of timer files",
};

const TIMERS: Argument = Argument {
    name: TARGET,
    form: ArgumentForm::AtLeastOne,
    value_name: "UNIT|FILE|DIR",
    help: "Unit, timer file or directory of timer files",
};

const EXPRESSIONS: Argument = Argument {
    name: TARGET,
    form: ArgumentForm::AtLeastOne,
    value_name: "EXPRESSION",
    help: "Calendar expression (systemd.time(7)) or crontab entry",
};

pub(crate) const ONE_TIMER: Argument = Argument {
    name: TARGET,
    form: ArgumentForm::AtMostOne,
    value_name: "UNIT|FILE",
    help: "Unit or timer file [default: the unit in $TRIGGER_UNIT]",
};

const CRONTABS: Argument = Argument {
    name: TARGET,
    form: ArgumentForm::Any,
    value_name: "FILE|LINE",
    help: "Crontab, or line of one [default: the crontabs of the machine]",
};

/// The option `--root` of `cron`, which looks for other files than the other verbs.
const CRON_ROOT: Argument = Argument {
    name: "root",
    form: ArgumentForm::Value,
    value_name: "DIR",
    help: "Look for crontabs below this directory [default: /]",
};

pub(crate) const FROM: Argument = Argument {
    name: FIRST,
    form: ArgumentForm::One,
    value_name: "FROM",
    help: "Start of the range",
};

pub(crate) const TO: Argument = Argument {
    name: SECOND,
    form: ArgumentForm::One,
    value_name: "TO",
    help: "End of the range",
};

pub(crate) const ONE_SIDE: Argument = Argument {
    name: FIRST,
    form: ArgumentForm::One,
    value_name: "A",
    help: "Unit, timer file, calendar expression or crontab entry",
};

pub(crate) const OTHER_SIDE: Argument = Argument {
    name: SECOND,
    form: ArgumentForm::One,
    value_name: "B",
    help: "Unit, timer file, calendar expression or crontab entry",
};

const LIST_ARGUMENTS: [Argument; 10] = [
    ALL, CRON, ZONE, UTC, IN, NOW, ROOT, USER, JSON, ANY_TIMERS,
];

const LINT_ARGUMENTS: [Argument; 9] = [ALL, STRICT, ZONE, UTC, NOW, ROOT, USER, JSON, ANY_TIMERS];

const SHOW_ARGUMENTS: [Argument; 9] = [COUNT, ZONE, UTC, IN, NOW, ROOT, USER, JSON, TIMERS];

const BETWEEN_ARGUMENTS: [Argument; 12] = [
    FROM, TO, ALL, CRON, ZONE, UTC, IN, NOW, ROOT, USER, JSON, ANY_TIMERS,
];

const SAME_ARGUMENTS: [Argument; 9] = [ONE_SIDE, OTHER_SIDE, ZONE, UTC, IN, NOW, ROOT, USER, JSON];

const NEXT_ARGUMENTS: [Argument; 8] = [COUNT, ZONE, UTC, IN, NOW, ROOT, JSON, EXPRESSIONS];

const DUE_ARGUMENTS: [Argument; 8] = [ZONE, UTC, IN, NOW, ROOT, USER, JSON, ONE_TIMER];

const CRON_ARGUMENTS: [Argument; 3] = [CRON_ROOT, JSON, CRONTABS];

/// Returns whether the argument is an option, of any verb, whose value is the next argument.
pub(crate) fn needs_value(argument: &str) -> bool
    ensures { result ≡ needs_value argument.now }
{
    Verb::ALL
        .iter()
        .any(|verb| is_value_option_of(*verb, argument))
}

/// Returns whether the argument is an option of the verb whose value is the next argument.
fn is_value_option_of(verb: Verb, argument: &str) -> bool
    ensures { result ≡ list_any (is_value_option argument.now) (verb_rules verb) }
{
    cal_options::needs_value(arguments_of(verb), argument)
}

/// Returns the arguments of a verb, in the order in which the help lists them.
pub(crate) fn arguments_of(verb: Verb) -> &'static [Argument]
    ensures { map shown_argument result.now ≡ verb_rules verb }
{
    match verb {
        Verb::List => &LIST_ARGUMENTS,
        Verb::Lint => &LINT_ARGUMENTS,
        Verb::Show => &SHOW_ARGUMENTS,
        Verb::Between => &BETWEEN_ARGUMENTS,
        Verb::Same => &SAME_ARGUMENTS,
        Verb::Next => &NEXT_ARGUMENTS,
        Verb::Due => &DUE_ARGUMENTS,
        Verb::Cron => &CRON_ARGUMENTS,
    }
}
