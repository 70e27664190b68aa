//! The usage of the program, what each verb does, and the text below the options in each help text. `clap` prints a
//! line break for `{n}`.

use crate::verb::Verb;

/// What the help says about one verb.
#[derive(Clone, Copy)]
pub(crate) struct VerbHelp {
    /// What the verb does, in one line.
    pub(crate) about: &'static str,
    /// What the help says below the options: notes, examples and statuses.
    pub(crate) notes: &'static str,
}

pub(crate) fn help_of(verb: Verb) -> VerbHelp {
    match verb {
        Verb::List => VerbHelp {
            about: "List the next elapse of each timer, soonest first (the default verb)",
            notes: LIST,
        },
        Verb::Show => VerbHelp {
            about: "Show the files of timers, their expressions and next elapses",
            notes: SHOW,
        },
        Verb::Lint => VerbHelp {
            about: "Check timer files for errors and likely mistakes",
            notes: LINT,
        },
        Verb::Between => VerbHelp {
            about: "List all elapses of timers in a time range",
            notes: BETWEEN,
        },
        Verb::Same => VerbHelp {
            about: "Check whether two timers elapse at the same instants",
            notes: SAME,
        },
        Verb::Next => VerbHelp {
            about: "Show when calendar expressions next elapse",
            notes: NEXT,
        },
        Verb::Due => VerbHelp {
            about: "Check whether the run that starts now is due, for ExecCondition=",
            notes: DUE,
        },
        Verb::Cron => VerbHelp {
            about: "Translate the entries of crontabs to timer settings",
            notes: CRON,
        },
    }
}

/// The usage of the program. `clap` can't generate it, since `clap` doesn't know that arguments without a verb are
/// those of `list`.
pub(crate) const USAGE: &str =
    "calendar-timers [OPTIONS] [UNIT|FILE|DIR]...\n       calendar-timers VERB [OPTIONS] [ARGUMENT]...";

pub(crate) const PROGRAM: &str =
    "Without a verb, the timers are listed. See 'calendar-timers VERB --help' for the{n}arguments and options of a verb.{n}{n}Examples:{n}  calendar-timers{n}  calendar-timers show backup{n}  calendar-timers lint ./units{n}  calendar-timers between 'Fri 18:00' 'Mon 06:00'{n}  calendar-timers next 'Mon..Fri 09:00'{n}{n}Exit status:{n}  0  success{n}  1  a timer is invalid, lint found an error, or two timers differ{n}  2  the command line, the root, a zone or a timer of 'same' is invalid{n}'due' has statuses of its own, which its help lists.";

const LIST: &str =
    "Without arguments, the timers that other units start are listed, and with --all{n}the others, too. With --cron, the entries of the machine's crontabs are listed{n}as well, each as FILE:LINE with its command.{n}You can omit '.timer' from the name of a UNIT. Write './backup.timer' for a FILE{n}in the current directory.{n}Put '--' before a name that begins with '-'. Join a value that begins with '-'{n}to its option with '=', as in --zone=-05:00.{n}{n}Examples:{n}  calendar-timers{n}  calendar-timers list --cron{n}  calendar-timers list --utc backup ./clean.timer{n}  calendar-timers list --root=/mnt --json";

const SHOW: &str =
    "You can omit '.timer' from the name of a UNIT. Write './backup.timer' for a FILE{n}in the current directory.{n}Put '--' before a name that begins with '-'. Join a value that begins with '-'{n}to its option with '=', as in --zone=-05:00.{n}{n}Examples:{n}  calendar-timers show backup{n}  calendar-timers show -n 10 --zone=Europe/Berlin ./backup.timer";

const LINT: &str =
    "Without arguments, the timers that other units start are checked, and with --all{n}the others, too. In a DIR, all '*.timer' and '*.conf' files are checked.{n}A FILE can be a crontab. You can omit '.timer' from the name of a UNIT. Write{n}'./backup.timer' for a FILE in the current directory.{n}Put '--' before a name that begins with '-'. Join a value that begins with '-'{n}to its option with '=', as in --zone=-05:00.{n}{n}Examples:{n}  calendar-timers lint{n}  calendar-timers lint backup ./units{n}  calendar-timers lint --strict --json ./clean.timer{n}{n}Exit status:{n}  0  no errors; there may be warnings, unless --strict is given{n}  1  an error was found or, with --strict, a warning{n}  2  the command line, the root or a zone is invalid";

const BETWEEN: &str =
    "FROM and TO are timestamps, as in systemd.time(7), or weekdays with a time, such{n}as 'Fri 18:00'. An elapse at FROM is listed, and one at TO is not.{n}Without more arguments, the elapses of the timers that other units start are{n}listed, and with --all those of the others, too. With --cron, the runs of the{n}entries of the machine's crontabs are listed as well, by FILE:LINE.{n}Put '--' before an argument that begins with '-'. Join a value that begins with{n}'-' to its option with '=', as in --zone=-05:00.{n}{n}Examples:{n}  calendar-timers between 'Fri 18:00' 'Mon 06:00'{n}  calendar-timers between --cron 'Fri 18:00' 'Mon 06:00'{n}  calendar-timers between today tomorrow backup logrotate{n}  calendar-timers between --json 2026-12-24 2027-01-02 ./units";

const SAME: &str =
    "The elapses after the current time and through 2199 are compared. Settings that{n}only one of the timers has, such as OnBootSec=, are listed, too, but don't make{n}them differ.{n}Put '--' before an argument that begins with '-'. Join a value that begins with{n}'-' to its option with '=', as in --zone=-05:00.{n}{n}Examples:{n}  calendar-timers same backup ./backup.timer{n}  calendar-timers same 'Mon..Fri 09:00' 'Mon,Tue,Wed,Thu,Fri 9:00'{n}  calendar-timers same '30 2 * * 1-5' backup{n}{n}Exit status:{n}  0  the timers elapse at the same instants{n}  1  they differ, or a line, a drop-in or a directory of units can't be used{n}  2  one of them is neither a single valid timer nor a valid expression or{n}     crontab entry, or the command line, the root or a zone is invalid";

const NEXT: &str =
    "Join a value that begins with '-' to its option with '=', as in --zone=-05:00.{n}{n}Examples:{n}  calendar-timers next 'Mon..Fri 09:00'{n}  calendar-timers next -n 3 --utc weekly '*-*-1..7 18:00:00'{n}  calendar-timers next '30 2 * * 1-5'";

const DUE: &str =
    "For a service whose timer has exceptions, write in its file, with the path of{n}this program:{n}  [Service]{n}  ExecCondition=/usr/bin/calendar-timers due{n}The run is skipped only if every elapse of OnCalendar= that it may be for is an{n}exception: the last one, and those within AccuracySec= and RandomizedDelaySec={n}before the run.{n}Without UNIT and FILE, the timer is the one in $TRIGGER_UNIT, which systemd sets{n}if a timer starts the service (systemd.exec(5)). If it isn't set, or doesn't{n}name a timer, the run is due.{n}{n}Examples:{n}  calendar-timers due{n}  calendar-timers due backup{n}  calendar-timers due --now=@1798162200 --json backup{n}{n}Exit status:{n}    0  the run is due{n}    1  it isn't due: it can only be for exceptions{n}  255  there was an error";

const CRON: &str =
    "Without arguments, the crontabs of the machine are read: /etc/crontab, those in{n}/etc/cron.d and, if they can be read, those in /var/spool/cron/crontabs. An{n}argument that begins with '@', or has a blank and doesn't begin with '/' or '.',{n}is a LINE of a crontab, and any other is a FILE. Only /etc/crontab and files in{n}/etc/cron.d name a user after the time. Commands are only shown.{n}{n}Examples:{n}  calendar-timers cron{n}  calendar-timers cron '0 9 * * 1-5' @daily{n}  calendar-timers cron --root=/mnt /etc/crontab{n}{n}Exit status:{n}  0  each entry was translated{n}  1  an entry is invalid, or a file or directory can't be read{n}  2  the command line or the root is invalid";
