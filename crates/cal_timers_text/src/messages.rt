//! Messages about the lines and the settings in a timer's files, and about the unit that the timer starts.

ghost use Rattle.std.specs.Prelude.{◌≡◌, ◌++◌, IfOk, OnOk, codes, string_bytes};
ghost use Rattle.cal_timers_text.specs.rules.FlawWords.{flaw_words, loss_words};
ghost use Rattle.cal_timers_text.specs.rules.Messages.{ambiguity_words, finding_message, idle_message, ignored_setting_message, invalid_message, missing_unit_message, mistake_words, reason_of, rejection_words, section_name, start_of, value_words};

use cal_lint::{Ambiguity, Mistake, OpenStepFlaw, Problem, Rejection, Section};
use cal_load::WhyIgnored;
use cal_spec::Field;
use cal_tasks::IdleKind;
use cal_timer::{KeyKind, TimerFault};
use cal_timers_report::push_printable;
use std::alloc::{AllocError, Global};

/// How messages about invalid expressions begin.
const INVALID_EXPRESSION: &str = "not a valid calendar expression: ";

/// Returns the message about a problem. If an expression is invalid, the message says why: it describes `mistake` if
/// the expression resembles a known mistake, and otherwise the error.
pub fn message_of(
    alloc: Global,
    problem: Problem,
    mistake: Option<Mistake>,
) -> Result<String, AllocError>
    ensures { IfOk result (λ message. string_bytes message ≡ finding_message problem mistake) }
{
    let mut message = String::new(alloc);
    push_message(&mut message, problem, mistake)?;
    Ok(message)
}

/// Appends the message that [`message_of`] returns.
#[tactic(auto, unfolding(crate::specs::rules::Messages::finding_message))]
pub(crate) fn push_message(
    out: &mut String,
    problem: Problem,
    mistake: Option<Mistake>,
) -> Result<(), AllocError>
    ensures { OnOk result (string_bytes out.new ≡ string_bytes out.old ++ finding_message problem mistake) }
{
    match problem {
        Problem::Invalid(fault) => push_invalid(out, fault, mistake),
        Problem::UnknownKey(section) => push_unknown_key(out, section),
        Problem::Rejected(rejection) => {
            out.push_str("systemd 252 doesn't accept ")?;
            out.push_str(rejection_words(rejection))
        }
        Problem::Ambiguous(ambiguity) => out.push_str(ambiguity_words(ambiguity)),
        Problem::BadHeader => out.push_str("bad section header, at which systemd stops reading"),
        Problem::UnknownSection => out.push_str("unknown section, which systemd ignores"),
        Problem::OutsideSection => {
            out.push_str("a line before the first section, which systemd ignores")
        }
        Problem::NoEquals => out.push_str("a line without =, which systemd ignores"),
        Problem::NoKey => out.push_str("nothing before the =, so systemd ignores the line"),
        Problem::BadUnitName => {
            out.push_str(
                "a name isn't that of a unit, or an alias not that of a timer, so systemctl enable fails",
            )
        }
        Problem::IgnoredValue(kind) => {
            out.push_str(value_words(kind))?;
            out.push_str(", so systemd ignores the line")
        }
        Problem::OpenStep(flaw) => out.push_str(flaw_words(flaw)),
        Problem::NoInstanceFits => {
            out.push_str("invalid expression: not valid for any usual instance")
        }
    }
}

fn push_unknown_key(out: &mut String, section: Section) -> Result<(), AllocError>
    ensures { OnOk result (string_bytes out.new ≡ string_bytes out.old ++ (codes "unknown key in section [" ++ (section_name section ++ codes "]"))) }
{
    out.push_str("unknown key in section [")?;
    out.push_str(section_name(section))?;
    out.push(']')
}

#[tactic(auto, unfolding(crate::specs::rules::Messages::section_name))]
fn section_name(section: Section) -> &'static str
    ensures { result.now ≡ section_name section }
{
    match section {
        Section::Unit => "Unit",
        Section::Timer => "Timer",
        Section::Install => "Install",
    }
}

/// Returns the message about an expression whose elapses systemd 252 computes wrongly because of a step without an end.
#[tactic(auto, unfolding(crate::specs::rules::FlawWords::flaw_words))]
pub(crate) fn flaw_words(flaw: OpenStepFlaw) -> &'static str
    ensures { result.now ≡ flaw_words flaw }
{
    match flaw {
        OpenStepFlaw::LosesElapses(field) => loss_words(field),
        OpenStepFlaw::FailsAtClockChanges(_) => {
            "systemd 252 may fail before a clock change: give the step an end, such as 2..23/12 for hours"
        }
        OpenStepFlaw::FailsAtMidnightChanges => {
            "systemd 252 may fail where the clock is set forward at midnight: give the step an end, as in 0..23/6"
        }
    }
}

fn loss_words(field: Field) -> &'static str
    ensures { result.now ≡ loss_words field }
{
    match field {
        Field::Year | Field::Month => "systemd 252 loses elapses: give the step an end",
        Field::Day => {
            "systemd 252 loses elapses in January: give the step of the days an end, as in 1..31/8"
        }
        Field::Hour => {
            "systemd 252 loses elapses on the first day of a month: give the step of the hours an end, as in 0..23/5"
        }
        Field::Minute => {
            "systemd 252 loses elapses at the start of a day: give the step of the minutes an end, as in 0..59/7"
        }
        Field::Second => {
            "systemd 252 loses elapses at the start of an hour: give the step of the seconds an end, as in 0..59/7"
        }
    }
}

/// Returns what is wrong with a value that systemd doesn't accept for a setting of this kind, as the start of a
/// message.
#[tactic(auto, unfolding(crate::specs::rules::Messages::value_words))]
fn value_words(kind: KeyKind) -> &'static str
    ensures { result.now ≡ value_words kind }
{
    match kind {
        KeyKind::SpanTrigger | KeyKind::Delay | KeyKind::Accuracy => "not a time span",
        KeyKind::ChangeTrigger | KeyKind::TimingBoolean | KeyKind::OtherBoolean => "not a boolean",
        KeyKind::CalendarTrigger | KeyKind::Exception => "not a calendar expression",
        KeyKind::StartedUnit => "not the name of a unit",
    }
}

fn push_invalid(
    out: &mut String,
    fault: TimerFault,
    mistake: Option<Mistake>,
) -> Result<(), AllocError>
    ensures { OnOk result (string_bytes out.new ≡ string_bytes out.old ++ (start_of fault ++ reason_of fault mistake)) }
{
    push_start(out, fault)?;
    match mistake {
        Some(mistake) => out.push_str(mistake_words(mistake)),
        None => out.push_str(fault.words()),
    }
}

/// Appends what precedes the message of an error: [`INVALID_EXPRESSION`] if an expression is invalid, and otherwise
/// nothing.
fn push_start(out: &mut String, fault: TimerFault) -> Result<(), AllocError>
    ensures { OnOk result (string_bytes out.new ≡ string_bytes out.old ++ start_of fault) }
{
    match fault {
        TimerFault::BadLine(_, _) => out.push_str(INVALID_EXPRESSION),
        _ => Ok(()),
    }
}

/// Returns the message that an expression is invalid, with the reason `why`.
pub fn invalid_words(alloc: Global, why: &str) -> Result<String, AllocError>
    ensures { IfOk result (λ message. string_bytes message ≡ invalid_message why.now) }
{
    format!(in alloc; "{INVALID_EXPRESSION}{why}")
}

/// Returns what an invalid expression looks like, or what is wrong with it, as the end of a message.
#[tactic(auto, unfolding(crate::specs::rules::Messages::mistake_words))]
pub fn mistake_words(mistake: Mistake) -> &'static str
    ensures { result.now ≡ mistake_words mistake }
{
    match mistake {
        Mistake::Assignment => "a setting, not only its value",
        Mistake::Comment => "a comment has to be on a line of its own",
        Mistake::Now => "'now' is a timestamp",
        Mistake::Span => "a time span, which belongs in a setting such as OnUnitActiveSec=",
        Mistake::Crontab => "the fields of a crontab",
        Mistake::TwelveHours => "hours are counted from 0 to 23, without am and pm",
        Mistake::Point => "hours and minutes are separated by a colon",
        Mistake::BareHour => "an hour without minutes",
        Mistake::ShortOffset => "a UTC offset, which systemd doesn't accept as the zone",
        Mistake::YearMonth => "a year and a month without a day",
        Mistake::Weekday => "unknown weekday",
        Mistake::Shorthand => "unknown shorthand",
    }
}

/// Returns what systemd 252 doesn't accept, as the end of a message.
#[tactic(auto, unfolding(crate::specs::rules::Messages::rejection_words))]
fn rejection_words(rejection: Rejection) -> &'static str
    ensures { result.now ≡ rejection_words rejection }
{
    match rejection {
        Rejection::Tab => "tabs in an expression",
        Rejection::Blanks => "spaces at the start or the end of an expression, or two in a row",
        Rejection::PastSunday => "a range of weekdays that runs past Sunday",
        Rejection::OneSecond => "a range of seconds that ends where it starts",
        Rejection::SecondStep => "a step above 2147 in a range of seconds",
        Rejection::DaysFromEnd => "days so far from the end of the month",
        Rejection::Offset => "a UTC offset as the zone",
        Rejection::ZoneName => "a zone whose name ends in / or contains //",
    }
}

#[tactic(auto, unfolding(crate::specs::rules::Messages::ambiguity_words))]
fn ambiguity_words(ambiguity: Ambiguity) -> &'static str
    ensures { result.now ≡ ambiguity_words ambiguity }
{
    match ambiguity {
        Ambiguity::HourRange => "this is an hour and a range of minutes, not a range of times",
        Ambiguity::HourList => "this is an hour and a list of minutes, not a list of times",
        Ambiguity::MonthDay => "this is a month and a day, not a range of weekdays",
        Ambiguity::Abbreviation => {
            "this is an abbreviation, which systemd may take for winter time or summer time only"
        }
    }
}

/// Returns the message about a setting that systemd ignores in a timer.
#[tactic(auto, unfolding(crate::specs::rules::Messages::ignored_setting_message))]
pub fn ignored_setting_words(alloc: Global, why: WhyIgnored) -> Result<String, AllocError>
    ensures { IfOk result (λ message. string_bytes message ≡ ignored_setting_message why) }
{
    match why {
        WhyIgnored::BadValue(kind) => {
            let words = value_words(kind);
            format!(in alloc;
                "{words} once its specifiers are filled in, so systemd ignores the line"
            )
        }
        WhyIgnored::OwnName => String::from_str(
            alloc,
            "systemd ignores this line, as a timer can't start itself",
        ),
        WhyIgnored::SecondUnit => String::from_str(
            alloc,
            "systemd ignores this line, as an earlier Unit= counts",
        ),
    }
}

/// Returns the message about a timer that starts the unit with this name, if this unit has no file in the search path.
#[tactic(auto, unfolding(crate::specs::rules::Messages::missing_unit_message))]
pub fn missing_unit_words(alloc: Global, unit: &str) -> Result<String, AllocError>
    ensures { IfOk result (λ message. string_bytes message ≡ missing_unit_message unit.now) }
{
    let mut out = String::new(alloc);
    push_printable(&mut out, unit)?;
    out.push_str(" has no file in the search path, so systemd refuses to start the timer")?;
    Ok(out)
}

/// Returns the message about an expression that never elapses, an expression for which systemd 252 fails before a
/// midnight that clocks skip, or an exception that suppresses nothing.
#[tactic(auto, unfolding(crate::specs::rules::Messages::idle_message))]
pub fn idle_words(kind: IdleKind) -> &'static str
    ensures { result.now ≡ idle_message kind }
{
    match kind {
        IdleKind::NeverElapses => "the expression never elapses",
        IdleKind::StopsAtMidnight => flaw_words(OpenStepFlaw::FailsAtMidnightChanges),
        IdleKind::SuppressesNothing => "the exception suppresses none of the next 10,000 elapses",
    }
}
