//! The output of `lint` about timers with exceptions that systemd ignores, or may ignore.

ghost use Rattle.std.specs.Prelude.{◌≡◌, ◌++◌, IfOk, OnOk, codes, option_map, string_bytes};
ghost use Rattle.cal_timers_text.specs.rules.ServiceText.{condition_line, service_suggestion, suggestion_line, unguarded_lines, unguarded_message};

use crate::finding_lines::problem_text;
use cal_lint::ProblemKind;
use cal_tasks::GuardFlaw;
use cal_timers_report::Style;
use std::alloc::{AllocError, Global};

/// Returns the message about a timer with exceptions whose guard has this flaw. The caller chooses the lifetime, since
/// the prover can't shorten `'static`.
#[tactic(auto, unfolding(crate::specs::rules::ServiceText::unguarded_message))]
pub fn unguarded_message<'a>(flaw: GuardFlaw) -> &'a str
    ensures { result.now ≡ unguarded_message flaw }
{
    match flaw {
        GuardFlaw::Missing => {
            "systemd ignores the exceptions, as no ExecCondition= of the service runs calendar-timers due"
        }
        GuardFlaw::Unknown => {
            "it's unclear whether an ExecCondition= of the service runs calendar-timers due"
        }
        GuardFlaw::FailureAccepted => {
            "systemd ignores the exceptions, as SuccessExitStatus= of the service accepts the status 1 of calendar-timers due"
        }
    }
}

/// Returns the line that a service with this flaw needs, so that it starts only if a run is due. Returns `None` if the
/// service has that line already. `is_user` says whether the service is a unit of a user.
pub fn service_suggestion<'a>(flaw: GuardFlaw, is_user: bool) -> Option<&'a str>
    ensures { option_map (λ line. line.now) result ≡ service_suggestion flaw is_user }
{
    match flaw {
        GuardFlaw::Missing | GuardFlaw::Unknown => Some(condition_line(is_user)),
        GuardFlaw::FailureAccepted => None,
    }
}

#[tactic(auto, unfolding(crate::specs::rules::ServiceText::condition_line))]
fn condition_line<'a>(is_user: bool) -> &'a str
    ensures { result.now ≡ condition_line is_user }
{
    if is_user {
        "ExecCondition=/usr/bin/calendar-timers due --user"
    } else {
        "ExecCondition=/usr/bin/calendar-timers due"
    }
}

/// Returns the lines about a timer with exceptions whose guard has this flaw: the warning, and the line that the
/// service needs. `path` is the path of the timer's own file.
#[tactic(auto, unfolding(crate::specs::rules::ServiceText::unguarded_lines))]
pub fn unguarded_text(
    alloc: Global,
    path: &str,
    flaw: GuardFlaw,
    is_user: bool,
    style: Style,
) -> Result<String, AllocError>
    ensures { IfOk result (λ lines. string_bytes lines ≡ unguarded_lines style flaw is_user path.now) }
{
    let mut out = problem_text(
        alloc,
        path,
        None,
        ProblemKind::Warning,
        unguarded_message(flaw),
        style,
    )?;
    push_suggestion(&mut out, service_suggestion(flaw, is_user))?;
    Ok(out)
}

/// Appends the line that says what to add to the service, if there is something to add.
fn push_suggestion(out: &mut String, suggestion: Option<&str>) -> Result<(), AllocError>
    ensures { OnOk result (string_bytes out.new
        ≡ string_bytes out.old ++ suggestion_line (option_map (λ line. line.now) suggestion.entry)) }
{
    match suggestion {
        Some(line) => push_line(out, line),
        None => Ok(()),
    }
}

fn push_line(out: &mut String, line: &str) -> Result<(), AllocError>
    ensures { OnOk result (string_bytes out.new
        ≡ string_bytes out.old ++ (codes "  add to the service: " ++ (line.now ++ codes "\n"))) }
{
    out.push_str("  add to the service: ")?;
    out.push_str(line)?;
    out.push('\n')
}
