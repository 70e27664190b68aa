//! Warnings of `show` and `next` about expressions that systemd may interpret differently or compute wrongly.

ghost use Rattle.std.specs.Prelude.{◌≡◌, ◌++◌, IfOk, OnOk, map, option_copied, string_bytes};
ghost use Rattle.cal_load.specs.rules.CalendarZones.{expressions_in};
ghost use Rattle.cal_tasks.specs.rules.LoadedElapses.{setting_for};
ghost use Rattle.cal_timer.specs.rules.TimerView.{shown};
ghost use Rattle.cal_timers_text.specs.rules.Warnings.{abbreviation_warning, flaw_warnings, midnight_flaw, warnings_in, warnings_on, zone_warnings};

use crate::messages::flaw_words;
use cal_lint::{OpenStepFlaw, looks_like_abbreviation, open_step_flaw, reported_flaw};
use cal_load::LoadedTimer;
use cal_tasks::{Present, stops_at_midnight};
use cal_timer::TimerLine;
use std::alloc::{AllocError, Global};

/// How the warning about an abbreviation ends.
const ABBREVIATION: &str =
    " is an abbreviation, which systemd may take for winter time or summer time only; write the name of a zone, such as Europe/Berlin";

/// Returns warnings about the calendar expressions of the timer, in order. An expression has a warning if its zone
/// looks like an abbreviation, since systemd may take it for winter time or summer time only. It has another warning if
/// systemd 252 computes its elapses wrongly because of a step without an end ([`reported_flaw`]), and another if
/// systemd 252 fails because clocks in its zone skip a midnight of the next three years ([`stops_at_midnight`]). Fails
/// only if allocation fails.
pub fn warnings_of(
    alloc: Global,
    at: Present<'_>,
    timer: &LoadedTimer,
) -> Result<Vec<String>, AllocError>
    ensures { IfOk result (λ found. map string_bytes found.items
        ≡ warnings_in (setting_for at.entry timer.now) at.entry.now.secs (expressions_in timer.now.calendar)) }
{
    let mut warnings = Vec::new(alloc);
    push_warnings(alloc, &mut warnings, at, timer, timer.lines())?;
    Ok(warnings)
}

/// Appends the warnings about these lines of the timer.
fn push_warnings(
    alloc: Global,
    warnings: &mut Vec<String>,
    at: Present<'_>,
    timer: &LoadedTimer,
    lines: &[TimerLine],
) -> Result<(), AllocError>
    ensures { OnOk result (map string_bytes warnings.new.items
        ≡ map string_bytes warnings.old.items ++ warnings_in (setting_for at.entry timer.now) at.entry.now.secs (map shown lines.now)) }
{
    for line in lines {
        push_warnings_on(alloc, warnings, at, timer, line)?;
    }
    Ok(())
}

fn push_warnings_on(
    alloc: Global,
    warnings: &mut Vec<String>,
    at: Present<'_>,
    timer: &LoadedTimer,
    line: &TimerLine,
) -> Result<(), AllocError>
    ensures { OnOk result (map string_bytes warnings.new.items
        ≡ map string_bytes warnings.old.items ++ warnings_on (setting_for at.entry timer.now) at.entry.now.secs (shown line.now)) }
{
    let text = line.text.as_str();
    push_abbreviation(alloc, warnings, text, line.expr.zone_name())?;
    push_flaw(
        alloc,
        warnings,
        text,
        reported_flaw(open_step_flaw(&line.expr)),
    )?;
    push_flaw(alloc, warnings, text, midnight_flaw(at, timer, line))
}

/// Returns [`OpenStepFlaw::FailsAtMidnightChanges`] if systemd 252 fails for the expression on `line` because clocks
/// skip a midnight ([`stops_at_midnight`]).
fn midnight_flaw(at: Present<'_>, timer: &LoadedTimer, line: &TimerLine) -> Option<OpenStepFlaw>
    ensures { result ≡ midnight_flaw (setting_for at.entry timer.now) at.entry.now.secs (shown line.now) }
{
    if stops_at_midnight(at, timer, line) {
        Some(OpenStepFlaw::FailsAtMidnightChanges)
    } else {
        None
    }
}

/// Appends the warning about the expression `text` if its zone looks like an abbreviation.
fn push_abbreviation(
    alloc: Global,
    warnings: &mut Vec<String>,
    text: &str,
    zone: Option<&str>,
) -> Result<(), AllocError>
    ensures { OnOk result (map string_bytes warnings.new.items
        ≡ map string_bytes warnings.old.items ++ zone_warnings text.now (option_copied zone.entry)) }
{
    match zone {
        Some(name) if looks_like_abbreviation(name) => {
            warnings.push(abbreviation_warning(alloc, text, name)?)?;
            Ok(())
        }
        _ => Ok(()),
    }
}

/// Appends the warning about the expression `text` if systemd 252 computes it wrongly because of a step without an end.
fn push_flaw(
    alloc: Global,
    warnings: &mut Vec<String>,
    text: &str,
    flaw: Option<OpenStepFlaw>,
) -> Result<(), AllocError>
    ensures { OnOk result (map string_bytes warnings.new.items
        ≡ map string_bytes warnings.old.items ++ flaw_warnings text.now flaw) }
{
    if let Some(flaw) = flaw {
        let mut warning = String::from_str(alloc, text)?;
        warning.push_str(": ")?;
        warning.push_str(flaw_words(flaw))?;
        warnings.push(warning)?;
    }
    Ok(())
}

fn abbreviation_warning(alloc: Global, text: &str, name: &str) -> Result<String, AllocError>
    ensures { IfOk result (λ warning. string_bytes warning ≡ abbreviation_warning text.now name.now) }
{
    let mut warning = String::from_str(alloc, text)?;
    warning.push_str(": ")?;
    warning.push_str(name)?;
    warning.push_str(ABBREVIATION)?;
    Ok(warning)
}
