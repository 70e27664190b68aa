//! The calendar expressions that elapse when cron runs a line.

ghost use Rattle.std.specs.Prelude.{◌≡◌, IfErr, IfOk, option_map};
ghost use Rattle.cal_spec.specs.rules.ValidFields.{IsValidFields};
ghost use Rattle.cal_spec.specs.computed.NormalParts.{normal_fields};
ghost use Rattle.cal_cron.specs.computed.Lines.{LineGivesUnlessNoMemory, line_in, shown_line};
ghost use Rattle.cal_cron.specs.computed.Schedules.{IsSchedule};
ghost use Rattle.cal_cron.specs.rules.CronLine.{IsLine, Schedule};
ghost use Rattle.cal_cron.specs.rules.CronMatch.{RunsAs};
ghost use Rattle.cal_cron.specs.computed.Translation.{exprs_of, exprs_in, fields_at, shown_exprs};
ghost use Rattle.cal_cron.specs.declared.cron_fault.CronFault.TheVariants.{NoMemory};

use crate::CronFault;
use crate::lines::{CronLine, read_line};
use crate::parts::component_of;
use crate::weekdays::weekdays_of;
use cal_spec::{DateFields, Expr, Fields, Part, Slot, TimeFields};
use std::alloc::Global;

/// The calendar expressions of a crontab line. Cron runs the line when one of them elapses.
#[derive(Drop)]
pub struct CronExprs {
    pub first: Expr,
    /// The expression for the weekdays, if the line names both days of the month and weekdays, and cron runs it on days
    /// that match either.
    pub other: Option<Expr>,
}

/// Parses the time fields of a crontab line, and returns expressions that elapse when cron runs the line: at each local
/// second, at least one of them matches if and only if cron runs the line then.
///
/// The first error from left to right is reported, with its field. Fails with [`CronFault::NoMemory`] only if
/// allocation fails, and with [`CronFault::Reboot`] for `@reboot`, which has no calendar time. All other errors mean
/// that the grammar of crontab(5) doesn't allow the text.
pub fn read_cron(alloc: Global, text: &str) -> Result<CronExprs, CronFault>
    ensures exprs { LineGivesUnlessNoMemory shown_exprs result (exprs_in text.now) }
    ensures runs { IfOk result (λ exprs. RunsAs text.now exprs.first exprs.other) }
    ensures rejected { IfErr result (λ fault. (fault ≡ NoMemory → ⊥) → (s : Schedule) → IsLine text.now s → ⊥) }
{
    read_exprs(alloc, text)
}

#[tactic(auto, unfolding(crate::specs::computed::Translation::exprs_in))]
fn read_exprs(alloc: Global, text: &str) -> Result<CronExprs, CronFault>
    ensures { LineGivesUnlessNoMemory shown_exprs result (exprs_in text.now) }
{
    let line = read_line(alloc, text)?;
    exprs_of(alloc, &line)
}

/// Translates the fields of a line to a single expression if `line.star`, and otherwise to two expressions, one for the
/// days of the month and one for the weekdays.
#[tactic(auto, unfolding(crate::specs::computed::Translation::exprs_of))]
fn exprs_of(alloc: Global, line: &CronLine) -> Result<CronExprs, CronFault>
    requires { IsSchedule (shown_line line.now) }
    ensures ok { IfOk result (λ exprs. shown_exprs exprs ≡ exprs_of (shown_line line.now)) }
    ensures err { IfErr result (λ fault. fault ≡ NoMemory) }
{
    let weekdays = weekdays_of(&line.weekday);
    let day = component_of(alloc, Slot::Day, &line.day)?;
    if line.star {
        let first = expr_at(alloc, line, weekdays, day)?;
        return Ok(CronExprs { first, other: None });
    }
    let first = expr_at(alloc, line, [true; 7], day)?;
    let other = expr_at(alloc, line, weekdays, None)?;
    Ok(CronExprs {
        first,
        other: Some(other),
    })
}

/// Returns the expression with these weekdays and days, and the months and times of the line.
#[tactic(auto, unfolding(crate::specs::computed::Translation::fields_at, cal_spec::specs::computed::Views::fields_of))]
fn expr_at(
    alloc: Global,
    line: &CronLine,
    weekdays: [bool; 7],
    day: Option<Vec<Part>>,
) -> Result<Expr, CronFault>
    requires { IsValidFields (fields_at (shown_line line.now) weekdays (option_map (λ parts. parts.items) day)) }
    ensures ok { IfOk result (λ expr. expr
        ≡ normal_fields (fields_at (shown_line line.now) weekdays (option_map (λ parts. parts.items) day))) }
    ensures err { IfErr result (λ fault. fault ≡ NoMemory) }
{
    let month = component_of(alloc, Slot::Month, &line.month)?;
    let hour = component_of(alloc, Slot::Hour, &line.hour)?;
    let minute = component_of(alloc, Slot::Minute, &line.minute)?;
    let mut second = Vec::new(alloc);
    second.push(Part {
        start: 0,
        end: None,
        step: None,
    })?;
    Ok(Expr::normal(Fields {
        weekdays,
        date: DateFields {
            year: None,
            month,
            day,
            from_end: false,
        },
        time: TimeFields {
            hour,
            minute,
            second: Some(second),
        },
        zone: None,
    }))
}
