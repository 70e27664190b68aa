//! Parsing one text: a calendar expression, a timestamp or a time span.

ghost use Rattle.std.specs.Prelude.{◌≡◌, Ok, Err, IfOk, IfErr, IsErrOf};
ghost use Rattle.cal_report.specs.rules.TextReport.CalendarReport.{calendar_answer};
ghost use Rattle.cal_report.specs.rules.Context.{asked_by};
ghost use Rattle.cal_report.specs.rules.TextReport.{answer_by, report_text, text_fault_message, verb_of};
ghost use Rattle.cal_report.specs.declared.text_fault.TextFault.TheVariants.{NoMemory};

use crate::context::Context;
use crate::text_fault::TextFault;
use cal_elapse::Elapses;
use cal_plan::{Instants, zone_for};
use cal_request::TextVerb;
use cal_span::{Span, read_span};
use cal_spec::{Expr, SpecFault, read_expr};
use cal_stamp::read_stamp_in;
use cal_zone::Moment;
use std::alloc::{AllocError, Global};

/// A parsed text of one of the verbs `calendar`, `timestamp` and `timespan`.
#[derive(Drop)]
pub enum Parsed<'a> {
    /// A calendar expression, and the source of its elapses.
    Calendar(Expr, Instants<Elapses<'a>>),
    /// The moment that a timestamp resolves to.
    Timestamp(Moment),
    /// The length of a time span.
    Timespan(Span),
}

/// Parses `text` as what the verb takes: a calendar expression, a timestamp or a time span.
///
/// Fails with [`TextFault::Spec`], [`TextFault::Stamp`] or [`TextFault::Span`] if `text` is invalid. An expression also
/// fails with [`TextFault::NoSuchZone`] if it names a zone that is neither `UTC` nor in the table, and with
/// [`TextFault::NoMemory`] if allocation fails.
///
/// Everything that the report of the text needs is allocated here, so that writing the report cannot run out of
/// memory. Parsing a timestamp or a time span allocates nothing.
#[tactic(auto, unfolding(crate::specs::rules::TextReport::TimespanReport::timespan_answer, crate::specs::rules::TextReport::TimestampReport::stamp_in, crate::specs::rules::TextReport::TimestampReport::timestamp_answer))]
pub fn read_text<'a>(
    alloc: Global,
    context: Context<'a>,
    verb: TextVerb,
    text: &str,
) -> Result<Parsed<'a>, TextFault>
    ensures parsed { IfOk result (λ parsed. answer_by verb (asked_by context.entry) context.entry.base.secs text.now
        ≡ Ok (report_text (asked_by context.entry) text.now parsed)) }
    ensures refused { IfErr result (λ fault. (fault ≡ NoMemory → ⊥)
        → answer_by verb (asked_by context.entry) context.entry.base.secs text.now ≡ Err (text_fault_message fault)) }
    ensures verb { IfOk result (λ parsed. verb_of parsed ≡ verb) }
    ensures memory { IsErrOf result NoMemory → verb ≡ TextVerb.Calendar }
{
    match verb {
        TextVerb::Calendar => read_calendar(alloc, context, text),
        TextVerb::Timestamp => {
            let moment = read_stamp_in(text, context.setting).map_err(TextFault::Stamp)?;
            Ok(Parsed::Timestamp(moment))
        }
        TextVerb::Timespan => {
            let span = read_span(text).map_err(TextFault::Span)?;
            Ok(Parsed::Timespan(span))
        }
    }
}

/// Parses a calendar expression and prepares the source of its elapses.
///
/// Fails with [`TextFault::Spec`] if the expression is invalid, with [`TextFault::NoSuchZone`] if it names a zone that
/// is neither `UTC` nor in the table, and with [`TextFault::NoMemory`] if allocation fails.
#[tactic(auto, using(cal_plan::proofs::ElapseInstants::elapses_are_instants), unfolding(crate::specs::rules::TextReport::CalendarReport::calendar_answer, crate::specs::rules::TextReport::CalendarReport::calendar_report))]
fn read_calendar<'a>(
    alloc: Global,
    context: Context<'a>,
    text: &str,
) -> Result<Parsed<'a>, TextFault>
    ensures parsed { IfOk result (λ parsed. calendar_answer (asked_by context.entry) context.entry.base.secs text.now
        ≡ Ok (report_text (asked_by context.entry) text.now parsed)) }
    ensures refused { IfErr result (λ fault. (fault ≡ NoMemory → ⊥)
        → calendar_answer (asked_by context.entry) context.entry.base.secs text.now ≡ Err (text_fault_message fault)) }
    ensures verb { IfOk result (λ parsed. verb_of parsed ≡ TextVerb.Calendar) }
{
    let expr = match read_expr(alloc, text) {
        Ok(expr) => expr,
        Err(SpecFault::NoMemory) => return Err(TextFault::NoMemory),
        Err(fault) => return Err(TextFault::Spec(fault)),
    };
    let Some(zone) = zone_for(context.setting, &expr) else {
        return Err(TextFault::NoSuchZone);
    };
    match Elapses::new(alloc, &expr, zone, context.base) {
        Ok(elapses) => Ok(Parsed::Calendar(expr, Instants::new(elapses))),
        Err(AllocError) => Err(TextFault::NoMemory),
    }
}
