//! The report of one calendar expression (systemd-analyze(1), calendar): the expression as given, its normal form, and
//! its next elapses, each with its distance from the present.

ghost use Rattle.std.specs.Prelude.{◌≡◌, false};
ghost use Rattle.cal_bytes.specs.rules.Puts.{Puts};
ghost use Rattle.cal_report.specs.rules.TextReport.CalendarReport.{report_of_elapses};
ghost use Rattle.cal_report.specs.rules.Context.{asked_by};

use crate::context::Context;
use crate::elapse_lines::put_elapses;
use crate::report_lines::{ORIGINAL_LABEL, put_heading};
use cal_bytes::{Sink, WriteFault};
use cal_elapse::Rising;
use cal_plan::Instants;
use cal_spec::Expr;

/// Writes the report of an expression: `text` as the user gave it, its normal form, and its next elapses, at most
/// `context.request.iterations` of them.
#[tactic(auto, using(cal_bytes::proofs::PutLemmas::puts))]
pub fn write_calendar<W: Sink, S: Rising>(
    out: &mut W,
    context: Context<'_>,
    text: &str,
    expr: &Expr,
    elapses: &mut Instants<S>,
) -> Result<(), WriteFault>
    requires { W.is_failed out.old ≡ false }
    ensures { Puts W.Sink out.old out.new result
        (report_of_elapses (asked_by context.entry) text.now expr.now elapses.old) }
{
    put_heading(out, ORIGINAL_LABEL, text, expr)?;
    put_elapses(
        out,
        elapses,
        context.request.iterations,
        context.setting.local,
        context.setting.now,
    )
}
