//! Writing the report of one text: a calendar expression, a timestamp or a time span.

ghost use Rattle.std.specs.Prelude.{◌≡◌, [], ◌∷◌, false};
ghost use Rattle.cal_bytes.specs.rules.Puts.{Puts};
ghost use Rattle.cal_bytes.specs.rules.Bytes.{joined};
ghost use Rattle.cal_report.specs.rules.Answer.{lead_text};
ghost use Rattle.cal_report.specs.rules.Context.{asked_by};
ghost use Rattle.cal_report.specs.rules.TextReport.{report_text};

mod calendar_report;
mod timespan_report;
mod timestamp_report;

use self::calendar_report::write_calendar;
use self::timespan_report::write_timespan;
use self::timestamp_report::write_timestamp;
use crate::context::Context;
use crate::parsed::Parsed;
use cal_bytes::{Sink, WriteFault, put_all};

/// Writes the report of a parsed text. `follows_report` says whether another report precedes it; if so, an empty
/// line is written first.
#[tactic(auto, using(cal_bytes::proofs::PutLemmas::puts))]
pub fn put_report<W: Sink>(
    out: &mut W,
    follows_report: bool,
    context: Context<'_>,
    text: &str,
    parsed: Parsed<'_>,
) -> Result<(), WriteFault>
    requires { W.is_failed out.old ≡ false }
    ensures { Puts W.Sink out.old out.new result
        (joined (lead_text follows_report ∷ report_text (asked_by context.entry) text.now parsed.entry ∷ [])) }
{
    put_lead(out, follows_report)?;
    match parsed {
        Parsed::Calendar(expr, mut elapses) => {
            write_calendar(out, context, text, &expr, &mut elapses)
        }
        Parsed::Timestamp(moment) => write_timestamp(out, context, text, moment),
        Parsed::Timespan(span) => write_timespan(out, text, span),
    }
}

/// Writes the empty line that separates a report from the previous one, if there is a previous one.
fn put_lead<W: Sink>(out: &mut W, follows_report: bool) -> Result<(), WriteFault>
    requires { W.is_failed out.old ≡ false }
    ensures { Puts W.Sink out.old out.new result (lead_text follows_report) }
{
    if follows_report {
        put_all(out, b"\n")
    } else {
        Ok(())
    }
}
