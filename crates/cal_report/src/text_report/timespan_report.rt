//! The report of one time span (systemd-analyze(1), timespan): the span as given, its number of microseconds, and the
//! span as [`format_span`] prints it, as in `1h 30min`.

ghost use Rattle.std.specs.Prelude.{◌≡◌, false};
ghost use Rattle.cal_bytes.specs.rules.Puts.{Puts};
ghost use Rattle.cal_report.specs.rules.TextReport.TimespanReport.{timespan_report};

use cal_bytes::{Sink, WriteFault, put_pieces};
use cal_span::{Span, format_span};
use itoa::Buffer;

/// Writes the report of a time span. `text` is the span as the user gave it, and `span` its parsed value.
#[tactic(auto, unfolding(crate::specs::rules::TextReport::TimespanReport::timespan_report))]
pub fn write_timespan<W: Sink>(out: &mut W, text: &str, span: Span) -> Result<(), WriteFault>
    requires { W.is_failed out.old ≡ false }
    ensures { Puts W.Sink out.old out.new result (timespan_report text.now span.micros) }
{
    let mut buffer = Buffer::new();
    let micros = buffer.format(span.micros());
    let human = format_span(span);
    put_pieces(
        out,
        &[
            b"Original: ",
            text.as_bytes(),
            b"\n      \xce\xbcs: ",
            micros.as_bytes(),
            b"\n   Human: ",
            human.as_slice(),
            b"\n",
        ],
    )
}
