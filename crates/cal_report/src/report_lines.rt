//! Lines and phrases that several reports share (systemd-analyze(1), calendar and timestamp).

ghost use Rattle.std.specs.Prelude.{◌≡◌, ◌+◌, ◌≤◌, ◌++◌, ◌-ℤ◌, false, length, unsigned_abs};
ghost use Rattle.cal_bytes.specs.rules.Puts.{Puts};
ghost use Rattle.cal_bytes.specs.declared.short_text.TheConstants.{SHORT_TEXT_ROOM};
ghost use Rattle.cal_span.specs.declared.span.text.TheConstants.{SPAN_ROOM};
ghost use Rattle.cal_zone.specs.rules.Instant.{micros_of};
ghost use Rattle.cal_report.specs.rules.ReportLines.{direction_text, distance_text, heading_text, normal_line, text_line};

use cal_bytes::{ShortText, Sink, WriteFault, push, put_all, put_pieces};
use cal_span::{Span, push_span};
use cal_spec::{Expr, write_expr};
use cal_zone::{Instant, Moment};

/// The label before an expression or a timestamp in its original form: as the user gave it, or as it is written in the
/// timer file.
pub const ORIGINAL_LABEL: &[u8] = b"  Original form: ";

/// The label before an exception in its original form: as it is written in the timer file.
pub const EXCEPT_LABEL: &[u8] = b"    Except form: ";

/// Writes a line with `label` and `text`, and begins the next line with the label `Normalized form:`.
pub fn put_text<W: Sink>(out: &mut W, label: &[u8], text: &str) -> Result<(), WriteFault>
    requires { W.is_failed out.old ≡ false }
    ensures { Puts W.Sink out.old out.new result (text_line label.now text.now) }
{
    put_pieces(out, &[label, text.as_bytes(), b"\nNormalized form: "])
}

/// Writes two lines: one with `label` and the expression as it was given, and one with its normal form.
#[tactic(auto, using(cal_bytes::proofs::PutLemmas::puts), unfolding(crate::specs::rules::ReportLines::heading_text))]
pub fn put_heading<W: Sink>(
    out: &mut W,
    label: &[u8],
    text: &str,
    expr: &Expr,
) -> Result<(), WriteFault>
    requires { W.is_failed out.old ≡ false }
    ensures { Puts W.Sink out.old out.new result (heading_text label.now text.now expr.now) }
{
    put_text(out, label, text)?;
    put_normal(out, expr)
}

/// Writes the normal form and a line feed. [`put_text`] has already written the label of this line.
#[tactic(auto, using(cal_bytes::proofs::PutLemmas::puts), unfolding(crate::specs::rules::ReportLines::normal_line))]
fn put_normal<W: Sink>(out: &mut W, expr: &Expr) -> Result<(), WriteFault>
    requires { W.is_failed out.old ≡ false }
    ensures { Puts W.Sink out.old out.new result (normal_line expr.now) }
{
    write_expr(out, expr)?;
    put_all(out, b"\n")
}

/// Appends the time span between the present and `moment`, followed by ` left` or ` ago`. Appends at most [`SPAN_ROOM`]
/// + 5 bytes.
#[tactic(auto, unfolding(crate::specs::rules::ReportLines::distance_text))]
pub fn push_distance(text: &mut ShortText, now: Instant, moment: Moment)
    requires room { length text.old.items + SPAN_ROOM + 5 ≤ SHORT_TEXT_ROOM }
    ensures text { text.new.items ≡ text.old.items ++ distance_text (micros_of now.secs) moment.micros }
    ensures short { length text.new.items ≤ length text.old.items + SPAN_ROOM + 5 }
{
    let now = Moment::first_of(now);
    push_span(text, distance(now, moment));
    push(text, direction(now, moment));
}

/// Returns ` ago` if `moment` is earlier than `now`, and ` left` otherwise.
fn direction<'a>(now: Moment, moment: Moment) -> &'a [u8]
    ensures text { result.now ≡ direction_text now.micros moment.micros }
    ensures short { length result.now ≤ 5 }
{
    if moment.micros() < now.micros() {
        b" ago"
    } else {
        b" left"
    }
}

/// Returns the time span between two moments, whichever of them is earlier.
fn distance(now: Moment, moment: Moment) -> Span
    ensures { result.micros ≡ unsigned_abs (moment.micros -ℤ now.micros) }
{
    let Some(span) = Span::new((moment.micros() - now.micros()).unsigned_abs()) else {
        unreachable!()
    };
    span
}
