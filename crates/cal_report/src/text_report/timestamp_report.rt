//! The report of one timestamp (systemd-analyze(1), timestamp): the timestamp as given; its instant in the local zone,
//! and also in UTC unless the local zone is UTC; its Unix time; and its distance from the present.

ghost use Rattle.std.specs.Prelude.{◌≡◌, ◌+◌, ◌≤◌, ◌++◌, false, length, unsigned_abs};
ghost use Rattle.cal_bytes.specs.rules.Puts.{Puts};
ghost use Rattle.cal_bytes.specs.declared.short_text.TheConstants.{SHORT_TEXT_ROOM};
ghost use Rattle.cal_span.specs.declared.span.text.TheConstants.{SPAN_ROOM};
ghost use Rattle.cal_report.specs.rules.Context.{asked_by};
ghost use Rattle.cal_report.specs.rules.TextReport.TimestampReport.{moment_lines, timestamp_report, unix_text};

use crate::context::Context;
use crate::local_and_utc::LocalAndUtc;
use crate::report_lines::{ORIGINAL_LABEL, push_distance, put_text};
use cal_bytes::{Fill, ShortText, Sink, WriteFault, padding, push, push_all, put_all};
use cal_zone::{Instant, MICROS_PER_SECOND, Moment, Zone};
use itoa::Buffer;

/// Writes the report of a timestamp. `text` is the timestamp as the user gave it, and `moment` is what it resolves to.
#[tactic(auto, using(cal_bytes::proofs::PutLemmas::puts), unfolding(crate::specs::rules::TextReport::TimestampReport::timestamp_report))]
pub fn write_timestamp<W: Sink>(
    out: &mut W,
    context: Context<'_>,
    text: &str,
    moment: Moment,
) -> Result<(), WriteFault>
    requires { W.is_failed out.old ≡ false }
    ensures { Puts W.Sink out.old out.new result
        (timestamp_report (asked_by context.entry) text.now moment.micros) }
{
    put_text(out, ORIGINAL_LABEL, text)?;
    put_moment(out, context.setting.local, context.setting.now, moment)
}

/// Writes the lines of the report that describe the moment. The label `Normalized form:` of the first of these lines is
/// already written.
fn put_moment<W: Sink>(
    out: &mut W,
    local: Zone<'_>,
    now: Instant,
    moment: Moment,
) -> Result<(), WriteFault>
    requires { W.is_failed out.old ≡ false }
    ensures { Puts W.Sink out.old out.new result (moment_lines local.entry now.secs moment.micros) }
{
    let mut text = ShortText::new();
    push_moment(&mut text, &mut LocalAndUtc::new(local), now, moment);
    put_all(out, text.as_slice())
}

/// Appends the lines that describe the moment, without the label of the first line.
#[tactic(auto, unfolding(crate::specs::rules::TextReport::TimestampReport::moment_lines))]
fn push_moment(text: &mut ShortText, formatter: &mut LocalAndUtc<'_>, now: Instant, moment: Moment)
    requires { length text.old.items + SPAN_ROOM + 276 ≤ SHORT_TEXT_ROOM }
    ensures { text.new.items ≡ text.old.items ++ moment_lines formatter.old now.secs moment.micros }
{
    formatter.push_local(text, moment.instant());
    push(text, b"\n");
    formatter.push_utc_line(text, moment.instant());
    push(text, b"   UNIX seconds: ");
    push_unix(text, moment);
    push(text, b"\n       From now: ");
    push_distance(text, now, moment);
    push(text, b"\n");
}

/// Appends `@` and the Unix time in seconds, followed by a point and six digits of microseconds unless these are 0.
/// Appends at most 48 bytes.
#[tactic(auto, unfolding(crate::specs::rules::TextReport::TimestampReport::unix_text))]
fn push_unix(text: &mut ShortText, moment: Moment)
    requires room { length text.old.items + 48 ≤ SHORT_TEXT_ROOM }
    ensures text { text.new.items ≡ text.old.items ++ unix_text (unsigned_abs moment.micros) }
    ensures short { length text.new.items ≤ length text.old.items + 48 }
{
    let micros = moment.micros().unsigned_abs();
    let (mut seconds, mut fractions) = (Buffer::new(), Buffer::new());
    let second = seconds.format(micros / MICROS_PER_SECOND);
    push_all(text, &[b"@", second.as_bytes()]);
    if micros % MICROS_PER_SECOND != 0 {
        let fraction = fractions.format(micros % MICROS_PER_SECOND);
        push_all(
            text,
            &[b".", padding(fraction, 6, Fill::Zero), fraction.as_bytes()],
        );
    }
}
