//! The part of a report that lists elapses, each with its distance from the present (systemd-analyze(1), calendar).

ghost use Rattle.std.specs.Prelude.{◌≡◌, ◌+◌, ◌-◌, ◌≤◌, ◌++◌, length, false, take};
ghost use Rattle.cal_bytes.specs.rules.Puts.{Puts};
ghost use Rattle.cal_bytes.specs.declared.short_text.TheConstants.{SHORT_TEXT_ROOM};
ghost use Rattle.cal_span.specs.declared.span.text.TheConstants.{SPAN_ROOM};
ghost use Rattle.cal_report.specs.rules.ElapseLines.{label_text, elapse_text, elapse_texts, elapses_text};
ghost use Rattle.cal_request.specs.rules.Verb.{IsCount};

use crate::local_and_utc::LocalAndUtc;
use crate::report_lines::push_distance;
use cal_bytes::{Fill, ShortText, Sink, WriteFault, padding, push, push_all, put_all};
use cal_elapse::Rising;
use cal_plan::Instants;
use cal_zone::{Instant, Moment, Zone};
use itoa::Buffer;

/// Writes the next elapses, at most `iterations` of them, or `never` if no elapses remain.
pub fn put_elapses<W: Sink, S: Rising>(
    out: &mut W,
    elapses: &mut Instants<S>,
    iterations: u32,
    local: Zone<'_>,
    now: Instant,
) -> Result<(), WriteFault>
    requires iterations { IsCount iterations }
    requires out { W.is_failed out.old ≡ false }
    ensures { Puts W.Sink out.old out.new result
        (elapses_text local.entry now.secs (take iterations elapses.old)) }
{
    match elapses.next() {
        None => put_all(out, b"    Next elapse: never\n"),
        Some(first) => {
            let mut formatter = LocalAndUtc::new(local);
            put_elapse(out, 1, first, &mut formatter, now)?;
            put_more(out, elapses, iterations, &mut formatter, now)
        }
    }
}

/// Writes the elapses after the first one, which is already written. Stops when `iterations` elapses have been written
/// in total, or when none remain. The labels count from 2.
fn put_more<W: Sink, S: Rising>(
    out: &mut W,
    elapses: &mut Instants<S>,
    iterations: u32,
    formatter: &mut LocalAndUtc<'_>,
    now: Instant,
) -> Result<(), WriteFault>
    requires iterations { IsCount iterations }
    requires out { W.is_failed out.old ≡ false }
    ensures { Puts W.Sink out.old out.new result
        (elapse_texts formatter.old now.secs 2 (take (iterations - 1) elapses.old)) }
{
    for number in 2..iterations + 1 {
        let Some(elapse) = elapses.next() else {
            return Ok(());
        };
        put_elapse(out, number, elapse, formatter, now)?;
    }
    Ok(())
}

/// Writes one elapse in the local zone, in UTC unless the local zone is UTC, and with its distance from the present.
fn put_elapse<W: Sink>(
    out: &mut W,
    number: u32,
    elapse: Instant,
    formatter: &mut LocalAndUtc<'_>,
    now: Instant,
) -> Result<(), WriteFault>
    requires { W.is_failed out.old ≡ false }
    ensures text { Puts W.Sink out.old out.new result (elapse_text formatter.old now.secs number elapse.secs) }
    ensures local { formatter.new ≡ formatter.old }
{
    let mut text = ShortText::new();
    push_elapse(&mut text, number, elapse, formatter, now);
    put_all(out, text.as_slice())
}

/// Appends the lines of one elapse, at most `SPAN_ROOM` + 240 bytes.
#[tactic(auto, unfolding(crate::specs::rules::ElapseLines::elapse_text))]
fn push_elapse(
    text: &mut ShortText,
    number: u32,
    elapse: Instant,
    formatter: &mut LocalAndUtc<'_>,
    now: Instant,
)
    requires { length text.old.items + SPAN_ROOM + 240 ≤ SHORT_TEXT_ROOM }
    ensures text { text.new.items ≡ text.old.items ++ elapse_text formatter.old now.secs number elapse.secs }
    ensures local { formatter.new ≡ formatter.old }
{
    push_label(text, number);
    formatter.push_local(text, elapse);
    push(text, b"\n");
    formatter.push_utc_line(text, elapse);
    push(text, b"       From now: ");
    push_distance(text, now, Moment::first_of(elapse));
    push(text, b"\n");
}

/// Appends the label of an elapse: `Next elapse:` for number 1, and otherwise `Iter. #` and the number, right-aligned
/// like the other labels.
#[tactic(auto, unfolding(crate::specs::rules::ElapseLines::label_text))]
fn push_label(text: &mut ShortText, number: u32)
    requires room { length text.old.items + 30 ≤ SHORT_TEXT_ROOM }
    ensures text { text.new.items ≡ text.old.items ++ label_text number }
    ensures short { length text.new.items ≤ length text.old.items + 30 }
{
    if number == 1 {
        push(text, b"    Next elapse: ");
        return;
    }
    let mut buffer = Buffer::new();
    let digits = buffer.format(number);
    push_all(
        text,
        &[
            padding(digits, 8, Fill::Blank),
            b"Iter. #",
            digits.as_bytes(),
            b": ",
        ],
    );
}
