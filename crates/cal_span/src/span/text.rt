//! Printing time spans, as in `1h 30min`. A span is split into whole years, the rest into whole months, and so on down
//! to microseconds. Units whose count is zero are left out.

ghost use Rattle.std.specs.Prelude.{◌≡◌, ◌+◌, ◌≤◌, ℕ, List, [], ◌∷◌, ◌++◌, length, false, decimal};
ghost use Rattle.cal_span.specs.rules.PairValue.{limit};
ghost use Rattle.cal_span.specs.computed.SpanValue.{span_of};
ghost use Rattle.cal_bytes.specs.rules.Puts.{Puts};
ghost use Rattle.cal_bytes.specs.rules.Bytes.{joined};
ghost use Rattle.cal_span.specs.rules.TimeUnit.{unit_name};
ghost use Rattle.cal_bytes.specs.declared.short_text.TheConstants.{SHORT_TEXT_ROOM};
ghost use Rattle.cal_span.specs.declared.span.text.TheConstants.{SPAN_ROOM};
ghost use Rattle.cal_span.specs.rules.SpanTextRule.{IsSpanText};
ghost use Rattle.cal_span.specs.rules.SpanText.{span_text, counts_in_row, positive, counts_of};

use crate::span::Span;
use crate::time_unit::TimeUnit;
use cal_bytes::{ShortText, Sink, WriteFault, push, put_all};
use itoa::Buffer;

/// An upper bound on the length of a printed span, in bytes. Each of the nine units takes at most 26 bytes: a space, 20
/// digits and a name of 5 bytes.
pub const SPAN_ROOM: usize = 234;

/// Appends a time span as it is printed: its units from the largest to the smallest, without those whose count is zero,
/// as in `1h 30min`. A span of 0 microseconds is printed as `0` (systemd.time(7), Parsing Time Spans). At most
/// [`SPAN_ROOM`] bytes are appended, and the caller guarantees that `text` has room for them.
pub fn push_span(text: &mut ShortText, span: Span)
    requires room { length text.old.items + SPAN_ROOM ≤ SHORT_TEXT_ROOM }
    ensures text { text.new.items ≡ text.old.items ++ span_text span.micros }
    ensures short { length text.new.items ≤ length text.old.items + SPAN_ROOM }
{
    match span.micros() {
        0 => push(text, b"0"),
        micros => push_counts(text, &TimeUnit::ALL, micros),
    }
}

/// Returns the text of a time span, as [`push_span`] appends it.
pub fn format_span(span: Span) -> ShortText
    ensures { result.items ≡ span_text span.micros }
{
    let mut text = ShortText::new();
    push_span(&mut text, span);
    text
}

/// Writes the text of a time span, as [`push_span`] appends it.
///
/// Fails with [`WriteFault::Failed`] if and only if the sink fails; in that case, only a prefix of the text was
/// written.
pub fn write_span<W: Sink>(out: &mut W, span: Span) -> Result<(), WriteFault>
    requires { W.is_failed out.old ≡ false }
    ensures { Puts W.Sink out.old out.new result (span_text span.micros) }
{
    let text = format_span(span);
    put_all(out, text.as_slice())
}

/// For every number of microseconds, exactly one text follows the rule `IsSpanText`: the text that [`push_span`]
/// appends for a span of this length. The function does nothing; its contract is a law, a statement that is proved for
/// all arguments.
pub fn one_text()
    ensures some { (n : ℕ) → IsSpanText n (span_text n) }
    ensures only { (n : ℕ) (text : List ℕ) → IsSpanText n text → text ≡ span_text n }
{}

/// Parsing a printed span gives the same span. Like [`one_text`], this function does nothing, and its contract is a
/// law.
pub fn text_reads_back()
    ensures { (n : ℕ) → n ≤ limit → span_of (span_text n) ≡ Ok n }
{}

/// Splits `micros` into counts of `units`, starting with the first unit, and appends each count that isn't zero,
/// followed by the name of its unit. There is a space between the counts.
fn push_counts(text: &mut ShortText, units: &[TimeUnit], micros: u64)
    requires few { length units.now ≤ 9 }
    requires room { length text.old.items + SPAN_ROOM ≤ SHORT_TEXT_ROOM }
    ensures text { text.new.items ≡ text.old.items ++ counts_in_row (positive (counts_of units.now micros)) }
    ensures short { length text.new.items ≤ length text.old.items + SPAN_ROOM }
{
    let mut lead: &[u8] = b"";
    let mut rest = micros;
    for unit in units {
        let size = unit.micros();
        if rest >= size {
            push_count(text, lead, rest / size, *unit);
            lead = b" ";
            rest %= size;
        }
    }
}

/// Appends `lead`, then one count and its unit.
fn push_count(text: &mut ShortText, lead: &[u8], count: u64, unit: TimeUnit)
    requires lead { length lead.now ≤ 1 }
    requires room { length text.old.items + 26 ≤ SHORT_TEXT_ROOM }
    ensures text { text.new.items ≡ text.old.items ++ joined (lead.now ∷ decimal count ∷ unit_name unit ∷ []) }
    ensures short { length text.new.items ≤ length text.old.items + 26 }
{
    let mut digits = Buffer::new();
    push(text, lead);
    push(text, digits.format(count).as_bytes());
    push(text, unit.name().as_bytes());
}
