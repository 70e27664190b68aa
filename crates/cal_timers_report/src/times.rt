//! Instants and the time until an instant, as text.

ghost use Rattle.std.specs.Prelude.{◌≡◌, ◌++◌, ◌≤ℤ◌, ◌<ℤ◌, IfOk, OnOk, codes, length, string_bytes};
ghost use Rattle.cal_bytes.specs.rules.Separators.{words};
ghost use Rattle.cal_zone.specs.rules.InstantText.{instant_text};
ghost use Rattle.cal_timers_report.specs.rules.TimeLeft.{time_left, two_units, two_words};

use cal_bytes::{ShortText, first_word};
use cal_span::{Span, format_span};
use cal_zone::{Instant, InstantFormatter, Zone};
use std::alloc::{AllocError, Global};

/// Returns what clocks in the zone show at an instant, as in `Fri 2026-11-27 18:00:00 +01:00`.
pub(crate) fn instant_text(
    alloc: Global,
    zone: Zone<'_>,
    instant: Instant,
) -> Result<String, AllocError>
    ensures { IfOk result (λ text. string_bytes text ≡ instant_text zone.entry instant.secs) }
{
    let mut text = String::new(alloc);
    push_instant(&mut text, &mut InstantFormatter::new(zone), instant)?;
    Ok(text)
}

/// Appends an instant as [`instant_text`] returns it.
pub(crate) fn push_instant(
    out: &mut String,
    formatter: &mut InstantFormatter<'_>,
    instant: Instant,
) -> Result<(), AllocError>
    ensures text { OnOk result (string_bytes out.new ≡ string_bytes out.old ++ instant_text formatter.old instant.secs) }
    ensures zone { formatter.new ≡ formatter.old }
{
    let mut text = ShortText::new();
    formatter.push(&mut text, instant);
    out.push_str(ascii(text.as_slice())?)
}

/// Returns the number of characters that [`push_instant`] appends.
pub(crate) fn instant_width(formatter: &mut InstantFormatter<'_>, instant: Instant) -> usize
    ensures width { result ≡ length (instant_text formatter.old instant.secs) }
    ensures zone { formatter.new ≡ formatter.old }
{
    let mut text = ShortText::new();
    formatter.push(&mut text, instant);
    text.as_slice().len()
}

/// Returns how long it is from `now` until `then`: the two largest units of the time span, as in `4h 12min`. If `then`
/// isn't after `now`, returns the text "now".
pub(crate) fn left_text(alloc: Global, now: Instant, then: Instant) -> Result<String, AllocError>
    ensures past { then.secs ≤ℤ now.secs → IfOk result (λ text. string_bytes text ≡ codes "now") }
    ensures ahead { now.secs <ℤ then.secs
        → IfOk result (λ text. string_bytes text ≡ two_units now.secs then.secs) }
    ensures both { IfOk result (λ text. string_bytes text ≡ time_left now.secs then.secs) }
{
    let mut text = String::new(alloc);
    push_left(&mut text, now, then)?;
    Ok(text)
}

/// Appends how long it is until an instant, as [`left_text`] returns it.
pub(crate) fn push_left(out: &mut String, now: Instant, then: Instant) -> Result<(), AllocError>
    ensures past { then.secs ≤ℤ now.secs
        → OnOk result (string_bytes out.new ≡ string_bytes out.old ++ codes "now") }
    ensures ahead { now.secs <ℤ then.secs
        → OnOk result (string_bytes out.new ≡ string_bytes out.old ++ two_units now.secs then.secs) }
    ensures both { OnOk result (string_bytes out.new ≡ string_bytes out.old ++ time_left now.secs then.secs) }
{
    if then.secs() <= now.secs() {
        return out.push_str("now");
    }
    push_two_units(out, now, then)
}

/// Appends the two largest units of the time span between two instants.
fn push_two_units(out: &mut String, now: Instant, then: Instant) -> Result<(), AllocError>
    ensures { OnOk result (string_bytes out.new ≡ string_bytes out.old ++ two_units now.secs then.secs) }
{
    let seconds = (then.secs() - now.secs()).unsigned_abs();
    let Some(span) = Span::new(seconds * 1_000_000) else {
        unreachable!()
    };
    let text = format_span(span);
    push_two_words(out, ascii(text.as_slice())?)
}

/// Appends the first two words of a text, with a space between them.
fn push_two_words(out: &mut String, text: &str) -> Result<(), AllocError>
    ensures { OnOk result (string_bytes out.new ≡ string_bytes out.old ++ two_words (words text.now)) }
{
    let Some((word, others)) = first_word(text) else {
        return Ok(());
    };
    out.push_str(word)?;
    let Some((second, _)) = first_word(others) else {
        return Ok(());
    };
    out.push_str(" ")?;
    out.push_str(second)
}

/// Converts the bytes of a printed instant or time span to a `str`. The bytes are always ASCII, but the contracts of
/// the functions that print them don't say so, so the bytes are checked here.
pub(crate) fn ascii(bytes: &[u8]) -> Result<&str, AllocError>
    ensures { IfOk result (λ text. text.now ≡ bytes.now) }
{
    match str::from_utf8(bytes) {
        Ok(text) => Ok(text),
        Err(_) => Err(AllocError),
    }
}
