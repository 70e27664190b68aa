//! The values that systemd accepts for settings of the section `Timer`: booleans, time spans and names of units
//! (systemd.timer(5), Options; systemd.syntax(7), systemd.time(7)).

ghost use Rattle.std.specs.Prelude.{◌≡◌, Some, map};
ghost use Rattle.std.specs.List.{list_any};
ghost use Rattle.std.specs.Str.{str_eq_ignore_ascii_case};
ghost use Rattle.cal_span.specs.computed.SpanValue.{span_of};
ghost use Rattle.cal_unit_index.specs.rules.Settings.{has_percent, is_longer, is_no, is_span, is_span_over, is_taken_as, is_valid_span, is_yes};

use crate::unit_name::is_unit_name;
use cal_span::read_span;
use cal_timer::KeyKind;

/// The words for a true boolean (systemd.syntax(7)).
const YES: [&[u8]; 6] = [b"1", b"yes", b"y", b"true", b"t", b"on"];

/// The words for a false boolean.
const NO: [&[u8]; 6] = [b"0", b"no", b"n", b"false", b"f", b"off"];

/// The word for a time span that is longer than all others. [`read_span`] rejects it.
const INFINITY: &str = "infinity";

/// Returns whether systemd accepts the value for a key of this kind. systemd ignores an assignment with a value that it
/// doesn't accept. If a value of a monotonic timer or of `Unit=` has a `%`, what the value stands for may depend on the
/// running system, and it is taken as valid. So is every expression and every exception: their errors are found when
/// they are parsed.
pub fn is_taken_as(kind: KeyKind, value: &str) -> bool
    ensures { result ≡ is_taken_as (Some kind) value.now }
{
    match kind {
        KeyKind::SpanTrigger => has_percent(value) || is_span(value),
        KeyKind::ChangeTrigger | KeyKind::TimingBoolean | KeyKind::OtherBoolean => {
            is_yes(value) || is_no(value)
        }
        KeyKind::CalendarTrigger | KeyKind::Exception => true,
        KeyKind::Delay | KeyKind::Accuracy => is_span(value),
        KeyKind::StartedUnit => has_percent(value) || is_unit_name(value),
    }
}

/// Returns whether the value has a `%`. Every specifier begins with a `%` (systemd.unit(5), Specifiers).
pub fn has_percent(value: &str) -> bool
    ensures { result ≡ has_percent value.now }
{
    value.as_bytes().contains(&b'%')
}

/// Returns whether the value is a boolean that is true (systemd.syntax(7)).
pub fn is_yes(value: &str) -> bool
    ensures { result ≡ is_yes value.now }
{
    is_any(&YES, value.as_bytes())
}

/// Returns whether `value` is `infinity` or a time span of more than `least` microseconds.
pub fn is_longer(least: u64, value: &str) -> bool
    ensures { result ≡ is_longer least value.now }
{
    value == INFINITY || is_span_over(least, value)
}

/// Returns whether the value is a boolean that is false.
fn is_no(value: &str) -> bool
    ensures { result ≡ is_no value.now }
{
    is_any(&NO, value.as_bytes())
}

/// Returns whether `value` equals one of the words, ignoring case.
fn is_any(words: &[&[u8]], value: &[u8]) -> bool
    ensures { result ≡ list_any (str_eq_ignore_ascii_case value.now) (map (λ word. word.now) words.now) }
{
    for word in words {
        if value.eq_ignore_ascii_case(word) {
            return true;
        }
    }
    false
}

/// Returns whether `value` is a time span or `infinity`.
fn is_span(value: &str) -> bool
    ensures { result ≡ is_span value.now }
{
    value == INFINITY || is_valid_span(value)
}

fn is_valid_span(value: &str) -> bool
    ensures { result ≡ is_valid_span (span_of value.now) }
{
    read_span(value).is_ok()
}

fn is_span_over(least: u64, value: &str) -> bool
    ensures { result ≡ is_span_over least (span_of value.now) }
{
    match read_span(value) {
        Ok(span) => least < span.micros(),
        Err(_) => false,
    }
}
