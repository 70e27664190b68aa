//! Splitting a time span into words. Consecutive characters of one kind form a word, which is as long as possible;
//! blanks only separate words (systemd.time(7), Parsing Time Spans).

ghost use Rattle.std.specs.Prelude.{◌≡◌, ◌≤◌, ◌<◌, ◌∷◌, [], MatchOption, length, take, drop};
ghost use Rattle.cal_span.specs.rules.PairValue.{characters};
ghost use Rattle.cal_span.specs.computed.SpanValue.{words_in, front_of, after_front};

/// The kind of a character in a time span.
#[derive(Clone, Copy, PartialEq, Eq)]
pub(crate) enum CharKind {
    /// A space or a tab.
    Blank,
    /// A digit or a decimal point.
    Numeric,
    /// An ASCII letter, the micro sign or the Greek letter mu.
    Letter,
    /// Anything else.
    Other,
}

/// A word: consecutive characters of one kind.
#[derive(Clone, Copy)]
pub(crate) struct Word<'a> {
    pub(crate) kind: CharKind,
    pub(crate) text: &'a [u8],
}

/// Returns the first word in `bytes` and the bytes after it, or `None` if `bytes` is empty or blank.
pub(crate) fn first_span_word(bytes: &[u8]) -> Option<(Word<'_>, &[u8])>
    ensures { MatchOption result (words_in bytes.now ≡ []) (λ found.
        (words_in bytes.now
        ≡ record { kind = found.0.kind; text = found.0.text.now } ∷ words_in found.1.now)
        × (length found.1.now < length bytes.now)) }
{
    let bytes = &bytes[front_len(bytes, CharKind::Blank)..];
    let (kind, _) = first(bytes)?;
    let (text, rest) = bytes.split_at(front_len(bytes, kind));
    Some((Word { kind, text }, rest))
}

/// Returns the length in bytes of the longest prefix whose characters are all of this kind.
fn front_len(bytes: &[u8], kind: CharKind) -> usize
    ensures within { result ≤ length bytes.now }
    ensures front { take result bytes.now ≡ front_of kind (characters bytes.now) }
    ensures rest { characters (drop result bytes.now) ≡ after_front kind (characters bytes.now) }
{
    let mut len = 0;
    while let Some((found, width)) = first(&bytes[len..]) {
        if found != kind {
            break;
        }
        len += width;
    }
    len
}

/// Returns the kind of the first character and its length in bytes, or `None` if there are no bytes. The micro sign and
/// the letter mu have two bytes. Any other character outside ASCII is read byte by byte.
fn first(bytes: &[u8]) -> Option<(CharKind, usize)>
    ensures { MatchOption result (bytes.now ≡ []) (λ found.
        (characters bytes.now
        ≡ record { kind = found.0; text = take found.1 bytes.now } ∷ characters (drop found.1 bytes.now))
        × (0 < found.1) × (found.1 ≤ length bytes.now)) }
{
    match bytes {
        [] => None,
        [b'0'..=b'9' | b'.', ..] => Some((CharKind::Numeric, 1)),
        [b'A'..=b'Z' | b'a'..=b'z', ..] => Some((CharKind::Letter, 1)),
        [b' ' | b'\t', ..] => Some((CharKind::Blank, 1)),
        [0xc2, 0xb5, ..] | [0xce, 0xbc, ..] => Some((CharKind::Letter, 2)),
        _ => Some((CharKind::Other, 1)),
    }
}
