//! Splitting a text at its first separator, and comparing words without regard to case.

ghost use Rattle.std.specs.Prelude.{◌≡◌, ◌≤◌, ◌==◌, ◌∷◌, length};
ghost use Rattle.std.specs.List.{position, slice_split};
ghost use Rattle.std.specs.Option.{option_copied};
ghost use Rattle.std.specs.Str.{str_eq_ignore_ascii_case};
ghost use Rattle.cal_bytes.specs.computed.SplitPieces.{left, pieces_after};

fn index_of(text: &[u8], separator: u8) -> Option<usize>
    ensures { result ≡ position (λ byte. byte == separator) text.now }
{
    text.iter().position(|byte| *byte == separator)
}

/// Returns the text before the first separator, and the text after it. If there is no separator, returns the whole text
/// and `None`.
pub fn first_piece(text: &[u8], separator: u8) -> (&[u8], Option<&[u8]>)
    ensures pieces { slice_split (λ byte. byte == separator) text.now
        ≡ result.0.now ∷ pieces_after (λ byte. byte == separator) (option_copied result.1) }
    ensures shorter { left (option_copied result.1) ≤ length text.now }
{
    match index_of(text, separator) {
        Some(index) => (&text[..index], Some(&text[index + 1..])),
        None => (text, None),
    }
}

/// Returns whether the words are equal, ignoring the case of ASCII letters.
pub(crate) fn is_same_word(word: &[u8], other: &[u8]) -> bool
    ensures { result ≡ str_eq_ignore_ascii_case word.now other.now }
{
    word.eq_ignore_ascii_case(other)
}
