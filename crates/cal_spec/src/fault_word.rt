//! Finding the word at fault in an invalid expression.

ghost use Rattle.std.specs.Prelude.{◌≡◌, ◌+◌, ◌<◌, ◌≤◌, ◌||◌, ◌==◌, ℕ, IfOk, false, is_ok, length, not, slice_index, take, true};
ghost use Rattle.std.specs.Option.{IfSome, is_some};
ghost use Rattle.cal_bytes.specs.rules.Trim.{trim_end_matches};
ghost use Rattle.cal_bytes.specs.rules.Separators.{is_blank};
ghost use Rattle.cal_spec.specs.computed.Expr.{expr_in};
ghost use Rattle.cal_spec.specs.rules.WordsOfText.{IsWordAt};

use crate::{SpecFault, read_expr};
use cal_bytes::{blanks_in_front, trim_blanks_end, word_len};
use std::alloc::{AllocError, Global};
use std::ops::Range;

/// Returns the range of bytes of the word at fault in an invalid expression.
///
/// The word at fault is the first word for which the text up to the word's end is not a valid expression. So the text
/// up to the end of each earlier word is valid.
///
/// Returns `None` if the text without its trailing blanks is empty or valid. Trailing blanks can make a text invalid
/// only by making it longer than 4,096 bytes, and then no word is at fault. Fails only if allocation fails.
pub fn fault_span(alloc: Global, text: &str) -> Result<Option<Range<usize>>, AllocError>
    ensures word { IfOk result (λ found. IfSome found (λ word. IsWordAt text.now word.start word.end)) }
    ensures rejected { IfOk result (λ found. IfSome found (λ word.
        is_ok (expr_in (take word.end text.now)) ≡ false)) }
    ensures first { IfOk result (λ found. IfSome found (λ word. (start : ℕ) (end : ℕ)
        → IsWordAt text.now start end → end < word.end → is_ok (expr_in (take end text.now)) ≡ true)) }
    ensures none { IfOk result (λ found. not (is_some found)
        ≡ ((length (trim_end_matches is_blank text.now) == 0)
        || is_ok (expr_in (trim_end_matches is_blank text.now)))) }
{
    let trimmed = trim_blanks_end(text);
    if trimmed.is_empty() || is_valid(alloc, trimmed)? {
        return Ok(None);
    }
    let mut from = 0;
    while let Some(word) = next_word(text.as_bytes(), from) {
        if !is_valid(alloc, text_until(text, word.end))? {
            return Ok(Some(word));
        }
        from = word.end;
    }
    Ok(None)
}

/// Returns whether a text is a valid expression. Fails only if allocation fails.
fn is_valid(alloc: Global, text: &str) -> Result<bool, AllocError>
    ensures { IfOk result (λ valid. valid ≡ is_ok (expr_in text.now)) }
{
    match read_expr(alloc, text) {
        Ok(_) => Ok(true),
        Err(SpecFault::NoMemory) => Err(AllocError),
        Err(_) => Ok(false),
    }
}

/// Returns the first `end` bytes of `text`, which must be followed by a blank or by nothing.
fn text_until(text: &str, end: usize) -> &str
    requires within { end ≤ length text.now }
    requires blank { end < length text.now → is_blank (slice_index text.now end) ≡ true }
    ensures { result.now ≡ take end text.now }
{
    &text[..end]
}

/// Returns the range of bytes of the next word at or after `from`, or `None` if only blanks follow.
fn next_word(text: &[u8], from: usize) -> Option<Range<usize>>
    requires { from ≤ length text.now }
    ensures none { is_some result ≡ false → (i : ℕ) → from ≤ i → i < length text.now
        → is_blank (slice_index text.now i) ≡ true }
    ensures word { IfSome result (λ word. (word.start < word.end) × (from ≤ word.start) × (word.end ≤ length text.now)
        × ((i : ℕ) → from ≤ i → i < word.start → is_blank (slice_index text.now i) ≡ true)
        × ((i : ℕ) → word.start ≤ i → i < word.end → is_blank (slice_index text.now i) ≡ false)
        × (word.end < length text.now → is_blank (slice_index text.now word.end) ≡ true)) }
{
    let start = from + blanks_in_front(&text[from..]);
    let end = start + word_len(&text[start..]);
    if start == end {
        return None;
    }
    Some(start..end)
}
