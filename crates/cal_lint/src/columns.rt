//! The columns at which problems begin: bytes of the first physical line of a logical line, counted from 1.

ghost use Rattle.std.specs.Prelude.{◌≡◌, ◌+◌, ◌<◌, ◌≤◌, ◌^◌, IfOk, length, map};
ghost use Rattle.std.specs.List.{prefix_len};
ghost use Rattle.std.specs.Str.Lines.{lines};
ghost use Rattle.cal_bytes.specs.rules.Trim.{trim_end_matches};
ghost use Rattle.cal_bytes.specs.rules.Separators.{is_blank};
ghost use Rattle.cal_timer.specs.rules.Lines.{is_blank_or_return};
ghost use Rattle.cal_lint.specs.rules.Columns.{ambiguity_start, fault_start, first_column, last_word_start, physical_line, value_column};

use crate::ambiguities::Ambiguity;
use cal_bytes::{last_word, trim_blanks_end};
use cal_spec::fault_span;
use std::alloc::{AllocError, Global};

/// Returns the lines of a text as they stand in the file: a line that ends with a backslash isn't joined to the next
/// one.
pub(crate) fn physical_lines(alloc: Global, text: &str) -> Result<Vec<&str>, AllocError>
    ensures { IfOk result (λ found. map (λ line. line.now) found.items ≡ lines text.now) }
{
    text.lines().collect(alloc)
}

/// Returns the physical line with this number, counted from 1, or an empty text if there are fewer lines.
pub(crate) fn physical_line<'t>(lines: &[&'t str], number: u32) -> &'t str
    ensures { result.now ≡ physical_line (map (λ line. line.now) lines.now) number }
{
    match lines.get((number as usize).saturating_sub(1)) {
        Some(line) => *line,
        None => "",
    }
}

/// Returns the column of the first byte after the leading blanks of a line.
pub(crate) fn first_column(line: &str) -> u32
    requires { 1 + length line.now < 2 ^ 32 }
    ensures { result ≡ first_column line.now }
{
    column_at(leading_blanks(line.as_bytes()), 0)
}

fn leading_blanks(line: &[u8]) -> usize
    ensures value { result ≡ prefix_len is_blank_or_return line.now }
    ensures within { result ≤ length line.now }
{
    line.iter()
        .take_while(|byte| matches!(**byte, b' ' | b'\t' | b'\r'))
        .count()
}

/// Returns the column of the byte at `index` in the value. Returns 1 if the line doesn't contain the whole value, which
/// happens only if the line is continued.
#[tactic(auto, unfolding(crate::specs::rules::Columns::value_column))]
pub(crate) fn value_column(line: &str, value: &str, index: usize) -> u32
    requires short { 1 + length line.now < 2 ^ 32 }
    requires within { index ≤ length value.now }
    ensures { result ≡ value_column line.now value.now index }
{
    match line.rfind(value) {
        Some(start) => column_at(start, index),
        None => 1,
    }
}

/// Returns the index of the byte of the value at which the word at fault begins, or 0 if no word is at fault.
#[tactic(auto, unfolding(crate::specs::rules::Columns::fault_start))]
pub(crate) fn fault_start(alloc: Global, value: &str) -> Result<usize, AllocError>
    ensures start { IfOk result (λ start. start ≡ fault_start value.now) }
    ensures within { IfOk result (λ start. start ≤ length value.now) }
{
    match fault_span(alloc, value)? {
        Some(word) => Ok(word.start),
        None => Ok(0),
    }
}

/// Returns the index of the byte of the value at which the abbreviation begins if the ambiguity is about an abbreviation,
/// and otherwise 0. The abbreviation is the last word of the value.
#[tactic(auto, unfolding(crate::specs::rules::Columns::ambiguity_start))]
pub(crate) fn ambiguity_start(ambiguity: Ambiguity, value: &str) -> usize
    ensures start { result ≡ ambiguity_start ambiguity value.now }
    ensures within { result ≤ length value.now }
{
    match ambiguity {
        Ambiguity::Abbreviation => last_word_start(trim_blanks_end(value)),
        _ => 0,
    }
}

/// Returns the index of the byte of the text at which its last word begins. The text must not end with a blank.
fn last_word_start(text: &str) -> usize
    ensures start { result ≡ last_word_start text.now }
    ensures within { result ≤ length text.now }
{
    match last_word(text) {
        Some((_, word)) => text.len() - word.len(),
        None => 0,
    }
}

/// Returns the column of the byte that comes `index` bytes after the byte with the index `start`.
fn column_at(start: usize, index: usize) -> u32
    requires { start + index + 1 < 2 ^ 32 }
    ensures { result ≡ start + index + 1 }
{
    (start + index + 1) as u32
}
