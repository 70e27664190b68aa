//! Splitting a unit file into physical lines, dropping comments, and joining continued lines (systemd.syntax(7)).
//!
//! Blanks in this module are spaces, tabs and carriage returns. A physical line that ends in an odd number of
//! backslashes is continued by the next physical line that isn't a comment, and the lines joined in this way are one
//! logical line.

ghost use Rattle.std.specs.Prelude.{◌≡◌, ◌==◌, ◌∷◌, [], ◌+◌, ◌++◌, ◌<◌, ◌≤◌, ◌^◌, ◌-◌, MatchOption, MatchResult, IfOk, IfSome, OnOk, length, string_bytes, take, true};
ghost use Rattle.std.specs.List.{prefix_len, suffix_len};
ghost use Rattle.std.specs.Str.Lines.{lines, strip_carriage_return};
ghost use Rattle.cal_bytes.specs.rules.Trim.{trim_matches, trim_end_matches, trim_start_matches};
ghost use Rattle.cal_timer.specs.rules.LineView.{logical_line, plain_line};
ghost use Rattle.cal_timer.specs.rules.Lines.{is_blank_or_return, is_comment, is_continued, logical_lines, part_of_line, plain_lines};

use std::alloc::{AllocError, Global};

fn is_blank_or_return(byte: u8) -> bool
    ensures { result ≡ is_blank_or_return byte }
{
    matches!(byte, b' ' | b'\t' | b'\r')
}

fn leading_blanks(text: &str) -> usize
    ensures { result ≡ prefix_len is_blank_or_return text.now }
{
    text.as_bytes()
        .iter()
        .take_while(|byte| is_blank_or_return(**byte))
        .count()
}

fn trailing_blanks(text: &str) -> usize
    ensures { result ≡ suffix_len is_blank_or_return text.now }
{
    text.as_bytes()
        .iter()
        .rev()
        .take_while(|byte| is_blank_or_return(**byte))
        .count()
}

fn trim_start(text: &str) -> &str
    ensures { result.now ≡ trim_start_matches is_blank_or_return text.now }
{
    &text[leading_blanks(text)..]
}

fn trim_end(text: &str) -> &str
    ensures { result.now ≡ trim_end_matches is_blank_or_return text.now }
{
    &text[..text.len() - trailing_blanks(text)]
}

/// Returns `text` without leading and trailing spaces, tabs and carriage returns.
#[tactic(auto, unfolding(cal_bytes::specs::rules::Trim::trim_matches))]
pub fn trim(text: &str) -> &str
    ensures { result.now ≡ trim_matches is_blank_or_return text.now }
{
    trim_end(trim_start(text))
}

/// Returns the line without the carriage return at its end, if it has one. Of several carriage returns, only the last
/// is removed.
fn without_return(line: &str) -> &str
    ensures { result.now ≡ strip_carriage_return line.now }
{
    line.strip_suffix('\r').unwrap_or(line)
}

/// Returns the first physical line, without its line ending, and the text after it, or `None` if `text` is empty.
pub fn first_line(text: &str) -> Option<(&str, &str)>
    ensures lines { MatchOption result (lines text.now ≡ [])
        (λ found. lines text.now ≡ found.0.now ∷ lines found.1.now) }
    ensures shorter { IfSome result (λ found. length found.1.now < length text.now) }
    ensures within { IfSome result (λ found. length found.0.now ≤ length text.now) }
{
    if text.is_empty() {
        return None;
    }
    match text.split_once('\n') {
        Some((line, rest)) => Some((without_return(line), rest)),
        None => Some((text, "")),
    }
}

fn is_comment(line: &str) -> bool
    ensures { result ≡ is_comment line.now }
{
    matches!(line.as_bytes(), [b'#' | b';', ..])
}

/// A physical line that is not a comment, without leading blanks.
#[derive(Clone, Copy)]
struct PlainLine<'t> {
    number: u32,
    line: &'t str,
    /// The number of the next physical line.
    next: u32,
    /// The text after this line.
    rest: &'t str,
}

/// Returns the first line of `text` that is not a comment, or `None` if `text` has only comments or is empty. `number`
/// is the number of the first physical line of `text`.
#[tactic(auto, using(crate::proofs::GroupLemmas::plain_here, crate::proofs::GroupLemmas::plain_skipped, crate::proofs::GroupLemmas::plain_none))]
fn first_plain(number: u32, text: &str) -> Option<PlainLine<'_>>
    requires { number + length text.now < 2 ^ 32 }
    ensures lines { MatchOption result (plain_lines number text.now ≡ [])
        (λ found. plain_lines number text.now ≡ plain_line found ∷ plain_lines found.next found.rest.now) }
    ensures bounds { IfSome result (λ found. found.next + length found.rest.now ≤ number + length text.now) }
    ensures shorter { IfSome result (λ found. length found.rest.now < length text.now) }
{
    let mut at = number;
    let mut rest = text;
    while let Some((line, after)) = first_line(rest) {
        let line = trim_start(line);
        if !is_comment(line) {
            return Some(PlainLine {
                number: at,
                line,
                next: at + 1,
                rest: after,
            });
        }
        at += 1;
        rest = after;
    }
    None
}

fn trailing_backslashes(line: &str) -> usize
    ensures { result ≡ suffix_len (λ b. b == 92) line.now }
{
    line.as_bytes()
        .iter()
        .rev()
        .take_while(|byte| **byte == b'\\')
        .count()
}

/// Returns whether the line is continued by the next one, that is, whether it ends in an odd number of backslashes.
#[tactic(auto, unfolding(crate::specs::rules::Lines::is_continued))]
fn is_continued(line: &str) -> bool
    ensures { result ≡ is_continued line.now }
{
    trailing_backslashes(line) % 2 == 1
}

/// Returns a continued line without its last backslash.
fn without_backslash(line: &str) -> &str
    requires { is_continued line.now ≡ true }
    ensures { result.now ≡ take (length line.now - 1) line.now }
{
    &line[..line.len() - 1]
}

/// Appends a physical line to a logical line. If the physical line is continued, a space takes the place of its last
/// backslash. Returns whether the physical line is continued. Fails only if allocation fails.
#[tactic(auto, unfolding(crate::specs::rules::Lines::part_of_line))]
fn push_part(joined: &mut String, line: &str) -> Result<bool, AllocError>
    ensures text { OnOk result (string_bytes joined.new ≡ string_bytes joined.old ++ part_of_line line.now) }
    ensures goes_on { IfOk result (λ goes_on. goes_on ≡ is_continued line.now) }
{
    let goes_on = is_continued(line);
    if goes_on {
        joined.push_str(without_backslash(line))?;
        joined.push(' ')?;
    } else {
        joined.push_str(line)?;
    }
    Ok(goes_on)
}

/// A logical line: one physical line, or several that are joined by continuation.
#[derive(Drop)]
pub struct LogicalLine<'t> {
    /// The number of its first physical line.
    pub number: u32,
    /// The joined text. The leading blanks of each physical line are dropped, and the trailing blanks are kept.
    pub text: String,
    /// The number of the next physical line.
    pub next: u32,
    /// The text after this line.
    pub rest: &'t str,
}

/// Returns the first logical line of `text`, or `None` if `text` has only comments or is empty. `number` is the number
/// of the first physical line of `text`; the caller guarantees that `number` plus the length of `text` is below 2^32.
/// Fails only if allocation fails.
pub fn first_logical(
    alloc: Global,
    number: u32,
    text: &str,
) -> Result<Option<LogicalLine<'_>>, AllocError>
    requires { number + length text.now < 2 ^ 32 }
    ensures lines { IfOk result (λ found. MatchOption found (logical_lines number text.now ≡ [])
        (λ logical. logical_lines number text.now ≡ logical_line logical ∷ logical_lines logical.next logical.rest.now)) }
    ensures bounds { IfOk result (λ found. IfSome found (λ logical.
        logical.next + length logical.rest.now ≤ number + length text.now)) }
    ensures shorter { IfOk result (λ found. IfSome found (λ logical. length logical.rest.now < length text.now)) }
{
    let Some(first) = first_plain(number, text) else {
        return Ok(None);
    };
    let mut joined = String::new(alloc);
    let mut goes_on = push_part(&mut joined, first.line)?;
    let mut next = first.next;
    let mut rest = first.rest;
    while goes_on {
        let Some(line) = first_plain(next, rest) else {
            break;
        };
        goes_on = push_part(&mut joined, line.line)?;
        next = line.next;
        rest = line.rest;
    }
    Ok(Some(LogicalLine {
        number: first.number,
        text: joined,
        next,
        rest,
    }))
}
