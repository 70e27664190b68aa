//! The lines of a unit file that systemd reads (systemd.syntax(7)). It stops reading a file at the first logical line
//! that isn't UTF-8, that begins with `[` but isn't a valid section header, or that is too long.

ghost use Rattle.std.specs.Prelude.{◌≡◌, ◌+◌, ◌<◌, ◌≤◌, ◌^◌, ◌∷◌, ◌++◌, ◌==◌, ℕ, List, IfOk, OnOk, MatchOption, length, map, string_bytes, take, false, true};
ghost use Rattle.std.specs.List.{after_first, list_any, position_or_len, prefix_len};
ghost use Rattle.std.specs.Str.{chars, is_utf8};
ghost use Rattle.std.specs.Str.Lines.{lines};
ghost use Rattle.cal_bytes.specs.rules.Trim.{trim_start_matches};
ghost use Rattle.cal_timer.specs.rules.LineView.{line_at};
ghost use Rattle.cal_timer.specs.rules.Lines.{Line, is_blank_or_return, is_comment, logical_lines};
ghost use Rattle.cal_timer.specs.rules.TimerText.{without_mark};
ghost use Rattle.cal_timer.specs.rules.TimerView.{shown_assignment};
ghost use Rattle.cal_read.specs.rules.SectionAssignments.{section_assignments, shown_owned_assignment};
ghost use Rattle.cal_load.specs.rules.Readable.{StandFor, no_lines, assignments_read, broken_in, broken_line, broken_reason, is_bad_header, is_bad_in_header, is_clean_utf8, is_noncharacter, is_readable, line_in_text, lines_until_broken, reason_in, section_read};

use cal_read::{Assignment, OwnedAssignment, first_logical, read_assignment, section, trim};
use cal_timer::LogicalLine;
use std::alloc::{AllocError, Global};

/// Why systemd stops reading a file.
#[derive(Clone, Copy)]
pub enum BrokenReason {
    /// A line that isn't a comment isn't valid UTF-8, or has a noncharacter of Unicode, such as U+FFFE.
    NotUtf8,
    /// A line begins with `[`, but isn't a valid section header: it doesn't end with `]`, or it has a byte that no
    /// header can have.
    BadHeader,
    /// A line has 1,048,576 bytes or more, after continued lines are joined.
    TooLong,
}

/// The line at which systemd stops reading a file.
#[derive(Clone, Copy)]
pub struct BrokenLine {
    /// The number of the line. A continued line has the number of its first physical line. Line numbers continue from
    /// file to file.
    pub number: u32,
    pub reason: BrokenReason,
}

/// What systemd reads in a file.
#[derive(Drop)]
pub(crate) struct ReadLines {
    /// The assignments in the sections that were asked for, in order.
    pub(crate) assignments: Vec<OwnedAssignment>,
    /// The line at which systemd stops, or `None` if it reads the whole file.
    pub(crate) broken: Option<BrokenLine>,
}

/// The name of the sections that make up a timer.
const TIMER_SECTION: &str = "Timer";

/// The bytes of a byte order mark, U+FEFF.
const BYTE_ORDER_MARK: [u8; 3] = [0xEF, 0xBB, 0xBF];

/// The length of the shortest line that is too long for systemd.
const LINE_LIMIT: usize = 1_048_576;

/// Reads the assignments in the sections `Timer` of a file, as [`read_section`] does.
pub(crate) fn read_lines(alloc: Global, first: u32, bytes: &[u8]) -> Result<ReadLines, AllocError>
    requires { first + length bytes.now < 2 ^ 32 }
    ensures assignments { IfOk result (λ read. map shown_owned_assignment read.assignments.items ≡ assignments_read first bytes.now) }
    ensures broken { IfOk result (λ read. read.broken ≡ broken_line first bytes.now) }
{
    read_section(alloc, TIMER_SECTION, first, bytes)
}

/// Reads the assignments in the sections called `name` of a file, up to the line at which systemd stops, if there is
/// one. The first line of the file has the number `first`. A byte order mark at the start of the file is dropped. Fails
/// only if allocation fails.
#[tactic(auto, unfolding(crate::specs::rules::Readable::section_read, crate::specs::rules::Readable::broken_line))]
pub(crate) fn read_section(
    alloc: Global,
    name: &str,
    first: u32,
    bytes: &[u8],
) -> Result<ReadLines, AllocError>
    requires { first + length bytes.now < 2 ^ 32 }
    ensures assignments { IfOk result (λ read. map shown_owned_assignment read.assignments.items ≡ section_read name.now first bytes.now) }
    ensures broken { IfOk result (λ read. read.broken ≡ broken_line first bytes.now) }
{
    let readable = readable_text(alloc, without_mark(bytes))?;
    read_text(alloc, name, first, readable.text.as_str(), readable.is_cut)
}

/// Removes a byte order mark from the start of a file, if there is one.
#[tactic(auto, unfolding(cal_timer::specs::rules::TimerText::without_mark))]
fn without_mark(bytes: &[u8]) -> &[u8]
    ensures mark { result.now ≡ without_mark bytes.now }
    ensures shorter { length result.now ≤ length bytes.now }
{
    if bytes.starts_with(&BYTE_ORDER_MARK) {
        &bytes[3..]
    } else {
        bytes
    }
}

/// A text that is read in place of a file, since the file may not be UTF-8. In the text, a comment `#` replaces each
/// comment that isn't UTF-8. If any other line isn't UTF-8, a line `?` replaces it and is the last line of the text.
#[derive(Drop)]
struct ReadableText {
    text: String,
    /// Whether the last line replaces one that isn't UTF-8.
    is_cut: bool,
}

/// Returns the text that is read in place of a file. Fails only if allocation fails.
fn readable_text(alloc: Global, bytes: &[u8]) -> Result<ReadableText, AllocError>
    ensures stands { IfOk result (λ readable. (number : ℕ)
        → StandFor readable.is_cut (logical_lines number (string_bytes readable.text)) (logical_lines number bytes.now)) }
    ensures shorter { IfOk result (λ readable. length (string_bytes readable.text) ≤ length bytes.now) }
{
    let mut text = String::new(alloc);
    let mut rest = bytes;
    while !rest.is_empty() {
        let (line, after) = split_line(rest);
        if !push_line(&mut text, line)? {
            return Ok(ReadableText { text, is_cut: true });
        }
        rest = after;
    }
    Ok(ReadableText {
        text,
        is_cut: false,
    })
}

/// Splits the bytes into the first physical line, with its line feed, and the bytes after it. Without a line feed, all
/// bytes are the first line.
fn split_line(bytes: &[u8]) -> (&[u8], &[u8])
    ensures line { result.0.now ≡ take (position_or_len (λ b. b == 10) bytes.now + 1) bytes.now }
    ensures after { result.1.now ≡ after_first (λ b. b == 10) bytes.now }
{
    let length = length_before_feed(bytes);
    if length < bytes.len() {
        bytes.split_at(length + 1)
    } else {
        (bytes, &[])
    }
}

/// Returns how many bytes come before the first line feed.
fn length_before_feed(bytes: &[u8]) -> usize
    ensures { result ≡ position_or_len (λ b. b == 10) bytes.now }
{
    bytes.iter().take_while(|byte| **byte != b'\n').count()
}

/// Appends a physical line of the file to the text, or what replaces the line there. Returns `false` if the text is cut
/// at this line.
fn push_line(text: &mut String, line: &[u8]) -> Result<bool, AllocError>
    ensures text { OnOk result (string_bytes text.new ≡ string_bytes text.old ++ line_in_text line.now) }
    ensures goes_on { IfOk result (λ goes_on. goes_on ≡ is_readable line.now) }
{
    if let Some(line) = as_text(line) {
        text.push_str(line)?;
        return Ok(true);
    }
    if is_comment(line) {
        text.push_str("#\n")?;
        return Ok(true);
    }
    text.push('?')?;
    Ok(false)
}

/// Returns the bytes as a text, or `None` if they aren't UTF-8.
fn as_text(bytes: &[u8]) -> Option<&str>
    ensures { MatchOption result (is_utf8 bytes.now ≡ false)
        (λ text. (is_utf8 bytes.now ≡ true) × (text.now ≡ bytes.now)) }
{
    let Ok(text) = str::from_utf8(bytes) else {
        return None;
    };
    Some(text)
}

/// Returns whether a physical line is a comment, ignoring its leading blanks.
fn is_comment(line: &[u8]) -> bool
    ensures { result ≡ is_comment (trim_start_matches is_blank_or_return line.now) }
{
    matches!(trim_start(line), [b'#' | b';', ..])
}

/// Removes leading spaces, tabs and carriage returns.
#[tactic(auto, unfolding(cal_bytes::specs::rules::Trim::trim_start_matches))]
fn trim_start(line: &[u8]) -> &[u8]
    ensures { result.now ≡ trim_start_matches is_blank_or_return line.now }
{
    &line[leading_blanks(line)..]
}

fn leading_blanks(line: &[u8]) -> usize
    ensures value { result ≡ prefix_len is_blank_or_return line.now }
    ensures fits { result ≤ length line.now }
{
    line.iter()
        .take_while(|byte| matches!(**byte, b' ' | b'\t' | b'\r'))
        .count()
}

/// Reads the assignments in the sections called `name` of a text that is read in place of a file.
fn read_text(
    alloc: Global,
    name: &str,
    first: u32,
    text: &str,
    is_cut: bool,
) -> Result<ReadLines, AllocError>
    requires { first + length text.now < 2 ^ 32 }
    ensures assignments { IfOk result (λ read. map shown_owned_assignment read.assignments.items
        ≡ section_assignments name.now false (lines_until_broken is_cut (logical_lines first text.now))) }
    ensures broken { IfOk result (λ read. read.broken ≡ broken_in is_cut (logical_lines first text.now)) }
{
    let mut assignments = Vec::new(alloc);
    let mut inside = false;
    let mut number = first;
    let mut rest = text;
    while let Some(line) = first_logical(alloc, number, rest)? {
        if let Some(reason) = reason_in(alloc, is_cut, &line)? {
            let broken = BrokenLine {
                number: line.number,
                reason,
            };
            return Ok(ReadLines {
                assignments,
                broken: Some(broken),
            });
        }
        inside = take_line(
            alloc,
            &mut assignments,
            name,
            inside,
            line.number,
            line.text.as_str(),
        )?;
        number = line.next;
        rest = line.rest;
    }
    Ok(ReadLines {
        assignments,
        broken: None,
    })
}

/// Returns why systemd stops reading at a logical line, or `None` if it doesn't stop. `is_cut` says whether the last
/// line of the text replaces a line that isn't UTF-8.
fn reason_in(
    alloc: Global,
    is_cut: bool,
    line: &LogicalLine<'_>,
) -> Result<Option<BrokenReason>, AllocError>
    requires { line.now.next + length line.now.rest.now < 2 ^ 32 }
    ensures { IfOk result (λ reason. reason ≡ reason_in is_cut (line_at line.now.number (string_bytes line.now.text))
        (logical_lines line.now.next line.now.rest.now)) }
{
    if is_cut && is_last(alloc, line.next, line.rest)? {
        return Ok(Some(BrokenReason::NotUtf8));
    }
    Ok(broken_reason(trim(line.text.as_str())))
}

/// Returns whether no logical line is left in `rest`, the text after a line, because it is empty or has only comments.
/// `number` is the number of its first physical line.
fn is_last(alloc: Global, number: u32, rest: &str) -> Result<bool, AllocError>
    requires { number + length rest.now < 2 ^ 32 }
    ensures { IfOk result (λ is_last. is_last ≡ no_lines (logical_lines number rest.now)) }
{
    let next = first_logical(alloc, number, rest)?;
    Ok(next.is_none())
}

/// Returns why systemd stops reading at a line that is valid UTF-8, or `None` if it doesn't stop. For a line with a
/// noncharacter, the reason is [`BrokenReason::NotUtf8`].
fn broken_reason(line: &str) -> Option<BrokenReason>
    ensures { result ≡ broken_reason line.now }
{
    if !is_clean(line) {
        return Some(BrokenReason::NotUtf8);
    }
    if is_bad_header(line) {
        return Some(BrokenReason::BadHeader);
    }
    if line.len() >= LINE_LIMIT {
        return Some(BrokenReason::TooLong);
    }
    None
}

/// Returns whether systemd accepts the line as UTF-8: whether it has no noncharacters.
#[tactic(auto, using(crate::proofs::ReadableLemmas::clean_utf8))]
fn is_clean(line: &str) -> bool
    ensures { result ≡ is_clean_utf8 line.now }
{
    !has_noncharacter(line)
}

fn has_noncharacter(line: &str) -> bool
    ensures { result ≡ list_any is_noncharacter (chars line.now) }
{
    line.chars().any(is_noncharacter)
}

/// Returns whether the character is a noncharacter of Unicode: one of U+FDD0 to U+FDEF, or one of the last two code
/// points of a plane.
fn is_noncharacter(c: char) -> bool
    ensures { result ≡ is_noncharacter c }
{
    matches!(c, '\u{FDD0}'..='\u{FDEF}') || c as u32 % 0x1_0000 >= 0xFFFE
}

/// Returns whether the line begins with `[`, but isn't a valid section header: it doesn't end with `]`, or it has a
/// byte that no header can have.
fn is_bad_header(line: &str) -> bool
    ensures { result ≡ is_bad_header line.now }
{
    matches!(line.as_bytes(), [b'[', ..]) && (section(line).is_none() || has_bad_byte(line))
}

/// Returns whether the line has a byte that a section header can't have.
fn has_bad_byte(line: &str) -> bool
    ensures { result ≡ list_any is_bad_in_header line.now }
{
    line.as_bytes().iter().any(|byte| is_bad_in_header(*byte))
}

/// Returns whether a section header can't have this byte: whether it is a control character, a quote or a backslash.
fn is_bad_in_header(byte: u8) -> bool
    ensures { result ≡ is_bad_in_header byte }
{
    byte.is_ascii_control() || matches!(byte, b'"' | b'\'' | b'\\')
}

/// Appends the assignment in a logical line, if the line has one and is in a section called `name`. `inside` says
/// whether such a section is open before the line. Returns whether one is open after the line.
fn take_line(
    alloc: Global,
    assignments: &mut Vec<OwnedAssignment>,
    name: &str,
    inside: bool,
    number: u32,
    line: &str,
) -> Result<bool, AllocError>
    ensures { IfOk result (λ goes_on. (after : List Line)
        → map shown_owned_assignment assignments.old.items ++ section_assignments name.now inside (line_at number line.now ∷ after)
        ≡ map shown_owned_assignment assignments.new.items ++ section_assignments name.now goes_on after) }
{
    let line = trim(line);
    if let Some(opened) = section(line) {
        return Ok(opened == name.as_bytes());
    }
    if !inside {
        return Ok(false);
    }
    if let Some(assignment) = read_assignment(number, line) {
        assignments.push(owned(alloc, assignment)?)?;
    }
    Ok(true)
}

/// Copies an assignment into an [`OwnedAssignment`], which owns its key and value.
fn owned(alloc: Global, assignment: Assignment<'_>) -> Result<OwnedAssignment, AllocError>
    ensures { IfOk result (λ owned. shown_owned_assignment owned ≡ shown_assignment assignment.entry) }
{
    Ok(OwnedAssignment {
        number: assignment.number,
        key: String::from_str(alloc, assignment.key)?,
        value: String::from_str(alloc, assignment.value)?,
    })
}

/// Returns the number of physical lines: one for each line feed, and one more if bytes follow the last line feed.
pub(crate) fn line_count(bytes: &[u8]) -> usize
    ensures { result ≡ length (lines bytes.now) }
{
    let mut count = 0;
    let mut rest = bytes;
    while !rest.is_empty() {
        rest = split_line(rest).1;
        count += 1;
    }
    count
}
