//! What systemd 252 rejects in calendar expressions that are valid here.

ghost use Rattle.std.specs.Prelude.{◌≡◌, ◌≤◌, ◌==◌, IsTrue, length};
ghost use Rattle.std.specs.Option.{option_and_then, option_copied};
ghost use Rattle.std.specs.List.{after_first, find, list_all, list_any, prefix_len, slice_split};
ghost use Rattle.std.specs.Char.{is_ascii_digit};
ghost use Rattle.cal_bytes.specs.computed.SplitPieces.{pieces_after};
ghost use Rattle.cal_bytes.specs.rules.Separators.{is_colon, is_comma, words, is_slash};
ghost use Rattle.cal_spec.specs.computed.Reads.{GivesUnlessNoMemory};
ghost use Rattle.cal_spec.specs.rules.WeekdayNames.{after_joint, day_named};
ghost use Rattle.cal_lint.specs.rules.Systemd252.{are_equal, rejection_in, has_empty_part, has_extra, has_extra_after, has_large_step, has_late_days, has_late_part, has_weekday_wrap, is_date, is_one_second, is_rejected_for, is_space, is_weekday_list, piece_is_rejected_for, runs_past_sunday, seconds_in, step_in, word_is_rejected_for};

use cal_bytes::{are_digits, decimal_value, first_word};
use cal_civil::{begins_with_letter, begins_zone};
use cal_spec::{Expr, Field, Part, SpecFault, find_day, first_piece, letters_len, read_expr};
use jiff_core::civil::Weekday;
use std::alloc::Global;

/// The greatest step of a range of seconds that systemd 252 accepts. systemd stores seconds as microseconds in signed
/// 32-bit numbers, in which a greater step doesn't fit.
const MAX_SECOND_STEP: u64 = 2147;

/// The greatest number that systemd 252 accepts in the first part of a list of days that are counted from the month's
/// end.
const MAX_DAY_FROM_END: u16 = 28;

/// The greatest number that an expression may contain.
const MAX_NUMBER: u64 = 9999;

/// Why systemd 252 rejects a calendar expression that is valid here.
#[derive(Clone, Copy)]
pub enum Rejection {
    /// The expression contains a tab.
    Tab,
    /// The expression begins with a space, ends with one, or has two consecutive spaces. Spaces after the weekdays and
    /// after the date don't count, since systemd 252 skips any number of them.
    Blanks,
    /// A range of weekdays runs past Sunday, as `Sat..Mon` does.
    PastSunday,
    /// A range of seconds has no step and only one value, as `5..5` does.
    OneSecond,
    /// The step of a range of seconds is greater than 2,147.
    SecondStep,
    /// Days are counted from the month's end, and a number in the list of days is too large for its position in the
    /// normal form: numbers in the first part may be up to 28, in the second up to 25, in the third up to 22 and so on.
    DaysFromEnd,
    /// The zone is a UTC offset, such as `+02:00`.
    Offset,
    /// The name of the zone ends in `/` or contains `//`.
    ZoneName,
}

impl Rejection {
    const ALL: [Rejection; 8] = [
        Rejection::Tab,
        Rejection::Blanks,
        Rejection::PastSunday,
        Rejection::OneSecond,
        Rejection::SecondStep,
        Rejection::DaysFromEnd,
        Rejection::Offset,
        Rejection::ZoneName,
    ];
}

/// Returns why systemd 252 rejects a calendar expression that is valid here, or `None` if systemd 252 accepts the
/// expression (systemd.time(7), Calendar Events). If there are several reasons, returns the first in the order of
/// [`Rejection`].
///
/// systemd 252 also rejects an expression with the name of a zone that the machine doesn't have. This function doesn't
/// check whether the machine has the zone.
///
/// Fails with the error of [`read_expr`] if `text` is not a valid expression. Fails with [`SpecFault::NoMemory`] only
/// if allocation fails.
#[tactic(auto, unfolding(crate::specs::rules::Systemd252::rejection_in))]
pub fn systemd_252(alloc: Global, text: &str) -> Result<Option<Rejection>, SpecFault>
    ensures { GivesUnlessNoMemory (λ rejection. rejection) result (rejection_in text.now) }
{
    let expr = read_expr(alloc, text)?;
    Ok(first_among(&Rejection::ALL, text, &expr))
}

fn first_among(rejections: &[Rejection], text: &str, expr: &Expr) -> Option<Rejection>
    ensures { result ≡ find (λ rejection. is_rejected_for text.now expr.now rejection) rejections.now }
{
    rejections
        .iter()
        .copied()
        .find(|rejection| is_rejected_for(text, expr, *rejection))
}

/// Returns whether systemd 252 rejects `text`, which is parsed as `expr`, for this reason.
fn is_rejected_for(text: &str, expr: &Expr, rejection: Rejection) -> bool
    ensures { result ≡ is_rejected_for text.now expr.now rejection }
{
    match rejection {
        Rejection::Tab => text.as_bytes().contains(&b'\t'),
        Rejection::Blanks => has_extra(text.as_bytes()),
        Rejection::PastSunday => has_weekday_wrap(text),
        Rejection::DaysFromEnd => has_late_days(expr),
        _ => any_word_is_rejected_for(rejection, text),
    }
}

fn any_word_is_rejected_for(rejection: Rejection, text: &str) -> bool
    ensures { result ≡ list_any (word_is_rejected_for rejection) (words text.now) }
{
    let mut rest = text;
    while let Some((word, after)) = first_word(rest) {
        if word_is_rejected_for(rejection, word) {
            return true;
        }
        rest = after;
    }
    false
}

fn word_is_rejected_for(rejection: Rejection, word: &str) -> bool
    ensures { result ≡ word_is_rejected_for rejection word.now }
{
    match rejection {
        Rejection::OneSecond | Rejection::SecondStep => {
            any_piece(rejection, b',', seconds_in(word).as_bytes())
        }
        Rejection::Offset => matches!(word.as_bytes(), [b'+' | b'-', ..]),
        Rejection::ZoneName => has_empty_part(word.as_bytes()),
        _ => false,
    }
}

/// Returns whether one of the pieces between the separators of `text` makes systemd 252 reject the expression for this
/// reason.
fn any_piece(rejection: Rejection, separator: u8, text: &[u8]) -> bool
    ensures { result ≡ list_any (piece_is_rejected_for rejection)
        (slice_split (λ byte. byte == separator) text.now) }
{
    let mut rest = Some(text);
    while let Some(texts) = rest {
        let (piece, after) = first_piece(texts, separator);
        if piece_is_rejected_for(rejection, piece) {
            return true;
        }
        rest = after;
    }
    false
}

fn piece_is_rejected_for(rejection: Rejection, piece: &[u8]) -> bool
    ensures { result ≡ piece_is_rejected_for rejection piece.now }
{
    match rejection {
        Rejection::PastSunday => runs_past_sunday(piece),
        Rejection::OneSecond => is_one_second(piece),
        Rejection::SecondStep => has_large_step(piece),
        Rejection::ZoneName => piece.is_empty(),
        _ => false,
    }
}

// ## Blanks

/// Returns whether an expression has an additional space that systemd 252 doesn't skip.
fn has_extra(text: &[u8]) -> bool
    ensures { result ≡ has_extra (slice_split is_space text.now) }
{
    let (first, rest) = first_piece(text, b' ');
    first.is_empty() || has_extra_after(is_weekday_list(first) || is_date(first), rest)
}

/// Returns whether `rest` has an additional space that systemd 252 doesn't skip. `skips` says whether systemd 252 skips
/// additional spaces at the start of `rest`.
fn has_extra_after(skips: bool, rest: Option<&[u8]>) -> bool
    ensures { result ≡ has_extra_after skips (pieces_after is_space (option_copied rest.entry)) }
{
    let mut skips = skips;
    let mut rest = rest;
    while let Some(text) = rest {
        let (piece, after) = first_piece(text, b' ');
        if !piece.is_empty() {
            skips = is_date(piece);
        } else if !skips {
            return true;
        }
        rest = after;
    }
    false
}

/// Returns whether `word`, the first word of a valid expression, is a list of weekdays and not a shorthand.
fn is_weekday_list(word: &[u8]) -> bool
    ensures { result ≡ is_weekday_list word.now }
{
    find_day(&word[..letters_len(word)]).is_some()
}

/// Returns whether a word of a valid expression is the date of the expression.
fn is_date(word: &[u8]) -> bool
    ensures { result ≡ is_date word.now }
{
    !begins_zone(word) && !word.contains(&b':')
}

// ## Weekdays

/// Returns whether the first word has a range of weekdays that runs past Sunday.
fn has_weekday_wrap(text: &str) -> bool
    ensures { result ≡ has_weekday_wrap (words text.now) }
{
    match first_word(text) {
        Some((word, _)) => any_piece(Rejection::PastSunday, b',', word.as_bytes()),
        None => false,
    }
}

/// Returns whether an item of a weekday list is a range that runs past Sunday.
#[tactic(auto, unfolding(cal_spec::specs::rules::WeekdayNames::days_of))]
fn runs_past_sunday(item: &[u8]) -> bool
    ensures { result ≡ runs_past_sunday item.now }
{
    let (letters, after) = item.split_at(letters_len(item));
    match (find_day(letters), day_after_joint(after)) {
        (Some(first), Some(last)) => last.to_monday_zero_offset() < first.to_monday_zero_offset(),
        _ => false,
    }
}

/// Returns the weekday whose name follows a leading `..` or `-`. Returns `None` for any other text.
fn day_after_joint(text: &[u8]) -> Option<Weekday>
    ensures { result ≡ option_and_then day_named (after_joint text.now) }
{
    match text {
        [b'-', name @ ..] | [b'.', b'.', name @ ..] => find_day(name),
        _ => None,
    }
}

// ## Seconds

/// Returns the seconds of a time: the text after its second colon, or an empty text if there is no second colon.
fn seconds_in(word: &str) -> &str
    ensures { result.now ≡ seconds_in word.now }
{
    after_colon(after_colon(word))
}

/// Returns the text after the first colon, or an empty text if there is no colon.
fn after_colon(text: &str) -> &str
    ensures { result.now ≡ after_first is_colon text.now }
{
    match text.split_once(':') {
        Some((_, after)) => after,
        None => "",
    }
}

/// Returns whether a part of the seconds is a range without a step, and the ends of the range are equal.
fn is_one_second(part: &[u8]) -> bool
    ensures { result ≡ is_one_second part.now }
{
    let (first, after) = part.split_at(digits_len(part));
    match after {
        [b'.', b'.', last @ ..] => are_digits(last) && are_equal(first, last),
        _ => false,
    }
}

fn digits_len(text: &[u8]) -> usize
    ensures value { result ≡ prefix_len is_ascii_digit text.now }
    ensures within { result ≤ length text.now }
{
    text.iter().take_while(|byte| byte.is_ascii_digit()).count()
}

/// Returns whether two texts of digits are the same number, and this number isn't above [`MAX_NUMBER`].
fn are_equal(a: &[u8], b: &[u8]) -> bool
    requires first { IsTrue (list_all is_ascii_digit a.now) }
    requires last { IsTrue (list_all is_ascii_digit b.now) }
    ensures { result ≡ are_equal a.now b.now }
{
    decimal_value(a) == decimal_value(b) && decimal_value(a) <= MAX_NUMBER
}

/// Returns whether a part of the seconds has a step that is too large for systemd 252.
fn has_large_step(part: &[u8]) -> bool
    ensures { result ≡ has_large_step part.now }
{
    let step = step_in(part);
    are_digits(step) && decimal_value(step) > MAX_SECOND_STEP
}

/// Returns the text between the first `/` and the next `/` or the end, or an empty text if there is no `/`.
fn step_in(part: &[u8]) -> &[u8]
    ensures { result.now ≡ step_in (slice_split is_slash part.now) }
{
    match first_piece(part, b'/').1 {
        Some(after) => first_piece(after, b'/').0,
        None => b"",
    }
}

// ## Days

/// Returns whether days are counted from the month's end, and one of their numbers is too large for its position in the
/// list.
fn has_late_days(expr: &Expr) -> bool
    ensures { result ≡ has_late_days expr.now }
{
    match expr.field(Field::Day) {
        Some(parts) => expr.from_end() && has_late_part(parts),
        None => false,
    }
}

fn has_late_part(parts: &[Part]) -> bool
    ensures { result ≡ has_late_part 28 parts.now }
{
    let mut greatest = MAX_DAY_FROM_END;
    for part in parts {
        if part.end.unwrap_or(part.start) > greatest {
            return true;
        }
        greatest = greatest.saturating_sub(3);
    }
    false
}

// ## Zones

/// Returns whether a word is the name of a zone that ends in `/` or contains `//`.
fn has_empty_part(word: &[u8]) -> bool
    ensures { result ≡ has_empty_part word.now }
{
    begins_with_letter(word) && any_piece(Rejection::ZoneName, b'/', word)
}
