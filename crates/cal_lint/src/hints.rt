//! What to write instead of an invalid calendar expression.
//!
//! Hints depend only on the form of the text. A suggestion is always a valid expression that no rule of `Systemd252`
//! rejects. If no such expression is known, the hint has no suggestion.

ghost use Rattle.std.specs.Prelude.{◌≡◌, IfOk, IfSome, Some, false, is_ok, string_bytes, true};
ghost use Rattle.std.specs.List.{list_any};
ghost use Rattle.std.specs.Option.{option_map};
ghost use Rattle.std.specs.Char.{is_ascii_alphabetic};
ghost use Rattle.cal_bytes.specs.rules.Trim.{trim_matches};
ghost use Rattle.cal_bytes.specs.rules.Separators.{is_blank};
ghost use Rattle.cal_spec.specs.computed.Expr.{expr_in};
ghost use Rattle.cal_lint.specs.rules.Hints.{IsMistakeIn, is_comment_mark, is_span, mistake_in};
ghost use Rattle.cal_lint.specs.rules.Systemd252.{IsNotRejected};
ghost use Rattle.cal_lint.specs.declared.hints.Mistake.{Mistake};

use crate::accepted::accepted_text;
use crate::crontab::{from_crontab, is_crontab};
use crate::hint_words::rewrite_words;
use cal_bytes::{trim_blanks, trim_blanks_end};
use cal_civil::is_utc_name;
use cal_span::read_span;
use cal_spec::{SpecFault, read_expr};
use std::alloc::{AllocError, Global};

/// A known mistake that an invalid expression resembles.
#[derive(Clone, Copy)]
pub enum Mistake {
    /// An assignment, such as `OnCalendar=daily`, in place of its value.
    Assignment,
    /// An expression with a comment after it. A comment has to be on a line of its own (systemd.syntax(7)).
    Comment,
    /// `now`, which is a timestamp (systemd.time(7), Parsing Timestamps).
    Now,
    /// A time span, such as `15min` (systemd.time(7), Parsing Time Spans). Timers take spans in settings such as
    /// `OnUnitActiveSec=` (systemd.timer(5)).
    Span,
    /// The five fields of a crontab: minute, hour, day of the month, month and weekday.
    Crontab,
    /// A time on a 12-hour clock, such as `9am`.
    TwelveHours,
    /// A time with a point in place of the colon, such as `09.00`.
    Point,
    /// An hour without minutes, such as `9`.
    BareHour,
    /// A UTC offset of one or two digits without minutes, such as `+2` in place of `+02:00`.
    ShortOffset,
    /// A year and a month without a day, such as `2026-12`.
    YearMonth,
    /// A weekday that is misspelled, or shortened to anything but three letters.
    Weekday,
    /// A misspelled shorthand, such as `dialy`.
    Shorthand,
}

/// The known mistake that an invalid expression resembles, and what to write instead.
#[derive(Drop)]
pub struct Hint {
    pub mistake: Mistake,
    /// An expression to write instead, if one is known. [`crate::systemd_252`] finds no reason to reject it.
    pub instead: Option<String>,
}

/// Returns a hint for an invalid expression (systemd.time(7), Calendar Events), or `None` if the text is a valid
/// expression or doesn't resemble a known mistake. Fails only if allocation fails.
pub fn find_hint(alloc: Global, text: &str) -> Result<Option<Hint>, AllocError>
    ensures invalid { IfOk result (λ found. IfSome found (λ hint. is_ok (expr_in text.now) ≡ false)) }
    ensures mistake { IfOk result (λ found. is_ok (expr_in text.now) ≡ false
        → IsMistakeIn (trim_matches is_blank text.now) (option_map (λ hint. hint.mistake) found)) }
    ensures instead { IfOk result (λ found. IfSome found (λ hint. IfSome hint.instead (λ instead.
        IsNotRejected (string_bytes instead)))) }
{
    if is_valid_expression(alloc, text)? {
        return Ok(None);
    }
    let Some(found) = hint_for(alloc, trim_blanks(text))? else {
        return Ok(None);
    };
    let Hint { mistake, instead } = found;
    let instead = keep_accepted(alloc, instead)?;
    Ok(Some(Hint { mistake, instead }))
}

/// Returns whether a text is a valid expression. Fails only if allocation fails.
pub(crate) fn is_valid_expression(alloc: Global, text: &str) -> Result<bool, AllocError>
    ensures { IfOk result (λ valid. valid ≡ is_ok (expr_in text.now)) }
{
    match read_expr(alloc, text) {
        Ok(_) => Ok(true),
        Err(SpecFault::NoMemory) => Err(AllocError),
        Err(_) => Ok(false),
    }
}

/// Returns `text` if systemd 252 accepts it, or else its normal form if systemd 252 accepts the normal form. Otherwise,
/// returns `None`. Also returns `None` if the last word is parsed as a zone but hardly names one: `9 Uhr` is rewritten
/// to `09:00 Uhr`, but there is no zone `Uhr`.
fn keep_accepted(alloc: Global, text: Option<String>) -> Result<Option<String>, AllocError>
    ensures { IfOk result (λ kept. IfSome kept (λ text. IsNotRejected (string_bytes text))) }
{
    let Some(text) = text else {
        return Ok(None);
    };
    if !has_likely_zone(alloc, text.as_str())? {
        return Ok(None);
    }
    accepted_text(alloc, text)
}

/// Returns whether a text is a valid expression that names no zone, or a zone that is `UTC` or has a `/` in its name,
/// as most zones have.
fn has_likely_zone(alloc: Global, text: &str) -> Result<bool, AllocError> {
    let expr = match read_expr(alloc, text) {
        Ok(expr) => expr,
        Err(SpecFault::NoMemory) => return Err(AllocError),
        Err(_) => return Ok(false),
    };
    match expr.zone_name() {
        Some(name) => Ok(is_utc_name(name) || name.as_bytes().contains(&b'/')),
        None => Ok(true),
    }
}

/// Returns a hint for `text`, which has no leading or trailing blanks. Doesn't check that `text` is invalid, or that
/// the suggestion is valid.
fn hint_for(alloc: Global, text: &str) -> Result<Option<Hint>, AllocError>
    ensures { IfOk result (λ found. IsMistakeIn text.now (option_map (λ hint. hint.mistake) found)) }
{
    match mistake_in(text) {
        Some(mistake) => hint_with(alloc, mistake, text),
        None => rewrite_words(alloc, text),
    }
}

/// Returns the mistake in the text as a whole, or `None` if there is none. Mistakes in single words aren't considered.
/// If there are several mistakes, returns the first in the order of [`Mistake`].
#[tactic(auto, unfolding(crate::specs::rules::Hints::mistake_in))]
fn mistake_in(text: &str) -> Option<Mistake>
    ensures { result ≡ mistake_in text.now }
{
    if text.as_bytes().contains(&b'=') {
        Some(Mistake::Assignment)
    } else if has_comment_mark(text.as_bytes()) {
        Some(Mistake::Comment)
    } else if text.as_bytes().eq_ignore_ascii_case(b"now") {
        Some(Mistake::Now)
    } else if is_span(text) {
        Some(Mistake::Span)
    } else if is_crontab(text) {
        Some(Mistake::Crontab)
    } else {
        None
    }
}

/// Returns a hint with this mistake. If the mistake is an assignment in place of its value, the hint suggests the
/// value. If it is a comment after the expression, the hint suggests the text before the comment. In both cases,
/// further mistakes in the suggestion are corrected, too. For the fields of a crontab, the hint suggests the expression
/// that stands for the same times. For all other mistakes, there is no suggestion.
fn hint_with(alloc: Global, mistake: Mistake, text: &str) -> Result<Option<Hint>, AllocError>
    ensures { IfOk result (λ found. option_map (λ hint. hint.mistake) found ≡ Some mistake) }
{
    let instead = match mistake {
        Mistake::Assignment => rewritten(alloc, assigned_expression(text))?,
        Mistake::Comment => rewritten(alloc, before_comment(text))?,
        Mistake::Crontab => from_crontab(alloc, text)?,
        _ => None,
    };
    Ok(Some(Hint { mistake, instead }))
}

/// If `text` has the form of the fields of a crontab, returns the expression for them. Otherwise, returns `text`
/// without surrounding blanks and with its mistakes in single words corrected. Returns `None` if `text` is `None`, or
/// if the corrected text isn't known.
fn rewritten(alloc: Global, text: Option<&str>) -> Result<Option<String>, AllocError> {
    let Some(text) = text else {
        return Ok(None);
    };
    let text = trim_blanks(text);
    if let Some(expr) = from_crontab(alloc, text)? {
        return Ok(Some(expr));
    }
    match rewrite_words(alloc, text)? {
        Some(hint) => Ok(hint.instead),
        None => Ok(Some(String::from_str(alloc, text)?)),
    }
}

/// Returns the value of an assignment to `OnCalendar` or `X-ExceptOnCalendar`, ignoring case. Returns `None` for any
/// other key, since the text after the `=` may then be only a part of the expression.
fn assigned_expression(text: &str) -> Option<&str> {
    let (key, value) = text.split_once('=')?;
    let key = trim_blanks(key).as_bytes();
    if key.eq_ignore_ascii_case(b"OnCalendar") || key.eq_ignore_ascii_case(b"X-ExceptOnCalendar") {
        Some(value)
    } else {
        None
    }
}

/// Returns the text before the first `#`, or `None` if there is no `#` or no blank before it. A `;` isn't taken as the
/// start of a comment, since it may separate two expressions.
fn before_comment(text: &str) -> Option<&str> {
    let (before, _) = text.split_once('#')?;
    if trim_blanks_end(before).len() < before.len() {
        Some(before)
    } else {
        None
    }
}

fn has_comment_mark(text: &[u8]) -> bool
    ensures { result ≡ list_any is_comment_mark text.now }
{
    text.iter().any(|byte| *byte == b'#' || *byte == b';')
}

/// Returns whether the text has a letter and is a time span.
fn is_span(text: &str) -> bool
    ensures { result ≡ is_span text.now }
{
    has_letter(text.as_bytes()) && read_span(text).is_ok()
}

fn has_letter(text: &[u8]) -> bool
    ensures { result ≡ list_any is_ascii_alphabetic text.now }
{
    text.iter().any(|byte| byte.is_ascii_alphabetic())
}
