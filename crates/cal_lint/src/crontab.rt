//! Converting the five fields of a crontab to a calendar expression (crontab(5)).

ghost use Rattle.std.specs.Prelude.{◌≡◌, IfOk, IfSome, Ok, string_bytes};
ghost use Rattle.std.specs.List.{list_all};
ghost use Rattle.std.specs.Option.{is_some, option_map};
ghost use Rattle.cal_bytes.specs.rules.Separators.{words};
ghost use Rattle.cal_cron.specs.computed.Translation.{shown_exprs};
ghost use Rattle.cal_lint.specs.rules.Crontab.{are_crontab, crontab_expression, five_words, is_crontab, is_field_byte, shown_fields, single_expression};

use cal_bytes::first_word;
use cal_cron::{CronExprs, CronFault, read_cron};
use cal_spec::normal_text;
use std::alloc::{AllocError, Global};

/// The five fields of a line of a crontab.
#[derive(Clone, Copy)]
struct CrontabFields<'t> {
    minute: &'t str,
    hour: &'t str,
    day: &'t str,
    month: &'t str,
    weekday: &'t str,
}

/// Returns the calendar expression that elapses when cron runs a line with these five fields, in normal form. Returns an
/// empty text if cron rejects the fields, or if only two expressions together elapse when cron runs the line. Returns
/// `None` if `text` doesn't look like the fields of a crontab: see [`is_crontab`]. Fails only if allocation fails.
pub(crate) fn from_crontab(alloc: Global, text: &str) -> Result<Option<String>, AllocError>
    ensures found { IfOk result (λ expr. is_some expr ≡ is_crontab text.now) }
    ensures expression { IfOk result (λ found. IfSome found (λ expr. string_bytes expr ≡ crontab_expression text.now)) }
{
    if !is_crontab(text) {
        return Ok(None);
    }
    let expr = expression_of(alloc, text)?;
    Ok(Some(expr))
}

#[tactic(auto, unfolding(crate::specs::rules::Crontab::crontab_expression))]
fn expression_of(alloc: Global, text: &str) -> Result<String, AllocError>
    ensures { IfOk result (λ expr. string_bytes expr ≡ crontab_expression text.now) }
{
    match read_cron(alloc, text) {
        Ok(exprs) => single_expression(alloc, &exprs),
        Err(CronFault::NoMemory) => Err(AllocError),
        Err(_) => Ok(String::new(alloc)),
    }
}

/// Returns the normal form of the only expression, or an empty text if there are two.
fn single_expression(alloc: Global, exprs: &CronExprs) -> Result<String, AllocError>
    ensures { IfOk result (λ expr. string_bytes expr ≡ single_expression (Ok (shown_exprs exprs.now))) }
{
    match exprs.other {
        Some(_) => Ok(String::new(alloc)),
        None => normal_text(alloc, &exprs.first),
    }
}

/// Returns whether a text looks like the five fields of a crontab.
#[tactic(auto, unfolding(crate::specs::rules::Crontab::is_crontab))]
pub(crate) fn is_crontab(text: &str) -> bool
    ensures { result ≡ is_crontab text.now }
{
    match crontab_fields(text) {
        Some(fields) => are_crontab(fields),
        None => false,
    }
}

/// Splits a text into words at blanks. Returns `None` if there aren't exactly five words.
fn crontab_fields(text: &str) -> Option<CrontabFields<'_>>
    ensures { option_map shown_fields result ≡ five_words (words text.now) }
{
    let (minute, rest) = first_word(text)?;
    let (hour, rest) = first_word(rest)?;
    let (day, rest) = first_word(rest)?;
    let (month, rest) = first_word(rest)?;
    let (weekday, rest) = first_word(rest)?;
    match first_word(rest) {
        Some(_) => None,
        None => Some(CrontabFields {
            minute,
            hour,
            day,
            month,
            weekday,
        }),
    }
}

/// Returns whether the first four fields consist only of digits, `*`, `/`, `,` and `-`.
fn are_crontab(fields: CrontabFields<'_>) -> bool
    ensures { result ≡ are_crontab (shown_fields fields.entry) }
{
    is_field(fields.minute)
        && is_field(fields.hour)
        && is_field(fields.day)
        && is_field(fields.month)
}

/// Returns whether a word consists only of digits, `*`, `/`, `,` and `-`. This is true of the fields of a crontab,
/// except those with names, such as `jan`.
fn is_field(word: &str) -> bool
    ensures { result ≡ list_all is_field_byte word.now }
{
    word.as_bytes().iter().all(|byte| is_field_byte(*byte))
}

fn is_field_byte(byte: u8) -> bool
    ensures { result ≡ is_field_byte byte }
{
    byte.is_ascii_digit() || byte == b'*' || byte == b'/' || byte == b',' || byte == b'-'
}
