//! Parsing of the start and the end of the range in which the verb `between` lists elapses.

ghost use Rattle.std.specs.Prelude.{◌≡◌, IfOk, option_map};
ghost use Rattle.cal_zone.specs.rules.Setting.{setting_seen};
ghost use Rattle.cal_spec.specs.rules.WeekdayNames.{leading_letters};
ghost use Rattle.cal_bytes.specs.rules.Separators.{words};
ghost use Rattle.cal_tasks.specs.rules.When.{IsUnlessNoMemory, begin_with_weekday, fields_unless_dated, first_elapse, first_if_some, is_dated, next_weekday_time, setting_with, weekday_time_in, when_in};

use crate::present::Present;
use cal_bytes::first_word;
use cal_elapse::Elapses;
use cal_plan::{Instants, zone_for};
use cal_read::{StampFault, read_stamp};
use cal_spec::{Expr, Field, SpecFault, find_day, letters_len, read_expr};
use cal_zone::{Instant, Setting, ZoneTable};
use std::alloc::{AllocError, Global};

/// Why a text can't be parsed as an instant.
#[derive(Clone, Copy)]
pub enum WhenFault {
    /// The text is neither a weekday with a time that elapses nor a timestamp. The value is the error of parsing it as
    /// a timestamp.
    NoInstant(StampFault),
    /// Out of memory. The text may still be valid.
    NoMemory,
}

impl From<AllocError> for WhenFault {
    ghost use Rattle.std.specs.Prelude.{◌≡◌};
    ghost use Rattle.cal_tasks.specs.declared.when.WhenFault.TheVariants.{NoMemory};

    ghost from_gives = { λ _ fault. fault ≡ NoMemory };

    fn from(_refused: AllocError) -> WhenFault {
        WhenFault::NoMemory
    }
}

/// Parses an instant: a weekday with a time, or a timestamp (systemd.time(7), Parsing Timestamps).
///
/// A weekday with a time, such as `Fri 18:00`, is a calendar expression that begins with the name of a weekday and has
/// no date other than `*-*-*`. It resolves to its first elapse after `after`. It may name several weekdays, as in
/// `Mon..Fri 9:00`, and it may end in a zone or a UTC offset. Without a time, it stands for midnight. As a timestamp,
/// such a text would be accepted only if the present day is the weekday that it names.
///
/// All other texts are parsed as timestamps, and so is a weekday with a time that doesn't elapse after `after`. The
/// moment of a timestamp is rounded down to a whole second. The zones that can be named are `UTC` and those of `zones`.
///
/// Fails with [`WhenFault::NoInstant`] and the error of the timestamp if the text is neither, and with
/// [`WhenFault::NoMemory`] if allocation fails; this error doesn't say whether the text is valid.
pub fn read_when(
    alloc: Global,
    at: Present<'_>,
    zones: &ZoneTable,
    after: Instant,
    text: &str,
) -> Result<Instant, WhenFault>
    ensures { IsUnlessNoMemory (when_in at.entry.now.secs (setting_with at.entry zones.now) after.secs text.now) result }
{
    let setting = Setting {
        now: at.now,
        local: at.local,
        zones,
    };
    if let Some(instant) = next_weekday_time(alloc, setting, after, text)? {
        return Ok(instant);
    }
    match read_stamp(text, at.now, at.local, zones) {
        Ok(moment) => Ok(moment.instant()),
        Err(fault) => Err(WhenFault::NoInstant(fault)),
    }
}

/// Parses a weekday with a time, and returns its first elapse after `after`. Returns `None` if the text isn't a weekday
/// with a time, if it names a zone that isn't known, or if it doesn't elapse after `after`.
fn next_weekday_time(
    alloc: Global,
    setting: Setting<'_>,
    after: Instant,
    text: &str,
) -> Result<Option<Instant>, AllocError>
    ensures { IfOk result (λ found. option_map (λ instant. instant.secs) found
        ≡ next_weekday_time (setting_seen setting.entry) after.secs text.now) }
{
    let expr = read_weekday_time(alloc, text)?;
    first_if_some(alloc, setting, after, &expr)
}

/// Returns the first elapse of the expression after `after`, if there is an expression.
fn first_if_some(
    alloc: Global,
    setting: Setting<'_>,
    after: Instant,
    expr: &Option<Expr>,
) -> Result<Option<Instant>, AllocError>
    ensures { IfOk result (λ found. option_map (λ instant. instant.secs) found
        ≡ first_if_some (setting_seen setting.entry) after.secs expr.now) }
{
    match expr {
        Some(expr) => first_elapse(alloc, setting, after, expr),
        None => Ok(None),
    }
}

/// Returns the first elapse of an expression after `after`. Returns `None` if the zone of the expression isn't known,
/// or if the expression doesn't elapse after `after`.
#[tactic(auto, using(cal_plan::proofs::ElapseInstants::elapses_are_instants))]
fn first_elapse(
    alloc: Global,
    setting: Setting<'_>,
    after: Instant,
    expr: &Expr,
) -> Result<Option<Instant>, AllocError>
    ensures { IfOk result (λ found. option_map (λ instant. instant.secs) found
        ≡ first_elapse (setting_seen setting.entry) after.secs expr.now) }
{
    let Some(zone) = zone_for(setting, expr) else {
        return Ok(None);
    };
    let Ok(elapses) = Elapses::new(alloc, expr, zone, after) else {
        return Err(AllocError);
    };
    Ok(Instants::new(elapses).next())
}

/// Parses a calendar expression that begins with the name of a weekday and has no date other than `*-*-*`. Returns
/// `None` for any other text.
fn read_weekday_time(alloc: Global, text: &str) -> Result<Option<Expr>, AllocError>
    ensures { IfOk result (λ expr. expr ≡ weekday_time_in text.now) }
{
    if !begins_with_weekday(text) {
        return Ok(None);
    }
    match read_expr(alloc, text) {
        Ok(expr) => Ok(expr_unless_dated(expr)),
        Err(SpecFault::NoMemory) => Err(AllocError),
        Err(_) => Ok(None),
    }
}

/// Returns the expression if it has no date other than `*-*-*`.
fn expr_unless_dated(expr: Expr) -> Option<Expr>
    ensures { result ≡ fields_unless_dated expr }
{
    if is_dated(&expr) { None } else { Some(expr) }
}

fn is_dated(expr: &Expr) -> bool
    ensures { result ≡ is_dated expr.now }
{
    expr.field(Field::Year).is_some()
        || expr.field(Field::Month).is_some()
        || expr.field(Field::Day).is_some()
}

/// Returns whether the letters at the beginning of the first word are the name of a weekday.
fn begins_with_weekday(text: &str) -> bool
    ensures { result ≡ begin_with_weekday (words text.now) }
{
    match first_word(text) {
        Some((word, _)) => find_day(leading_letters(word.as_bytes())).is_some(),
        None => false,
    }
}

fn leading_letters(word: &[u8]) -> &[u8]
    ensures { result.now ≡ leading_letters word.now }
{
    &word[..letters_len(word)]
}
