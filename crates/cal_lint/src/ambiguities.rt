//! Valid calendar expressions that may not mean what their author thinks.

ghost use Rattle.std.specs.Prelude.{◌≡◌};
ghost use Rattle.std.specs.Char.{is_ascii_uppercase};
ghost use Rattle.std.specs.List.{find, list_all};
ghost use Rattle.std.specs.Option.{option_copied};
ghost use Rattle.cal_spec.specs.computed.Reads.{GivesUnlessNoMemory};
ghost use Rattle.cal_bytes.specs.rules.Separators.{words};
ghost use Rattle.cal_spec.specs.rules.ZoneSuffix.{name_in};
ghost use Rattle.cal_lint.specs.rules.Ambiguities.{ambiguity_in, has_abbreviation, has_hours, has_month_day, is_ambiguous, is_hour_list, is_hour_range, is_later_hour, is_month_day, is_range_to, looks_like_abbreviation, part_number, single};

use cal_bytes::first_word;
use cal_civil::is_utc_name;
use cal_spec::{Expr, Field, Part, SpecFault, read_expr};
use std::alloc::Global;

/// Why a valid expression may not mean what its author thinks.
#[derive(Clone, Copy)]
pub enum Ambiguity {
    /// The hour and the second are single numbers, and the minutes are a range, without a step, from 0 to a number that
    /// could be a later hour. `10:00..12:00` stands for the minutes 0 to 12 of the hour 10, and not for the time from
    /// 10:00 to 12:00.
    HourRange,
    /// The hour and the second are single numbers, and the minutes are two numbers: 0 and a number that could be a
    /// later hour. `00:00,12:00` stands for 00:00 and 00:12, and not for 00:00 and 12:00.
    HourList,
    /// The date is a month and a day that could be meant as a range of weekdays, with 1 for Monday and 7 for Sunday.
    /// `1-5 09:00` stands for January 5, and not for Monday to Friday.
    MonthDay,
    /// The name of the zone looks like an abbreviation, such as `CET`: see [`looks_like_abbreviation`]. If it is one of
    /// the two abbreviations of the machine's own zone, systemd takes it for winter time or for summer time only, and
    /// the timer elapses only in one half of the year. Otherwise it is the name of a zone file.
    Abbreviation,
}

impl Ambiguity {
    const ALL: [Ambiguity; 4] = [
        Ambiguity::HourRange,
        Ambiguity::HourList,
        Ambiguity::MonthDay,
        Ambiguity::Abbreviation,
    ];
}

/// Returns why a valid calendar expression may not mean what its author thinks (systemd.time(7), Calendar Events), or
/// `None` if no [`Ambiguity`] applies to it. If several apply, returns the first in the order of [`Ambiguity`].
///
/// Fails with the error of [`read_expr`] if `text` is not a valid expression. Fails with [`SpecFault::NoMemory`] only
/// if allocation fails.
#[tactic(auto, unfolding(crate::specs::rules::Ambiguities::ambiguity_in))]
pub fn find_ambiguity(alloc: Global, text: &str) -> Result<Option<Ambiguity>, SpecFault>
    ensures { GivesUnlessNoMemory (λ ambiguity. ambiguity) result (ambiguity_in text.now) }
{
    let expr = read_expr(alloc, text)?;
    Ok(first_among(&Ambiguity::ALL, text, &expr))
}

fn first_among(ambiguities: &[Ambiguity], text: &str, expr: &Expr) -> Option<Ambiguity>
    ensures { result ≡ find (λ ambiguity. is_ambiguous text.now expr.now ambiguity) ambiguities.now }
{
    ambiguities
        .iter()
        .copied()
        .find(|ambiguity| is_ambiguous(text, expr, *ambiguity))
}

fn is_ambiguous(text: &str, expr: &Expr, ambiguity: Ambiguity) -> bool
    ensures { result ≡ is_ambiguous text.now expr.now ambiguity }
{
    match ambiguity {
        Ambiguity::HourRange | Ambiguity::HourList => has_hours(ambiguity, expr),
        Ambiguity::MonthDay => has_month_day(text),
        Ambiguity::Abbreviation => has_abbreviation(expr),
    }
}

/// Returns whether the hour and the second are one number each, and the minutes look like a range of hours
/// ([`Ambiguity::HourRange`]) or a list of hours ([`Ambiguity::HourList`]).
fn has_hours(ambiguity: Ambiguity, expr: &Expr) -> bool
    ensures { result ≡ has_hours ambiguity expr.now }
{
    let (Some(hour), Some(_), Some(minutes)) = (
        single(expr.field(Field::Hour)),
        single(expr.field(Field::Second)),
        expr.field(Field::Minute),
    ) else {
        return false;
    };
    match ambiguity {
        Ambiguity::HourRange => is_hour_range(hour, minutes),
        Ambiguity::HourList => is_hour_list(hour, minutes),
        Ambiguity::MonthDay => false,
        Ambiguity::Abbreviation => false,
    }
}

/// Returns the number of a component that is a single number, or `None` for any other component.
fn single(parts: Option<&[Part]>) -> Option<u16>
    ensures { result ≡ single (option_copied parts.entry) }
{
    match parts {
        Some([part]) => part_number(*part),
        _ => None,
    }
}

/// Returns the number of a part that is a single number, or `None` for any other part.
fn part_number(part: Part) -> Option<u16>
    ensures { result ≡ part_number part.start part.end part.step }
{
    match (part.end, part.step) {
        (None, None) => Some(part.start),
        _ => None,
    }
}

/// Returns whether the minutes are the range, without a step, from 0 to a number that could be a later hour.
fn is_hour_range(hour: u16, minutes: &[Part]) -> bool
    ensures { result ≡ is_hour_range hour minutes.now }
{
    match minutes {
        [part] => part.start == 0 && is_range_to(hour, part.end, part.step),
        _ => false,
    }
}

fn is_range_to(hour: u16, end: Option<u16>, step: Option<u16>) -> bool
    ensures { result ≡ is_range_to hour end step }
{
    match (end, step) {
        (Some(end), None) => is_later_hour(hour, end),
        _ => false,
    }
}

/// Returns whether the minutes are 0 and a number that could be a later hour.
fn is_hour_list(hour: u16, minutes: &[Part]) -> bool
    ensures { result ≡ is_hour_list hour minutes.now }
{
    match minutes {
        [first, second] => match (part_number(*first), part_number(*second)) {
            (Some(first), Some(second)) => first == 0 && is_later_hour(hour, second),
            _ => false,
        },
        _ => false,
    }
}

/// Returns whether `number` could be a later hour than `hour`: greater than `hour`, and at most 23.
fn is_later_hour(hour: u16, number: u16) -> bool
    ensures { result ≡ is_later_hour hour number }
{
    hour < number && number <= 23
}

/// Returns whether the first word is a digit from 1 to 7, `-`, and a greater digit up to 7, such as `1-5`.
fn has_month_day(text: &str) -> bool
    ensures { result ≡ has_month_day (words text.now) }
{
    match first_word(text) {
        Some((word, _)) => is_month_day(word.as_bytes()),
        None => false,
    }
}

fn is_month_day(word: &[u8]) -> bool
    ensures { result ≡ is_month_day word.now }
{
    match word {
        [month, b'-', day] => b'1' <= *month && *month < *day && *day <= b'7',
        _ => false,
    }
}

/// Returns whether the zone has a name, and this name looks like an abbreviation.
fn has_abbreviation(expr: &Expr) -> bool
    ensures { result ≡ has_abbreviation (name_in expr.now.zone) }
{
    match expr.zone_name() {
        Some(name) => looks_like_abbreviation(name),
        None => false,
    }
}

/// Returns whether the name of a zone looks like an abbreviation such as `CET`: 3 to 5 upper-case ASCII letters, and
/// not `UTC`.
pub fn looks_like_abbreviation(name: &str) -> bool
    ensures { result ≡ looks_like_abbreviation name.now }
{
    name.len() >= 3 && name.len() <= 5 && are_upper_case(name.as_bytes()) && !is_utc_name(name)
}

fn are_upper_case(text: &[u8]) -> bool
    ensures { result ≡ list_all is_ascii_uppercase text.now }
{
    text.iter().all(|byte| byte.is_ascii_uppercase())
}
