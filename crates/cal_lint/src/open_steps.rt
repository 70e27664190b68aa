//! Steps without an end, such as `0/7`, that systemd 252 computes wrongly.

ghost use Rattle.std.specs.Prelude.{◌≡◌, [], ◌∷◌};
ghost use Rattle.std.specs.List.{find, list_any};
ghost use Rattle.cal_spec.specs.computed.Expr.{component, members_of};
ghost use Rattle.cal_spec.specs.computed.Reads.{GivesUnlessNoMemory};
ghost use Rattle.cal_spec.specs.rules.Members.{sets_of};
ghost use Rattle.cal_spec.specs.declared.field.Field.TheVariants.{Day};
ghost use Rattle.cal_lint.specs.rules.OpenSteps.{any_reaches, can_follow, component_value, count_of, fails_at_changes, first_number, first_reached, flaw_in, flaw_of, has_flaw, is_before, is_member, last_number, loses_elapses, may_change, numbers_of, part_reaches, resumes_at, step_reaches, stops_in_time};

use cal_civil::{FIRST_YEAR, LAST_YEAR, is_utc_name};
use cal_spec::{Expr, Field, Part, SpecFault, read_expr};
use std::alloc::Global;

/// What systemd 252 computes wrongly in an expression that has a step without an end, such as `0/7`.
///
/// After the last number that such a step matches, systemd 252 goes on to the next number of the step, even though it
/// is past the field's last number: after minute 56 to minute 63, which is minute 3 of the next hour.
#[derive(Clone, Copy)]
pub enum OpenStepFlaw {
    /// Elapses are lost in every zone. If the field is the second, elapses at the start of an hour are lost; if it is
    /// the minute, at the start of a day; if it is the hour, on the first day of a month; if it is the day, in January.
    /// `*:0/7` never elapses at 00:00.
    LosesElapses(Field),
    /// In a zone whose clock changes, systemd 252 fails with "Infinite loop in calendar calculation" before some of the
    /// changes, or loses an elapse. The field is the month, the day or the hour. In Berlin, `2/12:00` fails on the day
    /// before the clock is set forward.
    FailsAtClockChanges(Field),
    /// In a zone whose clock is set forward at midnight, as in Havana, systemd 252 fails on the day before. The field
    /// is the hour, and its step reaches midnight, as in `0/6:00`.
    FailsAtMidnightChanges,
}

impl OpenStepFlaw {
    const ALL: [OpenStepFlaw; 8] = [
        OpenStepFlaw::LosesElapses(Field::Day),
        OpenStepFlaw::LosesElapses(Field::Hour),
        OpenStepFlaw::LosesElapses(Field::Minute),
        OpenStepFlaw::LosesElapses(Field::Second),
        OpenStepFlaw::FailsAtClockChanges(Field::Month),
        OpenStepFlaw::FailsAtClockChanges(Field::Day),
        OpenStepFlaw::FailsAtClockChanges(Field::Hour),
        OpenStepFlaw::FailsAtMidnightChanges,
    ];
}

/// Returns what [`open_step_flaw`] returns for the expression `text`.
///
/// Fails with the error of [`read_expr`] if `text` is not a valid expression. Fails with [`SpecFault::NoMemory`] only
/// if allocation fails.
#[tactic(auto, unfolding(crate::specs::rules::OpenSteps::flaw_in))]
pub fn find_open_step_flaw(alloc: Global, text: &str) -> Result<Option<OpenStepFlaw>, SpecFault>
    ensures { GivesUnlessNoMemory (λ flaw. flaw) result (flaw_in text.now) }
{
    let expr = read_expr(alloc, text)?;
    Ok(open_step_flaw(&expr))
}

/// Returns what systemd 252 computes wrongly because of a step without an end (systemd.time(7), Calendar Events), or
/// `None` if it computes everything correctly. If there are several flaws, returns the first in this order: lost
/// elapses because of the day, the hour, the minute and the second, failures because of the month, the day and the
/// hour, and failures at midnight.
///
/// Some expressions with a flaw are computed correctly all the same: if their weekdays or dates are never consecutive,
/// or if the clock of their zone doesn't change at the hours in question.
#[tactic(auto, unfolding(crate::specs::rules::OpenSteps::flaw_of))]
pub fn open_step_flaw(expr: &Expr) -> Option<OpenStepFlaw>
    ensures { result ≡ flaw_of expr.now }
{
    first_among(&OpenStepFlaw::ALL, expr)
}

fn first_among(flaws: &[OpenStepFlaw], expr: &Expr) -> Option<OpenStepFlaw>
    ensures { result ≡ find (has_flaw expr.now) flaws.now }
{
    flaws.iter().copied().find(|flaw| has_flaw(expr, *flaw))
}

fn has_flaw(expr: &Expr, flaw: OpenStepFlaw) -> bool
    ensures { result ≡ has_flaw expr.now flaw }
{
    match flaw {
        OpenStepFlaw::LosesElapses(field) => loses_elapses(expr, field),
        OpenStepFlaw::FailsAtClockChanges(field) => {
            may_change(expr) && fails_at_changes(expr, field)
        }
        OpenStepFlaw::FailsAtMidnightChanges => {
            may_change(expr) && resumes_at(expr, Field::Hour).is_some()
        }
    }
}

// ## The numbers of a field

pub(crate) fn first_number(field: Field) -> u16
    ensures { result ≡ first_number field }
{
    match field {
        Field::Year => FIRST_YEAR,
        Field::Month | Field::Day => 1,
        Field::Hour | Field::Minute | Field::Second => 0,
    }
}

/// Returns the last number of a field. Months have 31 days here, since a step in the days loses elapses only from
/// December to January.
pub(crate) fn last_number(field: Field) -> u16
    ensures { result ≡ last_number field }
{
    match field {
        Field::Year => LAST_YEAR,
        Field::Month => 12,
        Field::Day => 31,
        Field::Hour => 23,
        Field::Minute | Field::Second => 59,
    }
}

/// Returns how many numbers a field has.
pub(crate) fn count_of(field: Field) -> u16
    ensures { result ≡ count_of field }
{
    last_number(field) + 1 - first_number(field)
}

/// Returns the value that stands for `number`, a number of the field, in the field's component: `number` itself or, if
/// days are counted from the month's end, the count of this day in a month of 31 days, in which day 31 has the count 1.
fn component_value(from_end: bool, field: Field, number: u16) -> u16
    ensures { result ≡ component_value from_end field number }
{
    match field {
        Field::Day if from_end => 32_u16.saturating_sub(number),
        _ => number,
    }
}

fn is_member(expr: &Expr, field: Field, number: u16) -> bool
    ensures { result ≡ is_member expr.now field number }
{
    expr.has_member(field, component_value(expr.from_end(), field, number))
}

/// Returns the least number of the field that the expression matches.
fn first_member(expr: &Expr, field: Field) -> Option<u16>
    ensures { result ≡ find (is_member expr.now field) (numbers_of field) }
{
    let first = first_number(field);
    (first..first + count_of(field)).find(|number| is_member(expr, field, *number))
}

// ## The number at which the search goes on

/// Returns the number of the field at which the search goes on in the next larger unit because of steps without an end.
/// This is 3 for the minutes if a step goes on to minute 63, which is minute 3 of the next hour. Returns `None` if no
/// step does so; then the search goes on at the first number, as it should.
fn resumes_at(expr: &Expr, field: Field) -> Option<u16>
    ensures { result ≡ resumes_at expr.now field }
{
    if stops_in_time(expr, field) {
        return None;
    }
    first_reached(expr, field)
}

/// Returns the least number of the field that a step without an end reaches in the next larger unit, as a step of
/// minutes that goes on to minute 63 reaches minute 3 of the next hour.
fn first_reached(expr: &Expr, field: Field) -> Option<u16>
    ensures { result ≡ first_reached expr.now field }
{
    let first = first_number(field);
    (first..first + count_of(field)).find(|number| any_reaches(expr, field, *number))
}

/// Returns whether the search stops at the field's last number. In the seconds it never does, since systemd continues
/// the search a microsecond after each elapse.
fn stops_in_time(expr: &Expr, field: Field) -> bool
    ensures { result ≡ stops_in_time expr.now field }
{
    field != Field::Second && is_member(expr, field, last_number(field))
}

/// Returns whether a step without an end goes on past the field's last number and reaches this number in the next
/// larger unit, as a step of minutes that goes on to minute 63 reaches minute 3 of the next hour.
fn any_reaches(expr: &Expr, field: Field, number: u16) -> bool
    ensures { result ≡ any_reaches expr.now.from_end field (component field expr.now) number }
{
    match expr.field(field) {
        Some(parts) => parts_reach(expr.from_end(), field, number, parts),
        None => false,
    }
}

fn parts_reach(from_end: bool, field: Field, number: u16, parts: &[Part]) -> bool
    ensures { result ≡ list_any (part_reaches from_end field number) parts.now }
{
    parts
        .iter()
        .any(|part| part_reaches(from_end, field, number, *part))
}

fn part_reaches(from_end: bool, field: Field, number: u16, part: Part) -> bool
    ensures { result ≡ part_reaches from_end field number part }
{
    let start = component_value(from_end, field, part.start);
    let number = u32::from(number) + u32::from(count_of(field));
    step_reaches(start, part.end, part.step, number)
}

fn step_reaches(start: u16, end: Option<u16>, step: Option<u16>, number: u32) -> bool
    ensures { result ≡ step_reaches start end step number }
{
    match (end, step) {
        (None, Some(step)) => number
            .saturating_sub(start.into())
            .is_multiple_of(step.into()),
        _ => false,
    }
}

// ## Lost elapses and failures

fn loses_elapses(expr: &Expr, field: Field) -> bool
    ensures { result ≡ loses_elapses expr.now field }
{
    is_before(first_member(expr, field), resumes_at(expr, field)) && can_follow(expr, field)
}

fn is_before(one: Option<u16>, other: Option<u16>) -> bool
    ensures { result ≡ is_before one other }
{
    match (one, other) {
        (Some(one), Some(other)) => one < other,
        _ => false,
    }
}

/// Returns whether the next larger field matches both before and after it starts over: minutes 59 and 0 for the
/// seconds, hours 23 and 0 for the minutes, the last and the first day of a month for the hours, and December and
/// January for the days.
fn can_follow(expr: &Expr, field: Field) -> bool
    ensures { result ≡ can_follow expr.now field }
{
    match field {
        Field::Year | Field::Month => false,
        Field::Day => is_member(expr, Field::Month, 12) && is_member(expr, Field::Month, 1),
        Field::Hour => expr.has_member(Field::Day, 1) && has_late_day(expr),
        Field::Minute => is_member(expr, Field::Hour, 23) && is_member(expr, Field::Hour, 0),
        Field::Second => is_member(expr, Field::Minute, 59) && is_member(expr, Field::Minute, 0),
    }
}

/// Returns whether the last day of some month matches. For days counted from the month's end, returns whether the first
/// day of some month matches.
fn has_late_day(expr: &Expr) -> bool
    ensures { result ≡ list_any (members_of Day (sets_of expr.now)) (28 ∷ 29 ∷ 30 ∷ 31 ∷ []) }
{
    const DAYS: [u16; 4] = [28, 29, 30, 31];
    DAYS.iter().any(|day| expr.has_member(Field::Day, *day))
}

fn fails_at_changes(expr: &Expr, field: Field) -> bool
    ensures { result ≡ fails_at_changes expr.now field }
{
    match field {
        Field::Month => is_before(Some(1), resumes_at(expr, Field::Month)),
        Field::Day => resumes_at(expr, Field::Day).is_some(),
        Field::Hour => is_before(Some(0), resumes_at(expr, Field::Hour)),
        _ => false,
    }
}

/// Returns whether the clock of the expression's zone may change: the zone isn't UTC, and isn't a UTC offset.
fn may_change(expr: &Expr) -> bool
    ensures { result ≡ may_change expr.now.zone }
{
    match expr.zone_name() {
        Some(name) => !is_utc_name(name),
        None => expr.zone_offset().is_none(),
    }
}
