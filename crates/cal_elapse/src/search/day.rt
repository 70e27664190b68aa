//! The search for the next matching day, month by month (systemd.time(7), Calendar Events). The module `search` calls
//! this module. This module calls `search::month` for the next month, and counts the months that are examined.

ghost use Rattle.std.specs.Prelude.{◌≡◌, ◌+◌, ◌<◌, ◌≤◌, cond};
ghost use Rattle.cal_elapse.specs.rules.ExaminedMonths.{examined_from};
ghost use Rattle.cal_elapse.specs.computed.Masks.{sets_in};
ghost use Rattle.cal_elapse.specs.rules.Months.{day_in, first_day, month_in, months_in_all};
ghost use Rattle.cal_elapse.specs.rules.Search.{IsFirstPassing};
ghost use Rattle.cal_civil.specs.rules.LocalSecond.{days_in_all};

use crate::Masks;
use crate::month::{Month, month_at};
use crate::month_days::MonthDays;
use crate::search::month::{has_month, next_month};

/// Returns the first matching day at or after `from`, or `None` if no such day is left. `from` must be a day of `month`
/// or the first day after `month`. Sets `examined`, which must be 0, to the number of months examined.
#[tactic(auto, using(crate::proofs::ExaminedMonthLemmas::examined_here, crate::proofs::ExaminedMonthLemmas::examined_on))]
pub(crate) fn next_day(masks: &Masks, month: Month, from: u32, examined: &mut u32) -> Option<u32>
    requires low { month.first ≤ from }
    requires high { from ≤ month.first + month.length }
    requires none { examined.old ≡ 0 }
    ensures first { IsFirstPassing (day_in (sets_in masks.now)) from days_in_all result }
    ensures counted { examined.new ≡ examined_from (sets_in masks.now) month.index result }
{
    match next_in_month(masks, month, from, examined) {
        Some(day) => Some(day),
        None => next_from_month(masks, month.index + 1, examined),
    }
}

/// Returns the first matching day of `month` at or after `from`, or `None` if there is none. Sets `examined`, which
/// must be 0, to 1 if the expression matches the year and the month number of the month.
#[tactic(auto, using(crate::proofs::MonthLemmas::month_bounds))]
fn next_in_month(masks: &Masks, month: Month, from: u32, examined: &mut u32) -> Option<u32>
    requires low { month.first ≤ from }
    requires high { from ≤ month.first + month.length }
    requires none { examined.old ≡ 0 }
    ensures first { IsFirstPassing (day_in (sets_in masks.now)) from (month.first + month.length) result }
    ensures counted { examined.new ≡ cond (month_in (sets_in masks.now) month.index) 1 0 }
{
    if !has_month(masks, month.index) {
        return None;
    }
    match MonthDays::of(masks, month, examined).next(from - month.first) {
        Some(day) => Some(month.first + day),
        None => None,
    }
}

/// Returns the first matching day at or after the first day of the month with index `from`, or `None` if there is none.
/// Adds the number of months examined to `examined`.
#[tactic(auto, using(crate::proofs::MonthLemmas::month_bounds, crate::proofs::CountLemmas::count_bounds))]
fn next_from_month(masks: &Masks, from: u32, examined: &mut u32) -> Option<u32>
    requires from_in { from ≤ months_in_all }
    requires few { examined.old ≤ from }
    ensures first { IsFirstPassing (day_in (sets_in masks.now)) (first_day from) days_in_all result }
    ensures counted { examined.new ≡ examined.old + examined_from (sets_in masks.now) from result }
{
    let mut index = from;
    while let Some(next) = next_month(masks, index) {
        let month = month_at(next);
        if let Some(day) = MonthDays::of(masks, month, examined).next(0) {
            return Some(month.first + day);
        }
        index = next + 1;
    }
    None
}
