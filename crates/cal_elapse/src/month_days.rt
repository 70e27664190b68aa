//! The matching days of a month (systemd.time(7), Calendar Events). Only this module forms such a set, so it can count
//! all the months that are examined.

ghost use Rattle.std.specs.Prelude.{◌≡◌, ◌+◌, ◌-◌, ◌<◌, ◌≤◌, ℕ, true, nat_lt, if◌then◌else◌};
ghost use Rattle.cal_elapse.specs.computed.Bits.{is_bit};
ghost use Rattle.cal_elapse.specs.computed.Masks.{sets_in};
ghost use Rattle.cal_elapse.specs.rules.Months.{day_in, month_in, months_in_all};
ghost use Rattle.cal_elapse.specs.rules.Search.{IsFirstPassing};

use crate::Masks;
use crate::bits::next_bit;
use crate::month::Month;

/// The matching days of a month, with the first of the month at the lowest bit. The field is private, so that a value
/// can be created only by `of`, which counts the months examined.
#[derive(Clone, Copy)]
pub(crate) struct MonthDays {
    bits: u64,
}

impl MonthDays {
    /// Creates the set of the matching days of `month`, and adds 1 to `examined`. The expression must match the year
    /// and the month number of `month`. Shifts the mask of days and the mask of weekdays so that bit 0 of both stands
    /// for the first of the month. A mask has one bit for each value that the expression matches.
    #[tactic(auto, using(crate::proofs::MonthLemmas::month_bounds))]
    pub(crate) fn of(masks: &Masks, month: Month, examined: &mut u32) -> MonthDays
        requires member { month_in (sets_in masks.now) month.index ≡ true }
        requires few { examined.old < months_in_all }
        ensures counted { examined.new ≡ examined.old + 1 }
        ensures days { (k : ℕ) → k < month.length
            → is_bit result.bits k ≡ day_in (sets_in masks.now) (month.first + k) }
        ensures within { (k : ℕ) → is_bit result.bits k ≡ true → k < month.length }
    {
        *examined += 1;
        let days = masks.days >> first_day_bit(masks.from_end, month.length);
        let weekdays = masks.weekdays >> ((month.first + 3) % 7);
        MonthDays {
            bits: days & weekdays & all_days(month.length),
        }
    }

    /// Returns the zero-based index of the first matching day at or after the index `from`, or `None` if there is none.
    /// `from` must be at most 31.
    pub(crate) fn next(self, from: u32) -> Option<u32>
        requires { from ≤ 31 }
        ensures { IsFirstPassing (is_bit self.bits) from 64 result }
    {
        next_bit(self.bits, from)
    }
}

/// Returns which bit of the mask of days stands for the first day of a month with `length` days. If days are counted
/// from the end of the month, bit 0 stands for count 31, and the first day has the count `length`.
pub(crate) fn first_day_bit(from_end: bool, length: u32) -> u32
    requires { length ≤ 31 }
    ensures { result ≡ (if from_end then 31 - length else 0) }
{
    if from_end { 31 - length } else { 0 }
}

/// Returns a word whose lowest `length` bits are 1.
fn all_days(length: u32) -> u64
    requires { length ≤ 31 }
    ensures { (k : ℕ) → is_bit result k ≡ nat_lt k length }
{
    (1 << length) - 1
}
