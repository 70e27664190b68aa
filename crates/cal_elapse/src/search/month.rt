//! The search for the next month whose year and month number the expression matches (systemd.time(7), Calendar Events).
//! The module `search::day` calls this module. The search jumps from bit to bit of the masks, which have one bit for
//! each value that a field matches.

ghost use Rattle.std.specs.Prelude.{◌≡◌, ◌+◌, ◌*◌, ◌/◌, ◌<◌, ◌≤◌};
ghost use Rattle.cal_elapse.specs.computed.Bits.{is_bit_in};
ghost use Rattle.cal_elapse.specs.computed.Masks.{sets_in};
ghost use Rattle.cal_elapse.specs.rules.Months.{month_in, months_in_all};
ghost use Rattle.cal_elapse.specs.rules.Search.{IsFirstPassing};

use crate::Masks;
use crate::bits::{has_bit, lowest_bit, next_bit};
use crate::month::MONTHS;

/// Returns the index of the first matching month at or after the index `from`, or `None` if no such month is left.
/// `from` must be at most 2,760.
pub(crate) fn next_month(masks: &Masks, from: u32) -> Option<u32>
    requires { from ≤ months_in_all }
    ensures { IsFirstPassing (month_in (sets_in masks.now)) from months_in_all result }
{
    if from == MONTHS {
        return None;
    }
    match month_here(masks, from) {
        Some(month) => Some(month),
        None => month_later(masks, from / 12 + 1),
    }
}

/// Returns whether the expression matches the year and the month number of the month with this index.
pub(crate) fn has_month(masks: &Masks, index: u32) -> bool
    requires { index < months_in_all }
    ensures { result ≡ month_in (sets_in masks.now) index }
{
    has_year(&masks.years, index / 12) && has_bit(masks.months, index % 12)
}

/// Returns the first matching month at or after `from` and in the same year, or `None` if there is none.
fn month_here(masks: &Masks, from: u32) -> Option<u32>
    requires { from < months_in_all }
    ensures { IsFirstPassing (month_in (sets_in masks.now)) from ((from / 12 + 1) * 12) result }
{
    if !has_year(&masks.years, from / 12) {
        return None;
    }
    match next_bit(masks.months, from % 12) {
        Some(month) => Some(from / 12 * 12 + month),
        None => None,
    }
}

/// Returns the first matching month in `year` or a later year, or `None` if there is none. `year` is counted from 1970.
fn month_later(masks: &Masks, year: u32) -> Option<u32>
    requires { year ≤ 230 }
    ensures { IsFirstPassing (month_in (sets_in masks.now)) (year * 12) months_in_all result }
{
    if masks.months == 0 {
        return None;
    }
    match next_year(&masks.years, year) {
        Some(year) => Some(year * 12 + lowest_bit(masks.months)),
        None => None,
    }
}

/// Returns whether the set `years` contains `year`, which is counted from 1970.
#[tactic(auto, unfolding(crate::specs::computed::Bits::is_bit_in))]
fn has_year(years: &[u64; 4], year: u32) -> bool
    requires { year < 256 }
    ensures { result ≡ is_bit_in years.now year }
{
    has_bit(years[year as usize / 64], year % 64)
}

/// Returns the first year of the set `years` at or after `from`, or `None` if there is none. Years are counted from
/// 1970.
fn next_year(years: &[u64; 4], from: u32) -> Option<u32>
    requires { from < 256 }
    ensures { IsFirstPassing (is_bit_in years.now) from 256 result }
{
    match year_here(years, from) {
        Some(year) => Some(year),
        None => year_later(years, from / 64 + 1),
    }
}

/// Returns the first year of `years` at or after `from` whose bit is in the same word as the bit of `from`, or `None`
/// if there is none.
fn year_here(years: &[u64; 4], from: u32) -> Option<u32>
    requires { from < 256 }
    ensures { IsFirstPassing (is_bit_in years.now) from ((from / 64 + 1) * 64) result }
{
    match next_bit(years[from as usize / 64], from % 64) {
        Some(bit) => Some(from / 64 * 64 + bit),
        None => None,
    }
}

/// Returns the first year of `years` whose bit is in the word with index `first` or a later word, or `None` if there is
/// none.
fn year_later(years: &[u64; 4], first: u32) -> Option<u32>
    requires { first ≤ 4 }
    ensures { IsFirstPassing (is_bit_in years.now) (first * 64) 256 result }
{
    for word in first..4 {
        if let Some(year) = next_bit(years[word as usize], 0) {
            return Some(word * 64 + year);
        }
    }
    None
}
