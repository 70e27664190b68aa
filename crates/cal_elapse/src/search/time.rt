//! The search for the next matching time of day (systemd.time(7), Calendar Events). The module `search` calls this
//! module. The search jumps from bit to bit of the masks, which have one bit for each value that a field matches.

ghost use Rattle.std.specs.Prelude.{◌≡◌, ◌+◌, ◌*◌, ◌/◌, ◌<◌, ◌≤◌};
ghost use Rattle.cal_elapse.specs.computed.Masks.{sets_in};
ghost use Rattle.cal_elapse.specs.rules.Months.{minute_in, minutes_per_day};
ghost use Rattle.cal_elapse.specs.rules.Search.{IsFirstPassing};
ghost use Rattle.cal_spec.specs.rules.Match.{time_in};
ghost use Rattle.cal_civil.specs.rules.LocalSecond.{seconds_per_day};

use crate::Masks;
use crate::bits::{has_bit, lowest_bit, next_bit};

/// Returns the first matching time of day at or after `from`, or `None` if no such time is left. Times are in seconds
/// since midnight, and `from` must be below 86,400.
pub(crate) fn next_second(masks: &Masks, from: u32) -> Option<u32>
    requires { from < seconds_per_day }
    ensures { IsFirstPassing (time_in (sets_in masks.now)) from seconds_per_day result }
{
    match second_here(masks, from) {
        Some(second) => Some(second),
        None => second_later(masks, from / 60 + 1),
    }
}

/// Returns the first matching time of day, in seconds since midnight.
pub(crate) fn first_second(masks: &Masks) -> u32
    ensures { IsFirstPassing (time_in (sets_in masks.now)) 0 seconds_per_day (Some result) }
{
    let minute = lowest_bit(masks.hours) * 60 + lowest_bit(masks.minutes);
    minute * 60 + lowest_bit(masks.seconds)
}

/// Returns the first matching time of day at or after `from` and in the same minute, or `None` if there is none.
fn second_here(masks: &Masks, from: u32) -> Option<u32>
    requires { from < seconds_per_day }
    ensures { IsFirstPassing (time_in (sets_in masks.now)) from ((from / 60 + 1) * 60) result }
{
    if !has_minute(masks, from / 60) {
        return None;
    }
    match next_bit(masks.seconds, from % 60) {
        Some(second) => Some(from / 60 * 60 + second),
        None => None,
    }
}

/// Returns the first matching time of day in `minute` or a later minute, or `None` if there is none. `minute` is
/// counted from midnight.
fn second_later(masks: &Masks, minute: u32) -> Option<u32>
    requires { minute ≤ minutes_per_day }
    ensures { IsFirstPassing (time_in (sets_in masks.now)) (minute * 60) seconds_per_day result }
{
    match next_minute(masks, minute) {
        Some(minute) => Some(minute * 60 + lowest_bit(masks.seconds)),
        None => None,
    }
}

/// Returns the first minute of the day at or after `from` whose hour and minute the expression matches, or `None` if
/// there is none.
fn next_minute(masks: &Masks, from: u32) -> Option<u32>
    requires { from ≤ minutes_per_day }
    ensures { IsFirstPassing (minute_in (sets_in masks.now)) from minutes_per_day result }
{
    if from == 1_440 {
        return None;
    }
    match minute_here(masks, from) {
        Some(minute) => Some(minute),
        None => minute_later(masks, from / 60 + 1),
    }
}

/// Returns whether the expression matches the hour and the minute of the time `minute` minutes after midnight.
#[tactic(auto, unfolding(crate::specs::rules::Months::minute_in, crate::specs::computed::Masks::sets_in))]
pub(crate) fn has_minute(masks: &Masks, minute: u32) -> bool
    requires { minute < minutes_per_day }
    ensures { result ≡ minute_in (sets_in masks.now) minute }
{
    has_bit(masks.hours, minute / 60) && has_bit(masks.minutes, minute % 60)
}

/// Returns the first matching minute of the day at or after `from` and in the same hour, or `None` if there is none.
fn minute_here(masks: &Masks, from: u32) -> Option<u32>
    requires { from < minutes_per_day }
    ensures { IsFirstPassing (minute_in (sets_in masks.now)) from ((from / 60 + 1) * 60) result }
{
    if !has_bit(masks.hours, from / 60) {
        return None;
    }
    match next_bit(masks.minutes, from % 60) {
        Some(minute) => Some(from / 60 * 60 + minute),
        None => None,
    }
}

/// Returns the first matching minute of the day at or after the start of `hour`, or `None` if there is none.
fn minute_later(masks: &Masks, hour: u32) -> Option<u32>
    requires { hour ≤ 24 }
    ensures { IsFirstPassing (minute_in (sets_in masks.now)) (hour * 60) minutes_per_day result }
{
    match next_bit(masks.hours, hour) {
        Some(hour) => Some(hour * 60 + lowest_bit(masks.minutes)),
        None => None,
    }
}
