//! The values of options, checked and copied from the matches that `clap` returns.

ghost use Rattle.std.specs.Prelude.{◌≡◌, Ok, IfErr, IfOk, codes, false, option_map, string_bytes, true};
ghost use Rattle.std.specs.Option.{ForSome};
ghost use Rattle.clap.specs.Words.{found_of, rows_of};
ghost use Rattle.cal_zone.specs.rules.Instant.{IsInstant};
ghost use Rattle.cal_timers_command.specs.rules.Asked.{IsFaultIn, count_value, has_clash, now_value, number_value, root_value, text_value, zone_value};
ghost use Rattle.cal_timers_command.specs.rules.OptionValues.{is_zone_first, zone_clash};
ghost use Rattle.cal_timers_command.specs.rules.Questions.{IsBetween, IsElapseCount, IsUsageOf};

use crate::arguments::{COUNT_NUMBER, IN, NOW, ROOT, UTC, ZONE};
use crate::messages::{bad_instant, bad_number, no_value, zone_clash};
use cal_options::{Argument, ArgumentFault, NumberOption, is_set, number_in, present_in, value_of};
use clap::ArgMatches;
use std::alloc::Global;

/// The number of elapses if `--count` isn't given.
const DEFAULT_COUNT: u32 = 5;

/// Returns the value of `--count`, or [`DEFAULT_COUNT`] if the option isn't given.
#[tactic(auto, unfolding(crate::specs::rules::Asked::count_value))]
pub(crate) fn count_of(alloc: Global, values: &ArgMatches<'_>) -> Result<u32, ArgumentFault>
    ensures value { IfOk result (λ count. count_value (rows_of (found_of values.now)) ≡ Ok count) }
    ensures range { IfOk result IsElapseCount }
    ensures fault { IfErr result (IsFaultIn (count_value (rows_of (found_of values.now)))) }
{
    match number_of(alloc, values, COUNT_NUMBER)? {
        Some(count) => Ok(count as u32),
        None => Ok(DEFAULT_COUNT),
    }
}

/// Returns the number that is the value of an option, or `None` if the option isn't given. Fails with
/// [`ArgumentFault::Usage`] for any other value. The number must be written in digits only.
#[tactic(auto, unfolding(crate::specs::rules::Asked::number_value))]
fn number_of(
    alloc: Global,
    values: &ArgMatches<'_>,
    number: NumberOption,
) -> Result<Option<u64>, ArgumentFault>
    ensures value { IfOk result (λ read. number_value number.option.name.now number.option.value_name.now number.least number.most (rows_of (found_of values.now)) ≡ Ok read) }
    ensures range { IfOk result (λ read. ForSome read (IsBetween number.least number.most)) }
    ensures fault { IfErr result (IsFaultIn (number_value number.option.name.now number.option.value_name.now number.least number.most (rows_of (found_of values.now)))) }
{
    let Some(text) = value_of(values, number.option) else {
        return Ok(None);
    };
    match number_in(number, text) {
        Some(read) => Ok(Some(read)),
        None => Err(bad_number(alloc, number, text)),
    }
}

/// Returns the number in the value of `--now`, which is `@` and a number from 0 to
/// [`Instant::LAST`](cal_zone::Instant::LAST), or `None` if the option isn't given. Fails with
/// [`ArgumentFault::Usage`] for any other value. The number must be written in digits only.
#[tactic(auto, unfolding(crate::specs::rules::Asked::now_value))]
pub(crate) fn now_of(alloc: Global, values: &ArgMatches<'_>) -> Result<Option<i64>, ArgumentFault>
    ensures value { IfOk result (λ now. now_value (rows_of (found_of values.now)) ≡ Ok now) }
    ensures range { IfOk result (λ now. ForSome now IsInstant) }
    ensures fault { IfErr result (IsFaultIn (now_value (rows_of (found_of values.now)))) }
{
    let Some(text) = value_of(values, NOW) else {
        return Ok(None);
    };
    match present_in(text) {
        Some(instant) => Ok(Some(instant.secs())),
        None => Err(bad_instant(alloc, NOW, text)),
    }
}

/// Fails with [`ArgumentFault::Usage`] if both `--zone` and `--utc` are given.
pub(crate) fn check_zone(alloc: Global, values: &ArgMatches<'_>) -> Result<(), ArgumentFault>
    ensures value { IfOk result (λ _. has_clash (rows_of (found_of values.now)) ≡ false) }
    ensures clash { IfErr result (λ _. has_clash (rows_of (found_of values.now)) ≡ true) }
    ensures fault { IfErr result (IsUsageOf (zone_clash (is_zone_first (rows_of (found_of values.now))))) }
{
    if !is_set(values, UTC) {
        return Ok(());
    }
    if value_of(values, ZONE).is_some() {
        return Err(zone_clash(alloc, is_zone_first(values)));
    }
    Ok(())
}

/// Returns the value of `--zone`, or `UTC` if `--utc` is given, or `None` if neither option is given.
#[tactic(auto, unfolding(crate::specs::rules::Asked::zone_value))]
pub(crate) fn zone_value(
    alloc: Global,
    values: &ArgMatches<'_>,
) -> Result<Option<String>, ArgumentFault>
    ensures value { IfOk result (λ zone. zone_value (rows_of (found_of values.now)) ≡ Ok (option_map string_bytes zone)) }
    ensures fault { IfErr result (IsFaultIn (zone_value (rows_of (found_of values.now)))) }
{
    if is_set(values, UTC) {
        return Ok(Some(String::from_str(alloc, "UTC")?));
    }
    text_of(alloc, values, ZONE)
}

/// Returns the value of `--in`, or `None` if the option isn't given.
pub(crate) fn shown_in_value(
    alloc: Global,
    values: &ArgMatches<'_>,
) -> Result<Option<String>, ArgumentFault>
    ensures value { IfOk result (λ zone. text_value (codes "in") (codes "ZONE") (rows_of (found_of values.now)) ≡ Ok (option_map string_bytes zone)) }
    ensures fault { IfErr result (IsFaultIn (text_value (codes "in") (codes "ZONE") (rows_of (found_of values.now)))) }
{
    text_of(alloc, values, IN)
}

/// Returns the value of `--root`, or an empty string if the option isn't given.
#[tactic(auto, unfolding(crate::specs::rules::Asked::root_value))]
pub(crate) fn root_of(alloc: Global, values: &ArgMatches<'_>) -> Result<String, ArgumentFault>
    ensures value { IfOk result (λ root. root_value (rows_of (found_of values.now)) ≡ Ok (string_bytes root)) }
    ensures fault { IfErr result (IsFaultIn (root_value (rows_of (found_of values.now)))) }
{
    match text_of(alloc, values, ROOT)? {
        Some(root) => Ok(root),
        None => Ok(String::new(alloc)),
    }
}

/// Returns whether `--zone` is given and, if `--utc` is given too, comes before it.
fn is_zone_first(values: &ArgMatches<'_>) -> bool
    ensures { result ≡ is_zone_first (rows_of (found_of values.now)) }
{
    let mut ids = values.ids();
    while let Some(id) = ids.next() {
        if id == ZONE.name {
            return true;
        }
        if id == UTC.name {
            return false;
        }
    }
    false
}

/// Returns the value of an option, or `None` if the option isn't given. Fails with [`ArgumentFault::Usage`] if the value
/// is empty.
#[tactic(auto, unfolding(crate::specs::rules::Asked::text_value))]
fn text_of(
    alloc: Global,
    values: &ArgMatches<'_>,
    option: Argument,
) -> Result<Option<String>, ArgumentFault>
    ensures value { IfOk result (λ text. text_value option.name.now option.value_name.now (rows_of (found_of values.now)) ≡ Ok (option_map string_bytes text)) }
    ensures fault { IfErr result (IsFaultIn (text_value option.name.now option.value_name.now (rows_of (found_of values.now)))) }
{
    let Some(text) = value_of(values, option) else {
        return Ok(None);
    };
    if text.is_empty() {
        return Err(no_value(alloc, option));
    }
    Ok(Some(String::from_str(alloc, text)?))
}
