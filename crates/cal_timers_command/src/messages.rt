//! The messages about values of options, worded as `clap` words such messages.

ghost use Rattle.std.specs.Prelude.{◌≡◌, IfOk, string_bytes};
ghost use Rattle.cal_timers_command.specs.rules.OptionValues.{bad_instant, bad_number, bad_value, expected, invalid_value, no_value, zone_clash};
ghost use Rattle.cal_timers_command.specs.rules.Questions.{IsUsageOf};

use cal_options::{Argument, ArgumentFault, NumberOption};
use cal_zone::Instant;
use itoa::Buffer;
use std::alloc::{AllocError, Global};

/// The end of each message about an invalid value, as in the messages of `clap`.
const HINT: &str = "\n\nFor more information, try '--help'.\n";

/// Returns the error about a value that isn't a number which the option accepts.
pub(crate) fn bad_number(alloc: Global, number: NumberOption, text: &str) -> ArgumentFault
    ensures { IsUsageOf (bad_number number.option.name.now number.option.value_name.now number.least number.most text.now) result }
{
    match expected(alloc, "", number.least, number.most) {
        Ok(reason) => bad_value(alloc, number.option, text, reason.as_str()),
        Err(_) => ArgumentFault::NoMemory,
    }
}

/// Returns the error about a value that isn't an instant.
pub(crate) fn bad_instant(alloc: Global, option: Argument, text: &str) -> ArgumentFault
    ensures { IsUsageOf (bad_instant option.name.now option.value_name.now text.now) result }
{
    match expected(alloc, "@", 0, Instant::LAST as u64) {
        Ok(reason) => bad_value(alloc, option, text, reason.as_str()),
        Err(_) => ArgumentFault::NoMemory,
    }
}

/// Returns which numbers are expected; the prefix stands in front of each.
#[tactic(auto, unfolding(crate::specs::rules::OptionValues::expected))]
fn expected(alloc: Global, prefix: &str, least: u64, most: u64) -> Result<String, AllocError>
    ensures { IfOk result (λ text. string_bytes text ≡ expected prefix.now least most) }
{
    let mut buffer = Buffer::new();
    let mut text = String::from_str(alloc, "expected ")?;
    text.push_str(prefix)?;
    text.push_str(buffer.format(least))?;
    text.push_str(" to ")?;
    text.push_str(prefix)?;
    text.push_str(buffer.format(most))?;
    Ok(text)
}

/// Returns the error about an invalid value, with `reason` unless the value is empty.
fn bad_value(alloc: Global, option: Argument, text: &str, reason: &str) -> ArgumentFault
    ensures { IsUsageOf (bad_value option.name.now option.value_name.now reason.now text.now) result }
{
    if text.is_empty() {
        no_value(alloc, option)
    } else {
        invalid_value(alloc, option, text, reason)
    }
}

/// Returns the error about an empty value.
pub(crate) fn no_value(alloc: Global, option: Argument) -> ArgumentFault
    ensures { IsUsageOf (no_value option.name.now option.value_name.now) result }
{
    match no_value_text(alloc, option) {
        Ok(text) => ArgumentFault::Usage(text),
        Err(_) => ArgumentFault::NoMemory,
    }
}

/// Returns the error about an invalid value that isn't empty.
fn invalid_value(alloc: Global, option: Argument, text: &str, reason: &str) -> ArgumentFault
    ensures { IsUsageOf (invalid_value option.name.now option.value_name.now reason.now text.now) result }
{
    match invalid_value_text(alloc, option, text, reason) {
        Ok(text) => ArgumentFault::Usage(text),
        Err(_) => ArgumentFault::NoMemory,
    }
}

/// Returns the message about an empty value, worded as `clap` words such messages.
fn no_value_text(alloc: Global, option: Argument) -> Result<String, AllocError>
    ensures { IfOk result (λ text. string_bytes text ≡ no_value option.name.now option.value_name.now) }
{
    let mut message = String::from_str(alloc, "error: a value is required for '--")?;
    message.push_str(option.name)?;
    message.push_str(" <")?;
    message.push_str(option.value_name)?;
    message.push_str(">' but none was supplied")?;
    message.push_str(HINT)?;
    Ok(message)
}

/// Returns the message about an invalid value that isn't empty, worded as `clap` words such messages.
fn invalid_value_text(
    alloc: Global,
    option: Argument,
    text: &str,
    reason: &str,
) -> Result<String, AllocError>
    ensures { IfOk result (λ message. string_bytes message ≡ invalid_value option.name.now option.value_name.now reason.now text.now) }
{
    let mut message = String::from_str(alloc, "error: invalid value '")?;
    message.push_str(text)?;
    message.push_str("' for '--")?;
    message.push_str(option.name)?;
    message.push_str(" <")?;
    message.push_str(option.value_name)?;
    message.push_str(">': ")?;
    message.push_str(reason)?;
    message.push_str(HINT)?;
    Ok(message)
}

/// Returns the error about `--zone` together with `--utc`, worded as `clap` words such errors.
pub(crate) fn zone_clash(alloc: Global, is_zone_first: bool) -> ArgumentFault
    ensures { IsUsageOf (zone_clash is_zone_first) result }
{
    let message = if is_zone_first {
        "error: the argument '--zone <ZONE>' cannot be used with '--utc'\n\nFor more information, try '--help'.\n"
    } else {
        "error: the argument '--utc' cannot be used with '--zone <ZONE>'\n\nFor more information, try '--help'.\n"
    };
    match String::from_str(alloc, message) {
        Ok(text) => ArgumentFault::Usage(text),
        Err(_) => ArgumentFault::NoMemory,
    }
}
