//! The values of options and positional arguments, from the matches that `clap` returns, and the numbers in them.

ghost use Rattle.std.specs.Prelude.{◌≡◌, ◌≤◌, IfSome, option_map};
ghost use Rattle.std.specs.Option.{option_copied};
ghost use Rattle.clap.specs.Words.{first_of, found_of, rows_of};
ghost use Rattle.cal_options.specs.rules.OptionNumbers.{present_in, number_between};
ghost use Rattle.cal_options.specs.rules.Values.{is_set};

use crate::argument::{Argument, NumberOption};
use cal_zone::Instant;
use clap::ArgMatches;

/// Returns the value of an option or a positional argument, or `None` if it isn't given.
pub fn value_of<'a>(values: &ArgMatches<'a>, argument: Argument) -> Option<&'a str>
    ensures { option_copied result ≡ first_of argument.name.now (rows_of (found_of values.now)) }
{
    values.get_str(argument.name)
}

/// Returns whether an option without a value is given.
pub fn is_set(values: &ArgMatches<'_>, argument: Argument) -> bool
    ensures { result ≡ is_set argument.name.now (rows_of (found_of values.now)) }
{
    match value_of(values, argument) {
        Some(text) => text == "true",
        None => false,
    }
}

/// Parses a number that the option accepts, in digits only. Returns `None` for any other text.
pub fn number_in(option: NumberOption, text: &str) -> Option<u64>
    ensures value { result ≡ number_between option.least option.most text.now }
    ensures least { IfSome result (λ number. option.least ≤ number) }
    ensures most { IfSome result (λ number. number ≤ option.most) }
{
    number_between(text, option.least, option.most)
}

/// Parses an instant: `@` and a number from 0 to [`Instant::LAST`], in digits only. Returns `None` for any other text.
pub fn present_in(text: &str) -> Option<Instant>
    ensures { option_map (λ instant. instant.secs) result ≡ present_in text.now }
{
    let number = number_between(text.strip_prefix('@')?, 0, Instant::LAST as u64)?;
    Instant::new(number as i64)
}

/// Parses a number from `least` to `most`, and returns `None` for any other text. Only digits are accepted, so a
/// leading `+`, which `str::parse` would accept, is rejected first.
fn number_between(text: &str, least: u64, most: u64) -> Option<u64>
    ensures { result ≡ number_between least most text.now }
{
    if text.starts_with('+') {
        return None;
    }
    match text.parse() {
        Ok(number) if least <= number && number <= most => Some(number),
        _ => None,
    }
}
