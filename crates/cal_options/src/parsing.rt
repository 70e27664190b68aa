//! Parsing arguments with `clap`, and converting its errors.

ghost use Rattle.std.specs.Prelude.{◌≡◌, ◌<◌, [], IfErr, IfOk, IfSome, length, map, string_bytes, true};
ghost use Rattle.clap.specs.Words.{app_of, fault_of, is_simple_and_free, kind_of, subcommand_of, subcommand_rows_of};
ghost use Rattle.cal_options.specs.rules.ArgumentFault.{IsRefusalOf, IsReportedOf, is_of_help, shown_fault};

use crate::argument_fault::ArgumentFault;
use clap::error::ErrorKind;
use clap::{ArgMatches, Command, Error};
use std::alloc::Global;
use std::convert::AsStr;

/// Passes the arguments to `clap`, and returns what it finds in them. Fails with `Help` if they ask for help or the
/// version, with `Usage` if `clap` can't parse them, and with `NoMemory` if allocation fails.
///
/// Requires that no argument of the command depends on or excludes another: the contract of `clap` lists the possible
/// errors only for such commands.
pub fn parse<'a, S: AsStr>(
    alloc: Global,
    command: Command<'a>,
    arguments: &'a [S],
) -> Result<ArgMatches<'a>, ArgumentFault>
    requires { is_simple_and_free (app_of command) ≡ true }
    ensures faults { IfOk result (λ _. fault_of (app_of command.entry) (map S.text arguments.now) ≡ []) }
    ensures found { IfOk result (λ matches. subcommand_rows_of matches ≡ subcommand_of (app_of command.entry) (map S.text arguments.now)) }
    ensures refusal { IfErr result (λ fault. IsRefusalOf (app_of command.entry) (map S.text arguments.now) (shown_fault fault)) }
{
    match command.try_get_matches_from(arguments) {
        Ok(matches) => Ok(matches),
        Err(error) => Err(convert_error(alloc, &error)),
    }
}

/// Converts an error of `clap`, which also reports requests for help or the version as errors.
fn convert_error(alloc: Global, error: &Error) -> ArgumentFault
    ensures { IsReportedOf (kind_of error.now) (shown_fault result) }
{
    if error.kind() == ErrorKind::OutOfMemory {
        return ArgumentFault::NoMemory;
    }
    let Some(text) = error_text(alloc, error) else {
        return ArgumentFault::NoMemory;
    };
    if is_of_help(error.kind()) {
        ArgumentFault::Help(text)
    } else {
        ArgumentFault::Usage(text)
    }
}

/// Returns the text of an error of `clap`, with a line feed added if it doesn't end with one. Returns `None` if
/// allocation fails.
fn error_text(alloc: Global, error: &Error) -> Option<String>
    ensures { IfSome result (λ text. 0 < length (string_bytes text)) }
{
    let Ok(mut text) = error.to_string(alloc) else {
        return None;
    };
    if !text.as_str().ends_with('\n') && text.push('\n').is_err() {
        return None;
    }
    Some(text)
}

fn is_of_help(kind: ErrorKind) -> bool
    ensures { result ≡ is_of_help kind }
{
    matches!(kind, ErrorKind::DisplayHelp | ErrorKind::DisplayVersion)
}
