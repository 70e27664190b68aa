//! Parsing of the arguments by `clap`.

ghost use Rattle.std.specs.Prelude.{◌≡◌, [], IfErr, IfOk, IsSomeAnd};
ghost use Rattle.clap.specs.Words.{fault_of, subcommand_of, subcommand_rows_of};
ghost use Rattle.cal_options.specs.rules.ArgumentFault.{IsRefusalOf, shown_fault};
ghost use Rattle.cal_timers_command.specs.rules.Asked.{HasNeeded, verb_in};
ghost use Rattle.cal_timers_command.specs.rules.CommandLine.{command_app};
ghost use Rattle.cal_timers_command.specs.rules.Texts.{texts_of};

use crate::clap_command::build_command;
use cal_options::ArgumentFault;
use clap::ArgMatches;
use std::alloc::Global;

/// Parses the arguments with `clap`. The first argument is the verb, unless the arguments ask for the help or the
/// version of the program. If `clap` accepts the arguments, it finds a verb and all targets that this verb needs.
pub(crate) fn parse<'a>(
    alloc: Global,
    arguments: &'a [&'a str],
) -> Result<ArgMatches<'a>, ArgumentFault>
    ensures faults { IfOk result (λ _. fault_of command_app (texts_of arguments.now) ≡ []) }
    ensures found { IfOk result (λ matches. subcommand_rows_of matches ≡ subcommand_of command_app (texts_of arguments.now)) }
    ensures needed { IfOk result (λ matches. IsSomeAnd (verb_in (subcommand_rows_of matches)) (λ found. HasNeeded found.0 found.1)) }
    ensures fault { IfErr result (λ fault. IsRefusalOf command_app (texts_of arguments.now) (shown_fault fault)) }
{
    cal_options::parse(alloc, build_command(alloc)?, arguments)
}
