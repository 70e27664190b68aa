//! Parsing the command line: `clap` splits the arguments, and then the values that it found are checked.

ghost use Rattle.std.specs.Prelude.{◌≡◌, [], map, IfOk, IfErr, IsSomeAnd};
ghost use Rattle.clap.specs.Words.{subcommand_rows_of};
ghost use Rattle.cal_command.specs.rules.Ask.{shown_answer, texts_of};
ghost use Rattle.cal_command.specs.rules.CommandFault.{reported, shown_fault};
ghost use Rattle.cal_command.specs.rules.CommandLine.{IsAskOf, IsFaultOf, IsOrNoMemory, faults_in, parsed_in, read_options};
ghost use Rattle.cal_options.specs.rules.ArgumentFault as refusals;
ghost use Rattle.cal_command.specs.rules.VerbMatches.{HasTexts, shown_matches, verb_matches_in};

use crate::arguments::{BASE_TIME, ITERATIONS, LOCAL, NOW, ZONES};
use crate::ask::Ask;
use crate::clap_command::build_command;
use crate::command_fault::CommandFault;
use crate::option_values::{base_of, iterations_of, local_zone_of, now_of, to_owned, zones_of};
use crate::verb_matches::VerbMatches;
use cal_options::ArgumentFault;
use cal_request::Request;
use clap::ArgMatches;
use std::alloc::Global;
use std::convert::AsStr;

impl Ask {
    /// Parses the arguments after the program's name (systemd-analyze(1)): a verb, and then its options and texts in
    /// any order. After an argument `--`, all arguments are texts. The table in `arguments.rt` says which options a verb
    /// has.
    ///
    /// - `--iterations=N`: a number in the range of its row, in digits only; 1 by default. Anything else is
    ///   [`CommandFault::BadIterations`].
    /// - `--base-time=STAMP`: any text, which isn't parsed here; the present by default.
    /// - `--now=@N`: `@` and a number from 0 to 7,258,211,998, in digits only; the system's clock by default. Anything
    ///   else is [`CommandFault::BadNow`].
    /// - `--zones=NAME=FILE,..`: 1 to 64 items, each with a name that has the form of a zone's name and a path that
    ///   isn't empty; no items by default. Anything else is [`CommandFault::BadZones`].
    /// - `--local=Z`: `UTC`, ignoring case; `+hh:mm` or `-hh:mm` up to 25:59; `posix:` and any text, which is parsed as
    ///   a rule later; or a name that has the form of a zone's name. UTC by default. Anything else is
    ///   [`CommandFault::BadLocal`].
    ///
    /// Fails with [`CommandFault::Usage`] only if `clap` can't parse the arguments, for example because an option is
    /// given twice, and with [`CommandFault::Help`] if help or the version is asked for. If several values are invalid,
    /// the first in the order above is reported. Fails with [`CommandFault::NoMemory`] only if allocation fails.
    pub fn of<'a>(alloc: Global, arguments: &'a [&'a str]) -> Result<Ask, CommandFault>
        ensures exact { IsAskOf (texts_of arguments.now) (shown_answer result) }
    {
        Self::of_arguments(alloc, arguments)
    }

    /// Parses the arguments after the program's name, as [`Ask::of`] does. They can be of any string type.
    pub fn of_arguments<'a, S: AsStr>(
        alloc: Global,
        arguments: &'a [S],
    ) -> Result<Ask, CommandFault>
        ensures exact { IsAskOf (map S.text arguments.now) (shown_answer result) }
    {
        let matches = parse(alloc, arguments)?;
        read_options(alloc, VerbMatches::of(&matches))
    }
}

/// Checks the values of the options and builds the `Ask`.
#[tactic(auto, unfolding(crate::specs::rules::CommandLine::read_options))]
fn read_options(alloc: Global, found: VerbMatches) -> Result<Ask, CommandFault>
    ensures { IsOrNoMemory (shown_answer result) (read_options (shown_matches found.entry)) }
{
    let Some(iterations) = iterations_of(found.elapse_option(ITERATIONS)) else {
        return Err(CommandFault::BadIterations);
    };
    let Some(now) = now_of(found.instant_option(NOW)) else {
        return Err(CommandFault::BadNow);
    };
    let Some(zones) = zones_of(alloc, found.instant_option(ZONES))? else {
        return Err(CommandFault::BadZones);
    };
    let Some(local) = local_zone_of(alloc, found.instant_option(LOCAL))? else {
        return Err(CommandFault::BadLocal);
    };
    let request = Request {
        verb: found.verb,
        texts: to_owned(alloc, found.texts)?,
        iterations,
        base: base_of(alloc, found.elapse_option(BASE_TIME))?,
    };
    Ok(Ask {
        request,
        now,
        local,
        zones,
    })
}

/// Passes the arguments to `clap`, and returns what it finds in them: always a verb and its texts. Fails with `Help` if
/// the arguments ask for help or the version, with `Usage` if `clap` can't parse them, and with `NoMemory` if allocation
/// fails.
fn parse<'a, S: AsStr>(alloc: Global, arguments: &'a [S]) -> Result<ArgMatches<'a>, CommandFault>
    ensures faults { IfOk result (λ _. faults_in (map S.text arguments.now) ≡ []) }
    ensures found { IfOk result (λ matches. verb_matches_in (subcommand_rows_of matches) ≡ parsed_in (map S.text arguments.now)) }
    ensures texts { IfOk result (λ matches. IsSomeAnd (verb_matches_in (subcommand_rows_of matches)) HasTexts) }
    ensures fault { IfErr result (λ fault. IsFaultOf (map S.text arguments.now) (shown_fault fault)) }
{
    match cal_options::parse(alloc, build_command(alloc)?, arguments) {
        Ok(matches) => Ok(matches),
        Err(fault) => Err(reported_fault(fault)),
    }
}

/// Converts an error that `clap` reports.
fn reported_fault(fault: ArgumentFault) -> CommandFault
    ensures { shown_fault result ≡ reported (refusals.shown_fault fault) }
{
    match fault {
        ArgumentFault::Usage(text) => CommandFault::Usage(text),
        ArgumentFault::Help(text) => CommandFault::Help(text),
        ArgumentFault::NoMemory => CommandFault::NoMemory,
    }
}
