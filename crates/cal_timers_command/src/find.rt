//! Parsing of the arguments into a command, from the matches that `clap` returns.

ghost use Rattle.std.specs.Prelude.{◌≡◌, Some, Ok, IfErr, IfOk, IsSomeAnd, map};
ghost use Rattle.clap.specs.Words.{found_of, rows_of, subcommand_rows_of};
ghost use Rattle.cal_timers_command.specs.rules.Asked.{HasNeeded, IsCommandOf, IsFaultIn, IsFaultOf, command_for, shown_command, verb_in};
ghost use Rattle.cal_options.specs.rules.ArgumentFault.{shown_fault};
ghost use Rattle.cal_timers_command.specs.rules.Questions.{HasText};

use crate::command_line::parse;
use crate::options::options_of;
use crate::question::Command;
use crate::verb::Verb;
use crate::verb_first::with_verb_first;
use crate::verb_questions::question_of;
use cal_options::ArgumentFault;
use clap::ArgMatches;
use std::alloc::Global;
use std::convert::AsStr;

impl Command {
    /// Parses the arguments after the program's name.
    ///
    /// The verb is the first argument that is neither an option nor the value of an option, if this is the name of a
    /// verb. Otherwise, this argument is a target, and the verb is `list`. The verb is also `list` if there is no such
    /// argument before `--`. All arguments after `--` are targets; options may be given anywhere before `--`.
    ///
    /// The table in `arguments.rt` says which options and targets a verb has, and [`Question`](crate::Question) and
    /// [`Options`](crate::Options) what they mean. The forms of zones, times and targets aren't checked here.
    ///
    /// Fails with [`ArgumentFault::Help`] if the arguments ask for help or the version, with [`ArgumentFault::NoMemory`]
    /// only if allocation fails, and with [`ArgumentFault::Usage`] if the arguments are invalid: for example, if an
    /// option is given twice, if its value is empty, or if `--zone` is given with `--utc`.
    pub fn of<S: AsStr>(alloc: Global, arguments: &[S]) -> Result<Command, ArgumentFault>
        ensures command { IfOk result (λ command. IsCommandOf (map S.text arguments.now) (shown_command command)) }
        ensures fault { IfErr result (λ fault. IsFaultOf (map S.text arguments.now) (shown_fault fault)) }
        ensures text { IfErr result HasText }
    {
        let texts = with_verb_first(alloc, arguments)?;
        let matches = parse(alloc, texts.as_slice())?;
        let (verb, values) = verb_of(&matches);
        command_of(alloc, verb, values)
    }
}

/// Returns the verb and the values that `clap` found in arguments that it accepted. It never accepts arguments without a
/// verb, or without a target that the verb needs.
fn verb_of<'b, 'a>(matches: &'b ArgMatches<'a>) -> (Verb, &'b ArgMatches<'a>)
    requires { IsSomeAnd (verb_in (subcommand_rows_of matches.now)) (λ found. HasNeeded found.0 found.1) }
    ensures found { verb_in (subcommand_rows_of matches.now) ≡ Some (result.0, rows_of (found_of result.1.now)) }
    ensures needed { HasNeeded result.0 (rows_of (found_of result.1.now)) }
{
    let Some((name, values)) = matches.subcommand() else {
        unreachable!()
    };
    let Some(verb) = Verb::named(name) else {
        unreachable!()
    };
    (verb, values)
}

/// Returns the command of a verb with these values, or the error of the first invalid value. The values that only some
/// verbs have are checked before the options that most verbs share.
#[tactic(auto, unfolding(crate::specs::rules::Asked::command_for))]
fn command_of(alloc: Global, verb: Verb, values: &ArgMatches<'_>) -> Result<Command, ArgumentFault>
    requires { HasNeeded verb (rows_of (found_of values.now)) }
    ensures command { IfOk result (λ command. command_for verb (rows_of (found_of values.now)) ≡ Ok (shown_command command)) }
    ensures fault { IfErr result (IsFaultIn (command_for verb (rows_of (found_of values.now)))) }
{
    let question = question_of(alloc, verb, values)?;
    let options = options_of(alloc, values)?;
    Ok(Command { question, options })
}
