//! Building the command that describes the arguments to `clap`, from rows.

ghost use Rattle.std.specs.Prelude.{◌≡◌, List, Some, false, map, IfOk};
ghost use Rattle.clap.specs.Words.{Shape, app_of, rule_of, shape_of};
ghost use Rattle.clap.specs.declared.builder.action.ArgAction.TheVariants.{Set, SetTrue};
ghost use Rattle.clap.specs.declared.builder.command.Command.TheViews.{out-Command as fields_of};
ghost use Rattle.clap.specs.declared.builder.texts.Texts.TheVariants.{One};
ghost use Rattle.cal_options.specs.rules.Arguments.{shown_argument, shown_subcommand, with_rules, with_subcommands};

use crate::argument::{Argument, ArgumentForm};
use clap::{Arg, ArgAction, Command};
use std::alloc::{AllocError, Global};

/// A verb, which has a subcommand of its own.
pub trait HasSubcommand: Copy {
    /// The subcommand as `clap` sees it.
    ghost shape: { Self → Shape };

    fn subcommand<'a>(self) -> Subcommand<'a>
        ensures { shown_subcommand result ≡ shape self };
}

/// The name of a subcommand, what the help says about it, and its arguments.
#[derive(Clone, Copy)]
pub struct Subcommand<'a> {
    pub name: &'a str,
    /// What the subcommand does, in one line.
    pub about: &'static str,
    /// What the help says below the options.
    pub notes: &'static str,
    /// The options and positional arguments, in the order in which the help lists them.
    pub arguments: &'static [Argument],
}

/// Adds a subcommand for each of the verbs.
pub fn with_subcommands<'a, V: HasSubcommand>(
    alloc: Global,
    command: Command<'a>,
    verbs: &[V],
) -> Result<Command<'a>, AllocError>
    ensures { IfOk result (λ changed. app_of changed ≡ with_subcommands (app_of command.entry) (map V.shape verbs.now)) }
{
    let mut command = command;
    for verb in verbs {
        command = command.subcommand(build_subcommand(alloc, verb.subcommand())?)?;
    }
    Ok(command)
}

fn build_subcommand<'a>(
    alloc: Global,
    subcommand: Subcommand<'a>,
) -> Result<Command<'a>, AllocError>
    ensures app { IfOk result (λ command. shape_of command ≡ shown_subcommand subcommand.entry) }
    ensures not_global { IfOk result (λ command. (fields_of command).has_globals ≡ false) }
{
    let command = Command::new(alloc, subcommand.name)
        .about(subcommand.about)
        .after_help(subcommand.notes);
    with_arguments(alloc, command, subcommand.arguments)
}

/// Adds the arguments to the command, in this order.
pub fn with_arguments<'a>(
    alloc: Global,
    command: Command<'a>,
    arguments: &[Argument],
) -> Result<Command<'a>, AllocError>
    requires { (fields_of command).has_globals ≡ false }
    ensures app { IfOk result (λ changed. app_of changed
        ≡ with_rules (app_of command.entry) (map shown_argument arguments.now)) }
    ensures not_global { IfOk result (λ changed. (fields_of changed).has_globals ≡ false) }
{
    let mut command = command;
    for argument in arguments {
        command = command.arg(build_argument(alloc, *argument))?;
    }
    Ok(command)
}

fn build_argument<'a>(alloc: Global, argument: Argument) -> Arg<'a>
    ensures rule { rule_of result ≡ shown_argument argument }
    ensures not_global { result.global ≡ false }
{
    let arg = Arg::new(alloc, argument.name).help(argument.help);
    match argument.form {
        ArgumentForm::Value => value_arg(arg, argument),
        ArgumentForm::ShortValue(letter) => value_arg(arg, argument).short(char::from(letter)),
        ArgumentForm::Flag => flag_arg(arg, argument),
        ArgumentForm::ShortFlag(letter) => flag_arg(arg, argument).short(char::from(letter)),
        ArgumentForm::One => arg_with_value(arg, argument, ArgAction::Set).required(true),
        ArgumentForm::AtMostOne => arg_with_value(arg, argument, ArgAction::Set),
        ArgumentForm::Any => arg_with_value(arg, argument, ArgAction::Append),
        ArgumentForm::AtLeastOne => {
            arg_with_value(arg, argument, ArgAction::Append).required(true)
        }
    }
}

fn value_arg<'a>(arg: Arg<'a>, argument: Argument) -> Arg<'a>
    ensures { result ≡ record arg.entry { val_names = One argument.value_name; action = Some Set; long = Some argument.name } }
{
    arg_with_value(arg, argument, ArgAction::Set).long(argument.name)
}

fn flag_arg<'a>(arg: Arg<'a>, argument: Argument) -> Arg<'a>
    ensures { result ≡ record arg.entry { long = Some argument.name; action = Some SetTrue } }
{
    arg.long(argument.name).action(ArgAction::SetTrue)
}

fn arg_with_value<'a>(arg: Arg<'a>, argument: Argument, action: ArgAction) -> Arg<'a>
    ensures { result ≡ record arg.entry { val_names = One argument.value_name; action = Some action } }
{
    arg.value_name(argument.value_name).action(action)
}
