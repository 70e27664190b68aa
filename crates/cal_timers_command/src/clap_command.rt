//! The command that describes the arguments to `clap`, with a subcommand for each verb.

ghost use Rattle.std.specs.Prelude.{◌≡◌, IfOk};
ghost use Rattle.clap.specs.Words.{app_of};
ghost use Rattle.cal_timers_command.specs.rules.CommandLine.{command_app, verb_shape};

use crate::arguments::{SHARED, arguments_of};
use crate::help_texts::{PROGRAM, USAGE, help_of};
use crate::verb::Verb;
use cal_options::{HasSubcommand, Subcommand, with_arguments, with_subcommands};
use clap::Command;
use std::alloc::{AllocError, Global};

/// Builds the `clap` command. At the top level it has the options that most verbs share, but only so that the help of
/// the program lists them. `clap` parses all options as those of the verb, since the verb comes first unless the
/// arguments ask for the help or the version of the program.
pub(crate) fn build_command<'a>(alloc: Global) -> Result<Command<'a>, AllocError>
    ensures { IfOk result (λ command. app_of command ≡ command_app) }
{
    let program = Command::new(alloc, "calendar-timers")
        .version("0.1.0")
        .about("Show when systemd timers elapse, check their files and compare them")
        .override_usage(USAGE)
        .after_help(PROGRAM)
        .subcommand_help_heading("Verbs")
        .no_binary_name(true)
        .subcommand_required(true)
        .bin_name("calendar-timers")?;
    let described = with_arguments(alloc, program, &SHARED)?;
    with_subcommands(alloc, described, &Verb::ALL)
}

impl HasSubcommand for Verb {
    ghost shape = { verb_shape };

    fn subcommand<'a>(self) -> Subcommand<'a> {
        let help = help_of(self);
        Subcommand {
            name: self.name(),
            about: help.about,
            notes: help.notes,
            arguments: arguments_of(self),
        }
    }
}
