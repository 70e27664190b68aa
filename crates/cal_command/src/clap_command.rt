//! The command that describes the arguments to `clap`, with a subcommand for each verb (systemd-analyze(1)).

ghost use Rattle.std.specs.Prelude.{◌≡◌, IfOk};
ghost use Rattle.clap.specs.Words.{app_of};
ghost use Rattle.cal_command.specs.rules.CommandLine.{command_app, verb_shape};

use crate::arguments::arguments_of;
use crate::verb_help::{STATUSES, VERB_HELPS, VerbHelp};
use cal_options::{HasSubcommand, Subcommand, with_subcommands};
use clap::Command;
use std::alloc::{AllocError, Global};

/// Builds the `clap` command of the whole program: its name and version, what its help says, and a subcommand for each
/// verb.
pub(crate) fn build_command<'a>(alloc: Global) -> Result<Command<'a>, AllocError>
    ensures { IfOk result (λ command. app_of command ≡ command_app) }
{
    let command = Command::new(alloc, "calendar-analyze")
        .version("0.1.0")
        .about("Analyze systemd calendar expressions, timestamps, time spans and timers")
        .after_help(STATUSES)
        .no_binary_name(true)
        .subcommand_required(true)
        .bin_name("calendar-analyze")?;
    with_subcommands(alloc, command, &VERB_HELPS)
}

impl HasSubcommand for VerbHelp {
    ghost shape = { λ help. verb_shape help.verb };

    fn subcommand<'a>(self) -> Subcommand<'a> {
        Subcommand {
            name: self.verb.name(),
            about: self.about,
            notes: self.notes,
            arguments: arguments_of(self.verb),
        }
    }
}
