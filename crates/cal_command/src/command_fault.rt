//! The errors of parsing the command line.

ghost use Rattle.std.specs.Prelude.{◌≡◌};
ghost use Rattle.cal_command.specs.declared.command_fault.CommandFault.TheVariants.{NoMemory};

use std::alloc::AllocError;

/// Why a command line yields no request: it is invalid, it only asks for help or the version, or memory ran out.
///
/// The errors are numbered, so that other documents can refer to them. Two variants hold data, so the numbers can't be
/// declared with `= N`:
///
/// | Number | Variant |
/// |---|---|
/// | 1 | `Usage` |
/// | 2 | `Help` |
/// | 3 | `BadIterations` |
/// | 4 | `BadNow` |
/// | 5 | `BadZones` |
/// | 6 | `BadLocal` |
/// | 7 | `NoMemory` |
#[derive(Debug, Drop)]
pub enum CommandFault {
    /// `clap` can't parse the arguments. The text is the message of `clap`, which says why, and how to get help.
    Usage(String),
    /// The arguments ask for help or the version. The text is what to print.
    Help(String),
    /// `--iterations` isn't a number from 1 to 1,000,000.
    BadIterations,
    /// `--now` isn't `@` followed by the seconds since 1970-01-01 00:00:00 UTC, from 0 to 7,258,211,998.
    BadNow,
    /// `--zones` isn't a list of 1 to 64 items `NAME=FILE` that are separated by commas, or one of the names doesn't
    /// have the form of a zone's name, or one of the paths is empty.
    BadZones,
    /// `--local` isn't `UTC`, a UTC offset `+hh:mm` or `-hh:mm`, a text that begins with `posix:`, or a name that has
    /// the form of a zone's name. The rule after `posix:` isn't parsed here.
    BadLocal,
    /// Allocation failed, so it isn't known whether the command line is valid.
    NoMemory,
}

impl CommandFault {
    ghost use Rattle.cal_command.specs.rules.CommandFault.{message_of, shown_fault};

    /// Returns the message for users. For usage and help it is the text to print, including the line feed at its end.
    /// For [`CommandFault::NoMemory`] it is empty.
    pub fn words(&self) -> &str
        ensures { result.now ≡ message_of (shown_fault self.now) }
    {
        match self {
            CommandFault::Usage(text) | CommandFault::Help(text) => text.as_str(),
            CommandFault::BadIterations => "bad iterations",
            CommandFault::BadNow => "bad now",
            CommandFault::BadZones => "bad zones",
            CommandFault::BadLocal => "bad local zone",
            CommandFault::NoMemory => "",
        }
    }
}

impl From<AllocError> for CommandFault {
    ghost from_gives = { λ _ fault. fault ≡ NoMemory };

    fn from(_refused: AllocError) -> CommandFault {
        CommandFault::NoMemory
    }
}
