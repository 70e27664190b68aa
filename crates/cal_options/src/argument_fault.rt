//! Why arguments can't be parsed.

ghost use Rattle.std.specs.Prelude.{◌≡◌};
ghost use Rattle.cal_options.specs.declared.argument_fault.ArgumentFault.TheVariants.{NoMemory};

use std::alloc::AllocError;

/// Why arguments can't be parsed: they are invalid, they ask for help or the version, or allocation failed.
#[derive(Drop)]
pub enum ArgumentFault {
    /// The arguments are invalid. The text is for standard error: it says what is wrong and how to get help, and ends
    /// with a line feed.
    Usage(String),
    /// The arguments ask for help or the version. The text is for standard output, and ends with a line feed.
    Help(String),
    /// Out of memory.
    NoMemory,
}

impl From<AllocError> for ArgumentFault {
    ghost from_gives = { λ _ fault. fault ≡ NoMemory };

    fn from(_refused: AllocError) -> ArgumentFault {
        ArgumentFault::NoMemory
    }
}
