//! The errors for timer files.

ghost use Rattle.std.specs.Prelude.{◌≡◌};
ghost use Rattle.cal_timer.specs.declared.fault.TimerFault.TheVariants.{NoMemory};

use cal_spec::SpecFault;
use std::alloc::{AllocError, AllocFailed};

/// Why reading a timer file failed.
///
/// The first error is reported: errors in reading the input come first, then invalid UTF-8, then the errors of the
/// lines in order, and last `NothingToDo`. Lines are numbered from 1, or from the number that
/// [`crate::TimerLists::take_text`] is given, and a logical line has the number of its first physical line.
///
/// Each error has a number, which never changes, so that other documents can refer to it:
///
/// | number | error         |
/// |--------|---------------|
/// | 1      | `ReadFailed`  |
/// | 2      | `TooLarge`    |
/// | 3      | `NotUtf8`     |
/// | 4      | `BadLine`     |
/// | 5      | `TooMany`     |
/// | 6      | `NothingToDo` |
/// | 7      | `NoMemory`    |
#[derive(Clone, Copy, PartialEq, Eq, Debug)]
pub enum TimerFault {
    /// Reading the input failed, before it was known whether it is a valid timer file.
    ReadFailed,
    /// The input has more than 1,048,576 bytes.
    TooLarge,
    /// The bytes are not valid UTF-8. The first invalid byte is in this physical line.
    NotUtf8(u32),
    /// The expression or the exception in this line is invalid, for this reason.
    BadLine(u32, SpecFault),
    /// The expression or the exception in this line would be added to a list that already has 256 entries.
    TooMany(u32),
    /// The list of expressions is empty after the last line, even if there are exceptions.
    NothingToDo,
    /// Allocation failed, so it isn't known whether the timer file is valid.
    NoMemory,
}

impl TimerFault {
    ghost use Rattle.cal_timer.specs.rules.TimerFault.{line_of, message_of};

    /// Returns the message for users. For [`TimerFault::BadLine`], this is the message of the [`SpecFault`]; for
    /// [`TimerFault::NoMemory`], it is empty.
    pub fn words(&self) -> &str
        ensures { result.now ≡ message_of self.now }
    {
        match self {
            TimerFault::ReadFailed => "cannot be read",
            TimerFault::TooLarge => "larger than 1048576 bytes",
            TimerFault::NotUtf8(_) => "not UTF-8",
            TimerFault::BadLine(_, fault) => fault.words(),
            TimerFault::TooMany(_) => "more than 256 expressions",
            TimerFault::NothingToDo => "no calendar expression",
            TimerFault::NoMemory => "",
        }
    }

    /// Returns the number of the line that has the error, or `None` if the error doesn't belong to a line.
    pub fn line(&self) -> Option<u32>
        ensures { result ≡ line_of self.now }
    {
        match self {
            TimerFault::NotUtf8(line) | TimerFault::BadLine(line, _) | TimerFault::TooMany(line) =>
                Some(*line),
            _ => None,
        }
    }
}

impl<T: Drop> From<AllocFailed<T>> for TimerFault {
    ghost from_gives = { λ _ fault. fault ≡ NoMemory };

    fn from(_refused: AllocFailed<T>) -> TimerFault {
        TimerFault::NoMemory
    }
}

impl From<AllocError> for TimerFault {
    ghost from_gives = { λ _ fault. fault ≡ NoMemory };

    fn from(_refused: AllocError) -> TimerFault {
        TimerFault::NoMemory
    }
}
