//! The types that describe a request, and how a run ends, as plain data.

ghost use Rattle.std.specs.Prelude.{◌≡◌, None, false, true, vec_len};
ghost use Rattle.cal_request.specs.rules.Verb.{IsCount, is_timer, seeks_elapses};

use crate::verb::Verb;

/// A request: a verb with its texts and options.
#[derive(Debug, Drop)]
pub struct Request {
    /// The verb, which decides what the report says.
    pub verb: Verb,
    /// The expressions, timestamps or spans in the order of the arguments; for [`Verb::Timer`], only the path of the
    /// timer file.
    pub texts: Vec<String>,
    /// The maximum number of elapses in the report of each expression or of the timer file, 1 to 1,000,000.
    pub iterations: u32,
    /// The base time, a timestamp that hasn't been parsed yet. Only elapses after the base time are reported. If this
    /// is `None`, the base time is the present. It is always `None` for verbs that don't compute elapses.
    pub base: Option<String>,
    ghost count: { IsCount iterations },
    ghost file: { is_timer verb ≡ true → vec_len texts ≡ 1 },
    ghost sought: { seeks_elapses verb ≡ false → base ≡ None },
}

/// The outcome of a run whose output could be written in full.
#[derive(Clone, Copy, PartialEq, Eq, Debug)]
pub enum Status {
    /// Every text, or the timer file, was answered with a report.
    Fine,
    /// At least one error line was written: for a text, for the timer file, or for the base time.
    Refused,
}

impl Status {
    ghost use Rattle.std.specs.Prelude.{◌≡◌};
    ghost use Rattle.cal_request.specs.rules.Status.{is_fine, status_and};

    /// Returns whether the status is [`Status::Fine`], which means that no error line was written.
    pub fn is_fine(self) -> bool
        ensures { result ≡ is_fine self }
    {
        matches!(self, Status::Fine)
    }

    /// Combines the statuses of two parts of a run: returns [`Status::Fine`] if both are `Fine`, and otherwise
    /// [`Status::Refused`].
    pub fn and(self, later: Status) -> Status
        ensures { result ≡ status_and self later }
    {
        match self {
            Status::Fine => later,
            Status::Refused => Status::Refused,
        }
    }
}

/// Why a run could not write its output in full. A run has two writers, one for reports and one for error lines. If the
/// run fails, each of them has received a prefix of what it would have received without the failure.
#[derive(Clone, Copy, PartialEq, Eq, Debug)]
pub enum RunFault {
    /// Writing a report failed.
    OutFailed = 1,
    /// Writing an error line failed.
    ErrFailed = 2,
    /// Allocation failed while a calendar expression or a timer file was being answered.
    NoMemory = 3,
}
