//! Problems of timers that `lint` lists only if they aren't listed already.

ghost use Rattle.std.specs.Prelude.{◌≡◌, ◌++◌, ◌∷◌, [], OnOk, map};
ghost use Rattle.cal_answers.specs.rules.LintCandidates.{error_about, in_line, shown_candidate};

use cal_lint::ProblemKind;
use std::alloc::{AllocError, Global};

/// A problem that `lint` lists unless it is listed already.
#[derive(Drop)]
pub(crate) struct Candidate {
    pub kind: ProblemKind,
    /// The path of the file that has the line. Without a line, the name of the timer, or the path of the file or
    /// folder, that the problem is about as a whole.
    pub file: String,
    /// The line of the file, or `None` for a problem of a timer, file or folder as a whole.
    pub line: Option<u32>,
    pub message: String,
    pub unless: Unless,
}

/// Which problems make `lint` leave out a candidate if they are listed already.
#[derive(Clone, Copy)]
pub(crate) enum Unless {
    /// Only the same problem. Several timers can have the same drop-in, and then its problem is found several times.
    Same,
    /// The same problem, or any error in the line.
    ErrorInLine,
    /// The same problem, or any error or warning in the line.
    ProblemInLine,
}

/// Appends a problem of a line in the file at the path `file`.
pub(crate) fn push_in_line(
    alloc: Global,
    found: &mut Vec<Candidate>,
    kind: ProblemKind,
    file: &str,
    line: u32,
    message: &str,
    unless: Unless,
) -> Result<(), AllocError>
    ensures { OnOk result (map shown_candidate found.new.items
        ≡ map shown_candidate found.old.items ++ in_line kind file.now line message.now unless ∷ []) }
{
    found.push(Candidate {
        kind,
        file: String::from_str(alloc, file)?,
        line: Some(line),
        message: String::from_str(alloc, message)?,
        unless,
    })?;
    Ok(())
}

/// Appends an error about a timer, or about what is at a path, as a whole.
pub(crate) fn push_error_about(
    alloc: Global,
    found: &mut Vec<Candidate>,
    subject: &str,
    message: &str,
) -> Result<(), AllocError>
    ensures { OnOk result (map shown_candidate found.new.items
        ≡ map shown_candidate found.old.items ++ error_about subject.now message.now ∷ []) }
{
    found.push(Candidate {
        kind: ProblemKind::Error,
        file: String::from_str(alloc, subject)?,
        line: None,
        message: String::from_str(alloc, message)?,
        unless: Unless::Same,
    })?;
    Ok(())
}
