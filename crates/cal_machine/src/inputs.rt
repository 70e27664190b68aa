//! What `calendar-analyze` reads besides its arguments.

ghost use Rattle.std.specs.Prelude.{◌≡◌, ℕ, Bool, false, true, IfOk, IsTrue, List, Result};
ghost use Rattle.cal_bytes.specs.declared.whole.WholeFault.{WholeFault};
ghost use Rattle.cal_machine.specs.rules.Told.{CanGive, ClockShows, Contents, FileHolds, Told, Unopened};

use cal_bytes::Source;

/// Why a file isn't open.
#[derive(Clone, Copy, PartialEq, Eq)]
pub enum OpenFault {
    /// The file can't be opened, for example because it doesn't exist or opening it isn't permitted.
    Unopened,
    /// Out of memory. This says nothing about the file.
    NoMemory,
}

/// What `calendar-analyze` reads besides its arguments: the clock, and files, one after another. After `open`, the
/// value is the [`Source`] of the file that was opened last.
///
/// Nothing is promised about what the calls return: the files and the clock may change, so the same call may return
/// something else each time.
///
/// `gives` is true of every answer that a call returns or that reading an open file to its end can give; running out of
/// memory isn't an answer. `opens` is true of the state in which a successful `open` leaves the value. Code that is
/// generic over `Inputs` knows nothing else about either, so it can prove `gives` only of such answers, and `opens`
/// only of such states.
pub trait Inputs: Source {
    /// Whether this answer may be given to this question.
    ghost gives: { Told → Bool } = { λ _. true };

    /// True of the state right after the file at this path was opened, before anything is read from it. It may be true
    /// of other states, too.
    ghost opens: { Self → List ℕ → Bool } = { λ _ _. true };

    /// Opens a file. From then on, the value is the [`Source`] of this file, and of none opened before.
    fn open(&mut self, path: &str) -> Result<(), OpenFault>
        ensures opened { IfOk result (λ _. (Self.is_failed self.new ≡ false) × IsTrue (opens self.new path.now)) }
        ensures holds { IfOk result (λ _. (read : Result (List ℕ) WholeFault)
            → CanGive (Self.remaining self.new) (Self.may_fail self.new) read
            → IsTrue (gives (FileHolds path.now (Contents read)))) }
        ensures unopened { result ≡ Err OpenFault.Unopened → IsTrue (gives (FileHolds path.now Unopened)) };

    /// Returns the time that the clock shows, in whole seconds since 1970-01-01 00:00:00 UTC. Returns `None` if the
    /// clock can't be read; the real clock also returns `None` for a time before 1970.
    fn clock(&self) -> Option<i64>
        ensures { IsTrue (gives (ClockShows result)) };
}
