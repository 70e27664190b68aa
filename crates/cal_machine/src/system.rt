//! The system that a program runs on.

ghost use Rattle.std.specs.Prelude.{IsTrue, Bool, option_map, string_bytes, true};
ghost use Rattle.cal_machine.specs.rules.Machine.{IfSaid, bytes_of, shown_entry, shown_listing};
ghost use Rattle.cal_machine.specs.rules.Seen.{Said, ClockShows, NamesAre, EntryIs, FileIs, VariableIs};

use crate::tree::{Entry, Names, TreeFault};
use std::alloc::Global;

/// The system that `calendar-timers` runs on: its folders, files and links, its environment variables and its clock.
/// The program reaches these only through this trait, except that its `main` reads the variables for the style of its
/// output. Arguments and outputs are passed separately. `calendar-analyze` needs less: [`crate::Inputs`].
///
/// Nothing is promised about what the calls return: the system may change, so the same call may return something else
/// each time.
///
/// `gives` is true of every answer that a call returns; running out of memory isn't an answer. Code that is generic
/// over `System` knows nothing else about `gives`, so it can prove `gives` only of answers that calls returned.
///
/// For `look` and `names`, a path must have the form that [`crate::Tree`] describes. `read` accepts any path and
/// follows the links in it.
pub trait System {
    /// Whether a call may give this answer to this question.
    ghost gives: { Said → Bool } = { λ _. true };

    /// Returns what is at a path. A link isn't followed.
    fn look(&self, alloc: Global, path: &str) -> Result<Entry, TreeFault>
        ensures { IfSaid shown_entry result (λ answer. IsTrue (gives (EntryIs path.now answer))) };

    /// Returns the names in a folder. A folder that doesn't exist has none.
    fn names(&self, alloc: Global, folder: &str) -> Result<Names, TreeFault>
        ensures { IfSaid shown_listing result (λ answer. IsTrue (gives (NamesAre folder.now answer))) };

    /// Returns the bytes of a file, at most the first [`crate::FILE_BYTES`] of them. Fails with
    /// [`crate::Unreadable::Unopened`] if the file can't be opened.
    fn read(&self, alloc: Global, file: &str) -> Result<Vec<u8>, TreeFault>
        ensures { IfSaid bytes_of result (λ answer. IsTrue (gives (FileIs file.now answer))) };

    /// Returns the value of an environment variable, or `None` if the variable isn't set.
    fn variable(&self, alloc: Global, name: &str) -> Result<Option<String>, TreeFault>
        ensures { IfSaid (option_map string_bytes) result (λ answer. IsTrue (gives (VariableIs name.now answer))) };

    /// Returns the time that the clock shows, in whole seconds since 1970-01-01 00:00:00 UTC. Returns `None` if the
    /// clock can't be read; the real system also returns `None` for a time before 1970.
    fn clock(&self) -> Option<i64>
        ensures { IsTrue (gives (ClockShows result)) };

    /// Returns the part of the system below the folder `root`, or the whole system if `root` is empty.
    fn below(self, root: String) -> Self;
}
