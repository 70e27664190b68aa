//! Access to a machine: its folders, files and links, and its environment variables.

ghost use Rattle.std.specs.Prelude.{◌≡◌, ℕ, option_map, string_bytes};
ghost use Rattle.cal_machine.specs.rules.Machine.{Machine, Tells, bytes_of, shown_entry, shown_listing};
ghost use Rattle.cal_machine.specs.declared.tree.TreeFault.TheVariants.{NoMemory};

use std::alloc::{AllocError, AllocFailed, Global};

/// The maximum number of bytes that are read from a file. This is one more than the size limit of unit files and zone
/// files, so the number of bytes that were read shows whether a file is too large.
pub const FILE_BYTES: usize = 1_048_577;

/// Why something can't be read. A [`Tree`] treats this as a fact about the machine: asking again gives the same error.
#[derive(Clone, Copy, PartialEq, Eq)]
pub enum Unreadable {
    /// A file can't be opened, for example because it doesn't exist or opening it isn't permitted.
    Unopened,
    /// Anything else fails: an open file can't be read, a folder can't be listed, or a path can't be followed.
    Failed,
    /// The target of a link, or the value of a variable, is not UTF-8.
    NotUtf8,
}

/// Why a method of a [`Tree`] or a [`crate::System`] failed.
#[derive(Clone, Copy, PartialEq, Eq)]
pub enum TreeFault {
    /// The folder, path, file or variable can't be read, for this reason.
    Unreadable(Unreadable),
    /// Out of memory. This says nothing about the machine.
    NoMemory,
}

impl From<AllocError> for TreeFault {
    ghost from_gives = { λ _ fault. fault ≡ NoMemory };

    fn from(_refused: AllocError) -> TreeFault {
        TreeFault::NoMemory
    }
}

impl<T: Drop> From<AllocFailed<T>> for TreeFault {
    ghost from_gives = { λ _ fault. fault ≡ NoMemory };

    fn from(_refused: AllocFailed<T>) -> TreeFault {
        TreeFault::NoMemory
    }
}

/// What is at a path.
#[derive(Drop)]
pub enum Entry {
    /// Nothing is at the path.
    Missing,
    /// A file of 0 bytes.
    Empty,
    /// Any other file. [`Tree::read`] returns its bytes.
    File,
    /// Anything that isn't a file, a folder or a link, such as a device, a FIFO or a socket. [`crate::read_at`] doesn't
    /// open it.
    Device,
    /// A folder. A link to a folder is a [`Entry::Link`] instead.
    Folder,
    /// A symbolic link with this target.
    Link(String),
}

/// The names in a folder.
#[derive(Drop)]
pub struct Names {
    /// The names, in any order.
    pub names: Vec<String>,
    /// How many further entries have names that are not UTF-8.
    pub unnamed: usize,
}

/// Access to the folders, files and links of a machine, and to its environment variables.
///
/// Paths that are passed to the methods must lead through no links: every part of a path except the last must be a
/// folder, and not a link to one. A path is absolute, without `.`, `..` or a slash at its end, such as `/usr/lib`, and
/// the root is the empty path; or it starts with `./`, and is relative to the folder in which the program runs.
/// [`crate::find_place`] finds such paths.
///
/// The machine may change while it is read, but what the methods return never contradicts itself: after any calls there
/// is a machine, fixed in time, that agrees with everything that they have returned (`some_machine`). `shows` is true
/// of such machines, and each further call can only rule out some of them (`grows`).
///
/// An error is a fact about the machine, too: if a method fails with [`TreeFault::Unreadable`], every machine for which
/// `shows` is true has this error at this place. Only [`TreeFault::NoMemory`] says nothing about the machine.
pub trait Tree {
    /// Whether all that the methods have returned so far agrees with this description of a machine.
    ghost shows: { Self → Machine → Type 0 };

    /// Returns what is at a path. A link isn't followed.
    fn look(&mut self, alloc: Global, path: &str) -> Result<Entry, TreeFault>
        ensures known { (machine : Machine) → shows self.new machine
            → Tells shown_entry result (machine.entry path.now) }
        ensures grows { (machine : Machine) → shows self.new machine → shows self.old machine };

    /// Returns the names in a folder. A folder that doesn't exist has none.
    fn names(&mut self, alloc: Global, folder: &str) -> Result<Names, TreeFault>
        ensures known { (machine : Machine) → shows self.new machine
            → Tells shown_listing result (machine.names folder.now) }
        ensures grows { (machine : Machine) → shows self.new machine → shows self.old machine };

    /// Returns the bytes of a file, at most the first [`FILE_BYTES`] of them.
    fn read(&mut self, alloc: Global, file: &str) -> Result<Vec<u8>, TreeFault>
        ensures known { (machine : Machine) → shows self.new machine
            → Tells bytes_of result (machine.file file.now) }
        ensures grows { (machine : Machine) → shows self.new machine → shows self.old machine };

    /// Returns the value of an environment variable, or `None` if the variable isn't set.
    fn variable(&mut self, alloc: Global, name: &str) -> Result<Option<String>, TreeFault>
        ensures known { (machine : Machine) → shows self.new machine
            → Tells (option_map string_bytes) result (machine.variable name.now) }
        ensures grows { (machine : Machine) → shows self.new machine → shows self.old machine };

    /// Whatever the methods have returned, there is a machine that agrees with it.
    ghost some_machine: { (tree : Self) → (machine : Machine) × shows tree machine };
}
