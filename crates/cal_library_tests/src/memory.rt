//! A system in memory: files, links and folders at given paths, and a clock that stands still.

ghost use Rattle.std.specs.Prelude.{◌==◌};

use crate::shared::NEW_YEAR;
use cal_base::Source;
use cal_machine::{Entry, Inputs, Names, OpenFault, System, TreeFault, Unreadable};
use std::alloc::{AllocError, Global};

/// What is at a path.
#[derive(Clone, Copy)]
pub enum Item<'a> {
    /// A file with these bytes.
    File(&'a [u8]),
    /// A symbolic link with this target.
    Link(&'a str),
    /// A symbolic link with a target that isn't UTF-8.
    Unnamed,
    /// A folder that can't be listed.
    Closed,
    /// A file that can be opened, but not read.
    Locked,
    /// Something that can't even be examined.
    Hidden,
}

/// A system with these items, each at its path, and with the folders above them. `read` doesn't follow links, `HOME` is
/// the only variable, and `below` ignores its folder.
#[derive(Clone, Copy)]
pub struct MemorySystem<'a> {
    pub items: &'a [(&'a str, Item<'a>)],
    /// The time that the clock shows, in seconds of Unix time.
    pub time: Option<i64>,
}

impl<'a> MemorySystem<'a> {
    /// Returns a system with these items, whose clock always shows [`NEW_YEAR`].
    pub fn new(items: &'a [(&'a str, Item<'a>)]) -> MemorySystem<'a> {
        MemorySystem {
            items,
            time: Some(NEW_YEAR),
        }
    }

    fn at(&self, path: &str) -> Option<Item<'a>> {
        for (name, item) in self.items {
            if *name == path {
                return Some(*item);
            }
        }
        None
    }

    /// Returns the names in a folder, each once.
    fn names_in(&self, alloc: Global, folder: &str) -> Result<Vec<String>, AllocError> {
        let mut names: Vec<String> = Vec::new(alloc);
        for (path, _) in self.items {
            if let Some(name) = name_below(folder, path) {
                if !names.iter().any(|known| known.as_str() == name) {
                    names.push(String::from_str(alloc, name)?)?;
                }
            }
        }
        Ok(names)
    }

    fn is_folder(&self, path: &str) -> bool {
        self.items
            .iter()
            .any(|(below, _)| name_below(path, below).is_some())
    }
}

/// Returns the name that the path has in the folder, or `None` if the path isn't below the folder.
fn name_below<'p>(folder: &str, path: &'p str) -> Option<&'p str> {
    let names = path.strip_prefix(folder)?.strip_prefix('/')?;
    names.split('/').next()
}

impl<'a> System for MemorySystem<'a> {
    fn look(&self, alloc: Global, path: &str) -> Result<Entry, TreeFault> {
        match self.at(path) {
            None if self.is_folder(path) => Ok(Entry::Folder),
            None => Ok(Entry::Missing),
            Some(Item::File(b"")) => Ok(Entry::Empty),
            Some(Item::File(_) | Item::Locked) => Ok(Entry::File),
            Some(Item::Closed) => Ok(Entry::Folder),
            Some(Item::Link(target)) => Ok(Entry::Link(String::from_str(alloc, target)?)),
            Some(Item::Unnamed) => Err(TreeFault::Unreadable(Unreadable::NotUtf8)),
            Some(Item::Hidden) => Err(TreeFault::Unreadable(Unreadable::Failed)),
        }
    }

    fn names(&self, alloc: Global, folder: &str) -> Result<Names, TreeFault> {
        if let Some(Item::Closed) = self.at(folder) {
            return Err(TreeFault::Unreadable(Unreadable::Failed));
        }
        Ok(Names {
            names: self.names_in(alloc, folder)?,
            unnamed: 0,
        })
    }

    fn read(&self, alloc: Global, file: &str) -> Result<Vec<u8>, TreeFault> {
        match self.at(file) {
            Some(Item::File(bytes)) => Ok(Vec::from_slice(alloc, bytes)?),
            Some(Item::Locked) => Err(TreeFault::Unreadable(Unreadable::Failed)),
            _ => Err(TreeFault::Unreadable(Unreadable::Unopened)),
        }
    }

    fn variable(&self, alloc: Global, name: &str) -> Result<Option<String>, TreeFault> {
        if name == "HOME" {
            return Ok(Some(String::from_str(alloc, "/home/ann")?));
        }
        Ok(None)
    }

    fn clock(&self) -> Option<i64> {
        self.time
    }

    fn below(self, _root: String) -> MemorySystem<'a> {
        self
    }
}

/// The files and the clock of a [`MemorySystem`], as `calendar-analyze` reads them: one file after another.
#[derive(Clone, Copy)]
pub struct MemoryInputs<'a> {
    system: MemorySystem<'a>,
    /// The bytes still to come of the file that was opened last.
    left: &'a [u8],
    /// Whether reading the file that was opened last fails.
    is_locked: bool,
    has_failed: bool,
    /// How many calls of `fetch` were made since a file was opened.
    pub fetches: u32,
}

impl<'a> MemoryInputs<'a> {
    /// Returns the files and the clock of this system. No file is open.
    pub fn new(system: MemorySystem<'a>) -> MemoryInputs<'a> {
        MemoryInputs {
            system,
            left: b"",
            is_locked: false,
            has_failed: false,
            fetches: 0,
        }
    }
}

impl<'a> Source for MemoryInputs<'a> {
    ghost is_failed = { λ inputs. inputs.has_failed };

    fn fetch(&mut self, into: &mut [u8]) -> Option<usize> {
        self.fetches = self.fetches.saturating_add(1);
        if self.is_locked {
            self.has_failed = true;
            return None;
        }
        let count = into.len().min(self.left.len());
        let (front, left) = self.left.split_at(count);
        into[..count].copy_from_slice(front);
        self.left = left;
        Some(count)
    }
}

impl<'a> Inputs for MemoryInputs<'a> {
    ghost opens = { λ inputs _. inputs.fetches == 0 };

    fn open(&mut self, path: &str) -> Result<(), OpenFault> {
        let (left, is_locked): (&'a [u8], bool) = match self.system.at(path) {
            Some(Item::File(bytes)) => (bytes, false),
            Some(Item::Locked) => (b"", true),
            _ => return Err(OpenFault::Unopened),
        };
        *self = MemoryInputs {
            system: self.system,
            left,
            is_locked,
            has_failed: false,
            fetches: 0,
        };
        Ok(())
    }

    fn clock(&self) -> Option<i64> {
        self.system.time
    }
}
