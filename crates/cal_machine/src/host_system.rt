//! The real system, reached through the runtime of the program. Nothing is proved about what it contains.

use crate::system::System;
use crate::tree::{Entry, FILE_BYTES, Names, TreeFault, Unreadable};
use std::alloc::{AllocError, Global};
use std::fs::DirEntry;
use std::io::{Error, ErrorKind, Read};
use std::rt::{Env, Files};
use std::time::{Clock, SystemTime, UNIX_EPOCH};
use std::{env, fs, io};

/// The system that the program runs on, or the part of it below a root folder.
#[derive(Drop)]
pub struct HostSystem<'a, R> {
    /// The runtime, through which everything is read.
    rt: &'a R,
    /// The folder in which absolute paths start. Empty for the system's own root.
    root: String,
}

impl<'a, R: AllocGlobal> HostSystem<'a, R> {
    /// Returns the whole system that this runtime reaches.
    pub fn new(rt: &'a R) -> HostSystem<'a, R> {
        HostSystem {
            rt,
            root: String::new(rt.alloc()),
        }
    }
}

impl<'a, R: Files + Env + Clock + AllocGlobal + Clone + Drop> System for HostSystem<'a, R> {
    fn look(&self, alloc: Global, path: &str) -> Result<Entry, TreeFault> {
        let whole = self.path_of(alloc, path)?;
        let metadata = match fs::symlink_metadata(self.rt, whole.as_str()) {
            Ok(metadata) => metadata,
            Err(error) if is_missing(&error) => return Ok(assumed_at(path)),
            Err(error) => return Err(tree_fault_of(&error, Unreadable::Failed)),
        };
        if metadata.is_symlink() {
            return look_at_link(self.rt, alloc, whole.as_str());
        }
        Ok(if metadata.is_dir() {
            Entry::Folder
        } else if !metadata.is_file() {
            Entry::Device
        } else if metadata.len() == 0 {
            Entry::Empty
        } else {
            Entry::File
        })
    }

    fn names(&self, alloc: Global, folder: &str) -> Result<Names, TreeFault> {
        let path = self.path_of(alloc, folder)?;
        let mut found = Names {
            names: Vec::new(alloc),
            unnamed: 0,
        };
        let entries = match fs::read_dir(self.rt, path.as_str()) {
            Ok(entries) => entries,
            Err(error) if is_missing(&error) => return Ok(found),
            Err(error) => return Err(tree_fault_of(&error, Unreadable::Failed)),
        };
        for entry in entries {
            push_entry(alloc, &mut found, entry)?;
        }
        Ok(found)
    }

    fn read(&self, alloc: Global, file: &str) -> Result<Vec<u8>, TreeFault> {
        if file.is_empty() {
            return Err(TreeFault::Unreadable(Unreadable::Unopened));
        }
        let path = self.path_of(alloc, file)?;
        let file = match fs::open(self.rt, path.as_str()) {
            Ok(file) => file,
            Err(error) => return Err(tree_fault_of(&error, Unreadable::Unopened)),
        };
        let mut bytes = Vec::new(alloc);
        match file.take(FILE_BYTES as u64).read_to_end(&mut bytes) {
            Ok(_) => Ok(bytes),
            Err(error) => Err(tree_fault_of(&error, Unreadable::Failed)),
        }
    }

    fn variable(&self, _alloc: Global, name: &str) -> Result<Option<String>, TreeFault> {
        match env::var(self.rt, name) {
            Ok(value) => Ok(Some(value)),
            Err(env::VarError::NotPresent) => Ok(None),
            Err(env::VarError::NotUnicode) => Err(TreeFault::Unreadable(Unreadable::NotUtf8)),
            Err(env::VarError::OutOfMemory) => Err(TreeFault::NoMemory),
        }
    }

    fn clock(&self) -> Option<i64> {
        let now = SystemTime::now(self.rt).ok()?;
        let since = now.duration_since(UNIX_EPOCH).ok()?;
        i64::try_from(since.as_secs()).ok()
    }

    fn below(self, root: String) -> HostSystem<'a, R> {
        HostSystem { rt: self.rt, root }
    }
}

impl<'a, R> HostSystem<'a, R> {
    /// Returns the path on the system that stands for `path`. An absolute path lies below the root folder, and the
    /// empty path is that of the root folder itself. A relative path stays as it is.
    fn path_of(&self, alloc: Global, path: &str) -> Result<String, AllocError> {
        let root = self.root.as_str();
        match path {
            "" if root.is_empty() => String::from_str(alloc, "/"),
            _ if path.is_empty() || path.starts_with('/') => format!(in alloc; "{root}{path}"),
            _ => String::from_str(alloc, path),
        }
    }
}

/// Appends the name of an entry of a folder, or counts the entry if its name isn't UTF-8.
fn push_entry<R: Files + Drop>(
    alloc: Global,
    found: &mut Names,
    entry: io::Result<DirEntry<R, Global>>,
) -> Result<(), TreeFault> {
    match entry {
        Ok(entry) => found
            .names
            .push(String::from_str(alloc, entry.file_name())?)?,
        Err(error) if error.kind() == ErrorKind::InvalidFilename => {
            found.unnamed = found.unnamed.saturating_add(1);
        }
        Err(error) => return Err(tree_fault_of(&error, Unreadable::Failed)),
    }
    Ok(())
}

/// Returns what is assumed to be at a path if nothing is there. `/dev` and `/dev/null` are never missing, so that a
/// link to `/dev/null` masks a unit even below a root folder without devices, such as that of an image.
fn assumed_at(path: &str) -> Entry {
    match path {
        "/dev" => Entry::Folder,
        "/dev/null" => Entry::Device,
        _ => Entry::Missing,
    }
}

fn look_at_link<R: Files + AllocGlobal>(
    rt: &R,
    alloc: Global,
    path: &str,
) -> Result<Entry, TreeFault> {
    match fs::read_link(rt, path) {
        Ok(link) => match link.as_path().to_str() {
            Some(target) if names_open_pipe(target) => Ok(Entry::File),
            Some(target) => Ok(Entry::Link(String::from_str(alloc, target)?)),
            None => Err(TreeFault::Unreadable(Unreadable::NotUtf8)),
        },
        Err(error) => Err(tree_fault_of(&error, Unreadable::Failed)),
    }
}

/// Returns whether a link's target looks like those in `/proc/self/fd` that stand for an open pipe or socket, as in
/// `pipe:[42]` (proc(5)). Opening such a link opens the pipe itself, so `lint /dev/stdin` can read a pipe.
fn names_open_pipe(target: &str) -> bool {
    !target.contains('/') && target.contains(":[") && target.ends_with(']')
}

fn is_missing(error: &Error) -> bool {
    matches!(error.kind(), ErrorKind::NotFound | ErrorKind::NotADirectory)
}

/// Converts an error of a system call. Unless memory ran out, `why` is the reason.
fn tree_fault_of(error: &Error, why: Unreadable) -> TreeFault {
    match error.kind() {
        ErrorKind::OutOfMemory => TreeFault::NoMemory,
        _ => TreeFault::Unreadable(why),
    }
}
