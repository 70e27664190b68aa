//! Errors about the paths of a unit's files and folders.

ghost use Rattle.std.specs.Prelude.{◌≡◌, IfOk};
ghost use Rattle.cal_unit_index.specs.rules.Index.{shown_fault};

use cal_machine::Unreadable;
use std::alloc::{AllocError, Global};

/// Why a path can't be used.
#[derive(Clone, Copy, PartialEq, Eq)]
pub enum Reason {
    /// The path can't be read, or it is a link whose target can't be followed.
    Unreadable(Unreadable),
    /// The path leads to a folder, but should lead to a file.
    IsFolder,
    /// The path leads to nothing.
    Missing,
    /// The file has more than 1,048,576 bytes.
    TooLarge,
}

/// A path that can't be used, and why.
#[derive(Drop)]
pub struct UnitFault {
    /// The path of a folder, a file or a link.
    pub path: String,
    pub reason: Reason,
}

impl UnitFault {
    pub(crate) fn at(alloc: Global, path: &str, reason: Reason) -> Result<UnitFault, AllocError>
        ensures { IfOk result (λ fault. shown_fault fault ≡ record { path = path.now; reason = reason }) }
    {
        let path = String::from_str(alloc, path)?;
        Ok(UnitFault { path, reason })
    }
}
