//! The errors that occur in finding which zone to use, and in loading zone files.

ghost use Rattle.std.specs.Prelude.{◌≡◌};
ghost use Rattle.cal_zone_files.specs.declared.fault.ZonesFault.TheVariants.{NoMemory};

use cal_zone::LoadFault;
use std::alloc::{AllocError, AllocFailed};

/// What decides which zone to use.
#[derive(Clone, Copy)]
pub enum Origin {
    /// The option `--zone` or `--in`.
    Argument,
    /// The variable `TZ`.
    Variable,
}

/// Why the file of a zone can't be used.
#[derive(Clone, Copy)]
pub enum FileReason {
    /// There is no such file.
    NotFound,
    /// The file can't be loaded, for this reason. If memory runs out, the error is [`ZonesFault::NoMemory`] instead.
    Load(LoadFault),
}

/// Why the zone to use can't be determined, or why a zone file can't be loaded.
#[derive(Drop)]
pub enum ZonesFault {
    /// The text of this option or variable has none of the forms that name a zone.
    Unclear(Origin),
    /// The text of this option or variable can't be read, or is not UTF-8. This happens only for the variable.
    Unread(Origin),
    /// The file of the zone with this name can't be used, for this reason. The file's path is
    /// [`ZONE_FOLDER`](crate::ZONE_FOLDER) followed by the name.
    OfZone(String, FileReason),
    /// Out of memory.
    NoMemory,
}

impl From<AllocError> for ZonesFault {
    ghost from_gives = { λ _ fault. fault ≡ NoMemory };

    fn from(_refused: AllocError) -> ZonesFault {
        ZonesFault::NoMemory
    }
}

impl<T: Drop> From<AllocFailed<T>> for ZonesFault {
    ghost from_gives = { λ _ fault. fault ≡ NoMemory };

    fn from(_refused: AllocFailed<T>) -> ZonesFault {
        ZonesFault::NoMemory
    }
}
