//! Loading of zone files into the table of zones.

ghost use Rattle.std.specs.Prelude.{◌≡◌, false, MatchResult, OnErr};
ghost use Rattle.cal_zone.specs.rules.LoadZone.{is_load_read_failed, IsLoaded, IsLoadFault};

use crate::{Rules, ZoneFault, ZoneName, ZoneTable};
use cal_bytes::{Source, WholeFault, read_whole};
use std::alloc::Global;

/// Why a zone file can't be loaded.
///
/// Each error has a number, which never changes, so that other documents can refer to it:
///
/// | number | error |
/// |---|---|
/// | 1 | `ReadFailed` |
/// | 2 | `Zone` |
#[derive(Clone, Copy, PartialEq, Eq, Debug)]
pub enum LoadFault {
    /// The file can't be opened, or reading it failed.
    ReadFailed,
    /// The name or the file is rejected, or memory ran out.
    Zone(ZoneFault),
}

impl LoadFault {
    ghost use Rattle.cal_zone.specs.rules.LoadFault.{message_of};

    /// Returns the message for the user. For `Zone`, this is the message of the error inside, which is empty if memory
    /// ran out.
    pub fn words(&self) -> &str
        ensures { result.now ≡ message_of self.now }
    {
        match self {
            LoadFault::ReadFailed => "cannot be read",
            LoadFault::Zone(fault) => fault.words(),
        }
    }
}

/// Reads a zone file (RFC 8536) and adds its rules to the table under `name`.
///
/// If loading fails, the table is unchanged. Each [`ZoneFault`] is returned inside [`LoadFault::Zone`]. Fails with the
/// first of these errors that applies:
///
/// - [`ZoneFault::BadName`] if the name is invalid. Nothing is read then.
/// - [`LoadFault::ReadFailed`] if reading fails, or [`ZoneFault::TooLarge`] if there are more than 1,048,576 bytes.
/// - [`ZoneFault::BadFile`] if the bytes are not a valid zone file.
/// - [`ZoneFault::NameTaken`] if the table has a zone with this name.
///
/// Fails with [`ZoneFault::NoMemory`] if allocation fails.
pub fn load_zone<R: Source>(
    alloc: Global,
    table: &mut ZoneTable,
    name: &str,
    from: &mut R,
) -> Result<(), LoadFault>
    requires { R.is_failed from.old ≡ false }
    ensures failed { R.is_failed from.new ≡ is_load_read_failed result }
    ensures loaded { MatchResult result
        (λ _. IsLoaded (R.remaining from.old) (R.remaining from.new) table.old table.new name.now)
        (IsLoadFault (R.remaining from.old) (R.remaining from.new) table.old name.now) }
    ensures unchanged { OnErr result (table.new ≡ table.old) }
    ensures sure { R.may_fail from.old ≡ false → R.is_failed from.new ≡ false }
{
    match ZoneName::new(name) {
        Some(name) => load_named(alloc, table, name, from),
        None => Err(LoadFault::Zone(ZoneFault::BadName)),
    }
}

/// Reads a zone file and adds its rules to the table, as [`load_zone`] does, under a name that has been checked
/// already.
pub fn load_named<R: Source>(
    alloc: Global,
    table: &mut ZoneTable,
    name: ZoneName<'_>,
    from: &mut R,
) -> Result<(), LoadFault>
    requires { R.is_failed from.old ≡ false }
    ensures failed { R.is_failed from.new ≡ is_load_read_failed result }
    ensures loaded { MatchResult result
        (λ _. IsLoaded (R.remaining from.old) (R.remaining from.new) table.old table.new name.entry.text.now)
        (IsLoadFault (R.remaining from.old) (R.remaining from.new) table.old name.entry.text.now) }
    ensures unchanged { OnErr result (table.new ≡ table.old) }
    ensures sure { R.may_fail from.old ≡ false → R.is_failed from.new ≡ false }
{
    let bytes = match read_whole(alloc, from, Rules::FILE_LIMIT) {
        Ok(bytes) => bytes,
        Err(WholeFault::ReadFailed) => return Err(LoadFault::ReadFailed),
        Err(WholeFault::TooLarge) => return Err(LoadFault::Zone(ZoneFault::TooLarge)),
        Err(WholeFault::NoMemory) => return Err(LoadFault::Zone(ZoneFault::NoMemory)),
    };
    let rules = match Rules::named_file(alloc, name, bytes.as_slice()) {
        Ok(rules) => rules,
        Err(fault) => return Err(LoadFault::Zone(fault)),
    };
    match table.add_named(name, rules) {
        Ok(()) => Ok(()),
        Err((_, fault)) => Err(LoadFault::Zone(fault)),
    }
}
