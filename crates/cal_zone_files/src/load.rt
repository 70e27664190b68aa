//! Loading of zone files: the file of the machine's own zone, and the files of zones that have a name.

ghost use Rattle.std.specs.Prelude.{◌≡◌, ◌||◌, ℕ, List, IfErr, IfOk, OnErr, OnOk, false, is_some, map, string_bytes};
ghost use Rattle.std.specs.List.{list_any};
ghost use Rattle.std.specs.Str.{bytes_eq};
ghost use Rattle.cal_civil.specs.rules.ZoneName.{is_utc_name};
ghost use Rattle.cal_machine.specs.rules.Machine.{Machine};
ghost use Rattle.cal_machine.specs.rules.Places.{content_at};
ghost use Rattle.cal_zone.specs.rules.ZoneFile.{IsFileFault, IsFileZone};
ghost use Rattle.cal_zone.specs.rules.ZoneTable.{zone_named};
ghost use Rattle.cal_zone_files.specs.rules.ZoneFiles.{HasZonesOf, IsFirstError, IsLoadError, IsMachineZone, IsZoneAdded, IsZoneIn, IsZoneOn, bytes_in, rejection, shown_file, zone_path};

use crate::fault::{FileReason, ZonesFault};
use cal_machine::{Content, Tree, TreeFault, read_at};
use cal_zone::{LoadFault, Rules, ZoneFault, ZoneName, ZoneTable};
use std::alloc::{AllocError, Global};

/// The folder of the zone files. A zone file's path is this text followed by the zone's name.
pub const ZONE_FOLDER: &str = "/usr/share/zoneinfo/";

/// The path that leads to the file of the machine's zone (localtime(5)).
pub(crate) const LOCALTIME: &str = "/etc/localtime";

/// Returns a table with UTC and with the zones of these names, each loaded from its file `/usr/share/zoneinfo/NAME`
/// (RFC 8536). The name `UTC`, ignoring case, needs no file, and a name may be repeated.
///
/// Fails with [`ZonesFault::OfZone`] and the first name whose file can't be used. The reason is
///
/// - [`FileReason::NotFound`] if nothing is there;
/// - [`FileReason::Load`] with [`LoadFault::ReadFailed`] if a folder is there, or if the path can't be followed or
///   read;
/// - otherwise [`FileReason::Load`] with the error of [`Rules::file`]. A device counts as an empty file.
///
/// An invalid name is looked for, too, so its reason is [`FileReason::NotFound`], unless there is something at its
/// path. Fails with [`ZonesFault::NoMemory`] if allocation fails.
pub fn load_zones<T: Tree>(
    alloc: Global,
    tree: &mut T,
    names: &[String],
) -> Result<ZoneTable, ZonesFault>
    ensures names { IfOk result (λ table. (name : List ℕ) → is_some (zone_named table name)
        ≡ (is_utc_name name || list_any (bytes_eq name) (map string_bytes names.now))) }
    ensures zones { IfOk result (λ table. (machine : Machine) → T.shows tree.new machine → HasZonesOf machine table) }
    ensures fault { IfErr result (λ fault. (machine : Machine) → T.shows tree.new machine
        → IsFirstError machine (map string_bytes names.now) fault) }
    ensures grows { (machine : Machine) → T.shows tree.new machine → T.shows tree.old machine }
{
    let mut table = ZoneTable::new(alloc);
    for name in names {
        if let Err(fault) = load_zone(alloc, tree, &mut table, name.as_str()) {
            return Err(fault);
        }
    }
    Ok(table)
}

/// Loads the zone of this name into the table, unless the table already has it. The zone is loaded from its file
/// `/usr/share/zoneinfo/NAME` (RFC 8536). The name `UTC`, ignoring case, needs no file.
///
/// Fails with [`ZonesFault::OfZone`] and the name if the file can't be used, for the same reasons as in [`load_zones`],
/// and with [`ZonesFault::NoMemory`] if allocation fails. On failure the table is unchanged.
pub fn load_zone<T: Tree>(
    alloc: Global,
    tree: &mut T,
    table: &mut ZoneTable,
    name: &str,
) -> Result<(), ZonesFault>
    ensures names { OnOk result ((other : List ℕ) → is_some (zone_named table.new other)
        ≡ (is_some (zone_named table.old other) || bytes_eq other name.now)) }
    ensures zones { OnOk result ((machine : Machine) → T.shows tree.new machine
        → HasZonesOf machine table.old → HasZonesOf machine table.new) }
    ensures unchanged { OnErr result (table.new ≡ table.old) }
    ensures missing { OnErr result (is_some (zone_named table.old name.now) ≡ false) }
    ensures fault { IfErr result (λ fault. (machine : Machine) → T.shows tree.new machine
        → IsLoadError machine name.now fault) }
    ensures grows { (machine : Machine) → T.shows tree.new machine → T.shows tree.old machine }
{
    if table.find(name).is_some() {
        return Ok(());
    }
    add_zone(alloc, tree, table, name)
}

/// Returns the machine's own zone: the one in the zone file to which `/etc/localtime` leads (localtime(5), RFC 8536).
/// Returns `None`, which stands for UTC, if `/etc/localtime` doesn't lead to a zone file: if nothing or a folder is
/// there, if the path can't be followed or read, or if [`Rules::file`] rejects the bytes. A device counts as an empty
/// file.
///
/// Fails only if allocation fails.
pub fn load_machine_zone<T: Tree>(alloc: Global, tree: &mut T) -> Result<Option<Rules>, AllocError>
    ensures zone { IfOk result (λ zone. (machine : Machine) → T.shows tree.new machine → IsMachineZone machine zone) }
    ensures grows { (machine : Machine) → T.shows tree.new machine → T.shows tree.old machine }
{
    match zone_file(alloc, tree, LOCALTIME)? {
        Ok(bytes) => zone_in(alloc, bytes.as_slice()),
        Err(_) => Ok(None),
    }
}

/// Returns the zone of a zone file with these bytes, or `None` if the bytes aren't a valid zone file.
fn zone_in(alloc: Global, bytes: &[u8]) -> Result<Option<Rules>, AllocError>
    ensures { IfOk result (IsZoneIn bytes.now) }
{
    match Rules::file(alloc, "localtime", bytes) {
        Ok(rules) => Ok(Some(rules)),
        Err(ZoneFault::NoMemory) => Err(AllocError),
        Err(_) => Ok(None),
    }
}

/// Loads the zone of this name into the table. The caller has checked that the table doesn't have the zone yet.
fn add_zone<T: Tree>(
    alloc: Global,
    tree: &mut T,
    table: &mut ZoneTable,
    name: &str,
) -> Result<(), ZonesFault>
    requires { is_some (zone_named table.old name.now) ≡ false }
    ensures added { OnOk result (IsZoneAdded table.old table.new name.now
        (λ zone. (machine : Machine) → T.shows tree.new machine → IsZoneOn machine name.now zone)) }
    ensures unchanged { OnErr result (table.new ≡ table.old) }
    ensures fault { IfErr result (λ fault. (machine : Machine) → T.shows tree.new machine
        → IsLoadError machine name.now fault) }
    ensures grows { (machine : Machine) → T.shows tree.new machine → T.shows tree.old machine }
{
    let path = zone_path(alloc, name)?;
    let bytes = match zone_file(alloc, tree, path.as_str())? {
        Ok(bytes) => bytes,
        Err(reason) => return Err(ZonesFault::OfZone(String::from_str(alloc, name)?, reason)),
    };
    match add_file(alloc, table, name, bytes.as_slice()) {
        Ok(()) => Ok(()),
        Err(fault) => Err(rejection(String::from_str(alloc, name)?, fault)),
    }
}

/// Returns the error for the zone with this name, whose file was rejected with `fault`.
fn rejection(name: String, fault: ZoneFault) -> ZonesFault
    ensures { result ≡ rejection name fault }
{
    match fault {
        ZoneFault::NoMemory => ZonesFault::NoMemory,
        ZoneFault::BadName
        | ZoneFault::BadRule
        | ZoneFault::BadFile
        | ZoneFault::TooLarge
        | ZoneFault::NameTaken => {
            ZonesFault::OfZone(name, FileReason::Load(LoadFault::Zone(fault)))
        }
    }
}

/// Returns the bytes of a zone file, or why it can't be read. An empty file and a device have no bytes.
fn zone_file<T: Tree>(
    alloc: Global,
    tree: &mut T,
    path: &str,
) -> Result<Result<Vec<u8>, FileReason>, AllocError>
    ensures known { IfOk result (λ file. (machine : Machine) → T.shows tree.new machine
        → bytes_in (content_at machine path.now) ≡ shown_file file) }
    ensures grows { (machine : Machine) → T.shows tree.new machine → T.shows tree.old machine }
{
    match read_at(alloc, tree, path) {
        Ok(Content::Text(bytes)) => Ok(Ok(bytes)),
        Ok(Content::Blank) => Ok(Ok(Vec::new(alloc))),
        Ok(Content::Nothing) => Ok(Err(FileReason::NotFound)),
        Ok(Content::Folder) => Ok(Err(FileReason::Load(LoadFault::ReadFailed))),
        Err(TreeFault::Unreadable(_)) => Ok(Err(FileReason::Load(LoadFault::ReadFailed))),
        Err(TreeFault::NoMemory) => Err(AllocError),
    }
}

/// Adds the zone whose file has these bytes to the table, which doesn't have a zone of this name yet.
fn add_file(alloc: Global, table: &mut ZoneTable, name: &str, bytes: &[u8]) -> Result<(), ZoneFault>
    requires { is_some (zone_named table.old name.now) ≡ false }
    ensures added { OnOk result (IsZoneAdded table.old table.new name.now (IsFileZone name.now bytes.now)) }
    ensures unchanged { OnErr result (table.new ≡ table.old) }
    ensures fault { IfErr result (IsFileFault name.now bytes.now) }
{
    let Some(name) = ZoneName::new(name) else {
        return Err(ZoneFault::BadName);
    };
    let rules = Rules::named_file(alloc, name, bytes)?;
    match table.add_named(name, rules) {
        Ok(()) => Ok(()),
        Err((_, fault)) => Err(fault),
    }
}

fn zone_path(alloc: Global, name: &str) -> Result<String, AllocError>
    ensures { IfOk result (λ path. string_bytes path ≡ zone_path name.now) }
{
    format!(in alloc; "{ZONE_FOLDER}{name}")
}
