//! Reading the files of a unit.

ghost use Rattle.std.specs.Prelude.{◌≡◌, ◌++◌, ◌∷◌, [], IfOk, OnOk, map, string_bytes};
ghost use Rattle.std.specs.Option.{option_to_list};
ghost use Rattle.cal_machine.specs.rules.Machine.{Machine};
ghost use Rattle.cal_machine.specs.rules.Places.{content_at};
ghost use Rattle.cal_unit_index.specs.rules.Index.{shown_fault};
ghost use Rattle.cal_unit_index.specs.rules.Files.{fault_at, faults_at, file_at, shown_file, shown_unit_text, text_at, texts_at};

use crate::fault::{Reason, UnitFault};
use cal_machine::{Content, FILE_BYTES, Tree, TreeFault, read_at};
use std::alloc::{AllocError, Global};

/// The maximum size of a file of a unit, in bytes.
const FILE_LIMIT: usize = FILE_BYTES - 1;

/// A file of a unit.
#[derive(Drop)]
pub struct UnitText {
    /// The path at which it was read.
    pub path: String,
    /// Its bytes, at most 1,048,576.
    pub bytes: Vec<u8>,
}

/// What is at the path of a file of a unit.
#[derive(Drop)]
pub enum FileRead {
    /// An empty file or a device, or a link to one: it masks the unit.
    Mask,
    /// Nothing usable, for this reason.
    Unusable(Reason),
    /// A file with this text, at most 1,048,576 bytes.
    Text(Vec<u8>),
}

/// The drop-ins of a unit that were read, and errors about those that couldn't be read.
#[derive(Drop)]
pub struct DropInTexts {
    /// The drop-ins that were read, in their order. Empty files, folders, devices and links to nothing are skipped.
    pub texts: Vec<UnitText>,
    /// The drop-ins that can't be read or are too large.
    pub faults: Vec<UnitFault>,
}

/// Reads the file of a unit at a path. Fails only if allocation fails.
pub fn read_file<T: Tree>(alloc: Global, tree: &mut T, path: &str) -> Result<FileRead, AllocError>
    ensures known { IfOk result (λ file. (machine : Machine) → T.shows tree.new machine
        → shown_file file ≡ file_at machine path.now) }
    ensures grows { (machine : Machine) → T.shows tree.new machine → T.shows tree.old machine }
{
    match read_at(alloc, tree, path) {
        Ok(Content::Nothing) => Ok(FileRead::Unusable(Reason::Missing)),
        Ok(Content::Folder) => Ok(FileRead::Unusable(Reason::IsFolder)),
        Ok(Content::Blank) => Ok(FileRead::Mask),
        Ok(Content::Text(bytes)) if bytes.len() > FILE_LIMIT => Ok(FileRead::Unusable(
            Reason::TooLarge,
        )),
        Ok(Content::Text(bytes)) => Ok(FileRead::Text(bytes)),
        Err(TreeFault::Unreadable(why)) => Ok(FileRead::Unusable(Reason::Unreadable(why))),
        Err(TreeFault::NoMemory) => Err(AllocError),
    }
}

/// Reads the drop-ins at these paths. Fails only if allocation fails.
pub fn read_drop_ins<T: Tree>(
    alloc: Global,
    tree: &mut T,
    paths: &[String],
) -> Result<DropInTexts, AllocError>
    ensures known { IfOk result (λ read. (machine : Machine) → T.shows tree.new machine
        → (map shown_unit_text read.texts.items ≡ texts_at machine (map string_bytes paths.now))
        × (map shown_fault read.faults.items ≡ faults_at machine (map string_bytes paths.now))) }
    ensures grows { (machine : Machine) → T.shows tree.new machine → T.shows tree.old machine }
{
    let mut read = DropInTexts {
        texts: Vec::new(alloc),
        faults: Vec::new(alloc),
    };
    for path in paths {
        read.push(alloc, tree, path.as_str())?;
    }
    Ok(read)
}

impl DropInTexts {
    /// Reads the drop-in at a path and appends it, or appends an error if it can't be read. Appends nothing for an
    /// empty file, a folder, a device or a link to nothing.
    fn push<T: Tree>(&mut self, alloc: Global, tree: &mut T, path: &str) -> Result<(), AllocError>
        ensures known { OnOk result ((machine : Machine) → T.shows tree.new machine
            → (map shown_unit_text self.new.texts.items ≡ map shown_unit_text self.old.texts.items ++ text_at machine path.now)
            × (map shown_fault self.new.faults.items ≡ map shown_fault self.old.faults.items ++ fault_at machine path.now)) }
        ensures grows { (machine : Machine) → T.shows tree.new machine → T.shows tree.old machine }
    {
        match read_file(alloc, tree, path)? {
            FileRead::Text(bytes) => {
                let path = String::from_str(alloc, path)?;
                self.texts.push(UnitText { path, bytes })?;
            }
            FileRead::Unusable(Reason::Missing | Reason::IsFolder) | FileRead::Mask => {}
            FileRead::Unusable(reason) => self.faults.push(UnitFault::at(alloc, path, reason)?)?,
        }
        Ok(())
    }
}
