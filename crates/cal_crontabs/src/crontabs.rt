//! Reading crontabs: those of the machine, or those that a user names.

ghost use Rattle.std.specs.Prelude.{◌≡◌, ◌∷◌, [], IfOk, OnOk, map, string_bytes};
ghost use Rattle.std.specs.List.{flat_map, list_any};
ghost use Rattle.cal_bytes.specs.rules.Separators.{is_blank};
ghost use Rattle.cal_cron.specs.rules.CronLine.{begins_with_at};
ghost use Rattle.cal_machine.specs.rules.Machine.{Machine};
ghost use Rattle.cal_unit_index.specs.rules.Files.{shown_unit_text};
ghost use Rattle.cal_unit_index.specs.rules.Index.{shown_fault};
ghost use Rattle.cal_crontabs.specs.rules.Crontabs.{AreAlso, AreCrontabsOn, crontab_of, file_crontabs, file_faults, is_line, is_path_start, line_crontab, shown_crontab, target_crontabs, target_faults};

use crate::folders::{system_paths, user_paths};
use cal_cron::CrontabFormat;
use cal_machine::Tree;
use cal_unit_index::{
    DropInTexts, FileRead, Reason, UnitFault, UnitText, read_drop_ins, read_file,
};
use std::alloc::{AllocError, Global};

/// A crontab whose lines aren't parsed.
#[derive(Drop)]
pub struct Crontab {
    /// The path of its file, or the argument itself if lines are given as an argument.
    pub name: String,
    pub format: CrontabFormat,
    /// The lines. Bytes of the file that aren't UTF-8 are replaced.
    pub text: String,
}

/// Crontabs, and the files and folders that couldn't be read.
#[derive(Drop)]
pub struct Crontabs {
    pub crontabs: Vec<Crontab>,
    pub faults: Vec<UnitFault>,
}

/// Reads the crontabs that the targets stand for, in their order. Without a target, these are the crontabs of the
/// machine (cron(8)): `/etc/crontab`, and the files in `/etc/cron.d` and in `/var/spool/cron/crontabs`.
///
/// A target that begins with `@`, or that has a blank and begins with neither `/` nor `.`, is lines of a crontab, and
/// any other target is the path of a file. What can't be read is in [`Crontabs::faults`], except for crontabs of the
/// machine that don't exist and for those in `/var/spool/cron/crontabs`, which only root can read. Fails only if
/// allocation fails.
pub fn load_crontabs<T: Tree>(
    alloc: Global,
    tree: &mut T,
    targets: &[&str],
) -> Result<Crontabs, AllocError>
    ensures known { IfOk result (λ loaded. (machine : Machine) → T.shows tree.new machine
        → AreCrontabsOn machine (map (λ target. target.now) targets.now) loaded) }
    ensures grows { (machine : Machine) → T.shows tree.new machine → T.shows tree.old machine }
{
    if targets.is_empty() {
        machine_crontabs(alloc, tree)
    } else {
        named_crontabs(alloc, tree, targets)
    }
}

/// Reads the crontabs of the machine.
fn machine_crontabs<T: Tree>(alloc: Global, tree: &mut T) -> Result<Crontabs, AllocError>
    ensures known { IfOk result (λ loaded. (machine : Machine) → T.shows tree.new machine
        → AreCrontabsOn machine [] loaded) }
    ensures grows { (machine : Machine) → T.shows tree.new machine → T.shows tree.old machine }
{
    let system = system_paths(alloc, tree)?;
    let users = user_paths(alloc, tree)?;
    let read = read_drop_ins(alloc, tree, system.paths.as_slice())?;
    let own = read_drop_ins(alloc, tree, users.as_slice())?;
    let mut loaded = Crontabs {
        crontabs: Vec::new(alloc),
        faults: system.faults,
    };
    loaded.push_files(alloc, read.texts.as_slice())?;
    loaded.push_files(alloc, own.texts.as_slice())?;
    loaded.push_faults(read.faults)?;
    Ok(loaded)
}

/// Reads the crontabs that the targets stand for.
fn named_crontabs<T: Tree>(
    alloc: Global,
    tree: &mut T,
    targets: &[&str],
) -> Result<Crontabs, AllocError>
    ensures known { IfOk result (λ loaded. (machine : Machine) → T.shows tree.new machine
        → (map shown_crontab loaded.crontabs.items ≡ flat_map (target_crontabs machine) (map (λ target. target.now) targets.now))
        × (map shown_fault loaded.faults.items ≡ flat_map (target_faults machine) (map (λ target. target.now) targets.now))) }
    ensures grows { (machine : Machine) → T.shows tree.new machine → T.shows tree.old machine }
{
    let mut loaded = Crontabs {
        crontabs: Vec::new(alloc),
        faults: Vec::new(alloc),
    };
    for target in targets {
        loaded.take(alloc, tree, target)?;
    }
    Ok(loaded)
}

impl Crontabs {
    /// Reads what a target stands for.
    fn take<T: Tree>(&mut self, alloc: Global, tree: &mut T, target: &str) -> Result<(), AllocError>
        ensures known { OnOk result ((machine : Machine) → T.shows tree.new machine
            → AreAlso (target_crontabs machine target.now) (target_faults machine target.now) self.old self.new) }
        ensures grows { (machine : Machine) → T.shows tree.new machine → T.shows tree.old machine }
    {
        if is_line(target) {
            self.push_line(alloc, target)
        } else {
            self.take_file(alloc, tree, target)
        }
    }

    /// Reads the file at a path. An empty file has no entries.
    fn take_file<T: Tree>(
        &mut self,
        alloc: Global,
        tree: &mut T,
        path: &str,
    ) -> Result<(), AllocError>
        ensures known { OnOk result ((machine : Machine) → T.shows tree.new machine
            → AreAlso (file_crontabs machine path.now) (file_faults machine path.now) self.old self.new) }
        ensures grows { (machine : Machine) → T.shows tree.new machine → T.shows tree.old machine }
    {
        match read_file(alloc, tree, path)? {
            FileRead::Text(bytes) => self.push_file(alloc, path, bytes.as_slice()),
            FileRead::Mask => Ok(()),
            FileRead::Unusable(reason) => self.push_fault(alloc, path, reason),
        }
    }

    fn push_line(&mut self, alloc: Global, line: &str) -> Result<(), AllocError>
        ensures { OnOk result (AreAlso (line_crontab line.now ∷ []) [] self.old self.new) }
    {
        self.crontabs.push(Crontab {
            name: String::from_str(alloc, line)?,
            format: CrontabFormat::Argument,
            text: String::from_str(alloc, line)?,
        })?;
        Ok(())
    }

    fn push_files(&mut self, alloc: Global, files: &[UnitText]) -> Result<(), AllocError>
        ensures { OnOk result (AreAlso (map crontab_of (map shown_unit_text files.now)) [] self.old self.new) }
    {
        for file in files {
            self.push_file(alloc, file.path.as_str(), file.bytes.as_slice())?;
        }
        Ok(())
    }

    pub(crate) fn push_file(
        &mut self,
        alloc: Global,
        path: &str,
        bytes: &[u8],
    ) -> Result<(), AllocError>
        ensures { OnOk result (AreAlso (crontab_of (record { path = path.now; bytes = bytes.now }) ∷ []) [] self.old self.new) }
    {
        self.crontabs.push(Crontab {
            name: String::from_str(alloc, path)?,
            format: CrontabFormat::of_path(path),
            text: String::from_utf8_lossy(alloc, bytes)?,
        })?;
        Ok(())
    }

    fn push_faults(&mut self, faults: Vec<UnitFault>) -> Result<(), AllocError>
        ensures { OnOk result (AreAlso [] (map shown_fault faults.items) self.old self.new) }
    {
        for fault in faults {
            self.faults.push(fault)?;
        }
        Ok(())
    }

    pub(crate) fn push_fault(
        &mut self,
        alloc: Global,
        path: &str,
        reason: Reason,
    ) -> Result<(), AllocError>
        ensures { OnOk result (AreAlso [] (record { path = path.now; reason = reason } ∷ []) self.old self.new) }
    {
        let path = String::from_str(alloc, path)?;
        self.faults.push(UnitFault { path, reason })?;
        Ok(())
    }
}

/// Returns whether a target is lines of a crontab, and not the path of a file.
fn is_line(target: &str) -> bool
    ensures { result ≡ is_line target.now }
{
    let target = target.as_bytes();
    begins_with_at(target) || has_blank(target) && !is_path_start(target)
}

fn begins_with_at(target: &[u8]) -> bool
    ensures { result ≡ begins_with_at target.now }
{
    matches!(target, [b'@', ..])
}

/// Returns whether a target begins like a path that isn't a line of a crontab, whatever follows: with `/` or `.`.
pub fn is_path_start(target: &[u8]) -> bool
    ensures { result ≡ is_path_start target.now }
{
    matches!(target, [b'/' | b'.', ..])
}

fn has_blank(target: &[u8]) -> bool
    ensures { result ≡ list_any is_blank target.now }
{
    target.iter().any(|byte| is_blank(*byte))
}

fn is_blank(byte: u8) -> bool
    ensures { result ≡ is_blank byte }
{
    byte == b' ' || byte == b'\t'
}
