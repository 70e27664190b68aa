//! The units of a folder that a user names: those that systemd would find if the search path had only this folder.

ghost use Rattle.std.specs.Prelude.{◌≡◌, ◌++◌, ◌∷◌, [], IfOk, OnOk, map, string_bytes};
ghost use Rattle.cal_machine.specs.rules.Machine.{Machine};
ghost use Rattle.cal_unit_index.specs.rules.Index.{IsIndexOf, shown_fault};
ghost use Rattle.cal_load.specs.rules.AllTargets.{unread_in_folder, units_in_folder};

use crate::names::{Units, units_in};
use cal_machine::Tree;
use cal_unit_index::{UnitFault, UnitIndex};
use std::alloc::{AllocError, Global};
use std::collections::BTreeSet;

/// The units of a folder that is read as if it were the only folder of the search path.
pub(crate) struct FolderUnits {
    /// The index of a search path that has only this folder.
    pub(crate) index: UnitIndex,
    /// The stems of the units' own names.
    pub(crate) stems: BTreeSet<String>,
    /// What can't be read: the folder itself, folders `NAME.wants` and `NAME.requires` in it, and files of timers in
    /// it.
    pub(crate) unread: Vec<UnitFault>,
}

/// Finds the units of a folder by reading it as if it were the only folder of the search path. Fails only if allocation
/// fails: what can't be read is in [`FolderUnits::unread`].
pub(crate) fn units_in_folder<T: Tree>(
    alloc: Global,
    tree: &mut T,
    folder: &str,
) -> Result<FolderUnits, AllocError>
    ensures index { IfOk result (λ units. (machine : Machine) → T.shows tree.new machine
        → IsIndexOf machine (folder.now ∷ []) units.index) }
    ensures stems { IfOk result (λ units. (machine : Machine) → T.shows tree.new machine
        → map string_bytes units.stems.keys ≡ units_in_folder machine folder.now) }
    ensures unread { IfOk result (λ units. (machine : Machine) → T.shows tree.new machine
        → map shown_fault units.unread.items ≡ unread_in_folder machine folder.now) }
    ensures grows { (machine : Machine) → T.shows tree.new machine → T.shows tree.old machine }
{
    let index = index_of(alloc, tree, folder)?;
    let Units {
        stems,
        started: _,
        unreadable: mut unread,
    } = units_in(alloc, tree, &index, true)?;
    push_copies(&mut unread, index.unreadable())?;
    Ok(FolderUnits {
        index,
        stems,
        unread,
    })
}

/// Reads the index of a search path that has only this folder.
fn index_of<T: Tree>(alloc: Global, tree: &mut T, folder: &str) -> Result<UnitIndex, AllocError>
    ensures known { IfOk result (λ index. (machine : Machine) → T.shows tree.new machine
        → IsIndexOf machine (folder.now ∷ []) index) }
    ensures grows { (machine : Machine) → T.shows tree.new machine → T.shows tree.old machine }
{
    let folder = String::from_str(alloc, folder)?;
    UnitIndex::read(alloc, tree, std::slice::from_ref(&folder))
}

/// Appends copies of the errors in `more`.
fn push_copies(faults: &mut Vec<UnitFault>, more: &[UnitFault]) -> Result<(), AllocError>
    ensures { OnOk result (map shown_fault faults.new.items ≡ map shown_fault faults.old.items ++ map shown_fault more.now) }
{
    for fault in more {
        push_copy(faults, fault)?;
    }
    Ok(())
}

fn push_copy(faults: &mut Vec<UnitFault>, fault: &UnitFault) -> Result<(), AllocError>
    ensures { OnOk result (map shown_fault faults.new.items ≡ map shown_fault faults.old.items ++ shown_fault fault.now ∷ []) }
{
    let path = fault.path.clone()?;
    let reason = fault.reason;
    faults.push(UnitFault { path, reason })?;
    Ok(())
}
