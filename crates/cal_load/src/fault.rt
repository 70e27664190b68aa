//! Errors in loading a target (a unit, a file or a folder that a user names, or an expression), and lists of such
//! errors.

ghost use Rattle.std.specs.Prelude.{◌≡◌, ◌∷◌, [], true, OnOk, map, string_bytes};
ghost use Rattle.cal_unit_index.specs.rules.Index.{shown_fault};
ghost use Rattle.cal_load.specs.declared.fault.TargetLoadFault.TheVariants.{NoMemory};
ghost use Rattle.cal_load.specs.rules.AllUnits.{HasFault, IsBrokenFault, IsFaultPushed, IsPathFault, IsTreeFault, Keeps};
ghost use Rattle.cal_load.specs.rules.FileFaults.{AreLostAlso, IsAbout, IsCause, IsFaultOf, IsLostIn, Lost, lost_path};

use crate::readable::BrokenLine;
use crate::target_fault::{TargetFault, TargetReason};
use cal_machine::TreeFault;
use cal_unit_index::{Reason, UnitFault};
use std::alloc::{AllocError, AllocFailed, Global};

/// Why a target can't be loaded.
#[derive(Drop)]
pub(crate) enum TargetLoadFault {
    /// The target can't be loaded, for this reason. Other targets still can.
    Target(TargetReason),
    /// Out of memory. After this error, no other target is loaded either.
    NoMemory,
}

impl From<AllocError> for TargetLoadFault {
    ghost from_gives = { λ _ fault. fault ≡ NoMemory };

    fn from(_refused: AllocError) -> TargetLoadFault {
        TargetLoadFault::NoMemory
    }
}

impl<T: Drop> From<AllocFailed<T>> for TargetLoadFault {
    ghost from_gives = { λ _ fault. fault ≡ NoMemory };

    fn from(_refused: AllocFailed<T>) -> TargetLoadFault {
        TargetLoadFault::NoMemory
    }
}

impl TargetLoadFault {
    /// Returns the error that this path can't be used, for this reason, or `NoMemory` if allocation fails.
    pub(crate) fn at(alloc: Global, path: &str, reason: Reason) -> TargetLoadFault
        ensures { IsPathFault path.now reason result }
    {
        match String::from_str(alloc, path) {
            Ok(path) => TargetLoadFault::Target(TargetReason::Path(path, reason)),
            Err(_) => TargetLoadFault::NoMemory,
        }
    }

    /// Returns the error for a timer's own file, at this path, if systemd stops reading it at this line.
    pub(crate) fn broken(alloc: Global, path: &str, line: BrokenLine) -> TargetLoadFault
        ensures { IsBrokenFault path.now line result }
    {
        match String::from_str(alloc, path) {
            Ok(path) => TargetLoadFault::Target(TargetReason::Broken(path, line)),
            Err(_) => TargetLoadFault::NoMemory,
        }
    }

    /// Converts an error from reading this path.
    pub(crate) fn of_tree(alloc: Global, path: &str, fault: TreeFault) -> TargetLoadFault
        ensures { IsTreeFault path.now fault result }
    {
        match fault {
            TreeFault::Unreadable(why) => {
                TargetLoadFault::at(alloc, path, Reason::Unreadable(why))
            }
            TreeFault::NoMemory => TargetLoadFault::NoMemory,
        }
    }
}

/// Adds the target to `faults`, with the reason why it can't be loaded. Fails if allocation fails, and if `fault` is
/// [`TargetLoadFault::NoMemory`].
pub(crate) fn push_fault(
    alloc: Global,
    faults: &mut Vec<TargetFault>,
    target: &str,
    fault: TargetLoadFault,
) -> Result<(), AllocError>
    ensures pushed { OnOk result (IsFaultPushed faults.old.items faults.new.items target.now fault) }
    ensures reported { OnOk result (HasFault faults.new.items target.now fault) }
    ensures kept { OnOk result (Keeps faults.old.items faults.new.items) }
{
    match fault {
        TargetLoadFault::Target(reason) => {
            let target = String::from_str(alloc, target)?;
            faults.push(TargetFault { target, reason })?;
            Ok(())
        }
        TargetLoadFault::NoMemory => Err(AllocError),
    }
}

/// Adds an error to `faults` for each path in `lost`, none of which can be read, unless the same error is there
/// already.
pub(crate) fn push_lost(
    faults: &mut Vec<TargetFault>,
    lost: Vec<UnitFault>,
) -> Result<(), AllocError>
    ensures kept { OnOk result (Keeps faults.old.items faults.new.items) }
    ensures lost { OnOk result (AreLostAlso (map lost_path (map shown_fault lost.items)) faults.old.items faults.new.items) }
{
    for fault in lost {
        push_path(faults, fault.path, fault.reason)?;
    }
    Ok(())
}

/// Adds the error that the path can't be used for this reason, unless the same error is there already.
pub(crate) fn push_path(
    faults: &mut Vec<TargetFault>,
    path: String,
    why: Reason,
) -> Result<(), AllocError>
    ensures kept { OnOk result (Keeps faults.old.items faults.new.items) }
    ensures lost { OnOk result (AreLostAlso (lost_path (record { path = string_bytes path; reason = why }) ∷ []) faults.old.items faults.new.items) }
{
    let target = path.clone()?;
    let reason = TargetReason::Path(path, why);
    push_once(faults, TargetFault { target, reason })
}

/// Adds the error to `faults`, unless the same error is there already. Two errors about the same path, for the same
/// reason, are the same even if their targets differ.
pub(crate) fn push_once(faults: &mut Vec<TargetFault>, fault: TargetFault) -> Result<(), AllocError>
    ensures kept { OnOk result (Keeps faults.old.items faults.new.items) }
    ensures lost { OnOk result ((lost : Lost) → IsFaultOf lost fault → AreLostAlso (lost ∷ []) faults.old.items faults.new.items) }
{
    if is_known(faults.as_slice(), &fault) {
        return Ok(());
    }
    faults.push(fault)?;
    Ok(())
}

fn is_known(faults: &[TargetFault], fault: &TargetFault) -> bool
    ensures { result ≡ true → (lost : Lost) → IsFaultOf lost fault.now → IsLostIn faults.now lost }
{
    for known in faults {
        if is_same(known, fault) {
            return true;
        }
    }
    false
}

/// Returns whether two errors say the same thing: that the same path can't be used, for the same reason, or that the
/// same target isn't found, is a template or has too many aliases. Errors for other reasons are never the same.
fn is_same(known: &TargetFault, fault: &TargetFault) -> bool
    ensures { result ≡ true → (lost : Lost) → IsFaultOf lost fault.now
        → IsCause lost.cause known.now.reason × IsAbout lost.name lost.cause known.now }
{
    match (&known.reason, &fault.reason) {
        (TargetReason::Path(place, reason), TargetReason::Path(path, why)) => {
            place.as_str() == path.as_str() && *reason == *why
        }
        (TargetReason::NotFound, TargetReason::NotFound) => is_same_target(known, fault),
        (TargetReason::Template, TargetReason::Template) => is_same_target(known, fault),
        (TargetReason::TooManyAliases, TargetReason::TooManyAliases) => {
            is_same_target(known, fault)
        }
        _ => false,
    }
}

fn is_same_target(known: &TargetFault, fault: &TargetFault) -> bool
    ensures { result ≡ true → string_bytes known.now.target ≡ string_bytes fault.now.target }
{
    known.target.as_str() == fault.target.as_str()
}
