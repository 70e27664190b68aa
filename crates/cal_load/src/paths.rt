//! Targets that are paths: folders and files.

ghost use Rattle.std.specs.Prelude.{◌≡◌, IfOk, string_bytes};
ghost use Rattle.cal_machine.specs.rules.Machine.{Machine};
ghost use Rattle.cal_unit_index.specs.rules.Folders.{end_at};
ghost use Rattle.cal_load.specs.rules.AllTargets.{before_slash, is_path, path_in, without_slashes};
ghost use Rattle.cal_load.specs.rules.LoadedTarget.{is_folder};

use cal_machine::{Entry, Last, Tree, TreeFault, find_place};
use std::alloc::{AllocError, Global};

/// Returns whether a target is a path: it has a `/`, or it is `.` or `..`. Any other target is the name of a unit.
pub fn is_path(target: &str) -> bool
    ensures { result ≡ is_path target.now }
{
    target.as_bytes().contains(&b'/') || target == "." || target == ".."
}

/// Returns whether a path leads to a folder, following all links. Returns `false` if the path can't be followed.
pub(crate) fn is_folder<T: Tree>(
    alloc: Global,
    tree: &mut T,
    path: &str,
) -> Result<bool, AllocError>
    ensures known { IfOk result (λ is. (machine : Machine) → T.shows tree.new machine
        → is ≡ is_folder (end_at machine path.now)) }
    ensures grows { (machine : Machine) → T.shows tree.new machine → T.shows tree.old machine }
{
    match find_place(alloc, tree, path, Last::Followed) {
        Ok(place) => Ok(matches!(place.entry, Entry::Folder)),
        Err(TreeFault::Unreadable(_)) => Ok(false),
        Err(TreeFault::NoMemory) => Err(AllocError),
    }
}

/// Removes the slashes at the end of a path. A path that has nothing but slashes keeps one.
pub(crate) fn without_slashes(path: &str) -> &str
    ensures { result.now ≡ without_slashes path.now }
{
    let shorter = path.trim_end_matches('/');
    if shorter.is_empty() { "/" } else { shorter }
}

/// Returns the path of the file `name` in `folder`. The path of the folder must not end with a slash, unless it is `/`.
pub(crate) fn path_in(alloc: Global, folder: &str, name: &str) -> Result<String, AllocError>
    ensures { IfOk result (λ path. string_bytes path ≡ path_in folder.now name.now) }
{
    let folder = before_slash(folder);
    format!(in alloc; "{folder}/{name}")
}

/// Returns the text that precedes `/NAME` in the path of a file in this folder. This is the folder's path, or an empty
/// text for the folder `/`, whose files have paths such as `/NAME`.
fn before_slash(folder: &str) -> &str
    ensures { result.now ≡ before_slash folder.now }
{
    if folder == "/" { "" } else { folder }
}
