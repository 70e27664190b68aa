//! Which drop-ins of a unit are read, and in which order (systemd.unit(5), Description).

ghost use Rattle.std.specs.Prelude.{◌≡◌, ◌++◌, ◌∷◌, [], IfOk, OnOk, map, string_bytes};
ghost use Rattle.cal_unit_index.specs.rules.DropIns.{by_name, candidates, chosen, enter, file_in, is_drop_in, shown_drop_in, shown_pair};

use std::alloc::{AllocError, Global};
use std::collections::BTreeMap;

/// A file in a drop-in folder.
#[derive(Drop)]
pub(crate) struct DropIn {
    /// The file's name in the folder.
    pub name: String,
    pub path: String,
}

/// Returns whether a file called `name` in a drop-in folder is a drop-in: the name ends in `.conf` and doesn't begin
/// with a dot.
#[tactic(auto, unfolding(crate::specs::rules::DropIns::is_drop_in))]
pub(crate) fn is_drop_in(name: &str) -> bool
    ensures { result ≡ is_drop_in name.now }
{
    let name = name.as_bytes();
    name.ends_with(b".conf") && !name.starts_with(b".")
}

/// Appends the drop-ins among the files called `names` in `folder`.
pub(crate) fn push_candidates(
    alloc: Global,
    found: &mut Vec<DropIn>,
    folder: &str,
    names: Vec<String>,
) -> Result<(), AllocError>
    ensures { OnOk result (map shown_drop_in found.new.items
        ≡ map shown_drop_in found.old.items ++ candidates folder.now (map string_bytes names.items)) }
{
    for name in names {
        push_candidate(alloc, found, folder, name)?;
    }
    Ok(())
}

/// Returns the paths of the drop-ins that count, sorted by the bytes of their file names. Only the last of several
/// drop-ins with the same name counts, so `found` must be sorted from the least important folder to the most important
/// one.
#[tactic(auto, using(crate::proofs::DropInLemmas::paths_are))]
pub(crate) fn choose(alloc: Global, found: Vec<DropIn>) -> Result<Vec<String>, AllocError>
    ensures { IfOk result (λ paths. map string_bytes paths.items ≡ chosen (map shown_drop_in found.items)) }
{
    let entered = enter_all(alloc, found)?;
    entered_paths(alloc, entered)
}

/// Appends the file called `name` in `folder`, if it is a drop-in.
#[tactic(auto, unfolding(crate::specs::rules::DropIns::candidates))]
fn push_candidate(
    alloc: Global,
    found: &mut Vec<DropIn>,
    folder: &str,
    name: String,
) -> Result<(), AllocError>
    ensures { OnOk result (map shown_drop_in found.new.items
        ≡ map shown_drop_in found.old.items ++ candidates folder.now (string_bytes name ∷ [])) }
{
    if is_drop_in(name.as_str()) {
        found.push(file_in(alloc, folder, name)?)?;
    }
    Ok(())
}

pub(crate) fn file_in(alloc: Global, folder: &str, name: String) -> Result<DropIn, AllocError>
    ensures { IfOk result (λ file. shown_drop_in file ≡ file_in folder.now (string_bytes name)) }
{
    let path = format!(in alloc; "{folder}/{name}")?;
    Ok(DropIn { name, path })
}

/// Returns a map from the names of the drop-ins to their paths. Of several drop-ins with the same name, the map has the
/// last.
pub(crate) fn enter_all(
    alloc: Global,
    found: Vec<DropIn>,
) -> Result<BTreeMap<String, String>, AllocError>
    ensures { IfOk result (λ entered. map shown_pair entered.entries ≡ by_name (map shown_drop_in found.items)) }
{
    let mut entered = BTreeMap::new(alloc);
    for file in found {
        enter(&mut entered, file)?;
    }
    Ok(entered)
}

/// Enters the path of a file under the file's name, in place of any path that is already there.
fn enter(by_name: &mut BTreeMap<String, String>, file: DropIn) -> Result<(), AllocError>
    ensures { OnOk result (map shown_pair by_name.new.entries ≡ enter (map shown_pair by_name.old.entries) (shown_drop_in file)) }
{
    let DropIn { name, path } = file;
    by_name.insert(name, path)?;
    Ok(())
}

/// Returns the paths in a map from names to paths, sorted by name.
fn entered_paths(
    alloc: Global,
    entered: BTreeMap<String, String>,
) -> Result<Vec<String>, AllocError>
    ensures { IfOk result (λ paths. paths.items ≡ map (λ entry. entry.1) entered.entries) }
{
    let mut paths = Vec::new(alloc);
    for (_, path) in entered {
        paths.push(path)?;
    }
    Ok(paths)
}
