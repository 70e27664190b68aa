//! The paths of the machine's crontabs (cron(8)).

ghost use Rattle.std.specs.Prelude.{◌≡◌, ◌++◌, ◌∷◌, [], IfOk, OnOk, filter, map, string_bytes};
ghost use Rattle.std.specs.BTreeSet.{insert_key};
ghost use Rattle.std.specs.Cmp.Lexicographic.{slice_cmp};
ghost use Rattle.std.specs.List.{list_all};
ghost use Rattle.std.specs.Ordering.{nat_cmp};
ghost use Rattle.cal_machine.specs.rules.Machine.{Machine};
ghost use Rattle.cal_machine.specs.rules.Places.{names_at};
ghost use Rattle.cal_unit_index.specs.rules.Destinations.{sorted_once, with_texts};
ghost use Rattle.cal_unit_index.specs.rules.Index.{faults_of_listing, shown_fault};
ghost use Rattle.cal_crontabs.specs.rules.Crontabs.{cron_folder, is_cron_name, is_name_byte, is_taken, path_in, paths_of, system_paths, user_paths};

use cal_machine::{Names, Tree, TreeFault, names_at};
use cal_unit_index::{Reason, UnitFault};
use std::alloc::{AllocError, Global};
use std::collections::BTreeSet;

/// The folder of crontabs that packages install.
const CRON_FOLDER: &str = "/etc/cron.d";

/// The folder of the users' crontabs.
const USER_FOLDER: &str = "/var/spool/cron/crontabs";

/// Paths of files, and the folders that can't be read.
#[derive(Drop)]
pub(crate) struct Paths {
    pub(crate) paths: Vec<String>,
    pub(crate) faults: Vec<UnitFault>,
}

/// Returns `/etc/crontab` and the paths of the crontabs in [`CRON_FOLDER`].
pub(crate) fn system_paths<T: Tree>(alloc: Global, tree: &mut T) -> Result<Paths, AllocError>
    ensures paths { IfOk result (λ found. (machine : Machine) → T.shows tree.new machine
        → map string_bytes found.paths.items ≡ system_paths machine) }
    ensures faults { IfOk result (λ found. (machine : Machine) → T.shows tree.new machine
        → map shown_fault found.faults.items ≡ faults_of_listing cron_folder (names_at machine cron_folder)) }
    ensures grows { (machine : Machine) → T.shows tree.new machine → T.shows tree.old machine }
{
    let mut paths = Vec::new(alloc);
    paths.push(String::from_str(alloc, "/etc/crontab")?)?;
    let found = paths_in(alloc, tree, CRON_FOLDER, NameRule::Package)?;
    push_all(&mut paths, found.paths)?;
    Ok(Paths {
        paths,
        faults: found.faults,
    })
}

/// Returns the paths of the users' crontabs, or no paths if [`USER_FOLDER`] can't be read: usually, only root can read it.
pub(crate) fn user_paths<T: Tree>(alloc: Global, tree: &mut T) -> Result<Vec<String>, AllocError>
    ensures paths { IfOk result (λ paths. (machine : Machine) → T.shows tree.new machine
        → map string_bytes paths.items ≡ user_paths machine) }
    ensures grows { (machine : Machine) → T.shows tree.new machine → T.shows tree.old machine }
{
    Ok(paths_in(alloc, tree, USER_FOLDER, NameRule::User)?.paths)
}

/// Which names in a folder are those of crontabs.
#[derive(Clone, Copy)]
pub(crate) enum NameRule {
    /// Names that have only letters, digits, `_` and `-`: those of run-parts(8), as cron(8) of Debian says.
    Package,
    /// Names of users, which don't begin with `.`.
    User,
}

impl NameRule {
    fn takes(self, name: &str) -> bool
        ensures { result ≡ is_taken self name.now }
    {
        match self {
            NameRule::Package => is_cron_name(name.as_bytes()),
            NameRule::User => !name.as_bytes().starts_with(b"."),
        }
    }
}

fn is_cron_name(name: &[u8]) -> bool
    ensures { result ≡ is_cron_name name.now }
{
    !name.is_empty() && are_name_bytes(name)
}

fn are_name_bytes(name: &[u8]) -> bool
    ensures { result ≡ list_all is_name_byte name.now }
{
    name.iter().all(|byte| is_name_byte(*byte))
}

fn is_name_byte(byte: u8) -> bool
    ensures { result ≡ is_name_byte byte }
{
    byte.is_ascii_alphanumeric() || byte == b'_' || byte == b'-'
}

/// Returns the paths of the crontabs in a folder, sorted by their bytes, or why the folder can't be read.
fn paths_in<T: Tree>(
    alloc: Global,
    tree: &mut T,
    folder: &str,
    rule: NameRule,
) -> Result<Paths, AllocError>
    ensures paths { IfOk result (λ found. (machine : Machine) → T.shows tree.new machine
        → map string_bytes found.paths.items ≡ paths_of rule folder.now (names_at machine folder.now)) }
    ensures faults { IfOk result (λ found. (machine : Machine) → T.shows tree.new machine
        → map shown_fault found.faults.items ≡ faults_of_listing folder.now (names_at machine folder.now)) }
    ensures grows { (machine : Machine) → T.shows tree.new machine → T.shows tree.old machine }
{
    match names_at(alloc, tree, folder) {
        Ok(Names { names, unnamed: _ }) => {
            let names = taken_names(alloc, rule, names)?;
            Ok(Paths {
                paths: paths_of_names(alloc, folder, &names)?,
                faults: Vec::new(alloc),
            })
        }
        Err(TreeFault::Unreadable(why)) => unreadable(alloc, folder, Reason::Unreadable(why)),
        Err(TreeFault::NoMemory) => Err(AllocError),
    }
}

/// Returns no paths, and the fault of a folder that can't be read.
fn unreadable(alloc: Global, folder: &str, reason: Reason) -> Result<Paths, AllocError>
    ensures paths { IfOk result (λ found. found.paths.items ≡ []) }
    ensures faults { IfOk result (λ found. map shown_fault found.faults.items
        ≡ record { path = folder.now; reason = reason } ∷ []) }
{
    let path = String::from_str(alloc, folder)?;
    let mut faults = Vec::new(alloc);
    faults.push(UnitFault { path, reason })?;
    Ok(Paths {
        paths: Vec::new(alloc),
        faults,
    })
}

/// Returns the names that can be names of crontabs.
fn taken_names(
    alloc: Global,
    rule: NameRule,
    names: Vec<String>,
) -> Result<BTreeSet<String>, AllocError>
    ensures { IfOk result (λ found. map string_bytes found.keys
        ≡ sorted_once (filter (is_taken rule) (map string_bytes names.items))) }
{
    let mut found = BTreeSet::new(alloc);
    for name in names {
        add_name(&mut found, rule, name)?;
    }
    Ok(found)
}

/// Adds the name if it can be that of a crontab.
fn add_name(found: &mut BTreeSet<String>, rule: NameRule, name: String) -> Result<(), AllocError>
    ensures { OnOk result (map string_bytes found.new.keys
        ≡ with_texts (map string_bytes found.old.keys) (filter (is_taken rule) (string_bytes name ∷ []))) }
{
    if rule.takes(name.as_str()) {
        add_text(found, name)?;
    }
    Ok(())
}

fn add_text(found: &mut BTreeSet<String>, name: String) -> Result<(), AllocError>
    ensures { OnOk result (map string_bytes found.new.keys
        ≡ insert_key (slice_cmp nat_cmp) (map string_bytes found.old.keys) (string_bytes name)) }
{
    found.insert(name)?;
    Ok(())
}

/// Returns the paths of the files with these names in a folder.
fn paths_of_names(
    alloc: Global,
    folder: &str,
    names: &BTreeSet<String>,
) -> Result<Vec<String>, AllocError>
    ensures { IfOk result (λ paths. map string_bytes paths.items
        ≡ map (path_in folder.now) (map string_bytes names.now.keys)) }
{
    let mut paths = Vec::new(alloc);
    for name in names.iter() {
        paths.push(format!(in alloc; "{folder}/{name}")?)?;
    }
    Ok(paths)
}

fn push_all(paths: &mut Vec<String>, more: Vec<String>) -> Result<(), AllocError>
    ensures { OnOk result (map string_bytes paths.new.items
        ≡ map string_bytes paths.old.items ++ map string_bytes more.items) }
{
    for path in more {
        paths.push(path)?;
    }
    Ok(())
}
