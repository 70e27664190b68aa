//! The search path: the folders that have unit files, the most important first (systemd.unit(5), Unit File Load Path).

ghost use Rattle.std.specs.Prelude.{◌≡◌, ◌++◌, ◌∷◌, [], IfOk, OnOk, if◌then◌else◌, codes, map, nat_eq, option_map, string_bytes};
ghost use Rattle.std.specs.List.{ends_with, flat_map};
ghost use Rattle.std.specs.Option.{option_copied, option_to_list};
ghost use Rattle.cal_unit_index.specs.rules.SearchPath.{directories_of, each_once, folder_in, folders_at, given_path, own_directory, paths_in, shown_directories, shown_place, shown_variables, system_folders, user_folders, user_path};

use crate::paths::{all_texts, each_once, paths_in};
use std::alloc::{AllocError, Global};

/// The variables of the environment that count for the search path of a user's manager. A variable that isn't set is
/// `None`, and one that is set but empty is an empty text.
#[derive(Clone, Copy)]
pub struct UserVariables<'a> {
    /// `HOME`, the user's home.
    pub home: Option<&'a str>,
    /// `XDG_CONFIG_HOME`, the directory of the user's configuration.
    pub config_home: Option<&'a str>,
    /// `XDG_CONFIG_DIRS`, the directories with configuration that all users share, separated by colons.
    pub config_dirs: Option<&'a str>,
    /// `XDG_DATA_HOME`, the directory of the user's data.
    pub data_home: Option<&'a str>,
    /// `XDG_DATA_DIRS`, the directories with data that all users share, separated by colons.
    pub data_dirs: Option<&'a str>,
    /// `XDG_RUNTIME_DIR`, the user's directory for files that are kept only until the user logs out.
    pub runtime_dir: Option<&'a str>,
}

/// The directories that can have folders of unit files.
#[derive(Clone, Copy)]
struct Directories<'a> {
    /// The user's own directory for configuration.
    config_home: &'a str,
    /// The user's own directory for data.
    data_home: &'a str,
    /// The user's own directory for files that are kept only until the user logs out, if there is one.
    runtime_dirs: &'a [&'a str],
    /// The directories with configuration that all users share.
    config_dirs: &'a [&'a str],
    /// The directories with data that all users share.
    data_dirs: &'a [&'a str],
}

/// Returns the search path of the system's manager.
pub fn system_path(alloc: Global) -> Result<Vec<String>, AllocError>
    ensures { IfOk result (λ search_path. map string_bytes search_path.items ≡ system_folders) }
{
    let folders = [
        "/etc/systemd/system.control",
        "/run/systemd/system.control",
        "/run/systemd/transient",
        "/run/systemd/generator.early",
        "/etc/systemd/system",
        "/etc/systemd/system.attached",
        "/run/systemd/system",
        "/run/systemd/system.attached",
        "/run/systemd/generator",
        "/usr/local/lib/systemd/system",
        "/lib/systemd/system",
        "/usr/lib/systemd/system",
        "/run/systemd/generator.late",
    ];
    to_owned(alloc, &folders)
}

/// Returns the search path of a user's manager. Returns `None` if `HOME` is needed, because `XDG_CONFIG_HOME` or
/// `XDG_DATA_HOME` isn't set, but isn't an absolute path.
#[tactic(auto, using(crate::proofs::SearchPathLemmas::user_path_none), unfolding(crate::specs::rules::SearchPath::user_path))]
pub fn user_path(
    alloc: Global,
    variables: &UserVariables<'_>,
) -> Result<Option<Vec<String>>, AllocError>
    ensures { IfOk result (λ search_path. option_map (λ search_path. map string_bytes search_path.items) search_path ≡ user_path (shown_variables variables.now)) }
{
    let home = variables.home;
    let Some(config_home) = own_directory(alloc, variables.config_home, home, "/.config")? else {
        return Ok(None);
    };
    let Some(data_home) = own_directory(alloc, variables.data_home, home, "/.local/share")? else {
        return Ok(None);
    };
    let search_path = path_in(alloc, config_home.as_str(), data_home.as_str(), variables)?;
    Ok(Some(search_path))
}

/// Returns the search path of a manager if the variable `SYSTEMD_UNIT_PATH` has this value: the paths in the value and,
/// if the value ends with a colon, the folders of `usual`, the manager's usual search path.
#[tactic(auto, unfolding(crate::specs::rules::SearchPath::given_path))]
pub fn given_path(alloc: Global, value: &str, usual: &[String]) -> Result<Vec<String>, AllocError>
    ensures { IfOk result (λ search_path. map string_bytes search_path.items ≡ given_path value.now (map string_bytes usual.now)) }
{
    let folders = given_folders(alloc, value, usual)?;
    each_once(alloc, folders.as_slice())
}

fn given_folders<'a>(
    alloc: Global,
    value: &'a str,
    usual: &'a [String],
) -> Result<Vec<&'a str>, AllocError>
    ensures { IfOk result (λ folders. map (λ folder. folder.now) folders.items
        ≡ paths_in value.now ++ (if ends_with nat_eq value.now (codes ":") then map string_bytes usual.now else [])) }
{
    let mut folders = paths_in(alloc, value)?;
    if value.ends_with(':') {
        push_texts(&mut folders, usual)?;
    }
    Ok(folders)
}

/// Returns the value of a variable or, if it isn't set, `home` followed by `name`. Returns `None` if `home` is needed
/// but isn't an absolute path.
#[tactic(auto, unfolding(crate::specs::rules::SearchPath::own_directory))]
fn own_directory(
    alloc: Global,
    given: Option<&str>,
    home: Option<&str>,
    name: &str,
) -> Result<Option<String>, AllocError>
    ensures { IfOk result (λ directory. option_map string_bytes directory
        ≡ own_directory (option_copied given.entry) (option_copied home.entry) name.now) }
{
    if let Some(given) = given {
        return Ok(Some(String::from_str(alloc, given)?));
    }
    match home {
        Some(home) if home.starts_with('/') => Ok(Some(format!(in alloc; "{home}{name}")?)),
        _ => Ok(None),
    }
}

/// Returns the search path of a user's manager. `config_home` and `data_home` are the user's own directories.
fn path_in(
    alloc: Global,
    config_home: &str,
    data_home: &str,
    variables: &UserVariables<'_>,
) -> Result<Vec<String>, AllocError>
    ensures { IfOk result (λ search_path. map string_bytes search_path.items
        ≡ each_once (user_folders (directories_of config_home.now data_home.now (shown_variables variables.now)))) }
{
    let runtime_dirs = listed(alloc, variables.runtime_dir)?;
    let config_dirs = paths_in(alloc, variables.config_dirs.unwrap_or("/etc/xdg"))?;
    let data_dirs = paths_in(
        alloc,
        variables.data_dirs.unwrap_or("/usr/local/share:/usr/share"),
    )?;
    let directories = Directories {
        config_home,
        data_home,
        runtime_dirs: runtime_dirs.as_slice(),
        config_dirs: config_dirs.as_slice(),
        data_dirs: data_dirs.as_slice(),
    };
    let folders = user_folders(alloc, directories)?;
    let folders = all_texts(alloc, folders.as_slice())?;
    each_once(alloc, folders.as_slice())
}

fn listed(alloc: Global, directory: Option<&str>) -> Result<Vec<&str>, AllocError>
    ensures { IfOk result (λ listed. map (λ directory. directory.now) listed.items ≡ option_to_list (option_copied directory.entry)) }
{
    let mut listed = Vec::new(alloc);
    if let Some(directory) = directory {
        listed.push(directory)?;
    }
    Ok(listed)
}

/// Returns the folders of a user's manager, the most important first. A folder can be in the list more than once, and
/// paths can have extra slashes or parts `.`: [`each_once`] removes them.
fn user_folders(alloc: Global, directories: Directories<'_>) -> Result<Vec<String>, AllocError>
    ensures { IfOk result (λ folders. map string_bytes folders.items ≡ user_folders (shown_directories directories.entry)) }
{
    let config = [directories.config_home];
    let data = [directories.data_home];
    let runtime = directories.runtime_dirs;
    let etc = ["/etc"];
    let run = ["/run"];
    let vendor = [
        "/usr/local/lib",
        "/usr/local/share",
        "/usr/lib",
        "/usr/share",
    ];
    let places: [(&[&str], &str); 14] = [
        (&config, "user.control"),
        (runtime, "user.control"),
        (runtime, "transient"),
        (runtime, "generator.early"),
        (&config, "user"),
        (directories.config_dirs, "user"),
        (&etc, "user"),
        (runtime, "user"),
        (&run, "user"),
        (runtime, "generator"),
        (&data, "user"),
        (directories.data_dirs, "user"),
        (&vendor, "user"),
        (runtime, "generator.late"),
    ];
    folders_at(alloc, &places)
}

/// Returns `DIRECTORY/systemd/NAME` for each directory in each item of `places`. An item has directories and one name.
fn folders_at(alloc: Global, places: &[(&[&str], &str)]) -> Result<Vec<String>, AllocError>
    ensures { IfOk result (λ folders. map string_bytes folders.items ≡ flat_map folders_at (map shown_place places.now)) }
{
    let mut folders = Vec::new(alloc);
    for (directories, name) in places {
        push_folders(alloc, &mut folders, directories, name)?;
    }
    Ok(folders)
}

/// Appends `DIRECTORY/systemd/NAME` for each directory.
fn push_folders(
    alloc: Global,
    folders: &mut Vec<String>,
    directories: &[&str],
    name: &str,
) -> Result<(), AllocError>
    ensures { OnOk result (map string_bytes folders.new.items
        ≡ map string_bytes folders.old.items ++ map (folder_in name.now) (map (λ directory. directory.now) directories.now)) }
{
    for directory in directories {
        push_folder(alloc, folders, directory, name)?;
    }
    Ok(())
}

fn push_folder(
    alloc: Global,
    folders: &mut Vec<String>,
    directory: &str,
    name: &str,
) -> Result<(), AllocError>
    ensures { OnOk result (map string_bytes folders.new.items
        ≡ map string_bytes folders.old.items ++ folder_in name.now directory.now ∷ []) }
{
    folders.push(format!(in alloc; "{directory}/systemd/{name}")?)?;
    Ok(())
}

fn push_texts<'a>(folders: &mut Vec<&'a str>, texts: &'a [String]) -> Result<(), AllocError>
    ensures { OnOk result (map (λ folder. folder.now) folders.new.items
        ≡ map (λ folder. folder.now) folders.old.items ++ map string_bytes texts.now) }
{
    for text in texts {
        folders.push(text.as_str())?;
    }
    Ok(())
}

fn to_owned(alloc: Global, texts: &[&str]) -> Result<Vec<String>, AllocError>
    ensures { IfOk result (λ all. map string_bytes all.items ≡ map (λ text. text.now) texts.now) }
{
    let mut all = Vec::new(alloc);
    for text in texts {
        all.push(String::from_str(alloc, text)?)?;
    }
    Ok(all)
}
