//! The search path for a question, which depends on variables of the environment. A variable that isn't UTF-8 or can't
//! be read is treated as unset.

ghost use Rattle.std.specs.Prelude.{◌≡◌, ◌≢◌, IfErr, IfOk, None, Some, map, option_map, string_bytes};
ghost use Rattle.cal_machine.specs.rules.Machine.{Machine};
ghost use Rattle.cal_unit_index.specs.rules.SearchPath.{user_path};
ghost use Rattle.cal_answers.specs.rules.MachinePath.{machine_path, usual_path, variable_on, variables_on};

use crate::fault::ReadFault;
use cal_machine::{Tree, TreeFault};
use cal_unit_index::{UserVariables, given_path, system_path, user_path};
use std::alloc::{AllocError, Global};

/// Returns the search path of a user's manager if `is_user` is `true`, and otherwise that of the system's manager.
/// Without a search path, the question can't be answered: a user's manager has none if `XDG_CONFIG_HOME` or
/// `XDG_DATA_HOME` isn't set and `HOME` isn't an absolute path, even if `SYSTEMD_UNIT_PATH` is set.
pub(crate) fn search_path<T: Tree>(
    alloc: Global,
    tree: &mut T,
    is_user: bool,
) -> Result<Vec<String>, ReadFault>
    ensures known { IfOk result (λ search_path. (machine : Machine) → T.shows tree.new machine
        → machine_path machine is_user ≡ Some (map string_bytes search_path.items)) }
    ensures fault { IfErr result (λ fault. fault ≢ ReadFault.NoMemory → (machine : Machine) → T.shows tree.new machine → machine_path machine is_user ≡ None) }
    ensures grows { (machine : Machine) → T.shows tree.new machine → T.shows tree.old machine }
{
    let Some(usual) = usual_path(alloc, tree, is_user)? else {
        let reason = "the variable HOME isn't set, isn't an absolute path or can't be read";
        return Err(ReadFault::reason(alloc, reason));
    };
    match variable(alloc, tree, "SYSTEMD_UNIT_PATH")? {
        Some(value) => Ok(given_path(alloc, value.as_str(), usual.as_slice())?),
        None => Ok(usual),
    }
}

/// Returns the search path that a manager has without `SYSTEMD_UNIT_PATH`, or `None` if there is none.
fn usual_path<T: Tree>(
    alloc: Global,
    tree: &mut T,
    is_user: bool,
) -> Result<Option<Vec<String>>, AllocError>
    ensures known { IfOk result (λ search_path. (machine : Machine) → T.shows tree.new machine
        → usual_path machine is_user ≡ option_map (λ search_path. map string_bytes search_path.items) search_path) }
    ensures grows { (machine : Machine) → T.shows tree.new machine → T.shows tree.old machine }
{
    if is_user {
        usual_user_path(alloc, tree)
    } else {
        Ok(Some(system_path(alloc)?))
    }
}

fn usual_user_path<T: Tree>(alloc: Global, tree: &mut T) -> Result<Option<Vec<String>>, AllocError>
    ensures known { IfOk result (λ search_path. (machine : Machine) → T.shows tree.new machine
        → user_path (variables_on machine) ≡ option_map (λ search_path. map string_bytes search_path.items) search_path) }
    ensures grows { (machine : Machine) → T.shows tree.new machine → T.shows tree.old machine }
{
    let home = variable(alloc, tree, "HOME")?;
    let config_home = variable(alloc, tree, "XDG_CONFIG_HOME")?;
    let config_dirs = variable(alloc, tree, "XDG_CONFIG_DIRS")?;
    let data_home = variable(alloc, tree, "XDG_DATA_HOME")?;
    let data_dirs = variable(alloc, tree, "XDG_DATA_DIRS")?;
    let runtime_dir = variable(alloc, tree, "XDG_RUNTIME_DIR")?;
    let variables = UserVariables {
        home: home.as_deref(),
        config_home: config_home.as_deref(),
        config_dirs: config_dirs.as_deref(),
        data_home: data_home.as_deref(),
        data_dirs: data_dirs.as_deref(),
        runtime_dir: runtime_dir.as_deref(),
    };
    user_path(alloc, &variables)
}

/// Returns the value of a variable, or `None` if it isn't set, isn't UTF-8 or can't be read.
pub(crate) fn variable<T: Tree>(
    alloc: Global,
    tree: &mut T,
    name: &str,
) -> Result<Option<String>, AllocError>
    ensures known { IfOk result (λ value. (machine : Machine) → T.shows tree.new machine
        → variable_on machine name.now ≡ option_map string_bytes value) }
    ensures grows { (machine : Machine) → T.shows tree.new machine → T.shows tree.old machine }
{
    match tree.variable(alloc, name) {
        Ok(value) => Ok(value),
        Err(TreeFault::NoMemory) => Err(AllocError),
        Err(TreeFault::Unreadable(_)) => Ok(None),
    }
}
