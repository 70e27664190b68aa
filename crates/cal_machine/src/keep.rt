//! Recording of answers about a machine. Each answer is stored under its question: a path, or the name of a variable.

ghost use Rattle.std.specs.Prelude.{◌≡◌, IfOk, None, Some, OnOk};
ghost use Rattle.std.specs.BTreeMap.{get_by_text};
ghost use Rattle.cal_machine.specs.rules.Recorded.{Adds, Extends, answered};

use crate::tree::{TreeFault, Unreadable};
use std::alloc::{AllocError, Global};
use std::collections::BTreeMap;

/// Returns the answer of a call, which may be an error. Fails if memory ran out, since that says nothing about the
/// machine and can't be recorded.
pub(crate) fn said<V: Drop>(
    outcome: Result<V, TreeFault>,
) -> Result<Result<V, Unreadable>, AllocError>
    ensures { IfOk result (λ answer. outcome ≡ answered answer) }
{
    match outcome {
        Ok(found) => Ok(Ok(found)),
        Err(TreeFault::Unreadable(why)) => Ok(Err(why)),
        Err(TreeFault::NoMemory) => Err(AllocError),
    }
}

/// Records the answer to a question. The caller has checked that there is no answer yet. Fails without recording
/// anything if allocation fails.
pub(crate) fn keep<V: Drop>(
    alloc: Global,
    recorded: &mut BTreeMap<String, Result<V, Unreadable>>,
    question: &str,
    answer: Result<V, Unreadable>,
) -> Result<(), AllocError>
    requires { get_by_text recorded.old question.now ≡ None }
    ensures extends { Extends (get_by_text recorded.old) (get_by_text recorded.new) }
    ensures adds { Adds (get_by_text recorded.old) (get_by_text recorded.new) question.now answer }
    ensures kept { OnOk result (get_by_text recorded.new question.now ≡ Some answer) }
{
    recorded.insert(String::from_str(alloc, question)?, answer)?;
    Ok(())
}
