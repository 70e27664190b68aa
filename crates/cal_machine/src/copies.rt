//! Copies of recorded answers. Callers get the copies, and the recorder keeps the answers for later calls.

ghost use Rattle.std.specs.Prelude.{◌≡◌, IfOk, map, option_map, string_bytes};
ghost use Rattle.cal_machine.specs.rules.Machine.{Tells, bytes_of, shown_entry, shown_listing};
ghost use Rattle.cal_machine.specs.rules.Seen.{seen};

use crate::tree::{Entry, Names, TreeFault, Unreadable};
use std::alloc::{AllocError, Global};

pub(crate) fn copy_entry(
    alloc: Global,
    answer: &Result<Entry, Unreadable>,
) -> Result<Entry, TreeFault>
    ensures { Tells shown_entry result (seen shown_entry answer.now) }
{
    match answer {
        Ok(Entry::Missing) => Ok(Entry::Missing),
        Ok(Entry::Empty) => Ok(Entry::Empty),
        Ok(Entry::File) => Ok(Entry::File),
        Ok(Entry::Device) => Ok(Entry::Device),
        Ok(Entry::Folder) => Ok(Entry::Folder),
        Ok(Entry::Link(target)) => Ok(Entry::Link(String::from_str(alloc, target.as_str())?)),
        Err(why) => Err(TreeFault::Unreadable(*why)),
    }
}

pub(crate) fn copy_names(
    alloc: Global,
    answer: &Result<Names, Unreadable>,
) -> Result<Names, TreeFault>
    ensures { Tells shown_listing result (seen shown_listing answer.now) }
{
    match answer {
        Ok(found) => Ok(Names {
            names: copy_texts(alloc, found.names.as_slice())?,
            unnamed: found.unnamed,
        }),
        Err(why) => Err(TreeFault::Unreadable(*why)),
    }
}

fn copy_texts(alloc: Global, texts: &[String]) -> Result<Vec<String>, AllocError>
    ensures { IfOk result (λ copy. map string_bytes copy.items ≡ map string_bytes texts.now) }
{
    let mut copy = Vec::new(alloc);
    for text in texts {
        copy.push(String::from_str(alloc, text.as_str())?)?;
    }
    Ok(copy)
}

pub(crate) fn copy_bytes(
    alloc: Global,
    answer: &Result<Vec<u8>, Unreadable>,
) -> Result<Vec<u8>, TreeFault>
    ensures { Tells bytes_of result (seen bytes_of answer.now) }
{
    match answer {
        Ok(bytes) => Ok(Vec::from_slice(alloc, bytes.as_slice())?),
        Err(why) => Err(TreeFault::Unreadable(*why)),
    }
}

pub(crate) fn copy_value(
    alloc: Global,
    answer: &Result<Option<String>, Unreadable>,
) -> Result<Option<String>, TreeFault>
    ensures { Tells (option_map string_bytes) result (seen (option_map string_bytes) answer.now) }
{
    match answer {
        Ok(Some(text)) => Ok(Some(String::from_str(alloc, text.as_str())?)),
        Ok(None) => Ok(None),
        Err(why) => Err(TreeFault::Unreadable(*why)),
    }
}
