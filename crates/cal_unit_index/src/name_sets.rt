//! Sets of names, sorted by their bytes.

ghost use Rattle.std.specs.Prelude.{◌≡◌, ◌++◌, IfOk, OnOk, map, string_bytes};
ghost use Rattle.std.specs.BTreeSet.{insert_key};
ghost use Rattle.std.specs.Cmp.Lexicographic.{slice_cmp};
ghost use Rattle.std.specs.Option.{option_to_list};
ghost use Rattle.std.specs.Ordering.{nat_cmp};
ghost use Rattle.cal_unit_index.specs.rules.Destinations.{is_among, sorted_once, stems_of};
ghost use Rattle.cal_unit_index.specs.rules.UnitName.{listed_stem};

use crate::unit_name::listed_stem;
use std::alloc::{AllocError, Global};
use std::collections::BTreeSet;

pub(crate) fn name_set(alloc: Global, names: Vec<String>) -> Result<BTreeSet<String>, AllocError>
    ensures { IfOk result (λ set. map string_bytes set.keys ≡ sorted_once (map string_bytes names.items)) }
{
    let mut set = BTreeSet::new(alloc);
    for name in names {
        add_name(&mut set, name)?;
    }
    Ok(set)
}

/// Adds a name, unless the set has it already.
pub(crate) fn add_name(set: &mut BTreeSet<String>, name: String) -> Result<(), AllocError>
    ensures { OnOk result (map string_bytes set.new.keys
        ≡ insert_key (slice_cmp nat_cmp) (map string_bytes set.old.keys) (string_bytes name)) }
{
    set.insert(name)?;
    Ok(())
}

pub(crate) fn has_name(set: &BTreeSet<String>, name: &str) -> bool
    ensures { result ≡ is_among (map string_bytes set.now.keys) name.now }
{
    set.contains(name)
}

/// Returns the stems of the timers to which files with these names can belong, in the order of the names.
pub(crate) fn timer_stems(alloc: Global, names: &BTreeSet<String>) -> Result<Vec<&str>, AllocError>
    ensures { IfOk result (λ stems. map (λ stem. stem.now) stems.items ≡ stems_of (map string_bytes names.now.keys)) }
{
    let mut stems = Vec::new(alloc);
    for name in names.iter() {
        push_stem(&mut stems, name.as_str())?;
    }
    Ok(stems)
}

fn push_stem<'n>(stems: &mut Vec<&'n str>, name: &'n str) -> Result<(), AllocError>
    ensures { OnOk result (map (λ stem. stem.now) stems.new.items
        ≡ map (λ stem. stem.now) stems.old.items ++ option_to_list (listed_stem name.now)) }
{
    if let Some(stem) = listed_stem(name) {
        stems.push(stem)?;
    }
    Ok(())
}
