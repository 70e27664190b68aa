//! Finding a unit by its name (systemd.unit(5), Description and Unit File Load Path). A stem is a unit's name without
//! its suffix `.timer`.

ghost use Rattle.std.specs.Prelude.{◌≡◌, ℕ, List, IfOk, string_bytes};
ghost use Rattle.cal_machine.specs.rules.Machine.{Machine};
ghost use Rattle.cal_unit_index.specs.rules.Index.{IsIndexOf, destination_of};
ghost use Rattle.cal_unit_index.specs.rules.Units.{own_stem, shown_end, shown_unit, unit_by, unit_from, unit_on};

use crate::follow::{End, following_unit};
use crate::index::UnitIndex;
use crate::unit_name::{instance_of, is_template};
use std::alloc::{AllocError, Global};

/// The file of a unit, and the names by which it was found.
#[derive(Drop)]
pub struct UnitFile {
    /// The path of the file in a folder of the search path. It can be a link to a file elsewhere, and can mask the
    /// unit.
    pub path: String,
    /// The stem under which the file was found. For an instance without a file of its own, this is the stem of a
    /// template.
    pub file: String,
    /// The unit's own stem.
    pub stem: String,
}

/// What is found under the name of a unit.
#[derive(Drop)]
pub enum Unit {
    /// No file. If the name is that of an instance, its template has no file, either.
    NotFound,
    /// The name is that of a template, which isn't a unit. Whether it has a file isn't examined.
    Template,
    /// The name is an alias, and more than 7 aliases lead from one to the next.
    Endless,
    /// The unit has a file. Whether this file masks it isn't examined.
    Found(UnitFile),
}

/// Finds the unit with this stem in the index of a search path.
///
/// A name leads to the first file or link with this name, in the folders of the search path, that can be the file of a
/// unit or an alias. Anything else is skipped, such as a folder or a link that can't be an alias. If the name is an
/// alias, the unit is the one to which the alias leads. If the name or the alias leads to an instance without a file of
/// its own, the file of the instance's template is the unit's file.
///
/// Fails only if allocation fails.
pub fn find_unit(alloc: Global, index: &UnitIndex, stem: &str) -> Result<Unit, AllocError>
    ensures known { IfOk result (λ unit. (machine : Machine) (search_path : List (List ℕ)) → IsIndexOf machine search_path index.now
        → shown_unit unit ≡ unit_on machine search_path stem.now) }
{
    find_indexed_unit(alloc, index, stem)
}

fn find_indexed_unit(alloc: Global, index: &UnitIndex, stem: &str) -> Result<Unit, AllocError>
    ensures { IfOk result (λ unit. shown_unit unit ≡ unit_by (destination_of index.now) stem.now) }
{
    if is_template(stem) {
        return Ok(Unit::Template);
    }
    unit_from(alloc, stem, following_unit(index, stem))
}

/// Returns the unit that was asked for by `stem`, given where following its aliases ended.
fn unit_from(alloc: Global, stem: &str, found: End<'_>) -> Result<Unit, AllocError>
    ensures { IfOk result (λ unit. shown_unit unit ≡ unit_from stem.now (shown_end found.entry)) }
{
    match found {
        End::Nowhere => Ok(Unit::NotFound),
        End::Endless => Ok(Unit::Endless),
        End::AtFile { path, stem: file } => Ok(Unit::Found(UnitFile {
            path: String::from_str(alloc, path)?,
            file: String::from_str(alloc, file)?,
            stem: own_stem(alloc, file, stem)?,
        })),
    }
}

/// Returns the unit's own stem. The unit was asked for by `stem`, and its file was found under the stem `file`.
fn own_stem(alloc: Global, file: &str, stem: &str) -> Result<String, AllocError>
    ensures { IfOk result (λ own. string_bytes own ≡ own_stem file.now stem.now) }
{
    let mut own = String::from_str(alloc, file)?;
    if is_template(file) {
        own.push_str(instance_of(stem))?;
    }
    Ok(own)
}
