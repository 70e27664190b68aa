//! Which timers links in wants folders start, by the names of the links (systemd.unit(5), Description). A stem is a
//! unit's name without its suffix `.timer`. A wants folder is a folder `NAME.wants` or `NAME.requires` below a folder
//! of the search path.

ghost use Rattle.std.specs.Prelude.{◌≡◌, IfOk, option_map, string_bytes};
ghost use Rattle.cal_unit_index.specs.rules.Starts.{if_stem, instance_in, instantiated, linked_stem};

use crate::unit_name::{UnitKind, instance_of, is_stem, is_template, listed_stem, unit_kind_of};
use cal_machine::before_last_byte;
use std::alloc::{AllocError, Global};

/// Returns the stem of the timer that a link with this name starts in a wants folder with the name `folder`, wherever
/// the link leads. A link with the name of a template starts an instance of the template.
pub(crate) fn linked_stem(
    alloc: Global,
    folder: &str,
    name: &str,
) -> Result<Option<String>, AllocError>
    ensures { IfOk result (λ stem. option_map string_bytes stem ≡ linked_stem folder.now name.now) }
{
    match listed_stem(name) {
        Some(stem) if is_template(stem) => instantiated(alloc, stem, instance_in(folder)),
        Some(stem) => Ok(Some(String::from_str(alloc, stem)?)),
        None => Ok(None),
    }
}

/// Returns the stem of the instance of a template with this instance name.
fn instantiated(
    alloc: Global,
    template: &str,
    instance: Option<&str>,
) -> Result<Option<String>, AllocError>
    ensures { IfOk result (λ stem. option_map string_bytes stem
        ≡ instantiated template.now (option_map (λ instance. instance.now) instance.entry)) }
{
    match instance {
        Some(instance) => Ok(if_stem(format!(in alloc; "{template}{instance}")?)),
        None => Ok(None),
    }
}

fn if_stem(stem: String) -> Option<String>
    ensures { option_map string_bytes result ≡ if_stem (string_bytes stem) }
{
    if is_stem(stem.as_str()) {
        Some(stem)
    } else {
        None
    }
}

/// Returns the instance name for templates that are linked in a wants folder with this name. Returns `None` if the
/// folder can belong to several units.
fn instance_in(folder: &str) -> Option<&str>
    ensures { option_map (λ instance. instance.now) result ≡ instance_in folder.now }
{
    let unit = before_last_byte(before_last_byte(folder, '.')?, '.')?;
    match unit_kind_of(unit) {
        UnitKind::Plain if unit.as_bytes().ends_with(b"-") => None,
        UnitKind::Plain => Some(unit),
        UnitKind::Template => None,
        UnitKind::Instance => Some(instance_of(unit)),
    }
}
