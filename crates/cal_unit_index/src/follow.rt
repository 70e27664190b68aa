//! Following aliases from unit to unit (systemd.unit(5), Description). A stem is a unit's name without its suffix
//! `.timer`.

ghost use Rattle.std.specs.Prelude.{◌≡◌};
ghost use Rattle.cal_unit_index.specs.rules.Index.{destination_of};
ghost use Rattle.cal_unit_index.specs.rules.Units.{follow, following, following_unit, looked_up, shown_end};

use crate::destinations::Destination;
use crate::index::UnitIndex;
use crate::unit_name::template_of;

/// The maximum number of aliases that are followed, as in systemd 252.
const MAX_ALIASES: usize = 7;

/// Where following aliases ends.
#[derive(Clone, Copy)]
pub(crate) enum End<'i> {
    /// At a name that leads nowhere.
    Nowhere,
    /// At a file.
    AtFile {
        /// The path of the file.
        path: &'i str,
        /// The stem under which the file was found.
        stem: &'i str,
    },
    /// The end isn't reached within the allowed number of aliases.
    Endless,
}

/// Returns where following aliases from a stem ends. If it ends nowhere and the stem is an instance, returns where
/// following aliases from its template ends.
pub(crate) fn following_unit<'i>(index: &'i UnitIndex, stem: &'i str) -> End<'i>
    ensures { shown_end result ≡ following_unit (destination_of index.now) stem.now }
{
    match (following(index, stem), template_of(stem)) {
        (End::Nowhere, Some(template)) => following(index, template),
        (found, _) => found,
    }
}

/// Returns where following aliases from a stem ends.
pub(crate) fn following<'i>(index: &'i UnitIndex, stem: &'i str) -> End<'i>
    ensures { shown_end result ≡ following (destination_of index.now) stem.now }
{
    match index.destination(stem) {
        None => End::Nowhere,
        Some(Destination::File(path)) => End::AtFile {
            path: path.as_str(),
            stem,
        },
        Some(Destination::Alias(other)) => follow(index, MAX_ALIASES, other.as_str()),
    }
}

/// Follows aliases from a stem to which an alias leads, and returns where this ends. At most `count` stems are looked
/// up.
fn follow<'i>(index: &'i UnitIndex, count: usize, stem: &'i str) -> End<'i>
    ensures { shown_end result ≡ follow (destination_of index.now) count stem.now }
{
    if count == 0 {
        return End::Endless;
    }
    let stem = looked_up(index, stem);
    match index.destination(stem) {
        None => End::Nowhere,
        Some(Destination::File(path)) => End::AtFile {
            path: path.as_str(),
            stem,
        },
        Some(Destination::Alias(other)) => follow(index, count - 1, other.as_str()),
    }
}

/// Returns the stem by which the target of an alias is looked up: the target's own stem or, if this leads nowhere and
/// is an instance, the stem of its template.
fn looked_up<'i>(index: &UnitIndex, stem: &'i str) -> &'i str
    ensures { result.now ≡ looked_up (destination_of index.now) stem.now }
{
    if index.destination(stem).is_some() {
        return stem;
    }
    match template_of(stem) {
        Some(template) => template,
        None => stem,
    }
}
