//! The zone that the environment variable `TZ` names.

ghost use Rattle.std.specs.Prelude.{◌≡◌, IfOk, IfSome, is_some};
ghost use Rattle.jiff.specs.Words.{read_whole};
ghost use Rattle.cal_zone.specs.rules.ZoneArgument.{HasOffset};
ghost use Rattle.cal_zone_files.specs.rules.LocalZone.{IsResultOf, file_zone, name_zone, variable_zone, without_folder};

use crate::fault::{Origin, ZonesFault};
use crate::load::{LOCALTIME, ZONE_FOLDER};
use cal_civil::{is_utc_name, is_zone_name};
use cal_machine::after_prefix;
use cal_zone::{Rules, ZoneArgument};
use std::alloc::Global;

/// Returns the zone that the value of `TZ` names (tzset(3)), or `None` for the machine's own zone, which
/// `/etc/localtime` and `:/etc/localtime` stand for.
pub(crate) fn variable_zone(alloc: Global, text: &str) -> Result<Option<ZoneArgument>, ZonesFault>
    ensures zone { IsResultOf (variable_zone text.now) result }
    ensures offset { IfOk result (λ zone. IfSome zone HasOffset) }
{
    if let Some(file) = after_prefix(":", text) {
        return file_zone(alloc, file);
    }
    if is_rule(alloc, text) {
        return Ok(Some(ZoneArgument::Posix(String::from_str(alloc, text)?)));
    }
    file_zone(alloc, text)
}

fn is_rule(alloc: Global, text: &str) -> bool
    ensures { result ≡ is_some (read_whole text.now) }
{
    Rules::posix(alloc, text).is_ok()
}

fn file_zone(alloc: Global, file: &str) -> Result<Option<ZoneArgument>, ZonesFault>
    ensures zone { IsResultOf (file_zone file.now) result }
    ensures offset { IfOk result (λ zone. IfSome zone HasOffset) }
{
    if file == LOCALTIME {
        return Ok(None);
    }
    if file.is_empty() {
        return Ok(Some(ZoneArgument::Utc));
    }
    name_zone(alloc, without_folder(file))
}

/// Returns the name of the zone whose file is at the path `file`, if the path begins with [`ZONE_FOLDER`]. Returns any
/// other text unchanged.
fn without_folder(file: &str) -> &str
    ensures { result.now ≡ without_folder file.now }
{
    match after_prefix(ZONE_FOLDER, file) {
        Some(name) => name,
        None => file,
    }
}

fn name_zone(alloc: Global, name: &str) -> Result<Option<ZoneArgument>, ZonesFault>
    ensures zone { IsResultOf (name_zone name.now) result }
    ensures offset { IfOk result (λ zone. IfSome zone HasOffset) }
{
    if is_utc_name(name) {
        return Ok(Some(ZoneArgument::Utc));
    }
    if is_zone_name(name.as_bytes()) {
        return Ok(Some(ZoneArgument::Name(String::from_str(alloc, name)?)));
    }
    Err(ZonesFault::Unclear(Origin::Variable))
}
