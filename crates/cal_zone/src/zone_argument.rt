//! Zones as options and variables name them.

ghost use Rattle.std.specs.Prelude.{◌≡◌, IfOk, IfSome, option_map};
ghost use Rattle.cal_zone.specs.rules.ZoneArgument.{HasOffset, shown_zone_argument, zone_argument_in};

use cal_civil::{is_utc_name, is_zone_name, read_offset};
use std::alloc::{AllocError, Global};

/// A zone as an option or a variable names it, before a rule is parsed or a name is looked up.
#[derive(Debug, Drop)]
pub enum ZoneArgument {
    /// UTC itself, which differs from the offset 0: times in UTC are printed with `UTC`.
    Utc,
    /// A fixed UTC offset in seconds: whole minutes, from -93,540 to 93,540.
    Offset(i32),
    /// A POSIX rule, not parsed yet.
    Posix(String),
    /// The name of a zone, not looked up yet.
    Name(String),
}

impl ZoneArgument {
    /// Parses the value of an option: `UTC`, ignoring case; `posix:` and a POSIX rule, which isn't checked; a text that
    /// has the form of a zone's name; or an offset, `+hh:mm` or `-hh:mm`. An offset is never mistaken for a name, since
    /// names begin with a letter.
    ///
    /// Returns `None` for any other text. Fails only if allocation fails.
    #[tactic(auto, unfolding(crate::specs::rules::ZoneArgument::zone_argument_in))]
    pub fn read(alloc: Global, text: &str) -> Result<Option<ZoneArgument>, AllocError>
        ensures value { IfOk result (λ zone. option_map shown_zone_argument zone ≡ zone_argument_in text.now) }
        ensures offset { IfOk result (λ zone. IfSome zone HasOffset) }
    {
        if is_utc_name(text) {
            return Ok(Some(ZoneArgument::Utc));
        }
        if let Some(rule) = text.strip_prefix("posix:") {
            return Ok(Some(ZoneArgument::Posix(String::from_str(alloc, rule)?)));
        }
        if is_zone_name(text.as_bytes()) {
            return Ok(Some(ZoneArgument::Name(String::from_str(alloc, text)?)));
        }
        let offset = read_offset(text.as_bytes());
        Ok(offset.map(ZoneArgument::Offset))
    }
}
