//! The zone at the end of a calendar expression.

ghost use Rattle.std.specs.Prelude.{◌≡◌};
ghost use Rattle.std.specs.Option.{option_map};
ghost use Rattle.cal_spec.specs.computed.Reads.{GivesUnlessNoMemory};
ghost use Rattle.cal_spec.specs.computed.Views.{shown_suffix};
ghost use Rattle.cal_bytes.specs.rules.Separators.{words};
ghost use Rattle.cal_spec.specs.computed.ParsedSuffix.{suffix_in};
ghost use Rattle.cal_spec.specs.rules.ZoneSuffix.{kept_name};

use crate::SpecFault;
use cal_bytes::first_word;
use cal_civil::{is_utc_name, is_zone_name, read_offset};
use std::alloc::Global;

/// The zone in which an expression is interpreted.
#[derive(PartialEq, Eq, Debug, Drop)]
pub enum ZoneSuffix {
    /// The zone with this name, which hasn't been looked up. `UTC` is in upper case, however it was written.
    Name(String),
    /// A fixed UTC offset in seconds.
    Offset(i32),
}

/// Parses the text after the weekdays, date and time: it is blank, the name of a zone (systemd.time(7), Calendar
/// Events), or a UTC offset. Fails with `StrayWord` if it is anything else. UTC offsets are this project's addition:
/// systemd doesn't accept them.
#[tactic(auto, unfolding(crate::specs::computed::ParsedSuffix::suffix_of))]
pub(crate) fn read_suffix(alloc: Global, text: &str) -> Result<Option<ZoneSuffix>, SpecFault>
    ensures { GivesUnlessNoMemory (λ suffix. option_map shown_suffix suffix) result (suffix_in (words text.now)) }
{
    let Some((word, after)) = first_word(text) else {
        return Ok(None);
    };
    if first_word(after).is_some() {
        return Err(SpecFault::StrayWord);
    }
    if is_zone_name(word.as_bytes()) {
        let name = String::from_str(alloc, name_of(word))?;
        return Ok(Some(ZoneSuffix::Name(name)));
    }
    match read_offset(word.as_bytes()) {
        Some(seconds) => Ok(Some(ZoneSuffix::Offset(seconds))),
        None => Err(SpecFault::StrayWord),
    }
}

/// Returns the name to store: `UTC` if the word is `UTC` in any case, and otherwise the word itself.
fn name_of(word: &str) -> &str
    ensures { result.now ≡ kept_name word.now }
{
    if is_utc_name(word) { "UTC" } else { word }
}
