//! Parsing the zone of a timestamp.

ghost use Rattle.std.specs.Prelude.{◌≡◌};
ghost use Rattle.cal_zone.specs.rules.Setting.{setting_seen};
ghost use Rattle.cal_zone.specs.rules.Zone.{zone_of};
ghost use Rattle.cal_zone.specs.rules.ZoneTable.{zone_named};
ghost use Rattle.cal_bytes.specs.rules.Separators.{words};
ghost use Rattle.cal_stamp.specs.computed.Stamp.{zone_by_words, zone_of_word};
ghost use Rattle.cal_stamp.specs.rules.StampViews.{zone_or_fault};

use crate::StampFault;
use cal_bytes::first_word;
use cal_civil::{begins_with_letter, read_offset};
use cal_zone::{Setting, Zone, ZoneTable};

/// Parses `text` as a zone. If `text` has no words, the zone is the local zone. If it is a single word, this word must
/// be a name in the table (systemd.time(7), Parsing Timestamps) or an offset, `+hh:mm` or `-hh:mm`, which this project
/// adds to systemd's rules. A word that doesn't begin with a letter is never looked up in the table.
///
/// Fails with `NoSuchZone` if the first word begins with a letter and is not a name in the table, and with `StrayWord`
/// if the first word begins with anything else and is not an offset, or if another word follows a valid zone.
pub(crate) fn read_zone<'t>(text: &str, at: Setting<'t>) -> Result<Zone<'t>, StampFault>
    ensures { zone_or_fault result ≡ zone_by_words (setting_seen at.entry) (words text.now) }
{
    let Some((word, after)) = first_word(text) else {
        return Ok(at.local);
    };
    let zone = zone_of_word(word, at.zones)?;
    match first_word(after) {
        None => Ok(zone),
        Some(_) => Err(StampFault::StrayWord),
    }
}

/// Parses one word as a zone. If the word begins with a letter, it must be a name in the table (systemd.time(7),
/// Parsing Timestamps), or the call fails with `NoSuchZone`. Otherwise the word must be an offset, `+hh:mm` or
/// `-hh:mm`, with hh from 00 to 25 and mm from 00 to 59, or the call fails with `StrayWord`.
fn zone_of_word<'t>(word: &str, table: &'t ZoneTable) -> Result<Zone<'t>, StampFault>
    ensures { zone_or_fault result ≡ zone_of_word (zone_named table.now) word.now }
{
    if begins_with_letter(word.as_bytes()) {
        return table.find(word).ok_or(StampFault::NoSuchZone);
    }
    let seconds = read_offset(word.as_bytes()).ok_or(StampFault::StrayWord)?;
    Ok(Zone::offset(seconds))
}
