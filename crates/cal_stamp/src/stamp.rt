//! Parsing timestamps.

ghost use Rattle.std.specs.Prelude.{◌≡◌};
ghost use Rattle.cal_zone.specs.rules.Setting.{setting_seen};
ghost use Rattle.cal_zone.specs.rules.Zone.{zone_of};
ghost use Rattle.cal_zone.specs.rules.ZoneTable.{zone_named};
ghost use Rattle.cal_stamp.specs.computed.Stamp.{moment_in};
ghost use Rattle.cal_stamp.specs.rules.StampViews.{setting, micros_or_fault};

use crate::StampFault;
use crate::civil::{moment_of_civil_stamp, read_civil};
use crate::form::{Form, form_of};
use crate::moment::{
    after_second, before_second, micros_of, moment_of, relative_day_number, settle_on,
};
use crate::zone::read_zone;
use cal_span::read_span;
use cal_zone::{Instant, Moment, Setting, Zone, ZoneTable};

/// Parses a timestamp and returns the moment that it stands for (systemd.time(7), Parsing Timestamps).
///
/// Leading and trailing blanks are ignored. `text` is parsed in the first of these forms that matches:
///
/// - nothing, or only blanks, which is the error `Empty`;
/// - `now`;
/// - a time span after `+`, `-` or `@`, or before `left` or `ago`;
/// - `today`, `yesterday` or `tomorrow` as the first word, and a zone if one is given;
/// - `[weekday] [date] [time] [zone]`, with at least a date or a time, for any other text.
///
/// A zone is a name in `table`, or an offset, `+hh:mm` or `-hh:mm`, with hh from 00 to 25 and mm from 00 to 59. If none
/// is given, the zone is `local`.
///
/// If several words are invalid, the leftmost error is reported. `WrongWeekday` is reported only if all words are
/// valid, and `OutOfRange` only if there is no other error.
pub fn read_stamp(
    text: &str,
    now: Instant,
    local: Zone<'_>,
    table: &ZoneTable,
) -> Result<Moment, StampFault>
    ensures { micros_or_fault result
        ≡ moment_in now.secs (setting (zone_of local.entry) (zone_named table.now)) text.now }
{
    let setting = Setting {
        now,
        local,
        zones: table,
    };
    read_stamp_in(text, setting)
}

/// Parses a timestamp as [`read_stamp`] does, with the present and the zones of a setting.
#[tactic(auto, unfolding(crate::specs::computed::Stamp::moment_in))]
pub fn read_stamp_in(text: &str, setting: Setting<'_>) -> Result<Moment, StampFault>
    ensures { micros_or_fault result ≡ moment_in setting.entry.now.secs (setting_seen setting.entry) text.now }
{
    let now = setting.now;
    match form_of(text) {
        Form::Nothing => Err(StampFault::Empty),
        Form::Present => moment_of(micros_of(now.secs())),
        Form::Later(span) => after_second(now.secs(), read_span(span)?),
        Form::Earlier(span) => before_second(now.secs(), read_span(span)?),
        Form::Counted(span) => after_second(0, read_span(span)?),
        Form::Midnight(day, after) => {
            let zone = read_zone(after, setting)?;
            settle_on(zone, relative_day_number(now, zone, day), 0)
        }
        Form::Civil(text) => {
            let stamp = read_civil(text, setting)?;
            moment_of_civil_stamp(now, stamp)
        }
    }
}
