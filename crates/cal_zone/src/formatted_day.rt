//! Days on a zone's clock, with the parts of the printed text that are the same for all instants of one day.

ghost use Rattle.std.specs.Prelude.{◌≡◌, ◌+◌, ◌*◌, ◌≤◌, ◌++◌, ◌-ℤ◌, ◌≤ℤ◌, ◌<ℤ◌, length, pos};
ghost use Rattle.jiff.specs.Words.{IsBetween};
ghost use Rattle.cal_bytes.specs.declared.short_text.TheConstants.{SHORT_TEXT_ROOM};
ghost use Rattle.cal_zone.specs.computed.InstantOffsetRange.{IsInstantOffsetRangeAt};
ghost use Rattle.cal_zone.specs.computed.FormattedDay.{HasShortTexts, IsFormattedDay, text_on};
ghost use Rattle.cal_zone.specs.rules.Zone.{zone_of};

use crate::civil_time::civil_at;
use crate::instant_offset_range::InstantOffsetRange;
use crate::instant_text::{push_day, push_time, push_zone};
use crate::{Civil, Instant, Zone};
use cal_bytes::{ShortText, push};
use cal_civil::DAY;

/// The instants `from..to`, all on one day of a zone's clock and at one UTC offset.
///
/// The text of each of these instants consists of `day` (the weekday and the date, each followed by a space), the time
/// of day (computed from the seconds since `midnight`) and `word` (a space and the zone).
#[derive(Drop)]
pub(crate) struct FormattedDay {
    pub(crate) from: i64,
    pub(crate) to: i64,
    midnight: i64,
    day: ShortText,
    word: ShortText,
}

impl FormattedDay {
    /// Creates a day that contains no instants.
    pub(crate) fn empty() -> FormattedDay
        ensures from { result.from ≡ pos 0 }
        ensures to { result.to ≡ pos 0 }
        ensures short { HasShortTexts result }
    {
        FormattedDay {
            from: 0,
            to: 0,
            midnight: 0,
            day: ShortText::new(),
            word: ShortText::new(),
        }
    }

    /// Returns the day of the zone's clock that contains `instant`, limited to `range`. The caller guarantees that
    /// `range` contains `instant` and has a constant UTC offset.
    pub(crate) fn of(zone: Zone, range: InstantOffsetRange, instant: Instant) -> FormattedDay
        requires { IsInstantOffsetRangeAt (zone_of zone) instant.secs range }
        ensures day { IsFormattedDay zone.entry result }
        ensures begun { result.from ≤ℤ instant.secs }
        ensures within { instant.secs <ℤ result.to }
    {
        let shown = civil_at(range.offset, instant);
        let midnight = instant.secs() - since_midnight(&shown);
        let (mut day, mut word) = (ShortText::new(), ShortText::new());
        push_day(&mut day, &shown);
        push(&mut word, b" ");
        push_zone(&mut word, zone.is_utc(), shown.offset);
        FormattedDay {
            from: range.from.max(midnight),
            to: range.to.min(midnight + DAY),
            midnight,
            day,
            word,
        }
    }

    /// Appends the text of `second`, an instant of this day: at most 84 bytes.
    pub(crate) fn push(&self, text: &mut ShortText, second: i64)
        requires short { HasShortTexts self.now }
        requires day { IsBetween (pos 0) (pos 86_399) (second -ℤ self.now.midnight) }
        requires room { length text.old.items + 84 ≤ SHORT_TEXT_ROOM }
        ensures text { text.new.items ≡ text.old.items ++ text_on self.now second }
        ensures short { length text.new.items ≤ length text.old.items + 84 }
    {
        let time = (second - self.midnight) as u32;
        push(text, self.day.as_slice());
        push_time(
            text,
            (time / 3_600) as u8,
            (time / 60 % 60) as u8,
            (time % 60) as u8,
        );
        push(text, self.word.as_slice());
    }
}

fn since_midnight(shown: &Civil) -> i64
    ensures { result ≡ pos (shown.now.hour * 3_600 + shown.now.minute * 60 + shown.now.second) }
{
    i64::from(shown.hour) * 3_600 + i64::from(shown.minute) * 60 + i64::from(shown.second)
}
