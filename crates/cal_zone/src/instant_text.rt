//! Instants as they are printed.

ghost use Rattle.std.specs.Prelude.{◌≡◌, ◌+◌, ◌<◌, ◌≤◌, decimal, ◌++◌, false, length};
ghost use Rattle.std.specs.Int.{IsInRange};
ghost use Rattle.cal_bytes.specs.rules.Puts.{Puts};
ghost use Rattle.cal_zone.specs.rules.CivilAt.{IsCivil};
ghost use Rattle.cal_zone.specs.computed.FormattedDay.{day_text};
ghost use Rattle.cal_civil.specs.rules.OffsetText.{zeros};
ghost use Rattle.cal_zone.specs.rules.InstantText.{weekday_name, instant_text, shown_text, time_text, zone_word};
ghost use Rattle.cal_bytes.specs.declared.short_text.TheConstants.{SHORT_TEXT_ROOM};

use crate::{Civil, Instant, Zone, civil};
use cal_bytes::{Fill, ShortText, Sink, WriteFault, padding, push, push_all, put_all};
use cal_civil::{push_offset, short_weekday_name};
use itoa::Buffer;
use jiff_core::civil::Weekday;

/// Appends the instant as clocks in the zone show it (systemd.time(7), Displaying Timestamps): weekday, date, time, and
/// then `UTC` for [`Zone::utc`] or the UTC offset for every other zone, even if that offset is 0.
///
/// Examples are `Sat 2020-02-29 00:00:00 UTC`, and `Thu 1970-01-01 00:53:28 +00:53:28` for an offset that isn't a whole
/// number of minutes. At most 84 bytes are appended.
#[tactic(auto, unfolding(crate::specs::rules::InstantText::instant_text))]
pub fn push_instant(text: &mut ShortText, zone: Zone, instant: Instant)
    requires room { length text.old.items + 84 ≤ SHORT_TEXT_ROOM }
    ensures text { text.new.items ≡ text.old.items ++ instant_text zone.entry instant.secs }
    ensures short { length text.new.items ≤ length text.old.items + 84 }
{
    let shown = civil(zone, instant);
    push_civil(text, &shown);
    push_zone(text, zone.is_utc(), shown.offset);
}

/// Writes the text of `instant`, as formatted by [`push_instant`].
///
/// Fails with [`WriteFault::Failed`] if and only if the sink fails; in that case, only a prefix of the text was
/// written.
pub fn write_instant<W: Sink>(out: &mut W, zone: Zone, instant: Instant) -> Result<(), WriteFault>
    requires { W.is_failed out.old ≡ false }
    ensures { Puts W.Sink out.old out.new result (instant_text zone.entry instant.secs) }
{
    let mut text = ShortText::new();
    push_instant(&mut text, zone, instant);
    put_all(out, text.as_slice())
}

/// Appends everything in a printed instant that comes before the zone: the weekday, the date and the time, each
/// followed by a space.
#[tactic(auto, unfolding(crate::specs::rules::InstantText::shown_text, crate::specs::computed::FormattedDay::day_text))]
fn push_civil(text: &mut ShortText, shown: &Civil)
    requires ranges { IsCivil shown.now }
    requires room { length text.old.items + 44 ≤ SHORT_TEXT_ROOM }
    ensures text { text.new.items ≡ text.old.items ++ shown_text shown.now }
    ensures short { length text.new.items ≤ length text.old.items + 44 }
{
    push_day(text, shown);
    push_time(text, shown.hour, shown.minute, shown.second);
    push(text, b" ");
}

/// Appends the weekday and the date, each followed by a space: `Sat 2020-02-29 `.
#[tactic(auto, unfolding(crate::specs::computed::FormattedDay::day_text, crate::specs::rules::InstantText::date_text))]
pub(crate) fn push_day(text: &mut ShortText, shown: &Civil)
    requires ranges { IsCivil shown.now }
    requires room { length text.old.items + 26 ≤ SHORT_TEXT_ROOM }
    ensures text { text.new.items ≡ text.old.items ++ day_text shown.now }
    ensures short { length text.new.items ≤ length text.old.items + 26 }
{
    let (mut years, mut months, mut days) = (Buffer::new(), Buffer::new(), Buffer::new());
    let year = years.format(shown.year.unsigned_abs());
    let month = months.format(shown.month);
    let day = days.format(shown.day);
    push_all(
        text,
        &[
            short_name(shown.weekday),
            b" ",
            padding(year, 4, Fill::Zero),
            year.as_bytes(),
            b"-",
            padding(month, 2, Fill::Zero),
            month.as_bytes(),
            b"-",
            padding(day, 2, Fill::Zero),
            day.as_bytes(),
            b" ",
        ],
    );
}

/// Appends a time of day, such as `09:30:00`.
#[tactic(auto, unfolding(crate::specs::rules::InstantText::time_text))]
pub(crate) fn push_time(text: &mut ShortText, hour: u8, minute: u8, second: u8)
    requires hour { hour < 100 }
    requires minute { minute < 100 }
    requires second { second < 100 }
    requires room { length text.old.items + 8 ≤ SHORT_TEXT_ROOM }
    ensures text { text.new.items ≡ text.old.items ++ time_text hour minute second }
    ensures short { length text.new.items ≤ length text.old.items + 8 }
{
    let (hour, minute, second) = (two_digits(hour), two_digits(minute), two_digits(second));
    push(
        text,
        &[
            hour[0], hour[1], b':', minute[0], minute[1], b':', second[0], second[1],
        ],
    );
}

/// Formats a number below 100 with two digits. The digits are the last two of `100 + number`, so that numbers below 10
/// get a leading zero.
#[tactic(auto, using(jiff::proofs::SpanFacts::signed_arith, crate::proofs::DigitLemmas::hundred_more, crate::proofs::DigitLemmas::two_digits_are))]
fn two_digits(number: u8) -> [u8; 2]
    requires { number < 100 }
    ensures { result ≡ zeros 2 number ++ decimal number }
{
    let mut buffer = Buffer::new();
    let digits = buffer.format(100 + number).as_bytes();
    [digits[1], digits[2]]
}

/// Appends the last word of a printed instant: `UTC` if `is_utc`, and otherwise the UTC offset.
#[tactic(auto, unfolding(crate::specs::rules::InstantText::zone_word))]
pub(crate) fn push_zone(text: &mut ShortText, is_utc: bool, offset: i32)
    requires room { length text.old.items + 40 ≤ SHORT_TEXT_ROOM }
    ensures text { text.new.items ≡ text.old.items ++ zone_word is_utc offset }
    ensures short { length text.new.items ≤ length text.old.items + 40 }
{
    if is_utc {
        push_all(text, &[b"UTC"]);
    } else {
        push_offset(text, offset);
    }
}

/// Returns the short English name of a weekday, 1 (Monday) to 7 (Sunday).
#[tactic(auto, using(crate::proofs::WeekdayLemmas::numbered))]
fn short_name<'a>(weekday: u8) -> &'a [u8]
    requires { IsInRange 1 7 weekday }
    ensures name { result.now ≡ weekday_name weekday }
    ensures short { length result.now ≤ 3 }
{
    short_weekday_name(Weekday::from_index(weekday - 1))
}
