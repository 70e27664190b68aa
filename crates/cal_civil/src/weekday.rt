//! The English names of the weekdays, for parsing and printing.

ghost use Rattle.std.specs.Prelude.{◌≡◌, ◌≤◌, length};
ghost use Rattle.cal_civil.specs.rules.Weekday.{name_of, short_name_of};

use jiff_core::civil::Weekday;

/// The weekdays in order, from Monday to Sunday.
pub const WEEK: [Weekday; 7] = [
    Weekday::Monday,
    Weekday::Tuesday,
    Weekday::Wednesday,
    Weekday::Thursday,
    Weekday::Friday,
    Weekday::Saturday,
    Weekday::Sunday,
];

/// Returns the English name of a weekday (systemd.time(7), Calendar Events).
#[tactic(auto, unfolding(crate::specs::rules::Weekday::name_of))]
pub fn weekday_name(weekday: Weekday) -> &'static [u8]
    ensures { result.now ≡ name_of weekday }
{
    match weekday {
        Weekday::Monday => b"Monday",
        Weekday::Tuesday => b"Tuesday",
        Weekday::Wednesday => b"Wednesday",
        Weekday::Thursday => b"Thursday",
        Weekday::Friday => b"Friday",
        Weekday::Saturday => b"Saturday",
        Weekday::Sunday => b"Sunday",
    }
}

/// Returns the short form of a weekday's name: its first three letters. The programs print this form.
#[tactic(auto, unfolding(crate::specs::rules::Weekday::name_of))]
pub fn short_weekday_name(weekday: Weekday) -> &'static [u8]
    ensures name { result.now ≡ short_name_of weekday }
    ensures short { length result.now ≤ 3 }
{
    weekday_name(weekday).split_at(3).0
}
