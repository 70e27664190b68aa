//! Shorthands for common calendar expressions.

ghost use Rattle.std.specs.Prelude.{◌≡◌, map};
ghost use Rattle.std.specs.List.{find, list_any};
ghost use Rattle.std.specs.Str.{str_eq_ignore_ascii_case};
ghost use Rattle.cal_spec.specs.rules.Shorthand.{dates, times, names_of, expansion_of, shorthand_named};
ghost use Rattle.cal_spec.specs.computed.Views.{shown_expansion};

use crate::pieces::is_same_word;

/// The date that is used if an expression has none.
pub(crate) const ANY_DATE: &[u8] = b"*-*-*";

/// The time that is used if an expression has none.
pub(crate) const MIDNIGHT: &[u8] = b"00:00:00";

/// A word that stands for the weekdays, date and time of an expression (systemd.time(7), Calendar Events).
#[derive(Clone, Copy, PartialEq, Eq, Debug)]
pub(crate) enum Shorthand {
    Minutely,
    Hourly,
    Daily,
    Weekly,
    Monthly,
    Quarterly,
    Semiannually,
    Yearly,
}

/// The weekdays, date and time that a shorthand stands for, not yet parsed.
#[derive(Clone, Copy)]
pub(crate) struct ShorthandExpansion {
    pub(crate) weekdays: Option<&'static [u8]>,
    pub(crate) date: &'static [u8],
    pub(crate) time: &'static [u8],
}

impl Shorthand {
    const ALL: [Shorthand; 8] = [
        Shorthand::Minutely,
        Shorthand::Hourly,
        Shorthand::Daily,
        Shorthand::Weekly,
        Shorthand::Monthly,
        Shorthand::Quarterly,
        Shorthand::Semiannually,
        Shorthand::Yearly,
    ];

    /// Returns the names of the shorthand in lower case. Case is ignored when they are looked up.
    fn names(self) -> &'static [&'static [u8]]
        ensures { map (λ name. name.now) result.now ≡ names_of self }
    {
        match self {
            Shorthand::Minutely => &[b"minutely"],
            Shorthand::Hourly => &[b"hourly"],
            Shorthand::Daily => &[b"daily"],
            Shorthand::Weekly => &[b"weekly"],
            Shorthand::Monthly => &[b"monthly"],
            Shorthand::Quarterly => &[b"quarterly"],
            Shorthand::Semiannually => &[
                b"semiannually",
                b"semi-annually",
                b"biannually",
                b"bi-annually",
            ],
            Shorthand::Yearly => &[b"yearly", b"annually"],
        }
    }

    /// Returns the weekdays, date and time that the shorthand stands for.
    pub(crate) fn expansion(self) -> ShorthandExpansion
        ensures { shown_expansion result ≡ expansion_of self }
    {
        match self {
            Shorthand::Minutely => times(b"*:*:00"),
            Shorthand::Hourly => times(b"*:00:00"),
            Shorthand::Daily => dates(ANY_DATE),
            Shorthand::Weekly => ShorthandExpansion {
                weekdays: Some(b"Mon"),
                date: ANY_DATE,
                time: MIDNIGHT,
            },
            Shorthand::Monthly => dates(b"*-*-01"),
            Shorthand::Quarterly => dates(b"*-01,04,07,10-01"),
            Shorthand::Semiannually => dates(b"*-01,07-01"),
            Shorthand::Yearly => dates(b"*-01-01"),
        }
    }
}

/// Returns the shorthand with this name, ignoring case, or `None` if there is none.
#[tactic(auto, unfolding(crate::specs::rules::Shorthand::shorthand_named))]
pub(crate) fn find_shorthand(word: &[u8]) -> Option<Shorthand>
    ensures { result ≡ shorthand_named word.now }
{
    find_named(&Shorthand::ALL, word)
}

/// Returns the expansion "on these dates at midnight".
fn dates(date: &'static [u8]) -> ShorthandExpansion
    ensures { shown_expansion result ≡ dates date.now }
{
    ShorthandExpansion {
        weekdays: None,
        date,
        time: MIDNIGHT,
    }
}

/// Returns the expansion "every day at these times".
fn times(time: &'static [u8]) -> ShorthandExpansion
    ensures { shown_expansion result ≡ times time.now }
{
    ShorthandExpansion {
        weekdays: None,
        date: ANY_DATE,
        time,
    }
}

fn find_named(shorthands: &[Shorthand], word: &[u8]) -> Option<Shorthand>
    ensures { result
        ≡ find (λ shorthand. list_any (str_eq_ignore_ascii_case word.now) (names_of shorthand)) shorthands.now }
{
    shorthands
        .iter()
        .copied()
        .find(|shorthand| is_named(shorthand.names(), word))
}

/// Returns whether `word` equals one of the names, ignoring case.
fn is_named(names: &[&[u8]], word: &[u8]) -> bool
    ensures { result ≡ list_any (str_eq_ignore_ascii_case word.now) (map (λ name. name.now) names.now) }
{
    for name in names {
        if is_same_word(word, name) {
            return true;
        }
    }
    false
}
