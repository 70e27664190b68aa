//! Recognition of the weekdays, the date, the time and the zone among the words of an expression. What a word is
//! depends on its position, on its first character, on whether it contains a colon, and on whether it is a shorthand.

ghost use Rattle.std.specs.Prelude.{◌≡◌};
ghost use Rattle.std.specs.Option.{option_copied, option_map};
ghost use Rattle.cal_spec.specs.computed.Views.{shown_word_roles};
ghost use Rattle.cal_spec.specs.computed.Words.{roles_after_date, after_weekdays, date_or_time, roles_of};
ghost use Rattle.cal_bytes.specs.rules.Separators.{words};

use crate::shorthand::{ANY_DATE, MIDNIGHT, find_shorthand};
use cal_bytes::first_word;
use cal_civil::{begins_with_letter, begins_zone};

/// The weekdays, date and time of an expression, not yet parsed, and the text after them.
#[derive(Clone, Copy)]
pub(crate) struct WordRoles<'a> {
    /// The weekday list, if there is one.
    pub(crate) weekdays: Option<&'a [u8]>,
    /// The date, or `*-*-*` if the expression has none.
    pub(crate) date: &'a [u8],
    /// The time, or `00:00:00` if the expression has none.
    pub(crate) time: &'a [u8],
    /// The text after the weekdays, date and time. If the expression is valid, this text has at most one word, the
    /// zone.
    pub(crate) rest: &'a str,
}

/// Determines which words of an expression are its weekdays, date and time (systemd.time(7), Calendar Events). Returns
/// `None` if there are no words. A shorthand is replaced by what it stands for.
#[tactic(auto, unfolding(crate::specs::computed::Words::roles_of))]
pub(crate) fn find_word_roles(text: &str) -> Option<WordRoles<'_>>
    ensures { option_map shown_word_roles result ≡ roles_of (words text.now) }
{
    let (word, after) = first_word(text)?;
    let word = word.as_bytes();
    if let Some(shorthand) = find_shorthand(word) {
        let expansion = shorthand.expansion();
        return Some(WordRoles {
            weekdays: expansion.weekdays,
            date: expansion.date,
            time: expansion.time,
            rest: after,
        });
    }
    if begins_with_letter(word) {
        return Some(after_weekdays(Some(word), after));
    }
    Some(date_or_time(None, word, after))
}

/// Determines what the words after the weekdays are. If the first of them begins with a letter, `+` or `-`, it is a
/// zone. Otherwise it is the date or the time.
fn after_weekdays<'a>(weekdays: Option<&'a [u8]>, text: &'a str) -> WordRoles<'a>
    ensures { shown_word_roles result ≡ after_weekdays (option_copied weekdays.entry) (words text.now) }
{
    match first_word(text) {
        Some((word, rest)) if !begins_zone(word.as_bytes()) => {
            date_or_time(weekdays, word.as_bytes(), rest)
        }
        _ => WordRoles {
            weekdays,
            date: ANY_DATE,
            time: MIDNIGHT,
            rest: text,
        },
    }
}

/// Determines what `word` and the words after it are. If `word` contains a colon, it is the time and there is no date.
/// Otherwise it is the date.
fn date_or_time<'a>(weekdays: Option<&'a [u8]>, word: &'a [u8], rest: &'a str) -> WordRoles<'a>
    ensures { shown_word_roles result
        ≡ date_or_time (option_copied weekdays.entry) word.now (words rest.now) }
{
    if word.contains(&b':') {
        return WordRoles {
            weekdays,
            date: ANY_DATE,
            time: word,
            rest,
        };
    }
    after_date(weekdays, word, rest)
}

/// Determines what the words after the date are. If the first of them begins with a letter, `+` or `-`, it is a zone.
/// Otherwise it is the time.
fn after_date<'a>(weekdays: Option<&'a [u8]>, date: &'a [u8], text: &'a str) -> WordRoles<'a>
    ensures { shown_word_roles result
        ≡ roles_after_date (option_copied weekdays.entry) date.now (words text.now) }
{
    match first_word(text) {
        Some((time, rest)) if !begins_zone(time.as_bytes()) => WordRoles {
            weekdays,
            date,
            time: time.as_bytes(),
            rest,
        },
        _ => WordRoles {
            weekdays,
            date,
            time: MIDNIGHT,
            rest: text,
        },
    }
}
