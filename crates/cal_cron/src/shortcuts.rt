//! The words that stand for five fields, such as `@daily`.

ghost use Rattle.std.specs.Prelude.{◌≡◌, option_map};
ghost use Rattle.cal_cron.specs.computed.Lines.{shortcut_in, LineGives, shown_texts};
ghost use Rattle.cal_cron.specs.rules.CronLine.{begins_with_at, shortcut_named};

use crate::CronFault;

/// The texts of the five fields.
#[derive(Clone, Copy)]
pub(crate) struct LineTexts<'a> {
    pub minute: &'a [u8],
    pub hour: &'a [u8],
    pub day: &'a [u8],
    pub month: &'a [u8],
    pub weekday: &'a [u8],
}

/// Returns the fields that the word stands for. Fails with [`CronFault::Reboot`] for `@reboot`, with
/// [`CronFault::UnknownShortcut`] for an unknown word that begins with `@`, and with [`CronFault::FieldCount`] for a
/// word that doesn't begin with `@`.
#[tactic(auto, unfolding(crate::specs::computed::Lines::shortcut_in))]
pub(crate) fn read_shortcut(word: &[u8]) -> Result<LineTexts<'static>, CronFault>
    ensures { LineGives shown_texts result (shortcut_in word.now) }
{
    match shortcut_named(word) {
        Some(texts) => Ok(texts),
        None if word == b"@reboot".as_slice() => Err(CronFault::Reboot),
        None if begins_with_at(word) => Err(CronFault::UnknownShortcut),
        None => Err(CronFault::FieldCount),
    }
}

pub(crate) fn begins_with_at(word: &[u8]) -> bool
    ensures { result ≡ begins_with_at word.now }
{
    matches!(word, [b'@', ..])
}

/// Returns the fields that the word stands for, or `None` if the word doesn't stand for fields.
fn shortcut_named(word: &[u8]) -> Option<LineTexts<'static>>
    ensures { option_map shown_texts result ≡ shortcut_named word.now }
{
    if word == b"@yearly".as_slice() || word == b"@annually".as_slice() {
        Some(texts_at(b"0", b"0", b"1", b"1", b"*"))
    } else if word == b"@monthly".as_slice() {
        Some(texts_at(b"0", b"0", b"1", b"*", b"*"))
    } else if word == b"@weekly".as_slice() {
        Some(texts_at(b"0", b"0", b"*", b"*", b"0"))
    } else if word == b"@daily".as_slice() || word == b"@midnight".as_slice() {
        Some(texts_at(b"0", b"0", b"*", b"*", b"*"))
    } else if word == b"@hourly".as_slice() {
        Some(texts_at(b"0", b"*", b"*", b"*", b"*"))
    } else {
        None
    }
}

fn texts_at(
    minute: &'static [u8],
    hour: &'static [u8],
    day: &'static [u8],
    month: &'static [u8],
    weekday: &'static [u8],
) -> LineTexts<'static>
    ensures { shown_texts result
        ≡ record { minute = minute.now; hour = hour.now; day = day.now; month = month.now; weekday = weekday.now } }
{
    LineTexts {
        minute,
        hour,
        day,
        month,
        weekday,
    }
}
