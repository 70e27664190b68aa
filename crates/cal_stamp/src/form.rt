//! The forms of a timestamp, and finding the form that a text has.

ghost use Rattle.std.specs.Prelude.{◌≡◌};
ghost use Rattle.std.specs.Option.{option_map};
ghost use Rattle.cal_stamp.specs.computed.StampForm.{day_shift, form_by_end, form_of};
ghost use Rattle.cal_stamp.specs.rules.StampViews.{form_seen, shift_of};

use crate::text::{before_word, text_after_first};
use cal_bytes::{first_word, trim_blanks};

/// A day relative to the present day in the zone of the timestamp.
#[derive(Clone, Copy)]
pub(crate) enum RelativeDay {
    Yesterday,
    Today,
    Tomorrow,
}

/// The form of a timestamp, with the texts of its parts, which are not parsed yet.
#[derive(Clone, Copy)]
pub(crate) enum Form<'a> {
    /// An empty or blank timestamp.
    Nothing,
    /// The present: `now`.
    Present,
    /// The present plus a time span: the text after `+` or before `left`.
    Later(&'a str),
    /// The present minus a time span: the text after `-` or before `ago`.
    Earlier(&'a str),
    /// 1970-01-01 00:00:00 UTC plus a time span: the text after `@`.
    Counted(&'a str),
    /// The midnight at which this day begins, and the text after the name of the day, which is parsed as a zone.
    Midnight(RelativeDay, &'a str),
    /// Any other text, which is parsed as a civil time: `[weekday] [date] [time] [zone]`.
    Civil(&'a str),
}

/// Returns the first form that matches a timestamp (systemd.time(7), Parsing Timestamps).
#[tactic(auto, unfolding(crate::specs::computed::StampForm::form_of))]
pub(crate) fn form_of(text: &str) -> Form<'_>
    ensures { form_seen result ≡ form_of text.now }
{
    let text = trim_blanks(text);
    if text == "now" {
        return Form::Present;
    }
    match text.as_bytes() {
        [] => Form::Nothing,
        [b'+', ..] => Form::Later(text_after_first(text)),
        [b'-', ..] => Form::Earlier(text_after_first(text)),
        [b'@', ..] => Form::Counted(text_after_first(text)),
        [_, ..] => form_by_end(text),
    }
}

/// Returns the form of a timestamp that has no leading or trailing blanks, is neither empty nor `now`, and doesn't
/// begin with `+`, `-` or `@`.
#[tactic(auto, unfolding(crate::specs::computed::StampForm::form_by_end))]
fn form_by_end(text: &str) -> Form<'_>
    ensures { form_seen result ≡ form_by_end text.now }
{
    if let Some(span) = before_word("left", text) {
        return Form::Later(span);
    }
    if let Some(span) = before_word("ago", text) {
        return Form::Earlier(span);
    }
    let Some((word, after)) = first_word(text) else {
        return Form::Civil(text);
    };
    match read_relative_day(word) {
        Some(day) => Form::Midnight(day, after),
        None => Form::Civil(text),
    }
}

/// Parses `today`, `yesterday` or `tomorrow`. Returns `None` for anything else.
#[tactic(auto, unfolding(crate::specs::computed::StampForm::day_shift))]
fn read_relative_day(word: &str) -> Option<RelativeDay>
    ensures { option_map shift_of result ≡ day_shift word.now }
{
    match word {
        "today" => Some(RelativeDay::Today),
        "yesterday" => Some(RelativeDay::Yesterday),
        "tomorrow" => Some(RelativeDay::Tomorrow),
        _ => None,
    }
}
