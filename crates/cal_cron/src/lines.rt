//! Parsing of the five time fields of a crontab line.

ghost use Rattle.std.specs.Prelude.{◌≡◌, ◌||◌, IfOk};
ghost use Rattle.cal_bytes.specs.rules.Separators.{words};
ghost use Rattle.cal_cron.specs.computed.Lines.{LineGives, LineGivesUnlessNoMemory, line_in, line_at, in_field, shown_line, shown_texts, texts_in};
ghost use Rattle.cal_cron.specs.computed.Items.{field_in};
ghost use Rattle.cal_cron.specs.rules.CronLine.{begins_with_star};
ghost use Rattle.cal_cron.specs.computed.Schedules.{IsSchedule};

use crate::fields::read_field;
use crate::shortcuts::{LineTexts, read_shortcut};
use crate::{CronFault, CronField, CronRange, FieldFault};
use cal_bytes::first_word;
use std::alloc::Global;

/// The time fields of a crontab line.
#[derive(Drop)]
pub struct CronLine {
    pub minute: Vec<CronRange>,
    pub hour: Vec<CronRange>,
    pub day: Vec<CronRange>,
    pub month: Vec<CronRange>,
    pub weekday: Vec<CronRange>,
    /// Whether the day of the month or the weekday begins with `*`, so that both have to match.
    pub star: bool,
}

/// Parses the time fields of a crontab line: five fields, or a word such as `@daily`.
pub fn read_line(alloc: Global, text: &str) -> Result<CronLine, CronFault>
    ensures line { LineGivesUnlessNoMemory shown_line result (line_in text.now) }
    ensures sound { IfOk result (λ line. IsSchedule (shown_line line)) }
{
    read_words(alloc, text)
}

#[tactic(auto, unfolding(crate::specs::computed::Lines::line_in))]
fn read_words(alloc: Global, text: &str) -> Result<CronLine, CronFault>
    ensures { LineGivesUnlessNoMemory shown_line result (line_in text.now) }
{
    let texts = find_texts(text)?;
    read_texts(alloc, texts)
}

/// Splits the text into the five fields. A word such as `@daily` is replaced with the fields that it stands for.
fn find_texts(text: &str) -> Result<LineTexts<'_>, CronFault>
    ensures { LineGives shown_texts result (texts_in (words text.now)) }
{
    let Some((minute, rest)) = first_word(text) else {
        return Err(CronFault::FieldCount);
    };
    let Some((hour, rest)) = first_word(rest) else {
        return read_shortcut(minute.as_bytes());
    };
    let Some((day, rest)) = first_word(rest) else {
        return Err(CronFault::FieldCount);
    };
    let Some((month, rest)) = first_word(rest) else {
        return Err(CronFault::FieldCount);
    };
    let Some((weekday, rest)) = first_word(rest) else {
        return Err(CronFault::FieldCount);
    };
    if first_word(rest).is_some() {
        return Err(CronFault::FieldCount);
    }
    Ok(LineTexts {
        minute: minute.as_bytes(),
        hour: hour.as_bytes(),
        day: day.as_bytes(),
        month: month.as_bytes(),
        weekday: weekday.as_bytes(),
    })
}

#[tactic(auto, unfolding(crate::specs::computed::Lines::line_at))]
fn read_texts(alloc: Global, texts: LineTexts<'_>) -> Result<CronLine, CronFault>
    ensures { LineGivesUnlessNoMemory shown_line result (line_at (shown_texts texts.entry)) }
{
    let minute = read_one(alloc, CronField::Minute, texts.minute)?;
    let hour = read_one(alloc, CronField::Hour, texts.hour)?;
    let day = read_one(alloc, CronField::Day, texts.day)?;
    let month = read_one(alloc, CronField::Month, texts.month)?;
    let weekday = read_one(alloc, CronField::Weekday, texts.weekday)?;
    let star = begins_with_star(texts.day) || begins_with_star(texts.weekday);
    Ok(CronLine {
        minute,
        hour,
        day,
        month,
        weekday,
        star,
    })
}

fn begins_with_star(text: &[u8]) -> bool
    ensures { result ≡ begins_with_star text.now }
{
    matches!(text, [b'*', ..])
}

/// Parses a field. The error names the field.
fn read_one(alloc: Global, field: CronField, text: &[u8]) -> Result<Vec<CronRange>, CronFault>
    ensures { LineGivesUnlessNoMemory (λ ranges. ranges.items) result (in_field field (field_in field text.now)) }
{
    match read_field(alloc, field, text) {
        Ok(ranges) => Ok(ranges),
        Err(FieldFault::NoMemory) => Err(CronFault::NoMemory),
        Err(fault) => Err(CronFault::InField(field, fault)),
    }
}
