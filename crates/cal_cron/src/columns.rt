//! Where in a crontab line an invalid field begins.

ghost use Rattle.std.specs.Prelude.{◌≡◌, ◌<◌, ◌≤◌, length, slice_index, true};
ghost use Rattle.cal_bytes.specs.rules.Separators.{is_blank};
ghost use Rattle.cal_cron.specs.rules.CronMessages.{fault_start, fields_end, word_end, word_start};

use crate::{CronFault, CronField};
use cal_bytes::{blanks_in_front, word_len};

/// Returns the index of the byte at which the invalid field begins, for the error with which [`crate::read_cron`] fails
/// for this text. If the error isn't in a field, returns the index of the first byte that isn't a blank.
pub fn fault_start(text: &str, fault: CronFault) -> usize
    ensures value { result ≡ fault_start text.now fault }
    ensures within { result ≤ length text.now }
{
    let text = text.as_bytes();
    match fault {
        CronFault::InField(field, _) => word_start(text, fields_end(text, field)),
        _ => word_start(text, 0),
    }
}

/// Returns the index directly after the field before `field`, or 0 for the minute, which is the first field.
pub(crate) fn fields_end(text: &[u8], field: CronField) -> usize
    ensures value { result ≡ fields_end text.now field }
    ensures within { result ≤ length text.now }
{
    let minute_end = word_end(text, 0);
    let hour_end = word_end(text, minute_end);
    let day_end = word_end(text, hour_end);
    match field {
        CronField::Minute => 0,
        CronField::Hour => minute_end,
        CronField::Day => hour_end,
        CronField::Month => day_end,
        CronField::Weekday => word_end(text, day_end),
    }
}

/// Returns the index of the first byte at or after `from` that isn't a blank, or the length of the text.
pub(crate) fn word_start(text: &[u8], from: usize) -> usize
    requires { from ≤ length text.now }
    ensures value { result ≡ word_start text.now from }
    ensures within { result ≤ length text.now }
{
    from + blanks_in_front(&text[from..])
}

/// Returns the index directly after the first word that begins at or after `from`, or the length of the text if there
/// is no such word.
pub(crate) fn word_end(text: &[u8], from: usize) -> usize
    requires { from ≤ length text.now }
    ensures value { result ≡ word_end text.now from }
    ensures within { result ≤ length text.now }
    ensures ends { result < length text.now → is_blank (slice_index text.now result) ≡ true }
{
    let start = word_start(text, from);
    start + word_len(&text[start..])
}
