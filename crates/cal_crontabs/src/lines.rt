//! The lines of a crontab, and the maximum size of its text.

ghost use Rattle.std.specs.Prelude.{◌≡◌, IfOk, map};
ghost use Rattle.cal_cron.specs.computed.CrontabViews.{line_shown};
ghost use Rattle.cal_cron.specs.computed.Translation.{exprs_in};
ghost use Rattle.cal_crontabs.specs.rules.Entries.{lines_of};

use cal_cron::{CrontabFormat, CrontabLine, read_crontab};
use std::alloc::{AllocError, Global};

/// The maximum size of the text of a crontab, in bytes. A file has at most 1,048,576 bytes, and each byte that isn't
/// UTF-8 is replaced by at most three bytes. No argument is longer on Linux (`MAX_ARG_STRLEN`, execve(2)).
const MAX_TEXT: usize = 3 * 1_048_576;

/// Returns the lines of a crontab that aren't blank and aren't comments. Returns no lines if the text is longer than
/// [`MAX_TEXT`], which doesn't occur. Fails only if allocation fails.
#[tactic(auto, unfolding(crate::specs::rules::Entries::lines_of))]
pub(crate) fn lines_of<'t>(
    alloc: Global,
    format: CrontabFormat,
    text: &'t str,
) -> Result<Vec<CrontabLine<'t>>, AllocError>
    ensures { IfOk result (λ lines. map line_shown lines.items ≡ lines_of exprs_in format text.now) }
{
    if text.len() > MAX_TEXT {
        return Ok(Vec::new(alloc));
    }
    read_crontab(alloc, format, text)
}
