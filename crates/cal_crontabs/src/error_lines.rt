//! The error lines about invalid entries.

ghost use Rattle.std.specs.Prelude.{◌≡◌, ◌++◌, OnOk, string_bytes};
ghost use Rattle.cal_cron.specs.computed.CrontabViews.{fault_shown};
ghost use Rattle.cal_crontabs.specs.rules.ErrorLines.{error_line};

use cal_cron::LineFault;
use cal_timers_report::push_printable;
use std::alloc::AllocError;

/// Appends the error line about an entry: the name of its crontab, the number of its line, the column and the message.
pub(crate) fn push_error_line(
    out: &mut String,
    name: &str,
    line: u32,
    fault: LineFault,
) -> Result<(), AllocError>
    ensures { OnOk result (string_bytes out.new ≡ string_bytes out.old ++ error_line name.now line (fault_shown fault)) }
{
    let column = fault.column;
    push_printable(out, name)?;
    write!(out, ":{line}:{column}: error: ")?;
    fault.fault.push_words(out)?;
    out.push('\n')
}
