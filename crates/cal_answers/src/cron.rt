//! The verb `cron`: the entries of crontabs as settings of timers.

ghost use Rattle.std.specs.Prelude.{◌≡◌, ◌≤◌, IfOk, map, string_bytes};
ghost use Rattle.cal_crontabs.specs.rules.Entries.{entry_seen};
ghost use Rattle.cal_answers.specs.rules.Output.{IsCronAnswer, cron_output};
ghost use Rattle.cal_answers.specs.rules.Printed.{printed_of};

use crate::answer::{Answer, Context, status_by};
use crate::index::with_unreadable;
use cal_crontabs::{CronEntry, Crontabs, cron_report, entries_json, entries_text, times_are_read};
use std::alloc::{AllocError, Global};

/// Returns the entries of the crontabs, with an error line for each invalid entry, and for each file or folder that can't
/// be read.
pub(crate) fn cron(
    alloc: Global,
    context: Context<'_>,
    crontabs: &Crontabs,
) -> Result<Answer, AllocError>
    ensures status { IfOk result (λ answer. answer.status ≤ 2) }
    ensures answer { IfOk result (λ answer. IsCronAnswer context.entry crontabs.now (printed_of answer)) }
{
    times_are_read();
    let report = cron_report(alloc, crontabs.crontabs.as_slice())?;
    let out = cron_output(alloc, context, report.entries.as_slice())?;
    let err = report.errors;
    let status = status_by(err.as_str());
    with_unreadable(
        alloc,
        crontabs.faults.as_slice(),
        Answer { out, err, status },
    )
}

fn cron_output(
    alloc: Global,
    context: Context<'_>,
    entries: &[CronEntry<'_>],
) -> Result<String, AllocError>
    ensures { IfOk result (λ out. string_bytes out ≡ cron_output context.entry (map entry_seen entries.now)) }
{
    if context.is_json {
        entries_json(alloc, entries)
    } else {
        entries_text(alloc, entries)
    }
}
