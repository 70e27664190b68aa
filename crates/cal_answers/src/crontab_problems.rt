//! The problems of crontabs: invalid entries, entries that never run, and entries that run on more days than people
//! usually mean.

ghost use Rattle.std.specs.Prelude.{◌≡◌, OnOk, map};
ghost use Rattle.cal_crontabs.specs.rules.Findings.{finding_seen};
ghost use Rattle.cal_answers.specs.rules.LintCrontabs.{HasCrontabs, listed_cron, with_problems};
ghost use Rattle.cal_answers.specs.rules.LintRows.{listed_in};

use crate::problems::Problems;
use cal_crontabs::{CronFinding, Crontab, cron_findings, times_are_read, unused_entries_are_found};
use cal_timers_report::Style;
use std::alloc::{AllocError, Global};

/// Adds the problems of the crontabs, except those that are listed already because a crontab is named twice.
pub(crate) fn add_crontabs(
    alloc: Global,
    style: Style,
    crontabs: &[Crontab],
    problems: &mut Problems,
) -> Result<(), AllocError>
    ensures { OnOk result (HasCrontabs style crontabs.now (listed_in problems.old) (listed_in problems.new)) }
{
    times_are_read();
    unused_entries_are_found();
    let found = cron_findings(alloc, crontabs)?;
    add_findings(alloc, style, found.as_slice(), problems)?;
    Ok(())
}

fn add_findings(
    alloc: Global,
    style: Style,
    found: &[CronFinding<'_>],
    problems: &mut Problems,
) -> Result<(), AllocError>
    ensures { OnOk result (listed_in problems.new
        ≡ with_problems (listed_in problems.old) (map (listed_cron style) (map finding_seen found.now))) }
{
    for finding in found {
        problems.add_cron_finding(alloc, style, finding)?;
    }
    Ok(())
}
