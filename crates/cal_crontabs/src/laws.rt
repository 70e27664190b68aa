//! Laws about the time fields of entries. Each law is a function with an empty body, whose contract states the law.

ghost use Rattle.cal_cron.specs.computed.Translation.{exprs_in};
ghost use Rattle.cal_crontabs.specs.rules.Entries.{ReadsTimes};
ghost use Rattle.cal_crontabs.specs.rules.Findings.{FindsUnused};

use cal_cron::laws::expressions_elapse_when_cron_runs;

/// The expressions of an entry elapse exactly when cron runs the entry, and each time that the grammar allows has
/// expressions.
pub fn times_are_read()
    ensures { ReadsTimes exprs_in }
{
    expressions_elapse_when_cron_runs();
}

/// [`crate::cron_findings`] returns [`crate::CronFindingKind::NeverRuns`] for an entry if and only if cron runs the entry
/// at no local second of the years 1970 to 2199.
pub fn unused_entries_are_found()
    ensures { FindsUnused exprs_in }
{
    expressions_elapse_when_cron_runs();
}
