//! Warnings about timers with exceptions that systemd ignores, or may ignore, because of the service that they start.

ghost use Rattle.std.specs.Prelude.{◌≡◌, ◌++◌, OnOk, map};
ghost use Rattle.cal_tasks.specs.rules.Unguarded.{unguarded_seen};
ghost use Rattle.cal_answers.specs.rules.LintRows.{listed_in};
ghost use Rattle.cal_answers.specs.rules.LintService.{unguarded_problems};

use crate::problems::Problems;
use cal_tasks::UnguardedTimer;
use cal_timers_report::Style;
use std::alloc::{AllocError, Global};

/// Adds a warning about each of the `unguarded` timers: systemd ignores its exceptions, or may ignore them. `is_user`
/// says whether the timers are units of a user.
pub(crate) fn add_unguarded(
    alloc: Global,
    style: Style,
    is_user: bool,
    unguarded: &[UnguardedTimer],
    problems: &mut Problems,
) -> Result<(), AllocError>
    ensures { OnOk result (listed_in problems.new
        ≡ listed_in problems.old ++ unguarded_problems style is_user (map unguarded_seen unguarded.now)) }
{
    for timer in unguarded {
        problems.add_unguarded(alloc, style, is_user, timer)?;
    }
    Ok(())
}
