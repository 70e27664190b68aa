//! Errors about units, files, folders and expressions that can't be loaded, each with the reason.

ghost use Rattle.std.specs.Prelude.{◌≡◌};
ghost use Rattle.cal_load.specs.rules.TextFaults.{fails_to_load};

use crate::readable::BrokenLine;
use crate::timer_files::TimerFiles;
use cal_cron::CronFault;
use cal_spec::SpecFault;
use cal_unit_index::Reason;
use cal_zone_files::FileReason;

/// Why a timer, a file, a folder or an expression can't be loaded.
#[derive(Drop)]
pub enum TargetReason {
    /// There is no such unit, or nothing is at the path.
    NotFound,
    /// The name is that of a template, which isn't a unit.
    Template,
    /// The name is an alias, and more than 7 aliases lead from one to the next.
    TooManyAliases,
    /// The file, folder or link at this path can't be used, for this reason.
    Path(String, Reason),
    /// systemd stops reading the timer's own file, which is at this path, at this line. So it doesn't load the timer.
    Broken(String, BrokenLine),
    /// No setting starts the timer's unit: its files have neither a calendar expression that can be used nor another
    /// setting that starts the unit. The values are the timer's name, as in [`crate::LoadedTimer`], and its files, with
    /// the lines in them that are ignored.
    NothingToDo(String, TimerFiles),
    /// The expression, which was given instead of a timer, is invalid.
    Expression(SpecFault),
    /// The entry of a crontab, which was given instead of a timer, is invalid. The error is [`CronFault::Reboot`] for
    /// `@reboot`, which has no calendar time.
    CrontabEntry(CronFault),
    /// The expression, which was given instead of a timer, names the zone with this name, whose file can't be used, for
    /// this reason.
    ExpressionZone(String, FileReason),
}

/// The error that a timer, an expression, a file or a folder can't be loaded.
#[derive(Drop)]
pub struct TargetFault {
    /// What the error is about: a unit or expression as it was given, or the path that was given, without slashes at
    /// its end. If this path is a folder, the target can also be the path of a file in it. If no target was given, it
    /// is the name of a unit. If a drop-in, a folder of drop-ins, or a folder of links that start units can't be read,
    /// it is the path of this drop-in or folder, and timers are loaded without it.
    pub target: String,
    pub reason: TargetReason,
}

impl TargetFault {
    /// Returns whether the target is a timer that was found and read, but fails to load: systemd stops reading its own
    /// file at some line, or no setting starts its unit.
    pub fn fails_to_load(&self) -> bool
        ensures { result ≡ fails_to_load self.now.reason }
    {
        matches!(
            self.reason,
            TargetReason::NothingToDo(..) | TargetReason::Broken(..)
        )
    }
}
