//! Notes about local times that a clock change skips or repeats.

use cal_load::LoadedTimer;

/// What a clock change does to a local time.
#[derive(Clone, Copy, PartialEq, Eq)]
pub enum ClockChange {
    /// Clocks skip the local time, so nothing elapses then.
    Skipped,
    /// Clocks show the local time twice. Only the first occurrence can be an elapse.
    Repeated,
}

/// A local time that an expression of a timer matches and that a clock change skips or repeats.
#[derive(Clone, Copy, PartialEq, Eq)]
pub struct ClockNote {
    /// The local time, in seconds since 1970-01-01 00:00:00 on the clock of the zone.
    pub local: i64,
    pub change: ClockChange,
    /// Identifies the zone on whose clock the local time is. This is the index of the timer's first expression that
    /// names the same zone as the expression that matches the local time.
    pub zone: usize,
}

impl ClockNote {
    ghost use Rattle.std.specs.Prelude.{◌≡◌, option_copied, slice_get};
    ghost use Rattle.cal_load.specs.rules.CalendarZones.{expressions_in};
    ghost use Rattle.cal_tasks.specs.rules.ShowReport.{zone_on};

    /// Returns the name of the zone on whose clock the local time is, as an expression of `timer` names it. Returns
    /// `None` if this is the local zone.
    pub(crate) fn zone_name<'t>(&self, timer: &'t LoadedTimer) -> Option<&'t str>
        ensures { option_copied result ≡ zone_on (slice_get (expressions_in timer.now.calendar) self.now.zone) }
    {
        match timer.lines().get(self.zone) {
            Some(line) => line.expr.zone_name(),
            None => None,
        }
    }
}

/// The local times of a timer that the next clock changes skip or repeat.
#[derive(Drop)]
pub struct ClockNotes {
    /// The earliest notes about such local times, at most 16, sorted by local time.
    pub first: Vec<ClockNote>,
    /// Whether there are more notes than those in `first`.
    pub has_more: bool,
}
