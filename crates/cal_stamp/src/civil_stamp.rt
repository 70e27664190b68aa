//! Civil times as they are written in timestamps.

ghost use Rattle.std.specs.Prelude.{◌≤◌, pos, IfSome};
ghost use Rattle.jiff.specs.Words.{IsBetween};

use cal_zone::Zone;
use jiff::civil::Weekday;

/// A parsed civil time: `[weekday] [date] [time] [zone]`.
#[derive(Clone, Copy)]
pub(crate) struct CivilStamp<'t> {
    /// The weekday, if one is named.
    pub(crate) weekday: Option<Weekday>,
    /// The number of the day, counted from 1970-01-01, if a date is written.
    pub(crate) day: Option<i64>,
    /// The microseconds after midnight; 0 if no time is written.
    pub(crate) micros: u64,
    /// The zone that is written, or the local zone if none is.
    pub(crate) zone: Zone<'t>,
    ghost day_in: { ∥ IfSome day (IsBetween (pos 0) (pos 84_005)) ∥₁ },
    ghost micros_in: { micros ≤ 90_000_000_000 },
}
