//! Slots: which component a number belongs to, and the least and the greatest number that each slot allows.

ghost use Rattle.std.specs.Prelude.{◌≡◌, ◌≤◌};
ghost use Rattle.cal_spec.specs.rules.Slot.{day_slot, least, greatest};

use cal_civil::{FIRST_YEAR, LAST_YEAR};

/// The component that a number belongs to. Days that are counted from the month's end have a slot of their own, since
/// their bounds differ.
#[derive(Clone, Copy, PartialEq, Eq, Debug)]
pub enum Slot {
    Year,
    Month,
    Day,
    DayFromEnd,
    Hour,
    Minute,
    Second,
}

impl Slot {
    /// Returns the least number that this slot allows as the start or the end of a part.
    pub fn least(self) -> u16
        ensures { result ≡ least self }
    {
        match self {
            Slot::Year => FIRST_YEAR,
            Slot::Month | Slot::Day | Slot::DayFromEnd => 1,
            Slot::Hour | Slot::Minute | Slot::Second => 0,
        }
    }

    /// Returns the greatest number that this slot allows as the start or the end of a part. A step may be greater.
    pub fn greatest(self) -> u16
        ensures { result ≡ greatest self }
    {
        match self {
            Slot::Year => LAST_YEAR,
            Slot::Month => 12,
            Slot::Day => 31,
            Slot::DayFromEnd => 28,
            Slot::Hour => 23,
            Slot::Minute | Slot::Second => 59,
        }
    }
}

/// Returns the slot of the day, which depends on whether days are counted from the month's end.
pub fn day_slot(from_end: bool) -> Slot
    ensures { result ≡ day_slot from_end }
{
    if from_end {
        Slot::DayFromEnd
    } else {
        Slot::Day
    }
}
