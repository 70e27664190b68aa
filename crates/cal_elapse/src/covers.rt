//! A comparison of two calendar expressions: whether, in each field, one of them matches all values that the other one
//! matches (systemd.time(7), Calendar Events). The values that a field matches are the set bits of a mask.

ghost use Rattle.std.specs.Prelude.{◌≡◌, true};
ghost use Rattle.cal_elapse.specs.computed.Bits.{is_bit, is_bit_in};
ghost use Rattle.cal_elapse.specs.rules.Covered.{AreAmong, HasAll};
ghost use Rattle.cal_elapse.specs.computed.Masks.{sets_in};

use crate::masks::Masks;

impl Masks {
    /// Returns `true` if `self` has every value that `others` has, field by field. Then `self` matches every local
    /// second that `others` matches. Returns `false` if only one of the two counts days from the end of the month,
    /// because a day of the month isn't compared with a count from the end.
    pub fn covers(&self, others: &Masks) -> bool
        ensures { result ≡ true → AreAmong (sets_in others.now) (sets_in self.now) }
    {
        has_all(self.weekdays, others.weekdays)
            & have_all(&self.years, &others.years)
            & has_all(self.months, others.months)
            & has_all(self.days, others.days)
            & has_all(self.hours, others.hours)
            & has_all(self.minutes, others.minutes)
            & has_all(self.seconds, others.seconds)
            & (self.from_end == others.from_end)
    }
}

/// Returns whether all bits that are set in `others` are set in `mask`.
fn has_all(mask: u64, others: u64) -> bool
    ensures { result ≡ true → HasAll (is_bit mask) (is_bit others) }
{
    mask | others == mask
}

/// Returns whether each of the four masks in `masks` has all bits that are set in the mask with the same index in
/// `others`.
fn have_all(masks: &[u64; 4], others: &[u64; 4]) -> bool
    ensures { result ≡ true → HasAll (is_bit_in masks.now) (is_bit_in others.now) }
{
    has_all(masks[0], others[0])
        & has_all(masks[1], others[1])
        & has_all(masks[2], others[2])
        & has_all(masks[3], others[3])
}
