//! The values that each field of a calendar expression matches, as bits (systemd.time(7), Calendar Events).

ghost use Rattle.std.specs.Prelude.{◌≡◌, ◌%◌, ◌<◌, ◌≤◌, ℕ, false};
ghost use Rattle.cal_elapse.specs.computed.Bits.{is_bit, is_bit_in};

/// The values that each field of a calendar expression matches, one bit for each. The lowest bit stands for the
/// smallest value of the field: 1970 for years, 1 for months and for days of the month, Monday for weekdays, and 0 for
/// hours, minutes and seconds.
///
/// If days are counted from the end of the month, the last day has count 1. Counts are stored in reverse order, with
/// count 31 at bit 0, so the later of two days always has the higher bit. Hours, minutes and seconds each have at least
/// one value.
#[derive(Clone, Copy)]
pub struct Masks {
    /// The weekdays from Monday on, repeated for six weeks. So if the mask is shifted to begin with the weekday of a
    /// month's first day, it still has a bit for each day of the month.
    pub(crate) weekdays: u64,
    pub(crate) years: [u64; 4],
    pub(crate) months: u64,
    pub(crate) days: u64,
    pub(crate) hours: u64,
    pub(crate) minutes: u64,
    pub(crate) seconds: u64,
    pub(crate) from_end: bool,
    ghost weeks: { (i : ℕ) → i < 42 → is_bit weekdays i ≡ is_bit weekdays (i % 7) },
    ghost last_year: { (i : ℕ) → 230 ≤ i → is_bit_in years i ≡ false },
    ghost last_month: { (i : ℕ) → 12 ≤ i → is_bit months i ≡ false },
    ghost last_hour: { (i : ℕ) → 24 ≤ i → is_bit hours i ≡ false },
    ghost last_minute: { (i : ℕ) → 60 ≤ i → is_bit minutes i ≡ false },
    ghost last_second: { (i : ℕ) → 60 ≤ i → is_bit seconds i ≡ false },
    ghost some_hour: { 0 < hours },
    ghost some_minute: { 0 < minutes },
    ghost some_second: { 0 < seconds },
}
