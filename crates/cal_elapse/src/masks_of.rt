//! Conversion of a calendar expression to masks, which have one bit for each value that a field matches
//! (systemd.time(7), Calendar Events).

ghost use Rattle.std.specs.Prelude.{◌≡◌, ◌==◌, ◌+◌, ◌-◌, ◌%◌, ◌<◌, ◌≤◌, ◌&&◌, ◌||◌, ◌≢◌, ℕ, false, nat_le, nat_lt, slice_index_or, if◌then◌else◌};
ghost use Rattle.std.specs.List.{list_any};
ghost use Rattle.cal_elapse.specs.computed.Bits.{is_bit};
ghost use Rattle.cal_elapse.specs.computed.Masks.{AreSlotValues, last_number, sets_in, slot_of};
ghost use Rattle.cal_spec.specs.computed.Expr.{members_of};
ghost use Rattle.cal_spec.specs.rules.Members.{part_has, sets_of};
ghost use Rattle.cal_spec.specs.declared.field.Field.TheVariants.{Day};
ghost use Rattle.cal_spec.specs.declared.slot.Slot.{Slot};

use crate::bits::with_bit;
use crate::masks::Masks;
use cal_spec::{Expr, Field, Part};

impl Masks {
    /// Creates the masks of an expression. They have exactly the values that the expression matches.
    pub fn of(expr: &Expr) -> Masks
        ensures { sets_in result ≡ sets_of expr.now }
    {
        let from_end = expr.from_end();
        Masks {
            weekdays: weeks(&expr.weekdays()),
            years: [
                members(expr, Field::Year, 1_970, 64),
                members(expr, Field::Year, 2_034, 64),
                members(expr, Field::Year, 2_098, 64),
                members(expr, Field::Year, 2_162, 38),
            ],
            months: members(expr, Field::Month, 1, 12),
            days: days(expr, from_end),
            hours: members(expr, Field::Hour, 0, 24),
            minutes: members(expr, Field::Minute, 0, 60),
            seconds: members(expr, Field::Second, 0, 60),
            from_end,
        }
    }
}

/// Returns the mask of the weekdays, repeated for six consecutive weeks, with the first Monday at bit 0.
fn weeks(weekdays: &[bool; 7]) -> u64
    ensures { (i : ℕ) → is_bit result i ≡ (nat_lt i 42 && slice_index_or weekdays.now (i % 7) false) }
{
    let mut mask = 0;
    for index in 0..42 {
        mask = put_bit(mask, index, weekdays[index as usize % 7]);
    }
    mask
}

/// Returns a mask of `count` bits. Bit i is set if the field of the expression matches the value `first` + i; a field
/// that is `*` matches every value.
fn members(expr: &Expr, field: Field, first: u16, count: u32) -> u64
    requires few { count ≤ 64 }
    requires values { AreSlotValues (slot_of field expr.now.from_end) first count }
    ensures { (i : ℕ) → is_bit result i ≡ (nat_lt i count && members_of field (sets_of expr.now) (first + i)) }
{
    match expr.field(field) {
        Some(parts) => in_parts(parts, first, count),
        None => bits_between(0, count),
    }
}

/// Returns a mask of `count` bits. Bit i is set if at least one of the parts matches the value `first` + i.
fn in_parts(parts: &[Part], first: u16, count: u32) -> u64
    requires few { count ≤ 64 }
    requires within { first ≤ 2_200 }
    ensures { (slot : Slot) → AreSlotValues slot first count → (i : ℕ)
        → is_bit result i ≡ (nat_lt i count && list_any (λ part. part_has slot part (first + i)) parts.now) }
{
    let mut mask = 0;
    for part in parts {
        mask |= in_part(*part, first, count);
    }
    mask
}

/// Returns a mask of `count` bits. Bit i is set if the part matches the value `first` + i.
fn in_part(part: Part, first: u16, count: u32) -> u64
    requires few { count ≤ 64 }
    requires within { first ≤ 2_200 }
    ensures { (slot : Slot) → AreSlotValues slot first count → (i : ℕ)
        → is_bit result i ≡ (nat_lt i count && part_has slot part (first + i)) }
{
    let low = u32::from(part.start.saturating_sub(first));
    let high = (u32::from(last_of(part)) + 1)
        .saturating_sub(u32::from(first))
        .min(count);
    match part.step {
        Some(step) => steps(low, high, first, part.start, step),
        None => bits_between(low, high),
    }
}

/// Returns an upper bound of the values that the part matches: its end, its start if it is a single number, or 65,535
/// if it is an open-ended repetition.
fn last_of(part: Part) -> u16
    ensures { result ≡ last_number part.start part.end part.step }
{
    match (part.end, part.step) {
        (Some(end), _) => end,
        (None, Some(_)) => u16::MAX,
        (None, None) => part.start,
    }
}

/// Returns a word in which exactly the bits from `low` up to but not including `high` are set.
fn bits_between(low: u32, high: u32) -> u64
    requires { high ≤ 64 }
    ensures { (i : ℕ) → is_bit result i ≡ (nat_le low i && nat_lt i high) }
{
    if low < high {
        u64::MAX << low & u64::MAX >> (64 - high)
    } else {
        0
    }
}

/// Returns a word in which bit i stands for the value `first` + i. Of the bits from `low` up to but not including
/// `high`, those are set whose value is `start` or exceeds `start` by a multiple of `step`. No other bits are set. A
/// value below `start` would be treated like `start`, but the caller's `low` excludes such values.
fn steps(low: u32, high: u32, first: u16, start: u16, step: u16) -> u64
    requires few { high ≤ 64 }
    requires within { first ≤ 2_200 }
    ensures { (i : ℕ) → is_bit result i ≡ ((nat_le low i && nat_lt i high) && ((first + i - start) % step == 0)) }
{
    let mut mask = 0;
    for index in low..high {
        let distance = (first + index as u16).saturating_sub(start);
        mask = put_bit(mask, index, distance.is_multiple_of(step));
    }
    mask
}

/// Returns the mask of the matching days, with day 1 at bit 0, or, if days are counted from the end of the month, the
/// mask of the matching counts, with count 31 at bit 0.
fn days(expr: &Expr, from_end: bool) -> u64
    requires { from_end ≡ expr.now.from_end }
    ensures { (i : ℕ) → is_bit result i
        ≡ (nat_lt i 31 && members_of Day (sets_of expr.now) (if from_end then 31 - i else i + 1)) }
{
    if from_end {
        counts_from_end(expr)
    } else {
        members(expr, Field::Day, 1, 31)
    }
}

/// Returns the mask of the matching counts from the end of the month, with count 31 at bit 0.
fn counts_from_end(expr: &Expr) -> u64
    ensures { (i : ℕ) → is_bit result i ≡ (nat_lt i 31 && members_of Day (sets_of expr.now) (31 - i)) }
{
    let mut mask = 0;
    for index in 0..31 {
        mask = put_bit(mask, index, expr.has_member(Field::Day, 31 - index as u16));
    }
    mask
}

/// Returns `mask` with bit `index` set if `member` is true, and unchanged otherwise.
fn put_bit(mask: u64, index: u32, member: bool) -> u64
    requires { index < 64 }
    ensures here { is_bit result index ≡ (member || is_bit mask index) }
    ensures others { (i : ℕ) → i ≢ index → is_bit result i ≡ is_bit mask i }
{
    if member { with_bit(mask, index) } else { mask }
}
