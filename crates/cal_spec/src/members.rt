//! The values that a component matches (systemd.time(7), Calendar Events).

ghost use Rattle.std.specs.Prelude.{◌≡◌, option_map};
ghost use Rattle.std.specs.List.{list_any};
ghost use Rattle.cal_spec.specs.rules.Members.{component_has, star_has, is_between, is_step_between, part_has, repeats};

use crate::Part;
use crate::slot::Slot;

/// Returns whether a component matches `value`. `None` stands for `*`.
pub fn component_has(slot: Slot, parts: &Option<Vec<Part>>, value: u16) -> bool
    ensures { result ≡ component_has slot (option_map (λ v. v.items) parts.now) value }
{
    match parts {
        Some(parts) => parts_have(slot, parts, value),
        None => star_has(slot, value),
    }
}

fn parts_have(slot: Slot, parts: &[Part], value: u16) -> bool
    ensures { result ≡ list_any (λ p. part_has slot p value) parts.now }
{
    parts.iter().any(|part| part_has(slot, *part, value))
}

#[tactic(auto, unfolding(crate::specs::rules::Members::part_has))]
fn part_has(slot: Slot, part: Part, value: u16) -> bool
    ensures { result ≡ part_has slot part value }
{
    match (part.end, part.step) {
        (None, None) => value == part.start,
        (None, Some(step)) => repeats(slot, part.start, step, value),
        (Some(end), None) => is_between(part.start, end, value),
        (Some(end), Some(step)) => is_step_between(
            part.start,
            end,
            step,
            value.saturating_sub(part.start),
            value,
        ),
    }
}

/// Returns whether an open-ended repetition, `start/step`, reaches `value`. It counts upwards from `start`, or
/// downwards if the slot is `DayFromEnd`.
fn repeats(slot: Slot, start: u16, step: u16, value: u16) -> bool
    ensures { result ≡ repeats slot start step value }
{
    match slot {
        Slot::DayFromEnd => is_step_between(1, start, step, start.saturating_sub(value), value),
        _ => is_step_between(
            start,
            slot.greatest(),
            step,
            value.saturating_sub(start),
            value,
        ),
    }
}

/// Returns whether `*` matches `value` in this slot. A `*` matches all numbers that the slot allows. For days counted
/// from the month's end it matches more: 1 to 31, although the slot allows only 1 to 28.
fn star_has(slot: Slot, value: u16) -> bool
    ensures { result ≡ star_has slot value }
{
    let slot = if slot == Slot::DayFromEnd {
        Slot::Day
    } else {
        slot
    };
    is_between(slot.least(), slot.greatest(), value)
}

fn is_step_between(start: u16, end: u16, step: u16, distance: u16, value: u16) -> bool
    ensures { result ≡ is_step_between start end step distance value }
{
    is_between(start, end, value) && distance.is_multiple_of(step)
}

fn is_between(start: u16, end: u16, value: u16) -> bool
    ensures { result ≡ is_between start end value }
{
    start <= value && value <= end
}
