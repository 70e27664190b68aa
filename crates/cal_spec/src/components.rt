//! Parsing of one component of a date or time: `*`, or parts separated by commas.
//!
//! An expression may have at most 240 parts, not counting the first part of the hour, of the minute and of the second.
//! All other parts are the *counted* parts.

ghost use Rattle.std.specs.Prelude.{◌≡◌, ◌≤◌};
ghost use Rattle.std.specs.List.{slice_split};
ghost use Rattle.std.specs.Option.{option_copied, option_map};
ghost use Rattle.cal_bytes.specs.rules.Separators.{is_comma};
ghost use Rattle.cal_spec.specs.computed.Components.{room_in, counted, part_due, parts_of, first_value_fault, parts_listed, component_of};
ghost use Rattle.cal_spec.specs.computed.Reads.{Gives, GivesUnlessNoMemory};
ghost use Rattle.cal_spec.specs.rules.Fields.{max_counted_parts};

use crate::parts::{fault_of, is_time, read_part, with_full_years};
use crate::pieces::first_piece;
use crate::slot::Slot;
use crate::{Part, SpecFault};
use std::alloc::Global;

/// Parses a component with at most `room` counted parts (systemd.time(7), Calendar Events). Returns `None` for `*`.
///
/// The syntax of all parts is checked before any of their values.
#[tactic(auto, unfolding(crate::specs::computed::Components::component_of))]
pub(crate) fn read_component(
    alloc: Global,
    slot: Slot,
    room: usize,
    text: &[u8],
) -> Result<Option<Vec<Part>>, SpecFault>
    requires { room ≤ max_counted_parts }
    ensures { GivesUnlessNoMemory (λ component. option_map (λ parts. parts.items) component) result
        (component_of slot room text.now) }
{
    if text == b"*".as_slice() {
        return Ok(None);
    }
    let parts = read_listed(alloc, slot, room, text)?;
    Ok(Some(parts))
}

/// Returns how many parts of the component count towards the limit of 240: all parts of a year, month or day, and all
/// but the first part of an hour, minute or second.
pub(crate) fn count_parts(slot: Slot, component: &Option<Vec<Part>>) -> usize
    ensures { result ≡ counted slot (option_map (λ parts. parts.items) component.now) }
{
    match component {
        Some(parts) if is_time(slot) => parts.len().saturating_sub(1),
        Some(parts) => parts.len(),
        None => 0,
    }
}

/// Parses parts separated by commas, with at most `room` counted parts among them, and then checks the values of all
/// parts.
#[tactic(auto, unfolding(crate::specs::computed::Components::parts_listed))]
fn read_listed(alloc: Global, slot: Slot, room: usize, text: &[u8]) -> Result<Vec<Part>, SpecFault>
    requires { room ≤ max_counted_parts }
    ensures { GivesUnlessNoMemory (λ parts. parts.items) result (parts_listed slot room text.now) }
{
    // The first part of an hour, minute or second isn't counted, so one more part is allowed.
    let room = if is_time(slot) { room + 1 } else { room };
    let parts = read_parts(alloc, slot, room, text)?;
    match first_fault(slot, &parts) {
        Some(fault) => Err(fault),
        None => Ok(parts),
    }
}

/// Parses parts separated by commas without checking their values. Fails with `TooManyParts` if there are more than
/// `room` parts; here the first part of an hour, minute or second is counted like the others.
fn read_parts(alloc: Global, slot: Slot, room: usize, text: &[u8]) -> Result<Vec<Part>, SpecFault>
    ensures { GivesUnlessNoMemory (λ parts. parts.items) result
        (parts_of slot room (slice_split is_comma text.now)) }
{
    let mut parts = Vec::new(alloc);
    let mut room = room;
    let mut rest = Some(text);
    while let Some(texts) = rest {
        let (first, after) = first_piece(texts, b',');
        let part = part_due(slot, room, first)?;
        parts.push(part)?;
        room = room.saturating_sub(1);
        rest = after;
    }
    Ok(parts)
}

/// Parses the next part of a component that may have `room` more parts. Fails with `TooManyParts` if `room` is 0.
/// Expands two-digit years.
#[tactic(auto, unfolding(crate::specs::computed::Components::part_due))]
fn part_due(slot: Slot, room: usize, text: &[u8]) -> Result<Part, SpecFault>
    ensures { Gives (λ part. part) result (part_due slot room text.now) }
{
    if room == 0 {
        return Err(SpecFault::TooManyParts);
    }
    let part = read_part(slot, text)?;
    Ok(with_full_years(slot, part))
}

/// Checks the values of the parts from left to right. Returns the first error, or `None` if all values are valid.
fn first_fault(slot: Slot, parts: &[Part]) -> Option<SpecFault>
    ensures { result ≡ first_value_fault slot parts.now }
{
    for part in parts {
        let fault = fault_of(slot, *part);
        if fault.is_some() {
            return fault;
        }
    }
    None
}
