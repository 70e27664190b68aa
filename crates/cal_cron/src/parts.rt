//! Translation of the ranges of a field to the parts of a component of a calendar expression.

ghost use Rattle.std.specs.Prelude.{◌≡◌, IfErr, IfOk, map};
ghost use Rattle.std.specs.Option.{option_map};
ghost use Rattle.std.specs.List.{list_any};
ghost use Rattle.cal_cron.specs.computed.Translation.{component_of, goes_round, is_all, is_open, part_of};
ghost use Rattle.cal_cron.specs.declared.cron_fault.CronFault.TheVariants.{NoMemory};

use crate::{CronFault, CronRange};
use cal_spec::{Part, Slot};
use std::alloc::Global;

/// Translates the ranges of a field. Returns `None`, which stands for `*`, if one of the ranges has all numbers of the
/// slot.
#[tactic(auto, unfolding(crate::specs::computed::Translation::component_of))]
pub(crate) fn component_of(
    alloc: Global,
    slot: Slot,
    ranges: &[CronRange],
) -> Result<Option<Vec<Part>>, CronFault>
    ensures ok { IfOk result (λ component. option_map (λ parts. parts.items) component ≡ component_of slot ranges.now) }
    ensures err { IfErr result (λ fault. fault ≡ NoMemory) }
{
    if have_all(slot, ranges) {
        return Ok(None);
    }
    let parts = parts_of(alloc, slot, ranges)?;
    Ok(Some(parts))
}

fn parts_of(alloc: Global, slot: Slot, ranges: &[CronRange]) -> Result<Vec<Part>, CronFault>
    ensures ok { IfOk result (λ parts. parts.items ≡ map (part_of slot) ranges.now) }
    ensures err { IfErr result (λ fault. fault ≡ NoMemory) }
{
    let mut parts = Vec::new(alloc);
    for range in ranges {
        parts.push(part_of(slot, *range))?;
    }
    Ok(parts)
}

fn have_all(slot: Slot, ranges: &[CronRange]) -> bool
    ensures { result ≡ list_any (is_all slot) ranges.now }
{
    ranges.iter().any(|range| is_all(slot, *range))
}

/// Returns whether the range has all numbers of the slot.
fn is_all(slot: Slot, range: CronRange) -> bool
    ensures { result ≡ is_all slot range }
{
    range.first == slot.least() && range.last == slot.greatest() && range.step == 1
}

/// Translates a range. A range with a step becomes a repetition without an end, such as `0/5`, if systemd 252 computes
/// the repetition correctly: this is how people write such ranges. Otherwise, the part keeps the end of the range.
#[tactic(auto, unfolding(crate::specs::computed::Translation::part_of))]
fn part_of(slot: Slot, range: CronRange) -> Part
    ensures { result ≡ part_of slot range }
{
    Part {
        start: range.first,
        end: if is_open(slot, range) {
            None
        } else {
            Some(range.last)
        },
        step: Some(range.step),
    }
}

/// Returns whether a range becomes a repetition without an end. After the last number of such a repetition, systemd 252
/// goes on to the number that the step reaches past the greatest number of the slot. This does no harm if the last
/// number is the greatest one, or if the number past it is the first month or the first minute again.
fn is_open(slot: Slot, range: CronRange) -> bool
    ensures { result ≡ is_open slot range }
{
    let distance = range.last.saturating_sub(range.first);
    range.last == slot.greatest()
        && range.step > 1
        && range.step <= distance
        && (distance.is_multiple_of(range.step) || goes_round(slot, range))
}

/// Returns whether a step in the months or minutes, continued past the greatest number, comes back to the least number.
/// Returns `false` for hours: if a step comes back to hour 0, systemd 252 fails in zones whose clock is set forward at
/// midnight.
fn goes_round(slot: Slot, range: CronRange) -> bool
    ensures { result ≡ goes_round slot range }
{
    match slot {
        Slot::Month => range.first == 1 && 12_u16.is_multiple_of(range.step),
        Slot::Minute => range.first == 0 && 60_u16.is_multiple_of(range.step),
        _ => false,
    }
}
