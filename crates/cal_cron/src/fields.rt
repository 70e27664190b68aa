//! Parsing of a field: items that are separated by commas.

ghost use Rattle.std.specs.Prelude.{◌≡◌};
ghost use Rattle.std.specs.List.{slice_split};
ghost use Rattle.cal_bytes.specs.rules.Separators.{is_comma};
ghost use Rattle.cal_cron.specs.computed.Items.{Gives, GivesUnlessNoMemory, field_in, item_due, items_in};

use crate::items::{CronRange, read_item};
use crate::{CronField, FieldFault};
use cal_spec::first_piece;
use std::alloc::Global;

/// The maximum number of items of a field. An expression has parts from four fields, so it has at most 240 parts, as
/// many as an expression may have.
const MAX_ITEMS: usize = 60;

/// Parses a field of a crontab line: one to 60 items that are separated by commas.
#[tactic(auto, unfolding(crate::specs::computed::Items::field_in))]
pub fn read_field(
    alloc: Global,
    field: CronField,
    text: &[u8],
) -> Result<Vec<CronRange>, FieldFault>
    ensures { GivesUnlessNoMemory (λ ranges. ranges.items) result (field_in field text.now) }
{
    read_items(alloc, field, MAX_ITEMS, text)
}

/// Parses items that are separated by commas. Fails with `TooManyItems` if there are more than `room` items.
fn read_items(
    alloc: Global,
    field: CronField,
    room: usize,
    text: &[u8],
) -> Result<Vec<CronRange>, FieldFault>
    ensures { GivesUnlessNoMemory (λ ranges. ranges.items) result
        (items_in field room (slice_split is_comma text.now)) }
{
    let mut ranges = Vec::new(alloc);
    let mut room = room;
    let mut rest = Some(text);
    while let Some(texts) = rest {
        let (first, after) = first_piece(texts, b',');
        let range = item_due(field, room, first)?;
        ranges.push(range)?;
        room = room.saturating_sub(1);
        rest = after;
    }
    Ok(ranges)
}

/// Parses the next item of a field that may have `room` more items.
#[tactic(auto, unfolding(crate::specs::computed::Items::item_due))]
fn item_due(field: CronField, room: usize, text: &[u8]) -> Result<CronRange, FieldFault>
    ensures { Gives (λ range. range) result (item_due field room text.now) }
{
    if room == 0 {
        return Err(FieldFault::TooManyItems);
    }
    read_item(field, text)
}
