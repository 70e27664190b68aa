//! Parsing option values: `--iterations` and `--base-time` of systemd-analyze(1), and this project's own `--now`,
//! `--zones` and `--local`.
//!
//! A function whose name ends in `_of` takes the value of an option, or `None` if the option wasn't given; in that case
//! it returns the default. A function whose name ends in `_in` parses a value. Functions of both kinds that check a
//! value return `None` if it is invalid.

ghost use Rattle.std.specs.Prelude.{◌≡◌, ◌≤◌, ◌<◌, ◌==◌, ◌∷◌, [], None, Some, length, map, option_map, IfSome, IfOk, string_bytes, vec_len};
ghost use Rattle.std.specs.List.{slice_split};
ghost use Rattle.std.specs.Option.{option_copied, option_map_or};
ghost use Rattle.cal_bytes.specs.computed.SplitPieces.{left, pieces_after};
ghost use Rattle.cal_command.specs.rules.Ask.{texts_of, shown_item};
ghost use Rattle.cal_bytes.specs.rules.Separators.{is_comma};
ghost use Rattle.cal_command.specs.rules.OptionValues.{count_in, parts_at, zone_item_in, zones_in};
ghost use Rattle.cal_options.specs.rules.OptionNumbers.{present_in};
ghost use Rattle.cal_request.specs.rules.Verb.{IsCount};
ghost use Rattle.cal_zone.specs.rules.ZoneArgument.{HasOffset, in_utc, shown_zone_argument, zone_argument_in};

use crate::arguments::ITERATIONS_NUMBER;
use crate::ask::ZoneItem;
use cal_options::{number_in, present_in};
use cal_zone::{Instant, ZoneArgument, ZoneName};
use std::alloc::{AllocError, Global};

/// The maximum number of items of `--zones`. More items are an error.
const MAX_ZONES: usize = 64;

/// Parses the value of `--iterations`. The default is 1.
pub(crate) fn iterations_of(text: Option<&str>) -> Option<u32>
    ensures value { result ≡ option_map_or count_in (option_copied text.entry) (Some 1) }
    ensures range { IfSome result IsCount }
{
    match text {
        Some(text) => count_in(text),
        None => Some(1),
    }
}

/// Copies the value of `--base-time`, which is parsed later, once the present and the zones are known.
pub(crate) fn base_of(alloc: Global, text: Option<&str>) -> Result<Option<String>, AllocError>
    ensures value { IfOk result (λ base. option_map string_bytes base ≡ option_copied text.entry) }
    ensures none { IfOk result (λ base. text.entry ≡ None → base ≡ None) }
{
    match text {
        Some(text) => Ok(Some(String::from_str(alloc, text)?)),
        None => Ok(None),
    }
}

/// Parses the value of `--now`. Returns `Some(None)` if the option wasn't given; the system's clock is read in that
/// case.
pub(crate) fn now_of(text: Option<&str>) -> Option<Option<Instant>>
    ensures { option_map (option_map (λ now. now.secs)) result
        ≡ option_map_or (λ text. option_map Some (present_in text)) (option_copied text.entry) (Some None) }
{
    match text {
        Some(text) => Some(Some(present_in(text)?)),
        None => Some(None),
    }
}

/// Parses the value of `--zones`. By default there are no items.
pub(crate) fn zones_of(
    alloc: Global,
    text: Option<&str>,
) -> Result<Option<Vec<ZoneItem>>, AllocError>
    ensures { IfOk result (λ zones. option_map (λ items. map shown_item items.items) zones
        ≡ option_map_or zones_in (option_copied text.entry) (Some [])) }
{
    match text {
        Some(text) => zones_in(alloc, text),
        None => Ok(Some(Vec::new(alloc))),
    }
}

/// Parses the value of `--local`. The default is UTC.
pub(crate) fn local_zone_of(
    alloc: Global,
    text: Option<&str>,
) -> Result<Option<ZoneArgument>, AllocError>
    ensures value { IfOk result (λ local. option_map shown_zone_argument local
        ≡ option_map_or zone_argument_in (option_copied text.entry) (Some in_utc)) }
    ensures offset { IfOk result (λ local. IfSome local HasOffset) }
{
    match text {
        Some(text) => ZoneArgument::read(alloc, text),
        None => Ok(Some(ZoneArgument::Utc)),
    }
}

/// Parses a number of elapses.
#[tactic(auto, unfolding(crate::specs::rules::OptionValues::count_in))]
fn count_in(value: &str) -> Option<u32>
    ensures value { result ≡ count_in value.now }
    ensures range { IfSome result IsCount }
{
    let number = number_in(ITERATIONS_NUMBER, value)?;
    Some(number as u32)
}

/// Parses the items of `--zones`, which are separated by commas.
fn zones_in(alloc: Global, text: &str) -> Result<Option<Vec<ZoneItem>>, AllocError>
    ensures { IfOk result (λ zones. option_map (λ items. map shown_item items.items) zones ≡ zones_in text.now) }
{
    let mut items = Vec::new(alloc);
    let mut rest = Some(text);
    while let Some(texts) = rest {
        let (first, after) = first_item(texts);
        let Some((name, path)) = zone_item_in(first) else {
            return Ok(None);
        };
        if items.len() == MAX_ZONES {
            return Ok(None);
        }
        items.push(zone_item(alloc, name, path)?)?;
        rest = after;
    }
    Ok(Some(items))
}

/// Splits the text at its first comma. The second part is `None` if there is no comma, and empty if nothing follows the
/// comma.
fn first_item(text: &str) -> (&str, Option<&str>)
    ensures items { slice_split is_comma text.now ≡ result.0.now ∷ pieces_after is_comma (option_copied result.1) }
    ensures shorter { left (option_copied result.1) ≤ length text.now }
{
    match text.split_once(',') {
        Some((first, after)) => (first, Some(after)),
        None => (text, None),
    }
}

/// Splits an item `NAME=FILE` at its first `=`. Returns `None` if there is no `=`, if the name doesn't have the form of
/// a zone's name, or if the path is empty.
#[tactic(auto, unfolding(crate::specs::rules::OptionValues::zone_item_in))]
fn zone_item_in(item: &str) -> Option<(ZoneName<'_>, &str)>
    ensures { option_map (λ parts. record { name = parts.0.text.now; path = parts.1.now }) result ≡ zone_item_in item.now }
{
    let (name, path) = parts_at(item, '=')?;
    let name = ZoneName::new(name)?;
    if path.is_empty() {
        return None;
    }
    Some((name, path))
}

fn zone_item(alloc: Global, name: ZoneName<'_>, path: &str) -> Result<ZoneItem, AllocError>
    ensures { IfOk result (λ item. shown_item item ≡ record { name = name.entry.text.now; path = path.now }) }
{
    Ok(ZoneItem {
        name: String::from_str(alloc, name.as_str())?,
        path: String::from_str(alloc, path)?,
    })
}

/// Splits the text at its first separator. Returns `None` if there is no separator.
fn parts_at(text: &str, separator: char) -> Option<(&str, &str)>
    requires { separator < 128 }
    ensures { option_map (λ parts. (parts.0.now, parts.1.now)) result ≡ parts_at (λ byte. byte == separator) text.now }
{
    text.split_once(separator)
}

/// Copies the texts, so that the request owns them.
pub(crate) fn to_owned(alloc: Global, texts: &[&str]) -> Result<Vec<String>, AllocError>
    ensures texts { IfOk result (λ all. map string_bytes all.items ≡ texts_of texts.now) }
    ensures count { IfOk result (λ all. vec_len all ≡ length texts.now) }
{
    let mut all = Vec::with_capacity(alloc, texts.len())?;
    for text in texts {
        all.push(String::from_str(alloc, text)?)?;
    }
    Ok(all)
}
