//! Single steps along a path: where the path goes on after one of its parts, depending on what is there.

ghost use Rattle.std.specs.Prelude.{◌≡◌, ◌++◌, ◌∷◌, ◌<◌, [], IfOk, MatchOption, OnOk, map, option_map, string_bytes};
ghost use Rattle.std.specs.List.{flat_map};
ghost use Rattle.cal_machine.specs.rules.Machine.{shown_entry};
ghost use Rattle.cal_machine.specs.rules.Places.{above, before_last_byte, below, child, is_followed, is_last, is_outside, parts_of, place_at, shown_place, shown_step, start_in, stays, step_at};

use crate::follow::{Last, Place};
use crate::tree::Entry;
use std::alloc::{AllocError, Global};

/// One step along a path.
#[derive(Drop)]
pub(crate) enum Step {
    /// The path goes on from this folder, whose own path has no links, with these parts.
    On(String, Vec<String>),
    /// The path ends here.
    Ended(Place),
}

/// Removes the first part and returns it. Returns `None` if there are no parts.
pub(crate) fn take_first(parts: &mut Vec<String>) -> Option<String>
    ensures { MatchOption result (map string_bytes parts.old.items ≡ [])
        (λ part. map string_bytes parts.old.items ≡ string_bytes part ∷ map string_bytes parts.new.items) }
{
    if parts.is_empty() {
        return None;
    }
    Some(parts.remove(0))
}

/// Takes the step from `folder` to `path`, which is in it. `entry` is what is at `path`, and `rest` are the parts that
/// are left.
pub(crate) fn step_at(
    alloc: Global,
    last: Last,
    folder: &str,
    path: String,
    rest: Vec<String>,
    entry: Entry,
) -> Result<Step, AllocError>
    ensures { IfOk result (λ step. shown_step step
        ≡ step_at last folder.now (string_bytes path) (map string_bytes rest.items) (shown_entry entry)) }
{
    match entry {
        Entry::Folder => Ok(Step::On(path, rest)),
        Entry::Link(target) if is_followed(last, rest.as_slice()) => {
            let start = String::from_str(alloc, start_in(folder, target.as_str()))?;
            Ok(Step::On(start, before(alloc, target.as_str(), rest)?))
        }
        _ => Ok(Step::Ended(place_at(path, rest.as_slice(), entry)?)),
    }
}

/// Returns whether a link is followed if the parts `rest` come after it: always if there are any, and otherwise as
/// `last` says.
fn is_followed(last: Last, rest: &[String]) -> bool
    ensures { result ≡ is_followed last (map string_bytes rest.now) }
{
    match last {
        Last::Followed => true,
        Last::Kept => !rest.is_empty(),
    }
}

/// Returns the place of a path that ends at this entry, or can't go on from it. `rest` are the parts that are left; if
/// there are any, nothing is at the place.
fn place_at(mut path: String, rest: &[String], entry: Entry) -> Result<Place, AllocError>
    ensures { IfOk result (λ place. shown_place place
        ≡ place_at (string_bytes path) (map string_bytes rest.now) (shown_entry entry)) }
{
    push_parts(&mut path, rest)?;
    let entry = if rest.is_empty() {
        entry
    } else {
        Entry::Missing
    };
    Ok(Place { path, entry })
}

fn push_parts(path: &mut String, parts: &[String]) -> Result<(), AllocError>
    ensures { OnOk result (string_bytes path.new ≡ string_bytes path.old ++ flat_map below (map string_bytes parts.now)) }
{
    for part in parts {
        push_part(path, part.as_str())?;
    }
    Ok(())
}

fn push_part(path: &mut String, part: &str) -> Result<(), AllocError>
    ensures { OnOk result (string_bytes path.new ≡ string_bytes path.old ++ below part.now) }
{
    if stays(part) {
        return Ok(());
    }
    path.push('/')?;
    path.push_str(part)?;
    Ok(())
}

/// Returns whether a part of a path stays in the same folder, because it is empty or `.`.
pub(crate) fn stays(part: &str) -> bool
    ensures { result ≡ stays part.now }
{
    part.is_empty() || part == "."
}

/// Returns the path of `part` in a folder.
pub(crate) fn child(alloc: Global, folder: &str, part: &str) -> Result<String, AllocError>
    ensures { IfOk result (λ path. string_bytes path ≡ child folder.now part.now) }
{
    format!(in alloc; "{folder}/{part}")
}

/// Returns the folder in which a path starts: the root, which is the empty path, if `path` is absolute, and otherwise
/// `folder`.
pub(crate) fn start_in<'f>(folder: &'f str, path: &str) -> &'f str
    ensures { result.now ≡ start_in folder.now path.now }
{
    if path.starts_with('/') { "" } else { folder }
}

/// Returns the folder to which `..` leads from a folder whose path has no links.
pub(crate) fn above(alloc: Global, folder: &str) -> Result<String, AllocError>
    ensures { IfOk result (λ path. string_bytes path ≡ above folder.now) }
{
    if is_outside(folder) {
        return child(alloc, folder, "..");
    }
    match before_last_byte(folder, '/') {
        Some(above) => String::from_str(alloc, above),
        None => Ok(String::new(alloc)),
    }
}

/// Returns whether the path of a folder is `.`, the folder in which the program runs, or leads from there to a folder
/// above it.
fn is_outside(folder: &str) -> bool
    ensures { result ≡ is_outside folder.now }
{
    folder == "." || folder.ends_with("/..")
}

/// Returns the part of a text before the last `byte` in it, which must be an ASCII character. Returns `None` if the text
/// doesn't have this character.
pub fn before_last_byte(text: &str, byte: char) -> Option<&str>
    requires { byte < 128 }
    ensures { option_map (λ before. before.now) result ≡ before_last_byte byte text.now }
{
    match text.rfind(byte) {
        Some(index) => Some(&text[..index]),
        None => None,
    }
}

/// Returns the parts of a path, between its slashes.
pub(crate) fn parts_of(alloc: Global, path: &str) -> Result<Vec<String>, AllocError>
    ensures { IfOk result (λ parts. map string_bytes parts.items ≡ parts_of path.now) }
{
    let mut parts = Vec::new(alloc);
    for part in split(alloc, path)?.as_slice() {
        parts.push(String::from_str(alloc, part)?)?;
    }
    Ok(parts)
}

fn split(alloc: Global, path: &str) -> Result<Vec<&str>, AllocError>
    ensures { IfOk result (λ parts. map (λ part. part.now) parts.items ≡ parts_of path.now) }
{
    path.split('/').collect(alloc)
}

/// Returns the parts of a path, followed by `rest`.
fn before(alloc: Global, path: &str, mut rest: Vec<String>) -> Result<Vec<String>, AllocError>
    ensures { IfOk result (λ parts. map string_bytes parts.items ≡ parts_of path.now ++ map string_bytes rest.items) }
{
    let mut parts = parts_of(alloc, path)?;
    parts.append(&mut rest)?;
    Ok(parts)
}
