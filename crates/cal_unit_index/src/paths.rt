//! Paths of folders as systemd writes them, and lists of such paths.

ghost use Rattle.std.specs.Prelude.{◌≡◌, ◌++◌, IfOk, OnOk, map, string_bytes};
ghost use Rattle.std.specs.List.{flat_map, list_any, slice_split};
ghost use Rattle.std.specs.Str.{bytes_eq};
ghost use Rattle.cal_unit_index.specs.rules.SearchPath.{below, each_once, is_slash, paths_in, plain_path, with_folder};

use std::alloc::{AllocError, Global};

/// Returns the paths in a list whose separator is a colon, without empty ones.
#[tactic(auto, unfolding(crate::specs::rules::SearchPath::paths_in))]
pub(crate) fn paths_in(alloc: Global, list: &str) -> Result<Vec<&str>, AllocError>
    ensures { IfOk result (λ paths. map (λ path. path.now) paths.items ≡ paths_in list.now) }
{
    list.split(':')
        .filter(|path| !path.is_empty())
        .collect(alloc)
}

pub(crate) fn all_texts(alloc: Global, search_path: &[String]) -> Result<Vec<&str>, AllocError>
    ensures { IfOk result (λ texts. map (λ text. text.now) texts.items ≡ map string_bytes search_path.now) }
{
    let mut texts = Vec::new(alloc);
    for text in search_path {
        texts.push(text.as_str())?;
    }
    Ok(texts)
}

/// Returns the plain paths of the folders ([`plain_path`]) without duplicates, each at its first position.
#[tactic(auto, unfolding(crate::specs::rules::SearchPath::each_once))]
pub(crate) fn each_once(alloc: Global, folders: &[&str]) -> Result<Vec<String>, AllocError>
    ensures { IfOk result (λ search_path. map string_bytes search_path.items ≡ each_once (map (λ folder. folder.now) folders.now)) }
{
    let mut search_path = Vec::new(alloc);
    for folder in folders {
        push_once(&mut search_path, plain_path(alloc, folder)?)?;
    }
    Ok(search_path)
}

/// Appends the folder to a search path, unless the search path has it already.
fn push_once(search_path: &mut Vec<String>, folder: String) -> Result<(), AllocError>
    ensures { OnOk result (map string_bytes search_path.new.items ≡ with_folder (map string_bytes search_path.old.items) (string_bytes folder)) }
{
    if !has_folder(search_path.as_slice(), folder.as_str()) {
        search_path.push(folder)?;
    }
    Ok(())
}

fn has_folder(search_path: &[String], folder: &str) -> bool
    ensures { result ≡ list_any (bytes_eq folder.now) (map string_bytes search_path.now) }
{
    search_path.iter().any(|known| folder == known.as_str())
}

/// Returns the path with one slash before each part, without parts that are empty or `.`, or `/` if no part is left. A
/// relative path is taken as relative to the root folder, in which systemd's managers run.
#[tactic(auto, unfolding(crate::specs::rules::SearchPath::plain_path))]
fn plain_path(alloc: Global, path: &str) -> Result<String, AllocError>
    ensures { IfOk result (λ plain. string_bytes plain ≡ plain_path path.now) }
{
    let parts = parts_of(alloc, path)?;
    let plain = joined(alloc, parts.as_slice())?;
    if plain.is_empty() {
        return String::from_str(alloc, "/");
    }
    Ok(plain)
}

pub(crate) fn parts_of(alloc: Global, path: &str) -> Result<Vec<&str>, AllocError>
    ensures { IfOk result (λ parts. map (λ part. part.now) parts.items ≡ slice_split is_slash path.now) }
{
    path.split('/').collect(alloc)
}

/// Joins the parts that are neither empty nor `.`, with a slash before each.
fn joined(alloc: Global, parts: &[&str]) -> Result<String, AllocError>
    ensures { IfOk result (λ path. string_bytes path ≡ flat_map below (map (λ part. part.now) parts.now)) }
{
    let mut path = String::new(alloc);
    for part in parts {
        push_part(&mut path, part)?;
    }
    Ok(path)
}

fn push_part(path: &mut String, part: &str) -> Result<(), AllocError>
    ensures { OnOk result (string_bytes path.new ≡ string_bytes path.old ++ below part.now) }
{
    if part.is_empty() || part == "." {
        return Ok(());
    }
    path.push_str("/")?;
    path.push_str(part)?;
    Ok(())
}
