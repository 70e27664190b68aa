//! Which files are crontabs, and reading the crontabs among files that a user names.

ghost use Rattle.std.specs.Prelude.{◌≡◌, nat_eq, IfOk, OnOk, map};
ghost use Rattle.std.specs.List.{ends_with, list_any};
ghost use Rattle.cal_cron.specs.computed.CrontabViews.{content_shown, line_shown};
ghost use Rattle.cal_cron.specs.computed.Translation.{exprs_in};
ghost use Rattle.cal_machine.specs.rules.Machine.{Machine};
ghost use Rattle.cal_machine.specs.rules.Places.{is_slash};
ghost use Rattle.cal_crontabs.specs.rules.CrontabFiles.{AreCrontabsAt, are_of_crontab, crontabs_at, is_cron_place, is_crontab, is_crontab_text, is_directly_in, is_entry, is_file_name, is_header, is_in_cron_folder, may_be_crontab};
ghost use Rattle.cal_crontabs.specs.rules.Crontabs.{AreAlso, file_faults};

use crate::crontabs::Crontabs;
use crate::lines::lines_of;
use cal_cron::{CrontabFormat, CrontabLine, EntryTime, LineContent};
use cal_machine::{Tree, after_prefix};
use cal_unit_index::{FileRead, has_unit_suffix, read_file};
use std::alloc::{AllocError, Global};

/// Returns whether a target of `lint` is checked as a crontab.
///
/// Whatever is at `/etc/crontab`, or at a path directly in `/etc/cron.d` or `/var/spool/cron/crontabs`, counts as a
/// crontab. Any other path is a crontab if it doesn't have the suffix of a unit or a drop-in, and its file has at least
/// one valid entry, other than `@reboot`, and no line that begins with `[`. Fails only if allocation fails.
#[tactic(auto, unfolding(crate::specs::rules::CrontabFiles::is_crontab))]
pub fn is_crontab<T: Tree>(alloc: Global, tree: &mut T, target: &str) -> Result<bool, AllocError>
    ensures known { IfOk result (λ is. (machine : Machine) → T.shows tree.new machine
        → is ≡ is_crontab exprs_in machine target.now) }
    ensures grows { (machine : Machine) → T.shows tree.new machine → T.shows tree.old machine }
{
    if is_cron_place(target) {
        return Ok(true);
    }
    if !may_be_crontab(target) {
        return Ok(false);
    }
    match read_file(alloc, tree, target)? {
        FileRead::Text(bytes) => is_crontab_text(alloc, target, bytes.as_slice()),
        FileRead::Mask | FileRead::Unusable(_) => Ok(false),
    }
}

/// Reads the crontabs at these paths, in their order. An empty file is a crontab without lines. Errors about files that
/// can't be read are in [`Crontabs::faults`]. Fails only if allocation fails.
pub fn load_crontab_files<T: Tree>(
    alloc: Global,
    tree: &mut T,
    paths: &[&str],
) -> Result<Crontabs, AllocError>
    ensures known { IfOk result (λ loaded. (machine : Machine) → T.shows tree.new machine
        → AreCrontabsAt machine (map (λ path. path.now) paths.now) loaded) }
    ensures grows { (machine : Machine) → T.shows tree.new machine → T.shows tree.old machine }
{
    let mut loaded = Crontabs {
        crontabs: Vec::new(alloc),
        faults: Vec::new(alloc),
    };
    for path in paths {
        take_path(alloc, tree, &mut loaded, path)?;
    }
    Ok(loaded)
}

/// Reads the crontab at a path.
fn take_path<T: Tree>(
    alloc: Global,
    tree: &mut T,
    loaded: &mut Crontabs,
    path: &str,
) -> Result<(), AllocError>
    ensures known { OnOk result ((machine : Machine) → T.shows tree.new machine
        → AreAlso (crontabs_at machine path.now) (file_faults machine path.now) loaded.old loaded.new) }
    ensures grows { (machine : Machine) → T.shows tree.new machine → T.shows tree.old machine }
{
    match read_file(alloc, tree, path)? {
        FileRead::Text(bytes) => loaded.push_file(alloc, path, bytes.as_slice()),
        FileRead::Mask => loaded.push_file(alloc, path, &[]),
        FileRead::Unusable(reason) => loaded.push_fault(alloc, path, reason),
    }
}

/// Returns whether a path is `/etc/crontab`, or directly in one of cron's folders.
fn is_cron_place(path: &str) -> bool
    ensures { result ≡ is_cron_place path.now }
{
    path == "/etc/crontab" || is_in_cron_folder(path)
}

fn is_in_cron_folder(path: &str) -> bool
    ensures { result ≡ is_in_cron_folder path.now }
{
    is_directly_in("/etc/cron.d/", path) || is_directly_in("/var/spool/cron/crontabs/", path)
}

/// Returns whether a path is directly in a folder. `folder` ends in a slash.
fn is_directly_in(folder: &str, path: &str) -> bool
    ensures { result ≡ is_directly_in folder.now path.now }
{
    match after_prefix(folder, path) {
        Some(name) => is_file_name(name.as_bytes()),
        None => false,
    }
}

fn is_file_name(name: &[u8]) -> bool
    ensures { result ≡ is_file_name name.now }
{
    !name.is_empty() && !has_slash(name)
}

fn has_slash(text: &[u8]) -> bool
    ensures { result ≡ list_any is_slash text.now }
{
    text.iter().any(|byte| *byte == b'/')
}

/// Returns whether a text can be the path of a crontab that cron itself doesn't read.
fn may_be_crontab(target: &str) -> bool
    ensures { result ≡ may_be_crontab target.now }
{
    let target = target.as_bytes();
    has_slash(target) && !(has_unit_suffix(target) || target.ends_with(b".conf"))
}

/// Returns whether a file at this path with this content is a crontab.
fn is_crontab_text(alloc: Global, path: &str, bytes: &[u8]) -> Result<bool, AllocError>
    ensures { IfOk result (λ is. is ≡ is_crontab_text exprs_in path.now bytes.now) }
{
    let text = String::from_utf8_lossy(alloc, bytes)?;
    let lines = lines_of(alloc, CrontabFormat::of_path(path), text.as_str())?;
    Ok(are_of_crontab(lines.as_slice()))
}

/// Returns whether at least one of the lines is a valid entry with time fields, and none begins with `[`.
fn are_of_crontab(lines: &[CrontabLine<'_>]) -> bool
    ensures { result ≡ are_of_crontab (map line_shown lines.now) }
{
    has_entry(lines) && !has_header(lines)
}

fn has_entry(lines: &[CrontabLine<'_>]) -> bool
    ensures { result ≡ list_any (λ line. is_entry line.content) (map line_shown lines.now) }
{
    lines.iter().any(|line| is_entry(&line.content))
}

/// Returns whether this is a valid entry other than `@reboot`.
fn is_entry(content: &LineContent<'_>) -> bool
    ensures { result ≡ is_entry (content_shown content.now) }
{
    match content {
        LineContent::Entry(entry) => matches!(entry.time, EntryTime::Times(_)),
        LineContent::Assignment(_) | LineContent::Invalid(_) => false,
    }
}

fn has_header(lines: &[CrontabLine<'_>]) -> bool
    ensures { result ≡ list_any (λ line. is_header line.text) (map line_shown lines.now) }
{
    lines.iter().any(|line| is_header(line.text.as_bytes()))
}

fn is_header(line: &[u8]) -> bool
    ensures { result ≡ is_header line.now }
{
    matches!(line, [b'[', ..])
}
