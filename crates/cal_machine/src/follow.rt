//! Following paths through all their links (path_resolution(7), symlink(7)).
//!
//! The system isn't asked to follow links, for two reasons. First, if a machine's files are in a folder of the system
//! (`--root`), this folder stands for the machine's root, but the system would follow the absolute target of a link
//! from the system's own root. Second, the system doesn't tell which folder a path ends up in. So each part of a path
//! is examined, and a link's target is followed part by part. A [`crate::Recorder`] examines each part only once,
//! whichever paths lead through it.

ghost use Rattle.std.specs.Prelude.{◌≡◌, map, string_bytes};
ghost use Rattle.cal_machine.specs.rules.Machine.{Machine, Tells, shown_entry, shown_listing};
ghost use Rattle.cal_machine.specs.rules.Places.{content_at, entry_at, names_at, place_of, shown_content, shown_place, shown_step, step, walk};

use crate::steps::{Step, above, child, parts_of, start_in, stays, step_at, take_first};
use crate::tree::{Entry, Names, Tree, TreeFault, Unreadable};
use std::alloc::Global;

/// Whether a link at the end of a path is followed.
#[derive(Clone, Copy)]
pub enum Last {
    /// The link is followed, like all links on the way.
    Followed,
    /// The link isn't followed: the path leads to the link itself.
    Kept,
}

/// Where a path leads.
#[derive(Drop)]
pub struct Place {
    /// The path of the place. No folder on it is a link. The root is the empty path, and a relative path starts with
    /// `.`, the folder in which the program runs.
    pub path: String,
    /// What is at this path: [`Entry::Missing`] if there is nothing, or if the path leads through something that isn't
    /// a folder.
    pub entry: Entry,
}

/// What can be read at a path.
#[derive(Drop)]
pub enum Content {
    /// Nothing is there, or the path leads through something that isn't a folder.
    Nothing,
    /// A folder. [`names_at`] returns the names in it.
    Folder,
    /// An empty file, or a device, which isn't opened.
    Blank,
    /// A file with these bytes, at most the first [`crate::FILE_BYTES`] of them.
    Text(Vec<u8>),
}

/// The maximum number of steps along a path, one for each of its parts and each part of a link's target. A path with
/// links that lead in a circle always needs more.
const MAX_STEPS: usize = 1_000;

/// Finds the place to which a path leads. All links on the way are followed; `last` says whether a link at the end is
/// followed, too. If the path leads through something that isn't a folder, nothing is at the place. A relative path
/// starts at the folder in which the program runs.
///
/// Fails with [`TreeFault::Unreadable`] if a part of the path can't be examined, or if the path has more than 1,000
/// parts, including the parts of the links' targets; in the second case, the reason is [`Unreadable::Failed`]. Fails
/// with [`TreeFault::NoMemory`] if allocation fails.
pub fn find_place<T: Tree>(
    alloc: Global,
    tree: &mut T,
    path: &str,
    last: Last,
) -> Result<Place, TreeFault>
    ensures known { (machine : Machine) → T.shows tree.new machine
        → Tells shown_place result (place_of machine last path.now) }
    ensures grows { (machine : Machine) → T.shows tree.new machine → T.shows tree.old machine }
{
    let folder = String::from_str(alloc, start_in(".", path))?;
    let parts = parts_of(alloc, path)?;
    walk(alloc, tree, last, MAX_STEPS, folder, parts)
}

/// Returns what is at a path. Links on the way are followed, but not a link at the end. Fails like [`find_place`].
pub fn look_at<T: Tree>(alloc: Global, tree: &mut T, path: &str) -> Result<Entry, TreeFault>
    ensures known { (machine : Machine) → T.shows tree.new machine
        → Tells shown_entry result (entry_at machine path.now) }
    ensures grows { (machine : Machine) → T.shows tree.new machine → T.shows tree.old machine }
{
    Ok(find_place(alloc, tree, path, Last::Kept)?.entry)
}

/// Returns the names in the folder to which a path leads, or no names if it leads to anything else. All links are
/// followed.
///
/// Fails like [`find_place`], and with [`TreeFault::Unreadable`] if the folder can't be read.
pub fn names_at<T: Tree>(alloc: Global, tree: &mut T, folder: &str) -> Result<Names, TreeFault>
    ensures known { (machine : Machine) → T.shows tree.new machine
        → Tells shown_listing result (names_at machine folder.now) }
    ensures grows { (machine : Machine) → T.shows tree.new machine → T.shows tree.old machine }
{
    let place = find_place(alloc, tree, folder, Last::Followed)?;
    match place.entry {
        Entry::Folder => tree.names(alloc, place.path.as_str()),
        Entry::Missing | Entry::Empty | Entry::File | Entry::Device | Entry::Link(_) => Ok(Names {
            names: Vec::new(alloc),
            unnamed: 0,
        }),
    }
}

/// Returns what can be read at a path. All links are followed.
///
/// Fails like [`find_place`], and with [`TreeFault::Unreadable`] if the file can't be read.
pub fn read_at<T: Tree>(alloc: Global, tree: &mut T, path: &str) -> Result<Content, TreeFault>
    ensures known { (machine : Machine) → T.shows tree.new machine
        → Tells shown_content result (content_at machine path.now) }
    ensures grows { (machine : Machine) → T.shows tree.new machine → T.shows tree.old machine }
{
    let place = find_place(alloc, tree, path, Last::Followed)?;
    match place.entry {
        Entry::File => Ok(Content::Text(tree.read(alloc, place.path.as_str())?)),
        Entry::Empty | Entry::Device => Ok(Content::Blank),
        Entry::Folder => Ok(Content::Folder),
        Entry::Missing | Entry::Link(_) => Ok(Content::Nothing),
    }
}

/// Finds the place to which the parts of a path lead from `folder`, whose own path has no links. Fails like
/// [`find_place`], with [`Unreadable::Failed`] if parts are left after `count` steps.
fn walk<T: Tree>(
    alloc: Global,
    tree: &mut T,
    last: Last,
    count: usize,
    folder: String,
    mut parts: Vec<String>,
) -> Result<Place, TreeFault>
    ensures known { (machine : Machine) → T.shows tree.new machine
        → Tells shown_place result (walk machine last count (string_bytes folder) (map string_bytes parts.items)) }
    ensures grows { (machine : Machine) → T.shows tree.new machine → T.shows tree.old machine }
{
    let Some(part) = take_first(&mut parts) else {
        return Ok(Place {
            path: folder,
            entry: Entry::Folder,
        });
    };
    if count == 0 {
        return Err(TreeFault::Unreadable(Unreadable::Failed));
    }
    match step(alloc, tree, last, folder, part.as_str(), parts)? {
        Step::On(folder, rest) => walk(alloc, tree, last, count - 1, folder, rest),
        Step::Ended(place) => Ok(place),
    }
}

/// Takes the step from a folder to `part` in it; `rest` are the parts that are left.
fn step<T: Tree>(
    alloc: Global,
    tree: &mut T,
    last: Last,
    folder: String,
    part: &str,
    rest: Vec<String>,
) -> Result<Step, TreeFault>
    ensures known { (machine : Machine) → T.shows tree.new machine
        → Tells shown_step result (step machine last (string_bytes folder) part.now (map string_bytes rest.items)) }
    ensures grows { (machine : Machine) → T.shows tree.new machine → T.shows tree.old machine }
{
    if stays(part) {
        return Ok(Step::On(folder, rest));
    }
    if part == ".." {
        return Ok(Step::On(above(alloc, folder.as_str())?, rest));
    }
    let path = child(alloc, folder.as_str(), part)?;
    let entry = tree.look(alloc, path.as_str())?;
    Ok(step_at(alloc, last, folder.as_str(), path, rest, entry)?)
}
