//! When the machine started (proc(5), /proc/stat, btime).

ghost use Rattle.std.specs.Prelude.{◌≡◌, IfOk, map, option_map, true};
ghost use Rattle.std.specs.List.{slice_split};
ghost use Rattle.cal_machine.specs.rules.Machine.{Machine};
ghost use Rattle.cal_answers.specs.rules.BootTime.{boot_second_among, boot_second_in, boot_time_for, boot_time_on, has_key, is_line_feed, second_in, time_of};

use crate::seconds::{number_in, second_at};
use cal_machine::{Tree, TreeFault};
use cal_tasks::BootTime;
use std::alloc::{AllocError, Global};

/// The start of the line that has the boot time.
const KEY: &[u8] = b"btime ";

/// Returns the boot time that counts for a run of the timer `about`, which is `None` unless the verb is `due`. `now` is
/// the value of `--now`: with it, the present may be long before the machine started, so no boot time counts.
pub(crate) fn boot_time<T: Tree>(
    alloc: Global,
    tree: &mut T,
    now: Option<i64>,
    about: Option<&str>,
) -> Result<BootTime, AllocError>
    ensures known { IfOk result (λ boot. (machine : Machine) → T.shows tree.new machine
        → boot ≡ boot_time_for machine now (option_map (λ name. name.now) about.entry)) }
    ensures grows { (machine : Machine) → T.shows tree.new machine → T.shows tree.old machine }
{
    match (now, about) {
        (None, Some(_)) => read_boot_time(alloc, tree),
        _ => Ok(BootTime::NotConsidered),
    }
}

/// Reads when the machine started. With `--root`, reads the file below the root.
fn read_boot_time<T: Tree>(alloc: Global, tree: &mut T) -> Result<BootTime, AllocError>
    ensures known { IfOk result (λ boot. (machine : Machine) → T.shows tree.new machine → boot ≡ boot_time_on machine) }
    ensures grows { (machine : Machine) → T.shows tree.new machine → T.shows tree.old machine }
{
    // The kernel says that the file has 0 bytes, so it is read without a look at its size.
    match tree.read(alloc, "/proc/stat") {
        Ok(stat) => Ok(time_of(boot_second_in(alloc, stat.as_slice())?)),
        Err(TreeFault::Unreadable(_)) => Ok(BootTime::Unknown),
        Err(TreeFault::NoMemory) => Err(AllocError),
    }
}

fn time_of(second: Option<i64>) -> BootTime
    ensures { result ≡ time_of second }
{
    match second {
        Some(second) => BootTime::At(second),
        None => BootTime::Unknown,
    }
}

/// Returns the boot time in the first line that has the key, in seconds of Unix time. Returns `None` if there is no such
/// line, or no valid number in it.
fn boot_second_in(alloc: Global, stat: &[u8]) -> Result<Option<i64>, AllocError>
    ensures { IfOk result (λ second. second ≡ boot_second_in stat.now) }
{
    let lines = lines_of(alloc, stat)?;
    Ok(boot_second_among(lines.as_slice()))
}

fn lines_of(alloc: Global, stat: &[u8]) -> Result<Vec<&[u8]>, AllocError>
    ensures { IfOk result (λ lines. map (λ line. line.now) lines.items ≡ slice_split is_line_feed stat.now) }
{
    stat.split(|byte| *byte == b'\n').collect(alloc)
}

fn boot_second_among(lines: &[&[u8]]) -> Option<i64>
    ensures { result ≡ boot_second_among (map (λ line. line.now) lines.now) }
{
    for line in lines {
        if line.starts_with(KEY) {
            return second_in(line);
        }
    }
    None
}

/// Returns the Unix time after the key, with which the line must start.
fn second_in(line: &[u8]) -> Option<i64>
    requires { has_key line.now ≡ true }
    ensures { result ≡ second_in line.now }
{
    second_at(number_in(line.split_at(KEY.len()).1)?)
}
