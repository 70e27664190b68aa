//! Reading all that the answer to a question depends on.

ghost use Rattle.std.specs.Prelude.{◌≡◌, ◌≢◌, IfErr, IfOk, Some, option_map};
ghost use Rattle.cal_machine.specs.rules.Machine.{Machine};
ghost use Rattle.cal_answers.specs.rules.Found.{IsFoundBy, IsKnownOn};
ghost use Rattle.cal_answers.specs.rules.LocalClock.{IsLocalZone, IsShownZone, IsUnusable, clock_zone, ignores_bad_variable, is_due, is_next, local_zone_of, shown_option, shown_zone_of, shows_times};
ghost use Rattle.cal_answers.specs.rules.Present.{IsPresent};
ghost use Rattle.cal_answers.specs.rules.Trigger.{stated_second};
ghost use Rattle.cal_answers.specs.rules.Unanswerable.{HasNoPresent, HasNoRoot, HasNoShownZone, IsUnanswerableOn};

use crate::boot_time::boot_time;
use crate::fault::ReadFault;
use crate::found::{Found, Known};
use crate::index::index_for;
use crate::loading::load_by_verb;
use crate::local_clock::{LocalClock, of_machine};
use crate::range_zones::RangeZones;
use crate::search_path::search_path;
use crate::trigger::{due_on, stated_second};
use crate::unguarded::unguarded_on;
use cal_machine::{Entry, Recorder, System, Tree, TreeFault};
use cal_timers_command::{Command, Options, Question};
use cal_timers_text::zones_text;
use cal_zone::Instant;
use cal_zone_files::{Origin, ZonesFault};
use std::alloc::{AllocError, Global};

/// Reads all that the answer to the question of a command depends on: the zones, the search path, and the timers and
/// files that the question names. Each question about the machine is asked of `system` at most once.
///
/// `clock` is the time that the machine's clock shows, in seconds of Unix time, or `None` if the clock can't be read.
/// If the command has `--now`, `clock` isn't used. Fails only if allocation fails.
pub(crate) fn read_question<'q, S: System + Drop>(
    alloc: Global,
    system: S,
    command: &'q Command,
    clock: Option<i64>,
) -> Result<Found<'q>, AllocError>
    ensures { IfOk result (IsFoundBy S.gives command.entry.now clock) }
{
    let mut tree = Recorder::new(alloc, system);
    match read_known(alloc, &mut tree, command, clock) {
        Ok(known) => Ok(Found::Answerable(known)),
        Err(ReadFault::Unanswerable(reason)) => Ok(Found::Unanswerable(reason)),
        Err(ReadFault::NoMemory) => Err(AllocError),
    }
}

fn read_known<'q, T: Tree>(
    alloc: Global,
    tree: &mut T,
    command: &'q Command,
    clock: Option<i64>,
) -> Result<Known<'q>, ReadFault>
    ensures known { IfOk result (λ known. (machine : Machine) → T.shows tree.new machine → IsKnownOn machine command.entry.now clock known) }
    ensures fault { IfErr result (λ fault. fault ≢ ReadFault.NoMemory → (machine : Machine) → T.shows tree.new machine
        → IsUnanswerableOn machine command.entry.now clock) }
    ensures grows { (machine : Machine) → T.shows tree.new machine → T.shows tree.old machine }
{
    let now = find_present(alloc, tree, command, clock)?;
    check_root(alloc, tree, command.options.root.as_str())?;
    let local = find_local(alloc, tree, command)?;
    let shown = find_shown(alloc, tree, command)?;
    let search_path = search_path(alloc, tree, command.options.is_user)?;
    let timer = due_on(alloc, tree, &command.question)?;
    let about = timer.as_deref();
    let boot = boot_time(alloc, tree, command.options.now, about)?;
    let range = RangeZones::load(alloc, tree, &command.question)?;
    let index = index_for(
        alloc,
        tree,
        &command.question,
        about,
        search_path.as_slice(),
    )?;
    let loaded = load_by_verb(alloc, tree, &index, &command.question, about)?;
    let unguarded = unguarded_on(alloc, tree, &index, command.options.is_user, &loaded)?;
    Ok(Known {
        now,
        local,
        shown,
        about: timer,
        boot,
        range,
        index,
        loaded,
        unguarded,
    })
}

/// Finds the present of a command, as [`Known::now`] describes it.
fn find_present<T: Tree>(
    alloc: Global,
    tree: &mut T,
    command: &Command,
    clock: Option<i64>,
) -> Result<Instant, ReadFault>
    ensures present { IfOk result (λ now. (machine : Machine) → T.shows tree.new machine
        → IsPresent (stated_second machine command.entry.now clock) (Some now)) }
    ensures fault { IfErr result (λ fault. fault ≢ ReadFault.NoMemory → (machine : Machine) → T.shows tree.new machine
        → HasNoPresent machine command.entry.now clock) }
    ensures grows { (machine : Machine) → T.shows tree.new machine → T.shows tree.old machine }
{
    let second = stated_second(alloc, tree, command, clock)?;
    match present(second) {
        Some(now) => Ok(now),
        None => {
            let reason = "the clock shows a time before 1970 or after 2199";
            Err(ReadFault::reason(alloc, reason))
        }
    }
}

/// Returns this second of Unix time as the present. Returns `None` if no second is stated, or if it isn't an [`Instant`].
fn present(second: Option<i64>) -> Option<Instant>
    ensures { IsPresent second result }
{
    Instant::new(second?)
}

/// Checks that `root`, the value of `--root`, leads to a folder. Checks nothing if `root` is empty.
///
/// All paths of `tree` are below `root`, so the path to check is `/`. If `root` is a link, this slash makes the system
/// follow it; with the empty path, `look` would return the link.
fn check_root<T: Tree>(alloc: Global, tree: &mut T, root: &str) -> Result<(), ReadFault>
    ensures fault { IfErr result (λ fault. fault ≢ ReadFault.NoMemory → (machine : Machine) → T.shows tree.new machine → HasNoRoot machine root.now) }
    ensures grows { (machine : Machine) → T.shows tree.new machine → T.shows tree.old machine }
{
    if root.is_empty() {
        return Ok(());
    }
    match tree.look(alloc, "/") {
        Ok(Entry::Folder) => Ok(()),
        Err(TreeFault::NoMemory) => Err(ReadFault::NoMemory),
        Ok(_) | Err(TreeFault::Unreadable(_)) => {
            Err(ReadFault::reason(alloc, "--root: not a directory"))
        }
    }
}

/// Finds the local zone of a command.
fn find_local<T: Tree>(
    alloc: Global,
    tree: &mut T,
    command: &Command,
) -> Result<LocalClock, ReadFault>
    ensures zone { IfOk result (λ clock. (machine : Machine) → T.shows tree.new machine
        → IsLocalZone machine (local_zone_of machine command.entry.now) (clock_zone clock)) }
    ensures fault { IfErr result (λ fault. fault ≢ ReadFault.NoMemory → (machine : Machine) → T.shows tree.new machine
        → IsUnusable machine (local_zone_of machine command.entry.now)) }
    ensures grows { (machine : Machine) → T.shows tree.new machine → T.shows tree.old machine }
{
    match LocalClock::find(
        alloc,
        tree,
        command.options.zone.as_deref(),
        is_next(&command.question),
    ) {
        Ok(local) => Ok(local),
        Err(ZonesFault::NoMemory) => Err(ReadFault::NoMemory),
        Err(fault) => {
            let reason = zones_text(alloc, &fault)?;
            Err(ReadFault::Unanswerable(reason))
        }
    }
}

fn is_next(question: &Question) -> bool
    ensures { result ≡ is_next question.entry.now }
{
    matches!(question, Question::Next { .. })
}

/// Finds the zone in which the answer shows times. If `TZ` names no zone that can be used, and may be ignored, this is
/// the machine's own zone.
fn find_shown<T: Tree>(
    alloc: Global,
    tree: &mut T,
    command: &Command,
) -> Result<LocalClock, ReadFault>
    ensures zone { IfOk result (λ clock. (machine : Machine) → T.shows tree.new machine
        → IsShownZone machine command.entry.now (clock_zone clock)) }
    ensures fault { IfErr result (λ fault. fault ≢ ReadFault.NoMemory → (machine : Machine) → T.shows tree.new machine
        → HasNoShownZone machine command.entry.now) }
    ensures grows { (machine : Machine) → T.shows tree.new machine → T.shows tree.old machine }
{
    match find_shown_zone(alloc, tree, command) {
        Err(ReadFault::Unanswerable(_)) if ignores_bad_variable(command) => {
            find_own_zone(alloc, tree)
        }
        found => found,
    }
}

/// Returns whether a `TZ` that can't be used is ignored.
fn ignores_bad_variable(command: &Command) -> bool
    ensures { result ≡ ignores_bad_variable command.entry.now }
{
    is_due(&command.question) && shown_option(&command.options).is_none()
}

fn is_due(question: &Question) -> bool
    ensures { result ≡ is_due question.entry.now }
{
    matches!(question, Question::Due { .. })
}

/// Finds the machine's own zone.
fn find_own_zone<T: Tree>(alloc: Global, tree: &mut T) -> Result<LocalClock, ReadFault>
    ensures zone { IfOk result (λ clock. (machine : Machine) → T.shows tree.new machine
        → IsLocalZone machine (Ok None) (clock_zone clock)) }
    ensures fault { IfErr result (λ fault. fault ≡ ReadFault.NoMemory) }
    ensures grows { (machine : Machine) → T.shows tree.new machine → T.shows tree.old machine }
{
    match of_machine(alloc, tree) {
        Ok(own) => Ok(own),
        Err(_) => Err(ReadFault::NoMemory),
    }
}

/// Finds the zone that the options, `TZ` or the machine state for the times of the answer. The caller has already found
/// the zone of `--zone`, so if an option names no zone, it is `--in`.
fn find_shown_zone<T: Tree>(
    alloc: Global,
    tree: &mut T,
    command: &Command,
) -> Result<LocalClock, ReadFault>
    ensures zone { IfOk result (λ clock. (machine : Machine) → T.shows tree.new machine
        → IsLocalZone machine (shown_zone_of machine command.entry.now) (clock_zone clock)) }
    ensures fault { IfErr result (λ fault. fault ≢ ReadFault.NoMemory → (machine : Machine) → T.shows tree.new machine
        → IsUnusable machine (shown_zone_of machine command.entry.now)) }
    ensures grows { (machine : Machine) → T.shows tree.new machine → T.shows tree.old machine }
{
    match LocalClock::find(
        alloc,
        tree,
        shown_option(&command.options),
        shows_times(&command.question),
    ) {
        Ok(shown) => Ok(shown),
        Err(ZonesFault::NoMemory) => Err(ReadFault::NoMemory),
        Err(ZonesFault::Unclear(Origin::Argument)) => {
            Err(ReadFault::reason(alloc, "--in: not a zone"))
        }
        Err(fault) => {
            let reason = zones_text(alloc, &fault)?;
            Err(ReadFault::Unanswerable(reason))
        }
    }
}

fn shown_option(options: &Options) -> Option<&str>
    ensures { option_map (λ text. text.now) result ≡ shown_option options.entry.now }
{
    match options.shown_in.as_deref() {
        Some(zone) => Some(zone),
        None => options.zone.as_deref(),
    }
}

/// Returns whether the answers to a question have times.
fn shows_times(question: &Question) -> bool
    ensures { result ≡ shows_times question.entry.now }
{
    !matches!(question, Question::Lint { .. } | Question::Cron { .. })
}
