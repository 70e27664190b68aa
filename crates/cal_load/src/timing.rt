//! How the runs of a timer's unit relate to the elapses of the timer's expressions: how much later than its elapse a run
//! can be, and what else can start the unit (systemd.timer(5), Options).

ghost use Rattle.std.specs.Prelude.{◌≡◌, ◌+◌, IfOk, Some, map, option_map};
ghost use Rattle.cal_read.specs.rules.SectionAssignments.{shown_owned_assignment};
ghost use Rattle.cal_unit_index.specs.rules.Settings.{is_span, is_taken_as};
ghost use Rattle.cal_load.specs.rules.Timing.{has_unevaluated, is_persistent_in, is_set, last_value, length_of, length_of_key, reach_in, timing_of, whole_seconds};

use crate::ignored::assignments_of;
use crate::loaded::LoadedTimer;
use crate::notes::{can_start, kept_of};
use crate::resolved::{Resolved, resolve};
use crate::timer_files::TimerFiles;
use cal_read::OwnedAssignment;
use cal_span::read_span;
use cal_timer::KeyKind;
use cal_unit_index::{is_taken_as, is_yes};
use std::alloc::{AllocError, Global};

/// The default of `AccuracySec=`, in microseconds: one minute.
const DEFAULT_ACCURACY: u64 = 60_000_000;

const MICROS_PER_SECOND: u128 = 1_000_000;

/// How the runs of a timer's unit relate to the elapses of the timer's expressions.
#[derive(Clone, Copy)]
pub struct RunTiming {
    /// The longest delay that the settings allow between an elapse and its run, in seconds, rounded up:
    /// `RandomizedDelaySec=`, `AccuracySec=` and `RandomizedOffsetSec=` together. `None` if one of them is `infinity`.
    pub reach: Option<u64>,
    /// Whether a run can also start for another reason than one of the timer's expressions that were loaded: because of
    /// a monotonic timer, a change of the clock or of the time zone, or an expression that can't be evaluated. The last
    /// is assumed, too, if it is an exception that can't be evaluated.
    pub has_other_triggers: bool,
    /// Whether systemd starts a run later if the timer missed it while it was inactive (`Persistent=`).
    pub is_persistent: bool,
}

/// Returns how the runs of the timer's unit relate to the elapses of the timer. Settings with values that systemd
/// doesn't accept are ignored, as in systemd: the last valid value of a setting counts.
///
/// Fails if allocation fails. Also fails if the timer's files are too large for their line numbers to fit into 32 bits;
/// no timer is loaded from such files.
pub fn run_timing(alloc: Global, timer: &LoadedTimer) -> Result<RunTiming, AllocError>
    ensures { IfOk result (λ timing. timing ≡ timing_of timer.now) }
{
    let read = assignments_of(alloc, timer.files.texts.as_slice())?;
    let Resolved {
        assignments,
        unclear,
    } = resolve(alloc, timer.name.as_str(), read)?;
    let reach = reach_in(assignments.as_slice());
    let is_persistent = is_persistent_in(assignments.as_slice());
    let kept = kept_of(alloc, assignments)?;
    let starts = can_start(kept.as_slice());
    let has_unevaluated = has_unevaluated(unclear.as_slice(), &timer.files);
    Ok(RunTiming {
        reach,
        has_other_triggers: starts || has_unevaluated,
        is_persistent,
    })
}

/// Returns whether the timer has expressions or exceptions that can't be evaluated: `unclear` ones, which depend on more
/// than the timer's name, or those whose zone can't be used.
fn has_unevaluated(unclear: &[OwnedAssignment], files: &TimerFiles) -> bool
    ensures { result ≡ has_unevaluated (map shown_owned_assignment unclear.now) files.now }
{
    !unclear.is_empty() || !files.unusable_zones.is_empty()
}

/// Returns the longest delay between an elapse and its run in seconds, or `None` if there is no limit.
fn reach_in(assignments: &[OwnedAssignment]) -> Option<u64>
    ensures { result ≡ reach_in (map shown_owned_assignment assignments.now) }
{
    let delay = length_of_key("RandomizedDelaySec", 0, assignments)?;
    let accuracy = length_of_key("AccuracySec", DEFAULT_ACCURACY, assignments)?;
    let offset = length_of_key("RandomizedOffsetSec", 0, assignments)?;
    Some(whole_seconds(delay, accuracy, offset))
}

/// Returns the length of the last valid time span of this key in microseconds, or `None` if it is `infinity`. Returns
/// `default` if the key has no valid value.
fn length_of_key(key: &str, default: u64, assignments: &[OwnedAssignment]) -> Option<u64>
    ensures { result ≡ length_of_key key.now default (map shown_owned_assignment assignments.now) }
{
    match last_value(key, KeyKind::Delay, assignments) {
        Some(value) => length_of(value),
        None => Some(default),
    }
}

/// Returns the length of a time span in microseconds, or `None` if `value` is `infinity`.
fn length_of(value: &str) -> Option<u64>
    ensures { result ≡ length_of value.now }
{
    match read_span(value) {
        Ok(span) => Some(span.micros()),
        Err(_) => None,
    }
}

/// Returns the sum of three lengths in microseconds, in seconds and rounded up.
fn whole_seconds(one: u64, two: u64, three: u64) -> u64
    ensures { result ≡ whole_seconds (one + two + three) }
{
    let micros = u128::from(one) + u128::from(two) + u128::from(three);
    micros.div_ceil(MICROS_PER_SECOND) as u64
}

/// Returns whether the last valid value of `Persistent=` is true.
fn is_persistent_in(assignments: &[OwnedAssignment]) -> bool
    ensures { result ≡ is_persistent_in (map shown_owned_assignment assignments.now) }
{
    match last_value("Persistent", KeyKind::TimingBoolean, assignments) {
        Some(value) => is_yes(value),
        None => false,
    }
}

/// Returns the last value of the key that systemd accepts for keys of this kind.
fn last_value<'a>(key: &str, kind: KeyKind, assignments: &'a [OwnedAssignment]) -> Option<&'a str>
    ensures { option_map (λ value. value.now) result
        ≡ last_value key.now (is_taken_as (Some kind)) (map shown_owned_assignment assignments.now) }
{
    let mut last = None;
    for assignment in assignments {
        if is_set(key, kind, assignment) {
            last = Some(assignment.value.as_str());
        }
    }
    last
}

/// Returns whether the assignment has the key, and a value that systemd accepts for keys of this kind.
fn is_set(key: &str, kind: KeyKind, assignment: &OwnedAssignment) -> bool
    ensures { result ≡ is_set key.now (is_taken_as (Some kind)) (shown_owned_assignment assignment.now) }
{
    assignment.key.as_str() == key && is_taken_as(kind, assignment.value.as_str())
}
