//! Timers with exceptions that systemd ignores, or may ignore.

ghost use Rattle.std.specs.Prelude.{◌≡◌, map};
ghost use Rattle.std.specs.List.{list_any};
ghost use Rattle.cal_tasks.specs.rules.Unguarded.{has_ignored_exceptions, is_entry_of, is_ignored, is_ignored_entry, own_path, unguarded_seen};

use cal_load::LoadedTimer;

/// Why systemd ignores the exceptions of a timer, or may ignore them. The conditions of a service are the commands of
/// its `ExecCondition=` (systemd.service(5)).
#[derive(Clone, Copy, PartialEq, Eq)]
pub enum GuardFlaw {
    /// systemd ignores the exceptions, because no condition of the service runs `calendar-timers due`.
    Missing,
    /// The words of the service's conditions don't tell whether one of them runs `calendar-timers due`.
    Unknown,
    /// systemd ignores the exceptions, because the status 1 of `calendar-timers due` is in the service's
    /// `SuccessExitStatus=`.
    FailureAccepted,
}

/// A timer that has exceptions, and starts a service that doesn't run `calendar-timers due` as a condition, or may not
/// run it, or goes on if it fails: systemd then starts the service at exceptions, too.
#[derive(Drop)]
pub struct UnguardedTimer {
    /// The timer's [`LoadedTimer::name`].
    pub name: String,
    /// The path of the timer's own file, since timers in several folders can have the same name.
    pub path: String,
    pub flaw: GuardFlaw,
}

/// Returns whether the timer has exceptions and is one of the `unguarded` timers, and systemd surely ignores them.
pub(crate) fn has_ignored_exceptions(timer: &LoadedTimer, unguarded: &[UnguardedTimer]) -> bool
    ensures { result ≡ has_ignored_exceptions (map unguarded_seen unguarded.now) timer.now }
{
    !timer.exceptions().is_empty() && is_among(timer, unguarded)
}

fn is_among(timer: &LoadedTimer, unguarded: &[UnguardedTimer]) -> bool
    ensures { result ≡ list_any (is_ignored_entry timer.now) (map unguarded_seen unguarded.now) }
{
    for entry in unguarded {
        if is_ignored(entry.flaw) && is_entry_of(timer, entry) {
            return true;
        }
    }
    false
}

fn is_entry_of(timer: &LoadedTimer, entry: &UnguardedTimer) -> bool
    ensures { result ≡ is_entry_of timer.now (unguarded_seen entry.now) }
{
    timer.name.as_str() == entry.name.as_str() && own_path(timer) == entry.path.as_str()
}

/// Returns whether systemd surely ignores the exceptions.
fn is_ignored(flaw: GuardFlaw) -> bool
    ensures { result ≡ is_ignored flaw }
{
    match flaw {
        GuardFlaw::Missing | GuardFlaw::FailureAccepted => true,
        GuardFlaw::Unknown => false,
    }
}

/// Returns the path of the timer's own file, the first of its files. Empty if the timer has no file.
pub fn own_path(timer: &LoadedTimer) -> &str
    ensures { result.now ≡ own_path timer.now }
{
    match timer.files.texts.as_slice().first() {
        Some(own) => own.path.as_str(),
        None => "",
    }
}
