//! Settings that systemd ignores because of their values (systemd.timer(5), Options).

ghost use Rattle.std.specs.Prelude.{◌≡◌};
ghost use Rattle.cal_timer.specs.rules.TimerView.{shown_assignment};
ghost use Rattle.cal_lint.specs.rules.IgnoredValues.{ignored_setting};

use cal_read::Assignment;
use cal_timer::{KeyKind, kind_of};
use cal_unit_index::is_taken_as;

/// Returns the kind of the setting if systemd ignores the assignment because of its value. An empty value that clears
/// the monotonic timers isn't ignored.
pub(crate) fn ignored_setting(assignment: Assignment<'_>) -> Option<KeyKind>
    ensures { result ≡ ignored_setting (shown_assignment assignment.entry) }
{
    let kind = kind_of(assignment.key)?;
    if assignment.is_reset() || is_taken_as(kind, assignment.value) {
        return None;
    }
    Some(kind)
}
