//! Names of units in the section `Install` (systemd.unit(5), [Install] Section Options).

ghost use Rattle.std.specs.Prelude.{◌≡◌, codes, nat_eq};
ghost use Rattle.std.specs.List.{ends_with, list_all, list_any};
ghost use Rattle.cal_bytes.specs.rules.Separators.{words};
ghost use Rattle.cal_timer.specs.rules.TimerView.{shown_assignment};
ghost use Rattle.cal_lint.specs.rules.InstallNames.{has_bad_name, has_names, is_allowed, is_replaced};

use cal_bytes::{first_word, is_among};
use cal_read::Assignment;
use cal_unit_index::is_unit_name;

/// The keys whose values are names of units.
const KEYS_WITH_NAMES: [&[u8]; 4] = [b"WantedBy", b"RequiredBy", b"Alias", b"Also"];

/// Returns whether the assignment in a section `Install` has a name for which `systemctl enable` fails: one that isn't
/// a unit name, or an alias that isn't the name of a timer. A value with quotes or specifiers isn't checked, since
/// systemd changes it first.
pub(crate) fn has_bad_name(assignment: Assignment<'_>) -> bool
    ensures { result ≡ has_bad_name (shown_assignment assignment.entry) }
{
    has_names(assignment.key)
        && !is_changed(assignment.value)
        && !are_allowed(assignment.key, assignment.value)
}

fn has_names(key: &str) -> bool
    ensures { result ≡ has_names key.now }
{
    is_among(&KEYS_WITH_NAMES, key.as_bytes())
}

/// Returns whether systemd changes the value before it reads the names in it.
fn is_changed(value: &str) -> bool
    ensures { result ≡ list_any is_replaced value.now }
{
    value.as_bytes().iter().any(|byte| is_replaced(*byte))
}

fn is_replaced(byte: u8) -> bool
    ensures { result ≡ is_replaced byte }
{
    matches!(byte, b'"' | b'\'' | b'%')
}

/// Returns whether each word of the value can stand in an assignment of this key.
fn are_allowed(key: &str, value: &str) -> bool
    ensures { result ≡ list_all (is_allowed key.now) (words value.now) }
{
    let mut rest = value;
    while let Some((name, after)) = first_word(rest) {
        if !is_allowed(key, name) {
            return false;
        }
        rest = after;
    }
    true
}

/// Returns whether the name can stand in an assignment of this key.
fn is_allowed(key: &str, name: &str) -> bool
    ensures { result ≡ is_allowed key.now name.now }
{
    is_unit_name(name) && (key != "Alias" || is_timer(name))
}

fn is_timer(name: &str) -> bool
    ensures { result ≡ ends_with nat_eq name.now (codes ".timer") }
{
    name.as_bytes().ends_with(b".timer")
}
