//! The keys of the section `Timer` by kind (systemd.timer(5), Options).

ghost use Rattle.std.specs.Prelude.{◌≡◌, find, map};
ghost use Rattle.std.specs.List.{list_any};
ghost use Rattle.std.specs.Str.{bytes_eq};
ghost use Rattle.cal_timer.specs.rules.Keys.{clears_expressions, is_calendar_trigger, is_exception_key, keys_of, kind_of};

use cal_bytes::is_among;

/// A kind of key in the section `Timer`.
#[derive(Clone, Copy, PartialEq, Eq, Debug)]
pub enum KeyKind {
    /// How long after an event, such as boot, the unit starts: `OnBootSec=` and the other monotonic timers. The value
    /// is a time span.
    SpanTrigger,
    /// Whether a change of the clock or of the time zone starts the unit. The value is a boolean.
    ChangeTrigger,
    /// When the unit starts: `OnCalendar=`. The value is a calendar expression.
    CalendarTrigger,
    /// When the timer doesn't elapse even if an expression does: this project's key `X-ExceptOnCalendar=`. The value is
    /// a calendar expression.
    Exception,
    /// `Persistent=`, whether a missed start is made up for, or `FixedRandomDelay=`, whether a random delay is always
    /// the same. The value is a boolean.
    TimingBoolean,
    /// `WakeSystem=`, whether the timer wakes the system, or `RemainAfterElapse=`, whether the timer stays loaded after
    /// its last elapse. The value is a boolean.
    OtherBoolean,
    /// The maximum random delay of a start. The value is a time span.
    Delay,
    /// How accurate the time of a start is. The value is a time span.
    Accuracy,
    /// Which unit the timer starts. The value is the name of a unit.
    StartedUnit,
}

impl KeyKind {
    const ALL: [KeyKind; 9] = [
        KeyKind::SpanTrigger,
        KeyKind::ChangeTrigger,
        KeyKind::CalendarTrigger,
        KeyKind::Exception,
        KeyKind::TimingBoolean,
        KeyKind::OtherBoolean,
        KeyKind::Delay,
        KeyKind::Accuracy,
        KeyKind::StartedUnit,
    ];

    /// Returns the keys of this kind.
    #[tactic(auto, unfolding(crate::specs::rules::Keys::keys_of))]
    fn keys(self) -> &'static [&'static [u8]]
        ensures { map (λ key. key.now) result.now ≡ keys_of self }
    {
        match self {
            KeyKind::SpanTrigger => &[
                b"OnActiveSec",
                b"OnBootSec",
                b"OnStartupSec",
                b"OnUnitActiveSec",
                b"OnUnitInactiveSec",
            ],
            KeyKind::ChangeTrigger => &[b"OnClockChange", b"OnTimezoneChange"],
            KeyKind::CalendarTrigger => &[b"OnCalendar"],
            KeyKind::Exception => &[b"X-ExceptOnCalendar"],
            KeyKind::TimingBoolean => &[b"Persistent", b"FixedRandomDelay"],
            KeyKind::OtherBoolean => &[b"WakeSystem", b"RemainAfterElapse"],
            KeyKind::Delay => &[b"RandomizedDelaySec"],
            KeyKind::Accuracy => &[b"AccuracySec"],
            KeyKind::StartedUnit => &[b"Unit"],
        }
    }
}

/// Returns the kind of a key, or `None` if neither systemd nor this project knows the key.
#[tactic(auto, unfolding(crate::specs::rules::Keys::kind_of))]
pub fn kind_of(key: &str) -> Option<KeyKind>
    ensures { result ≡ kind_of key.now }
{
    find_kind(&KeyKind::ALL, key.as_bytes())
}

/// Returns the first of these kinds that has the key, or `None` if none of them has it.
fn find_kind(kinds: &[KeyKind], key: &[u8]) -> Option<KeyKind>
    ensures { result ≡ find (λ kind. list_any (bytes_eq key.now) (keys_of kind)) kinds.now }
{
    for kind in kinds {
        if is_among(kind.keys(), key) {
            return Some(*kind);
        }
    }
    None
}

pub(crate) fn is_calendar_trigger(key: &str) -> bool
    ensures { result ≡ is_calendar_trigger (kind_of key.now) }
{
    matches!(kind_of(key), Some(KeyKind::CalendarTrigger))
}

pub(crate) fn is_exception_key(key: &str) -> bool
    ensures { result ≡ is_exception_key (kind_of key.now) }
{
    matches!(kind_of(key), Some(KeyKind::Exception))
}

/// Returns whether an empty value of the key clears the list of expressions.
pub(crate) fn clears_expressions(key: &str) -> bool
    ensures { result ≡ clears_expressions (kind_of key.now) }
{
    matches!(
        kind_of(key),
        Some(KeyKind::SpanTrigger | KeyKind::CalendarTrigger)
    )
}
