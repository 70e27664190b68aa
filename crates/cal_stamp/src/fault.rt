//! The errors for timestamps.

ghost use Rattle.std.specs.Prelude.{◌≡◌, ◌++◌, codes};
ghost use Rattle.cal_span.specs.rules.SpanFault.{message_of as span_message_of};

use cal_span::SpanFault;

/// Why a timestamp is invalid (systemd.time(7), Parsing Timestamps).
///
/// If several words are invalid, the leftmost error is reported. `WrongWeekday` is reported only if all words are
/// valid, and `OutOfRange` only if there is no other error.
///
/// Each error has a number, which never changes, so that other documents can refer to it:
///
/// | number | error          |
/// |--------|----------------|
/// | 1      | `Empty`        |
/// | 2      | `BadWeekday`   |
/// | 3      | `BadDate`      |
/// | 4      | `BadTime`      |
/// | 5      | `NoSuchDate`   |
/// | 6      | `WrongWeekday` |
/// | 7      | `BadSpan`      |
/// | 8      | `NoSuchZone`   |
/// | 9      | `StrayWord`    |
/// | 10     | `OutOfRange`   |
#[derive(Clone, Copy, PartialEq, Eq, Debug)]
pub enum StampFault {
    /// The timestamp is empty or blank.
    Empty,
    /// The first word begins with a letter, but is not the name of a weekday.
    BadWeekday,
    /// A date is expected, but the word doesn't have the form of a date, or there are no more words.
    BadDate,
    /// A time is expected, but the word is not a time.
    BadTime,
    /// The date is not a day from 1970-01-01 to 2199-12-31.
    NoSuchDate,
    /// The day isn't the weekday that was named.
    WrongWeekday,
    /// The time span of the timestamp is invalid.
    BadSpan(SpanFault),
    /// A word in the position of the zone begins with a letter, but is not the name of a zone.
    NoSuchZone,
    /// A word follows the zone, or a word in the position of the zone begins with a character other than a letter, and
    /// is not an offset.
    StrayWord,
    /// The time is before the first moment, 1970-01-01 00:00:00 UTC, or after the last, which is 7,258,211,998.999999
    /// seconds later.
    OutOfRange,
}

impl StampFault {
    ghost use Rattle.cal_stamp.specs.rules.StampFault.{message_of};

    /// Returns the message for users.
    pub fn words(&self) -> &str
        ensures { result.now ≡ message_of self.now }
    {
        match self {
            StampFault::Empty => "empty timestamp",
            StampFault::BadWeekday => "bad weekday",
            StampFault::BadDate => "bad date",
            StampFault::BadTime => "bad time",
            StampFault::NoSuchDate => "no such date",
            StampFault::WrongWeekday => "weekday does not fit the date",
            StampFault::BadSpan(fault) => span_message(*fault),
            StampFault::NoSuchZone => "no such zone",
            StampFault::StrayWord => "stray word",
            StampFault::OutOfRange => "timestamp out of range",
        }
    }
}

impl From<SpanFault> for StampFault {
    ghost use Rattle.cal_stamp.specs.declared.fault.StampFault.TheVariants.{BadSpan};

    ghost from_gives = { λ fault result. result ≡ BadSpan fault };

    fn from(fault: SpanFault) -> StampFault {
        StampFault::BadSpan(fault)
    }
}

fn span_message(fault: SpanFault) -> &'static str
    ensures { result.now ≡ codes "bad time span: " ++ span_message_of fault }
{
    match fault {
        SpanFault::Empty => "bad time span: empty time span",
        SpanFault::BadNumber => "bad time span: bad number",
        SpanFault::UnknownUnit => "bad time span: unknown unit",
        SpanFault::TooLarge => "bad time span: time span too large",
    }
}
