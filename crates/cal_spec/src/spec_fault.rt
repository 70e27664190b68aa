//! Errors that parsing a calendar expression can return.

ghost use Rattle.std.specs.Prelude.{◌≡◌};

use thiserror::Error;

/// Why parsing a calendar expression failed (systemd.time(7), Calendar Events): the error of the first check that
/// fails, or `NoMemory`.
#[derive(Clone, Copy, PartialEq, Eq, Debug, Error)]
pub enum SpecFault {
    /// The text has no words.
    #[error("empty expression")]
    Empty = 1,
    /// The text has more than 4,096 bytes.
    #[error("expression longer than 4096 bytes")]
    TextTooLong = 2,
    /// The weekday list is malformed or contains an unknown weekday.
    #[error("bad weekday")]
    BadWeekday = 3,
    /// The date doesn't have two or three components, `~` stands anywhere but before the day, or a component is
    /// malformed.
    #[error("bad date")]
    BadDate = 4,
    /// The time doesn't have two or three components, or one of them is malformed.
    #[error("bad time")]
    BadTime = 5,
    /// In the seconds, a number is followed by a single point, as if a fraction came next.
    #[error("fractions of a second are not supported")]
    FractionalSecond = 6,
    /// A number is above 9,999. This is checked for steps, too.
    #[error("number above 9999")]
    NumberTooLarge = 7,
    /// The start or the end of a part is out of range for its component. Steps have no range of their own.
    #[error("value out of range")]
    OutOfField = 8,
    /// A range ends below its start.
    #[error("range runs backwards")]
    BackwardRange = 9,
    /// The step of a repetition is zero.
    #[error("repetition of zero")]
    ZeroRepeat = 10,
    /// An open-ended repetition, such as `20/4` in the hour, doesn't reach a second number.
    #[error("repetition reaches no further value")]
    NoRepeat = 11,
    /// There are more than 240 parts, not counting the first part of the hour, of the minute and of the second.
    #[error("more than 240 parts")]
    TooManyParts = 12,
    /// There is an unexpected word: it comes after the zone, or it stands where a zone is expected but is not a zone.
    #[error("stray word")]
    StrayWord = 13,
    /// The first word begins with a letter and consists only of letters and `-`, but it is not a shorthand, and its
    /// leading letters don't name a weekday.
    #[error("unknown shorthand")]
    UnknownShorthand = 14,
    /// Allocation failed, so it isn't known whether the text is valid.
    #[error("")]
    NoMemory = 15,
}

impl SpecFault {
    ghost use Rattle.cal_spec.specs.rules.SpecFault.{message_of};

    /// Returns the message for users, as `Display` prints it. It is empty for [`SpecFault::NoMemory`].
    pub fn words(&self) -> &str
        ensures { result.now ≡ message_of self.now }
    {
        match self {
            SpecFault::Empty => "empty expression",
            SpecFault::TextTooLong => "expression longer than 4096 bytes",
            SpecFault::BadWeekday => "bad weekday",
            SpecFault::BadDate => "bad date",
            SpecFault::BadTime => "bad time",
            SpecFault::FractionalSecond => "fractions of a second are not supported",
            SpecFault::NumberTooLarge => "number above 9999",
            SpecFault::OutOfField => "value out of range",
            SpecFault::BackwardRange => "range runs backwards",
            SpecFault::ZeroRepeat => "repetition of zero",
            SpecFault::NoRepeat => "repetition reaches no further value",
            SpecFault::TooManyParts => "more than 240 parts",
            SpecFault::StrayWord => "stray word",
            SpecFault::UnknownShorthand => "unknown shorthand",
            SpecFault::NoMemory => "",
        }
    }
}
