//! The errors for time spans.

ghost use Rattle.std.specs.Prelude.{◌≡◌};

use thiserror::Error;

/// Why a time span is invalid.
///
/// A time span is a list of pairs, each a number with an optional unit (systemd.time(7), Parsing Time Spans). If
/// several pairs are invalid, the error of the leftmost one is reported.
#[derive(Clone, Copy, PartialEq, Eq, Debug, Error)]
pub enum SpanFault {
    /// There are no pairs: the time span is empty or blank.
    #[error("empty time span")]
    Empty = 1,
    /// A number is expected, but the word is not a number. A number has one or more digits and at most one decimal
    /// point.
    #[error("bad number")]
    BadNumber = 2,
    /// The word of letters after the number is not a unit.
    #[error("unknown unit")]
    UnknownUnit = 3,
    /// The value of this pair and the values of all pairs before it add up to more than 9,223,372,036,854,775,807
    /// microseconds.
    #[error("time span too large")]
    TooLarge = 4,
}

impl SpanFault {
    ghost use Rattle.cal_span.specs.rules.SpanFault.{message_of};

    /// Returns the message for users. `Display` prints it, too.
    pub fn words(&self) -> &str
        ensures { result.now ≡ message_of self.now }
    {
        match self {
            SpanFault::Empty => "empty time span",
            SpanFault::BadNumber => "bad number",
            SpanFault::UnknownUnit => "unknown unit",
            SpanFault::TooLarge => "time span too large",
        }
    }
}
