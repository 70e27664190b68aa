//! [`Span`], the value of a time span in microseconds.

ghost use Rattle.std.specs.Prelude.{◌≡◌, ◌≤◌, ◌<◌, MatchOption};
ghost use Rattle.cal_span.specs.rules.PairValue.{limit};

pub(crate) mod fault;
pub(crate) mod number;
pub(crate) mod rule;
pub(crate) mod text;
pub(crate) mod value;
pub(crate) mod word;

/// A time span: a length of time in microseconds, at most 9,223,372,036,854,775,807.
#[derive(Clone, Copy, PartialEq, Eq, Debug)]
pub struct Span {
    micros: u64,
    ghost in_range: { micros ≤ limit },
}

impl Span {
    /// The time span of 0 microseconds, to which the pairs of a time span are added.
    pub(crate) const ZERO: Span = Span { micros: 0 };

    const LIMIT: u64 = 9_223_372_036_854_775_807;

    /// Creates a time span of `micros` microseconds. Returns `None` if `micros` is more than 9,223,372,036,854,775,807.
    pub fn new(micros: u64) -> Option<Span>
        ensures { MatchOption result
            (limit < micros)
            (λ span. (span.micros ≡ micros) × (micros ≤ limit)) }
    {
        if micros <= Self::LIMIT {
            Some(Span { micros })
        } else {
            None
        }
    }

    /// Returns the length in microseconds, at most 9,223,372,036,854,775,807.
    pub fn micros(self) -> u64
        ensures value { result ≡ self.micros }
        ensures in_range { result ≤ limit }
    {
        self.micros
    }
}
