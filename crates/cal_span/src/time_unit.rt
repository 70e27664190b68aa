//! The units of time spans: their lengths and their spellings.

ghost use Rattle.std.specs.Prelude.{◌≡◌, ◌≤◌, ◌<◌, length, map};
ghost use Rattle.cal_span.specs.rules.UnitSpellings.{spellings_of};
ghost use Rattle.cal_span.specs.rules.TimeUnit.{size_of, unit_name};

/// A unit of time (systemd.time(7), Parsing Time Spans).
#[derive(Clone, Copy, PartialEq, Eq, Debug)]
pub enum TimeUnit {
    /// 365.25 days.
    Year,
    /// A twelfth of a year.
    Month,
    /// 7 days.
    Week,
    /// 24 hours.
    Day,
    /// 60 minutes.
    Hour,
    /// 60 seconds.
    Minute,
    /// The default unit, for a number without a unit.
    Second,
    /// A thousandth of a second.
    Millisecond,
    /// A millionth of a second. This is the resolution of time spans.
    Microsecond,
}

impl TimeUnit {
    /// All units, from the largest to the smallest.
    pub const ALL: [TimeUnit; 9] = [
        TimeUnit::Year,
        TimeUnit::Month,
        TimeUnit::Week,
        TimeUnit::Day,
        TimeUnit::Hour,
        TimeUnit::Minute,
        TimeUnit::Second,
        TimeUnit::Millisecond,
        TimeUnit::Microsecond,
    ];

    /// Returns the length of the unit in microseconds, from 1 to 31,557,600,000,000. A year is 365.25 days and a month
    /// is a twelfth of a year (systemd.time(7), Parsing Time Spans).
    pub fn micros(self) -> u64
        ensures value { result ≡ size_of self }
        ensures positive { 0 < result }
        ensures in_year { result ≤ size_of TimeUnit.Year }
    {
        match self {
            TimeUnit::Year => 31_557_600_000_000,
            TimeUnit::Month => 2_629_800_000_000,
            TimeUnit::Week => 604_800_000_000,
            TimeUnit::Day => 86_400_000_000,
            TimeUnit::Hour => 3_600_000_000,
            TimeUnit::Minute => 60_000_000,
            TimeUnit::Second => 1_000_000,
            TimeUnit::Millisecond => 1_000,
            TimeUnit::Microsecond => 1,
        }
    }

    /// Returns all spellings of the unit in UTF-8, the long ones first (systemd.time(7), Parsing Time Spans). Case
    /// matters.
    #[tactic(auto, unfolding(crate::specs::rules::UnitSpellings::spellings_of))]
    pub fn spellings(self) -> &'static [&'static [u8]]
        ensures { map (λ word. word.now) result.now ≡ spellings_of self }
    {
        match self {
            TimeUnit::Year => &[b"years", b"year", b"y"],
            TimeUnit::Month => &[b"months", b"month", b"M"],
            TimeUnit::Week => &[b"weeks", b"week", b"w"],
            TimeUnit::Day => &[b"days", b"day", b"d"],
            TimeUnit::Hour => &[b"hours", b"hour", b"hr", b"h"],
            TimeUnit::Minute => &[b"minutes", b"minute", b"min", b"m"],
            TimeUnit::Second => &[b"seconds", b"second", b"sec", b"s"],
            TimeUnit::Millisecond => &[b"msec", b"ms"],
            // The last two spellings begin with the micro sign, U+00B5, and the Greek letter mu, U+03BC, respectively.
            TimeUnit::Microsecond => &[b"usec", b"us", b"\xc2\xb5s", b"\xce\xbcs"],
        }
    }

    /// Returns the spelling with which the unit is printed, at most 5 bytes.
    #[tactic(auto, unfolding(crate::specs::rules::TimeUnit::unit_name))]
    pub fn name(self) -> &'static str
        ensures name { result.now ≡ unit_name self }
        ensures short { length result.now ≤ 5 }
    {
        match self {
            TimeUnit::Year => "y",
            TimeUnit::Month => "month",
            TimeUnit::Week => "w",
            TimeUnit::Day => "d",
            TimeUnit::Hour => "h",
            TimeUnit::Minute => "min",
            TimeUnit::Second => "s",
            TimeUnit::Millisecond => "ms",
            TimeUnit::Microsecond => "us",
        }
    }
}
