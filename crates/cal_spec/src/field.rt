//! The six components of a calendar expression, and the parts of a component.

/// A component of a calendar expression.
#[derive(Clone, Copy, PartialEq, Eq, Debug)]
pub enum Field {
    /// The year, from 1970 to 2199.
    Year,
    /// The month, from 1 to 12.
    Month,
    /// The day of the month, or its count from the month's end, where 1 is the last day.
    Day,
    /// The hour, from 0 to 23.
    Hour,
    /// The minute, from 0 to 59.
    Minute,
    /// The second, from 0 to 59.
    Second,
}

/// A part of a component: `a`, `a/r`, `a..b` or `a..b/r`. It is a range if it has an end, a repetition if it has a
/// step, and a single number if it has neither.
///
/// Parts are ordered by their start, then by their end, then by their step. `None` comes before any number.
#[derive(Clone, Copy, PartialEq, Eq, PartialOrd, Ord, Debug)]
pub struct Part {
    /// The first number. In an open-ended repetition (`a/r`) of days counted from the month's end, it is the greatest
    /// number, since the repetition counts downwards.
    pub start: u16,
    /// The upper bound of a range.
    pub end: Option<u16>,
    /// The distance between consecutive numbers of a repetition.
    pub step: Option<u16>,
}
