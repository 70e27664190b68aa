//! The fields of a calendar expression, as parsed or in normal form.

use crate::Part;
use crate::zone_suffix::ZoneSuffix;

/// The components of a date. `None` stands for `*`.
#[derive(PartialEq, Eq, Debug, Drop)]
pub struct DateFields {
    pub year: Option<Vec<Part>>,
    pub month: Option<Vec<Part>>,
    pub day: Option<Vec<Part>>,
    /// Whether the day is counted from the month's end.
    pub from_end: bool,
}

/// The components of a time of day. `None` stands for `*`.
#[derive(PartialEq, Eq, Debug, Drop)]
pub struct TimeFields {
    pub hour: Option<Vec<Part>>,
    pub minute: Option<Vec<Part>>,
    pub second: Option<Vec<Part>>,
}

/// The fields of a calendar expression: weekdays, date, time and zone. `zone` is `None` if the expression has no zone.
#[derive(PartialEq, Eq, Debug, Drop)]
pub struct Fields {
    /// Which weekdays match, from Monday to Sunday.
    pub weekdays: [bool; 7],
    pub date: DateFields,
    pub time: TimeFields,
    pub zone: Option<ZoneSuffix>,
}
