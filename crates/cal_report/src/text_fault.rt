//! Why a calendar expression, a timestamp or a time span gets no report.

ghost use Rattle.std.specs.Prelude.{◌≡◌};
ghost use Rattle.cal_report.specs.rules.TextReport.{text_fault_message};

use cal_span::SpanFault;
use cal_spec::SpecFault;
use cal_stamp::StampFault;

/// Why a text gets no report: it is rejected, or memory ran out.
#[derive(Clone, Copy, PartialEq, Eq)]
pub enum TextFault {
    /// Not a valid calendar expression.
    Spec(SpecFault),
    /// A valid calendar expression that names a time zone which is neither `UTC` nor in the zone table.
    NoSuchZone,
    /// Not a valid timestamp.
    Stamp(StampFault),
    /// Not a valid time span.
    Span(SpanFault),
    /// Allocation failed.
    NoMemory,
}

impl TextFault {
    /// Returns the message to report, which is empty for [`TextFault::NoMemory`]: the caller handles that case.
    pub fn words(&self) -> &str
        ensures { result.now ≡ text_fault_message self.now }
    {
        match self {
            TextFault::Spec(fault) => fault.words(),
            TextFault::NoSuchZone => "no such zone",
            TextFault::Stamp(fault) => fault.words(),
            TextFault::Span(fault) => fault.words(),
            TextFault::NoMemory => "",
        }
    }
}
