//! Time spans: parsing and printing them.
#![tactic(auto)]

mod span;
mod time_unit;

pub use cal_bytes::{are_digits, decimal_value};
pub use span::Span;
pub use span::fault::SpanFault;
pub use span::number::fraction_of;
pub use span::rule::one_value;
pub use span::text::{SPAN_ROOM, format_span, one_text, push_span, text_reads_back, write_span};
pub use span::value::read_span;
pub use time_unit::TimeUnit;
