//! The report of each verb of `calendar-timers`: as data, as text for people, and as a JSON document.
//!
//! In texts, control characters of names, paths and values are printed as `\xNN`, so that they can't change the
//! terminal. Columns are measured in characters. Each document is an indented JSON text (RFC 8259) that ends with a
//! line feed.
#![tactic(auto)]

mod cells;
mod clock_lines;
mod documents;
mod due;
mod elapse_lines;
mod list;
mod report;
mod show;
mod style;
mod times;

pub use cells::{push_blanks, push_code, push_printable, push_times, shown_width};
pub use documents::{between_json, due_json, lint_json, list_json, same_json, show_json};
pub use due::{DueReport, DueVerdict, due_text};
pub use elapse_lines::{between_text, same_text};
pub use list::list_text;
pub use report::{
    ClockTime, Comparison, ListRow, Place, ProblemRow, ShownLine, ShownTimer, Side, UnitElapse,
};
pub use show::show_text;
pub use style::{Emphasis, Style};
