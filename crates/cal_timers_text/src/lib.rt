//! The messages, warnings and error lines of `calendar-timers`.
//!
//! In names, paths and values, control characters are printed as `\xNN`, so that they can't change the terminal.
#![tactic(auto)]

mod fault_lines;
mod finding_lines;
mod messages;
mod service_lines;
mod warnings;

pub use fault_lines::{
    NOTHING_TO_DO, broken_drop_in_words, broken_file_words, broken_text, fault_text, ignored_text,
    unread_words, unusable_zone_text, zone_words, zones_text,
};
pub use finding_lines::{ProblemCounts, finding_text, placed_text, problem_text, push_counts};
pub use messages::{
    idle_words, ignored_setting_words, invalid_words, message_of, missing_unit_words, mistake_words,
};
pub use service_lines::{service_suggestion, unguarded_message, unguarded_text};
pub use warnings::warnings_of;
