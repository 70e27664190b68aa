//! Timestamps and timer files, for users of the library (systemd.time(7), Parsing Timestamps; systemd.timer(5)). This
//! crate re-exports `cal_stamp` and `cal_timer`, and it reads timers from several texts.
#![tactic(auto)]

mod faults;
pub mod laws;
mod section_assignments;
mod texts;

pub use cal_stamp::{StampFault, laws as stamp_laws, read_stamp, read_stamp_in};
pub use cal_timer::{
    Assignment, KeyKind, LogicalLine, MAX_EXPRESSIONS, Timer, TimerFault, TimerLine, TimerLists,
    first_line, first_logical, kind_of, laws as timer_laws, line_laws, read_assignment, read_timer,
    section, trim, without_mark,
};
pub use faults::find_faults;
pub use section_assignments::{Assignments, OwnedAssignment};
pub use texts::{FileFault, NumberedText, read_texts};
