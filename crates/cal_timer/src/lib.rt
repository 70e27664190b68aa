//! Timer files: their logical lines (systemd.syntax(7)), their assignments, and the lists of calendar expressions and
//! exceptions (systemd.timer(5)).
#![tactic(auto)]

mod assignments;
mod fault;
mod file;
mod keys;
pub mod laws;
pub mod line_laws;
mod lines;
mod lists;
mod timer;

pub use assignments::{Assignment, read_assignment, section};
pub use fault::TimerFault;
pub use file::{read_timer, without_mark};
pub use keys::{KeyKind, kind_of};
pub use lines::{LogicalLine, first_line, first_logical, trim};
pub use lists::{MAX_EXPRESSIONS, TimerLists};
pub use timer::{Timer, TimerLine};
