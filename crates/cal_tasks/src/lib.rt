//! The reports of `calendar-timers` about timers that were loaded: a list of their next elapses, each timer in detail,
//! their elapses in a range of instants, and what only one of two timers has. Also, whether the run of a service that
//! starts now is due, and which expressions and exceptions have no effect.
#![tactic(auto)]

mod at_instant;
mod between_report;
mod clock_note;
mod clock_shift;
mod difference;
mod due;
mod elapses;
mod from_crontab;
mod idle;
mod kept_notes;
mod list_report;
mod midnight;
mod next;
mod notes;
mod order;
mod past;
mod present;
mod range;
pub mod report_laws;
mod same_report;
mod several;
mod show_report;
mod shown;
mod skipped;
mod timer_elapse;
mod unguarded;
mod when;
mod zone_change;

pub use between_report::between_rows;
pub use due::{BootTime, DueRun, due_run};
pub use idle::{IdleKind, IdleLine, idle_lines};
pub use list_report::list_rows;
pub use midnight::stops_at_midnight;
pub use present::Present;
pub use same_report::compare;
pub use show_report::shown_timer;
pub use unguarded::{GuardFlaw, UnguardedTimer, own_path};
pub use when::{WhenFault, read_when};
