//! All that `calendar-timers` does: from the arguments to the bytes on both outputs, and the exit status.
#![tactic(auto)]

mod answer;
mod arguments_to_bytes;
mod between;
mod boot_time;
mod candidates;
mod compare;
mod cron;
mod crontab_problems;
mod crontab_timers;
mod due;
mod due_faults;
mod fault;
mod found;
pub mod guard_laws;
mod index;
mod lint;
mod loading;
mod local_clock;
mod problems;
mod range_zones;
mod reading;
mod remarks;
pub mod report_laws;
mod search_path;
mod seconds;
mod service_problems;
mod setting_problems;
mod timer_problems;
mod timers;
mod trigger;
mod unguarded;
mod whole;

pub use arguments_to_bytes::answer_arguments;
