//! Running a request: parsing its texts, and writing the reports and the error lines.
#![tactic(auto)]

mod context;
mod elapse_lines;
pub mod laws;
mod local_and_utc;
mod parsed;
mod report;
mod report_lines;
mod text_fault;
mod text_report;
mod timer_report;

pub use report::{run, run_texts, run_timer};
