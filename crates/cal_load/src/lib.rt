//! Loading the timers that a user asks for by unit names, files, folders or expressions, together with the zones that
//! their expressions name; and reading the files of timers without parsing them.
#![tactic(auto)]

mod calendar;
mod condition;
mod expressions;
mod fault;
mod files;
mod folder;
mod guard;
pub mod guard_laws;
mod ignored;
mod loaded;
mod names;
mod notes;
mod paths;
mod readable;
mod resolved;
mod service;
mod specifiers;
mod started;
mod target_fault;
mod texts;
mod timer_files;
mod timers;
mod timing;
mod unit;
mod zones;

pub use calendar::{Calendar, IgnoredLine};
pub use expressions::load_expressions;
pub use files::{LoadedFiles, load_files};
pub use guard::Guard;
pub use ignored::{IgnoredSetting, WhyIgnored, ignored_settings};
pub use loaded::{Loaded, LoadedTimer};
pub use paths::is_path;
pub use readable::{BrokenLine, BrokenReason};
pub use service::service_guard;
pub use started::{is_missing, started_unit};
pub use target_fault::{TargetFault, TargetReason};
pub use timer_files::TimerFiles;
pub use timers::load_timers;
pub use timing::{RunTiming, run_timing};
pub use zones::UnusableZone;
