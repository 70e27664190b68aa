//! Reading crontabs, and the report of their entries as settings of timers.
#![tactic(auto)]

mod crontab_files;
mod crontabs;
mod document;
mod entries;
mod entry_text;
mod error_lines;
mod findings;
mod folders;
mod laws;
mod lines;
mod notes;

pub use crontab_files::{is_crontab, load_crontab_files};
pub use crontabs::{Crontab, Crontabs, is_path_start, load_crontabs};
pub use document::entries_json;
pub use entries::{CronEntry, CronReport, cron_report};
pub use entry_text::entries_text;
pub use findings::{CronFinding, CronFindingKind, cron_findings};
pub use laws::{times_are_read, unused_entries_are_found};
