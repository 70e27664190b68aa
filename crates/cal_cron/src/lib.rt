//! Crontabs (crontab(5)), and the calendar expressions that elapse when cron runs their lines.
#![tactic(auto)]

mod columns;
mod cron_exprs;
mod cron_fault;
mod cron_field;
mod crontab;
mod entries;
mod expression_texts;
mod field_fault;
mod fields;
pub mod grammar_laws;
mod items;
pub mod laws;
mod line_texts;
mod lines;
mod no_memory;
mod parts;
mod shortcuts;
mod values;
mod weekdays;

pub use columns::fault_start;
pub use cron_exprs::{CronExprs, read_cron};
pub use cron_fault::CronFault;
pub use cron_field::CronField;
pub use crontab::{
    Assignment, CrontabEntry, CrontabFormat, CrontabLine, EntryFault, EntryTime, LineContent,
    LineFault,
};
pub use entries::{read_crontab, read_entry_time};
pub use field_fault::FieldFault;
pub use fields::read_field;
pub use items::CronRange;
pub use lines::{CronLine, read_line};
