//! Calendar expressions: parsing, normal form, printing, and matching of local times (systemd.time(7), Calendar
//! Events).
#![tactic(auto)]

mod components;
mod date_and_time;
mod expr;
mod expr_text;
mod fault_word;
mod field;
mod fields;
pub mod grammar_laws;
pub mod laws;
mod matching;
mod members;
mod no_memory;
mod normal_form;
mod numbers;
mod parts;
mod pieces;
mod read;
mod shorthand;
mod slot;
mod spec_fault;
mod weekday_runs;
mod weekdays;
mod words;
mod zone_suffix;

pub use expr::Expr;
pub use expr_text::{normal_text, write_expr};
pub use fault_word::fault_span;
pub use field::{Field, Part};
pub use fields::{DateFields, Fields, TimeFields};
pub use matching::day_value;
pub use parts::with_century;
pub use pieces::first_piece;
pub use read::read_expr;
pub use slot::{Slot, day_slot};
pub use spec_fault::SpecFault;
pub use weekdays::{find_day, letters_len};
pub use zone_suffix::ZoneSuffix;
