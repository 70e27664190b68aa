//! Parsing of the arguments of `calendar-timers`: a question, and the options that most verbs share.
#![tactic(auto)]

mod arguments;
mod clap_command;
pub mod command_laws;
mod command_line;
mod find;
mod help_texts;
mod messages;
mod options;
mod question;
mod values;
mod verb;
mod verb_first;
mod verb_questions;

pub use question::{Command, Options, Question};
pub use verb::Verb;
pub use verb_first::asks_due;
