//! Parsing of the program's command line (systemd-analyze(1)).
#![tactic(auto)]

mod arguments;
mod ask;
mod clap_command;
mod command_fault;
pub mod command_laws;
mod command_line;
mod found;
mod option_values;
mod verb_help;
mod verb_matches;

pub use ask::{Ask, ZoneItem};
/// The type of [`Ask::local`]. Users of this crate know it by this name; the crates here call it `ZoneArgument`.
pub use cal_zone::ZoneArgument as LocalZone;
pub use command_fault::CommandFault;
