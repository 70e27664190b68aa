//! Timestamps (systemd.time(7), Parsing Timestamps).
#![tactic(auto)]

mod civil;
mod civil_stamp;
mod date;
mod fault;
mod form;
pub mod laws;
mod moment;
mod stamp;
mod text;
mod time;
mod zone;

pub use fault::StampFault;
pub use stamp::{read_stamp, read_stamp_in};
