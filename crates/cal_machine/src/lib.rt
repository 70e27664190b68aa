//! The system that a program runs on: its folders, files and links, its environment variables and its clock.
#![tactic(auto)]

mod copies;
mod follow;
mod host_inputs;
mod host_system;
mod inputs;
mod keep;
mod prefix;
mod recorder;
mod steps;
mod system;
mod tree;

pub use follow::{Content, Last, Place, find_place, look_at, names_at, read_at};
pub use host_inputs::HostInputs;
pub use host_system::HostSystem;
pub use inputs::{Inputs, OpenFault};
pub use prefix::after_prefix;
pub use recorder::Recorder;
pub use steps::before_last_byte;
pub use system::System;
pub use tree::{Entry, FILE_BYTES, Names, Tree, TreeFault, Unreadable};
