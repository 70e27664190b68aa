//! The program's whole work, from its arguments to its exit status.
#![tactic(auto)]

mod arguments_to_bytes;
mod stop;
pub mod work_laws;

pub use arguments_to_bytes::{Ended, work};
pub use cal_machine::{Inputs, OpenFault};
pub use cal_zone::{LoadFault, load_zone};
pub use stop::{Stop, write_stop};
