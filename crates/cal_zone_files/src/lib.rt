//! The zones of a machine: its local zone, and the zones that expressions name, which are loaded from zone files.
#![tactic(auto)]

mod fault;
mod load;
mod local_zone;
mod variable;

pub use fault::{FileReason, Origin, ZonesFault};
pub use load::{ZONE_FOLDER, load_machine_zone, load_zone, load_zones};
pub use local_zone::find_local_zone;
