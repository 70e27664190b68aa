//! The elapses of calendar expressions in a time zone (systemd.time(7), Calendar Events).
#![tactic(auto)]

mod bits;
mod covers;
mod elapses;
pub mod laws;
mod masks;
mod masks_of;
mod match_test;
mod month;
mod month_days;
mod pending;
mod ring;
mod scan;
mod search;
mod window;

pub use cal_rising::{Listed, Merge, NoMemory, Rising};
pub use elapses::Elapses;
pub use masks::Masks;
pub use pending::Pending;
pub use scan::first_set;
pub use search::{Found, next_local};
