//! The zone in which each calendar expression is evaluated, and the elapses of several expressions together, without
//! those of the exceptions. An exception is an expression; when it elapses, the timer doesn't.
#![tactic(auto)]

mod instants;
pub mod laws;
mod merge;
mod plan_fault;
mod unzoned;
mod zones;

pub use instants::Instants;
pub use merge::merge_of;
pub use plan_fault::PlanFault;
pub use unzoned::first_unzoned;
pub use zones::zone_for;
