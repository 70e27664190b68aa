//! Sources of strictly increasing numbers, and the merge of several sources into one.
#![tactic(auto)]

pub mod laws;
mod listed;
mod merge;
mod peeked;
mod rising;
mod sources;

pub use listed::Listed;
pub use merge::Merge;
pub use rising::Rising;
/// The error of a call that could not allocate.
pub use std::alloc::AllocError as NoMemory;
