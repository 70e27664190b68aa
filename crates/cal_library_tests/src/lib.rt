//! Tests of the library through its public functions, one module for each subject. What a contract proves for all
//! arguments is not tested again.
#![tactic(auto)]

#[cfg(test)]
mod bytes;
#[cfg(test)]
mod elapses;
#[cfg(test)]
mod expressions;
#[cfg(test)]
mod faults;
#[cfg(test)]
mod instants;
pub mod memory;
#[cfg(test)]
mod numbers;
#[cfg(test)]
mod refused;
#[cfg(test)]
mod searches;
#[cfg(test)]
mod section_assignments;
pub mod shared;
#[cfg(test)]
mod spans;
#[cfg(test)]
mod texts;
#[cfg(test)]
mod timers;
#[cfg(test)]
mod timestamps;
#[cfg(test)]
mod zones;
