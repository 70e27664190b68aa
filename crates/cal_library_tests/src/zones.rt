//! Zones: converting local seconds, parsing POSIX rules, finding zones by name, and damaged zone files. Expected values
//! are worked out by hand.

mod damaged;
mod names;
mod places;
mod rules;
