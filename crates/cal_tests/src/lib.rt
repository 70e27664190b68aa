//! Tests of the whole program through public functions: the command line, the reports, and the work from the arguments
//! to the status. Each subject has a module of its own. What a contract proves for all arguments is not tested again.
#![tactic(auto)]

#[cfg(test)]
mod command_lines;
#[cfg(test)]
mod faults;
#[cfg(test)]
mod refused;
#[cfg(test)]
mod reports;
#[cfg(test)]
mod stops;
#[cfg(test)]
mod work;
#[cfg(test)]
mod zone_files;
