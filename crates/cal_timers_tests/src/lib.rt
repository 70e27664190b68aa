//! Tests of `calendar-timers` on machines in memory. What a contract proves for all arguments, or a transcript shows of
//! the program, is not tested again.
#![tactic(auto)]

#[cfg(test)]
mod answers;
#[cfg(test)]
mod crontab;
#[cfg(test)]
mod due;
#[cfg(test)]
mod lint;
