//! An elapse of one of several timers.

use cal_zone::Instant;

/// An instant, and the timer that elapses then.
#[derive(Clone, Copy)]
pub struct TimerElapse {
    pub instant: Instant,
    /// The index of the timer in the list of timers, from 0.
    pub timer: usize,
}
