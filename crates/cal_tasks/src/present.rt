//! The present and the local zone.

use cal_zone::{Instant, Zone};

/// The present and the local zone, on which the elapses of a timer depend.
#[derive(Clone, Copy)]
pub struct Present<'a> {
    /// The present, in whole seconds of Unix time. The next elapses are those after it.
    pub now: Instant,
    /// The local zone: the zone of expressions that don't end in a zone or a UTC offset.
    pub local: Zone<'a>,
}
