//! The current time and the zones, which stay the same while expressions and timestamps are evaluated.

use crate::{Instant, Zone, ZoneTable};

/// The current time and the zones. They decide what a timestamp resolves to and in which zone an expression is
/// evaluated.
#[derive(Clone, Copy)]
pub struct Setting<'a> {
    /// The current time: what `now` in a timestamp resolves to, and what `today` and relative timestamps start from.
    pub now: Instant,
    /// The local zone: the zone of timestamps and expressions that don't name one.
    pub local: Zone<'a>,
    /// The zones that timestamps and expressions can name.
    pub zones: &'a ZoneTable,
}
