//! The values that stay the same during a run and that every report needs.

use cal_request::Request;
use cal_zone::{Instant, Setting};

/// A request, together with the base time, the present and the time zones of the run.
#[derive(Clone, Copy)]
pub struct Context<'a> {
    /// The request that the run answers.
    pub request: &'a Request,
    /// The base time: only elapses after this instant are reported.
    pub base: Instant,
    /// The present, the local zone, in which instants are printed, and the table of zones.
    pub setting: Setting<'a>,
}
