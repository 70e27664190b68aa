//! Requests to the program, and how a run ends.
#![tactic(auto)]

mod request;
mod request_kind;
mod verb;

pub use request::{Request, RunFault, Status};
pub use request_kind::RequestKind;
pub use verb::{TextVerb, Verb};
