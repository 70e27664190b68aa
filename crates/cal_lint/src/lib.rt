//! Advice on timer units: the errors in them, what systemd 252 rejects, computes wrongly or ignores, what to write
//! instead of common mistakes, and which valid expressions may not mean what their author thinks.
#![tactic(auto)]

mod accepted;
mod ambiguities;
mod closed_steps;
mod columns;
mod crontab;
mod hint_words;
mod hints;
mod ignored_values;
mod install_names;
mod instances;
mod older_systemd;
mod open_steps;
mod problems;
mod sections;
mod setting_problems;
mod unknown_keys;

pub use ambiguities::{Ambiguity, find_ambiguity, looks_like_abbreviation};
pub use closed_steps::closed_form;
pub use hints::{Hint, Mistake, find_hint};
pub use older_systemd::{Rejection, systemd_252};
pub use open_steps::{OpenStepFlaw, find_open_step_flaw, open_step_flaw};
pub use problems::{Finding, Problem, ProblemKind, findings};
pub use sections::Section;
pub use setting_problems::reported_flaw;
