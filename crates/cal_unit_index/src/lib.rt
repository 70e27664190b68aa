//! Which files make up a timer unit on a machine (systemd.unit(5)), what they contain, and which values systemd accepts
//! for the settings in them.
#![tactic(auto)]

mod aliases;
mod destinations;
mod drop_in_files;
pub mod drop_in_laws;
mod drop_ins;
mod fault;
mod files;
mod folders;
mod follow;
mod index;
mod linked_stems;
mod name_sets;
mod names;
mod paths;
mod read_folder;
mod search_path;
mod setting_values;
mod starts;
mod unit;
mod unit_name;
mod unit_type;

pub use destinations::last_part;
pub use drop_ins::{DropIns, find_drop_ins};
pub use fault::{Reason, UnitFault};
pub use files::{DropInTexts, FileRead, UnitText, read_drop_ins, read_file};
pub use index::{SearchFolder, UnitIndex};
pub use names::names_of;
pub use search_path::{UserVariables, given_path, system_path, user_path};
pub use setting_values::{has_percent, is_longer, is_taken_as, is_yes};
pub use starts::{Started, find_started};
pub use unit::{Unit, UnitFile, find_unit};
pub use unit_name::{
    UnitKind, has_unit_suffix, is_unit_name, stem_base, unit_kind_of, unit_stem, without_suffix,
};
pub use unit_type::UnitType;
