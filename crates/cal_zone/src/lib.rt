//! Instants, zones and civil time.
//!
//! A *local second* is a second of a zone's civil clock, counted from 1970-01-01 00:00:00 on that clock. The *place* of
//! a local second is the second of Unix time at which the clock shows it. If the clock shows it twice, its place is the
//! earlier of the two.
#![tactic(auto)]

mod civil_fields;
mod civil_time;
mod formatted_day;
mod instant;
mod instant_formatter;
mod instant_offset_range;
mod instant_text;
pub mod laws;
mod local_offset_range;
mod locals;
mod moment;
mod place_cache;
mod places;
mod rules;
mod setting;
mod zone;
mod zone_argument;
mod zone_fault;
mod zone_files;
mod zone_name;
mod zone_table;

pub use civil_fields::Civil;
pub use civil_time::civil;
pub use instant::Instant;
pub use instant_formatter::InstantFormatter;
pub use instant_text::{push_instant, write_instant};
pub use moment::{MICROS_PER_SECOND, Moment};
pub use place_cache::PlaceCache;
pub use places::{place, settle};
pub use rules::Rules;
pub use setting::Setting;
pub use zone::Zone;
pub use zone_argument::ZoneArgument;
pub use zone_fault::ZoneFault;
pub use zone_files::{LoadFault, load_named, load_zone};
pub use zone_name::ZoneName;
pub use zone_table::ZoneTable;
