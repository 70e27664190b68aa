//! Days, weekdays, UTC offsets and the form of zone names: the parts of civil time that don't depend on a zone's rules.
#![tactic(auto)]

mod days;
mod offset_text;
mod offset_word;
mod weekday;
mod zone_name;

pub use days::{
    DAY, FIRST_YEAR, LAST_YEAR, LOCAL_END, MAX_OFFSET, date_of_day, day_of, second_of_day,
};
pub use offset_text::push_offset;
pub use offset_word::{begins_zone, read_offset};
pub use weekday::{WEEK, short_weekday_name, weekday_name};
pub use zone_name::{begins_with_letter, is_utc_name, is_zone_name};
