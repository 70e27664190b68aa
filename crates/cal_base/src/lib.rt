//! Bytes, words, time spans, instants and zones, re-exported from the crates that the rest of the project is built on.
#![tactic(auto)]

pub use cal_bytes::{
    Faulty, Fill, Output, Port, SHORT_TEXT_ROOM, ShortText, Sink, Source, Then, WholeFault,
    WriteFault, are_digits, blanks_in_front, decimal_value, first_word, is_among, last_word,
    padding, push, push_all, put_all, put_pieces, read_whole, trim_blanks, trim_blanks_end,
    word_len,
};
pub use cal_civil::{
    DAY, FIRST_YEAR, LAST_YEAR, LOCAL_END, MAX_OFFSET, WEEK, begins_with_letter, begins_zone,
    date_of_day, day_of, is_utc_name, is_zone_name, push_offset, read_offset, second_of_day,
    short_weekday_name, weekday_name,
};
pub use cal_span::{
    SPAN_ROOM, Span, SpanFault, TimeUnit, format_span, fraction_of, one_text, one_value, push_span,
    read_span, text_reads_back, write_span,
};
pub use cal_zone::{
    Civil, Instant, InstantFormatter, LoadFault, MICROS_PER_SECOND, Moment, PlaceCache, Rules,
    Setting, Zone, ZoneArgument, ZoneFault, ZoneName, ZoneTable, civil, laws, load_named,
    load_zone, place, push_instant, settle, write_instant,
};
