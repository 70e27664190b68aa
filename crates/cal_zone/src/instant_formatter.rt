//! Conversion of many instants to civil time and text in one zone, with caches that make it fast for instants close
//! together.

ghost use Rattle.std.specs.Prelude.{◌≡◌, ◌+◌, ◌≤◌, ◌++◌, length};
ghost use Rattle.cal_bytes.specs.declared.short_text.TheConstants.{SHORT_TEXT_ROOM};
ghost use Rattle.cal_zone.specs.rules.CivilAt.{IsCivil};
ghost use Rattle.cal_zone.specs.rules.Civil.{civil_of};
ghost use Rattle.cal_zone.specs.rules.InstantText.{instant_text};
ghost use Rattle.cal_zone.specs.computed.InstantOffsetRange.{IsInstantOffsetRangeAt};
ghost use Rattle.cal_zone.specs.rules.Zone.{zone_of};

use crate::civil_time::civil_at;
use crate::formatted_day::FormattedDay;
use crate::instant_offset_range::{InstantOffsetRange, instant_range_at};
use crate::{Civil, Instant, Zone};
use cal_bytes::ShortText;
use jiff_core::Offset;
use std::marker::Model;

/// A converter from instants to civil time and text in one zone, fast for instants close together.
///
/// It caches a range with a constant UTC offset, and the day of the instant that was formatted last. The cached values
/// never change a result, so contracts see only the zone.
#[derive(Drop)]
pub struct InstantFormatter<'z> {
    zone: Zone<'z>,
    range: InstantOffsetRange,
    day: FormattedDay,
}

impl<'z> Model for InstantFormatter<'z> {
    ghost use Rattle.cal_zone.specs.declared.zone.Zone.{Zone};
    ghost use Rattle.cal_zone.specs.computed.InstantOffsetRange.{IsInstantOffsetRange};
    ghost use Rattle.cal_zone.specs.computed.FormattedDay.{IsFormattedDay};
    ghost use Rattle.cal_zone.specs.rules.Zone.{zone_of};

    ghost Value = { Zone };

    ghost view = { λ formatter. formatter.zone };

    ghost invariant = { λ formatter. IsInstantOffsetRange (zone_of formatter.zone) formatter.range × IsFormattedDay formatter.zone formatter.day };
}

impl<'z> InstantFormatter<'z> {
    /// Creates a formatter for the zone, with empty caches.
    pub fn new(zone: Zone<'z>) -> InstantFormatter<'z>
        ensures { result ≡ zone.entry }
    {
        InstantFormatter {
            zone,
            range: InstantOffsetRange {
                from: 0,
                to: 0,
                offset: Offset::UTC,
            },
            day: FormattedDay::empty(),
        }
    }

    /// Returns the zone that was passed to [`InstantFormatter::new`].
    pub fn zone(&self) -> Zone<'z>
        ensures { result ≡ self.now }
    {
        self.zone
    }

    /// Returns what clocks in the zone show at `instant`, as [`civil`](crate::civil) does.
    pub fn civil(&mut self, instant: Instant) -> Civil
        ensures value { result ≡ civil_of (zone_of self.old) instant.secs }
        ensures ranges { IsCivil result }
        ensures zone { self.new ≡ self.old }
    {
        civil_at(self.range_at(instant).offset, instant)
    }

    /// Appends the text of `instant`, as formatted by [`push_instant`](crate::push_instant): at most 84 bytes.
    pub fn push(&mut self, text: &mut ShortText, instant: Instant)
        requires room { length text.old.items + 84 ≤ SHORT_TEXT_ROOM }
        ensures text { text.new.items ≡ text.old.items ++ instant_text self.old instant.secs }
        ensures short { length text.new.items ≤ length text.old.items + 84 }
        ensures zone { self.new ≡ self.old }
    {
        let second = instant.secs();
        if self.day.from <= second && second < self.day.to {
            self.day.push(text, second);
            return;
        }
        self.push_outside(text, instant);
    }

    /// Appends the text of an instant outside the cached day, and caches the day of that instant for the calls that
    /// follow.
    #[cold]
    #[inline(never)]
    fn push_outside(&mut self, text: &mut ShortText, instant: Instant)
        requires room { length text.old.items + 84 ≤ SHORT_TEXT_ROOM }
        ensures text { text.new.items ≡ text.old.items ++ instant_text self.old instant.secs }
        ensures short { length text.new.items ≤ length text.old.items + 84 }
        ensures zone { self.new ≡ self.old }
    {
        let range = self.range_at(instant);
        let day = FormattedDay::of(self.zone, range, instant);
        day.push(text, instant.secs());
        self.day = day;
    }

    /// Returns a range with a constant UTC offset that contains `instant`. If the cached range doesn't contain
    /// `instant`, a new range is computed and cached.
    fn range_at(&mut self, instant: Instant) -> InstantOffsetRange
        ensures range { IsInstantOffsetRangeAt (zone_of self.old) instant.secs result }
        ensures zone { self.new ≡ self.old }
    {
        let second = instant.secs();
        if second < self.range.from || self.range.to <= second {
            self.range = instant_range_at(self.zone, instant);
        }
        self.range
    }
}
