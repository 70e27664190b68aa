//! Printing instants in the local zone and in UTC.

ghost use Rattle.std.specs.Prelude.{◌≡◌, ◌+◌, ◌≤◌, ◌++◌, length};
ghost use Rattle.cal_bytes.specs.declared.short_text.TheConstants.{SHORT_TEXT_ROOM};
ghost use Rattle.cal_zone.specs.rules.InstantText.{instant_text};
ghost use Rattle.cal_report.specs.rules.ReportLines.{utc_line};

use cal_bytes::{ShortText, push};
use cal_zone::{Instant, InstantFormatter, Zone};
use std::marker::Model;

/// A formatter of instants in the local zone, and one in UTC. Both are kept for the whole report, because they cache
/// conversions. Contracts see only the local zone, since the caches don't affect what is printed.
#[derive(Drop)]
pub struct LocalAndUtc<'z> {
    local: InstantFormatter<'z>,
    in_utc: InstantFormatter<'static>,
}

impl<'z> Model for LocalAndUtc<'z> {
    ghost use Rattle.std.specs.Prelude.{◌≡◌};
    ghost use Rattle.cal_zone.specs.rules.Zone.{utc};
    ghost use Rattle.cal_zone.specs.declared.zone.Zone.{Zone};

    ghost Value = { Zone };

    ghost view = { λ formatter. formatter.local };

    ghost invariant = { λ formatter. formatter.in_utc ≡ utc };
}

impl<'z> LocalAndUtc<'z> {
    /// Creates the formatters for reports in this local zone.
    pub fn new(local: Zone<'z>) -> LocalAndUtc<'z>
        ensures { result ≡ local.entry }
    {
        LocalAndUtc {
            local: InstantFormatter::new(local),
            in_utc: InstantFormatter::new(Zone::utc()),
        }
    }

    /// Appends the instant as a date and time in the local zone, at most 84 bytes.
    pub fn push_local(&mut self, text: &mut ShortText, instant: Instant)
        requires room { length text.old.items + 84 ≤ SHORT_TEXT_ROOM }
        ensures text { text.new.items ≡ text.old.items ++ instant_text self.old instant.secs }
        ensures short { length text.new.items ≤ length text.old.items + 84 }
        ensures local { self.new ≡ self.old }
    {
        self.local.push(text, instant);
    }

    /// Appends a line with a label and the instant in UTC, at most 102 bytes. Appends nothing if the local zone is
    /// [`Zone::utc`]. A zone with the fixed offset 0 doesn't count as [`Zone::utc`].
    #[tactic(auto, unfolding(crate::specs::rules::ReportLines::utc_line))]
    pub fn push_utc_line(&mut self, text: &mut ShortText, instant: Instant)
        requires room { length text.old.items + 102 ≤ SHORT_TEXT_ROOM }
        ensures text { text.new.items ≡ text.old.items ++ utc_line self.old instant.secs }
        ensures short { length text.new.items ≤ length text.old.items + 102 }
        ensures local { self.new ≡ self.old }
    {
        if !self.local.zone().is_utc() {
            push(text, b"       (in UTC): ");
            self.in_utc.push(text, instant);
            push(text, b"\n");
        }
    }
}
