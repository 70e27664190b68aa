//! The rules of zones whose UTC offset can change: a POSIX rule, or the table of a zone file.

ghost use Rattle.std.specs.Prelude.{◌≡◌, ◌↔◌, ℤ, IsOk, IsSome, IfOk, IfErr, IfSome, MatchResult};
ghost use Rattle.jiff.specs.Placed.{IsPosixZone};
ghost use Rattle.jiff.specs.Types.{DateTime};
ghost use Rattle.jiff.specs.Words.{ambiguous_at, next_at, offset_at, plain_zone, read_whole};
ghost use Rattle.cal_civil.specs.rules.LocalSecond.{IsLocalSecond};
ghost use Rattle.cal_zone.specs.computed.LocalOffsetRange.{HaveSameOffsetsUntil, IsLocalOffsetRangeAt};
ghost use Rattle.cal_zone.specs.rules.ZoneFile.{IsFileFault, IsFileZone};
ghost use Rattle.cal_zone.specs.declared.zone_fault.ZoneFault.TheVariants.{BadRule};

use crate::instant_offset_range::constant_offset_until;
use crate::local_offset_range::{
    LocalOffsetRange, TRANSITION_MARGIN, local_range_in_table, range_end_after_table,
    range_end_in_zone,
};
use crate::places::place_by;
use crate::{Instant, ZoneFault, ZoneName};
use jiff::tz::{Offset, TimeZone, Tzif};
use jiff::{Error, Timestamp};
use std::alloc::Global;
use std::marker::Model;

/// The rules of a zone: a POSIX rule or a zone file, as parsed by `jiff`.
#[derive(Debug, Drop)]
pub struct Rules {
    kind: RulesKind,
}

#[derive(Debug, Drop)]
enum RulesKind {
    Posix(jiff_tz::TimeZone<'static>),
    File(Tzif),
}

impl Model for Rules {
    ghost use Rattle.jiff.specs.Types.{TimeZone};

    ghost Value = { TimeZone };

    ghost use Rattle.cal_zone.specs.rules.Rules.{zone_of_rules};

    ghost view = { λ rules. zone_of_rules rules.kind };
}

impl Rules {
    /// The maximum size of a zone file, in bytes.
    pub const FILE_LIMIT: usize = 1_048_576;

    /// Parses a POSIX rule such as `CET-1CEST,M3.5.0,M10.5.0/3`.
    ///
    /// Fails with [`ZoneFault::BadRule`] if and only if `jiff` can't parse the rule. `alloc` is unused, because `jiff`
    /// stores a rule without allocating. It is a parameter in case rules need memory some day.
    pub fn posix(alloc: Global, rule: &str) -> Result<Rules, ZoneFault>
        ensures read { IsOk result ↔ IsSome (read_whole rule.now) }
        ensures zone { IfOk result (IsPosixZone rule.now) }
        ensures fault { IfErr result (λ fault. fault ≡ BadRule) }
    {
        let _ = alloc;
        match TimeZone::posix(rule) {
            Ok(zone) => Ok(Rules {
                kind: RulesKind::Posix(zone.to_plain()),
            }),
            Err(_) => Err(ZoneFault::BadRule),
        }
    }

    /// Parses a zone file (RFC 8536) for a zone that is to be named `name`.
    ///
    /// The errors, in the order of the checks:
    ///
    /// - [`ZoneFault::BadName`] if `name` doesn't have the form of a zone's name;
    /// - [`ZoneFault::TooLarge`] if the file has more than 1,048,576 bytes;
    /// - [`ZoneFault::BadFile`] if `jiff` rejects the bytes;
    /// - [`ZoneFault::NoMemory`] if allocation fails.
    pub fn file(alloc: Global, name: &str, bytes: &[u8]) -> Result<Rules, ZoneFault>
        ensures { MatchResult result
            (IsFileZone name.now bytes.now)
            (IsFileFault name.now bytes.now) }
    {
        match ZoneName::new(name) {
            Some(name) => Self::named_file(alloc, name, bytes),
            None => Err(ZoneFault::BadName),
        }
    }

    /// Parses a zone file, as [`Rules::file`] does, for a name that has been checked already.
    pub fn named_file(alloc: Global, name: ZoneName<'_>, bytes: &[u8]) -> Result<Rules, ZoneFault>
        ensures { MatchResult result
            (IsFileZone name.entry.text.now bytes.now)
            (IsFileFault name.entry.text.now bytes.now) }
    {
        if bytes.len() > Self::FILE_LIMIT {
            return Err(ZoneFault::TooLarge);
        }
        match Tzif::parse(alloc, Some(name.as_str()), bytes) {
            Ok(table) => Ok(Rules {
                kind: RulesKind::File(table),
            }),
            Err(Error::OutOfMemory) => Err(ZoneFault::NoMemory),
            Err(_) => Err(ZoneFault::BadFile),
        }
    }

    /// Returns these rules as a `TimeZone` of `jiff`.
    pub(crate) fn time_zone(&self) -> TimeZone<'_>
        ensures at { (n : ℤ) → offset_at (plain_zone result) n ≡ offset_at self.now n }
        ensures of { (shown : DateTime) → ambiguous_at (plain_zone result) shown ≡ ambiguous_at self.now shown }
        ensures next { (n : ℤ) → next_at (plain_zone result) n ≡ next_at self.now n }
    {
        match &self.kind {
            RulesKind::Posix(zone) => TimeZone::from_plain(*zone),
            RulesKind::File(table) => TimeZone::tzif(table),
        }
    }

    /// Returns the UTC offset at `timestamp`.
    pub(crate) fn offset(&self, timestamp: Timestamp) -> Offset
        ensures { result.seconds ≡ offset_at self.now timestamp.nanosecond }
    {
        let time_zone = self.time_zone();
        time_zone.to_offset(timestamp)
    }

    /// Returns a range with a constant UTC offset that starts at `local`, if one is found. For a zone file, its table
    /// is tried first, and then its POSIX rule.
    pub(crate) fn local_range(&self, local: i64) -> Option<LocalOffsetRange>
        requires { IsLocalSecond local }
        ensures { IfSome result (IsLocalOffsetRangeAt self.now local) }
    {
        if let RulesKind::File(table) = &self.kind {
            if let Some(range) = local_range_in_table(table, local) {
                return Some(range);
            }
        }
        self.local_range_by_rule(local)
    }

    /// Returns a range with a constant UTC offset that starts at `local`, if one is found by the POSIX rule. In a zone
    /// file, the rule applies after the last transition of the table; without a rule, the offset is constant from then
    /// on.
    fn local_range_by_rule(&self, local: i64) -> Option<LocalOffsetRange>
        requires { IsLocalSecond local }
        ensures { IfSome result (IsLocalOffsetRangeAt self.now local) }
    {
        let constant_until = constant_offset_until(self, Instant::new(local - TRANSITION_MARGIN)?);
        match &self.kind {
            RulesKind::Posix(zone) => self.local_range_until(
                local,
                range_end_in_zone(*zone, local, constant_until),
            ),
            RulesKind::File(table) => self.local_range_until(
                local,
                range_end_after_table(table, local, constant_until),
            ),
        }
    }

    /// Returns the range `local..to` with its UTC offset. The caller guarantees that the zone's UTC offset doesn't
    /// change in this range. Returns `None` if the range is empty or if the clock skips `local`.
    fn local_range_until(&self, local: i64, to: i64) -> Option<LocalOffsetRange>
        requires local_in { IsLocalSecond local }
        requires same_offsets { HaveSameOffsetsUntil self.now local to }
        ensures { IfSome result (IsLocalOffsetRangeAt self.now local) }
    {
        if to <= local {
            return None;
        }
        let place = place_by(self, local)?;
        Some(LocalOffsetRange {
            from: local,
            to,
            offset: local - place,
        })
    }
}
