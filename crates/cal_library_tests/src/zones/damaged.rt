//! Zone files that are cut short or have a wrong byte. Each must be rejected, or describe a zone in which the first
//! three elapses of `daily` after [`NEW_YEAR`] are increasing instants.

use crate::elapses::elapses_of;
use crate::shared::{NEW_YEAR, ensure, zone_file};
use cal_base::{Rules, Zone, ZoneFault};
use cal_elapse::Rising;
use std::alloc::Global;
use std::test::Fail;

/// Returns whether the elapses of `daily` after [`NEW_YEAR`] in the zone begin with three increasing instants.
fn rises(alloc: Global, zone: Zone<'_>) -> Result<bool, Fail> {
    let mut midnights = elapses_of(alloc, "daily", zone, NEW_YEAR)?;
    let mut last = NEW_YEAR;
    for _ in 0..3 {
        match midnights.next() {
            Some(midnight) if midnight > last => last = midnight,
            _ => return Ok(false),
        }
    }
    Ok(true)
}

/// Returns whether the bytes are rejected as a bad zone file, or describe a zone for which [`rises`] returns `true`.
fn is_bad_or_rises(alloc: Global, bytes: &[u8]) -> Result<bool, Fail> {
    match Rules::file(alloc, "Test/Fixed", bytes) {
        Ok(rules) => rises(alloc, Zone::rules(&rules)),
        Err(fault) => Ok(fault == ZoneFault::BadFile),
    }
}

/// Tests every prefix of the zone file, including the whole file.
#[test]
fn cut_zone_files(rt: HostRuntime) -> Result<(), Fail> {
    let whole = zone_file(rt.alloc())?;
    for len in 0..=whole.len() {
        if !is_bad_or_rises(rt.alloc(), &whole[..len])? {
            return Err(len.into());
        }
    }
    Ok(())
}

/// Replaces each byte of the zone file in turn by `changed`, and expects [`is_bad_or_rises`] to return `true` for every
/// such file.
fn expect_changed(alloc: Global, changed: u8) -> Result<(), Fail> {
    let mut bytes = zone_file(alloc)?;
    for at in 0..bytes.len() {
        let unchanged = bytes[at];
        bytes[at] = changed;
        if !is_bad_or_rises(alloc, &bytes)? {
            return Err((changed, at).into());
        }
        bytes[at] = unchanged;
    }
    Ok(())
}

#[test]
fn changed_zone_files(rt: HostRuntime) -> Result<(), Fail> {
    for changed in &[0xff, 0x00, 0x01, 0x80] {
        expect_changed(rt.alloc(), *changed)?;
    }
    Ok(())
}
