//! Valid and invalid POSIX rules and zone files. The rules follow POSIX (Environment Variables, `TZ`). A transition may
//! be less than 168 hours before or after midnight, as in RFC 8536, and the names of standard time and daylight saving
//! time have at most 15 bytes.

use crate::shared::{NEW_YEAR, ensure, zone_file};
use cal_base::{Rules, Zone, ZoneFault, place};
use std::alloc::Global;
use std::test::Fail;

const READ: &str = "\
UTC0|GMT0|EST5|EST+5|EST-5|CET-1|JST-9|IST-5:30|NPT-5:45|XXX12:34:56|ABC-12:34:56|XXX24|ABC-24|XXX24:59:59|\
ABC-24:59:59|XXX0:00|XXX00:00:00|XXX05|<+03>-3|<-03>3|<+0530>-5:30|<A1+>4|ABCDEFGHIJKLMNO5|<ABCDEFGHIJ-0+12>5|\
EST5EDT,M3.2.0,M11.1.0|CET-1CEST,M3.5.0,M10.5.0/3|EST5EDT4,M3.2.0/2,M11.1.0/2|EST5EDT4:30,M3.2.0,M11.1.0|\
AAA0BBB,M3.5.0/2,M3.5.0/3:10|IST-1GMT0,M10.5.0,M3.5.0/1|AEST-10AEDT,M10.1.0,M4.1.0/3|\
<-02>2<-01>,M3.5.0/-1,M10.5.0/0|<+1030>-10:30<+11>-11,M10.1.0,M4.1.0|XXX3EDT1,0/0,J365/23|XXX3EDT,J1,J365|\
XXX3EDT,0,365|XXX3EDT,J60/24,J300/167|XXX3EDT,M3.1.6/-167,M12.5.6/167:59:59|WGT3WGST,M3.5.0/-2,M10.5.0/-1|\
EST5EDT,M03.2.0,M11.1.0|CET-1CEST-2,M3.5.0/+2,M10.5.0/+3:00:00|XXX3EDT,M1.1.0,M12.5.6";

const REFUSED: &str = "\
| |EST|5|ES5|E5|<>5|<E>5|<+1>5|<+03-3|+03-3|<+03>|<+03 >3|<A_B>3|ABCDEFGHIJKLMNOP5|<ABCDEFGHIJKLMNOP>5|EST25|\
EST-25|EST5:|EST5:6|EST5:60|EST5:00:60|EST5:00:|EST5.5|EST 5|EST5 | EST5|EST5\n|EST++5|EST100|EST5EDT|EST5EDT,|\
EST5EDT,M3.2.0|EST5EDT,M3.2.0,|EST5EDT,M3.2.0,M11.1.0,|EST5EDT,M0.2.0,M11.1.0|EST5EDT,M13.2.0,M11.1.0|\
EST5EDT,M3.0.0,M11.1.0|EST5EDT,M3.6.0,M11.1.0|EST5EDT,M3.2.7,M11.1.0|EST5EDT,J0,J365|EST5EDT,J1,J366|\
EST5EDT,366,1|EST5EDT,M3.2.0/168,M11.1.0|EST5EDT,M3.2.0/2:60,M11.1.0|EST5ED4,M3.2.0,M11.1.0|:Europe/Berlin|\
EST5EDT M3.2.0 M11.1.0|ÉST5|EST5EDT,M3.2,M11.1.0";

/// Expects each rule to be rejected with this error, or to be parsed if `fault` is `None`. The rules are separated by
/// `|`.
fn expect_faults(alloc: Global, rules: &str, fault: Option<ZoneFault>) -> Result<(), Fail> {
    for rule in rules.split('|') {
        ensure(Rules::posix(alloc, rule).err() == fault, rule)?;
    }
    Ok(())
}

#[test]
fn posix_rules(rt: HostRuntime) -> Result<(), Fail> {
    expect_faults(rt.alloc(), READ, None)?;
    expect_faults(rt.alloc(), REFUSED, Some(ZoneFault::BadRule))
}

/// Returns the error that a zone file with this name and these bytes is rejected with, if any.
fn file_fault(alloc: Global, name: &str, bytes: &[u8]) -> Option<ZoneFault> {
    Rules::file(alloc, name, bytes).err()
}

/// Checks that the clock of the zone that the file describes is one hour ahead of UTC.
#[test]
fn reads_a_zone_file(rt: HostRuntime) -> Result<(), Fail> {
    let bytes = zone_file(rt.alloc())?;
    ensure(bytes.len() == 115, "the length")?;
    let Ok(rules) = Rules::file(rt.alloc(), "Test/Fixed", &bytes) else {
        return Err("the zone file is refused".into());
    };
    let midnight = place(Zone::rules(&rules), NEW_YEAR);
    ensure(midnight == Some(1_704_063_600), "another midnight")
}

/// Expects a zone file of these bytes to be rejected under each name, with the error next to the name.
fn expect_refused(alloc: Global, bytes: &[u8], rows: &[(&str, ZoneFault)]) -> Result<(), Fail> {
    for (name, fault) in rows {
        ensure(file_fault(alloc, name, bytes) == Some(*fault), name)?;
    }
    Ok(())
}

/// Checks that the name is checked first, then the size, then the contents.
#[test]
fn refuses_zone_files(rt: HostRuntime) -> Result<(), Fail> {
    let bad_names = [("1x", ZoneFault::BadName), ("", ZoneFault::BadName)];
    expect_refused(rt.alloc(), &zone_file(rt.alloc())?, &bad_names)?;
    let bad_file = [("Test/Fixed", ZoneFault::BadFile)];
    expect_refused(rt.alloc(), b"hello", &bad_file)?;
    expect_refused(rt.alloc(), b"", &bad_file)?;
    let too_large = vec![in rt.alloc(); 0u8; 1_048_577]?;
    expect_refused(
        rt.alloc(),
        &too_large,
        &[
            ("1x", ZoneFault::BadName),
            ("Test/Fixed", ZoneFault::TooLarge),
        ],
    )?;
    // This file has the largest size that a zone file may have, so only its contents are wrong.
    expect_refused(rt.alloc(), &too_large[1..], &bad_file)
}
