//! Valid expressions, each with its normal form.

use super::expect_normal_text;
use std::alloc::Global;
use std::test::Fail;

const WEEKDAY_LISTS: &str = "\
Sat,Thu,Mon..Wed,Sat..Sun -> Mon..Thu,Sat,Sun *-*-* 00:00:00|Wed, 17:48 -> Wed *-*-* 17:48:00|\
Sat-Mon -> Mon,Sat,Sun *-*-* 00:00:00|Mon..Sun -> *-*-* 00:00:00";

const NORMAL_FORMS: &str = "\
weekly utc -> Mon *-*-* 00:00:00 UTC|*-*~* -> *-*-* 00:00:00|93..00-*-* -> 1993..2000-*-* 00:00:00|\
mon,fri 12-1/2-3,1 *:30:45 -> Mon,Fri 2012-01/2-01,03 *:30:45|00:00:20..40/1 -> *-*-* 00:00:20..40|\
*:4,30:0/1 -> *-*-* *:04,30:*|12,14,13,12:20,10,30 -> *-*-* 12,13,14:10,20,30:00";

/// In the normal form, a range with a step ends with the last value that the steps reach. If this value is also the
/// first value of the range, the range becomes a single value.
const RANGE_ENDS: &str = "\
*:05..10/6 -> *-*-* *:05:00|*:05..05 -> *-*-* *:05:00|*:20..39/5 -> *-*-* *:20..35/5:00|\
*-*~3..10/3 -> *-*~03..09/3 00:00:00";

/// Leap days, the last Monday of May, a day that never comes, the last second of the day and half past twelve (with and
/// without a date), every second, and a time of day with single digits.
const NAMED_EXPRESSIONS: &str = "\
*-2-29 0:0:0 -> *-02-29 00:00:00|Mon *-05~07/1 -> Mon *-05~07/1 00:00:00|2100-02-29 -> 2100-02-29 00:00:00|\
23:59:59 -> *-*-* 23:59:59|*-*-* 23:59:59 -> *-*-* 23:59:59|*:*:* -> *-*-* *:*:*|\
*-*-* 12:30:00 -> *-*-* 12:30:00|12:30 -> *-*-* 12:30:00|*-*-* 1:2:3 -> *-*-* 01:02:03";

/// Shorthands, some of them with capitals or followed by a zone.
const SHORTHANDS: &str = "\
daily daily -> *-*-* 00:00:00 daily|minutely -> *-*-* *:*:00|MINUTELY -> *-*-* *:*:00|hourly -> *-*-* *:00:00|\
daily -> *-*-* 00:00:00|DAILY -> *-*-* 00:00:00|weekly -> Mon *-*-* 00:00:00|\
weekly Asia/Tokyo -> Mon *-*-* 00:00:00 Asia/Tokyo|monthly -> *-*-01 00:00:00|\
quarterly -> *-01,04,07,10-01 00:00:00|semiannually -> *-01,07-01 00:00:00|semi-annually -> *-01,07-01 00:00:00|\
sEmi-Annually -> *-01,07-01 00:00:00|biannually -> *-01,07-01 00:00:00|bi-annually -> *-01,07-01 00:00:00|\
yearly -> *-01-01 00:00:00|annually -> *-01-01 00:00:00";

const WEEKDAYS: &str = "\
Sat..Mon -> Mon,Sat,Sun *-*-* 00:00:00|Mon -> Mon *-*-* 00:00:00|MONDAY -> Mon *-*-* 00:00:00|\
tuesday -> Tue *-*-* 00:00:00|wEd -> Wed *-*-* 00:00:00|Thursday, -> Thu *-*-* 00:00:00|\
fri,FRIDAY -> Fri *-*-* 00:00:00|Saturday..sun -> Sat,Sun *-*-* 00:00:00|Sunday..Saturday -> *-*-* 00:00:00|\
Sun-Sun -> Sun *-*-* 00:00:00|Fri..Fri,Mon -> Mon,Fri *-*-* 00:00:00|Tue-Mon -> *-*-* 00:00:00|\
Sun..Tue -> Mon,Tue,Sun *-*-* 00:00:00|Thu..Tue -> Mon,Tue,Thu..Sun *-*-* 00:00:00|\
Mon-Fri 2012-1-1 1:2:3 UTC -> Mon..Fri 2012-01-01 01:02:03 UTC|Mon Tue -> Mon *-*-* 00:00:00 Tue|\
Mon daily -> Mon *-*-* 00:00:00 daily|Mon 12-1 -> Mon *-12-01 00:00:00|Mon 5:4 -> Mon *-*-* 05:04:00";

/// Zone names, and blanks around an expression.
const ZONES: &str = "\
1-2 UTC -> *-01-02 00:00:00 UTC|1-2 3:4 utc -> *-01-02 03:04:00 UTC|3:4 Utc -> *-*-* 03:04:00 UTC|\
3:4 Europe/Paris -> *-*-* 03:04:00 Europe/Paris|3:4 A -> *-*-* 03:04:00 A|\
3:4 Etc/GMT+5 -> *-*-* 03:04:00 Etc/GMT+5|3:4 a-b_C9/+ -> *-*-* 03:04:00 a-b_C9/+|\
3:4 utcx -> *-*-* 03:04:00 utcx| \t12:00\t  -> *-*-* 12:00:00";

const TIMES: &str = "\
12:00 -> *-*-* 12:00:00|*:* -> *-*-* *:*:00|0:0:0/1 -> *-*-* 00:00:*|0..23/9999:0 -> *-*-* 00:00:00|\
0:0/59 -> *-*-* 00:00/59:00|0/23:0 -> *-*-* 00/23:00:00|*:0/15 -> *-*-* *:00/15:00|*:0:1,1,1 -> *-*-* *:00:01|\
*:00000:009 -> *-*-* *:00:09";

const DATES: &str = "\
1-2 -> *-01-02 00:00:00|2012-1-2 -> 2012-01-02 00:00:00|*-*-* -> *-*-* 00:00:00|*-* -> *-*-* 00:00:00|\
*~* -> *-*-* 00:00:00|70..69-*-* -> 1970..2069-*-* 00:00:00|0-*-* -> 2000-*-* 00:00:00|\
69-*-* -> 2069-*-* 00:00:00|70-*-* -> 1970-*-* 00:00:00|99-*-* -> 1999-*-* 00:00:00|\
1970-*-* -> 1970-*-* 00:00:00|2199-*-* -> 2199-*-* 00:00:00|1970..2199-*-* -> 1970..2199-*-* 00:00:00|\
2198/1-*-* -> 2198/1-*-* 00:00:00|00000001-000012-0031 -> 2001-12-31 00:00:00|1-31 -> *-01-31 00:00:00|\
12-1 -> *-12-01 00:00:00|2-30 -> *-02-30 00:00:00|*~1 -> *-*~01 00:00:00|*~28 -> *-*~28 00:00:00|\
*~28/27 -> *-*~28/27 00:00:00|*~28..28/5 -> *-*~28 00:00:00|6/6-1 -> *-06/6-01 00:00:00|\
1..12/1-1 -> *-01..12-01 00:00:00";

/// Splits `lines` at each `|` into pairs of an expression and its normal form, such as `12:30 -> *-*-* 12:30:00`. For
/// each pair, expects both the expression and the normal form to have this normal form.
pub(super) fn expect_normal_texts(alloc: Global, lines: &str) -> Result<(), Fail> {
    for line in lines.split('|') {
        let (text, normal) = line.split_once(" -> ").ok_or("no arrow")?;
        expect_normal_text(alloc, text, normal)?;
        expect_normal_text(alloc, normal, normal)?;
    }
    Ok(())
}

#[test]
fn normal_texts(rt: HostRuntime) -> Result<(), Fail> {
    for texts in &[
        WEEKDAY_LISTS,
        NORMAL_FORMS,
        RANGE_ENDS,
        NAMED_EXPRESSIONS,
        SHORTHANDS,
        WEEKDAYS,
        ZONES,
        TIMES,
        DATES,
    ] {
        expect_normal_texts(rt.alloc(), texts)?;
    }
    Ok(())
}
