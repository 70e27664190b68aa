//! Constants and helpers that this crate and `cal_tests` use. The helpers expect valid input: a test fails if its input
//! is rejected, or if allocation fails.

use cal_base::{Instant, Rules};
use cal_spec::{Expr, read_expr};
use std::alloc::{AllocError, Global};
use std::test::Fail;

/// Mon 2024-01-01 00:00:00 UTC, in seconds of Unix time.
pub const NEW_YEAR: i64 = 1_704_067_200;

/// A POSIX rule: one hour ahead of UTC, two hours in summer.
pub const SUMMER_TIME: &str = "CET-1CEST,M3.5.0,M10.5.0/3";

/// A POSIX rule by which the clock goes forward by an hour, and back ten minutes later.
pub const FORWARD_AND_BACK: &str = "AAA0BBB,M3.5.0/2,M3.5.0/3:10";

/// Fails with `about`, which names the row or the step, unless `holds` is true. The prover is much faster with `ensure`
/// than with an assertion that has a message.
pub fn ensure(holds: bool, about: &str) -> Result<(), Fail> {
    if holds { Ok(()) } else { Err(about.into()) }
}

/// Parses a calendar expression.
pub fn expr(alloc: Global, text: &str) -> Result<Expr, Fail> {
    Ok(read_expr(alloc, text)?)
}

/// Parses a POSIX rule.
pub fn posix(alloc: Global, rule: &str) -> Result<Rules, Fail> {
    let Ok(rules) = Rules::posix(alloc, rule) else {
        return Err("a rule is refused".into());
    };
    Ok(rules)
}

/// Returns the instant at `secs` seconds of Unix time, which must be from 0 to 7,258,211,998.
pub fn instant(secs: i64) -> Result<Instant, Fail> {
    Ok(Instant::new(secs).ok_or("no instant")?)
}

/// The header and data of a version 2 zone file with a single local time type, 3,600 seconds east of UTC.
const BLOCK: [u8; 54] =
    *b"TZif2\0\0\0\0\0\0\0\0\0\0\0\0\0\0\0\0\0\0\0\0\0\0\0\0\0\0\0\0\0\0\0\0\0\0\x01\0\0\0\x04\0\0\x0e\x10\0\0CET\0";

/// Returns a zone file of 115 bytes with one local time type and the footer `CET-1`.
pub fn zone_file(alloc: Global) -> Result<Vec<u8>, AllocError> {
    let mut bytes = Vec::from_slice(alloc, &BLOCK)?;
    bytes.extend_from_slice(&BLOCK)?;
    bytes.extend_from_slice(b"\nCET-1\n")?;
    Ok(bytes)
}

/// The header and data of a version 2 zone file with two local time types, one hour and two hours east of UTC, and the
/// transitions of 2024: to summer time at 1,711,846,800, and back at 1,729,990,800.
const BLOCK_OF_2024: [u8; 83] =
    *b"TZif2\0\0\0\0\0\0\0\0\0\0\0\0\0\0\0\0\0\0\0\0\0\0\0\0\0\0\0\0\0\0\x02\0\0\0\x02\0\0\0\x09\
\0\0\0\0\x66\x08\xb5\x90\0\0\0\0\x67\x1d\x90\x90\x01\0\0\0\x0e\x10\0\0\0\0\x1c\x20\x01\x04CET\0CEST\0";

/// Returns a zone file with the transitions of 2024, whose footer is the rule [`SUMMER_TIME`].
pub fn zone_file_of_2024(alloc: Global) -> Result<Vec<u8>, AllocError> {
    let mut bytes = Vec::from_slice(alloc, &BLOCK)?;
    bytes.extend_from_slice(&BLOCK_OF_2024)?;
    bytes.extend_from_slice(b"\n")?;
    bytes.extend_from_slice(SUMMER_TIME.as_bytes())?;
    bytes.extend_from_slice(b"\n")?;
    Ok(bytes)
}

/// A timer file with two sections. The empty `OnBootSec=` drops the first expression, and the second expression is
/// continued after a comment.
pub const TIMER_FILE: &[u8] = b"\
[Unit]
Description=x
[Timer]
OnCalendar=daily
OnBootSec=
OnCalendar=Mon \\
# the minutes
  *:0/30
OnCalendar=hourly
";

/// A timer file with an exception. The empty `OnBootSec=` drops the first expression, but not the exception.
pub const EXCEPT_FILE: &[u8] = b"\
[Timer]
OnCalendar=daily
X-ExceptOnCalendar=Sat,Sun 12:00
OnBootSec=
OnCalendar=12:00
";
