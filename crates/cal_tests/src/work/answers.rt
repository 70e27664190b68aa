//! Reports and error lines.

use super::{check, check_refused, perform};
use cal_library_tests::memory::{Item, MemorySystem};
use cal_library_tests::shared::{ensure, zone_file};
use std::test::Fail;

const ZONE_OF_AN_EXPRESSION: &str = "  Original form: daily Test/Fixed
Normalized form: *-*-* 00:00:00 Test/Fixed
    Next elapse: Mon 2024-01-01 23:00:00 UTC
       From now: 23h left
";

const HOURLY: &str = "  Original form: hourly
Normalized form: *-*-* *:00:00
    Next elapse: Mon 2024-01-01 01:00:00 UTC
       From now: 1h left
";

/// Tests reports with a zone file that is loaded with `--zones`, and with a timer file.
#[test]
fn reports(rt: HostRuntime) -> Result<(), Fail> {
    let zone = zone_file(rt.alloc())?;
    let items = [
        ("f", Item::File(zone.as_slice())),
        ("h", Item::File(b"[Timer]\nOnCalendar=hourly\n")),
    ];
    let memory = MemorySystem::new(&items);
    let line = "calendar|--zones=Test/Fixed=f|daily Test/Fixed|daily Test/West";
    let err = "daily Test/West: no such zone\n";
    check(rt.alloc(), memory, (line, ZONE_OF_AN_EXPRESSION, err, 1))?;
    check(rt.alloc(), memory, ("timer|h", HOURLY, "", 0))
}

/// Options that are rejected, each with its error line. The first line has two bad values, of which only the first one
/// is reported. The other lines have one error each: a bad value, an empty rule or an unknown name for the local zone,
/// a zone name that is taken, or a zone file that can't be opened.
const REFUSED_OPTIONS: &str = "\
calendar|--iterations=0|--now=5|daily -> calendar-analyze: bad iterations
calendar|--iterations=0|daily -> calendar-analyze: bad iterations
calendar|--iterations=1000001|--now=@1704067200|daily -> calendar-analyze: bad iterations
calendar|--now=5|daily -> calendar-analyze: bad now
calendar|--zones=x|daily -> calendar-analyze: bad zones
calendar|--local=5x|daily -> calendar-analyze: bad local zone
calendar|--local=+26:00|daily -> calendar-analyze: bad local zone
calendar|--local=posix:|daily -> calendar-analyze: --local: bad rule
calendar|--local=Mars/One|daily -> calendar-analyze: --local: no such zone
calendar|--zones=A=f,A=f|daily -> calendar-analyze: --zones: A: zone name taken
calendar|--zones=utc=f|daily -> calendar-analyze: --zones: utc: zone name taken
calendar|--zones=A=g|daily -> calendar-analyze: --zones: A: cannot be read
";

/// Files, expressions, base times and time spans that are rejected, each with its error line.
const REFUSED_TEXTS: &str = "\
timer|g -> g: cannot be read
timer| -> : cannot be read
calendar|daily Test/West -> daily Test/West: no such zone
calendar|--base-time=Mon 2012-11-23|daily -> --base-time: weekday does not fit the date
timespan|5x -> 5x: unknown unit
";

#[test]
fn refusals(rt: HostRuntime) -> Result<(), Fail> {
    let zone = zone_file(rt.alloc())?;
    let items = [("f", Item::File(zone.as_slice()))];
    let memory = MemorySystem::new(&items);
    check_refused(rt.alloc(), memory, REFUSED_OPTIONS, 2)?;
    check_refused(rt.alloc(), memory, REFUSED_TEXTS, 1)
}

/// Lines of arguments, each with the error line of its first error, which is the only error reported. The clock has no
/// valid time, `f` is neither a zone file nor a timer file, and there is no file `g`.
const WITHOUT_CLOCK: &str = "\
calendar|--now=5|--zones=A=f|daily -> calendar-analyze: bad now
calendar|--zones=A=f|daily -> calendar-analyze: --zones: A: bad zone file
calendar|--zones=A=f,B=g|--local=posix:|daily -> calendar-analyze: --zones: A: bad zone file
calendar|--zones=B=g,A=f|daily -> calendar-analyze: --zones: B: cannot be read
calendar|--local=Mars/One|daily -> calendar-analyze: --local: no such zone
timer|--local=posix:|g -> calendar-analyze: --local: bad rule
timer|g -> calendar-analyze: clock out of range
calendar|daily -> calendar-analyze: clock out of range
timestamp|now -> calendar-analyze: clock out of range
timespan|1h -> calendar-analyze: clock out of range
";

/// Lines of arguments, each with the error line of its first error. The clock works, and the files are the same as for
/// [`WITHOUT_CLOCK`]. The file `l` can be opened, but not read.
const WITH_CLOCK: &str = "\
timer|--base-time=Mon 2012-11-23|g -> g: cannot be read
timer|--base-time=Mon 2012-11-23|f -> --base-time: weekday does not fit the date
timer|--base-time=Mon 2012-11-23|l -> --base-time: weekday does not fit the date
timer|l -> l: cannot be read
";

#[test]
fn only_the_first_error_is_reported(rt: HostRuntime) -> Result<(), Fail> {
    let items = [("f", Item::File(b"hello")), ("l", Item::Locked)];
    let memory = MemorySystem::new(&items);
    for time in &[None, Some(-1), Some(7_258_211_999)] {
        let time = *time;
        check_refused(
            rt.alloc(),
            MemorySystem { time, ..memory },
            WITHOUT_CLOCK,
            2,
        )?;
    }
    check_refused(rt.alloc(), memory, WITH_CLOCK, 1)
}

/// Checks that help goes to standard output, and usage errors go to standard error.
#[test]
fn help_and_usage(rt: HostRuntime) -> Result<(), Fail> {
    let memory = MemorySystem::new(&[]);
    let help = perform(rt.alloc(), memory, "--help")?;
    ensure(!help.out.is_empty() && help.err.is_empty(), "--help")?;
    ensure(help.status == 0, "--help")?;
    let usage = perform(rt.alloc(), memory, "")?;
    ensure(usage.out.is_empty() && !usage.err.is_empty(), "usage")?;
    ensure(usage.status == 2, "usage")
}
