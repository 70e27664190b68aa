//! Reports on timer files, some of them with exceptions.

use super::{CALENDAR, KnownZones, Local, Row, check, check_input, known_zones};
use cal_bytes::{Faulty, Port, Then};
use cal_library_tests::memory::{Item, MemoryInputs, MemorySystem};
use cal_library_tests::shared::{EXCEPT_FILE, NEW_YEAR, TIMER_FILE, ensure};
use cal_machine::Inputs;
use cal_request::Verb;
use std::alloc::{AllocError, Global};
use std::test::Fail;

/// A request for the next elapse of the timer file `t`.
const TIMER: Row<'static> = Row {
    verb: Verb::Timer,
    texts: &["t"],
    ..CALENDAR
};

/// The report on two expressions that both elapse at 11:00. This instant is listed only once.
const SHARED: &str = "  Original form: *:0/15
Normalized form: *-*-* *:00/15:00
  Original form: *:0/20
Normalized form: *-*-* *:00/20:00
    Next elapse: Mon 2024-01-01 10:15:00 UTC
       From now: 15min left
       Iter. #2: Mon 2024-01-01 10:20:00 UTC
       From now: 20min left
       Iter. #3: Mon 2024-01-01 10:30:00 UTC
       From now: 30min left
       Iter. #4: Mon 2024-01-01 10:40:00 UTC
       From now: 40min left
       Iter. #5: Mon 2024-01-01 10:45:00 UTC
       From now: 45min left
       Iter. #6: Mon 2024-01-01 11:00:00 UTC
       From now: 1h left
";

const CONTINUED: &str = "  Original form: Mon  *:0/30
Normalized form: Mon *-*-* *:00/30:00
  Original form: hourly
Normalized form: *-*-* *:00:00
    Next elapse: Mon 2024-01-01 00:30:00 UTC
       From now: 30min left
       Iter. #2: Mon 2024-01-01 01:00:00 UTC
       From now: 1h left
";

/// The report on `TIMER_FILE`, in which two expressions follow an empty `OnBootSec=`.
pub(super) const CONTINUED_TIMER: Row<'static> = Row {
    about: "timer file",
    iterations: 2,
    input: TIMER_FILE,
    out: CONTINUED,
    ..TIMER
};

static ELAPSES_OF_ALL_EXPRESSIONS: [Row<'static>; 2] = [
    Row {
        about: "shared instants",
        iterations: 6,
        now: NEW_YEAR + 36_000,
        input: b"[Timer]\nOnCalendar=*:0/15\nOnCalendar=*:0/20\n",
        out: SHARED,
        ..TIMER
    },
    CONTINUED_TIMER,
];

#[test]
fn elapses_of_all_expressions(rt: HostRuntime) -> Result<(), Fail> {
    check(rt.alloc(), &ELAPSES_OF_ALL_EXPRESSIONS)
}

const EXCEPT: &str = "  Original form: 12:00
Normalized form: *-*-* 12:00:00
    Except form: Sat,Sun 12:00
Normalized form: Sat,Sun *-*-* 12:00:00
    Next elapse: Fri 2024-01-05 12:00:00 UTC
       From now: 12h left
       Iter. #2: Mon 2024-01-08 12:00:00 UTC
       From now: 3d 12h left
";

/// The report on `EXCEPT_FILE`, made at midnight on a Friday.
pub(super) const EXCEPT_TIMER: Row<'static> = Row {
    about: "timer file with an exception",
    iterations: 2,
    now: 1_704_412_800,
    input: EXCEPT_FILE,
    out: EXCEPT,
    ..TIMER
};

/// The exception elapses only at midnight, so noon on Saturday is still listed.
const MIDNIGHTS: &str = "  Original form: 12:00
Normalized form: *-*-* 12:00:00
    Except form: Sat,Sun
Normalized form: Sat,Sun *-*-* 00:00:00
    Next elapse: Fri 2024-01-05 12:00:00 UTC
       From now: 12h left
       Iter. #2: Sat 2024-01-06 12:00:00 UTC
       From now: 1d 12h left
";

const ALL_TAKEN_OUT: &str = "  Original form: daily
Normalized form: *-*-* 00:00:00
    Except form: 00:00
Normalized form: *-*-* 00:00:00
    Next elapse: never
";

static EXCEPTIONS: [Row<'static>; 5] = [
    EXCEPT_TIMER,
    Row {
        about: "an exception at other times",
        input: b"[Timer]\nOnCalendar=daily\nX-ExceptOnCalendar=Sat,Sun\nOnBootSec=\nOnCalendar=12:00\n",
        out: MIDNIGHTS,
        ..EXCEPT_TIMER
    },
    Row {
        about: "an exception that takes out all",
        input: b"[Timer]\nOnCalendar=daily\nX-ExceptOnCalendar=00:00\n",
        out: ALL_TAKEN_OUT,
        ..TIMER
    },
    Row {
        about: "an exception alone",
        input: b"[Timer]\nX-ExceptOnCalendar=00:00\n",
        err: "t: no calendar expression\n",
        ..TIMER
    },
    Row {
        about: "a refused exception",
        input: b"[Timer]\nX-ExceptOnCalendar=20/4:00\n",
        err: "t:2: repetition reaches no further value\n",
        ..TIMER
    },
];

#[test]
fn exceptions(rt: HostRuntime) -> Result<(), Fail> {
    check(rt.alloc(), &EXCEPTIONS)
}

const NEXT_MIDNIGHT: &str = "    Next elapse: Tue 2024-01-02 00:00:00 UTC
       From now: 1d left
";

/// Returns a file with as many expressions as a file may have, and then its report, separated by `|`.
fn largest_list(alloc: Global) -> Result<String, AllocError> {
    let line = "OnCalendar=daily\n".repeat(alloc, 256)?;
    let heading = "  Original form: daily\nNormalized form: *-*-* 00:00:00\n".repeat(alloc, 256)?;
    let mut texts = String::from_str(alloc, "[Timer]\n")?;
    texts.push_str(line.as_str())?;
    texts.push('|')?;
    texts.push_str(heading.as_str())?;
    texts.push_str(NEXT_MIDNIGHT)?;
    Ok(texts)
}

#[test]
fn as_many_expressions_as_possible(rt: HostRuntime) -> Result<(), Fail> {
    let texts = largest_list(rt.alloc())?;
    let (file, report) = texts.split_once('|').ok_or("no report")?;
    let row = Row {
        about: "256 expressions",
        input: file.as_bytes(),
        out: report,
        ..TIMER
    };
    check(rt.alloc(), &[row])
}

/// An invalid file is rejected as a whole, with one error line.
static REFUSED_TIMERS: [Row<'static>; 4] = [
    Row {
        about: "a refused expression",
        input: b"[Timer]\nOnCalendar=20/4:00\n",
        err: "t:2: repetition reaches no further value\n",
        ..TIMER
    },
    Row {
        about: "the empty file",
        input: b"",
        err: "t: no calendar expression\n",
        ..TIMER
    },
    Row {
        about: "a byte that is no text",
        input: b"[Timer]\nOnCalendar=daily\n#\xff\n",
        err: "t:3: not UTF-8\n",
        ..TIMER
    },
    Row {
        about: "zones of both lists that aren't there",
        input: b"[Timer]\nOnCalendar=daily\nX-ExceptOnCalendar=daily Mars/One\nOnCalendar=daily Test/West\n",
        err: "t:3: no such zone\n",
        ..TIMER
    },
];

#[test]
fn refused_timers(rt: HostRuntime) -> Result<(), Fail> {
    check(rt.alloc(), &REFUSED_TIMERS)
}

/// How many bytes a source returns at most in each call and in total, and what it does once it has returned the total.
type Reader = (usize, usize, Then);

/// Runs the row with its file read from this source, and expects the row's texts.
fn check_reader(
    alloc: Global,
    zones: &KnownZones,
    row: &Row<'_>,
    (step, limit, then): Reader,
) -> Result<(), Fail> {
    if step == 0 {
        return Err("no step".into());
    }
    let bytes = Vec::from_slice(alloc, row.input)?;
    let mut input = Port::new(Faulty::new(bytes, step, limit, then));
    check_input(alloc, row, zones, &mut input)
}

fn check_readers(alloc: Global, row: &Row<'_>, readers: &[Reader]) -> Result<(), Fail> {
    let zones = known_zones(alloc)?;
    for reader in readers {
        check_reader(alloc, &zones, row, *reader)?;
    }
    Ok(())
}

/// The timer files that are read from slow or failing sources.
static READ: [Row<'static>; 2] = [CONTINUED_TIMER, EXCEPT_TIMER];

#[test]
fn slow_readers(rt: HostRuntime) -> Result<(), Fail> {
    for row in &READ {
        check_readers(rt.alloc(), row, &[(1, 9_999, Then::Error)])?;
    }
    Ok(())
}

/// Returns the row for a file that can't be read, with this error line as the only output.
fn unread<'a>(row: &Row<'a>, err: &'a str) -> Row<'a> {
    Row {
        out: "",
        err,
        ..*row
    }
}

/// Checks that a file is reported as unreadable if its source fails, even if the source has already returned all bytes.
#[test]
fn failing_readers(rt: HostRuntime) -> Result<(), Fail> {
    for row in &READ {
        let row = unread(row, "t: cannot be read\n");
        for limit in 0..=row.input.len() {
            let readers = [(64, limit, Then::Error), (1, limit, Then::Interrupted)];
            check_readers(rt.alloc(), &row, &readers)?;
        }
    }
    Ok(())
}

/// Checks that an endless source is reported as a file that is too large.
#[test]
fn endless_readers(rt: HostRuntime) -> Result<(), Fail> {
    for row in &READ {
        let row = unread(row, "t: larger than 1048576 bytes\n");
        let reader = (1_024, row.input.len(), Then::Endless);
        check_readers(rt.alloc(), &row, &[reader])?;
    }
    Ok(())
}

/// Runs the request of the row, and returns how many calls of `fetch` the run made.
fn fetches_of(alloc: Global, row: &Row<'_>) -> Result<u32, Fail> {
    let zones = known_zones(alloc)?;
    let items = [("t", Item::File(row.input))];
    let mut inputs = MemoryInputs::new(MemorySystem::new(&items));
    let Ok(()) = inputs.open("t") else {
        return Err("t can't be opened".into());
    };
    check_input(alloc, row, &zones, &mut inputs)?;
    Ok(inputs.fetches)
}

/// Checks that nothing is read if the base time is invalid.
#[test]
fn readers_of_an_invalid_base(rt: HostRuntime) -> Result<(), Fail> {
    let refused = Row {
        base: Some("x"),
        ..unread(&EXCEPT_TIMER, "--base-time: bad weekday\n")
    };
    ensure(fetches_of(rt.alloc(), &refused)? == 0, "a refused base")?;
    ensure(fetches_of(rt.alloc(), &EXCEPT_TIMER)? > 0, "a valid base")
}
