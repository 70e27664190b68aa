//! Complete outputs of `run`, written to memory. The expected texts were typed by hand, from the rules for each report.

ghost use Rattle.std.specs.Prelude.{◌≡◌, false};

mod calendar;
mod refused;
mod timers;
mod times;
mod writers;
mod zones;

use cal_bytes::{Port, Sink, Source};
use cal_library_tests::shared::{NEW_YEAR, SUMMER_TIME, ensure, instant, posix, zone_file};
use cal_report::run;
use cal_request::{Request, RunFault, Status, Verb};
use cal_zone::{Instant, Rules, Zone, ZoneTable};
use std::alloc::{AllocError, Global};
use std::test::Fail;

/// A request with its present, local zone and timer file, and everything that its run should write. The run has to
/// return `Ok`, with the status `Refused` if something is expected on standard error, and otherwise `Fine`.
#[derive(Clone, Copy)]
struct Row<'a> {
    /// What the row tests, for failure messages.
    about: &'a str,
    verb: Verb,
    texts: &'a [&'a str],
    iterations: u32,
    base: Option<&'a str>,
    now: i64,
    local: Local,
    /// Contents of the timer file.
    input: &'a [u8],
    out: &'a str,
    err: &'a str,
}

/// The local zone of a row.
#[derive(Clone, Copy)]
enum Local {
    Utc,
    /// A fixed UTC offset in seconds.
    Offset(i32),
    /// The rule [`SUMMER_TIME`].
    Summer,
}

/// The defaults of a row: the next elapse of each expression after the start of 2024, in UTC.
const CALENDAR: Row<'static> = Row {
    about: "",
    verb: Verb::Calendar,
    texts: &[],
    iterations: 1,
    base: None,
    now: NEW_YEAR,
    local: Local::Utc,
    input: b"",
    out: "",
    err: "",
};

/// A request for the next two elapses of one time of day.
const NOON_THIRTY: Row<'static> = Row {
    about: "noon thirty",
    texts: &["*-*-* 12:30:00"],
    iterations: 2,
    out: "  Original form: *-*-* 12:30:00
Normalized form: *-*-* 12:30:00
    Next elapse: Mon 2024-01-01 12:30:00 UTC
       From now: 12h 30min left
       Iter. #2: Tue 2024-01-02 12:30:00 UTC
       From now: 1d 12h 30min left
",
    ..CALENDAR
};

/// The zones that the rows can use.
#[derive(Drop)]
struct KnownZones {
    summer: Rules,
    /// `Test/Fixed` from a zone file, and `Test/Summer` from a POSIX rule.
    table: ZoneTable,
}

fn known_zones(alloc: Global) -> Result<KnownZones, Fail> {
    let mut table = ZoneTable::new(alloc);
    add_zones(alloc, &mut table)?;
    let summer = posix(alloc, SUMMER_TIME)?;
    Ok(KnownZones { summer, table })
}

/// Adds `Test/Fixed` and `Test/Summer`.
fn add_zones(alloc: Global, table: &mut ZoneTable) -> Result<(), Fail> {
    let fixed = Rules::file(alloc, "Test/Fixed", &zone_file(alloc)?)?;
    ensure(table.add("Test/Fixed", fixed).is_ok(), "Test/Fixed")?;
    let summer = posix(alloc, SUMMER_TIME)?;
    ensure(table.add("Test/Summer", summer).is_ok(), "Test/Summer")
}

/// Runs the request of each row, and expects the texts and the status of the row.
fn check(alloc: Global, rows: &[Row<'_>]) -> Result<(), Fail> {
    let zones = known_zones(alloc)?;
    for row in rows {
        check_input(alloc, row, &zones, &mut Port::new(row.input))?;
    }
    Ok(())
}

/// Runs the request of one row, with the timer file read from `input`, and expects the texts and the status of the row.
fn check_input<R: Source>(
    alloc: Global,
    row: &Row<'_>,
    zones: &KnownZones,
    input: &mut R,
) -> Result<(), Fail>
    requires { R.is_failed input.old ≡ false }
{
    let mut out = Port::new(Vec::new(alloc));
    let mut err = Port::new(Vec::new(alloc));
    let ended = run_row(alloc, row, zones, input, &mut out, &mut err)?;
    let (out, err) = (out.into_inner(), err.into_inner());
    expect_texts(row, (out.as_slice(), err.as_slice(), ended))
}

/// What a run wrote to both outputs, and its result.
type RunOutput<'a> = (&'a [u8], &'a [u8], Result<Status, RunFault>);

/// Expects a run to have written the texts of the row, and to have returned its status.
fn expect_texts(row: &Row<'_>, (out, err, ended): RunOutput<'_>) -> Result<(), Fail> {
    ensure(out == row.out.as_bytes(), row.about)?;
    ensure(err == row.err.as_bytes(), row.about)?;
    ensure(ended == Ok(status(row)), row.about)
}

/// Returns the status that the row's run should have.
fn status(row: &Row<'_>) -> Status {
    if row.err.is_empty() {
        Status::Fine
    } else {
        Status::Refused
    }
}

/// Runs the request of a row and returns the result of the run. Fails if the request can't be made.
fn run_row<R: Source, O: Sink, E: Sink>(
    alloc: Global,
    row: &Row<'_>,
    zones: &KnownZones,
    input: &mut R,
    out: &mut O,
    err: &mut E,
) -> Result<Result<Status, RunFault>, Fail>
    requires input { R.is_failed input.old ≡ false }
    requires out { O.is_failed out.old ≡ false }
    requires err { E.is_failed err.old ≡ false }
{
    let now = instant(row.now)?;
    let local = local_zone(row.local, zones)?;
    let request = request(alloc, row)?;
    let table = &zones.table;
    Ok(run(alloc, &request, input, now, local, table, out, err))
}

fn local_zone<'z>(local: Local, zones: &'z KnownZones) -> Result<Zone<'z>, Fail> {
    match local {
        Local::Utc => Ok(Zone::utc()),
        Local::Offset(seconds) => {
            if seconds < -93_599 || seconds > 93_599 {
                return Err(seconds.into());
            }
            Ok(Zone::offset(seconds))
        }
        Local::Summer => Ok(Zone::rules(&zones.summer)),
    }
}

fn copies(alloc: Global, texts: &[&str]) -> Result<Vec<String>, AllocError> {
    let mut all = Vec::new(alloc);
    for text in texts {
        all.push(String::from_str(alloc, text)?)?;
    }
    Ok(all)
}

/// Creates the request of a row. Fails if the iterations are not from 1 to 1,000,000, if a base time is given for a
/// verb that computes no elapses, or if the verb `timer` doesn't have exactly one text.
fn request(alloc: Global, row: &Row<'_>) -> Result<Request, Fail> {
    let (verb, iterations) = (row.verb, row.iterations);
    if iterations < 1 || iterations > 1_000_000 {
        return Err(iterations.into());
    }
    let base = match row.base {
        Some(text) if verb.seeks_elapses() => Some(String::from_str(alloc, text)?),
        Some(_) => return Err("a base".into()),
        None => None,
    };
    let texts = copies(alloc, row.texts)?;
    if verb.is_timer() && texts.len() != 1 {
        return Err("not one file".into());
    }
    Ok(Request {
        verb,
        texts,
        iterations,
        base,
    })
}
