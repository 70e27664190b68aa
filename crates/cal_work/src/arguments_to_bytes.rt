//! The program's whole work, from the arguments to the bytes on both outputs and the exit status (systemd-analyze(1)).
//!
//! The order is: the arguments, the zone files one after another, the local zone, the clock (unless `--now` is given),
//! opening the timer file, and the run, which reads the base time first and then the timer file. The first step that
//! fails ends the work; the steps after it aren't done.

ghost use Rattle.std.specs.Prelude.{◌≡◌, ◌⊎◌, ℕ, List, Option, Result, Ok, Err, Some, None, true, false, is_err, map, option_map, IfOk, IfErr};
ghost use Rattle.cal_bytes.specs.rules.Writes.{Writes};
ghost use Rattle.cal_command.specs.rules.Ask.{shown_ask, shown_item};
ghost use Rattle.cal_command.specs.rules.Ask as asks;
ghost use Rattle.cal_command.specs.rules.CommandLine.{IsAskOf};
ghost use Rattle.cal_zone.specs.rules.ZoneArgument.{HasOffset, shown_zone_argument};
ghost use Rattle.cal_work.specs.rules.Outcome.{instant_in};
ghost use Rattle.cal_report.specs.rules.Context.{asked_in};
ghost use Rattle.cal_report.specs.rules.ReportLines.{Report};
ghost use Rattle.cal_request.specs.rules.RequestView.{asked};
ghost use Rattle.cal_request.specs.rules.Status.{is_out_failed, is_err_failed};
ghost use Rattle.cal_request.specs.rules.Verb.{seeks_elapses};
ghost use Rattle.cal_work.specs.rules.ProgramHeadline.{PrintsAnswer, PrintsNothing};
ghost use Rattle.cal_work.specs.rules.Stop as stops;
ghost use Rattle.cal_work.specs.rules.Stop.{stops_for_out, stops_for_err, load_stop, rule_stop, unopened_stop};
ghost use Rattle.cal_work.specs.computed.WorkSteps.{is_out_cut, is_err_cut, ran, status_by, Answered, AnsweredArguments, EndsAs, FindsLocal, HasRules, IsFlushed, IsBadRule, Loads, Presents, Reads, ReadsZones, Runs, RunsFile, StopsAs, ReportsStop, WritesOf};
ghost use Rattle.cal_work.specs.rules.Works.{Reaches, ReportsFault, Works};

use crate::stop::{Outlet, Stop, exit_status, write_stop};
use cal_bytes::{Output, Sink};
use cal_command::{Ask, CommandFault, ZoneItem};
use cal_machine::{Inputs, OpenFault};
use cal_report::{run_texts, run_timer};
use cal_request::{Request, RequestKind, RunFault, Status};
use cal_zone::{
    Instant, LoadFault, Rules, Setting, Zone, ZoneArgument, ZoneFault, ZoneTable, load_zone,
};
use std::alloc::Global;
use std::convert::AsStr;

/// How the work ended.
#[derive(Clone, Copy, PartialEq, Eq)]
pub struct Ended {
    /// The exit status: 0, 1 or 2, as [`work`] says.
    pub status: u8,
    /// Whether everything was written. If not, the reason was reported on standard error, unless standard error has
    /// failed.
    pub written: Result<(), RunFault>,
}

/// Does what the arguments ask for.
///
/// Reports, help and the version go to `out`, which is flushed at the end. Error lines go to `err`.
///
/// The status is 0 for success, help and the version. It is 1 if an expression, a timestamp, a span, the base time or
/// the timer file is rejected, if the timer file can't be opened or read, if `out` fails or memory runs out, or if
/// `err` fails while the run writes an error line. It is 2 if the arguments, a zone file, the local zone or the time on
/// the clock can't be used, even if `err` fails while that is reported. But if the error could be reported, and `out`
/// can't be flushed after that, the status is 1, and [`Ended::written`] says that `out` failed.
///
/// A file is opened when its turn comes, and read to its end, unless an error comes first. If the base time is invalid,
/// nothing of the timer file is read.
///
/// If an output or an allocation fails, each output has a prefix of its whole text. On `err`, the line that reports the
/// failure follows, unless `err` is what failed. If `err` fails while this line is written, only a prefix of the line
/// follows.
pub fn work<S: Inputs, T: AsStr, O: Output, E: Sink>(
    alloc: Global,
    inputs: &mut S,
    arguments: &[T],
    out: &mut O,
    err: &mut E,
) -> Ended
    requires out { O.is_failed out.old ≡ false }
    requires err { E.is_failed err.old ≡ false }
    ensures works { Works S.gives (S.opens inputs.new) (map T.text arguments.now) (O.written out.old) (O.reached out.new)
        (E.written err.old) (E.written err.new) (E.is_failed err.new) result }
    // The headline, for the verbs `calendar` and `timer`: the program prints the answer to what the arguments ask for
    // (or a prefix of it, with a status other than 0), or it prints nothing on standard output and its status isn't 0.
    // In the second case, the clause `works` says why.
    ensures headline { (ask : asks.Ask) → IsAskOf (map T.text arguments.now) (Ok ask) → seeks_elapses ask.verb ≡ true
        → PrintsAnswer S.gives ask result (O.written out.old) (O.reached out.new) (E.written err.old) (E.written err.new)
        ⊎ PrintsNothing result (O.written out.old) (O.reached out.new) }
    ensures out_fault { is_out_failed result.written ≡ true → O.is_failed out.new ≡ true }
    ensures out_failed { O.is_failed out.new ≡ true → is_err result.written ≡ true }
    ensures err_fault { is_err_failed result.written ≡ true → E.is_failed err.new ≡ true }
{
    let answered = answer_arguments(alloc, inputs, arguments, out, err);
    let reported = report_end(&answered, out, err);
    let written = flush_output(reported.written, out);
    report_fault(written, err);
    Ended {
        status: status_by(written, reported.status),
        written,
    }
}

/// Returns the exit status after `out` is flushed: 1 if `out` or an allocation failed, and otherwise `status`, even if
/// `err` failed.
fn status_by(written: Result<(), RunFault>, status: u8) -> u8
    ensures { result ≡ status_by written status }
{
    match written {
        Ok(()) | Err(RunFault::ErrFailed) => status,
        Err(RunFault::OutFailed) | Err(RunFault::NoMemory) => 1,
    }
}

// ## The work, up to the first step that fails

/// Parses the arguments and does what they ask for.
fn answer_arguments<S: Inputs, T: AsStr, O: Sink, E: Sink>(
    alloc: Global,
    inputs: &mut S,
    arguments: &[T],
    out: &mut O,
    err: &mut E,
) -> Result<Status, Stop>
    requires out { O.is_failed out.old ≡ false }
    requires err { E.is_failed err.old ≡ false }
    ensures answered { AnsweredArguments S.gives (S.opens inputs.new) (map T.text arguments.now) result
        (O.written out.old) (O.written out.new) (E.written err.old) (E.written err.new) }
    ensures out_failed { O.is_failed out.new ≡ is_out_cut result }
    ensures err_failed { E.is_failed err.new ≡ is_err_cut result }
{
    match Ask::of_arguments(alloc, arguments) {
        Ok(ask) => answer(alloc, inputs, &ask, out, err),
        Err(fault) => Err(Stop::Command(fault)),
    }
}

/// Prepares the zones and the present instant, and runs the request.
fn answer<S: Inputs, O: Sink, E: Sink>(
    alloc: Global,
    inputs: &mut S,
    ask: &Ask,
    out: &mut O,
    err: &mut E,
) -> Result<Status, Stop>
    requires out { O.is_failed out.old ≡ false }
    requires err { E.is_failed err.old ≡ false }
    ensures answered { Answered S.gives (S.opens inputs.new) (shown_ask ask.entry.now) result
        (O.written out.old) (O.written out.new) (E.written err.old) (E.written err.new) }
    ensures out_failed { O.is_failed out.new ≡ is_out_cut result }
    ensures err_failed { E.is_failed err.new ≡ is_err_cut result }
{
    let table = read_zones(alloc, inputs, ask.zones.as_slice())?;
    let rules = read_rules(alloc, &ask.local)?;
    let local = local_zone(&ask.local, &rules, &table)?;
    let now = find_present(inputs, ask.now)?;
    run_request(alloc, inputs, &ask.request, now, local, &table, out, err)
}

// ## The steps of `answer`

/// Reads the zone files, in order, into a new table. If a file can't be loaded, returns the stop for this file, and
/// doesn't read the files after it.
fn read_zones<S: Inputs>(
    alloc: Global,
    inputs: &mut S,
    items: &[ZoneItem],
) -> Result<ZoneTable, Stop>
    ensures { ReadsZones (λ table. table) S.gives (map shown_item items.now) result }
{
    let mut table = ZoneTable::new(alloc);
    for item in items {
        match load_item(alloc, inputs, &mut table, item) {
            Ok(()) => {}
            Err(fault) => return Err(load_stop(alloc, item.name.as_str(), fault)),
        }
    }
    Ok(table)
}

/// Opens a zone file and reads it into the table.
fn load_item<S: Inputs>(
    alloc: Global,
    inputs: &mut S,
    table: &mut ZoneTable,
    item: &ZoneItem,
) -> Result<(), LoadFault>
    ensures { Loads S.gives table.old table.new (shown_item item.now) result }
{
    match inputs.open(item.path.as_str()) {
        Ok(()) => load_zone(alloc, table, item.name.as_str(), inputs),
        Err(OpenFault::Unopened) => Err(LoadFault::ReadFailed),
        Err(OpenFault::NoMemory) => Err(LoadFault::Zone(ZoneFault::NoMemory)),
    }
}

/// Returns the stop for a zone file that can't be loaded. The stop owns a copy of the name. If the copy can't be
/// allocated, the stop is for running out of memory instead.
fn load_stop(alloc: Global, name: &str, fault: LoadFault) -> Stop
    ensures { StopsAs {X = Unit} result (Err (load_stop name.now fault)) }
{
    match String::from_str(alloc, name) {
        Ok(name) => Stop::Zones(name, fault),
        Err(_) => Stop::Run(RunFault::NoMemory),
    }
}

/// Parses the local zone if it is given as a POSIX rule. Returns `None` if it is given in another way. Fails with
/// `Stop::LocalRule` if `jiff` can't parse the rule.
fn read_rules(alloc: Global, local: &ZoneArgument) -> Result<Option<Rules>, Stop>
    ensures rules { IfOk result (HasRules (shown_zone_argument local.now)) }
    ensures refused { IfErr result (λ stop. StopsAs {X = Unit} stop (Err rule_stop) × IsBadRule (shown_zone_argument local.now)) }
{
    let ZoneArgument::Posix(rule) = local else {
        return Ok(None);
    };
    let rules = Rules::posix(alloc, rule.as_str()).map_err(|_| Stop::LocalRule)?;
    Ok(Some(rules))
}

/// Returns the local zone. If it is given as a POSIX rule, `rules` are the parsed rules. Fails with `Stop::LocalName`
/// if the zone is given by a name that `table` doesn't have.
fn local_zone<'t>(
    local: &ZoneArgument,
    rules: &'t Option<Rules>,
    table: &'t ZoneTable,
) -> Result<Zone<'t>, Stop>
    requires rules { HasRules (shown_zone_argument local.now) rules.now }
    requires offset { HasOffset local.now }
    ensures { FindsLocal (λ zone. zone) (shown_zone_argument local.now) table.now result }
{
    match local {
        ZoneArgument::Utc => Ok(Zone::utc()),
        ZoneArgument::Offset(seconds) => Ok(Zone::offset(*seconds)),
        ZoneArgument::Posix(_) => match rules {
            Some(rules) => Ok(Zone::rules(rules)),
            // `read_rules` has parsed the rules. They can't be parsed here, because the zone borrows them.
            None => unreachable!(),
        },
        ZoneArgument::Name(name) => match table.find(name.as_str()) {
            Some(zone) => Ok(zone),
            None => Err(Stop::LocalName),
        },
    }
}

/// Returns the present instant: the instant given with `--now`, or else the time of the clock. Fails with `Stop::Clock`
/// if the clock is needed but can't be read, or shows a time outside the supported range.
fn find_present<S: Inputs>(inputs: &S, given: Option<Instant>) -> Result<Instant, Stop>
    ensures { Presents (λ now. now.secs) S.gives (option_map (λ now. now.secs) given) result }
{
    match given {
        Some(now) => Ok(now),
        None => read_clock(inputs),
    }
}

/// Reads the clock. Fails with `Stop::Clock` if it can't be read, or shows a time outside the supported range.
fn read_clock<S: Inputs>(inputs: &S) -> Result<Instant, Stop>
    ensures { Reads (λ now. now.secs) S.gives result }
{
    inputs.clock().and_then(instant_in).ok_or(Stop::Clock)
}

/// Returns the instant `secs` seconds after 1970-01-01 00:00:00 UTC, or `None` if it is outside the supported range.
#[tactic(auto, unfolding(crate::specs::rules::Outcome::instant_in))]
fn instant_in(secs: i64) -> Option<Instant>
    ensures { option_map (λ now. now.secs) result ≡ instant_in secs }
{
    Instant::new(secs)
}

/// Runs a request. If it is for a timer file, opens the file first.
fn run_request<S: Inputs, O: Sink, E: Sink>(
    alloc: Global,
    inputs: &mut S,
    request: &Request,
    now: Instant,
    local: Zone<'_>,
    table: &ZoneTable,
    out: &mut O,
    err: &mut E,
) -> Result<Status, Stop>
    requires out { O.is_failed out.old ≡ false }
    requires err { E.is_failed err.old ≡ false }
    ensures runs { Runs S.gives (S.opens inputs.new) (asked request.now now.secs local.entry table.now) result
        (O.written out.old) (O.written out.new) (E.written err.old) (E.written err.new) }
    ensures out_failed { O.is_failed out.new ≡ is_out_cut result }
    ensures err_failed { E.is_failed err.new ≡ is_err_cut result }
{
    let setting = Setting {
        now,
        local,
        zones: table,
    };
    match request.kind() {
        RequestKind::Texts { verb, texts } => {
            run_texts(alloc, request, verb, texts, setting, out, err).map_err(Stop::Run)
        }
        RequestKind::Timer { path } => { run_file(alloc, inputs, request, path, setting, out, err) }
    }
}

/// Opens the timer file with this path, and runs the request for it. Fails with `Stop::Open` if the file can't be
/// opened.
fn run_file<S: Inputs, O: Sink, E: Sink>(
    alloc: Global,
    inputs: &mut S,
    request: &Request,
    path: &str,
    setting: Setting<'_>,
    out: &mut O,
    err: &mut E,
) -> Result<Status, Stop>
    requires out { O.is_failed out.old ≡ false }
    requires err { E.is_failed err.old ≡ false }
    ensures runs { RunsFile S.gives (S.opens inputs.new) (asked_in request.now setting.entry) path.now result
        (O.written out.old) (O.written out.new) (E.written err.old) (E.written err.new) }
    ensures out_failed { O.is_failed out.new ≡ is_out_cut result }
    ensures err_failed { E.is_failed err.new ≡ is_err_cut result }
{
    match inputs.open(path) {
        Ok(()) => { run_timer(alloc, request, path, setting, inputs, out, err).map_err(Stop::Run) }
        Err(OpenFault::Unopened) => Err(unopened_stop(alloc, path)),
        Err(OpenFault::NoMemory) => Err(Stop::Run(RunFault::NoMemory)),
    }
}

/// Returns the stop for a timer file that can't be opened. The stop owns a copy of the path. If the copy can't be
/// allocated, the stop is for running out of memory instead.
fn unopened_stop(alloc: Global, path: &str) -> Stop
    ensures { StopsAs {X = Unit} result (Err (unopened_stop path.now)) }
{
    match String::from_str(alloc, path) {
        Ok(path) => Stop::Open(path),
        Err(_) => Stop::Run(RunFault::NoMemory),
    }
}

// ## What is reported at the end

/// If the work stopped early, reports why. A failed output and running out of memory are not reported here, but by
/// `report_fault` after the output is flushed. Returns how the work ends if the output can be flushed.
fn report_end<O: Sink, E: Sink>(answered: &Result<Status, Stop>, out: &mut O, err: &mut E) -> Ended
    requires out { O.is_failed out.old ≡ is_out_cut answered.now }
    requires err { E.is_failed err.old ≡ is_err_cut answered.now }
    ensures reported { (expected : Result Report stops.Stop) (before_out before_err : Option (List ℕ))
        → EndsAs answered.now expected before_out (O.written out.old) before_err (E.written err.old)
        → WritesOf result.written result.status expected before_out (O.written out.new) before_err (E.written err.new) }
    ensures out_failed { O.is_failed out.new ≡ is_out_failed result.written }
    ensures err_failed { E.is_failed err.new ≡ is_err_failed result.written }
{
    match answered {
        Ok(status) => Ended {
            status: exit_status(*status),
            written: Ok(()),
        },
        Err(stop) => Ended {
            status: stop.status(),
            written: report_stop(stop, out, err),
        },
    }
}

/// Reports a stop: help on `out`, other stops on `err`. Fails if the report can't be written. If an output has failed
/// or memory has run out, writes nothing and fails with that error, which is reported later.
fn report_stop<O: Sink, E: Sink>(stop: &Stop, out: &mut O, err: &mut E) -> Result<(), RunFault>
    requires out { O.is_failed out.old ≡ stops_for_out stop.now }
    requires err { E.is_failed err.old ≡ stops_for_err stop.now }
    ensures reported { ReportsStop stop.now result (O.written out.old) (O.written out.new) (E.written err.old) (E.written err.new) }
    ensures out_failed { O.is_failed out.new ≡ is_out_failed result }
    ensures err_failed { E.is_failed err.new ≡ is_err_failed result }
{
    match stop.outlet() {
        Outlet::Later(fault) => Err(fault),
        Outlet::OnOut => write_stop(out, stop).map_err(|_| RunFault::OutFailed),
        Outlet::OnErr => write_stop(err, stop).map_err(|_| RunFault::ErrFailed),
    }
}

/// Flushes the output even if something failed, so that everything written before the failure gets out. Returns
/// `written`, unless it is `Ok` and the flush fails: then the result is [`RunFault::OutFailed`].
fn flush_output<O: Output>(written: Result<(), RunFault>, out: &mut O) -> Result<(), RunFault>
    requires { O.is_failed out.old ≡ is_out_failed written }
    ensures bytes { (before : Option (List ℕ)) (text : List ℕ) → Writes before (O.written out.old) written text
        → Reaches before (O.reached out.new) result text }
    ensures same { IsFlushed written result }
    ensures out_fault { is_out_failed result ≡ true → O.is_failed out.new ≡ true }
    ensures out_failed { O.is_failed out.new ≡ true → is_err result ≡ true }
{
    if out.flush() {
        return written;
    }
    match written {
        Ok(()) => Err(RunFault::OutFailed),
        Err(fault) => Err(fault),
    }
}

/// If not everything was written, reports the reason, unless standard error is what failed.
fn report_fault<E: Sink>(written: Result<(), RunFault>, err: &mut E)
    requires { E.is_failed err.old ≡ is_err_failed written }
    ensures line { ReportsFault (E.written err.old) (E.written err.new) (E.is_failed err.new) written }
    ensures fault { is_err_failed written ≡ true → E.is_failed err.new ≡ true }
{
    match written {
        Ok(()) | Err(RunFault::ErrFailed) => {}
        Err(fault) => {
            // If this line can't be written either, only the exit status shows the failure.
            let _ = write_stop(err, &Stop::Run(fault));
        }
    }
}
