//! The verb `due`: whether the run of a service is due.

ghost use Rattle.std.specs.Prelude.{◌≡◌, ◌≤◌, IfOk, None, Some, option_map, string_bytes};
ghost use Rattle.cal_timers_report.specs.rules.ReportView.{due_seen};
ghost use Rattle.cal_answers.specs.rules.Output.{IsDueAnswer, IsFirstDue, IsUnloaded, due_output, due_view, folder_of, status_of};
ghost use Rattle.cal_answers.specs.rules.Printed.{printed_of};

use crate::answer::{
    Answer, Context, INVALID, fault_lines, push_masked, stopped, with_error_lines,
};
use crate::compare::{if_folder, not_a_timer};
use cal_load::{Loaded, LoadedTimer, run_timing};
use cal_tasks::{DueRun, due_run};
use cal_timers_report::{DueReport, DueVerdict, due_json, due_text};
use std::alloc::{AllocError, Global};

/// Checks whether the run is due according to the loaded timer. It is due if it is about no timer.
/// `named` is the target, if there is one.
pub(crate) fn due(
    alloc: Global,
    context: Context<'_>,
    named: Option<&str>,
    loaded: &Option<Loaded>,
) -> Result<Answer, AllocError>
    ensures status { IfOk result (λ answer. answer.status ≤ 2) }
    ensures answer { IfOk result (λ answer.
        IsDueAnswer context.entry (option_map (λ name. name.now) named.entry) loaded.now (printed_of answer)) }
{
    match loaded {
        Some(timer) => due_by(alloc, context, named, timer),
        None => by_hand(alloc, context),
    }
}

fn by_hand(alloc: Global, context: Context<'_>) -> Result<Answer, AllocError>
    ensures status { IfOk result (λ answer. answer.status ≤ 2) }
    ensures answer { IfOk result (λ answer. IsDueAnswer context.entry None None (printed_of answer)) }
{
    let report = DueReport {
        unit: None,
        verdict: DueVerdict::ByHand,
    };
    Ok(Answer {
        out: due_output(alloc, context, &report)?,
        err: String::new(alloc),
        status: 0,
    })
}

/// Checks whether the run is due according to what was loaded. A folder as a target is an error, even if it has only one
/// timer.
fn due_by(
    alloc: Global,
    context: Context<'_>,
    named: Option<&str>,
    loaded: &Loaded,
) -> Result<Answer, AllocError>
    ensures status { IfOk result (λ answer. answer.status ≤ 2) }
    ensures answer { IfOk result (λ answer.
        IsDueAnswer context.entry (option_map (λ name. name.now) named.entry) (Some loaded.now) (printed_of answer)) }
{
    if let Some(folder) = folder_of(named, loaded) {
        let reason = not_a_timer(alloc, folder)?;
        return stopped(alloc, reason.as_str());
    }
    match loaded.timers.first() {
        Some(timer) => due_by_timer(alloc, context, loaded, timer),
        None => unloaded(alloc, loaded),
    }
}

/// Returns the target if it was loaded as a folder.
fn folder_of<'t>(named: Option<&'t str>, loaded: &Loaded) -> Option<&'t str>
    ensures { option_map (λ folder. folder.now) result ≡ folder_of (option_map (λ name. name.now) named.entry) loaded.now }
{
    if_folder(named?, loaded)
}

fn due_by_timer(
    alloc: Global,
    context: Context<'_>,
    loaded: &Loaded,
    timer: &LoadedTimer,
) -> Result<Answer, AllocError>
    ensures status { IfOk result (λ answer. answer.status ≤ 2) }
    ensures answer { IfOk result (λ answer. IsFirstDue context.entry loaded.now (Some timer.now) (printed_of answer)) }
{
    let timing = run_timing(alloc, timer)?;
    let run = due_run(alloc, context.at, timer, timing, context.boot)?;
    let report = report_of(timer, run);
    let out = due_output(alloc, context, &report)?;
    let Answer { out, err, status } = with_error_lines(alloc, loaded, out)?;
    let status = status.max(status_of(run));
    Ok(Answer { out, err, status })
}

fn report_of<'t>(timer: &'t LoadedTimer, run: DueRun) -> DueReport<'t>
    ensures { due_seen result ≡ due_view (string_bytes timer.entry.now.name) run }
{
    DueReport {
        unit: Some(timer.name.as_str()),
        verdict: match run {
            DueRun::Due(last) => DueVerdict::Due(last),
            DueRun::CatchesUp(last) => DueVerdict::CatchesUp(last),
            DueRun::Excepted(last) => DueVerdict::Excepted(last),
        },
    }
}

/// Returns the exit status if there is no error line: 0 if the run is due, and [`INVALID`] if it isn't.
fn status_of(run: DueRun) -> u8
    ensures { result ≡ status_of run }
{
    match run {
        DueRun::Due(_) | DueRun::CatchesUp(_) => 0,
        DueRun::Excepted(_) => INVALID,
    }
}

fn due_output(
    alloc: Global,
    context: Context<'_>,
    report: &DueReport<'_>,
) -> Result<String, AllocError>
    ensures { IfOk result (λ out. string_bytes out ≡ due_output context.entry (due_seen report.now)) }
{
    if context.is_json {
        due_json(alloc, context.shown.local, report)
    } else {
        due_text(alloc, context.shown.local, report)
    }
}

/// Returns the answer if the timer couldn't be loaded: the error lines, and a line about the timer if it is masked.
fn unloaded(alloc: Global, loaded: &Loaded) -> Result<Answer, AllocError>
    ensures status { IfOk result (λ answer. answer.status ≤ 2) }
    ensures answer { IfOk result (λ answer. IsUnloaded loaded.now (printed_of answer)) }
{
    let mut err = fault_lines(alloc, loaded.faults.as_slice())?;
    push_masked(&mut err, loaded.masked.as_slice())?;
    if err.is_empty() {
        return stopped(alloc, "no timer was found");
    }
    Ok(Answer {
        out: String::new(alloc),
        err,
        status: INVALID,
    })
}
