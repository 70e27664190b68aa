//! The report of `between`: the elapses of several timers in a range, with the names of the timers.

ghost use Rattle.std.specs.Prelude.{◌≡◌, ◌++◌, IfOk, OnOk, map, option_copied, slice_get};
ghost use Rattle.cal_timers_report.specs.rules.ReportView as view;
ghost use Rattle.cal_tasks.specs.rules.BetweenReport.{AreBetween, named, named_at};

use crate::present::Present;
use crate::several::elapses_between;
use crate::timer_elapse::TimerElapse;
use cal_load::LoadedTimer;
use cal_timers_report::UnitElapse;
use cal_zone::Instant;
use std::alloc::{AllocError, Global};

/// Returns all elapses of the timers that are at or after `from` and before `before`, in increasing order, each with
/// the name of its timer. Elapses at the same instant are in the order of their timers. Fails only if allocation fails.
pub fn between_rows<'a>(
    alloc: Global,
    at: Present<'_>,
    from: Instant,
    before: Instant,
    timers: &'a [LoadedTimer],
) -> Result<Vec<UnitElapse<'a>>, AllocError>
    ensures { IfOk result (λ rows. AreBetween at.entry from.secs before.secs timers.now (map view.elapse_seen rows.items)) }
{
    let elapses = elapses_between(alloc, at, from, before, timers)?;
    with_names(alloc, timers, elapses.as_slice())
}

/// Returns the elapses with the names of their timers.
fn with_names<'a>(
    alloc: Global,
    timers: &'a [LoadedTimer],
    elapses: &[TimerElapse],
) -> Result<Vec<UnitElapse<'a>>, AllocError>
    ensures { IfOk result (λ rows. map view.elapse_seen rows.items ≡ named timers.now elapses.now) }
{
    let mut rows: Vec<UnitElapse<'a>> = Vec::new(alloc);
    for elapse in elapses {
        push_named(&mut rows, elapse.instant, timer_at(timers, elapse.timer))?;
    }
    Ok(rows)
}

fn timer_at(timers: &[LoadedTimer], index: usize) -> Option<&LoadedTimer>
    ensures { option_copied result ≡ slice_get timers.now index }
{
    timers.get(index)
}

/// Appends the elapse of `timer` at `instant`. If `timer` is `None`, appends nothing.
fn push_named<'a>(
    rows: &mut Vec<UnitElapse<'a>>,
    instant: Instant,
    timer: Option<&'a LoadedTimer>,
) -> Result<(), AllocError>
    ensures { OnOk result (map view.elapse_seen rows.new.items
        ≡ map view.elapse_seen rows.old.items ++ named_at instant.secs (option_copied timer.entry)) }
{
    let Some(timer) = timer else {
        return Ok(());
    };
    let row = UnitElapse {
        unit: timer.name.as_str(),
        instant,
    };
    rows.push(row)?;
    Ok(())
}
