//! The report of `list`: for each unit a row with its name, its next elapse and its notes.

ghost use Rattle.std.specs.Prelude.{◌≡◌, ◌++◌, IfOk, OnOk, codes, false, map, option_copied, slice_get, string_bytes, true};
ghost use Rattle.cal_timers_report.specs.rules.ReportView.{unit_seen};
ghost use Rattle.cal_tasks.specs.rules.ListReport.{IsListOf, elapsing_row, elapsing_rows, ended_row, ended_rows, failed_rows, list_notes, masked_rows, noted_row, row_if};
ghost use Rattle.cal_tasks.specs.rules.Unguarded.{unguarded_seen};

use crate::notes::{push_all, push_exceptions_note, push_if};
use crate::present::Present;
use crate::several::next_of_timers;
use crate::timer_elapse::TimerElapse;
use crate::unguarded::UnguardedTimer;
use cal_load::{Loaded, LoadedTimer, TargetFault};
use cal_timers_report::ListRow;
use cal_zone::Instant;
use std::alloc::{AllocError, Global};

/// Returns a row for each unit of `list`: first the timers that elapse after the present, soonest first, then the other
/// timers, then the units with the names `masked`, and last the units that fail to load.
///
/// The notes of a timer are `disabled` if no other unit starts it, `never` if it has expressions but doesn't elapse any
/// more, `exceptions ignored by systemd` if it has exceptions and is one of the `unguarded` timers, and its other
/// settings: those that decide when it starts a unit, and which unit that is.
///
/// Fails only if allocation fails.
pub fn list_rows<'a>(
    alloc: Global,
    at: Present<'_>,
    loaded: &'a Loaded,
    masked: &'a [String],
    unguarded: &[UnguardedTimer],
) -> Result<Vec<ListRow<'a>>, AllocError>
    ensures { IfOk result (λ rows. IsListOf at.entry loaded.now (map string_bytes masked.now) (map unguarded_seen unguarded.now) (map unit_seen rows.items)) }
{
    let next = next_of_timers(alloc, at, loaded.timers.as_slice())?;
    let mut rows: Vec<ListRow<'a>> = Vec::new(alloc);
    push_soonest(alloc, &mut rows, loaded, unguarded, next.soonest.as_slice())?;
    push_ended(alloc, &mut rows, loaded, unguarded, next.never.as_slice())?;
    push_masked(alloc, &mut rows, masked)?;
    push_failed(alloc, &mut rows, loaded.faults.as_slice())?;
    Ok(rows)
}

/// Appends a row for each timer with a next elapse.
fn push_soonest<'a>(
    alloc: Global,
    rows: &mut Vec<ListRow<'a>>,
    loaded: &'a Loaded,
    unguarded: &[UnguardedTimer],
    soonest: &[TimerElapse],
) -> Result<(), AllocError>
    ensures { OnOk result (map unit_seen rows.new.items
        ≡ map unit_seen rows.old.items ++ elapsing_rows loaded.now (map unguarded_seen unguarded.now) soonest.now) }
{
    for elapse in soonest {
        let timer = timer_at(loaded, elapse.timer);
        push_elapsing(alloc, rows, loaded, unguarded, elapse.instant, timer)?;
    }
    Ok(())
}

fn timer_at(loaded: &Loaded, index: usize) -> Option<&LoadedTimer>
    ensures { option_copied result ≡ slice_get loaded.now.timers.items index }
{
    loaded.timers.get(index)
}

/// Appends the row of a timer whose next elapse is at `instant`. Without a timer, appends nothing.
fn push_elapsing<'a>(
    alloc: Global,
    rows: &mut Vec<ListRow<'a>>,
    loaded: &'a Loaded,
    unguarded: &[UnguardedTimer],
    instant: Instant,
    timer: Option<&'a LoadedTimer>,
) -> Result<(), AllocError>
    ensures { OnOk result (map unit_seen rows.new.items
        ≡ map unit_seen rows.old.items ++ row_if (elapsing_row loaded.now (map unguarded_seen unguarded.now) instant.secs) (option_copied timer.entry)) }
{
    let Some(timer) = timer else {
        return Ok(());
    };
    let row = elapsing_row(alloc, loaded, unguarded, instant, timer)?;
    rows.push(row)?;
    Ok(())
}

/// Appends a row for each timer that doesn't elapse any more.
fn push_ended<'a>(
    alloc: Global,
    rows: &mut Vec<ListRow<'a>>,
    loaded: &'a Loaded,
    unguarded: &[UnguardedTimer],
    ended: &[usize],
) -> Result<(), AllocError>
    ensures { OnOk result (map unit_seen rows.new.items
        ≡ map unit_seen rows.old.items ++ ended_rows loaded.now (map unguarded_seen unguarded.now) ended.now) }
{
    for index in ended {
        push_ended_one(alloc, rows, loaded, unguarded, timer_at(loaded, *index))?;
    }
    Ok(())
}

/// Appends the row of a timer that doesn't elapse any more. Without a timer, appends nothing.
fn push_ended_one<'a>(
    alloc: Global,
    rows: &mut Vec<ListRow<'a>>,
    loaded: &'a Loaded,
    unguarded: &[UnguardedTimer],
    timer: Option<&'a LoadedTimer>,
) -> Result<(), AllocError>
    ensures { OnOk result (map unit_seen rows.new.items
        ≡ map unit_seen rows.old.items ++ row_if (ended_row loaded.now (map unguarded_seen unguarded.now)) (option_copied timer.entry)) }
{
    let Some(timer) = timer else {
        return Ok(());
    };
    let row = ended_row(alloc, loaded, unguarded, timer)?;
    rows.push(row)?;
    Ok(())
}

/// Appends a row for each masked unit.
fn push_masked<'a>(
    alloc: Global,
    rows: &mut Vec<ListRow<'a>>,
    masked: &'a [String],
) -> Result<(), AllocError>
    ensures { OnOk result (map unit_seen rows.new.items
        ≡ map unit_seen rows.old.items ++ masked_rows (map string_bytes masked.now)) }
{
    for unit in masked {
        let row = noted_row(alloc, unit.as_str(), "masked")?;
        rows.push(row)?;
    }
    Ok(())
}

/// Appends a row for each unit that fails to load.
fn push_failed<'a>(
    alloc: Global,
    rows: &mut Vec<ListRow<'a>>,
    faults: &'a [TargetFault],
) -> Result<(), AllocError>
    ensures { OnOk result (map unit_seen rows.new.items ≡ map unit_seen rows.old.items ++ failed_rows faults.now) }
{
    for fault in faults {
        if fault.fails_to_load() {
            let row = noted_row(alloc, fault.target.as_str(), "fails to load")?;
            rows.push(row)?;
        }
    }
    Ok(())
}

/// Returns the row of a timer whose next elapse is at `instant`.
fn elapsing_row<'a>(
    alloc: Global,
    loaded: &'a Loaded,
    unguarded: &[UnguardedTimer],
    instant: Instant,
    timer: &'a LoadedTimer,
) -> Result<ListRow<'a>, AllocError>
    ensures { IfOk result (λ row. unit_seen row ≡ elapsing_row loaded.now (map unguarded_seen unguarded.now) instant.secs timer.now) }
{
    let notes = notes_of(alloc, loaded, unguarded, timer, false)?;
    Ok(ListRow {
        unit: timer.name.as_str(),
        next: Some(instant),
        notes,
    })
}

/// Returns the row of a timer that doesn't elapse any more.
fn ended_row<'a>(
    alloc: Global,
    loaded: &'a Loaded,
    unguarded: &[UnguardedTimer],
    timer: &'a LoadedTimer,
) -> Result<ListRow<'a>, AllocError>
    ensures { IfOk result (λ row. unit_seen row ≡ ended_row loaded.now (map unguarded_seen unguarded.now) timer.now) }
{
    let notes = notes_of(alloc, loaded, unguarded, timer, true)?;
    Ok(ListRow {
        unit: timer.name.as_str(),
        next: None,
        notes,
    })
}

/// Returns the row of a unit that isn't a loaded timer, with a single note.
fn noted_row<'a>(alloc: Global, unit: &'a str, note: &'a str) -> Result<ListRow<'a>, AllocError>
    ensures { IfOk result (λ row. unit_seen row ≡ noted_row note.now unit.now) }
{
    let mut notes: Vec<&'a str> = Vec::new(alloc);
    notes.push(note)?;
    Ok(ListRow {
        unit,
        next: None,
        notes,
    })
}

/// Returns the notes of a timer. `is_ended` is `true` if the timer doesn't elapse any more.
fn notes_of<'a>(
    alloc: Global,
    loaded: &'a Loaded,
    unguarded: &[UnguardedTimer],
    timer: &'a LoadedTimer,
    is_ended: bool,
) -> Result<Vec<&'a str>, AllocError>
    ensures { IfOk result (λ notes. map (λ note. note.now) notes.items ≡ list_notes loaded.now (map unguarded_seen unguarded.now) is_ended timer.now) }
{
    let mut notes: Vec<&'a str> = Vec::new(alloc);
    push_if(
        &mut notes,
        loaded.is_disabled(timer.name.as_str()),
        "disabled",
    )?;
    push_if(&mut notes, is_ended && !timer.lines().is_empty(), "never")?;
    push_exceptions_note(&mut notes, timer, unguarded)?;
    push_all(&mut notes, timer.notes.as_slice())?;
    Ok(notes)
}
