//! The search for local times that a clock change skips or repeats (systemd.time(7), Calendar Events).

ghost use Rattle.std.specs.Prelude.{◌≡◌, ◌≤◌, ◌<ℤ◌, ◌≤ℤ◌, ◌<◌, ◌⊎◌, pos, IfOk, IfSome, OnOk, IsSorted, IsPermutation, None, Some, length, map, true};
ghost use Rattle.cal_civil.specs.rules.LocalSecond.{seconds_in_all, IsLocalSecond};
ghost use Rattle.std.specs.List.{All};
ghost use Rattle.cal_elapse.specs.computed.Masks.{sets_in};
ghost use Rattle.cal_elapse.specs.rules.Search.{IsFirstLocal};
ghost use Rattle.cal_plan.specs.rules.ZoneFor.{first_unzoned};
ghost use Rattle.cal_spec.specs.rules.Match.{matches};
ghost use Rattle.cal_spec.specs.rules.ZoneSuffix.{name_in};
ghost use Rattle.cal_timer.specs.rules.TimerView.{shown};
ghost use Rattle.cal_zone.specs.rules.Setting.{setting_seen};
ghost use Rattle.cal_zone.specs.rules.Zone.{zone_of};
ghost use Rattle.cal_tasks.specs.rules.ClockNotes.{AreNotesOf, IsNoteAmong, by_local, limit_if, max_notes};
ghost use Rattle.cal_tasks.specs.rules.LoadedElapses.{lists_of_loaded, setting_for};
ghost use Rattle.cal_tasks.specs.computed.KeptNotes.{AreInOneZone, KeepsAllBefore, KeepsAllOf, StayComplete, StayTrue, max_kept};

use crate::clock_note::{ClockNote, ClockNotes};
use crate::clock_shift::{is_changed, shift_of};
use crate::elapses::setting_for;
use crate::kept_notes::{MAX_NOTES, are_enough, keep};
use crate::present::Present;
use crate::zone_change::next_change;
use cal_civil::LOCAL_END;
use cal_elapse::{Masks, next_local};
use cal_load::LoadedTimer;
use cal_plan::zone_for;
use cal_timer::TimerLine;
use cal_zone::{Instant, Setting, Zone};
use std::alloc::{AllocError, Global};

/// Returns notes about the local times that an expression of the timer matches and that one of the next two changes of
/// the expression's zone skips or repeats. There is one note for each local time and zone. The notes are sorted by
/// local time, and there are at most 16.
///
/// A change of a zone is an instant at which its UTC offset isn't the one a second before. The change after the present
/// is searched for within 1,096 days (three years), and the one after it within 1,096 days of the first. If an offset
/// lasts less than a day, its changes may not be found. For the changes that are found, no note is missing unless there
/// are more than 16. Fails only if allocation fails.
pub(crate) fn clock_notes(
    alloc: Global,
    at: Present<'_>,
    timer: &LoadedTimer,
) -> Result<ClockNotes, AllocError>
    ensures notes { IfOk result (λ notes. All
        (IsNoteAmong (setting_for at.entry timer.now) at.entry.now.secs (lists_of_loaded timer.now.calendar).expressions)
        notes.first.items) }
    ensures all { IfOk result (λ notes. All
        (AreNotesOf (setting_for at.entry timer.now) at.entry.now.secs (lists_of_loaded timer.now.calendar).expressions
        (limit_if notes.has_more) notes.first.items)
        (lists_of_loaded timer.now.calendar).expressions) }
    ensures few { IfOk result (λ notes. length notes.first.items ≤ max_notes) }
    ensures sorted { IfOk result (λ notes. IsSorted by_local notes.first.items) }
{
    let notes = notes_of_lines(alloc, setting_for(at, timer), timer.lines())?;
    Ok(earliest_of(notes))
}

/// Sorts notes, and returns the first 16 of them.
fn earliest_of(mut notes: Vec<ClockNote>) -> ClockNotes
    ensures notes { StayTrue notes.items result.first.items }
    ensures all { StayComplete notes.items result.has_more result.first.items }
    ensures few { length result.first.items ≤ max_notes }
    ensures sorted { IsSorted by_local result.first.items }
{
    sort_notes(&mut notes);
    let has_more = notes.len() > MAX_NOTES;
    notes.truncate(MAX_NOTES);
    ClockNotes {
        first: notes,
        has_more,
    }
}

/// Sorts notes by local time, and at the same local time by their zone.
fn sort_notes(notes: &mut Vec<ClockNote>)
    ensures sorted { IsSorted by_local notes.new.items }
    ensures same { IsPermutation notes.old.items notes.new.items }
{
    notes.sort_unstable_by_key(|note| (note.local, note.zone));
}

/// Returns the earliest notes about all expressions, at most 17, in any order. Every zone that an expression names must
/// be known.
fn notes_of_lines(
    alloc: Global,
    setting: Setting<'_>,
    lines: &[TimerLine],
) -> Result<Vec<ClockNote>, AllocError>
    requires { first_unzoned (setting_seen setting) (map shown lines.now) ≡ None }
    ensures notes { IfOk result (λ notes.
        All (IsNoteAmong (setting_seen setting.entry) setting.entry.now.secs (map shown lines.now)) notes.items) }
    ensures all { IfOk result (λ notes.
        All (AreNotesOf (setting_seen setting.entry) setting.entry.now.secs (map shown lines.now) max_kept notes.items)
        (map shown lines.now)) }
{
    let mut notes = Vec::new(alloc);
    for index in 0..lines.len() {
        let line = &lines[index];
        let Some(zone) = zone_for(setting, &line.expr) else {
            unreachable!()
        };
        let masks = Masks::of(&line.expr);
        let zone_index = first_in_zone(lines, index);
        add_notes(&mut notes, &masks, zone, zone_index, setting.now)?;
    }
    Ok(notes)
}

/// Returns the index of the first line whose expression names the same zone as the expression on the line at `index`,
/// or no zone if that expression names none.
fn first_in_zone(lines: &[TimerLine], index: usize) -> usize
    requires { index < length lines.now }
    ensures { AreInOneZone lines.now result index }
{
    let line = &lines[index];
    for earlier in 0..index {
        let other = &lines[earlier];
        if names_same_zone(other, line) {
            return earlier;
        }
    }
    index
}

/// Returns whether two expressions name the same zone, or neither of them names one.
fn names_same_zone(one: &TimerLine, other: &TimerLine) -> bool
    ensures { result ≡ true → name_in one.now.expr.zone ≡ name_in other.now.expr.zone }
{
    match (one.expr.zone_name(), other.expr.zone_name()) {
        (Some(one), Some(other)) => one == other,
        (None, None) => true,
        _ => false,
    }
}

/// Adds notes about the next two changes of a zone. `zone_index` is the field `zone` of the new notes.
fn add_notes(
    notes: &mut Vec<ClockNote>,
    masks: &Masks,
    zone: Zone<'_>,
    zone_index: usize,
    now: Instant,
) -> Result<(), AllocError>
    ensures { OnOk result
        (KeepsAllOf (zone_of zone.entry) (sets_in masks.now) now.secs zone_index notes.old.items notes.new.items) }
{
    let Some(first) = next_change(zone, now) else {
        return Ok(());
    };
    add_notes_of_change(notes, masks, zone, zone_index, first)?;
    let Some(second) = next_change(zone, first) else {
        return Ok(());
    };
    add_notes_of_change(notes, masks, zone, zone_index, second)?;
    Ok(())
}

/// Adds notes about one change of a zone: the matching local times that it skips or repeats.
fn add_notes_of_change(
    notes: &mut Vec<ClockNote>,
    masks: &Masks,
    zone: Zone<'_>,
    zone_index: usize,
    change: Instant,
) -> Result<(), AllocError>
    requires { pos 0 <ℤ change.secs }
    ensures { OnOk result (KeepsAllBefore (zone_of zone.entry) (sets_in masks.now) change.secs zone_index
        (pos seconds_in_all) notes.old.items notes.new.items) }
{
    let shift = shift_of(zone, change);
    let mut next = search_start(shift.from);
    while let Some(local) = first_match(masks, next) {
        if shift.to <= local || are_enough(notes, local) {
            return Ok(());
        }
        if is_changed(zone, change, shift, local) {
            keep(
                notes,
                ClockNote {
                    local,
                    change: shift.kind,
                    zone: zone_index,
                },
            )?;
        }
        next = local + 1;
    }
    Ok(())
}

/// Returns where the search for local seconds from `from` on starts: at `from`, or at the nearest local second from 0
/// to [`LOCAL_END`].
#[tactic(auto, using(cal_civil::proofs::LocalLemmas::local_arith))]
fn search_start(from: i64) -> i64
    ensures low { pos 0 ≤ℤ result }
    ensures high { result ≤ℤ pos seconds_in_all }
    ensures all { result <ℤ pos seconds_in_all → from ≤ℤ result }
    ensures nearest { (result ≤ℤ from) ⊎ (result ≤ℤ pos 0) }
{
    if from < 0 {
        return 0;
    }
    if from > LOCAL_END {
        return LOCAL_END;
    }
    from
}

/// Returns the first matching local second at or after `from`.
#[tactic(auto, using(cal_civil::proofs::LocalLemmas::local_arith))]
fn first_match(masks: &Masks, from: i64) -> Option<i64>
    requires low { pos 0 ≤ℤ from }
    requires high { from ≤ℤ pos seconds_in_all }
    ensures { IsFirstLocal (matches (sets_in masks.now)) from result }
{
    next_local(masks, from).local
}
