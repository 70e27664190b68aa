//! Expressions that don't elapse any more, or for which systemd 252 fails at a midnight that clocks skip, and
//! exceptions that suppress none of the next elapses (systemd.timer(5), OnCalendar=).

ghost use Rattle.std.specs.Prelude.{◌≡◌, ◌++◌, [], ◌∷◌, None, IfOk, OnOk, cond, false, map};
ghost use Rattle.std.specs.List.{list_any};
ghost use Rattle.std.specs.Ordering.{int_eq};
ghost use Rattle.std.specs.Set.{is_member};
ghost use Rattle.cal_zone.specs.rules.Setting.{setting_seen};
ghost use Rattle.cal_elapse.specs.computed.RemainingElapses.{remaining_elapses};
ghost use Rattle.cal_timer.specs.rules.TimerView.{shown};
ghost use Rattle.cal_plan.specs.rules.ZoneFor.{first_unzoned, lacks_zone};
ghost use Rattle.cal_plan.specs.rules.TimerElapses.{lists_shown};
ghost use Rattle.cal_tasks.specs.rules.IdleLines.{elapses_of_line, idle_as, idle_lines, never_elapses, next_elapses, suppresses_nothing};
ghost use Rattle.cal_tasks.specs.rules.LoadedElapses.{lists_of_loaded, setting_for};
ghost use Rattle.cal_tasks.specs.rules.Midnight.{stops_at_midnight};

use crate::elapses::{setting_for, take_first};
use crate::midnight::stops_in;
use crate::present::Present;
use cal_elapse::Elapses;
use cal_load::LoadedTimer;
use cal_plan::{Instants, merge_of, zone_for};
use cal_rising::Rising;
use cal_timer::TimerLine;
use cal_zone::{Instant, Setting};
use std::alloc::{AllocError, Global};

/// The number of elapses that an exception is compared with. An exception that suppresses none of them is reported.
const MAX_ELAPSES: u32 = 10_000;

/// Why an expression or an exception of a timer is reported: it has no effect, or systemd 252 fails for it.
#[derive(Clone, Copy)]
pub enum IdleKind {
    /// The expression doesn't elapse after the present.
    NeverElapses,
    /// systemd 252 fails for the expression on the day before one of the midnights of the next three years, because
    /// the clock of its zone skips this midnight.
    StopsAtMidnight,
    /// The exception suppresses none of the next 10,000 elapses that the timer would have without its exceptions.
    SuppressesNothing,
}

/// An expression or an exception that has no effect, or for which systemd 252 fails.
#[derive(Clone, Copy)]
pub struct IdleLine {
    /// The number of the line with the expression or exception. [`cal_load::TimerFiles::position`] finds the file.
    pub number: u32,
    pub kind: IdleKind,
}

/// Returns the lines of a timer that have no effect, or for which systemd 252 fails: first the expressions that don't
/// elapse after the present, then those for which systemd 252 fails at a midnight that clocks skip, and then the
/// exceptions that suppress nothing. For an exception, only the next 10,000 elapses that the timer would have without
/// its exceptions are checked. Fails only if allocation fails.
pub fn idle_lines(
    alloc: Global,
    at: Present<'_>,
    timer: &LoadedTimer,
) -> Result<Vec<IdleLine>, AllocError>
    ensures { IfOk result (λ found. found.items
        ≡ idle_lines (setting_for at.entry timer.now) at.entry.now.secs (lists_of_loaded timer.now.calendar)) }
{
    let setting = setting_for(at, timer);
    let found = idle_among(alloc, setting, timer.lines(), timer.exceptions())?;
    Ok(found)
}

/// Returns the lines that [`idle_lines`] returns. Every zone that a line names must be known: it is `UTC`, or it was
/// loaded.
fn idle_among(
    alloc: Global,
    setting: Setting<'_>,
    lines: &[TimerLine],
    exceptions: &[TimerLine],
) -> Result<Vec<IdleLine>, AllocError>
    requires lines { first_unzoned (setting_seen setting) (map shown lines.now) ≡ None }
    requires exceptions { first_unzoned (setting_seen setting) (map shown exceptions.now) ≡ None }
    ensures { IfOk result (λ found. found.items
        ≡ idle_lines (setting_seen setting.entry) setting.entry.now.secs (lists_shown lines.now exceptions.now)) }
{
    let mut found = Vec::new(alloc);
    add_never(alloc, &mut found, setting, lines)?;
    add_stopping(&mut found, setting, lines)?;
    // Computing 10,000 elapses takes time, and most timers have no exceptions to compare them with.
    if exceptions.is_empty() {
        return Ok(found);
    }
    let next = next_elapses(alloc, setting, lines)?;
    add_unused(alloc, &mut found, setting, exceptions, &next)?;
    Ok(found)
}

/// Returns the next [`MAX_ELAPSES`] elapses of the expressions, or all of them if there are fewer, as if there were no
/// exceptions. Every zone that an expression names must be known.
fn next_elapses(
    alloc: Global,
    setting: Setting<'_>,
    lines: &[TimerLine],
) -> Result<Vec<Instant>, AllocError>
    requires { first_unzoned (setting_seen setting) (map shown lines.now) ≡ None }
    ensures { IfOk result (λ next. map (λ instant. instant.secs) next.items
        ≡ next_elapses (setting_seen setting.entry) setting.entry.now.secs (map shown lines.now)) }
{
    // No zone is missing, so this fails only if allocation fails.
    let Ok(merge) = merge_of(alloc, setting, setting.now, lines, &[]) else {
        return Err(AllocError);
    };
    take_first(alloc, &mut Instants::new(merge), MAX_ELAPSES)
}

/// Appends the expressions that don't elapse after the present. Every zone that an expression names must be known.
fn add_never(
    alloc: Global,
    found: &mut Vec<IdleLine>,
    setting: Setting<'_>,
    lines: &[TimerLine],
) -> Result<(), AllocError>
    requires { first_unzoned (setting_seen setting) (map shown lines.now) ≡ None }
    ensures { OnOk result (found.new.items ≡ found.old.items
        ++ idle_as IdleKind.NeverElapses
        (never_elapses (setting_seen setting.entry) setting.entry.now.secs)
        (map shown lines.now)) }
{
    for line in lines {
        let never = never_elapses(alloc, setting, line)?;
        push_if(found, never, line.number, IdleKind::NeverElapses)?;
    }
    Ok(())
}

/// Appends the expressions for which systemd 252 fails at a midnight that clocks skip.
fn add_stopping(
    found: &mut Vec<IdleLine>,
    setting: Setting<'_>,
    lines: &[TimerLine],
) -> Result<(), AllocError>
    ensures { OnOk result (found.new.items ≡ found.old.items
        ++ idle_as IdleKind.StopsAtMidnight
        (stops_at_midnight (setting_seen setting.entry) setting.entry.now.secs)
        (map shown lines.now)) }
{
    for line in lines {
        push_if(
            found,
            stops_in(setting, line),
            line.number,
            IdleKind::StopsAtMidnight,
        )?;
    }
    Ok(())
}

/// Appends the exceptions that suppress none of `elapses`. Every zone that an exception names must be known.
fn add_unused(
    alloc: Global,
    found: &mut Vec<IdleLine>,
    setting: Setting<'_>,
    exceptions: &[TimerLine],
    elapses: &[Instant],
) -> Result<(), AllocError>
    requires { first_unzoned (setting_seen setting) (map shown exceptions.now) ≡ None }
    ensures { OnOk result (found.new.items ≡ found.old.items
        ++ idle_as IdleKind.SuppressesNothing
        (suppresses_nothing (setting_seen setting.entry) setting.entry.now.secs (map (λ instant. instant.secs) elapses.now))
        (map shown exceptions.now)) }
{
    for line in exceptions {
        let nothing = suppresses_nothing(alloc, setting, line, elapses)?;
        push_if(found, nothing, line.number, IdleKind::SuppressesNothing)?;
    }
    Ok(())
}

/// Appends the line with this number to `found` if `is_idle` is `true`.
fn push_if(
    found: &mut Vec<IdleLine>,
    is_idle: bool,
    number: u32,
    kind: IdleKind,
) -> Result<(), AllocError>
    ensures { OnOk result (found.new.items
        ≡ found.old.items ++ cond is_idle (record { number = number; kind = kind } ∷ []) []) }
{
    if is_idle {
        found.push(IdleLine { number, kind })?;
    }
    Ok(())
}

/// Returns whether the expression on `line` has no elapse after the present. The zone of the expression must be known.
fn never_elapses(alloc: Global, setting: Setting<'_>, line: &TimerLine) -> Result<bool, AllocError>
    requires { lacks_zone (setting_seen setting) (shown line.now) ≡ false }
    ensures { IfOk result (λ never. never
        ≡ never_elapses (setting_seen setting.entry) setting.entry.now.secs (shown line.now)) }
{
    let mut elapses = elapses_of_line(alloc, setting, line)?;
    Ok(elapses.next().is_none())
}

/// Returns whether none of `instants` is an elapse, after the present, of the exception on `line`. The zone of the
/// exception must be known.
fn suppresses_nothing(
    alloc: Global,
    setting: Setting<'_>,
    line: &TimerLine,
    instants: &[Instant],
) -> Result<bool, AllocError>
    requires { lacks_zone (setting_seen setting) (shown line.now) ≡ false }
    ensures { IfOk result (λ nothing. nothing
        ≡ suppresses_nothing (setting_seen setting.entry) setting.entry.now.secs (map (λ instant. instant.secs) instants.now) (shown line.now)) }
{
    let mut elapses = elapses_of_line(alloc, setting, line)?;
    Ok(!has_any(&mut elapses, instants))
}

/// Returns whether at least one of `instants` is an elapse that `elapses` has yet to return.
fn has_any(elapses: &mut Elapses<'_>, instants: &[Instant]) -> bool
    ensures { result
        ≡ list_any (is_member int_eq (remaining_elapses elapses.old)) (map (λ instant. instant.secs) instants.now) }
{
    for instant in instants {
        if elapses.has(instant.secs()) == Some(true) {
            return true;
        }
    }
    false
}

/// Creates the iterator over all instants after the present at which the expression on `line` elapses. The zone of the
/// expression must be known.
#[tactic(auto, unfolding(cal_plan::specs::rules::TimerElapses::timed_entry))]
fn elapses_of_line<'a>(
    alloc: Global,
    setting: Setting<'a>,
    line: &TimerLine,
) -> Result<Elapses<'a>, AllocError>
    requires { lacks_zone (setting_seen setting) (shown line.now) ≡ false }
    ensures { IfOk result (λ elapses. remaining_elapses elapses
        ≡ elapses_of_line (setting_seen setting.entry) setting.entry.now.secs (shown line.now)) }
{
    let Some(zone) = zone_for(setting, &line.expr) else {
        unreachable!()
    };
    Elapses::new(alloc, &line.expr, zone, setting.now)
}
