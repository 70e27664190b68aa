//! The elapses of all expressions together, without those of the exceptions (systemd.timer(5), OnCalendar=).

ghost use Rattle.std.specs.Prelude.{◌≡◌, ◌≢◌, ◌++◌, [], ◌∷◌, None, MatchResult, false, true, map, IfOk, OnOk};
ghost use Rattle.cal_zone.specs.rules.Setting.{setting_seen};
ghost use Rattle.cal_rising.specs.rules.Merge.{merged};
ghost use Rattle.cal_elapse.specs.rules.ElapsesAfter.{elapses_after};
ghost use Rattle.cal_elapse.specs.computed.Masks.{sets_in};
ghost use Rattle.cal_elapse.specs.computed.RemainingElapses.{remaining_elapses};
ghost use Rattle.cal_timer.specs.rules.TimerView.{shown};
ghost use Rattle.cal_plan.specs.rules.Instants.{AreInstants};
ghost use Rattle.cal_plan.specs.rules.ZoneFor.{IsUnzoned, first_unzoned, lacks_zone, unzoned};
ghost use Rattle.cal_plan.specs.rules.TimerElapses.{IsAdded, IsCoveredEntry, IsMergeOf, each_of, entry_sets, lists_shown, timed_entry};
ghost use Rattle.cal_plan.specs.declared.plan_fault.PlanFault.TheVariants.{NoMemory};

use crate::plan_fault::PlanFault;
use crate::unzoned::find_unzoned;
use crate::zones::zone_for;
use cal_elapse::{Elapses, Masks, Merge};
use cal_spec::Expr;
use cal_timer::TimerLine;
use cal_zone::{Instant, Setting};
use std::alloc::{AllocError, Global};

/// Creates the source of the elapses after `base`: those of all expressions, without those of the exceptions. Each
/// expression and each exception is evaluated in its own zone.
///
/// Fails with [`PlanFault::NoSuchZone`] if an expression or an exception names a zone that is neither `UTC` nor in the
/// zone table, and with [`PlanFault::NoMemory`] if allocation fails. Calling `next` on the source doesn't allocate.
pub fn merge_of<'a>(
    alloc: Global,
    setting: Setting<'a>,
    base: Instant,
    lines: &[TimerLine],
    exceptions: &[TimerLine],
) -> Result<Merge<Elapses<'a>>, PlanFault>
    ensures merge { MatchResult result
        (IsMergeOf (setting_seen setting.entry) base.secs (lists_shown lines.now exceptions.now))
        (λ fault. fault ≢ NoMemory → IsUnzoned (unzoned (setting_seen setting.entry) (lists_shown lines.now exceptions.now)) fault) }
    ensures instants { IfOk result (λ merge. AreInstants (merged merge)) }
{
    if let Some(number) = find_unzoned(setting, lines, exceptions) {
        return Err(PlanFault::NoSuchZone(number));
    }
    let mut merge = Merge::new(alloc);
    add_expressions(alloc, setting, base, &mut merge, lines, exceptions)?;
    add_exceptions(alloc, setting, base, &mut merge, exceptions)?;
    Ok(merge)
}

/// Adds the elapses of expressions to a merge. The zones of all expressions must be known, and the merge must not have
/// returned an elapse yet.
///
/// Skips an expression that an exception covers. The merge would suppress all its elapses anyway, but would have to
/// find each of them first, which could take very long.
fn add_expressions<'a>(
    alloc: Global,
    setting: Setting<'a>,
    base: Instant,
    merge: &mut Merge<Elapses<'a>>,
    lines: &[TimerLine],
    exceptions: &[TimerLine],
) -> Result<(), AllocError>
    requires zones { first_unzoned (setting_seen setting) (map shown lines.now) ≡ None }
    requires merge { merge.old.started ≡ false }
    ensures { OnOk result
        (IsAdded (setting_seen setting.entry) base.secs (map shown lines.now) (map shown exceptions.now) merge.old merge.new) }
{
    let masks = masks_of_lines(alloc, exceptions)?;
    for line in lines {
        if has_covering_exception(line, exceptions, &masks) {
            continue;
        }
        let elapses = elapses_of(alloc, setting, base, line)?;
        if let Err((_, refused)) = merge.add(elapses) {
            return Err(refused);
        }
    }
    Ok(())
}

fn masks_of_lines(alloc: Global, lines: &[TimerLine]) -> Result<Vec<Masks>, AllocError>
    ensures { IfOk result (λ masks. map sets_in masks.items ≡ map entry_sets (map shown lines.now)) }
{
    let mut masks = Vec::new(alloc);
    for line in lines {
        masks.push(Masks::of(&line.expr))?;
    }
    Ok(masks)
}

/// Checks whether one of the exceptions covers an expression: the exception is in the same zone, and each of its fields
/// matches all values that the same field of the expression matches. Such an exception suppresses every elapse of the
/// expression.
///
/// `masks` are the masks of the exceptions, in the same order; a mask has one bit for each value that a field matches.
/// Returns `false` if the expression is covered only by several exceptions together.
fn has_covering_exception(line: &TimerLine, exceptions: &[TimerLine], masks: &[Masks]) -> bool
    requires { map sets_in masks.now ≡ map entry_sets (map shown exceptions.now) }
    ensures { result ≡ true → IsCoveredEntry (shown line.now) (map shown exceptions.now) }
{
    let own = Masks::of(&line.expr);
    for (exception, theirs) in exceptions.iter().zip(masks) {
        if is_same_zone(&line.expr, &exception.expr) && theirs.covers(&own) {
            return true;
        }
    }
    false
}

/// Returns whether two expressions have the same zone suffix: the same name, the same UTC offset, or none at all.
fn is_same_zone(one: &Expr, other: &Expr) -> bool
    ensures { result ≡ true → one.now.zone ≡ other.now.zone }
{
    one.zone_offset() == other.zone_offset() && one.zone_name() == other.zone_name()
}

/// Adds the elapses of exceptions to a merge, which then suppresses them. The zones of all exceptions must be known,
/// and the merge must not have returned an elapse yet.
fn add_exceptions<'a>(
    alloc: Global,
    setting: Setting<'a>,
    base: Instant,
    merge: &mut Merge<Elapses<'a>>,
    lines: &[TimerLine],
) -> Result<(), AllocError>
    requires zones { first_unzoned (setting_seen setting) (map shown lines.now) ≡ None }
    requires merge { merge.old.started ≡ false }
    ensures { OnOk result
        (merge.new ≡ record { started = false; lists = merge.old.lists; exceptions = merge.old.exceptions ++ each_of (setting_seen setting.entry) base.secs (map shown lines.now) }) }
{
    for line in lines {
        let elapses = elapses_of(alloc, setting, base, line)?;
        if let Err((_, refused)) = merge.add_except(elapses) {
            return Err(refused);
        }
    }
    Ok(())
}

/// Creates the source of the elapses of an expression in its zone, which must be known.
#[tactic(auto, unfolding(crate::specs::rules::TimerElapses::timed_entry))]
fn elapses_of<'a>(
    alloc: Global,
    setting: Setting<'a>,
    base: Instant,
    line: &TimerLine,
) -> Result<Elapses<'a>, AllocError>
    requires { lacks_zone (setting_seen setting) (shown line.now) ≡ false }
    ensures { IfOk result (λ elapses. remaining_elapses elapses
        ≡ elapses_after (timed_entry (setting_seen setting.entry) (shown line.now) ∷ []) base.secs) }
{
    let Some(zone) = zone_for(setting, &line.expr) else {
        unreachable!()
    };
    Elapses::new(alloc, &line.expr, zone, base)
}
