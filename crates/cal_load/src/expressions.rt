//! Timers that are made of calendar expressions, or of entries of crontabs, without files.

ghost use Rattle.std.specs.Prelude.{◌≡◌, ◌∷◌, ◌++◌, [], ℕ, List, All, IfOk, OnOk, Some, map, string_bytes};
ghost use Rattle.std.specs.Result.{IfErr};
ghost use Rattle.cal_timer.specs.rules.TimerView.{shown};
ghost use Rattle.cal_machine.specs.rules.Machine.{Machine};
ghost use Rattle.cal_load.specs.rules.Loaded.{HasNames, zone_names_in};
ghost use Rattle.cal_cron.specs.computed.CrontabViews.{time_shown};
ghost use Rattle.cal_cron.specs.computed.Translation.{exprs_in, shown_exprs};
ghost use Rattle.cal_cron.specs.rules.CrontabLines.{single_entry_time};
ghost use Rattle.cal_load.specs.rules.Expressions.{AreAppended, AreOf, HasOneTimer, HasOnlyFault, HasOnlyZoneFault, IsMadeOf, IsParseError, IsTimerOf, IsTimerOrReason, Written, expressions_for, expressions_of, first_with_zone, in_normal_form, read_as_entry, written};

use crate::calendar::Calendar;
use crate::fault::{TargetLoadFault, push_fault};
use crate::loaded::{Loaded, LoadedTimer};
use crate::target_fault::TargetReason;
use crate::timer_files::TimerFiles;
use crate::zones::{first_with_zone, load_named_zones};
use cal_cron::{CronExprs, CronFault, EntryTime, read_entry_time};
use cal_machine::Tree;
use cal_spec::{Expr, SpecFault, normal_text, read_expr};
use cal_timer::TimerLine;
use cal_zone::ZoneTable;
use cal_zone_files::{FileReason, ZonesFault};
use std::alloc::{AllocError, Global};

/// Returns the timer that has these calendar expressions and no exceptions (systemd.time(7), Calendar Events). A text
/// that isn't an expression may be an entry of a crontab, with or without a command (crontab(5)); an entry stands for
/// one or two expressions. If a text is neither, there is no timer, and [`Loaded::faults`] has the error of the first
/// such text. If all texts are valid, but a zone can't be loaded, there is no timer either, and [`Loaded::faults`] has
/// an error for the first expression that names this zone. Fails only if allocation fails.
pub fn load_expressions<T: Tree>(
    alloc: Global,
    tree: &mut T,
    expressions: &[&str],
) -> Result<Loaded, AllocError>
    ensures known { IfOk result (λ loaded. (machine : Machine) → T.shows tree.new machine
        → All (IsMadeOf machine (map (λ text. text.now) expressions.now)) loaded.timers.items) }
    ensures outcome { IfOk result (IsTimerOrReason (λ machine. T.shows tree.new machine)
        (map (λ text. text.now) expressions.now)) }
    ensures grows { (machine : Machine) → T.shows tree.new machine → T.shows tree.old machine }
{
    let mut lines = Vec::new(alloc);
    for expression in expressions {
        if let Err(fault) = push_expressions(alloc, &mut lines, expression) {
            return only_fault(alloc, expression, fault);
        }
    }
    with_zones(alloc, tree, expressions, lines)
}

/// Returns a result without timers, with this error for the target.
fn only_fault(alloc: Global, target: &str, fault: TargetLoadFault) -> Result<Loaded, AllocError>
    ensures { IfOk result (HasOnlyFault target.now fault) }
{
    let mut loaded = Loaded::new(alloc);
    push_fault(alloc, &mut loaded.faults, target, fault)?;
    Ok(loaded)
}

/// Appends the expressions that a text stands for as lines. The line number of an expression is its position in the list,
/// counted from 1.
#[tactic(auto, unfolding(crate::specs::rules::Expressions::expressions_for))]
fn push_expressions(
    alloc: Global,
    lines: &mut Vec<TimerLine>,
    text: &str,
) -> Result<(), TargetLoadFault>
    ensures pushed { OnOk result (AreAppended (expressions_for text.now) (map shown lines.old.items) (map shown lines.new.items)) }
    ensures fault { IfErr result (IsParseError (expressions_for text.now)) }
{
    match read_expr(alloc, text) {
        Ok(expr) => {
            let text = String::from_str(alloc, text)?;
            push_line(lines, text, expr)?;
            Ok(())
        }
        Err(SpecFault::NoMemory) => Err(TargetLoadFault::NoMemory),
        Err(fault) => push_entry(alloc, lines, text, fault),
    }
}

/// Appends the expressions of an entry of a crontab. `invalid` says why the text isn't an expression; it is the error
/// if the text has too few words for an entry.
fn push_entry(
    alloc: Global,
    lines: &mut Vec<TimerLine>,
    text: &str,
    invalid: SpecFault,
) -> Result<(), TargetLoadFault>
    ensures pushed { OnOk result (AreAppended (read_as_entry invalid (single_entry_time exprs_in text.now))
        (map shown lines.old.items) (map shown lines.new.items)) }
    ensures fault { IfErr result (IsParseError (read_as_entry invalid (single_entry_time exprs_in text.now))) }
{
    match read_entry_time(alloc, text) {
        Ok(EntryTime::Times(exprs)) => {
            push_times(alloc, lines, exprs)?;
            Ok(())
        }
        Ok(EntryTime::Reboot) => Err(TargetLoadFault::Target(TargetReason::CrontabEntry(
            CronFault::Reboot,
        ))),
        Err(CronFault::NoMemory) => Err(TargetLoadFault::NoMemory),
        Err(CronFault::FieldCount) => {
            Err(TargetLoadFault::Target(TargetReason::Expression(invalid)))
        }
        Err(fault) => Err(TargetLoadFault::Target(TargetReason::CrontabEntry(fault))),
    }
}

fn push_times(alloc: Global, lines: &mut Vec<TimerLine>, exprs: CronExprs) -> Result<(), AllocError>
    ensures { OnOk result (map written (map shown lines.new.items)
        ≡ map written (map shown lines.old.items) ++ expressions_of (shown_exprs exprs)) }
{
    push_normal(alloc, lines, exprs.first)?;
    match exprs.other {
        Some(other) => push_normal(alloc, lines, other),
        None => Ok(()),
    }
}

/// Appends an expression with its normal form as its text.
fn push_normal(alloc: Global, lines: &mut Vec<TimerLine>, expr: Expr) -> Result<(), AllocError>
    ensures { OnOk result (map written (map shown lines.new.items)
        ≡ map written (map shown lines.old.items) ++ in_normal_form expr ∷ []) }
{
    let text = normal_text(alloc, &expr)?;
    push_line(lines, text, expr)
}

fn push_line(lines: &mut Vec<TimerLine>, text: String, expr: Expr) -> Result<(), AllocError>
    ensures { OnOk result (map written (map shown lines.new.items)
        ≡ map written (map shown lines.old.items) ++ record { text = string_bytes text; fields = expr } ∷ []) }
{
    let number = u32::try_from(lines.len())
        .unwrap_or(u32::MAX)
        .saturating_add(1);
    lines.push(TimerLine { number, text, expr })?;
    Ok(())
}

/// Loads the zones that the lines name. Returns the timer with these lines, or an error if a zone can't be loaded.
/// `expressions` are the texts of the lines.
fn with_zones<T: Tree>(
    alloc: Global,
    tree: &mut T,
    expressions: &[&str],
    lines: Vec<TimerLine>,
) -> Result<Loaded, AllocError>
    requires { AreOf (map (λ text. text.now) expressions.now) (map shown lines.items) }
    ensures known { IfOk result (λ loaded. (machine : Machine) → T.shows tree.new machine
        → All (IsMadeOf machine (map (λ text. text.now) expressions.now)) loaded.timers.items) }
    ensures outcome { IfOk result (IsTimerOrReason (λ machine. T.shows tree.new machine)
        (map (λ text. text.now) expressions.now)) }
    ensures grows { (machine : Machine) → T.shows tree.new machine → T.shows tree.old machine }
{
    match load_named_zones(alloc, tree, lines.as_slice()) {
        Ok(zones) => only_timer(alloc, expressions.join(alloc, ", ")?, lines, zones),
        Err(ZonesFault::OfZone(zone, reason)) => only_zone_fault(alloc, lines, zone, reason),
        // Of the other errors, only the one for running out of memory can occur. The rest are about the local zone,
        // which isn't looked up here.
        Err(_) => Err(AllocError),
    }
}

fn only_timer(
    alloc: Global,
    name: String,
    lines: Vec<TimerLine>,
    zones: ZoneTable,
) -> Result<Loaded, AllocError>
    requires { HasNames zones (zone_names_in (map shown lines.items)) }
    ensures known { IfOk result (λ loaded. All (IsTimerOf (map shown lines.items) zones) loaded.timers.items) }
    ensures single { IfOk result HasOneTimer }
    ensures masked { IfOk result (λ loaded. loaded.masked.items ≡ []) }
{
    let mut loaded = Loaded::new(alloc);
    loaded.timers.push(LoadedTimer {
        name,
        files: TimerFiles::new(alloc),
        calendar: Calendar::of_expressions(alloc, lines),
        zones,
        notes: Vec::new(alloc),
    })?;
    Ok(loaded)
}

/// Returns a result without timers, with an error for the first line that names the zone, whose file can't be used for
/// this reason.
fn only_zone_fault(
    alloc: Global,
    lines: Vec<TimerLine>,
    zone: String,
    reason: FileReason,
) -> Result<Loaded, AllocError>
    ensures { IfOk result (HasOnlyZoneFault (map shown lines.items) zone reason) }
{
    let target = first_text(alloc, lines.as_slice(), zone.as_str())?;
    let fault = TargetLoadFault::Target(TargetReason::ExpressionZone(zone, reason));
    only_fault(alloc, target.as_str(), fault)
}

/// Returns the text of the first line that names the zone, or an empty text if no line does.
fn first_text(alloc: Global, lines: &[TimerLine], zone: &str) -> Result<String, AllocError>
    ensures { IfOk result (λ found. (text : List ℕ)
        → first_with_zone zone.now (map shown lines.now) ≡ Some text → string_bytes found ≡ text) }
{
    match first_with_zone(lines, zone) {
        Some(line) => String::from_str(alloc, line.text.as_str()),
        None => Ok(String::new(alloc)),
    }
}
