//! The timer that `due` is about, which is the one that it names, or else the one that started the service; and the time
//! of the run that `due` checks.

ghost use Rattle.std.specs.Prelude.{◌≡◌, IfOk, option_map, string_bytes};
ghost use Rattle.std.specs.Option.{option_and_then};
ghost use Rattle.cal_machine.specs.rules.Machine.{Machine};
ghost use Rattle.cal_answers.specs.rules.Seconds.{number_in};
ghost use Rattle.cal_answers.specs.rules.Trigger.{due_on, elapsed_on, is_same_timer, is_timer_name, run_second_on, second_of_micros, stated_second, trigger_on};

use crate::search_path::variable;
use crate::seconds::{number_in, second_at};
use cal_load::is_path;
use cal_machine::Tree;
use cal_timers_command::{Command, Question};
use cal_unit_index::without_suffix;
use cal_zone::MICROS_PER_SECOND;
use std::alloc::{AllocError, Global};

/// Returns the timer that `due` is about, or `None` if it names none and no timer started the service. Returns `None`
/// for other verbs.
pub(crate) fn due_on<T: Tree>(
    alloc: Global,
    tree: &mut T,
    question: &Question,
) -> Result<Option<String>, AllocError>
    ensures known { IfOk result (λ timer. (machine : Machine) → T.shows tree.new machine
        → option_map string_bytes timer ≡ due_on machine question.entry.now) }
    ensures grows { (machine : Machine) → T.shows tree.new machine → T.shows tree.old machine }
{
    match question {
        Question::Due { timer: Some(name) } => Ok(Some(String::from_str(alloc, name.as_str())?)),
        Question::Due { timer: None } => trigger(alloc, tree),
        Question::List { .. }
        | Question::Show { .. }
        | Question::Lint { .. }
        | Question::Between { .. }
        | Question::Same { .. }
        | Question::Next { .. }
        | Question::Cron { .. } => Ok(None),
    }
}

/// Returns the value of `TRIGGER_UNIT` if it names a timer. systemd sets this variable to the name of the unit that
/// started the service.
fn trigger<T: Tree>(alloc: Global, tree: &mut T) -> Result<Option<String>, AllocError>
    ensures known { IfOk result (λ timer. (machine : Machine) → T.shows tree.new machine
        → option_map string_bytes timer ≡ trigger_on machine) }
    ensures grows { (machine : Machine) → T.shows tree.new machine → T.shows tree.old machine }
{
    let Some(name) = variable(alloc, tree, "TRIGGER_UNIT")? else {
        return Ok(None);
    };
    if is_timer_name(name.as_str()) {
        Ok(Some(name))
    } else {
        Ok(None)
    }
}

/// Returns whether this is the name of a timer as systemd would set it: it ends in `.timer` and isn't a path.
fn is_timer_name(name: &str) -> bool
    ensures { result ≡ is_timer_name name.now }
{
    name.as_bytes().ends_with(b".timer") && !is_path(name)
}

/// Returns the second that counts as the present: that of `--now` if it is given, or else the second in which the timer
/// triggered the run that `due` checks, or else `clock`.
pub(crate) fn stated_second<T: Tree>(
    alloc: Global,
    tree: &mut T,
    command: &Command,
    clock: Option<i64>,
) -> Result<Option<i64>, AllocError>
    ensures known { IfOk result (λ second. (machine : Machine) → T.shows tree.new machine
        → second ≡ stated_second machine command.entry.now clock) }
    ensures grows { (machine : Machine) → T.shows tree.new machine → T.shows tree.old machine }
{
    if let Some(now) = command.options.now {
        return Ok(Some(now));
    }
    match run_second(alloc, tree, &command.question)? {
        Some(second) => Ok(Some(second)),
        None => Ok(clock),
    }
}

/// Returns the second in which the timer that `due` is about triggered the service. Returns `None` if another unit did,
/// or if systemd doesn't say when.
fn run_second<T: Tree>(
    alloc: Global,
    tree: &mut T,
    question: &Question,
) -> Result<Option<i64>, AllocError>
    ensures known { IfOk result (λ second. (machine : Machine) → T.shows tree.new machine
        → second ≡ run_second_on machine question.entry.now) }
    ensures grows { (machine : Machine) → T.shows tree.new machine → T.shows tree.old machine }
{
    let about = due_on(alloc, tree, question)?;
    let unit = trigger(alloc, tree)?;
    if is_same_timer(unit.as_deref(), about.as_deref()) {
        elapsed_second(alloc, tree)
    } else {
        Ok(None)
    }
}

/// Returns whether both texts name the same timer. The suffix `.timer` can be left out.
fn is_same_timer(unit: Option<&str>, about: Option<&str>) -> bool
    ensures { result ≡ is_same_timer (option_map (λ unit. unit.now) unit.entry) (option_map (λ about. about.now) about.entry) }
{
    match (unit, about) {
        (Some(unit), Some(about)) => without_suffix(unit) == without_suffix(about),
        _ => false,
    }
}

/// Returns the second in which the timer triggered the service, according to systemd.
fn elapsed_second<T: Tree>(alloc: Global, tree: &mut T) -> Result<Option<i64>, AllocError>
    ensures known { IfOk result (λ second. (machine : Machine) → T.shows tree.new machine
        → second ≡ elapsed_on machine) }
    ensures grows { (machine : Machine) → T.shows tree.new machine → T.shows tree.old machine }
{
    let Some(value) = variable(alloc, tree, "TRIGGER_TIMER_REALTIME_USEC")? else {
        return Ok(None);
    };
    Ok(second_of_micros(value.as_bytes()))
}

/// Returns the second in a number of microseconds of Unix time, rounded down.
fn second_of_micros(text: &[u8]) -> Option<i64>
    ensures { result ≡ option_and_then second_of_micros (number_in text.now) }
{
    let micros = number_in(text)?;
    second_at(micros / MICROS_PER_SECOND)
}
