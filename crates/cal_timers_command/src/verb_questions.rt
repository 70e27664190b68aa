//! The question that each verb asks, from the matches that `clap` returns.

ghost use Rattle.std.specs.Prelude.{◌≡◌, Ok, IfErr, IfOk, IsSome, map, string_bytes};
ghost use Rattle.clap.specs.Words.{first_of, found_of, rows_of};
ghost use Rattle.cal_timers_command.specs.declared.verb.Verb.TheVariants.{List, Show, Lint, Between, Same, Next, Due, Cron};
ghost use Rattle.cal_timers_command.specs.rules.Asked.{HasNeeded, HasPair, IsFaultIn, needed_text, question_for, shown_question, targets_in};
ghost use Rattle.cal_timers_command.specs.rules.Texts.{texts_of};

use crate::arguments::{ALL, ANY_TIMERS, CRON, FROM, ONE_SIDE, ONE_TIMER, OTHER_SIDE, STRICT, TO};
use crate::question::Question;
use crate::values::count_of;
use crate::verb::Verb;
use cal_options::{Argument, ArgumentFault, is_set, value_of};
use clap::ArgMatches;
use std::alloc::{AllocError, Global};

/// Returns the question that a verb with these values asks, or the error of the first invalid value. The options that
/// most verbs share aren't checked here.
pub(crate) fn question_of(
    alloc: Global,
    verb: Verb,
    values: &ArgMatches<'_>,
) -> Result<Question, ArgumentFault>
    requires { HasNeeded verb (rows_of (found_of values.now)) }
    ensures question { IfOk result (λ question. question_for verb (rows_of (found_of values.now)) ≡ Ok (shown_question question)) }
    ensures fault { IfErr result (IsFaultIn (question_for verb (rows_of (found_of values.now)))) }
{
    match verb {
        Verb::List => list_of(alloc, values),
        Verb::Show => show_of(alloc, values),
        Verb::Lint => lint_of(alloc, values),
        Verb::Between => between_of(alloc, values),
        Verb::Same => same_of(alloc, values),
        Verb::Next => next_of(alloc, values),
        Verb::Due => due_of(alloc, values),
        Verb::Cron => cron_of(alloc, values),
    }
}

#[tactic(auto, unfolding(crate::specs::rules::Asked::question_for))]
fn list_of(alloc: Global, values: &ArgMatches<'_>) -> Result<Question, ArgumentFault>
    ensures question { IfOk result (λ question. question_for List (rows_of (found_of values.now)) ≡ Ok (shown_question question)) }
    ensures fault { IfErr result (IsFaultIn (question_for List (rows_of (found_of values.now)))) }
{
    let timers = targets_of(alloc, values)?;
    Ok(Question::List {
        timers,
        is_all: is_set(values, ALL),
        is_cron: is_set(values, CRON),
    })
}

#[tactic(auto, unfolding(crate::specs::rules::Asked::question_for))]
fn show_of(alloc: Global, values: &ArgMatches<'_>) -> Result<Question, ArgumentFault>
    ensures question { IfOk result (λ question. question_for Show (rows_of (found_of values.now)) ≡ Ok (shown_question question)) }
    ensures fault { IfErr result (IsFaultIn (question_for Show (rows_of (found_of values.now)))) }
{
    let timers = targets_of(alloc, values)?;
    let count = count_of(alloc, values)?;
    Ok(Question::Show { timers, count })
}

#[tactic(auto, unfolding(crate::specs::rules::Asked::question_for))]
fn lint_of(alloc: Global, values: &ArgMatches<'_>) -> Result<Question, ArgumentFault>
    ensures question { IfOk result (λ question. question_for Lint (rows_of (found_of values.now)) ≡ Ok (shown_question question)) }
    ensures fault { IfErr result (IsFaultIn (question_for Lint (rows_of (found_of values.now)))) }
{
    let timers = targets_of(alloc, values)?;
    Ok(Question::Lint {
        timers,
        is_all: is_set(values, ALL),
        is_strict: is_set(values, STRICT),
    })
}

#[tactic(auto, unfolding(crate::specs::rules::Asked::question_for))]
fn between_of(alloc: Global, values: &ArgMatches<'_>) -> Result<Question, ArgumentFault>
    requires { HasPair (rows_of (found_of values.now)) }
    ensures question { IfOk result (λ question. question_for Between (rows_of (found_of values.now)) ≡ Ok (shown_question question)) }
    ensures fault { IfErr result (IsFaultIn (question_for Between (rows_of (found_of values.now)))) }
{
    let from = needed_text(alloc, values, FROM)?;
    let to = needed_text(alloc, values, TO)?;
    let timers = targets_of(alloc, values)?;
    Ok(Question::Between {
        from,
        to,
        timers,
        is_all: is_set(values, ALL),
        is_cron: is_set(values, CRON),
    })
}

#[tactic(auto, unfolding(crate::specs::rules::Asked::question_for))]
fn same_of(alloc: Global, values: &ArgMatches<'_>) -> Result<Question, ArgumentFault>
    requires { HasPair (rows_of (found_of values.now)) }
    ensures question { IfOk result (λ question. question_for Same (rows_of (found_of values.now)) ≡ Ok (shown_question question)) }
    ensures fault { IfErr result (IsFaultIn (question_for Same (rows_of (found_of values.now)))) }
{
    let one = needed_text(alloc, values, ONE_SIDE)?;
    let other = needed_text(alloc, values, OTHER_SIDE)?;
    Ok(Question::Same { one, other })
}

#[tactic(auto, unfolding(crate::specs::rules::Asked::question_for))]
fn next_of(alloc: Global, values: &ArgMatches<'_>) -> Result<Question, ArgumentFault>
    ensures question { IfOk result (λ question. question_for Next (rows_of (found_of values.now)) ≡ Ok (shown_question question)) }
    ensures fault { IfErr result (IsFaultIn (question_for Next (rows_of (found_of values.now)))) }
{
    let expressions = targets_of(alloc, values)?;
    let count = count_of(alloc, values)?;
    Ok(Question::Next { expressions, count })
}

#[tactic(auto, unfolding(crate::specs::rules::Asked::question_for))]
fn due_of(alloc: Global, values: &ArgMatches<'_>) -> Result<Question, ArgumentFault>
    ensures question { IfOk result (λ question. question_for Due (rows_of (found_of values.now)) ≡ Ok (shown_question question)) }
    ensures fault { IfErr result (IsFaultIn (question_for Due (rows_of (found_of values.now)))) }
{
    let timer = match value_of(values, ONE_TIMER) {
        Some(text) => Some(String::from_str(alloc, text)?),
        None => None,
    };
    Ok(Question::Due { timer })
}

#[tactic(auto, unfolding(crate::specs::rules::Asked::question_for))]
fn cron_of(alloc: Global, values: &ArgMatches<'_>) -> Result<Question, ArgumentFault>
    ensures question { IfOk result (λ question. question_for Cron (rows_of (found_of values.now)) ≡ Ok (shown_question question)) }
    ensures fault { IfErr result (IsFaultIn (question_for Cron (rows_of (found_of values.now)))) }
{
    let crontabs = targets_of(alloc, values)?;
    Ok(Question::Cron { crontabs })
}

/// Returns a copy of a required argument.
fn needed_text(
    alloc: Global,
    values: &ArgMatches<'_>,
    argument: Argument,
) -> Result<String, AllocError>
    requires { IsSome (first_of argument.name.now (rows_of (found_of values.now))) }
    ensures { IfOk result (λ text. string_bytes text ≡ needed_text argument.name.now (rows_of (found_of values.now))) }
{
    let Some(text) = value_of(values, argument) else {
        unreachable!()
    };
    String::from_str(alloc, text)
}

/// Returns copies of the timers, the expressions of `next` or the crontabs of `cron`.
fn targets_of(alloc: Global, values: &ArgMatches<'_>) -> Result<Vec<String>, AllocError>
    ensures { IfOk result (λ targets. map string_bytes targets.items ≡ targets_in (rows_of (found_of values.now))) }
{
    match values.get_strs(ANY_TIMERS.name) {
        Some(texts) => copies_of(alloc, texts),
        None => Ok(Vec::new(alloc)),
    }
}

fn copies_of(alloc: Global, texts: &[&str]) -> Result<Vec<String>, AllocError>
    ensures { IfOk result (λ copies. map string_bytes copies.items ≡ texts_of texts.now) }
{
    let mut copies = Vec::new(alloc);
    for text in texts {
        copies.push(String::from_str(alloc, text)?)?;
    }
    Ok(copies)
}
