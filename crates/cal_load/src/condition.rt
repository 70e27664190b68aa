//! Whether a command of `ExecCondition=` is a guard of a timer's exceptions: whether it runs `calendar-timers due`
//! about the timer (systemd.service(5), ExecCondition= and Command Lines).

ghost use Rattle.std.specs.Prelude.{◌≡◌, ◌≤◌, IfOk, codes, count_by, drop, filter, if◌then◌else◌, length, map, not};
ghost use Rattle.std.specs.List.{list_all, list_any, prefix_len};
ghost use Rattle.cal_bytes.specs.rules.Separators.{words};
ghost use Rattle.cal_bytes.specs.rules.Trim.{trim_start_matches};
ghost use Rattle.cal_load.specs.rules.Condition.{are_words_of_guard, arguments_in, count_of, do_options_fit, has_text, ignores_failure, is_allowed, is_due_about, is_guard, is_option, is_our_program, is_ours, is_prefix, is_quoting, is_replaced, is_rewritten, is_special, is_zone, may_be_guard, may_words_guard, names_itself, names_timer, prefixes, runs_due};

use cal_bytes::first_word;
use cal_unit_index::without_suffix;
use std::alloc::{AllocError, Global};

/// The name of our program.
const PROGRAM: &str = "calendar-timers";

/// Returns whether the command is a guard of the timer with this stem. `is_user` says whether the timer is a unit of a
/// user: if it is, the command needs `--user`, and otherwise it must not have it.
#[tactic(auto, unfolding(crate::specs::rules::Condition::is_guard))]
pub(crate) fn is_guard(
    alloc: Global,
    is_user: bool,
    stem: &str,
    command: &str,
) -> Result<bool, AllocError>
    ensures { IfOk result (λ is. is ≡ is_guard is_user stem.now command.now) }
{
    let words = words_of(alloc, command)?;
    are_words_of_guard(alloc, is_user, stem, words.as_slice())
}

fn are_words_of_guard(
    alloc: Global,
    is_user: bool,
    stem: &str,
    words: &[&str],
) -> Result<bool, AllocError>
    ensures { IfOk result (λ is. is ≡ are_words_of_guard is_user stem.now (map (λ word. word.now) words.now)) }
{
    match words.split_first() {
        Some((first, rest)) => {
            if ignores_failure(first) || !is_ours(first) || is_rewritten(first, rest) {
                return Ok(false);
            }
            runs_due(alloc, is_user, stem, arguments_in(first, rest))
        }
        None => Ok(false),
    }
}

/// Returns whether `calendar-timers` with these arguments runs `due` about the timer.
fn runs_due(
    alloc: Global,
    is_user: bool,
    stem: &str,
    arguments: &[&str],
) -> Result<bool, AllocError>
    ensures { IfOk result (λ runs. runs ≡ runs_due is_user stem.now (map (λ word. word.now) arguments.now)) }
{
    if !do_options_fit(is_user, arguments) {
        return Ok(false);
    }
    let others = without_options(alloc, arguments)?;
    Ok(is_due_about(stem, others.as_slice()))
}

/// Returns whether a command that isn't a guard by its words alone may be one, because systemd may read other words, or
/// another program may run `calendar-timers`.
#[tactic(auto, unfolding(crate::specs::rules::Condition::may_be_guard))]
pub(crate) fn may_be_guard(alloc: Global, command: &str) -> Result<bool, AllocError>
    ensures { IfOk result (λ may. may ≡ may_be_guard command.now) }
{
    let words = words_of(alloc, command)?;
    Ok(may_words_guard(command, words.as_slice()))
}

fn may_words_guard(command: &str, words: &[&str]) -> bool
    ensures { result ≡ may_words_guard command.now (map (λ word. word.now) words.now) }
{
    match words.split_first() {
        Some((first, rest)) => !ignores_failure(first) && may_guard(command, first, rest),
        None => false,
    }
}

fn may_guard(command: &str, first: &str, rest: &[&str]) -> bool
    ensures { result ≡ (if is_ours first.now then is_rewritten first.now (map (λ word. word.now) rest.now)
        else has_text (codes "calendar-timers") command.now) }
{
    if is_ours(first) {
        is_rewritten(first, rest)
    } else {
        mentions_our_program(command)
    }
}

fn mentions_our_program(command: &str) -> bool
    ensures { result ≡ has_text (codes "calendar-timers") command.now }
{
    command.contains(PROGRAM)
}

/// Splits a text at its blanks.
fn words_of(alloc: Global, text: &str) -> Result<Vec<&str>, AllocError>
    ensures { IfOk result (λ found. map (λ word. word.now) found.items ≡ words text.now) }
{
    let mut found = Vec::new(alloc);
    let mut rest = text;
    while let Some((word, after)) = first_word(rest) {
        found.push(word)?;
        rest = after;
    }
    Ok(found)
}

/// Returns whether a failure of the command with this first word counts as success.
fn ignores_failure(first: &str) -> bool
    ensures { result ≡ ignores_failure first.now }
{
    prefixes(first.as_bytes()).contains(&b'-')
}

/// Returns whether the second word of the command with this first word is `argv[0]` of its program.
fn names_itself(first: &str) -> bool
    ensures { result ≡ names_itself first.now }
{
    prefixes(first.as_bytes()).contains(&b'@')
}

fn prefixes(first: &[u8]) -> &[u8]
    ensures { result.now ≡ prefixes first.now }
{
    &first[..prefix_count(first)]
}

fn prefix_count(first: &[u8]) -> usize
    ensures value { result ≡ prefix_len is_prefix first.now }
    ensures fits { result ≤ length first.now }
{
    first.iter().take_while(|byte| is_prefix(**byte)).count()
}

/// Returns whether the byte is a prefix of a command.
fn is_prefix(byte: u8) -> bool
    ensures { result ≡ is_prefix byte }
{
    b"@-:+!".contains(&byte)
}

/// Returns whether the program of the command with this first word is `calendar-timers`.
#[tactic(auto, unfolding(cal_bytes::specs::rules::Trim::trim_start_matches))]
fn is_ours(first: &str) -> bool
    ensures { result ≡ is_ours first.now }
{
    let first = first.as_bytes();
    is_our_program(&first[prefix_count(first)..])
}

/// Returns whether the program is `calendar-timers` or a path that ends with `/calendar-timers`.
fn is_our_program(program: &[u8]) -> bool
    ensures { result ≡ is_our_program program.now }
{
    program == b"calendar-timers".as_slice() || program.ends_with(b"/calendar-timers")
}

/// Returns the arguments of the program of a command with these words.
fn arguments_in<'r, 't>(first: &str, rest: &'r [&'t str]) -> &'r [&'t str]
    ensures { map (λ word. word.now) result.now ≡ arguments_in first.now (map (λ word. word.now) rest.now) }
{
    let skipped = if names_itself(first) {
        rest.len().min(1)
    } else {
        0
    };
    &rest[skipped..]
}

/// Returns whether systemd may read another command than these words.
fn is_rewritten(first: &str, rest: &[&str]) -> bool
    ensures { result ≡ is_rewritten first.now (map (λ word. word.now) rest.now) }
{
    has_quoting(first.as_bytes()) || any_replaced(rest)
}

fn has_quoting(word: &[u8]) -> bool
    ensures { result ≡ list_any is_quoting word.now }
{
    word.iter().any(|byte| is_quoting(*byte))
}

/// Returns whether the byte is a quote or begins an escape.
fn is_quoting(byte: u8) -> bool
    ensures { result ≡ is_quoting byte }
{
    b"\"'\\".contains(&byte)
}

/// Returns whether systemd may replace one of the arguments.
fn any_replaced(arguments: &[&str]) -> bool
    ensures { result ≡ list_any is_replaced (map (λ word. word.now) arguments.now) }
{
    for argument in arguments {
        if is_replaced(argument) {
            return true;
        }
    }
    false
}

fn is_replaced(argument: &str) -> bool
    ensures { result ≡ is_replaced argument.now }
{
    has_special(argument.as_bytes()) || argument == ";"
}

fn has_special(argument: &[u8]) -> bool
    ensures { result ≡ list_any is_special argument.now }
{
    argument.iter().any(|byte| is_special(*byte))
}

/// Returns whether the byte is a quote, or begins something that systemd replaces.
fn is_special(byte: u8) -> bool
    ensures { result ≡ is_special byte }
{
    b"\"'$%\\".contains(&byte)
}

/// Returns the arguments that aren't options.
fn without_options<'t>(alloc: Global, arguments: &[&'t str]) -> Result<Vec<&'t str>, AllocError>
    ensures { IfOk result (λ others. map (λ word. word.now) others.items
        ≡ filter (λ word. not (is_option word)) (map (λ word. word.now) arguments.now)) }
{
    let mut others = Vec::new(alloc);
    for argument in arguments {
        if !is_option(argument) {
            others.push(*argument)?;
        }
    }
    Ok(others)
}

fn is_option(argument: &str) -> bool
    ensures { result ≡ is_option argument.now }
{
    argument.as_bytes().starts_with(b"-")
}

/// Returns whether these are the verb `due` and, at most, the name of the timer.
fn is_due_about(stem: &str, words: &[&str]) -> bool
    ensures { result ≡ is_due_about stem.now (map (λ word. word.now) words.now) }
{
    match words.split_first() {
        Some((verb, names)) => *verb == "due" && names.len() < 2 && are_names(stem, names),
        None => false,
    }
}

fn are_names(stem: &str, names: &[&str]) -> bool
    ensures { result ≡ list_all (names_timer stem.now) (map (λ word. word.now) names.now) }
{
    for name in names {
        if !names_timer(stem, name) {
            return false;
        }
    }
    true
}

fn names_timer(stem: &str, name: &str) -> bool
    ensures { result ≡ names_timer stem.now name.now }
{
    without_suffix(name) == stem
}

/// Returns whether the options among the arguments are allowed, each at most once, and `--user` is among them exactly
/// if `is_user`.
fn do_options_fit(is_user: bool, arguments: &[&str]) -> bool
    ensures { result ≡ do_options_fit is_user (map (λ word. word.now) arguments.now) }
{
    are_allowed(arguments)
        && count_of(arguments, "--user") == usize::from(is_user)
        && count_of(arguments, "--json") < 2
        && zone_count(arguments) < 2
}

fn are_allowed(arguments: &[&str]) -> bool
    ensures { result ≡ list_all is_allowed (map (λ word. word.now) arguments.now) }
{
    for argument in arguments {
        if !is_allowed(argument) {
            return false;
        }
    }
    true
}

/// Returns whether the argument isn't an option, or is `--user`, `--json` or `--in=ZONE`.
fn is_allowed(argument: &str) -> bool
    ensures { result ≡ is_allowed argument.now }
{
    !is_option(argument) || argument == "--user" || argument == "--json" || is_zone(argument)
}

fn is_zone(argument: &str) -> bool
    ensures { result ≡ is_zone argument.now }
{
    argument.as_bytes().starts_with(b"--in=")
}

/// Returns how many of the arguments are `option`.
fn count_of(arguments: &[&str], option: &str) -> usize
    ensures { result ≡ count_of option.now (map (λ word. word.now) arguments.now) }
{
    arguments
        .iter()
        .filter(|argument| **argument == option)
        .count()
}

fn zone_count(arguments: &[&str]) -> usize
    ensures { result ≡ count_by is_zone (map (λ word. word.now) arguments.now) }
{
    arguments
        .iter()
        .filter(|argument| is_zone(argument))
        .count()
}
