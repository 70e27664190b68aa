//! Reordering of the arguments. `clap` accepts the options of a verb only after the verb, so the verb is moved to the
//! front. If no verb is given, `list` is inserted there, unless an argument before the first target asks for help
//! or the version.

ghost use Rattle.std.specs.Prelude.{◌≡◌, ◌++◌, ◌<◌, ◌&&◌, ◌||◌, IfOk, IfSome, length, map, not};
ghost use Rattle.cal_timers_command.specs.rules.VerbFirst.{asks_due, asks_help, first_word, is_option, leads, list_first, moved_first, verb_first};
ghost use Rattle.cal_timers_command.specs.rules.CommandLine.{needs_value};
ghost use Rattle.cal_timers_command.specs.rules.Texts.{texts_of};

use crate::arguments::needs_value;
use crate::verb::Verb;
use std::alloc::{AllocError, Global};
use std::convert::AsStr;

/// Returns the arguments with the verb at the front.
///
/// Options and their values are skipped, except for requests for help or the version: `--help`, `--version` and the
/// short forms of these two. The first argument that isn't skipped is moved to the front if it is such a request, the
/// name of a verb, or `help`. Otherwise (it is a target or `--`, or there is no such argument), `list` is inserted at
/// the front.
pub(crate) fn with_verb_first<'a, S: AsStr>(
    alloc: Global,
    arguments: &'a [S],
) -> Result<Vec<&'a str>, AllocError>
    ensures { IfOk result (λ texts. texts_of texts.items ≡ verb_first (map S.text arguments.now)) }
{
    let Some(index) = first_word(arguments) else {
        return list_first(alloc, arguments);
    };
    if leads(arguments[index].as_str()) {
        moved_first(alloc, arguments, index)
    } else {
        list_first(alloc, arguments)
    }
}

/// Returns whether the verb is `due`, that is, whether `due` is the first argument that is neither an option nor the
/// value of an option. If it is, every error has the status 255, even one in the arguments.
pub fn asks_due<S: AsStr>(arguments: &[S]) -> bool
    ensures { result ≡ asks_due (map S.text arguments.now) }
{
    match first_word(arguments) {
        Some(index) => arguments[index].as_str() == "due",
        None => false,
    }
}

/// Returns the arguments, with the one at `index` moved to the front.
fn moved_first<'a, S: AsStr>(
    alloc: Global,
    arguments: &'a [S],
    index: usize,
) -> Result<Vec<&'a str>, AllocError>
    requires { index < length arguments.now }
    ensures { IfOk result (λ texts. texts_of texts.items ≡ moved_first (map S.text arguments.now) index) }
{
    let mut texts = Vec::new(alloc);
    texts.push(arguments[index].as_str())?;
    push_texts(&mut texts, &arguments[..index])?;
    push_texts(&mut texts, &arguments[index + 1..])?;
    Ok(texts)
}

/// Returns the arguments with `list` before them.
fn list_first<'a, S: AsStr>(alloc: Global, arguments: &'a [S]) -> Result<Vec<&'a str>, AllocError>
    ensures { IfOk result (λ texts. texts_of texts.items ≡ list_first (map S.text arguments.now)) }
{
    let mut texts = Vec::new(alloc);
    texts.push("list")?;
    push_texts(&mut texts, arguments)?;
    Ok(texts)
}

fn push_texts<'a, S: AsStr>(texts: &mut Vec<&'a str>, arguments: &'a [S]) -> Result<(), AllocError>
    ensures { IfOk result (λ _. texts_of texts.new.items ≡ texts_of texts.old.items ++ map S.text arguments.now) }
{
    for argument in arguments {
        texts.push(argument.as_str())?;
    }
    Ok(())
}

/// Returns the index of the first argument that is neither an option nor the value of an option. `--` and requests for
/// help or the version don't count as options here.
fn first_word<S: AsStr>(arguments: &[S]) -> Option<usize>
    ensures word { result ≡ first_word (map S.text arguments.now) }
    ensures inside { IfSome result (λ index. index < length arguments.now) }
{
    let mut is_value = false;
    for (index, argument) in arguments.iter().enumerate() {
        let text = argument.as_str();
        if !is_passed(is_value, text) {
            return Some(index);
        }
        is_value = awaits_value(is_value, text);
    }
    None
}

/// Returns whether the argument is an option or the value of an option. `is_value` says whether it is a value.
fn is_passed(is_value: bool, argument: &str) -> bool
    ensures { result ≡ (is_value || is_option argument.now) }
{
    is_value || is_option(argument)
}

/// Returns whether the argument is an option whose value is the next argument. If `is_value`, the argument is itself a
/// value, and so isn't an option.
fn awaits_value(is_value: bool, argument: &str) -> bool
    ensures { result ≡ (needs_value argument.now && not is_value) }
{
    needs_value(argument) && !is_value
}

/// Returns whether the argument is an option. `--`, after which all arguments are targets, and requests for help or the
/// version don't count as options here. A single `-` isn't an option.
fn is_option(argument: &str) -> bool
    ensures { result ≡ is_option argument.now }
{
    argument.starts_with('-') && argument.len() > 1 && argument != "--" && !asks_help(argument)
}

/// Returns whether `clap` parses the argument as a verb, or as a request for help or the version. The verb `help` isn't
/// in [`Verb::ALL`], since `clap` adds it.
fn leads(argument: &str) -> bool
    ensures { result ≡ leads argument.now }
{
    argument == "help" || asks_help(argument) || Verb::named(argument).is_some()
}

fn asks_help(argument: &str) -> bool
    ensures { result ≡ asks_help argument.now }
{
    matches!(argument, "-h" | "--help" | "-V" | "--version")
}
