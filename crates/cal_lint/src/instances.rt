//! Expressions in templates: whether any instance makes them valid (systemd.unit(5), Specifiers).

ghost use Rattle.std.specs.Prelude.{◌≡◌, ◌++◌, IfOk, map, string_bytes};
ghost use Rattle.std.specs.List.{list_any};
ghost use Rattle.std.specs.Option.{option_map};
ghost use Rattle.std.specs.Result.{is_ok};
ghost use Rattle.cal_spec.specs.computed.Expr.{expr_in};
ghost use Rattle.cal_lint.specs.rules.Instances.{after_letter, around_instance, around_percent, fits, fits_no_instance};

use cal_spec::{SpecFault, read_expr};
use cal_unit_index::has_percent;
use std::alloc::{AllocError, Global};

/// The instances that are tried: an expression that none of them makes valid is probably never valid.
const USUAL_INSTANCES: [&str; 18] = [
    "daily",
    "hour",
    "Mon",
    "*",
    "0",
    "1",
    "2",
    "12",
    "23",
    "28",
    "31",
    "59",
    "2199",
    "12-31",
    "2199-12-31",
    "1:00",
    "23:59:59",
    "UTC",
];

/// Returns whether the value has the instance, `%i` or `%I`, as its only specifier, and isn't a valid expression for
/// any of the usual instances. Fails only if allocation fails.
pub(crate) fn fits_no_instance(alloc: Global, value: &str) -> Result<bool, AllocError>
    ensures { IfOk result (λ fits_none. fits_none ≡ fits_no_instance value.now) }
{
    match around_instance(value) {
        Some((before, after)) => Ok(!fits_any(alloc, before, after, &USUAL_INSTANCES)?),
        None => Ok(false),
    }
}

/// Returns the texts before and after the instance, `%i` or `%I`. Returns `None` unless the instance is the value's
/// only specifier.
fn around_instance(value: &str) -> Option<(&str, &str)>
    ensures { option_map (λ parts. (parts.0.now, parts.1.now)) result ≡ around_instance value.now }
{
    let (before, rest) = around_percent(value)?;
    let after = after_letter(rest)?;
    if has_percent(after) {
        return None;
    }
    Some((before, after))
}

/// Returns the texts before and after the first `%`, or `None` if there is no `%`.
fn around_percent(value: &str) -> Option<(&str, &str)>
    ensures { option_map (λ parts. (parts.0.now, parts.1.now)) result ≡ around_percent value.now }
{
    value.split_once('%')
}

/// Returns the text after a leading `i` or `I`, or `None` if `text` begins with neither.
fn after_letter(text: &str) -> Option<&str>
    ensures { option_map (λ after. after.now) result ≡ after_letter text.now }
{
    match text.strip_prefix('i') {
        Some(after) => Some(after),
        None => text.strip_prefix('I'),
    }
}

/// Returns whether at least one of the instances, between `before` and `after`, makes a valid expression.
fn fits_any(
    alloc: Global,
    before: &str,
    after: &str,
    instances: &[&str],
) -> Result<bool, AllocError>
    ensures { IfOk result (λ found. found ≡ list_any (fits (before.now, after.now)) (map (λ instance. instance.now) instances.now)) }
{
    for instance in instances {
        if is_valid(alloc, before, *instance, after)? {
            return Ok(true);
        }
    }
    Ok(false)
}

/// Returns whether the three texts together are a valid expression.
fn is_valid(alloc: Global, before: &str, instance: &str, after: &str) -> Result<bool, AllocError>
    ensures { IfOk result (λ valid. valid ≡ is_ok (expr_in (before.now ++ instance.now ++ after.now))) }
{
    let mut text = String::from_str(alloc, before)?;
    text.push_str(instance)?;
    text.push_str(after)?;
    match read_expr(alloc, text.as_str()) {
        Ok(_) => Ok(true),
        Err(SpecFault::NoMemory) => Err(AllocError),
        Err(_) => Ok(false),
    }
}
