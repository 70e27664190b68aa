//! The options that most verbs share, from the matches that `clap` returns.

ghost use Rattle.std.specs.Prelude.{◌≡◌, Ok, IfErr, IfOk};
ghost use Rattle.clap.specs.Words.{found_of, rows_of};
ghost use Rattle.cal_timers_command.specs.rules.Asked.{IsFaultIn, options_for, shown_options};

use crate::arguments::{JSON, USER};
use crate::question::Options;
use crate::values::{check_zone, now_of, root_of, shown_in_value, zone_value};
use cal_options::{ArgumentFault, is_set};
use clap::ArgMatches;
use std::alloc::Global;

/// Returns the options that most verbs share, or the error of the first invalid value. An option that the verb doesn't
/// have counts as not given.
#[tactic(auto, unfolding(crate::specs::rules::Asked::options_for))]
pub(crate) fn options_of(alloc: Global, values: &ArgMatches<'_>) -> Result<Options, ArgumentFault>
    ensures options { IfOk result (λ options. options_for (rows_of (found_of values.now)) ≡ Ok (shown_options options)) }
    ensures fault { IfErr result (IsFaultIn (options_for (rows_of (found_of values.now)))) }
{
    check_zone(alloc, values)?;
    let now = now_of(alloc, values)?;
    let zone = zone_value(alloc, values)?;
    let shown_in = shown_in_value(alloc, values)?;
    let root = root_of(alloc, values)?;
    Ok(Options {
        zone,
        shown_in,
        now,
        root,
        is_user: is_set(values, USER),
        is_json: is_set(values, JSON),
    })
}
