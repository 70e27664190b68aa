//! Reading what `clap` found in the arguments: a verb with its texts, and the values of its options.

ghost use Rattle.std.specs.Prelude.{◌≡◌, None, Some, IsSomeAnd, false};
ghost use Rattle.std.specs.Option.{option_copied};
ghost use Rattle.clap.specs.Words.{subcommand_rows_of};
ghost use Rattle.cal_command.specs.rules.VerbMatches.{HasTexts, elapse_option, instant_option, shown_matches, verb_matches_in};
ghost use Rattle.cal_request.specs.rules.Verb.{seeks_elapses};

use crate::arguments::TEXT;
use crate::verb_matches::VerbMatches;
use cal_options::{Argument, value_of};
use cal_request::Verb;
use clap::ArgMatches;

impl<'b, 'a> VerbMatches<'b, 'a> {
    /// Returns what `clap` found in arguments that it accepted. It never accepts arguments without a verb or its texts.
    pub(crate) fn of(matches: &'b ArgMatches<'a>) -> VerbMatches<'b, 'a>
        requires { IsSomeAnd (verb_matches_in (subcommand_rows_of matches.now)) HasTexts }
        ensures { Some (shown_matches result) ≡ verb_matches_in (subcommand_rows_of matches.now) }
    {
        let Some((name, values)) = matches.subcommand() else {
            unreachable!()
        };
        let Some(verb) = Verb::named(name) else {
            unreachable!()
        };
        let Some(texts) = values.get_strs(TEXT) else {
            unreachable!()
        };
        VerbMatches {
            verb,
            texts,
            values,
        }
    }

    /// Returns the value of an option that only the verbs that compute elapses have. Returns `None` if the verb doesn't
    /// compute elapses, or if the option wasn't given.
    pub(crate) fn elapse_option(&self, option: Argument) -> Option<&'a str>
        ensures value { option_copied result ≡ elapse_option (shown_matches self.now) option.name.now }
        ensures sought { seeks_elapses self.now.verb ≡ false → result ≡ None }
    {
        if self.verb.seeks_elapses() {
            value_of(self.values, option)
        } else {
            None
        }
    }

    /// Returns the value of an option that only the verbs that read or print instants have. Returns `None` if the verb
    /// neither reads nor prints instants, or if the option wasn't given.
    pub(crate) fn instant_option(&self, option: Argument) -> Option<&'a str>
        ensures { option_copied result ≡ instant_option (shown_matches self.now) option.name.now }
    {
        if self.verb.uses_instants() {
            value_of(self.values, option)
        } else {
            None
        }
    }
}
