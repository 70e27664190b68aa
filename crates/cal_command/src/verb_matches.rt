//! What `clap` found for a verb.

ghost use Rattle.std.specs.Prelude.{◌≡◌, ◌<◌, length, true};
ghost use Rattle.cal_request.specs.rules.Verb.{is_timer};

use cal_request::Verb;
use clap::ArgMatches;

/// A verb with its texts, and all that `clap` found for it. There is at least one text, and for `timer` exactly one.
#[derive(Clone, Copy)]
pub(crate) struct VerbMatches<'b, 'a> {
    pub(crate) verb: Verb,
    pub(crate) texts: &'b [&'a str],
    pub(crate) values: &'b ArgMatches<'a>,
    ghost some_text: { 0 < length texts.now },
    ghost file: { is_timer verb ≡ true → length texts.now ≡ 1 },
}
