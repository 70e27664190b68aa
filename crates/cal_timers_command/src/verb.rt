//! The verbs of `calendar-timers`, and their names.

ghost use Rattle.std.specs.Prelude.{◌≡◌, IfOk, find};
ghost use Rattle.std.specs.Str.{bytes_eq};
ghost use Rattle.cal_timers_command.specs.rules.Verbs.{is_similar, similar_verb, verb_name, verb_named};

use std::alloc::{AllocError, Global};
use strsim::osa_distance;

/// A verb: what a question asks for.
#[derive(Clone, Copy)]
pub enum Verb {
    /// The next elapse of each timer, soonest first.
    List,
    /// The files, the expressions and the next elapses of each timer.
    Show,
    /// The errors and likely mistakes in the files of timers.
    Lint,
    /// All elapses of timers in a time range.
    Between,
    /// Whether two timers elapse at the same instants.
    Same,
    /// The next elapses of calendar expressions.
    Next,
    /// Whether the run of a service that starts now is due.
    Due,
    /// The entries of crontabs as settings of timers.
    Cron,
}

impl Verb {
    /// All verbs, in the order in which the help lists them.
    pub(crate) const ALL: [Verb; 8] = [
        Verb::List,
        Verb::Show,
        Verb::Lint,
        Verb::Between,
        Verb::Same,
        Verb::Next,
        Verb::Due,
        Verb::Cron,
    ];

    /// Returns the name of the verb. The caller chooses the lifetime, since the prover can't shorten `'static`.
    pub fn name<'a>(self) -> &'a str
        ensures { result.now ≡ verb_name self }
    {
        match self {
            Verb::List => "list",
            Verb::Show => "show",
            Verb::Lint => "lint",
            Verb::Between => "between",
            Verb::Same => "same",
            Verb::Next => "next",
            Verb::Due => "due",
            Verb::Cron => "cron",
        }
    }

    /// Returns the verb with this name, or `None` if there is no such verb.
    pub(crate) fn named(name: &str) -> Option<Verb>
        ensures { result ≡ verb_named name.now }
    {
        find_named(&Verb::ALL, name)
    }

    /// Returns a verb whose name differs from the word by a single edit: a letter is left out, added, replaced, or
    /// swapped with the next one. Returns `None` if there is no such verb. Fails only if allocation fails.
    pub fn similar(alloc: Global, word: &str) -> Result<Option<Verb>, AllocError>
        ensures { IfOk result (λ verb. verb ≡ similar_verb word.now) }
    {
        find_similar(alloc, &Verb::ALL, word)
    }
}

fn find_named(verbs: &[Verb], name: &str) -> Option<Verb>
    ensures { result ≡ find (λ verb. bytes_eq (verb_name verb) name.now) verbs.now }
{
    verbs.iter().copied().find(|verb| verb.name() == name)
}

fn find_similar(alloc: Global, verbs: &[Verb], word: &str) -> Result<Option<Verb>, AllocError>
    ensures { IfOk result (λ verb. verb ≡ find (is_similar word.now) verbs.now) }
{
    for verb in verbs {
        if is_similar(alloc, word, *verb)? {
            return Ok(Some(*verb));
        }
    }
    Ok(None)
}

#[tactic(auto, unfolding(crate::specs::rules::Verbs::edits_between))]
fn is_similar(alloc: Global, word: &str, verb: Verb) -> Result<bool, AllocError>
    ensures { IfOk result (λ is. is ≡ is_similar word.now verb) }
{
    Ok(osa_distance(alloc, word, verb.name())? == 1)
}
