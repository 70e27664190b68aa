//! The verbs of `calendar-analyze` (systemd-analyze(1)).

ghost use Rattle.std.specs.Prelude.{◌≡◌, find};
ghost use Rattle.std.specs.Str.{bytes_eq};
ghost use Rattle.cal_request.specs.rules.Verb.{verb_name};

/// The verb of a request, which says what to report for each text or for a timer file. The verb `timer` is this
/// project's own; systemd-analyze(1) describes the others.
#[derive(Clone, Copy, PartialEq, Eq, Debug)]
pub enum Verb {
    /// `calendar`: the normal form of a calendar expression, and its next elapses.
    Calendar,
    /// `timestamp`: the moment that a timestamp resolves to.
    Timestamp,
    /// `timespan`: the length of a time span.
    Timespan,
    /// `timer`: the next elapses of a timer file. The request's only text is the path of this file.
    Timer,
}

/// A verb whose arguments are texts to parse, and not the path of a timer file.
#[derive(Clone, Copy, PartialEq, Eq, Debug)]
pub enum TextVerb {
    /// [`Verb::Calendar`], whose texts are calendar expressions.
    Calendar,
    /// [`Verb::Timestamp`], whose texts are timestamps.
    Timestamp,
    /// [`Verb::Timespan`], whose texts are time spans.
    Timespan,
}

impl Verb {
    ghost use Rattle.std.specs.Prelude.{◌≡◌};
    ghost use Rattle.cal_request.specs.rules.Verb.{uses_instants, is_timer, seeks_elapses, text_verb, verb_name, verb_named};

    /// The verbs, in the order in which the help lists them.
    pub const ALL: [Verb; 4] = [Verb::Calendar, Verb::Timestamp, Verb::Timespan, Verb::Timer];

    /// Returns the name of the verb, as it is written in the arguments. The caller chooses the lifetime, since the
    /// prover can't shorten `'static`.
    pub fn name<'a>(self) -> &'a str
        ensures { result.now ≡ verb_name self }
    {
        match self {
            Verb::Calendar => "calendar",
            Verb::Timestamp => "timestamp",
            Verb::Timespan => "timespan",
            Verb::Timer => "timer",
        }
    }

    /// Returns the verb with this name, or `None` if no verb has it.
    pub fn named(name: &str) -> Option<Verb>
        ensures { result ≡ verb_named name.now }
    {
        find_named(&Verb::ALL, name)
    }

    /// Returns the verb as one that takes texts, or `None` for [`Verb::Timer`], which takes the path of a timer file.
    pub fn text_verb(self) -> Option<TextVerb>
        ensures { result ≡ text_verb self }
    {
        match self {
            Verb::Calendar => Some(TextVerb::Calendar),
            Verb::Timestamp => Some(TextVerb::Timestamp),
            Verb::Timespan => Some(TextVerb::Timespan),
            Verb::Timer => None,
        }
    }

    /// Returns whether the verb computes elapses. Only such verbs have a base time.
    pub fn seeks_elapses(self) -> bool
        ensures { result ≡ seeks_elapses self }
    {
        matches!(self, Verb::Calendar | Verb::Timer)
    }

    /// Returns whether the verb reads or prints instants. Only the reports of such verbs depend on the present and on
    /// zones, so only such verbs have the options for them.
    pub fn uses_instants(self) -> bool
        ensures { result ≡ uses_instants self }
    {
        !matches!(self, Verb::Timespan)
    }

    /// Returns whether the verb reads a timer file. The only text of the request is then the path of this file.
    pub fn is_timer(self) -> bool
        ensures { result ≡ is_timer self }
    {
        self.text_verb().is_none()
    }
}

fn find_named(verbs: &[Verb], name: &str) -> Option<Verb>
    ensures { result ≡ find (λ verb. bytes_eq (verb_name verb) name.now) verbs.now }
{
    verbs.iter().copied().find(|verb| verb.name() == name)
}
