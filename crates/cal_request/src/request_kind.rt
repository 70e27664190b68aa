//! The two kinds of requests: for texts, and for a timer file.

ghost use Rattle.std.specs.Prelude.{◌≡◌, map};
ghost use Rattle.std.specs.String.{string_bytes};
ghost use Rattle.cal_request.specs.rules.RequestKind.{kind_by, shown_kind};

use crate::request::Request;
use crate::verb::TextVerb;

/// What a request asks about: texts, or a timer file.
#[derive(Clone, Copy)]
pub enum RequestKind<'a> {
    /// Texts, each of which is answered by itself, in order.
    Texts { verb: TextVerb, texts: &'a [String] },
    /// The timer file with this path.
    Timer { path: &'a str },
}

impl Request {
    ghost use Rattle.std.specs.Prelude.{◌≡◌, map};
    ghost use Rattle.std.specs.String.{string_bytes};
    ghost use Rattle.cal_request.specs.rules.RequestKind.{kind_by, shown_kind};

    /// Returns what the request asks about: its verb and its texts, or the path of its timer file.
    pub fn kind(&self) -> RequestKind<'_>
        ensures { shown_kind result ≡ kind_by self.now.verb (map string_bytes self.now.texts.items) }
    {
        let texts = self.texts.as_slice();
        match self.verb.text_verb() {
            Some(verb) => RequestKind::Texts { verb, texts },
            None => RequestKind::Timer {
                path: texts[0].as_str(),
            },
        }
    }
}
