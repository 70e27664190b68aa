//! The checked names of zones.

ghost use Rattle.std.specs.Prelude.{◌≡◌, true, false, MatchOption};
ghost use Rattle.cal_civil.specs.rules.ZoneName.{is_zone_name};

use cal_civil::is_zone_name;

/// A text that has the form of a zone's name (systemd.time(7), Calendar Events), as [`is_zone_name`] describes it.
/// There needn't be a zone of this name.
#[derive(Clone, Copy, Debug, PartialEq, Eq)]
pub struct ZoneName<'a> {
    text: &'a str,
    ghost has_form: { is_zone_name text.now ≡ true },
}

impl<'a> ZoneName<'a> {
    /// Returns the zone name `text`, or `None` if `text` doesn't have the form of a zone's name.
    pub fn new(text: &'a str) -> Option<ZoneName<'a>>
        ensures { MatchOption result
            (is_zone_name text.now ≡ false)
            (λ name. (name.text.now ≡ text.now) × (is_zone_name text.now ≡ true)) }
    {
        if is_zone_name(text.as_bytes()) {
            Some(ZoneName { text })
        } else {
            None
        }
    }

    /// Returns the name as a text, which is known to have the form of a zone's name.
    pub fn as_str(self) -> &'a str
        ensures value { result.now ≡ self.entry.text.now }
        ensures form { is_zone_name result.now ≡ true }
    {
        self.text
    }
}
