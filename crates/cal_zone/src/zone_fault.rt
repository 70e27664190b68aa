//! The errors in parsing the rules of a zone, and in adding a zone to a table.

ghost use Rattle.std.specs.Prelude.{◌≡◌};

/// Why the rules of a zone can't be parsed, or why a zone can't be added to a table.
#[derive(Clone, Copy, PartialEq, Eq, Debug)]
pub enum ZoneFault {
    /// The name doesn't have the form of a zone's name.
    BadName = 1,
    /// The text is not a valid POSIX rule.
    BadRule = 2,
    /// The bytes are not a valid zone file.
    BadFile = 3,
    /// The zone file has more than 1,048,576 bytes.
    TooLarge = 4,
    /// Out of memory.
    NoMemory = 5,
    /// The table already has a zone of this name. The name `UTC`, ignoring case, is always taken.
    NameTaken = 6,
}

impl ZoneFault {
    ghost use Rattle.cal_zone.specs.rules.ZoneFault.{message_of};

    /// Returns the message for users, which is empty for [`ZoneFault::NoMemory`].
    pub fn words(&self) -> &str
        ensures { result.now ≡ message_of self.now }
    {
        match self {
            ZoneFault::BadName => "bad zone name",
            ZoneFault::BadRule => "bad rule",
            ZoneFault::BadFile => "bad zone file",
            ZoneFault::TooLarge => "larger than 1048576 bytes",
            ZoneFault::NoMemory => "",
            ZoneFault::NameTaken => "zone name taken",
        }
    }
}
