//! The result of parsing the command line (systemd-analyze(1)).

ghost use Rattle.std.specs.Prelude.{◌≡◌, ◌<◌, true, string_bytes, vec_len};
ghost use Rattle.cal_civil.specs.rules.ZoneName.{is_zone_name};
ghost use Rattle.cal_zone.specs.rules.ZoneArgument.{HasOffset};

use cal_request::Request;
use cal_zone::{Instant, ZoneArgument};

/// A parsed command line: a request, with the present and the zones that were given.
///
/// If the verb doesn't have an option, the field for this option has its default value.
#[derive(Debug, Drop)]
pub struct Ask {
    /// The verb with its texts and options. There is at least one text.
    pub request: Request,
    /// The instant that `--now` gives as the present, or `None` if the system's clock is to be read.
    pub now: Option<Instant>,
    /// The local zone of `--local`, UTC by default.
    pub local: ZoneArgument,
    /// The zone files of `--zones`, in the order of the arguments.
    pub zones: Vec<ZoneItem>,
    ghost some_text: { 0 < vec_len request.texts },
    ghost offset: { HasOffset local },
}

/// An item of `--zones`: a zone file, and the name for its zone.
#[derive(Debug, Drop)]
pub struct ZoneItem {
    /// The name, which has the form of a zone's name.
    pub name: String,
    /// The path of the file; not empty.
    pub path: String,
    ghost named: { is_zone_name (string_bytes name) ≡ true },
}
