//! The form of zone names.

ghost use Rattle.std.specs.Prelude.{◌≡◌};
ghost use Rattle.std.specs.List.{list_all};
ghost use Rattle.cal_civil.specs.rules.ZoneName.{begins_with_letter, is_utc_name, is_zone_byte, is_zone_name};

/// The maximum length of a zone's name, in bytes.
const MAX_NAME_BYTES: usize = 255;

/// Returns whether `text` has the form of a zone's name (systemd.time(7), Calendar Events): an ASCII letter followed by
/// any number of ASCII letters, digits, `/`, `_`, `+` and `-`, at most 255 bytes in all. This says nothing about
/// whether there is such a zone.
#[tactic(auto, unfolding(crate::specs::rules::ZoneName::is_zone_name))]
pub fn is_zone_name(text: &[u8]) -> bool
    ensures { result ≡ is_zone_name text.now }
{
    begins_with_letter(text) && are_zone_bytes(text) && text.len() <= MAX_NAME_BYTES
}

/// Returns whether `text` is `UTC`, ignoring case.
pub fn is_utc_name(text: &str) -> bool
    ensures { result ≡ is_utc_name text.now }
{
    text.eq_ignore_ascii_case("utc")
}

/// Returns whether `text` begins with an ASCII letter.
pub fn begins_with_letter(text: &[u8]) -> bool
    ensures { result ≡ begins_with_letter text.now }
{
    match text {
        [first, ..] => first.is_ascii_alphabetic(),
        [] => false,
    }
}

fn are_zone_bytes(text: &[u8]) -> bool
    ensures { result ≡ list_all is_zone_byte text.now }
{
    text.iter().all(|byte| is_zone_byte(*byte))
}

fn is_zone_byte(byte: u8) -> bool
    ensures { result ≡ is_zone_byte byte }
{
    byte.is_ascii_alphanumeric() || b"/_+-".contains(&byte)
}
