//! The sections of a unit file (systemd.syntax(7)), and which of them systemd reads in a timer (systemd.timer(5)).

ghost use Rattle.std.specs.Prelude.{◌≡◌, MatchOption, codes, false, nat_eq, true};
ghost use Rattle.std.specs.List.{list_any, starts_with};
ghost use Rattle.std.specs.Str.{bytes_eq};
ghost use Rattle.cal_timer.specs.rules.Assignments.{is_header, section_of};
ghost use Rattle.cal_lint.specs.rules.Sections.{is_bad_header, is_bad_in_header, is_ignored, is_unknown_section, section_after, section_named};

use cal_read::section;

const UNIT: &[u8] = b"Unit";

const TIMER: &[u8] = b"Timer";

const INSTALL: &[u8] = b"Install";

/// A section that systemd reads in a timer.
#[derive(Clone, Copy)]
pub enum Section {
    Unit,
    Timer,
    Install,
}

/// The section in which a line of a unit file stands.
#[derive(Clone, Copy)]
pub(crate) enum OpenSection {
    /// The line comes before the first section header.
    Outside,
    Known(Section),
    /// The line is in a section that systemd doesn't read in a timer, so systemd ignores the line.
    Ignored,
}

/// Returns the section that is open after `line`. `before` is the section that is open before it. `line` must have no
/// blanks at its start or its end.
pub(crate) fn section_after(before: OpenSection, line: &str) -> OpenSection
    ensures { result ≡ section_after before line.now }
{
    match section(line) {
        Some(name) => section_named(name),
        None => before,
    }
}

/// Returns the name of the section that a line opens. Returns `None` if the line isn't a section header: it doesn't
/// begin with `[` and end with `]`, or it has a byte that a header can't have.
pub(crate) fn header_name(line: &str) -> Option<&[u8]>
    ensures { MatchOption result (is_bad_header line.now ≡ true)
        (λ name. (is_bad_header line.now ≡ false) × (name.now ≡ section_of line.now)) }
{
    let name = section(line)?;
    if has_bad_byte(line) { None } else { Some(name) }
}

/// Returns whether the line has a byte that a section header can't have.
fn has_bad_byte(line: &str) -> bool
    ensures { result ≡ list_any is_bad_in_header line.now }
{
    line.as_bytes().iter().any(|byte| is_bad_in_header(*byte))
}

/// Returns whether a section header can't have this byte: whether it is a control character, a quote or a backslash.
fn is_bad_in_header(byte: u8) -> bool
    ensures { result ≡ is_bad_in_header byte }
{
    byte.is_ascii_control() || matches!(byte, b'"' | b'\'' | b'\\')
}

/// Returns whether systemd warns about a section with this name and ignores the lines in it. Sections whose names begin
/// with `X-` are ignored without a warning.
pub(crate) fn is_unknown_section(name: &[u8]) -> bool
    ensures { result ≡ is_unknown_section name.now }
{
    is_ignored(section_named(name)) && !name.starts_with(b"X-")
}

fn section_named(name: &[u8]) -> OpenSection
    ensures { result ≡ section_named name.now }
{
    if name == UNIT {
        OpenSection::Known(Section::Unit)
    } else if name == TIMER {
        OpenSection::Known(Section::Timer)
    } else if name == INSTALL {
        OpenSection::Known(Section::Install)
    } else {
        OpenSection::Ignored
    }
}

fn is_ignored(section: OpenSection) -> bool
    ensures { result ≡ is_ignored section }
{
    matches!(section, OpenSection::Ignored)
}
