//! Error lines about timers that can't be loaded, about lines that are ignored, and about a zone that can't be used.

ghost use Rattle.std.specs.Prelude.{◌≡◌, ◌<◌, ◌^◌, ◌++◌, IfOk, OnOk, codes, string_bytes};
ghost use Rattle.std.specs.Option.{option_map};
ghost use Rattle.cal_cron.specs.rules.CronMessages as cron_messages;
ghost use Rattle.cal_spec.specs.rules.SpecFault.{message_of};
ghost use Rattle.cal_timers_text.specs.rules.ErrorLines.{broken_line, content_line, fault_line, idle_line, ignored_line, not_found_words, origin_name, place_text, position_text, reason_words, subject_line, unread_words, unusable_zone_line, zones_line};
ghost use Rattle.cal_timers_text.specs.rules.Messages.{abbreviation_hint, broken_drop_in_message, broken_file_message, broken_words, zone_message, zone_path_text};
ghost use Rattle.cal_zone_files.specs.declared.fault.FileReason.TheVariants.{NotFound};

use cal_cron::CronFault;
use cal_lint::looks_like_abbreviation;
use cal_load::{
    BrokenLine, BrokenReason, IgnoredLine, LoadedTimer, TargetFault, TargetReason, TimerFiles,
    UnusableZone,
};
use cal_machine::Unreadable;
use cal_timers_report::push_printable;
use cal_unit_index::Reason;
use cal_zone_files::{FileReason, Origin, ZONE_FOLDER, ZonesFault};
use std::alloc::{AllocError, Global};

/// The message about a timer without a setting that starts its unit.
pub const NOTHING_TO_DO: &str = "no setting starts its unit";

/// What is added to the message about a zone without a file if the zone's name looks like an abbreviation.
const ABBREVIATION_HINT: &str =
    "; an abbreviation stands for a single offset: write the name of a zone, such as Europe/Berlin";

/// Returns the error line about a timer that can't be loaded, without a line feed. The line begins with what is at
/// fault, and ends with the message. What is at fault is the target as it was given, a path, or a line of a file.
pub fn fault_text(alloc: Global, fault: &TargetFault) -> Result<String, AllocError>
    ensures { IfOk result (λ line. string_bytes line ≡ fault_line fault.now) }
{
    let mut out = String::new(alloc);
    push_fault_line(&mut out, fault)?;
    Ok(out)
}

#[tactic(auto, unfolding(crate::specs::rules::ErrorLines::fault_line))]
fn push_fault_line(out: &mut String, fault: &TargetFault) -> Result<(), AllocError>
    ensures { OnOk result (string_bytes out.new ≡ string_bytes out.old ++ fault_line fault.now) }
{
    match unread_words(fault) {
        Some((subject, message)) => push_fault(out, subject, message),
        None => push_content_fault(out, fault),
    }
}

/// Returns the target or path at fault and the message about it, if a unit, a file or a folder can't be found or read,
/// or if the target is a template or has too many aliases. Returns `None` for any other fault: then the contents of
/// files or the text of an expression are at fault.
#[tactic(auto, unfolding(crate::specs::rules::ErrorLines::unread_words))]
pub fn unread_words(fault: &TargetFault) -> Option<(&str, &'static str)>
    ensures { option_map (λ words. (words.0.now, words.1.now)) result ≡ unread_words fault.now }
{
    let target = fault.target.as_str();
    match &fault.reason {
        TargetReason::NotFound => Some((target, not_found_words(target))),
        TargetReason::Template => Some((target, "a template needs an instance")),
        TargetReason::TooManyAliases => Some((target, "more than 7 links from unit to unit")),
        TargetReason::Path(path, reason) => Some((path.as_str(), reason_words(*reason))),
        _ => None,
    }
}

/// Appends the error line about the contents of a timer's files, or about an expression or an entry of a crontab. Appends
/// nothing for other faults, which [`unread_words`] describes.
fn push_content_fault(out: &mut String, fault: &TargetFault) -> Result<(), AllocError>
    ensures { OnOk result (string_bytes out.new ≡ string_bytes out.old ++ content_line (string_bytes fault.now.target) fault.now.reason) }
{
    let target = fault.target.as_str();
    match &fault.reason {
        TargetReason::Broken(path, line) => push_broken(out, path.as_str(), *line),
        TargetReason::NothingToDo(_, files) => push_idle(out, target, files),
        TargetReason::Expression(fault) => push_fault(out, target, fault.words()),
        TargetReason::CrontabEntry(fault) => push_entry_fault(out, target, *fault),
        TargetReason::ExpressionZone(zone, reason) => {
            push_expression_zone(out, target, zone.as_str(), *reason)
        }
        _ => Ok(()),
    }
}

/// Returns the error line about an ignored line in the files of a timer, without a line feed. The error line begins
/// with the path of the file and the number of the ignored line in this file.
#[tactic(auto, unfolding(crate::specs::rules::ErrorLines::ignored_line))]
pub fn ignored_text(
    alloc: Global,
    timer: &LoadedTimer,
    ignored: &IgnoredLine,
) -> Result<String, AllocError>
    ensures { IfOk result (λ line. string_bytes line ≡ ignored_line timer.now ignored.now) }
{
    let mut out = String::new(alloc);
    push_place(&mut out, timer.name.as_str(), &timer.files, ignored.number)?;
    out.push_str("ignored: ")?;
    out.push_str(ignored.fault.words())?;
    Ok(out)
}

/// Returns the error line about a line in the files of a timer that is ignored because of its zone, without a line
/// feed. The error line begins with a path and a line number, like those of [`ignored_text`].
#[tactic(auto, unfolding(crate::specs::rules::ErrorLines::unusable_zone_line))]
pub fn unusable_zone_text(
    alloc: Global,
    timer: &LoadedTimer,
    zone: &UnusableZone,
) -> Result<String, AllocError>
    ensures { IfOk result (λ line. string_bytes line ≡ unusable_zone_line timer.now zone.now) }
{
    let mut out = String::new(alloc);
    push_place(&mut out, timer.name.as_str(), &timer.files, zone.number)?;
    out.push_str("ignored: ")?;
    push_zone_fault(&mut out, zone.name.as_str(), zone.reason)?;
    Ok(out)
}

/// Returns the message about the file of the zone with this name, which can't be used for this reason.
pub fn zone_words(alloc: Global, zone: &str, reason: FileReason) -> Result<String, AllocError>
    ensures { IfOk result (λ message. string_bytes message ≡ zone_message zone.now reason) }
{
    let mut out = String::new(alloc);
    push_zone_fault(&mut out, zone, reason)?;
    Ok(out)
}

/// Returns the message about the line at which systemd stops reading a timer's own file.
#[tactic(auto, unfolding(crate::specs::rules::Messages::broken_file_message))]
pub fn broken_file_words(alloc: Global, reason: BrokenReason) -> Result<String, AllocError>
    ensures { IfOk result (λ message. string_bytes message ≡ broken_file_message reason) }
{
    let words = broken_words(reason);
    format!(in alloc; "{words}, so the timer fails to load")
}

/// Returns the message about the line at which systemd stops reading a drop-in.
#[tactic(auto, unfolding(crate::specs::rules::Messages::broken_drop_in_message))]
pub fn broken_drop_in_words(alloc: Global, reason: BrokenReason) -> Result<String, AllocError>
    ensures { IfOk result (λ message. string_bytes message ≡ broken_drop_in_message reason) }
{
    let words = broken_words(reason);
    format!(in alloc; "{words}, so the drop-in is ignored from this line on")
}

/// Returns the error line about a drop-in that systemd stops reading at this line, without a line feed. The error line
/// begins with the path of the drop-in and the number of the line in the drop-in.
#[tactic(auto, unfolding(crate::specs::rules::ErrorLines::broken_line))]
pub fn broken_text(
    alloc: Global,
    timer: &LoadedTimer,
    line: BrokenLine,
) -> Result<String, AllocError>
    ensures { IfOk result (λ text. string_bytes text ≡ broken_line timer.now line) }
{
    let mut out = String::new(alloc);
    push_place(&mut out, timer.name.as_str(), &timer.files, line.number)?;
    out.push_str("ignored from this line on: ")?;
    out.push_str(broken_words(line.reason))?;
    Ok(out)
}

/// Returns the message about a line at which systemd stops reading a file.
#[tactic(auto, unfolding(crate::specs::rules::Messages::broken_words))]
fn broken_words(reason: BrokenReason) -> &'static str
    ensures { result.now ≡ broken_words reason }
{
    match reason {
        BrokenReason::NotUtf8 => "not UTF-8",
        BrokenReason::BadHeader => "bad section header",
        BrokenReason::TooLong => "line longer than 1048575 bytes",
    }
}

/// Returns the error line about a zone that can't be used, without a line feed.
pub fn zones_text(alloc: Global, fault: &ZonesFault) -> Result<String, AllocError>
    ensures { IfOk result (λ line. string_bytes line ≡ zones_line fault.now) }
{
    let mut out = String::new(alloc);
    push_zones_fault(&mut out, fault)?;
    Ok(out)
}

#[tactic(auto, unfolding(crate::specs::rules::ErrorLines::zones_line))]
fn push_zones_fault(out: &mut String, fault: &ZonesFault) -> Result<(), AllocError>
    ensures { OnOk result (string_bytes out.new ≡ string_bytes out.old ++ zones_line fault.now) }
{
    match fault {
        ZonesFault::Unclear(origin) => push_fault(out, origin_name(*origin), "not a zone"),
        ZonesFault::Unread(origin) => push_fault(out, origin_name(*origin), "cannot be read"),
        ZonesFault::OfZone(zone, reason) => push_zone_fault(out, zone.as_str(), *reason),
        ZonesFault::NoMemory => out.push_str("out of memory"),
    }
}

#[tactic(auto, unfolding(crate::specs::rules::ErrorLines::origin_name))]
fn origin_name(origin: Origin) -> &'static str
    ensures { result.now ≡ origin_name origin }
{
    match origin {
        Origin::Argument => "--zone",
        Origin::Variable => "TZ",
    }
}

/// Returns the message about a target that isn't found. A target with a slash is treated as a path, and any other
/// target as the name of a unit.
#[tactic(auto, unfolding(crate::specs::rules::ErrorLines::not_found_words))]
fn not_found_words(target: &str) -> &'static str
    ensures { result.now ≡ not_found_words target.now }
{
    if target.as_bytes().contains(&b'/') {
        "no such file or directory"
    } else {
        "no such timer"
    }
}

/// Returns the message about a path of a unit that can't be used for this reason.
#[tactic(auto, unfolding(crate::specs::rules::ErrorLines::reason_words))]
fn reason_words(reason: Reason) -> &'static str
    ensures { result.now ≡ reason_words reason }
{
    match reason {
        Reason::Unreadable(Unreadable::Unopened | Unreadable::Failed) => "cannot be read",
        Reason::Unreadable(Unreadable::NotUtf8) => "a link to a path that is not UTF-8",
        Reason::IsFolder => "is a directory",
        Reason::Missing => "no such file",
        Reason::TooLarge => "larger than 1048576 bytes",
    }
}

/// Appends `subject` (what is at fault), a colon, a blank and the message.
#[tactic(auto, unfolding(crate::specs::rules::ErrorLines::subject_line))]
fn push_fault(out: &mut String, subject: &str, message: &str) -> Result<(), AllocError>
    ensures { OnOk result (string_bytes out.new ≡ string_bytes out.old ++ subject_line subject.now message.now) }
{
    push_printable(out, subject)?;
    out.push_str(": ")?;
    out.push_str(message)
}

#[tactic(auto, unfolding(crate::specs::rules::ErrorLines::subject_line))]
fn push_entry_fault(out: &mut String, entry: &str, fault: CronFault) -> Result<(), AllocError>
    ensures { OnOk result (string_bytes out.new ≡ string_bytes out.old ++ subject_line entry.now (cron_messages.message_of fault)) }
{
    push_printable(out, entry)?;
    out.push_str(": ")?;
    fault.push_words(out)
}

fn push_broken(out: &mut String, path: &str, line: BrokenLine) -> Result<(), AllocError>
    ensures { OnOk result (string_bytes out.new ≡ string_bytes out.old ++ (position_text path.now line.number ++ broken_words line.reason)) }
{
    push_position(out, path, line.number)?;
    out.push_str(broken_words(line.reason))
}

/// Appends the error line about a timer without a setting that starts its unit. The line is about the first expression
/// or exception that is ignored as invalid, or else about the first one whose zone can't be used. If there is none of
/// either, it is about the timer.
#[tactic(auto, unfolding(crate::specs::rules::ErrorLines::idle_line))]
fn push_idle(out: &mut String, timer: &str, files: &TimerFiles) -> Result<(), AllocError>
    ensures { OnOk result (string_bytes out.new ≡ string_bytes out.old ++ idle_line timer.now files.now) }
{
    if let Some(ignored) = files.ignored.first() {
        return push_ignored(out, timer, files, *ignored);
    }
    match files.unusable_zones.first() {
        Some(zone) => push_unusable_zone(out, timer, files, zone),
        None => push_fault(out, timer, NOTHING_TO_DO),
    }
}

fn push_ignored(
    out: &mut String,
    timer: &str,
    files: &TimerFiles,
    ignored: IgnoredLine,
) -> Result<(), AllocError>
    ensures { OnOk result (string_bytes out.new ≡ string_bytes out.old ++ (place_text timer.now files.now ignored.number ++ message_of ignored.fault)) }
{
    push_place(out, timer, files, ignored.number)?;
    out.push_str(ignored.fault.words())
}

fn push_unusable_zone(
    out: &mut String,
    timer: &str,
    files: &TimerFiles,
    zone: &UnusableZone,
) -> Result<(), AllocError>
    ensures { OnOk result (string_bytes out.new ≡ string_bytes out.old ++ (place_text timer.now files.now zone.now.number ++ zone_message (string_bytes zone.now.name) zone.now.reason)) }
{
    push_place(out, timer, files, zone.number)?;
    push_zone_fault(out, zone.name.as_str(), zone.reason)
}

/// Appends `PATH:LINE: `: the path of the file that has the line with this continued number, and the line's number in
/// this file. If no file has the line, appends the name of the timer and the continued number instead.
#[tactic(auto, unfolding(crate::specs::rules::ErrorLines::place_text))]
fn push_place(
    out: &mut String,
    timer: &str,
    files: &TimerFiles,
    number: u32,
) -> Result<(), AllocError>
    ensures { OnOk result (string_bytes out.new ≡ string_bytes out.old ++ place_text timer.now files.now number) }
{
    let (path, line) = files.position(number).unwrap_or((timer, number));
    push_position(out, path, line)
}

/// Appends `PATH:LINE: ` with this path and this line number.
#[tactic(auto, unfolding(crate::specs::rules::ErrorLines::position_text))]
fn push_position(out: &mut String, path: &str, line: u32) -> Result<(), AllocError>
    ensures text { OnOk result (string_bytes out.new ≡ string_bytes out.old ++ position_text path.now line) }
    ensures fits { line < 2 ^ 32 }
{
    push_printable(out, path)?;
    write!(out, ":{line}: ")
}

#[tactic(auto, unfolding(crate::specs::rules::ErrorLines::subject_line))]
fn push_expression_zone(
    out: &mut String,
    expression: &str,
    zone: &str,
    reason: FileReason,
) -> Result<(), AllocError>
    ensures { OnOk result (string_bytes out.new ≡ string_bytes out.old ++ subject_line expression.now (zone_message zone.now reason)) }
{
    push_printable(out, expression)?;
    out.push_str(": ")?;
    push_zone_fault(out, zone, reason)
}

/// Appends the message about the file of the zone with this name, which can't be used for this reason.
#[tactic(auto, unfolding(crate::specs::rules::Messages::zone_message))]
fn push_zone_fault(out: &mut String, zone: &str, reason: FileReason) -> Result<(), AllocError>
    ensures { OnOk result (string_bytes out.new ≡ string_bytes out.old ++ zone_message zone.now reason) }
{
    match reason {
        FileReason::NotFound => push_no_zone(out, zone),
        FileReason::Load(fault) => push_unloaded(out, zone, fault.words()),
    }
}

/// Appends the message about the file of the zone with this name, which doesn't exist. If the name looks like an
/// abbreviation, such as `CEST`, the message goes on with a hint.
#[tactic(auto, unfolding(crate::specs::rules::Messages::zone_message))]
fn push_no_zone(out: &mut String, zone: &str) -> Result<(), AllocError>
    ensures { OnOk result (string_bytes out.new ≡ string_bytes out.old ++ zone_message zone.now NotFound) }
{
    out.push_str("no zone file ")?;
    push_zone_path(out, zone)?;
    push_hint(out, zone)
}

fn push_unloaded(out: &mut String, zone: &str, message: &str) -> Result<(), AllocError>
    ensures { OnOk result (string_bytes out.new
        ≡ string_bytes out.old ++ (zone_path_text zone.now ++ (codes ": " ++ message.now))) }
{
    push_zone_path(out, zone)?;
    out.push_str(": ")?;
    out.push_str(message)
}

/// Appends the path of the file of the zone with this name.
fn push_zone_path(out: &mut String, zone: &str) -> Result<(), AllocError>
    ensures { OnOk result (string_bytes out.new ≡ string_bytes out.old ++ zone_path_text zone.now) }
{
    out.push_str(ZONE_FOLDER)?;
    push_printable(out, zone)
}

/// Appends the hint if the zone's name looks like an abbreviation.
fn push_hint(out: &mut String, name: &str) -> Result<(), AllocError>
    ensures { OnOk result (string_bytes out.new ≡ string_bytes out.old ++ abbreviation_hint name.now) }
{
    if looks_like_abbreviation(name) {
        out.push_str(ABBREVIATION_HINT)
    } else {
        Ok(())
    }
}
