//! The report of entries as text: the settings of each entry, below comments, to be pasted into a unit.

ghost use Rattle.std.specs.Prelude.{◌≡◌, ◌++◌, IfOk, OnOk, map, string_bytes};
ghost use Rattle.std.specs.Option.{option_copied};
ghost use Rattle.std.specs.List.{flat_map, join_by};
ghost use Rattle.cal_crontabs.specs.rules.Entries.{entry_seen};
ghost use Rattle.cal_crontabs.specs.rules.EntryText.{comment_char, comment_line, comment_text, entries_text, entry_text, note_line, note_lines, place_lines, setting_line, setting_lines};

use crate::entries::CronEntry;
use cal_timers_report::{push_code, push_printable};
use std::alloc::{AllocError, Global};

/// Returns the text about the entries, with an empty line between two entries. The text about an entry has comments
/// with the path of its crontab and the number of its line, with the line itself, and with the notes; below them are
/// the settings. Control characters other than tabs are replaced, so that they can't change the terminal. Fails only if
/// allocation fails.
pub fn entries_text(alloc: Global, entries: &[CronEntry<'_>]) -> Result<String, AllocError>
    ensures { IfOk result (λ text. string_bytes text ≡ entries_text (map entry_seen entries.now)) }
{
    let mut out = String::new(alloc);
    push_entries(&mut out, entries)?;
    Ok(out)
}

fn push_entries(out: &mut String, entries: &[CronEntry<'_>]) -> Result<(), AllocError>
    ensures { OnOk result (string_bytes out.new ≡ string_bytes out.old ++ entries_text (map entry_seen entries.now)) }
{
    let Some((first, others)) = entries.split_first() else {
        return Ok(());
    };
    push_entry(out, first)?;
    for entry in others {
        out.push('\n')?;
        push_entry(out, entry)?;
    }
    Ok(())
}

#[tactic(auto, unfolding(crate::specs::rules::EntryText::entry_text))]
fn push_entry(out: &mut String, entry: &CronEntry<'_>) -> Result<(), AllocError>
    ensures { OnOk result (string_bytes out.new ≡ string_bytes out.old ++ entry_text (entry_seen entry.now)) }
{
    push_place(out, entry.file, entry.line)?;
    push_comment(out, entry.text)?;
    push_notes(out, entry.notes.as_slice())?;
    push_settings(out, entry.settings.as_slice())
}

/// Appends the comment with the path and the number of a line, or nothing if there is no path.
fn push_place(out: &mut String, file: Option<&str>, line: u32) -> Result<(), AllocError>
    ensures { OnOk result (string_bytes out.new
        ≡ string_bytes out.old ++ place_lines (option_copied file.entry) line) }
{
    let Some(file) = file else {
        return Ok(());
    };
    out.push_str("# ")?;
    push_printable(out, file)?;
    write!(out, ":{line}\n")
}

/// Appends a comment with the line of a crontab.
fn push_comment(out: &mut String, text: &str) -> Result<(), AllocError>
    ensures { OnOk result (string_bytes out.new ≡ string_bytes out.old ++ comment_line text.now) }
{
    out.push_str("# ")?;
    push_comment_text(out, text)?;
    out.push('\n')
}

/// Appends a text, with each control character other than a tab replaced by `\x` and its code.
fn push_comment_text(out: &mut String, text: &str) -> Result<(), AllocError>
    ensures { OnOk result (string_bytes out.new ≡ string_bytes out.old ++ comment_text text.now) }
{
    for sign in text.chars() {
        push_comment_char(out, sign)?;
    }
    Ok(())
}

fn push_comment_char(out: &mut String, sign: char) -> Result<(), AllocError>
    ensures { OnOk result (string_bytes out.new ≡ string_bytes out.old ++ comment_char sign) }
{
    if sign == '\t' || !sign.is_control() {
        return out.push(sign);
    }
    push_code(out, sign)
}

fn push_notes(out: &mut String, notes: &[String]) -> Result<(), AllocError>
    ensures { OnOk result (string_bytes out.new ≡ string_bytes out.old ++ note_lines (map string_bytes notes.now)) }
{
    for note in notes {
        push_note(out, note.as_str())?;
    }
    Ok(())
}

fn push_note(out: &mut String, note: &str) -> Result<(), AllocError>
    ensures { OnOk result (string_bytes out.new ≡ string_bytes out.old ++ note_line note.now) }
{
    out.push_str("# Note: ")?;
    push_printable(out, note)?;
    out.push('\n')
}

fn push_settings(out: &mut String, settings: &[String]) -> Result<(), AllocError>
    ensures { OnOk result (string_bytes out.new ≡ string_bytes out.old ++ setting_lines (map string_bytes settings.now)) }
{
    for setting in settings {
        push_setting(out, setting.as_str())?;
    }
    Ok(())
}

fn push_setting(out: &mut String, setting: &str) -> Result<(), AllocError>
    ensures { OnOk result (string_bytes out.new ≡ string_bytes out.old ++ setting_line setting.now) }
{
    out.push_str(setting)?;
    out.push('\n')
}
