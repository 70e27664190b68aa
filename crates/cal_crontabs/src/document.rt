//! The report of entries as a JSON document.

ghost use Rattle.std.specs.Prelude.{◌≡◌, ◌++◌, ◌∷◌, [], IfOk, OnOk, map, string_bytes};
ghost use Rattle.std.specs.Option.{option_copied};
ghost use Rattle.json.specs.Json.{string};
ghost use Rattle.json.specs.Token.{key};
ghost use Rattle.json.specs.Tree.{json_tokens};
ghost use Rattle.cal_timers_report.specs.rules.JsonParts.{list_of, natural, or_null};
ghost use Rattle.cal_crontabs.specs.rules.Document.{entries_document, entry_json};
ghost use Rattle.cal_crontabs.specs.rules.Entries.{entry_seen};

use crate::entries::CronEntry;
use json::{Pretty, Token};
use std::alloc::{AllocError, Global};

/// Returns the JSON document: an array with an object for each entry, in the order given.
///
/// The members of an object are `file`, `line`, `text` (the line itself), `user`, `command`, `input`, `settings` (an
/// array of texts `KEY=VALUE`) and `notes`. `file` is `null` for an entry that is given as an argument, and `user` and
/// `input` are `null` if the entry has none. Fails only if allocation fails.
pub fn entries_json(alloc: Global, entries: &[CronEntry<'_>]) -> Result<String, AllocError>
    ensures { IfOk result (λ text. string_bytes text ≡ entries_document (map entry_seen entries.now)) }
{
    let mut out = Pretty::new(alloc);
    put_entries(&mut out, entries)?;
    let Ok(mut text) = String::from_utf8(out.into_inner()) else {
        return Err(AllocError);
    };
    text.push('\n')?;
    Ok(text)
}

fn put_entries(out: &mut Pretty, entries: &[CronEntry<'_>]) -> Result<(), AllocError>
    ensures { OnOk result (out.new ≡ out.old ++ json_tokens (list_of entry_json (map entry_seen entries.now))) }
{
    out.token(Token::BeginArray)?;
    for entry in entries {
        put_entry(out, entry)?;
    }
    out.token(Token::EndArray)
}

fn put_entry(out: &mut Pretty, entry: &CronEntry<'_>) -> Result<(), AllocError>
    ensures { OnOk result (out.new ≡ out.old ++ json_tokens (entry_json (entry_seen entry.now))) }
{
    out.token(Token::BeginObject)?;
    put_optional(out, "file", entry.file)?;
    put_number(out, "line", entry.line)?;
    put_text(out, "text", entry.text)?;
    put_optional(out, "user", entry.user)?;
    put_text(out, "command", entry.command)?;
    put_optional(out, "input", entry.input)?;
    put_texts(out, "settings", entry.settings.as_slice())?;
    put_texts(out, "notes", entry.notes.as_slice())?;
    out.token(Token::EndObject)
}

fn put_text(out: &mut Pretty, name: &str, text: &str) -> Result<(), AllocError>
    ensures { OnOk result (out.new ≡ out.old ++ key name.now ∷ [] ++ json_tokens (string text.now)) }
{
    out.token(Token::Key(name))?;
    out.token(Token::String(text))
}

fn put_optional(out: &mut Pretty, name: &str, text: Option<&str>) -> Result<(), AllocError>
    ensures { OnOk result (out.new ≡ out.old ++ key name.now ∷ []
        ++ json_tokens (or_null string (option_copied text.entry))) }
{
    out.token(Token::Key(name))?;
    match text {
        Some(text) => out.token(Token::String(text)),
        None => out.token(Token::Null),
    }
}

fn put_number(out: &mut Pretty, name: &str, number: u32) -> Result<(), AllocError>
    ensures { OnOk result (out.new ≡ out.old ++ key name.now ∷ [] ++ json_tokens (natural number)) }
{
    let mut buffer = itoa::Buffer::new();
    out.token(Token::Key(name))?;
    out.token(Token::Number(buffer.format(number)))
}

fn put_texts(out: &mut Pretty, name: &str, texts: &[String]) -> Result<(), AllocError>
    ensures { OnOk result (out.new ≡ out.old ++ key name.now ∷ []
        ++ json_tokens (list_of string (map string_bytes texts.now))) }
{
    out.token(Token::Key(name))?;
    put_strings(out, texts)
}

fn put_strings(out: &mut Pretty, texts: &[String]) -> Result<(), AllocError>
    ensures { OnOk result (out.new ≡ out.old ++ json_tokens (list_of string (map string_bytes texts.now))) }
{
    out.token(Token::BeginArray)?;
    for text in texts {
        out.token(Token::String(text.as_str()))?;
    }
    out.token(Token::EndArray)
}
