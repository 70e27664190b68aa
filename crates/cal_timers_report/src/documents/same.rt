//! The document of `same`: whether two timers elapse at the same instants, and what only one of them has.

ghost use Rattle.std.specs.Prelude.{◌≡◌, ◌++◌, ◌∷◌, ◌&&◌, [], IfOk, OnOk, codes, is_none, string_bytes};
ghost use Rattle.std.specs.List.{flat_map};
ghost use Rattle.json.specs.Json.{boolean};
ghost use Rattle.json.specs.Token.{key};
ghost use Rattle.json.specs.Tree.{json_tokens};
ghost use Rattle.cal_timers_report.specs.rules.Documents.{comparison_members, only_json, only_of, reading_json, readings_of, same_document, setting_json, settings_of};
ghost use Rattle.cal_timers_report.specs.rules.JsonParts.{array_of, object_of};
ghost use Rattle.cal_timers_report.specs.rules.ReportView.{comparison_seen, side_seen};

use crate::documents::times::{InZone, UnixTime};
use crate::documents::to_json::{document_text, put_member};
use crate::report::{Comparison, Side};
use cal_zone::{Instant, Zone};
use json::{Pretty, Token};
use std::alloc::{AllocError, Global};

/// Returns the document of `same`: an object with these members.
///
/// - `same`: whether the two timers elapse at the same instants, so that neither has an elapse in `only`.
/// - `only`: an array with an object for each timer that elapses at an instant at which the other doesn't. The members
///   of the object are `of` (the name of the timer), `local` (the first such elapse as clocks in `zone` show it) and
///   `unix` (the elapse in seconds of Unix time).
/// - `settings`: an array with an object for each setting that only one of the timers has. The members of the object
///   are `of` (the name of the timer) and `setting`.
/// - `read_as`: an array with an object for each expression that an entry of a crontab was read as. The members of the
///   object are `of` (the entry) and `expression` (in normal form).
///
/// In each array, the objects of the first timer come first. Fails only if allocation fails.
pub fn same_json(
    alloc: Global,
    zone: Zone<'_>,
    found: &Comparison<'_>,
) -> Result<String, AllocError>
    ensures { IfOk result (λ text. string_bytes text ≡ same_document zone.entry (comparison_seen found.now)) }
{
    let mut out = Pretty::new(alloc);
    put_comparison(&mut out, zone, found)?;
    document_text(out)
}

fn put_comparison(
    out: &mut Pretty,
    zone: Zone<'_>,
    found: &Comparison<'_>,
) -> Result<(), AllocError>
    ensures { OnOk result (out.new ≡ out.old
        ++ json_tokens (object_of (comparison_members zone.entry (comparison_seen found.now)))) }
{
    out.token(Token::BeginObject)?;
    put_same(out, found)?;
    put_only(out, zone, found)?;
    put_settings(out, found)?;
    put_readings(out, found)?;
    out.token(Token::EndObject)
}

fn put_same(out: &mut Pretty, found: &Comparison<'_>) -> Result<(), AllocError>
    ensures { OnOk result (out.new ≡ out.old ++ key (codes "same") ∷ []
        ++ json_tokens (boolean (is_none (side_seen found.now.one).only && is_none (side_seen found.now.other).only))) }
{
    let is_same = found.one.only.is_none() && found.other.only.is_none();
    put_member(out, "same", &is_same)
}

fn put_only(out: &mut Pretty, zone: Zone<'_>, found: &Comparison<'_>) -> Result<(), AllocError>
    ensures { OnOk result (out.new ≡ out.old ++ key (codes "only") ∷ []
        ++ json_tokens (array_of (only_of zone.entry (side_seen found.now.one)
        ++ only_of zone.entry (side_seen found.now.other)))) }
{
    out.token(Token::Key("only"))?;
    out.token(Token::BeginArray)?;
    put_only_of(out, zone, &found.one)?;
    put_only_of(out, zone, &found.other)?;
    out.token(Token::EndArray)
}

/// Writes the first elapse at which only this timer elapses, if there is one.
fn put_only_of(out: &mut Pretty, zone: Zone<'_>, side: &Side<'_>) -> Result<(), AllocError>
    ensures { OnOk result (out.new ≡ out.old ++ flat_map json_tokens (only_of zone.entry (side_seen side.now))) }
{
    match side.only {
        Some(instant) => put_elapse(out, zone, side.unit, instant),
        None => Ok(()),
    }
}

fn put_elapse(
    out: &mut Pretty,
    zone: Zone<'_>,
    unit: &str,
    instant: Instant,
) -> Result<(), AllocError>
    ensures { OnOk result (out.new ≡ out.old ++ json_tokens (only_json zone.entry unit.now instant.secs)) }
{
    out.token(Token::BeginObject)?;
    put_member(out, "of", &unit)?;
    put_member(out, "local", &InZone { zone, instant })?;
    put_member(out, "unix", &UnixTime(instant))?;
    out.token(Token::EndObject)
}

fn put_settings(out: &mut Pretty, found: &Comparison<'_>) -> Result<(), AllocError>
    ensures { OnOk result (out.new ≡ out.old ++ key (codes "settings") ∷ []
        ++ json_tokens (array_of (settings_of (side_seen found.now.one) ++ settings_of (side_seen found.now.other)))) }
{
    out.token(Token::Key("settings"))?;
    out.token(Token::BeginArray)?;
    put_settings_of(out, &found.one)?;
    put_settings_of(out, &found.other)?;
    out.token(Token::EndArray)
}

/// Writes each setting that only this timer has.
fn put_settings_of(out: &mut Pretty, side: &Side<'_>) -> Result<(), AllocError>
    ensures { OnOk result (out.new ≡ out.old ++ flat_map json_tokens (settings_of (side_seen side.now))) }
{
    for setting in &side.settings {
        put_setting(out, side.unit, setting)?;
    }
    Ok(())
}

fn put_setting(out: &mut Pretty, unit: &str, setting: &str) -> Result<(), AllocError>
    ensures { OnOk result (out.new ≡ out.old ++ json_tokens (setting_json unit.now setting.now)) }
{
    out.token(Token::BeginObject)?;
    put_member(out, "of", &unit)?;
    put_member(out, "setting", &setting)?;
    out.token(Token::EndObject)
}

fn put_readings(out: &mut Pretty, found: &Comparison<'_>) -> Result<(), AllocError>
    ensures { OnOk result (out.new ≡ out.old ++ key (codes "read_as") ∷ []
        ++ json_tokens (array_of (readings_of (side_seen found.now.one) ++ readings_of (side_seen found.now.other)))) }
{
    out.token(Token::Key("read_as"))?;
    out.token(Token::BeginArray)?;
    put_readings_of(out, &found.one)?;
    put_readings_of(out, &found.other)?;
    out.token(Token::EndArray)
}

/// Writes each expression as which this timer's name was read.
fn put_readings_of(out: &mut Pretty, side: &Side<'_>) -> Result<(), AllocError>
    ensures { OnOk result (out.new ≡ out.old ++ flat_map json_tokens (readings_of (side_seen side.now))) }
{
    for expression in &side.read_as {
        put_reading(out, side.unit, expression)?;
    }
    Ok(())
}

fn put_reading(out: &mut Pretty, unit: &str, expression: &str) -> Result<(), AllocError>
    ensures { OnOk result (out.new ≡ out.old ++ json_tokens (reading_json unit.now expression.now)) }
{
    out.token(Token::BeginObject)?;
    put_member(out, "of", &unit)?;
    put_member(out, "expression", &expression)?;
    out.token(Token::EndObject)
}
