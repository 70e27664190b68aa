//! The document of `list`: units and their next elapses.

ghost use Rattle.std.specs.Prelude.{◌≡◌, ◌++◌, ◌∷◌, [], IfOk, OnOk, codes, map, option_map, string_bytes};
ghost use Rattle.json.specs.Json.{string};
ghost use Rattle.json.specs.Token.{key};
ghost use Rattle.json.specs.Tree.{json_tokens};
ghost use Rattle.cal_zone.specs.rules.InstantText.{instant_text};
ghost use Rattle.cal_timers_report.specs.rules.Documents.{list_document, unit_json};
ghost use Rattle.cal_timers_report.specs.rules.JsonParts.{integer, list_of, or_null};
ghost use Rattle.cal_timers_report.specs.rules.JsonTimes.{left_span};
ghost use Rattle.cal_timers_report.specs.rules.ReportView.{unit_seen};

use crate::documents::times::{InZone, TimeLeft, UnixTime};
use crate::documents::to_json::{document_text, put_member, put_null};
use crate::report::ListRow;
use cal_zone::{Instant, Zone};
use json::{Pretty, Token};
use std::alloc::{AllocError, Global};

/// Returns the document of `list`: an array with an object for each unit, in the order given.
///
/// The members of an object are `unit`, `next` (the next elapse as clocks in `zone` show it), `unix` (the next elapse
/// in seconds of Unix time), `left` (the time span from `now` to the next elapse, or `0` if it isn't later than `now`)
/// and `notes`. `next`, `unix` and `left` are `null` for a unit without a next elapse. Fails only if allocation fails.
pub fn list_json(
    alloc: Global,
    zone: Zone<'_>,
    now: Instant,
    rows: &[ListRow<'_>],
) -> Result<String, AllocError>
    ensures { IfOk result (λ text. string_bytes text ≡ list_document zone.entry now.secs (map unit_seen rows.now)) }
{
    let mut out = Pretty::new(alloc);
    put_rows(&mut out, zone, now, rows)?;
    document_text(out)
}

fn put_rows(
    out: &mut Pretty,
    zone: Zone<'_>,
    now: Instant,
    rows: &[ListRow<'_>],
) -> Result<(), AllocError>
    ensures { OnOk result (out.new ≡ out.old
        ++ json_tokens (list_of (unit_json zone.entry now.secs) (map unit_seen rows.now))) }
{
    out.token(Token::BeginArray)?;
    for row in rows {
        put_row(out, zone, now, row)?;
    }
    out.token(Token::EndArray)
}

fn put_row(
    out: &mut Pretty,
    zone: Zone<'_>,
    now: Instant,
    row: &ListRow<'_>,
) -> Result<(), AllocError>
    ensures { OnOk result (out.new ≡ out.old ++ json_tokens (unit_json zone.entry now.secs (unit_seen row.now))) }
{
    out.token(Token::BeginObject)?;
    put_member(out, "unit", &row.unit)?;
    put_next(out, zone, row.next)?;
    put_unix(out, row.next)?;
    put_left(out, now, row.next)?;
    put_member(out, "notes", &row.notes)?;
    out.token(Token::EndObject)
}

fn put_next(out: &mut Pretty, zone: Zone<'_>, next: Option<Instant>) -> Result<(), AllocError>
    ensures { OnOk result (out.new ≡ out.old ++ key (codes "next") ∷ []
        ++ json_tokens (or_null (λ secs. string (instant_text zone.entry secs))
        (option_map (λ instant. instant.secs) next))) }
{
    match next {
        Some(instant) => put_member(out, "next", &InZone { zone, instant }),
        None => put_null(out, "next"),
    }
}

fn put_unix(out: &mut Pretty, next: Option<Instant>) -> Result<(), AllocError>
    ensures { OnOk result (out.new ≡ out.old ++ key (codes "unix") ∷ []
        ++ json_tokens (or_null integer (option_map (λ instant. instant.secs) next))) }
{
    match next {
        Some(instant) => put_member(out, "unix", &UnixTime(instant)),
        None => put_null(out, "unix"),
    }
}

fn put_left(out: &mut Pretty, now: Instant, next: Option<Instant>) -> Result<(), AllocError>
    ensures { OnOk result (out.new ≡ out.old ++ key (codes "left") ∷ []
        ++ json_tokens (or_null (λ secs. string (left_span now.secs secs))
        (option_map (λ instant. instant.secs) next))) }
{
    match next {
        Some(then) => put_member(out, "left", &TimeLeft { now, then }),
        None => put_null(out, "left"),
    }
}
