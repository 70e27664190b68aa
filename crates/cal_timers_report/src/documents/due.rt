//! The document of `due`: whether the run of a service is due.

ghost use Rattle.std.specs.Prelude.{◌≡◌, ◌++◌, ◌∷◌, [], IfOk, OnOk, codes, option_map, string_bytes};
ghost use Rattle.json.specs.Token.{key};
ghost use Rattle.json.specs.Tree.{json_tokens};
ghost use Rattle.cal_timers_report.specs.rules.Documents.{due_document, due_members, instant_json};
ghost use Rattle.cal_timers_report.specs.rules.JsonParts.{object_of, or_null};
ghost use Rattle.cal_timers_report.specs.rules.ReportView.{due_seen};

use crate::documents::times::{InZone, UnixTime};
use crate::documents::to_json::{document_text, put_member, put_null};
use crate::due::DueReport;
use cal_zone::{Instant, Zone};
use json::{Pretty, Token};
use std::alloc::{AllocError, Global};

/// Returns the document of `due`: an object with these members.
///
/// - `unit`: the name of the timer, or `null` if no timer started the service.
/// - `due`: whether the run is due.
/// - `elapse`: an object for the last elapse of the timer's expressions, or `null` if there is none. Its members are
///   `local` (the elapse as clocks in `zone` show it) and `unix` (the elapse in seconds of Unix time).
///
/// Fails only if allocation fails.
pub fn due_json(alloc: Global, zone: Zone<'_>, report: &DueReport<'_>) -> Result<String, AllocError>
    ensures { IfOk result (λ text. string_bytes text ≡ due_document zone.entry (due_seen report.now)) }
{
    let mut out = Pretty::new(alloc);
    put_report(&mut out, zone, report)?;
    document_text(out)
}

fn put_report(out: &mut Pretty, zone: Zone<'_>, report: &DueReport<'_>) -> Result<(), AllocError>
    ensures { OnOk result (out.new ≡ out.old
        ++ json_tokens (object_of (due_members zone.entry (due_seen report.now)))) }
{
    out.token(Token::BeginObject)?;
    put_member(out, "unit", &report.unit)?;
    put_member(out, "due", &report.verdict.is_due())?;
    put_elapse(out, zone, report.verdict.elapse())?;
    out.token(Token::EndObject)
}

fn put_elapse(out: &mut Pretty, zone: Zone<'_>, elapse: Option<Instant>) -> Result<(), AllocError>
    ensures { OnOk result (out.new ≡ out.old ++ key (codes "elapse") ∷ []
        ++ json_tokens (or_null (instant_json zone.entry) (option_map (λ instant. instant.secs) elapse))) }
{
    let Some(instant) = elapse else {
        return put_null(out, "elapse");
    };
    out.token(Token::Key("elapse"))?;
    put_instant(out, zone, instant)
}

fn put_instant(out: &mut Pretty, zone: Zone<'_>, instant: Instant) -> Result<(), AllocError>
    ensures { OnOk result (out.new ≡ out.old ++ json_tokens (instant_json zone.entry instant.secs)) }
{
    out.token(Token::BeginObject)?;
    put_member(out, "local", &InZone { zone, instant })?;
    put_member(out, "unix", &UnixTime(instant))?;
    out.token(Token::EndObject)
}
