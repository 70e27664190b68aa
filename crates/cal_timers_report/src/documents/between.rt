//! The document of `between`: the elapses of several timers.

ghost use Rattle.std.specs.Prelude.{◌≡◌, ◌++◌, IfOk, OnOk, map, string_bytes};
ghost use Rattle.json.specs.Tree.{json_tokens};
ghost use Rattle.cal_timers_report.specs.rules.Documents.{between_document, unit_elapse_json};
ghost use Rattle.cal_timers_report.specs.rules.JsonParts.{list_of};
ghost use Rattle.cal_timers_report.specs.rules.ReportView.{elapse_seen};

use crate::documents::times::{InZone, UnixTime};
use crate::documents::to_json::{document_text, put_member};
use crate::report::UnitElapse;
use cal_zone::Zone;
use json::{Pretty, Token};
use std::alloc::{AllocError, Global};

/// Returns the document of `between`: an array with an object for each elapse, in the order given.
///
/// The members of an object are `unit`, `local` (the elapse as clocks in `zone` show it) and `unix` (the elapse in
/// seconds of Unix time). Fails only if allocation fails.
pub fn between_json(
    alloc: Global,
    zone: Zone<'_>,
    elapses: &[UnitElapse<'_>],
) -> Result<String, AllocError>
    ensures { IfOk result (λ text. string_bytes text ≡ between_document zone.entry (map elapse_seen elapses.now)) }
{
    let mut out = Pretty::new(alloc);
    put_elapses(&mut out, zone, elapses)?;
    document_text(out)
}

fn put_elapses(
    out: &mut Pretty,
    zone: Zone<'_>,
    elapses: &[UnitElapse<'_>],
) -> Result<(), AllocError>
    ensures { OnOk result (out.new ≡ out.old
        ++ json_tokens (list_of (unit_elapse_json zone.entry) (map elapse_seen elapses.now))) }
{
    out.token(Token::BeginArray)?;
    for elapse in elapses {
        put_elapse(out, zone, *elapse)?;
    }
    out.token(Token::EndArray)
}

fn put_elapse(out: &mut Pretty, zone: Zone<'_>, elapse: UnitElapse<'_>) -> Result<(), AllocError>
    ensures { OnOk result (out.new ≡ out.old ++ json_tokens (unit_elapse_json zone.entry (elapse_seen elapse.entry))) }
{
    let instant = elapse.instant;
    out.token(Token::BeginObject)?;
    put_member(out, "unit", &elapse.unit)?;
    put_member(out, "local", &InZone { zone, instant })?;
    put_member(out, "unix", &UnixTime(instant))?;
    out.token(Token::EndObject)
}
