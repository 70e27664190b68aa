//! The document of `show` and `next`: timers with their files, expressions, elapses and warnings.

ghost use Rattle.std.specs.Prelude.{◌≡◌, ◌++◌, ◌∷◌, [], IfOk, OnOk, codes, map, option_map, string_bytes};
ghost use Rattle.json.specs.Json.{string};
ghost use Rattle.json.specs.Token.{key};
ghost use Rattle.json.specs.Tree.{json_tokens};
ghost use Rattle.cal_timers_report.specs.rules.Documents.{change_of, clock_time_json, elapse_json, last_json, line_json, show_document, timer_json};
ghost use Rattle.cal_timers_report.specs.rules.JsonParts.{list_of, natural, or_null};
ghost use Rattle.cal_timers_report.specs.rules.JsonTimes.{local_time_text};
ghost use Rattle.cal_timers_report.specs.rules.ReportView.{clock_time_seen, line_seen, place_seen, timer_seen};

use crate::documents::times::{InZone, LocalTime, Normal, TimeLeft, UnixTime};
use crate::documents::to_json::{document_text, put_member, put_null};
use crate::report::{ClockTime, Place, ShownLine, ShownTimer};
use cal_zone::{Instant, Zone};
use json::{Pretty, Token};
use std::alloc::{AllocError, Global};

/// Returns the document of `show` and `next`: an array with an object for each timer, in the order given.
///
/// The members of an object are `unit`, `files`, `expressions`, `exceptions`, `last`, `elapses`, `notes`, `warnings`
/// and `clock`. `files`, `notes` and `warnings` are arrays of strings. `expressions`, `exceptions`, `elapses` and
/// `clock` are arrays of objects, and `last` is one object. The members of these objects are:
///
/// - For an expression or an exception: `text` (the expression as it is written), `normal` (its normal form), `file`
///   and `line`. The last two are `null` if the expression isn't from a file.
/// - For the last elapse: `local` and `unix`, as for other elapses, and `ago` (the time span from the last elapse to
///   `now`, or `0` if the last elapse isn't earlier than `now`). If there is no last elapse, `last` is `null`.
/// - For a next elapse: `local` (the elapse as clocks in `zone` show it), `unix` (the elapse in seconds of Unix time)
///   and `left` (the time span from `now` to the elapse, or `0` if the elapse isn't later than `now`).
/// - For a local time in `clock`: `local`, `change` (`skipped` or `repeated`) and `zone`, which is `null` for the local
///   zone.
///
/// Fails only if allocation fails.
pub fn show_json(
    alloc: Global,
    zone: Zone<'_>,
    now: Instant,
    timers: &[ShownTimer<'_>],
) -> Result<String, AllocError>
    ensures { IfOk result (λ text. string_bytes text ≡ show_document zone.entry now.secs (map timer_seen timers.now)) }
{
    let mut out = Pretty::new(alloc);
    put_timers(alloc, &mut out, zone, now, timers)?;
    document_text(out)
}

fn put_timers(
    alloc: Global,
    out: &mut Pretty,
    zone: Zone<'_>,
    now: Instant,
    timers: &[ShownTimer<'_>],
) -> Result<(), AllocError>
    ensures { OnOk result (out.new ≡ out.old
        ++ json_tokens (list_of (timer_json zone.entry now.secs) (map timer_seen timers.now))) }
{
    out.token(Token::BeginArray)?;
    for timer in timers {
        put_timer(alloc, out, zone, now, timer)?;
    }
    out.token(Token::EndArray)
}

fn put_timer(
    alloc: Global,
    out: &mut Pretty,
    zone: Zone<'_>,
    now: Instant,
    timer: &ShownTimer<'_>,
) -> Result<(), AllocError>
    ensures { OnOk result (out.new ≡ out.old ++ json_tokens (timer_json zone.entry now.secs (timer_seen timer.now))) }
{
    out.token(Token::BeginObject)?;
    put_member(out, "unit", &timer.unit)?;
    put_member(out, "files", &timer.files)?;
    put_lines(alloc, out, "expressions", &timer.expressions)?;
    put_lines(alloc, out, "exceptions", &timer.exceptions)?;
    put_last(out, zone, now, timer.last)?;
    put_elapses(out, zone, now, &timer.elapses)?;
    put_member(out, "notes", &timer.notes)?;
    put_member(out, "warnings", &timer.warnings)?;
    put_clock(out, &timer.clock)?;
    out.token(Token::EndObject)
}

/// Writes a member whose value is an array of expressions or exceptions.
fn put_lines(
    alloc: Global,
    out: &mut Pretty,
    name: &str,
    lines: &[ShownLine<'_>],
) -> Result<(), AllocError>
    ensures { OnOk result (out.new ≡ out.old ++ key name.now ∷ []
        ++ json_tokens (list_of line_json (map line_seen lines.now))) }
{
    out.token(Token::Key(name))?;
    out.token(Token::BeginArray)?;
    for line in lines {
        put_line(alloc, out, *line)?;
    }
    out.token(Token::EndArray)
}

fn put_line(alloc: Global, out: &mut Pretty, line: ShownLine<'_>) -> Result<(), AllocError>
    ensures { OnOk result (out.new ≡ out.old ++ json_tokens (line_json (line_seen line.entry))) }
{
    let expr = line.expr;
    out.token(Token::BeginObject)?;
    put_member(out, "text", &line.text)?;
    put_member(out, "normal", &Normal { alloc, expr })?;
    put_file(out, line.place)?;
    put_number(out, line.place)?;
    out.token(Token::EndObject)
}

fn put_file(out: &mut Pretty, place: Option<Place<'_>>) -> Result<(), AllocError>
    ensures { OnOk result (out.new ≡ out.old ++ key (codes "file") ∷ []
        ++ json_tokens (or_null (λ place. string place.file) (option_map place_seen place.entry))) }
{
    match place {
        Some(place) => put_member(out, "file", &place.file),
        None => put_null(out, "file"),
    }
}

fn put_number(out: &mut Pretty, place: Option<Place<'_>>) -> Result<(), AllocError>
    ensures { OnOk result (out.new ≡ out.old ++ key (codes "line") ∷ []
        ++ json_tokens (or_null (λ place. natural place.line) (option_map place_seen place.entry))) }
{
    match place {
        Some(place) => put_member(out, "line", &place.line),
        None => put_null(out, "line"),
    }
}

fn put_last(
    out: &mut Pretty,
    zone: Zone<'_>,
    now: Instant,
    last: Option<Instant>,
) -> Result<(), AllocError>
    ensures { OnOk result (out.new ≡ out.old ++ key (codes "last") ∷ []
        ++ json_tokens (or_null (last_json zone.entry now.secs) (option_map (λ instant. instant.secs) last))) }
{
    let Some(instant) = last else {
        return put_null(out, "last");
    };
    out.token(Token::Key("last"))?;
    put_last_elapse(out, zone, now, instant)
}

fn put_last_elapse(
    out: &mut Pretty,
    zone: Zone<'_>,
    now: Instant,
    then: Instant,
) -> Result<(), AllocError>
    ensures { OnOk result (out.new ≡ out.old ++ json_tokens (last_json zone.entry now.secs then.secs)) }
{
    out.token(Token::BeginObject)?;
    put_member(
        out,
        "local",
        &InZone {
            zone,
            instant: then,
        },
    )?;
    put_member(out, "unix", &UnixTime(then))?;
    // The time span from the last elapse to the present: here the later of the two instants is the present.
    let ago = TimeLeft {
        now: then,
        then: now,
    };
    put_member(out, "ago", &ago)?;
    out.token(Token::EndObject)
}

fn put_elapses(
    out: &mut Pretty,
    zone: Zone<'_>,
    now: Instant,
    elapses: &[Instant],
) -> Result<(), AllocError>
    ensures { OnOk result (out.new ≡ out.old ++ key (codes "elapses") ∷ []
        ++ json_tokens (list_of (elapse_json zone.entry now.secs) (map (λ instant. instant.secs) elapses.now))) }
{
    out.token(Token::Key("elapses"))?;
    out.token(Token::BeginArray)?;
    for elapse in elapses {
        put_elapse(out, zone, now, *elapse)?;
    }
    out.token(Token::EndArray)
}

fn put_elapse(
    out: &mut Pretty,
    zone: Zone<'_>,
    now: Instant,
    then: Instant,
) -> Result<(), AllocError>
    ensures { OnOk result (out.new ≡ out.old ++ json_tokens (elapse_json zone.entry now.secs then.secs)) }
{
    out.token(Token::BeginObject)?;
    put_member(
        out,
        "local",
        &InZone {
            zone,
            instant: then,
        },
    )?;
    put_member(out, "unix", &UnixTime(then))?;
    put_member(out, "left", &TimeLeft { now, then })?;
    out.token(Token::EndObject)
}

fn put_clock(out: &mut Pretty, times: &[ClockTime<'_>]) -> Result<(), AllocError>
    ensures { OnOk result (out.new ≡ out.old ++ key (codes "clock") ∷ []
        ++ json_tokens (list_of clock_time_json (map clock_time_seen times.now))) }
{
    out.token(Token::Key("clock"))?;
    out.token(Token::BeginArray)?;
    for time in times {
        put_clock_time(out, time)?;
    }
    out.token(Token::EndArray)
}

fn put_clock_time(out: &mut Pretty, time: &ClockTime<'_>) -> Result<(), AllocError>
    ensures { OnOk result (out.new ≡ out.old ++ json_tokens (clock_time_json (clock_time_seen time.now))) }
{
    out.token(Token::BeginObject)?;
    put_local_time(out, time)?;
    put_change(out, time.is_skipped)?;
    put_member(out, "zone", &time.zone)?;
    out.token(Token::EndObject)
}

fn put_local_time(out: &mut Pretty, time: &ClockTime<'_>) -> Result<(), AllocError>
    ensures { OnOk result (out.new ≡ out.old ++ key (codes "local") ∷ []
        ++ json_tokens (string (local_time_text time.now.local))) }
{
    put_member(out, "local", &LocalTime(time.local))
}

fn put_change(out: &mut Pretty, is_skipped: bool) -> Result<(), AllocError>
    ensures { OnOk result (out.new ≡ out.old ++ key (codes "change") ∷ []
        ++ json_tokens (string (change_of is_skipped))) }
{
    if is_skipped {
        put_member(out, "change", &"skipped")
    } else {
        put_member(out, "change", &"repeated")
    }
}
