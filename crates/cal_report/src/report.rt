//! Running a whole request: the reports of its texts or of its timer file go to standard output, the error lines go
//! to standard error, and the status says whether anything was rejected (systemd-analyze(1)).

ghost use Rattle.std.specs.Prelude.{ℕ, ℤ, List, Result, Ok, Err, map, ◌≡◌, ◌∷◌, false, codes, IfErr, IfOk, IsErrOf};
ghost use Rattle.std.specs.String.{string_bytes};
ghost use Rattle.cal_bytes.specs.rules.Whole.{is_read_failed};
ghost use Rattle.cal_bytes.specs.declared.whole.WholeFault.{WholeFault};
ghost use Rattle.cal_timer.specs.rules.TimerEntries.{ReadsWhole, timer_file_limit};
ghost use Rattle.cal_bytes.specs.rules.Writes.{Writes};
ghost use Rattle.cal_bytes.specs.rules.Puts.{Puts};
ghost use Rattle.cal_bytes.specs.rules.Bytes.{joined};
ghost use Rattle.cal_report.specs.rules.Answer.{IsAnsweredBefore, error_line_in, error_line, later_text, status_in, reports_text, error_lines, texts_status};
ghost use Rattle.cal_report.specs.rules.BaseTime.{IsBase};
ghost use Rattle.cal_report.specs.rules.Context.{asked_by, asked_in};
ghost use Rattle.cal_report.specs.rules.RunReport.{ByReading, IsCut, IsReported, ReadsFile, base_in, file_report, secs_or_fault, texts_report, whole_report};
ghost use Rattle.cal_report.specs.rules.TextReport.{answer_by};
ghost use Rattle.cal_request.specs.rules.Verb.{is_timer, seeks_elapses};
ghost use Rattle.cal_request.specs.rules.RequestView.{asked};
ghost use Rattle.cal_report.specs.rules.TimerReport.{error_line_at, timer_answer};
ghost use Rattle.cal_request.specs.rules.Status.{is_out_failed, is_err_failed};
ghost use Rattle.cal_request.specs.declared.request.RunFault.TheVariants.{NoMemory};
ghost use Rattle.cal_request.specs.declared.request.Status.TheVariants.{Refused};

use crate::context::Context;
use crate::parsed::read_text;
use crate::text_fault::TextFault;
use crate::text_report::put_report;
use crate::timer_report::{TimerPlanFault, read_plan, write_timer};
use cal_bytes::{Sink, Source, WriteFault, put_pieces};
use cal_request::{Request, RequestKind, RunFault, Status, TextVerb};
use cal_stamp::{StampFault, read_stamp_in};
use cal_zone::{Instant, Setting, Zone, ZoneTable};
use itoa::Buffer;
use std::alloc::Global;

/// Runs a request (systemd-analyze(1)). Each valid text gets a report on `out`, and each invalid one an error line
/// on `err`. For the verb `timer`, the one text is the path of the timer file, and `input` is its content: the file
/// gets either a report or an error line. The other verbs don't read `input`.
///
/// The elapses shown are the first `iterations` after the base time. The request states the base time as a timestamp;
/// if it doesn't state one, the base time is `now`. If the base time is invalid, one error line is written to `err`,
/// and nothing else is done. An expression is evaluated in the zone of its zone suffix, or in the local zone if it has
/// no zone suffix. A zone that an expression names has to be in `table`, unless its name is `UTC`. Instants are printed
/// in the local zone, and also in UTC unless the local zone is [`Zone::utc`] itself.
///
/// Fails with [`RunFault::OutFailed`] if and only if `out` failed in this call, and with [`RunFault::ErrFailed`] if and
/// only if `err` did; each writer then has a prefix of what it should have received. Fails with [`RunFault::NoMemory`]
/// if allocation fails. All allocations for a text happen before the first byte of its report is written. So if
/// one of these allocations fails, the earlier texts are answered completely, and nothing is written for this
/// text and the later ones. Requests for timestamps and time spans allocate nothing.
#[tactic(auto, unfolding(crate::specs::rules::RunReport::report))]
pub fn run<R: Source, O: Sink, E: Sink>(
    alloc: Global,
    request: &Request,
    input: &mut R,
    now: Instant,
    local: Zone<'_>,
    table: &ZoneTable,
    out: &mut O,
    err: &mut E,
) -> Result<Status, RunFault>
    requires input { R.is_failed input.old ≡ false }
    requires out { O.is_failed out.old ≡ false }
    requires err { E.is_failed err.old ≡ false }
    ensures reported { ByReading (asked request.now now.secs local.entry table.now)
        (R.remaining input.old) (R.remaining input.new) (R.is_failed input.new)
        (IsReported result (O.written out.old) (O.written out.new) (E.written err.old) (E.written err.new)) }
    ensures out_failed { O.is_failed out.new ≡ is_out_failed result }
    ensures err_failed { E.is_failed err.new ≡ is_err_failed result }
    ensures memory { seeks_elapses request.now.verb ≡ false → IsErrOf result NoMemory → ⊥ }
    ensures cut { IsErrOf result NoMemory → IsCut (asked request.now now.secs local.entry table.now)
        (O.written out.old) (O.written out.new) (E.written err.old) (E.written err.new) }
    ensures input { is_timer request.now.verb ≡ false → input.new ≡ input.old }
    ensures unread { ((base : ℤ) → IsBase (asked request.now now.secs local.entry table.now) base → ⊥) → input.new ≡ input.old }
    ensures sure { R.may_fail input.old ≡ false → R.is_failed input.new ≡ false }
{
    let setting = Setting {
        now,
        local,
        zones: table,
    };
    match request.kind() {
        RequestKind::Texts { verb, texts } => {
            run_texts(alloc, request, verb, texts, setting, out, err)
        }
        RequestKind::Timer { path } => run_timer(alloc, request, path, setting, input, out, err),
    }
}

/// Answers `texts` as [`run`] does, with the base time and the number of elapses that `request` states.
pub fn run_texts<O: Sink, E: Sink>(
    alloc: Global,
    request: &Request,
    verb: TextVerb,
    texts: &[String],
    setting: Setting<'_>,
    out: &mut O,
    err: &mut E,
) -> Result<Status, RunFault>
    requires out { O.is_failed out.old ≡ false }
    requires err { E.is_failed err.old ≡ false }
    ensures status { IfOk result (λ status. status ≡ (texts_report (asked_in request.now setting.entry) verb (map string_bytes texts.now)).status) }
    ensures out { Writes (O.written out.old) (O.written out.new) result
        (texts_report (asked_in request.now setting.entry) verb (map string_bytes texts.now)).out }
    ensures err { Writes (E.written err.old) (E.written err.new) result
        (texts_report (asked_in request.now setting.entry) verb (map string_bytes texts.now)).err }
    ensures out_failed { O.is_failed out.new ≡ is_out_failed result }
    ensures err_failed { E.is_failed err.new ≡ is_err_failed result }
    ensures memory { IsErrOf result NoMemory → verb ≡ TextVerb.Calendar }
    ensures cut { IsErrOf result NoMemory → (base : ℤ) × (base_in (asked_in request.now setting.entry) ≡ Ok base)
        × IsAnsweredBefore (answer_by verb (asked_in request.now setting.entry) base) (map string_bytes texts.now)
        (O.written out.old) (O.written out.new) (E.written err.old) (E.written err.new) }
{
    match read_base(request, setting) {
        Ok(base) => {
            let context = Context {
                request,
                base,
                setting,
            };
            answer_all(alloc, context, verb, texts, out, err)
        }
        Err(fault) => report_error(err, "--base-time", None, fault.words()),
    }
}

/// Answers the timer file with the path `path` and the content `input` as [`run`] does, with the base time and the
/// number of elapses that `request` states.
pub fn run_timer<R: Source, O: Sink, E: Sink>(
    alloc: Global,
    request: &Request,
    path: &str,
    setting: Setting<'_>,
    input: &mut R,
    out: &mut O,
    err: &mut E,
) -> Result<Status, RunFault>
    requires input { R.is_failed input.old ≡ false }
    requires out { O.is_failed out.old ≡ false }
    requires err { E.is_failed err.old ≡ false }
    ensures reported { (read : Result (List ℕ) WholeFault)
        × ReadsFile (base_in (asked_in request.now setting.entry)) (R.remaining input.old) (R.remaining input.new) read
        × (R.is_failed input.new ≡ is_read_failed read)
        × IsReported result (O.written out.old) (O.written out.new) (E.written err.old) (E.written err.new) read
        (file_report (asked_in request.now setting.entry) path.now read) }
    ensures sure { R.may_fail input.old ≡ false → R.is_failed input.new ≡ false }
    ensures out_failed { O.is_failed out.new ≡ is_out_failed result }
    ensures err_failed { E.is_failed err.new ≡ is_err_failed result }
    ensures cut { IsErrOf result NoMemory → (base : ℤ) × (base_in (asked_in request.now setting.entry) ≡ Ok base)
        × (O.written out.new ≡ O.written out.old) × (E.written err.new ≡ E.written err.old) }
    ensures unread { IfErr (base_in (asked_in request.now setting.entry)) (λ _. input.new ≡ input.old) }
{
    match read_base(request, setting) {
        Ok(base) => {
            let context = Context {
                request,
                base,
                setting,
            };
            answer_timer(alloc, context, path, input, out, err)
        }
        Err(fault) => report_error(err, "--base-time", None, fault.words()),
    }
}

/// Parses the base time of the request. Returns the present if the request doesn't have one.
#[tactic(auto, unfolding(crate::specs::rules::RunReport::base_in, crate::specs::rules::TextReport::TimestampReport::stamp_in))]
fn read_base(request: &Request, setting: Setting<'_>) -> Result<Instant, StampFault>
    ensures { secs_or_fault result ≡ base_in (asked_in request.now setting.entry) }
{
    let Some(text) = &request.base else {
        return Ok(setting.now);
    };
    let moment = read_stamp_in(text.as_str(), setting)?;
    Ok(moment.instant())
}

/// Writes the report or the error line of each text, in order. Stops at the first text for which allocation or
/// a write fails.
fn answer_all<O: Sink, E: Sink>(
    alloc: Global,
    context: Context<'_>,
    verb: TextVerb,
    texts: &[String],
    out: &mut O,
    err: &mut E,
) -> Result<Status, RunFault>
    requires out { O.is_failed out.old ≡ false }
    requires err { E.is_failed err.old ≡ false }
    ensures status { let answer = answer_by verb (asked_by context.entry) context.entry.base.secs in
        IfOk result (λ status. status ≡ texts_status answer (map string_bytes texts.now)) }
    ensures out { let answer = answer_by verb (asked_by context.entry) context.entry.base.secs in
        Writes (O.written out.old) (O.written out.new) result (reports_text answer (map string_bytes texts.now)) }
    ensures err { let answer = answer_by verb (asked_by context.entry) context.entry.base.secs in
        Writes (E.written err.old) (E.written err.new) result (error_lines answer (map string_bytes texts.now)) }
    ensures out_failed { O.is_failed out.new ≡ is_out_failed result }
    ensures err_failed { E.is_failed err.new ≡ is_err_failed result }
    ensures memory { IsErrOf result NoMemory → verb ≡ TextVerb.Calendar }
    ensures cut { let answer = answer_by verb (asked_by context.entry) context.entry.base.secs in
        IsErrOf result NoMemory → IsAnsweredBefore answer (map string_bytes texts.now)
        (O.written out.old) (O.written out.new) (E.written err.old) (E.written err.new) }
{
    let mut status = Status::Fine;
    let mut follows_report = false;
    for text in texts {
        let answered = answer_one(
            alloc,
            context,
            verb,
            text.as_str(),
            follows_report,
            out,
            err,
        )?;
        follows_report |= answered.is_fine();
        status = status.and(answered);
    }
    Ok(status)
}

/// Writes the report of one text, or its error line if it is invalid. `follows_report` says whether `out` already
/// has a report; if so, an empty line is written before the new report.
fn answer_one<O: Sink, E: Sink>(
    alloc: Global,
    context: Context<'_>,
    verb: TextVerb,
    text: &str,
    follows_report: bool,
    out: &mut O,
    err: &mut E,
) -> Result<Status, RunFault>
    requires out { O.is_failed out.old ≡ false }
    requires err { E.is_failed err.old ≡ false }
    ensures status { IfOk result (λ status. status ≡ status_in (answer_by verb (asked_by context.entry) context.entry.base.secs text.now)) }
    ensures out { Writes (O.written out.old) (O.written out.new) result
        (later_text follows_report (answer_by verb (asked_by context.entry) context.entry.base.secs text.now)) }
    ensures err { Writes (E.written err.old) (E.written err.new) result
        (error_line_in text.now (answer_by verb (asked_by context.entry) context.entry.base.secs text.now)) }
    ensures out_failed { O.is_failed out.new ≡ is_out_failed result }
    ensures err_failed { E.is_failed err.new ≡ is_err_failed result }
    ensures memory { IsErrOf result NoMemory → verb ≡ TextVerb.Calendar }
    ensures unwritten { IsErrOf result NoMemory
        → (O.written out.new ≡ O.written out.old) × (E.written err.new ≡ E.written err.old) }
{
    match read_text(alloc, context, verb, text) {
        Ok(parsed) => match put_report(out, follows_report, context, text, parsed) {
            Ok(()) => Ok(Status::Fine),
            Err(WriteFault::Failed) => Err(RunFault::OutFailed),
        },
        Err(TextFault::NoMemory) => Err(RunFault::NoMemory),
        Err(fault) => report_error(err, text, None, fault.words()),
    }
}

/// Writes the report of a timer file, or an error line if the file is rejected.
fn answer_timer<R: Source, O: Sink, E: Sink>(
    alloc: Global,
    context: Context<'_>,
    path: &str,
    input: &mut R,
    out: &mut O,
    err: &mut E,
) -> Result<Status, RunFault>
    requires input { R.is_failed input.old ≡ false }
    requires out { O.is_failed out.old ≡ false }
    requires err { E.is_failed err.old ≡ false }
    ensures reported { (read : Result (List ℕ) WholeFault)
        × ReadsWhole (R.remaining input.old) (R.remaining input.new) timer_file_limit read
        × (R.is_failed input.new ≡ is_read_failed read)
        × IsReported result (O.written out.old) (O.written out.new) (E.written err.old) (E.written err.new) read
        (whole_report (timer_answer (asked_by context.entry) context.entry.base.secs path.now read)) }
    ensures sure { R.may_fail input.old ≡ false → R.is_failed input.new ≡ false }
    ensures out_failed { O.is_failed out.new ≡ is_out_failed result }
    ensures err_failed { E.is_failed err.new ≡ is_err_failed result }
    ensures unwritten { IsErrOf result NoMemory
        → (O.written out.new ≡ O.written out.old) × (E.written err.new ≡ E.written err.old) }
{
    match read_plan(alloc, context, input) {
        Ok(plan) => match write_timer(out, context, plan) {
            Ok(()) => Ok(Status::Fine),
            Err(WriteFault::Failed) => Err(RunFault::OutFailed),
        },
        Err(TimerPlanFault::NoMemory) => Err(RunFault::NoMemory),
        Err(fault) => report_error(err, path, fault.line(), fault.words()),
    }
}

/// Writes an error line that begins with `text`, which is the rejected text, the path of the timer file, or
/// `--base-time`. `line` is the number of the invalid line of the file, if the error concerns one line. Returns
/// [`Status::Refused`] if the error line could be written.
fn report_error<E: Sink>(
    err: &mut E,
    text: &str,
    line: Option<u32>,
    message: &str,
) -> Result<Status, RunFault>
    requires { E.is_failed err.old ≡ false }
    ensures status { IfOk result (λ status. status ≡ Refused) }
    ensures err { Writes (E.written err.old) (E.written err.new) result (error_line_at text.now line message.now) }
    ensures err_failed { E.is_failed err.new ≡ is_err_failed result }
    ensures out_failed { is_out_failed result ≡ false }
    ensures memory { IsErrOf result NoMemory → ⊥ }
{
    match put_error_line(err, text, line, message) {
        Ok(()) => Ok(Status::Refused),
        Err(WriteFault::Failed) => Err(RunFault::ErrFailed),
    }
}

/// Writes an error line: `TEXT: MESSAGE`, or `TEXT:LINE: MESSAGE` if there is a line number.
#[tactic(auto, unfolding(crate::specs::rules::TimerReport::error_line_at))]
fn put_error_line<W: Sink>(
    err: &mut W,
    text: &str,
    line: Option<u32>,
    message: &str,
) -> Result<(), WriteFault>
    requires { W.is_failed err.old ≡ false }
    ensures { Puts W.Sink err.old err.new result (error_line_at text.now line message.now) }
{
    let Some(line) = line else {
        return put_pieces(err, &[text.as_bytes(), b": ", message.as_bytes(), b"\n"]);
    };
    let mut buffer = Buffer::new();
    let number = buffer.format(line);
    put_pieces(
        err,
        &[
            text.as_bytes(),
            b":",
            number.as_bytes(),
            b": ",
            message.as_bytes(),
            b"\n",
        ],
    )
}
