//! The report of a timer file: its expressions, its exceptions, and the next elapses of the timer, each with its
//! distance from the present (systemd.timer(5), OnCalendar=).

ghost use Rattle.std.specs.Prelude.{◌≡◌, ◌≢◌, ℕ, List, Result, Ok, Err, MatchResult, false, map};
ghost use Rattle.cal_bytes.specs.rules.Puts.{Puts};
ghost use Rattle.cal_bytes.specs.rules.Whole.{is_read_failed};
ghost use Rattle.cal_bytes.specs.declared.whole.WholeFault.{WholeFault};
ghost use Rattle.cal_timer.specs.rules.TimerEntries.{ReadsWhole, timer_file_limit};
ghost use Rattle.cal_timer.specs.rules.TimerView.{shown};
ghost use Rattle.cal_report.specs.rules.Context.{asked_by};
ghost use Rattle.cal_report.specs.rules.TimerReport.{HadMemory, headings_text, lists_text, error_line_at, timer_answer};
ghost use Rattle.cal_report.specs.computed.TimerPlan.{plan_text, plan_fault_line, plan_fault_message};
ghost use Rattle.cal_report.specs.declared.timer_report.TimerPlanFault.TheVariants.{NoMemory};

use crate::context::Context;
use crate::elapse_lines::put_elapses;
use crate::report_lines::{EXCEPT_LABEL, ORIGINAL_LABEL, put_heading};
use cal_bytes::{Sink, Source, WriteFault};
use cal_elapse::{Elapses, Merge};
use cal_plan::{Instants, PlanFault, merge_of};
use cal_timer::{Timer, TimerFault, TimerLine, read_timer};
use std::alloc::Global;

/// A parsed timer file, together with the source of the timer's elapses. These are the elapses of the file's
/// expressions, except those that are also elapses of an exception.
#[derive(Drop)]
pub struct TimerPlan<'a> {
    timer: Timer,
    elapses: Instants<Merge<Elapses<'a>>>,
}

/// Why a timer file gets no report: it is rejected, or memory ran out.
#[derive(Clone, Copy, PartialEq, Eq)]
pub enum TimerPlanFault {
    /// Reading the file failed, the file is too large, or it isn't a valid timer file.
    Timer(TimerFault),
    /// The expression or exception on the line with this number (counted from 1) names a zone that is neither `UTC` nor
    /// in the zone table.
    NoSuchZone(u32),
    /// Allocation failed.
    NoMemory,
}

impl TimerPlanFault {
    /// Returns the message to report, which is empty for [`TimerPlanFault::NoMemory`]: the caller handles that case.
    pub fn words(&self) -> &str
        ensures { result.now ≡ plan_fault_message self.now }
    {
        match self {
            TimerPlanFault::Timer(fault) => fault.words(),
            TimerPlanFault::NoSuchZone(_) => "no such zone",
            TimerPlanFault::NoMemory => "",
        }
    }

    /// Returns the number of the invalid line, if the error concerns one line.
    pub fn line(&self) -> Option<u32>
        ensures { result ≡ plan_fault_line self.now }
    {
        match self {
            TimerPlanFault::Timer(fault) => fault.line(),
            TimerPlanFault::NoSuchZone(line) => Some(*line),
            TimerPlanFault::NoMemory => None,
        }
    }
}

/// Reads a timer file, which may have at most 1,048,576 bytes, to its end and parses it. Everything that the report
/// needs is allocated here, so that writing the report cannot run out of memory.
#[tactic(auto, unfolding(crate::specs::rules::TimerReport::timer_answer))]
pub fn read_plan<'a, R: Source>(
    alloc: Global,
    context: Context<'a>,
    input: &mut R,
) -> Result<TimerPlan<'a>, TimerPlanFault>
    requires { R.is_failed input.old ≡ false }
    ensures sure { R.may_fail input.old ≡ false → R.is_failed input.new ≡ false }
    ensures plan { (read : Result (List ℕ) WholeFault)
        × ReadsWhole (R.remaining input.old) (R.remaining input.new) timer_file_limit read
        × (R.is_failed input.new ≡ is_read_failed read)
        × MatchResult result
        (λ plan. HadMemory read × ((name : List ℕ)
        → timer_answer (asked_by context.entry) context.entry.base.secs name read ≡ Ok (plan_text (asked_by context.entry) plan)))
        (λ fault. fault ≢ NoMemory → HadMemory read × ((name : List ℕ)
        → timer_answer (asked_by context.entry) context.entry.base.secs name read ≡ Err (error_line_at name (plan_fault_line fault) (plan_fault_message fault)))) }
{
    let timer = match read_timer(alloc, input) {
        Ok(timer) => timer,
        Err(TimerFault::NoMemory) => return Err(TimerPlanFault::NoMemory),
        Err(fault) => return Err(TimerPlanFault::Timer(fault)),
    };
    let lines = timer.lines();
    let exceptions = timer.exceptions();
    match merge_of(alloc, context.setting, context.base, lines, exceptions) {
        Ok(merge) => Ok(TimerPlan {
            timer,
            elapses: Instants::new(merge),
        }),
        Err(PlanFault::NoSuchZone(line)) => Err(TimerPlanFault::NoSuchZone(line)),
        Err(PlanFault::NoMemory) => Err(TimerPlanFault::NoMemory),
    }
}

/// Writes the report of a timer file: its expressions, its exceptions and its next elapses, at most
/// `context.request.iterations` of them.
#[tactic(auto, using(cal_bytes::proofs::PutLemmas::puts))]
pub fn write_timer<W: Sink>(
    out: &mut W,
    context: Context<'_>,
    plan: TimerPlan<'_>,
) -> Result<(), WriteFault>
    requires { W.is_failed out.old ≡ false }
    ensures { Puts W.Sink out.old out.new result (plan_text (asked_by context.entry) plan.entry) }
{
    let TimerPlan { timer, mut elapses } = plan;
    put_lists(out, &timer)?;
    put_elapses(
        out,
        &mut elapses,
        context.request.iterations,
        context.setting.local,
        context.setting.now,
    )
}

/// Writes the headings of the expressions, followed by the headings of the exceptions.
#[tactic(auto, using(cal_bytes::proofs::PutLemmas::puts))]
fn put_lists<W: Sink>(out: &mut W, timer: &Timer) -> Result<(), WriteFault>
    requires { W.is_failed out.old ≡ false }
    ensures { Puts W.Sink out.old out.new result (lists_text timer.now) }
{
    put_headings(out, ORIGINAL_LABEL, timer.lines())?;
    put_headings(out, EXCEPT_LABEL, timer.exceptions())
}

/// Writes the heading of each line: `label` with the expression as it is written in the file, and its normal form.
fn put_headings<W: Sink>(out: &mut W, label: &[u8], lines: &[TimerLine]) -> Result<(), WriteFault>
    requires { W.is_failed out.old ≡ false }
    ensures { Puts W.Sink out.old out.new result (headings_text label.now (map shown lines.now)) }
{
    for line in lines {
        put_heading(out, label, line.text.as_str(), &line.expr)?;
    }
    Ok(())
}
