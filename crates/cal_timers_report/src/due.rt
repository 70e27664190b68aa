//! The report of `due`: whether the run of a service is due.

ghost use Rattle.std.specs.Prelude.{◌≡◌, ◌++◌, IfOk, OnOk, option_map, string_bytes};
ghost use Rattle.cal_timers_report.specs.rules.DueText.{due_line, line_of, reason_text, unit_prefix};
ghost use Rattle.cal_timers_report.specs.rules.ReportView.{due_seen, elapse_of, is_due, verdict_seen};

use crate::cells::push_printable;
use crate::times::push_instant;
use cal_zone::{Instant, InstantFormatter, Zone};
use std::alloc::{AllocError, Global};

/// The report of `due`: the timer that it is about, if there is one, and whether the run is due.
#[derive(Clone, Copy)]
pub struct DueReport<'a> {
    /// The name of the timer. `None` if none is named, and `$TRIGGER_UNIT` names none.
    pub unit: Option<&'a str>,
    pub verdict: DueVerdict,
}

/// Whether the run is due.
#[derive(Clone, Copy)]
pub enum DueVerdict {
    /// The run is due: it is about no timer, so the service was started by hand or by another unit.
    ByHand,
    /// The run is due. The instant is the last elapse of the timer's expressions, if there is one.
    Due(Option<Instant>),
    /// The run is due: an exception elapses at this instant, the last elapse of the timer's expressions, but the run may
    /// make up for an earlier elapse.
    CatchesUp(Instant),
    /// The run isn't due: an exception elapses at this instant, the last elapse of the timer's expressions.
    Excepted(Instant),
}

impl DueVerdict {
    /// Returns whether the run is due. A run that is about no timer is always due.
    pub(crate) fn is_due(self) -> bool
        ensures { result ≡ is_due (verdict_seen self) }
    {
        match self {
            DueVerdict::ByHand | DueVerdict::Due(_) | DueVerdict::CatchesUp(_) => true,
            DueVerdict::Excepted(_) => false,
        }
    }

    /// Returns the last elapse of the timer's expressions, if there is one.
    pub(crate) fn elapse(self) -> Option<Instant>
        ensures { option_map (λ instant. instant.secs) result ≡ elapse_of (verdict_seen self) }
    {
        match self {
            DueVerdict::ByHand => None,
            DueVerdict::Due(last) => last,
            DueVerdict::CatchesUp(last) | DueVerdict::Excepted(last) => Some(last),
        }
    }
}

/// Returns a line that says why the run isn't due, or that it may make up for an earlier elapse. Returns an empty text
/// for any other run.
pub fn due_text(alloc: Global, zone: Zone<'_>, report: &DueReport<'_>) -> Result<String, AllocError>
    ensures { IfOk result (λ text. string_bytes text ≡ due_line zone.entry (due_seen report.now)) }
{
    match report.verdict {
        DueVerdict::ByHand | DueVerdict::Due(_) => Ok(String::new(alloc)),
        DueVerdict::CatchesUp(last) => line_of(
            alloc,
            zone,
            report.unit,
            "due: ",
            last,
            ", but this may be the run of an earlier elapse",
        ),
        DueVerdict::Excepted(last) => line_of(alloc, zone, report.unit, "not due: ", last, ""),
    }
}

/// Returns a line about a run whose last elapse is an exception. The instant is printed as clocks in the zone show it.
fn line_of(
    alloc: Global,
    zone: Zone<'_>,
    unit: Option<&str>,
    verdict: &str,
    last: Instant,
    remark: &str,
) -> Result<String, AllocError>
    ensures { IfOk result (λ text. string_bytes text
        ≡ line_of zone.entry (option_map (λ name. name.now) unit.entry) verdict.now last.secs remark.now) }
{
    let mut out = String::new(alloc);
    push_unit(&mut out, unit)?;
    out.push_str(verdict)?;
    push_reason(&mut out, zone, last)?;
    out.push_str(remark)?;
    out.push('\n')?;
    Ok(out)
}

/// Appends the name of the timer and a colon, if there is a timer.
fn push_unit(out: &mut String, unit: Option<&str>) -> Result<(), AllocError>
    ensures { OnOk result (string_bytes out.new
        ≡ string_bytes out.old ++ unit_prefix (option_map (λ name. name.now) unit.entry)) }
{
    let Some(name) = unit else {
        return Ok(());
    };
    push_printable(out, name)?;
    out.push_str(": ")
}

fn push_reason(out: &mut String, zone: Zone<'_>, last: Instant) -> Result<(), AllocError>
    ensures { OnOk result (string_bytes out.new ≡ string_bytes out.old ++ reason_text zone.entry last.secs) }
{
    let mut formatter = InstantFormatter::new(zone);
    push_instant(out, &mut formatter, last)?;
    out.push_str(" is an exception")?;
    Ok(())
}
