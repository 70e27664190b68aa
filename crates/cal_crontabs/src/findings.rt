//! What the author of a crontab should know about its entries: errors, entries that never run, and entries that run on
//! days that match either of two fields.

ghost use Rattle.std.specs.Prelude.{◌≡◌, ◌++◌, ◌∷◌, [], IfOk, OnOk, map, string_bytes};
ghost use Rattle.std.specs.List.{flat_map};
ghost use Rattle.cal_cron.specs.computed.CrontabViews.{line_shown, time_shown};
ghost use Rattle.cal_cron.specs.computed.Translation.{exprs_in, shown_exprs};
ghost use Rattle.cal_crontabs.specs.rules.Crontabs.{shown_crontab};
ghost use Rattle.cal_crontabs.specs.rules.Findings.{ever_matches, ever_runs, finding_at, finding_message, finding_seen, findings_at, findings_in, findings_of, is_error, other_ever_matches, time_kinds};

use crate::crontabs::Crontab;
use crate::lines::lines_of;
use cal_cron::{CronExprs, CrontabLine, EntryFault, EntryTime, LineContent};
use cal_elapse::{Masks, next_local};
use cal_spec::Expr;
use std::alloc::{AllocError, Global};

/// Something that the author of a crontab should know about one of its entries.
#[derive(Drop)]
pub struct CronFinding<'t> {
    /// The path of the crontab, or the argument itself if lines are given as an argument.
    pub name: &'t str,
    /// The number of the line, from 1.
    pub line: u32,
    /// The number of the byte at which the error begins, from 1. For other findings, the byte at which the entry begins.
    pub column: u32,
    pub kind: CronFindingKind,
}

/// What the author of a crontab should know.
#[derive(Clone, Copy)]
pub enum CronFindingKind {
    /// The entry is invalid.
    Invalid(EntryFault),
    /// Cron runs the entry at no time in the years 1970 to 2199, as with `0 0 31 2 *`.
    NeverRuns,
    /// Neither the day of the month nor the weekday begins with `*`, so cron runs the entry on days that match either
    /// field. People usually mean days that match both.
    EitherDay,
}

impl CronFindingKind {
    /// Returns whether this is an error, and not only a warning.
    pub fn is_error(&self) -> bool
        ensures { result ≡ is_error self.now }
    {
        matches!(self, CronFindingKind::Invalid(_))
    }

    /// Appends the message for users. Fails only if allocation fails.
    pub fn push_words(&self, out: &mut String) -> Result<(), AllocError>
        ensures { OnOk result (string_bytes out.new ≡ string_bytes out.old ++ finding_message self.now) }
    {
        match self {
            CronFindingKind::Invalid(fault) => fault.push_words(out),
            CronFindingKind::NeverRuns => out.push_str("the entry never runs"),
            CronFindingKind::EitherDay => out.push_str(
                "the entry runs on days that match the day of the month, and on days that match the weekday",
            ),
        }
    }
}

/// Returns what the authors of these crontabs should know, in the order of the lines. Fails only if allocation fails.
pub fn cron_findings<'t>(
    alloc: Global,
    crontabs: &'t [Crontab],
) -> Result<Vec<CronFinding<'t>>, AllocError>
    ensures { IfOk result (λ found. map finding_seen found.items
        ≡ flat_map (findings_of exprs_in) (map shown_crontab crontabs.now)) }
{
    let mut found = Vec::new(alloc);
    for crontab in crontabs {
        push_crontab(alloc, &mut found, crontab)?;
    }
    Ok(found)
}

#[tactic(auto, unfolding(crate::specs::rules::Findings::findings_of))]
fn push_crontab<'t>(
    alloc: Global,
    found: &mut Vec<CronFinding<'t>>,
    crontab: &'t Crontab,
) -> Result<(), AllocError>
    ensures { OnOk result (map finding_seen found.new.items
        ≡ map finding_seen found.old.items ++ findings_of exprs_in (shown_crontab crontab.now)) }
{
    let lines = lines_of(alloc, crontab.format, crontab.text.as_str())?;
    push_lines(found, crontab.name.as_str(), lines.as_slice())
}

fn push_lines<'t>(
    found: &mut Vec<CronFinding<'t>>,
    name: &'t str,
    lines: &[CrontabLine<'_>],
) -> Result<(), AllocError>
    ensures { OnOk result (map finding_seen found.new.items
        ≡ map finding_seen found.old.items ++ findings_in name.now (map line_shown lines.now)) }
{
    for line in lines {
        push_line(found, name, line)?;
    }
    Ok(())
}

fn push_line<'t>(
    found: &mut Vec<CronFinding<'t>>,
    name: &'t str,
    line: &CrontabLine<'_>,
) -> Result<(), AllocError>
    ensures { OnOk result (map finding_seen found.new.items
        ≡ map finding_seen found.old.items ++ findings_at name.now (line_shown line.now)) }
{
    match &line.content {
        LineContent::Assignment(_) => Ok(()),
        LineContent::Entry(entry) => {
            push_entry(found, name, line.number, line.column, &entry.time)
        }
        LineContent::Invalid(fault) => push(
            found,
            name,
            line.number,
            fault.column,
            CronFindingKind::Invalid(fault.fault),
        ),
    }
}

fn push_entry<'t>(
    found: &mut Vec<CronFinding<'t>>,
    name: &'t str,
    line: u32,
    column: u32,
    time: &EntryTime,
) -> Result<(), AllocError>
    ensures { OnOk result (map finding_seen found.new.items
        ≡ map finding_seen found.old.items ++ map (finding_at name.now line column) (time_kinds (time_shown time.now))) }
{
    match time {
        EntryTime::Reboot => Ok(()),
        EntryTime::Times(exprs) => {
            if !ever_runs(exprs) {
                push(found, name, line, column, CronFindingKind::NeverRuns)?;
            }
            if exprs.other.is_some() {
                push(found, name, line, column, CronFindingKind::EitherDay)?;
            }
            Ok(())
        }
    }
}

fn push<'t>(
    found: &mut Vec<CronFinding<'t>>,
    name: &'t str,
    line: u32,
    column: u32,
    kind: CronFindingKind,
) -> Result<(), AllocError>
    ensures { OnOk result (map finding_seen found.new.items
        ≡ map finding_seen found.old.items ++ finding_at name.now line column kind ∷ []) }
{
    found.push(CronFinding {
        name,
        line,
        column,
        kind,
    })?;
    Ok(())
}

/// Returns whether one of the expressions matches a local second of the years 1970 to 2199.
#[tactic(auto, using(crate::proofs::FindingLemmas::ever_is))]
fn ever_runs(exprs: &CronExprs) -> bool
    ensures { result ≡ ever_runs (shown_exprs exprs.now) }
{
    ever_matches(&exprs.first) || other_ever_matches(&exprs.other)
}

fn other_ever_matches(other: &Option<Expr>) -> bool
    ensures { result ≡ other_ever_matches other.now }
{
    match other {
        Some(expr) => ever_matches(expr),
        None => false,
    }
}

#[tactic(auto, using(crate::proofs::FindingLemmas::search_is))]
fn ever_matches(expr: &Expr) -> bool
    ensures { result ≡ ever_matches expr.now }
{
    next_local(&Masks::of(expr), 0).local.is_some()
}
