//! The report of `same`: the instants at which only one of two timers elapses, the settings that only one has, and the
//! expressions that entries of crontabs were read as.

ghost use Rattle.std.specs.Prelude.{◌≡◌, IfOk, map, string_bytes};
ghost use Rattle.std.specs.List.{list_any};
ghost use Rattle.std.specs.Str.{bytes_eq};
ghost use Rattle.cal_timers_report.specs.rules.ReportView.{comparison_seen};
ghost use Rattle.cal_tasks.specs.rules.SameReport.{comparison_of, read_as, settings_only};

use crate::from_crontab::{expression_texts, is_from_crontab};
use crate::present::Present;
use crate::several::difference_of;
use cal_load::LoadedTimer;
use cal_timers_report::{Comparison, Side};
use std::alloc::{AllocError, Global};

/// Compares two timers: for each of them, the first instant after the present, through 2199, at which it elapses and
/// the other doesn't, and the settings that it has and the other doesn't. These are the settings that decide when the
/// timer starts a unit, and which unit that is, in the order of the files. They are compared as texts, so
/// `OnBootSec=60` and `OnBootSec=1min` differ.
///
/// The call takes longest if the timers elapse at the same instants: then it computes all their elapses through 2199,
/// once for each of the timers. Fails only if allocation fails.
pub fn compare<'a>(
    alloc: Global,
    at: Present<'_>,
    one: &'a LoadedTimer,
    other: &'a LoadedTimer,
) -> Result<Comparison<'a>, AllocError>
    ensures { IfOk result (λ found. comparison_seen found ≡ comparison_of at.entry one.now other.now) }
{
    let difference = difference_of(alloc, at, one, other)?;
    let settings = settings_only(alloc, one, other)?;
    let others = settings_only(alloc, other, one)?;
    Ok(Comparison {
        one: Side {
            unit: one.name.as_str(),
            read_as: read_as(alloc, one)?,
            only: difference.only_one,
            settings,
        },
        other: Side {
            unit: other.name.as_str(),
            read_as: read_as(alloc, other)?,
            only: difference.only_other,
            settings: others,
        },
    })
}

/// Returns the expressions of a timer that was made of an entry of a crontab. Returns nothing for any other timer.
fn read_as(alloc: Global, timer: &LoadedTimer) -> Result<Vec<&str>, AllocError>
    ensures { IfOk result (λ texts. map (λ text. text.now) texts.items ≡ read_as timer.now) }
{
    if is_from_crontab(alloc, timer)? {
        expression_texts(alloc, timer)
    } else {
        Ok(Vec::new(alloc))
    }
}

/// Returns the settings that `one` has and `other` doesn't.
fn settings_only<'a>(
    alloc: Global,
    one: &'a LoadedTimer,
    other: &LoadedTimer,
) -> Result<Vec<&'a str>, AllocError>
    ensures { IfOk result (λ settings. map (λ setting. setting.now) settings.items ≡ settings_only one.now other.now) }
{
    let mut settings: Vec<&'a str> = Vec::new(alloc);
    for setting in &one.notes {
        if !has_setting(&other.notes, setting.as_str()) {
            settings.push(setting.as_str())?;
        }
    }
    Ok(settings)
}

fn has_setting(settings: &[String], setting: &str) -> bool
    ensures { result ≡ list_any (bytes_eq setting.now) (map string_bytes settings.now) }
{
    for other in settings {
        if setting == other.as_str() {
            return true;
        }
    }
    false
}
