//! Local times that clock changes skip or repeat, as lines of the report of `show` and `next`.

ghost use Rattle.std.specs.Prelude.{◌≡◌, ◌++◌, ◌-◌, OnOk, codes, decimal, length, map, replicate, string_bytes};
ghost use Rattle.cal_zone.specs.rules.InstantText.{date_text};
ghost use Rattle.cal_timers_report.specs.rules.ReportView.{clock_time_seen};
ghost use Rattle.cal_timers_report.specs.rules.ShowText.{
  change_end,
  change_text,
  civil_time,
  clock_line,
  clock_lines,
  clock_text,
  far_change_text,
  far_clock_text,
  labeled,
  lines_under,
  zone_suffix,
};

use crate::cells::{LABEL_WIDTH, push_padded, push_printable};
use crate::report::ClockTime;
use cal_zone::{Civil, Instant, Zone, civil};
use itoa::Buffer;
use std::alloc::AllocError;

/// Appends a line for each of these local times, and a line that says that there are more of them if `has_more` is
/// `true`.
#[tactic(auto, unfolding(crate::specs::rules::ShowText::clock_lines))]
pub(crate) fn push_clock(
    out: &mut String,
    clock: &[ClockTime<'_>],
    has_more: bool,
) -> Result<(), AllocError>
    ensures { OnOk result (string_bytes out.new
        ≡ string_bytes out.old ++ clock_lines (map clock_time_seen clock.now) has_more) }
{
    push_times(out, clock)?;
    if !has_more {
        return Ok(());
    }
    let label = if clock.is_empty() { "  Clock:" } else { "" };
    push_padded(out, label, LABEL_WIDTH)?;
    out.push_str("and more\n")
}

fn push_times(out: &mut String, clock: &[ClockTime<'_>]) -> Result<(), AllocError>
    ensures { OnOk result (string_bytes out.new
        ≡ string_bytes out.old ++ lines_under (codes "  Clock:") clock_line (map clock_time_seen clock.now)) }
{
    let Some((first, others)) = clock.split_first() else {
        return Ok(());
    };
    push_labeled(out, "  Clock:", first)?;
    for time in others {
        push_labeled(out, "", time)?;
    }
    Ok(())
}

fn push_labeled(out: &mut String, label: &str, time: &ClockTime<'_>) -> Result<(), AllocError>
    ensures { OnOk result (string_bytes out.new
        ≡ string_bytes out.old ++ labeled label.now (clock_line (clock_time_seen time.now))) }
{
    push_padded(out, label, LABEL_WIDTH)?;
    push_line(out, time)
}

/// Appends a line that says what a clock change does to a local time. The local time is converted to a date and a time
/// as if it were in UTC, since a skipped local time has no instant in its own zone.
fn push_line(out: &mut String, time: &ClockTime<'_>) -> Result<(), AllocError>
    ensures { OnOk result (string_bytes out.new ≡ string_bytes out.old ++ clock_line (clock_time_seen time.now)) }
{
    if time.local < 0 || Instant::LAST < time.local {
        return push_far(out, time);
    }
    let Some(instant) = Instant::new(time.local) else {
        unreachable!()
    };
    push_near(out, time, &civil(Zone::utc(), instant))
}

/// Appends the line about a local time whose date can't be printed.
#[tactic(auto, unfolding(crate::specs::rules::ShowText::far_clock_text))]
fn push_far(out: &mut String, time: &ClockTime<'_>) -> Result<(), AllocError>
    ensures { OnOk result (string_bytes out.new ≡ string_bytes out.old ++ far_clock_text (clock_time_seen time.now)) }
{
    out.push_str("a time out of range")?;
    push_zone_name(out, time)?;
    push_far_change(out, time.is_skipped)
}

#[tactic(auto, unfolding(crate::specs::rules::ShowText::far_change_text))]
fn push_far_change(out: &mut String, is_skipped: bool) -> Result<(), AllocError>
    ensures { OnOk result (string_bytes out.new ≡ string_bytes out.old ++ far_change_text is_skipped) }
{
    if is_skipped {
        out.push_str(" is skipped\n")
    } else {
        out.push_str(" occurs twice; the first counts\n")
    }
}

/// Appends the line about a local time that is shown as this date and time of day.
#[tactic(auto, unfolding(crate::specs::rules::ShowText::clock_text))]
fn push_near(out: &mut String, time: &ClockTime<'_>, shown: &Civil) -> Result<(), AllocError>
    ensures { OnOk result (string_bytes out.new
        ≡ string_bytes out.old ++ clock_text (clock_time_seen time.now) shown.now) }
{
    push_time(out, shown)?;
    push_zone_name(out, time)?;
    push_change(out, time.is_skipped)?;
    push_date(out, shown)?;
    push_change_end(out, time.is_skipped)
}

#[tactic(auto, unfolding(crate::specs::rules::ShowText::change_text))]
fn push_change(out: &mut String, is_skipped: bool) -> Result<(), AllocError>
    ensures { OnOk result (string_bytes out.new ≡ string_bytes out.old ++ change_text is_skipped) }
{
    if is_skipped {
        out.push_str(" is skipped on ")
    } else {
        out.push_str(" occurs twice on ")
    }
}

#[tactic(auto, unfolding(crate::specs::rules::ShowText::change_end))]
fn push_change_end(out: &mut String, is_skipped: bool) -> Result<(), AllocError>
    ensures { OnOk result (string_bytes out.new ≡ string_bytes out.old ++ change_end is_skipped) }
{
    if is_skipped {
        out.push_str("\n")
    } else {
        out.push_str("; the first counts\n")
    }
}

/// Appends a blank and the name of the zone of a local time. For the local zone, appends nothing.
fn push_zone_name(out: &mut String, time: &ClockTime<'_>) -> Result<(), AllocError>
    ensures { OnOk result (string_bytes out.new
        ≡ string_bytes out.old ++ zone_suffix (clock_time_seen time.now).zone) }
{
    let Some(name) = time.zone else {
        return Ok(());
    };
    out.push(' ')?;
    push_printable(out, name)
}

#[tactic(auto, unfolding(cal_zone::specs::rules::InstantText::time_text))]
fn push_time(out: &mut String, shown: &Civil) -> Result<(), AllocError>
    ensures { OnOk result (string_bytes out.new ≡ string_bytes out.old ++ civil_time shown.now) }
{
    push_number(out, 2, u64::from(shown.hour))?;
    out.push(':')?;
    push_number(out, 2, u64::from(shown.minute))?;
    out.push(':')?;
    push_number(out, 2, u64::from(shown.second))
}

#[tactic(auto, unfolding(cal_zone::specs::rules::InstantText::date_text))]
fn push_date(out: &mut String, shown: &Civil) -> Result<(), AllocError>
    ensures { OnOk result (string_bytes out.new ≡ string_bytes out.old ++ date_text shown.now) }
{
    push_number(out, 4, u64::from(shown.year.unsigned_abs()))?;
    out.push('-')?;
    push_number(out, 2, u64::from(shown.month))?;
    out.push('-')?;
    push_number(out, 2, u64::from(shown.day))
}

/// Appends a number with leading zeros, so that it has at least `width` digits.
fn push_number(out: &mut String, width: usize, number: u64) -> Result<(), AllocError>
    ensures { OnOk result (string_bytes out.new
        ≡ string_bytes out.old ++ (replicate (width - length (decimal number)) 48 ++ decimal number)) }
{
    let mut buffer = Buffer::new();
    let digits = buffer.format(number);
    push_zeros(out, width.saturating_sub(digits.len()))?;
    out.push_str(digits)
}

fn push_zeros(out: &mut String, count: usize) -> Result<(), AllocError>
    ensures { OnOk result (string_bytes out.new ≡ string_bytes out.old ++ replicate count 48) }
{
    for _ in 0..count {
        out.push('0')?;
    }
    Ok(())
}
