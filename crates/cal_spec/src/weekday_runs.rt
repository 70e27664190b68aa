//! Printing of weekdays, as in `Mon..Thu,Sat,Sun`.
//!
//! A run is a maximal range of consecutive weekdays that match.

ghost use Rattle.std.specs.Prelude.{◌≡◌, ◌+◌, ◌<◌, ◌≤◌, [], ◌∷◌, codes, drop, false, length};
ghost use Rattle.std.specs.List.{list_all, prefix_len};
ghost use Rattle.cal_bytes.specs.rules.Puts.{Puts};
ghost use Rattle.cal_bytes.specs.rules.Bytes.{joined};
ghost use Rattle.cal_spec.specs.rules.WeekdayRuns.{day_name, run_text, runs_from, runs_text, weekdays_text};

use cal_bytes::{Sink, WriteFault, put_all, put_pieces};
use cal_civil::{WEEK, short_weekday_name};

/// Writes the weekdays that match and a space after them, or nothing if all seven match.
#[tactic(auto, using(cal_bytes::proofs::PutLemmas::puts), unfolding(crate::specs::rules::WeekdayRuns::weekdays_text))]
pub fn put_weekdays<W: Sink>(out: &mut W, days: &[bool; 7]) -> Result<(), WriteFault>
    requires { W.is_failed out.old ≡ false }
    ensures { Puts W.Sink out.old out.new result (weekdays_text days.now) }
{
    if are_all(days) {
        return Ok(());
    }
    put_runs(out, days)?;
    put_all(out, b" ")
}

fn are_all(days: &[bool]) -> bool
    ensures { result ≡ list_all (λ day. day) days.now }
{
    days.iter().all(|day| *day)
}

fn put_runs<W: Sink>(out: &mut W, days: &[bool]) -> Result<(), WriteFault>
    requires works { W.is_failed out.old ≡ false }
    requires short { length days.now ≤ 7 }
    ensures { Puts W.Sink out.old out.new result (runs_text (runs_from 0 days.now)) }
{
    let mut lead: &[u8] = b"";
    let mut first = 0;
    while first < days.len() {
        let len = leading_days(&days[first..]);
        if len > 0 {
            put_run(out, lead, first, first + len - 1)?;
            lead = b",";
        }
        first += len + 1;
    }
    Ok(())
}

/// Returns the number of days before the first day that doesn't match, or the length of `days` if all of them match.
#[tactic(auto, using(crate::proofs::WeekdayLemmas::front_within))]
fn leading_days(days: &[bool]) -> usize
    ensures value { result ≡ prefix_len (λ day. day) days.now }
    ensures within { result ≤ length days.now }
{
    days.iter().take_while(|day| **day).count()
}

/// Writes `lead` and then a run: a single day by its name, two days as `first,second`, and more days as `first..last`.
#[tactic(auto, using(cal_bytes::proofs::PutLemmas::puts), unfolding(crate::specs::rules::WeekdayRuns::run_text))]
fn put_run<W: Sink>(out: &mut W, lead: &[u8], first: usize, last: usize) -> Result<(), WriteFault>
    requires works { W.is_failed out.old ≡ false }
    requires forward { first ≤ last }
    requires in_week { last < 7 }
    ensures { Puts W.Sink out.old out.new result
        (run_text lead.now (record { first = first; last = last })) }
{
    put_day(out, lead, first)?;
    match last - first {
        0 => Ok(()),
        1 => put_day(out, b",", last),
        _ => put_day(out, b"..", last),
    }
}

fn put_day<W: Sink>(out: &mut W, lead: &[u8], day: usize) -> Result<(), WriteFault>
    requires works { W.is_failed out.old ≡ false }
    requires in_week { day < 7 }
    ensures { Puts W.Sink out.old out.new result (joined (lead.now ∷ day_name day ∷ [])) }
{
    put_pieces(out, &[lead, day_name(day)])
}

fn day_name<'a>(day: usize) -> &'a [u8]
    requires { day < 7 }
    ensures { result.now ≡ day_name day }
{
    short_weekday_name(WEEK[day])
}
