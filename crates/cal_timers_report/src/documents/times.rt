//! Instants, time spans, local times and calendar expressions as JSON values.

ghost use Rattle.std.specs.Prelude.{◌≡◌, ◌++◌, ℕ, ℤ, List, OnOk};
ghost use Rattle.json.specs.Json.{string};
ghost use Rattle.json.specs.Tree.{json_tokens};
ghost use Rattle.cal_zone.specs.rules.InstantText.{instant_text};
ghost use Rattle.cal_spec.specs.rules.ExprText.{expr_text};
ghost use Rattle.cal_timers_report.specs.rules.JsonParts.{integer};
ghost use Rattle.cal_timers_report.specs.rules.JsonTimes.{left_span, local_time_text, nearest_instant, span_between, utc_clock_text};

use crate::documents::to_json::{ToJson, put_signed};
use crate::times::ascii;
use cal_bytes::ShortText;
use cal_span::{Span, format_span};
use cal_spec::{Expr, normal_text};
use cal_zone::{Instant, Zone, push_instant};
use json::{Pretty, Token};
use std::alloc::{AllocError, Global};

/// An instant. It is written as clocks in the zone show it, as in `Fri 2026-11-27 18:00:00 +01:00`.
#[derive(Clone, Copy)]
pub(crate) struct InZone<'a> {
    pub(crate) zone: Zone<'a>,
    pub(crate) instant: Instant,
}

/// An instant. It is written as its number of seconds of Unix time.
#[derive(Clone, Copy)]
pub(crate) struct UnixTime(pub(crate) Instant);

/// The time span from `now` to `then`. It is written as in `3d 23h 12min`, or as `0` if `then` isn't later than `now`.
#[derive(Clone, Copy)]
pub(crate) struct TimeLeft {
    pub(crate) now: Instant,
    pub(crate) then: Instant,
}

/// A local time, in seconds since 1970-01-01 00:00:00 on the clock that shows it. It is written with weekday, date and
/// time, as in `Sun 2027-03-28 02:30:00`.
#[derive(Clone, Copy)]
pub(crate) struct LocalTime(pub(crate) i64);

/// A calendar expression. It is written in normal form.
#[derive(Clone, Copy)]
pub(crate) struct Normal<'a> {
    pub(crate) alloc: Global,
    pub(crate) expr: &'a Expr,
}

impl ToJson for InZone<'_> {
    ghost Shown = { List ℕ };

    ghost shown = { λ at. instant_text at.zone at.instant.secs };

    ghost json = { string };

    fn put(&self, out: &mut Pretty) -> Result<(), AllocError> {
        let mut text = ShortText::new();
        push_instant(&mut text, self.zone, self.instant);
        out.token(Token::String(ascii(text.as_slice())?))
    }
}

impl ToJson for UnixTime {
    ghost Shown = { ℤ };

    ghost shown = { λ time. time.0.secs };

    ghost json = { integer };

    fn put(&self, out: &mut Pretty) -> Result<(), AllocError> {
        put_signed(out, self.0.secs())
    }
}

impl ToJson for TimeLeft {
    ghost Shown = { List ℕ };

    ghost shown = { λ left. left_span left.now.secs left.then.secs };

    ghost json = { string };

    fn put(&self, out: &mut Pretty) -> Result<(), AllocError> {
        if self.now.secs() < self.then.secs() {
            return put_span(out, self.now, self.then);
        }
        out.token(Token::String("0"))
    }
}

impl ToJson for LocalTime {
    ghost Shown = { List ℕ };

    ghost shown = { λ time. local_time_text time.0 };

    ghost json = { string };

    fn put(&self, out: &mut Pretty) -> Result<(), AllocError> {
        put_utc_clock(out, nearest_instant(self.0))
    }
}

impl ToJson for Normal<'_> {
    ghost Shown = { List ℕ };

    ghost shown = { λ normal. expr_text normal.expr.now };

    ghost json = { string };

    fn put(&self, out: &mut Pretty) -> Result<(), AllocError> {
        let text = normal_text(self.alloc, self.expr)?;
        out.token(Token::String(text.as_str()))
    }
}

/// Writes the time span between two instants.
fn put_span(out: &mut Pretty, now: Instant, then: Instant) -> Result<(), AllocError>
    ensures { OnOk result (out.new ≡ out.old ++ json_tokens (string (span_between now.secs then.secs))) }
{
    let seconds = (then.secs() - now.secs()).unsigned_abs();
    let Some(span) = Span::new(seconds * 1_000_000) else {
        unreachable!()
    };
    let text = format_span(span);
    out.token(Token::String(ascii(text.as_slice())?))
}

/// Returns the instant at which a clock in UTC shows this local time. If there is no such instant, returns the nearest
/// one.
fn nearest_instant(local: i64) -> Instant
    ensures { result.secs ≡ nearest_instant local }
{
    match Instant::new(local.clamp(0, Instant::LAST)) {
        Some(instant) => instant,
        None => unreachable!(),
    }
}

/// Writes the local time that a clock in UTC shows at an instant.
fn put_utc_clock(out: &mut Pretty, instant: Instant) -> Result<(), AllocError>
    ensures { OnOk result (out.new ≡ out.old ++ json_tokens (string (utc_clock_text instant.secs))) }
{
    let mut text = ShortText::new();
    push_instant(&mut text, Zone::utc(), instant);
    let Some(shown) = text.as_slice().strip_suffix(b" UTC") else {
        unreachable!()
    };
    out.token(Token::String(ascii(shown)?))
}
