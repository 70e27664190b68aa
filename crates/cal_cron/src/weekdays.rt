//! Translation of the weekday field of a crontab line to the weekdays of a calendar expression.

ghost use Rattle.std.specs.Prelude.{◌≡◌, ◌<◌};
ghost use Rattle.cal_cron.specs.rules.CronMatch.{field_has, range_has, weekday_has};
ghost use Rattle.cal_cron.specs.computed.Translation.{weekdays_of};

use crate::CronRange;

/// Returns which weekdays are in the field, from Monday to Sunday.
#[tactic(auto, unfolding(crate::specs::computed::Translation::weekdays_of))]
pub(crate) fn weekdays_of(ranges: &[CronRange]) -> [bool; 7]
    ensures { result ≡ weekdays_of ranges.now }
{
    [
        weekday_has(ranges, 0),
        weekday_has(ranges, 1),
        weekday_has(ranges, 2),
        weekday_has(ranges, 3),
        weekday_has(ranges, 4),
        weekday_has(ranges, 5),
        weekday_has(ranges, 6),
    ]
}

/// Returns whether the field has the weekday `day`, counted from 0 for Monday. In the field, Monday is 1, and both 0
/// and 7 are Sunday.
fn weekday_has(ranges: &[CronRange], day: u16) -> bool
    requires { day < 7 }
    ensures { result ≡ weekday_has ranges.now day }
{
    field_has(ranges, (day + 1) % 7) || day == 6 && field_has(ranges, 7)
}

fn field_has(ranges: &[CronRange], value: u16) -> bool
    ensures { result ≡ field_has ranges.now value }
{
    ranges.iter().any(|range| range_has(*range, value))
}

fn range_has(range: CronRange, value: u16) -> bool
    ensures { result ≡ range_has range value }
{
    range.first <= value
        && value <= range.last
        && value.saturating_sub(range.first).is_multiple_of(range.step)
}
