//! The first expression or exception whose zone isn't known.

ghost use Rattle.std.specs.Prelude.{◌≡◌, map};
ghost use Rattle.cal_zone.specs.rules.Setting.{setting_seen};
ghost use Rattle.cal_timer.specs.rules.TimerView.{shown};
ghost use Rattle.cal_plan.specs.rules.TimerElapses.{lists_shown};
ghost use Rattle.cal_plan.specs.rules.ZoneFor.{first_unzoned, unzoned};

use crate::zones::zone_for;
use cal_timer::TimerLine;
use cal_zone::Setting;

/// Returns the number of the first line of `lines` that names a zone missing from the zone table, or `None` if there is
/// no such line. The zone `UTC` is never missing.
pub fn first_unzoned(setting: Setting<'_>, lines: &[TimerLine]) -> Option<u32>
    ensures { result ≡ first_unzoned (setting_seen setting.entry) (map shown lines.now) }
{
    for line in lines {
        if zone_for(setting, &line.expr).is_none() {
            return Some(line.number);
        }
    }
    None
}

/// Returns the number of the first line, among the expressions and the exceptions, that names a zone missing from the
/// zone table, or `None` if there is no such line.
#[tactic(auto, unfolding(crate::specs::rules::ZoneFor::unzoned))]
pub(crate) fn find_unzoned(
    setting: Setting<'_>,
    lines: &[TimerLine],
    exceptions: &[TimerLine],
) -> Option<u32>
    ensures { result ≡ unzoned (setting_seen setting.entry) (lists_shown lines.now exceptions.now) }
{
    let expression = first_unzoned(setting, lines);
    let exception = first_unzoned(setting, exceptions);
    match (expression, exception) {
        (Some(one), Some(other)) => Some(one.min(other)),
        (None, found) | (found, None) => found,
    }
}
