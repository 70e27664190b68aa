//! The zone in which an expression is evaluated (systemd.time(7), Calendar Events).

ghost use Rattle.std.specs.Prelude.{◌≡◌, option_map};
ghost use Rattle.cal_zone.specs.rules.Setting.{setting_seen};
ghost use Rattle.cal_zone.specs.rules.Zone.{zone_of};
ghost use Rattle.cal_plan.specs.rules.ZoneFor.{zone_for};

use cal_spec::Expr;
use cal_zone::{Setting, Zone};

/// Returns the zone in which an expression is evaluated. Without a zone suffix, this is the local zone. If the suffix
/// is a UTC offset, it is the fixed zone at this offset. If the suffix is the name `UTC`, ignoring case, it is UTC. If
/// the suffix is any other name, it is the zone of this name in the table, or `None` if the table has no such zone.
#[tactic(auto, unfolding(crate::specs::rules::ZoneFor::zone_for))]
pub fn zone_for<'a>(setting: Setting<'a>, expr: &Expr) -> Option<Zone<'a>>
    ensures { option_map zone_of result ≡ zone_for (setting_seen setting.entry) expr.now.zone }
{
    if let Some(seconds) = expr.zone_offset() {
        return Some(Zone::offset(seconds));
    }
    match expr.zone_name() {
        Some(name) => setting.zones.find(name),
        None => Some(setting.local),
    }
}
