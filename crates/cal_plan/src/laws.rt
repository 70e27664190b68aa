//! Laws on the zones and the elapses of expressions and exceptions. Each law is a function that does nothing and whose
//! contract is the law.

ghost use Rattle.std.specs.Prelude.{◌≡◌, ℕ, ℤ, List, None, Some};
ghost use Rattle.std.specs.List.{AllZip};
ghost use Rattle.cal_zone.specs.rules.Setting.{Setting};
ghost use Rattle.cal_zone.specs.rules.FixedOffsetZone.{fixed_offset_zone};
ghost use Rattle.cal_spec.specs.rules.Fields.{Fields};
ghost use Rattle.cal_spec.specs.rules.ZoneSuffix.{of_name, at_offset};
ghost use Rattle.cal_elapse.specs.rules.Elapses.{AreElapses, Timed};
ghost use Rattle.cal_timer.specs.rules.TimerEntries.{Timer};
ghost use Rattle.cal_plan.specs.rules.TimerElapses.{IsTimed, elapses_of_lists};
ghost use Rattle.cal_plan.specs.rules.ZoneFor.{zone_for};

/// The zone suffix decides in which zone an expression is evaluated. Without a suffix, this is the local zone. If the
/// suffix is a name, it is the zone of that name (systemd.time(7), Calendar Events), and if the suffix is a UTC offset,
/// it is the fixed zone at that offset.
#[tactic(auto, unfolding(crate::specs::rules::ZoneFor::zone_for))]
pub fn zones_are_those_of_suffixes()
    ensures local { (at : Setting) → zone_for at None ≡ Some at.local }
    ensures named { (at : Setting) (name : List ℕ) → zone_for at (Some (of_name name)) ≡ at.find name }
    ensures offset { (at : Setting) (seconds : ℤ) → zone_for at (Some (at_offset seconds)) ≡ Some (fixed_offset_zone seconds) }
{}

/// If the zones of all expressions and exceptions are known, the merged elapses are exactly the elapses of the
/// expressions after the base, each expression in its own zone, without those of the exceptions (systemd.timer(5),
/// OnCalendar=).
pub fn merged_elapses_are_those_of_each_zone()
    ensures { (at : Setting) (base : ℤ) (lists : Timer Fields) (es exceptions : List Timed)
        → AllZip (IsTimed at) lists.expressions es → AllZip (IsTimed at) lists.exceptions exceptions
        → AreElapses es exceptions base (elapses_of_lists at base lists) }
{}
