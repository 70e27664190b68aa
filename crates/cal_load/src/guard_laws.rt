//! A law of guards. It is a function with an empty body, whose contract states the law.

ghost use Rattle.std.specs.Prelude.{◌≡◌, ℕ, Bool, List};
ghost use Rattle.cal_timer.specs.rules.Assignments.{Assignment};
ghost use Rattle.cal_load.specs.declared.guard.Guard.TheVariants.{Asks};
ghost use Rattle.cal_load.specs.rules.Guard.{HasSkippingGuard, guard_in};

/// A service whose guard is `Asks` has a condition that runs `calendar-timers due` about the timer, and systemd skips
/// the service if this condition exits with the status 1.
pub fn an_asking_service_skips_exceptions()
    ensures { (is_user : Bool) (stem : List ℕ) (assignments : List Assignment) → guard_in is_user stem assignments ≡ Asks
        → HasSkippingGuard is_user stem assignments }
{}
