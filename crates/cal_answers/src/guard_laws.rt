//! A law of the guards of a timer's exceptions. It is a function with an empty body, whose contract states the law.

ghost use Rattle.std.specs.Prelude.{◌≡◌, ℕ, Bool, List, true};
ghost use Rattle.cal_load.specs.rules.Condition.{runs_due};
ghost use Rattle.cal_timers_command.specs.rules.VerbFirst.{asks_due};

/// Our own command line reads the arguments of each guard as the verb `due`: `lint` takes no other verb for a guard.
pub fn a_guard_asks_due()
    ensures { (is_user : Bool) (stem : List ℕ) (arguments : List (List ℕ)) → runs_due is_user stem arguments ≡ true → asks_due arguments ≡ true }
{}
