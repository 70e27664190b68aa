//! Laws of the arguments: two for all arguments, and three for worked examples.
//!
//! Each law is a function with an empty body, whose contract states the law.

ghost use Rattle.std.specs.Prelude.{◌≡◌, ◌<◌, ℕ, List, [], ◌∷◌, None, Some, IsSomeAnd, codes, false, length, true};
ghost use Rattle.cal_timers_command.specs.rules.Asked.{Command, HasNeeded, IsCommandOf, IsFaultOf, between, due, faults_in, list, next, parsed_in, show};
ghost use Rattle.cal_options.specs.rules.ArgumentFault.{Fault, help, no_memory, usage};
ghost use Rattle.cal_timers_command.specs.rules.OptionValues.{zone_clash};
ghost use Rattle.cal_timers_command.specs.rules.VerbFirst.{asks_due};
ghost use Rattle.cal_timers_command.specs.rules.WorkedQuestions.{clash_arguments, count_arguments, due_arguments, due_two_arguments, due_unit_arguments, help_arguments, in_utc, plain, range_arguments, show_arguments, target_arguments, utc_arguments};

/// No arguments ask two different things. If arguments ask something, the only error that they can result in is a failed
/// allocation.
pub fn arguments_ask_one_command()
    ensures command { (arguments : List (List ℕ)) (one other : Command) → IsCommandOf arguments one → IsCommandOf arguments other → one ≡ other }
    ensures fault { (arguments : List (List ℕ)) (command : Command) (fault : Fault) → IsCommandOf arguments command → IsFaultOf arguments fault → fault ≡ no_memory }
{}

/// Whenever `clap` parses the arguments, it has found a verb and all targets that this verb needs.
pub fn parsed_arguments_are_complete()
    ensures { (arguments : List (List ℕ)) → faults_in arguments ≡ [] → IsSomeAnd (parsed_in arguments) (λ found. HasNeeded found.0 found.1) }
{}

/// What these arguments ask: none at all, `show backup`, `backup`, `--utc list`, `-n 3 next daily`,
/// `between -- -5 now`, `due`, and `--utc due backup`.
pub fn worked_arguments_are_commands()
    ensures none { IsCommandOf [] (plain (list [] false false)) }
    ensures show { IsCommandOf show_arguments (plain (show (codes "backup" ∷ []) 5)) }
    ensures target { IsCommandOf target_arguments (plain (list (codes "backup" ∷ []) false false)) }
    ensures utc { IsCommandOf utc_arguments (in_utc (list [] false false)) }
    ensures count { IsCommandOf count_arguments (plain (next (codes "daily" ∷ []) 3)) }
    ensures range { IsCommandOf range_arguments (plain (between (codes "-5") (codes "now") [] false false)) }
    ensures due { IsCommandOf due_arguments (plain (due None)) }
    ensures due_unit { IsCommandOf due_unit_arguments (in_utc (due (Some (codes "backup")))) }
{}

/// `--utc --zone=UTC list` results in the message about these two options, `list --help` in help, and the second target
/// of `due backup clean` in a usage error. About the texts of the last two results, the law says only that they aren't
/// empty.
pub fn worked_arguments_are_refused()
    ensures clash { IsFaultOf clash_arguments (usage (zone_clash false)) }
    ensures help { (text : List ℕ) → 0 < length text → IsFaultOf help_arguments (help text) }
    ensures two { (text : List ℕ) → 0 < length text → IsFaultOf due_two_arguments (usage text) }
{}

/// `--utc due backup` asks `due`, and `backup` doesn't.
pub fn worked_arguments_ask_due()
    ensures due { asks_due due_unit_arguments ≡ true }
    ensures other { asks_due target_arguments ≡ false }
{}
