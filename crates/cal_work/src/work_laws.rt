//! Laws about the program's whole work. Each is a function that does nothing and whose contract is the law.

ghost use Rattle.std.specs.Prelude.{◌≡◌, ◌⊎◌, Bool, true, false, List, [], ℕ, ℤ, Option, Some, Result, Ok, pos};
ghost use Rattle.std.specs.Io.KnownBytes.{Appends};
ghost use Rattle.cal_command.specs.rules.Ask.{Ask};
ghost use Rattle.cal_command.specs.rules.CommandFault.{CommandFault};
ghost use Rattle.cal_command.specs.rules.CommandLine.{IsAskOf, ask_in, takes_arguments};
ghost use Rattle.cal_command.specs.rules.WorkedArguments.{daily_arguments, daily_ask};
ghost use Rattle.cal_machine.specs.rules.Told.{FileFound, Told};
ghost use Rattle.cal_request.specs.rules.Verb.{seeks_elapses};
ghost use Rattle.cal_work.specs.declared.arguments_to_bytes.Ended.{Ended};
ghost use Rattle.cal_work.specs.rules.Outcome.{World, outcome};
ghost use Rattle.cal_work.specs.rules.Stop.{memory_stop};
ghost use Rattle.cal_work.specs.rules.WorkLaw.{IsFixed, IsOrMemoryStop, bare_files, bare_gives, daily_world, fine_end, fixed_outcome};
ghost use Rattle.cal_work.specs.rules.Works.{FitsArguments, Works};

/// If the answers of a system never change, and `clap` accepts the arguments, then only one outcome is possible, unless
/// memory runs out. It can be computed from the arguments, the files, the clock and the zones that `jiff` reads.
pub fn fixed_systems_decide()
    ensures { (gives : Told → Bool) (held : List ℕ → FileFound) (clock : Option ℤ) (arguments : List (List ℕ)) (asked : Result Ask CommandFault) (world : World)
        → IsFixed gives held clock → takes_arguments arguments ≡ true → ask_in arguments ≡ Some asked
        → FitsArguments gives arguments world → IsOrMemoryStop (outcome world) (fixed_outcome held clock asked world) }
{}

/// Shows that the conditions of `fixed_systems_decide` can be met. They are met by a system that has no files and whose
/// clock shows 0, the arguments `calendar daily`, and a world that fits both.
pub fn bare_systems_decide()
    ensures all { IsFixed bare_gives bare_files (Some (pos 0)) }
    ensures taken { takes_arguments daily_arguments ≡ true }
    ensures fits { FitsArguments bare_gives daily_arguments daily_world }
{}

/// Shows that the clause `headline` of `work` isn't vacuous. The arguments `calendar daily` meet its conditions. On the
/// system without files whose clock shows 0, a run with these arguments can end with status 0. Each run that writes
/// everything ends with status 0, or reports on standard error that memory ran out.
pub fn bare_systems_print()
    ensures asked { IsAskOf daily_arguments (Ok daily_ask) × (seeks_elapses daily_ask.verb ≡ true) }
    ensures works { (is_unread : List ℕ → Bool) → (text : List ℕ) × Works bare_gives is_unread daily_arguments (Some []) (Some text) (Some []) (Some []) false fine_end }
    ensures printed { (is_unread : List ℕ → Bool) (out reached err err' : Option (List ℕ)) (failed : Bool) (ended : Ended)
        → Works bare_gives is_unread daily_arguments out reached err err' failed ended → ended.written ≡ Ok tt
        → (ended.status ≡ 0) ⊎ Appends err err' memory_stop.err }
{}
