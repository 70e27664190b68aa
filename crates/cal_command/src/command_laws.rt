//! Laws of the command line: two for all arguments, and two for worked examples.
//!
//! Each law is a function with an empty body, whose contract states the law.

ghost use Rattle.std.specs.Prelude.{◌≡◌, ◌⊎◌, ℕ, true, List, [], Some, IsSomeAnd, Result, Ok, Err};
ghost use Rattle.cal_command.specs.rules.Ask.{Ask};
ghost use Rattle.cal_command.specs.rules.CommandFault.{CommandFault, bad_iterations, help, no_memory, usage};
ghost use Rattle.cal_command.specs.rules.CommandLine.{IsAskOf, ask_in, faults_in, parsed_in, takes_arguments};
ghost use Rattle.cal_command.specs.rules.VerbMatches.{HasTexts};
ghost use Rattle.cal_command.specs.rules.WorkedArguments.{daily_matches, daily_ask, daily_arguments, help_arguments, none_arguments, options_ask, options_arguments, stray_arguments};

/// If `clap` accepts the arguments, and allocation doesn't fail, the result is what they ask for or, if values are
/// invalid, the error for the first invalid value in the order in which the values are checked.
pub fn taken_arguments_are_answered()
    ensures { (arguments : List (List ℕ)) (answer : Result Ask CommandFault) → IsAskOf arguments answer → takes_arguments arguments ≡ true
        → (answer ≡ Err no_memory) ⊎ (ask_in arguments ≡ Some answer) }
{}

/// Whenever `clap` parses the arguments, it has found a verb and at least one text, or exactly one text for `timer`.
pub fn parsed_arguments_have_texts()
    ensures { (arguments : List (List ℕ)) → faults_in arguments ≡ [] → IsSomeAnd (parsed_in arguments) HasTexts }
{}

/// `clap` accepts `calendar daily`, and an example with every option. What they ask for is written out in the
/// definitions `daily_ask` and `options_ask`.
pub fn worked_arguments_are_taken()
    ensures daily_taken { takes_arguments daily_arguments ≡ true }
    ensures daily_found { parsed_in daily_arguments ≡ Some daily_matches }
    ensures daily_asked { IsAskOf daily_arguments (Ok daily_ask) }
    ensures options_taken { takes_arguments options_arguments ≡ true }
    ensures options_asked { IsAskOf options_arguments (Ok options_ask) }
{}

/// The contract of `Ask::of` allows the result `BadIterations` for `--iterations=0`, the result `Help` for `--help`,
/// and the result `Usage` for an unknown verb. It allows any text in `Help` and `Usage`, so it says nothing about the
/// texts of `clap`.
pub fn worked_arguments_are_refused()
    ensures none { IsAskOf none_arguments (Err bad_iterations) }
    ensures help { (text : List ℕ) → IsAskOf help_arguments (Err (help text)) }
    ensures stray { (text : List ℕ) → IsAskOf stray_arguments (Err (usage text)) }
{}
