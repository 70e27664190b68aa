//! Laws of the problems that `lint` prints. Each law is a function with an empty body, whose contract states the law.

ghost use Rattle.std.specs.Prelude.{◌≡◌, ◌↔◌, ◌+◌, ℕ, All, Bool, List, length, true};
ghost use Rattle.cal_crontabs.specs.declared.crontabs.Crontabs.{Crontabs};
ghost use Rattle.cal_load.specs.declared.files.LoadedFiles.{LoadedFiles};
ghost use Rattle.cal_load.specs.declared.loaded.Loaded.{Loaded};
ghost use Rattle.cal_machine.specs.rules.Machine.{Machine};
ghost use Rattle.cal_timers_report.specs.declared.style.Style.{Style};
ghost use Rattle.cal_answers.specs.declared.answer.Context.{Context};
ghost use Rattle.cal_answers.specs.rules.LintCandidates.{Candidate, candidate_text, is_left_out, with_candidates};
ghost use Rattle.cal_answers.specs.rules.LintCrontabs.{with_problems};
ghost use Rattle.cal_answers.specs.rules.LintLaw.{AreDistinct, IsFailure};
ghost use Rattle.cal_answers.specs.rules.LintOutput.{IsLint, all_problems, has_lines};
ghost use Rattle.cal_answers.specs.rules.LintRows.{Listed, lint_counts};

/// The status of `lint` is 1 exactly if there are error lines, if it prints an error or if, with `--strict`, it prints a
/// warning. The numbers in the last line of the text add up to the number of the problems.
pub fn lint_fails_for_what_it_prints()
    ensures status { (context : Context) (is_strict : Bool) (machine : Machine) (search_path : List (List ℕ)) (files : LoadedFiles) (loaded : Loaded) (crontabs : Crontabs) (out err : List ℕ) (status : ℕ)
        → (is : IsLint context is_strict machine search_path files loaded crontabs out err status)
        → (status ≡ 1) ↔ IsFailure is_strict (has_lines err) (all_problems context machine search_path loaded is.found) }
    ensures counts { (listed : List Listed) → (lint_counts listed).errors + (lint_counts listed).warnings ≡ length listed }
{}

/// If no two problems of files have the same text, none that is found in crontabs or when timers are loaded has the text
/// of another problem. None of these is missing: one that isn't listed has the text of a listed problem, or is left out
/// because of a problem in its line.
pub fn lint_lists_no_problem_twice()
    ensures once { (style : Style) (listed : List Listed) (candidates : List Candidate)
        → AreDistinct listed → AreDistinct (with_candidates style listed candidates) }
    ensures crontabs { (listed more : List Listed) → AreDistinct listed → AreDistinct (with_problems listed more) }
    ensures all { (style : Style) (listed : List Listed) (candidates : List Candidate)
        → All (λ candidate. is_left_out candidate (candidate_text style candidate) (with_candidates style listed candidates) ≡ true) candidates }
{}
