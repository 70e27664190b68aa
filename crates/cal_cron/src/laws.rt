//! Laws about the lines of crontabs, above all that cron runs a line at exactly the local seconds that one of its
//! expressions matches. Each law is a function with an empty body, whose contract states the law.

ghost use Rattle.std.specs.Prelude.{◌≡◌, ◌<◌, true, ℕ, List, Ok};
ghost use Rattle.cal_cron.specs.computed.Lines.{line_in};
ghost use Rattle.cal_cron.specs.computed.Translation.{exprs_in, exprs_of};
ghost use Rattle.cal_cron.specs.rules.CronLine.{IsLine, Schedule};
ghost use Rattle.cal_cron.specs.rules.CronMatch.{CronExprs, IsReached, cron_matches, exprs_match, range_has};
ghost use Rattle.cal_cron.specs.declared.items.CronRange.{CronRange};

/// Parsing a line succeeds if and only if the grammar of crontab(5) allows the text, and returns its schedule. The
/// grammar never gives the same text two schedules.
pub fn lines_are_those_of_the_rule()
    ensures found { (text : List ℕ) (s : Schedule) → line_in text ≡ Ok s → IsLine text s }
    ensures only { (text : List ℕ) (s : Schedule) → IsLine text s → line_in text ≡ Ok s }
    ensures one { (text : List ℕ) (s t : Schedule) → IsLine text s → IsLine text t → s ≡ t }
{}

/// A range has the numbers `first`, `first` + `step`, .. that aren't above `last`.
#[tactic(auto, using(crate::proofs::RangeLemmas::reached, crate::proofs::RangeLemmas::has_reached))]
pub fn ranges_have_what_they_reach()
    ensures has { (r : CronRange) (value : ℕ) → 0 < r.step → range_has r value ≡ true → IsReached r value }
    ensures only { (r : CronRange) (value : ℕ) → 0 < r.step → IsReached r value → range_has r value ≡ true }
{}

/// Every line that the grammar allows has expressions. At each local second, at least one of them matches if and only
/// if the schedule of the line matches.
pub fn expressions_elapse_when_cron_runs()
    ensures some { (text : List ℕ) (s : Schedule) → IsLine text s → exprs_in text ≡ Ok (exprs_of s) }
    ensures same { (text : List ℕ) (s : Schedule) (local : ℕ) → IsLine text s
        → exprs_match (exprs_of s).first (exprs_of s).other local ≡ cron_matches s local }
    ensures only { (text : List ℕ) (e : CronExprs) → exprs_in text ≡ Ok e
        → (s : Schedule) × IsLine text s × (e ≡ exprs_of s) }
{}
