//! Laws about the definitions that the contracts of this crate use. Each law is a function with an empty body, whose
//! contract states the law.

ghost use Rattle.std.specs.Prelude.{◌≡◌, ℕ, List};
ghost use Rattle.cal_bytes.specs.rules.TrimRule.{IsTrimmed};
ghost use Rattle.cal_bytes.specs.rules.Trim.{trim_matches};
ghost use Rattle.cal_timer.specs.rules.LineRule.{AreGroups, lines_of};
ghost use Rattle.cal_timer.specs.rules.Lines.{Group, Line, groups, is_blank_or_return, logical_lines};
ghost use Rattle.cal_timer.specs.rules.LogicalRule.{AreLogical};

/// A line that ends in an odd number of backslashes is continued by the next one. Lines are grouped by continuation in
/// exactly one way: each group ends at the first line that isn't continued, or at the end of the file.
pub fn one_grouping()
    ensures lines { (lines : List Line) → lines_of (groups lines) ≡ lines }
    ensures some { (lines : List Line) → AreGroups (groups lines) }
    ensures only { (all : List Group) → AreGroups all → groups (lines_of all) ≡ all }
{}

/// For each text, whatever number its first line has, `AreLogical` describes exactly one list of logical lines, and
/// `logical_lines` returns this list. The physical lines lose their leading blanks, comments are dropped, and each
/// group of continued lines is joined, with a space in place of each backslash that continues a line.
pub fn logical_lines_are_those_of_the_rule()
    ensures these { (number : ℕ) (text : List ℕ) → AreLogical number text (logical_lines number text) }
    ensures only { (number : ℕ) (text : List ℕ) (all : List Line) → AreLogical number text all
        → all ≡ logical_lines number text }
{}

/// `trim` removes exactly the leading and trailing blanks (spaces, tabs and carriage returns): it removes nothing else,
/// and its result neither begins nor ends with a blank. No other result has both properties.
pub fn one_trimmed_text()
    ensures this { (text : List ℕ) → IsTrimmed is_blank_or_return text (trim_matches is_blank_or_return text) }
    ensures only { (text trimmed : List ℕ) → IsTrimmed is_blank_or_return text trimmed → trimmed ≡ trim_matches is_blank_or_return text }
{}
