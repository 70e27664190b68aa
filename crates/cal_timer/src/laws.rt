//! Laws of the definitions that the contracts of [`crate::read_timer`] and [`crate::TimerLists`] use. Each law is a
//! function that does nothing and whose contract is the law.

ghost use Rattle.std.specs.Prelude.{◌≡◌, ◌∷◌, ◌++◌, [], ℕ, Bool, List, Ok, Result, codes, false, filter, true, if◌then◌else◌};
ghost use Rattle.std.specs.List.{list_any};
ghost use Rattle.std.specs.Str.{bytes_eq};
ghost use Rattle.cal_spec.specs.rules.Fields.{Fields};
ghost use Rattle.cal_spec.specs.declared.spec_fault.SpecFault.{SpecFault};
ghost use Rattle.cal_timer.specs.rules.Assignments.{Assignment, is_header, section_of, timer_lines};
ghost use Rattle.cal_timer.specs.rules.Lines.{Line};
ghost use Rattle.cal_timer.specs.rules.TimerRule.{JudgesTimer};
ghost use Rattle.cal_timer.specs.declared.fault.TimerFault.{TimerFault};
ghost use Rattle.cal_timer.specs.rules.TimerEntries.{Timer, lists_of, entries_or_fault};
ghost use Rattle.cal_timer.specs.computed.ResumedLists.{resumed};
ghost use Rattle.cal_timer.specs.rules.TimerText.{excepted, is_exception, is_exception_reset, is_expression, is_reset, listed};

/// A line belongs to the section `Timer` if the last header before the line opens this section. Lines before the first
/// header belong to the section if the argument `inside` of `timer_lines` is `true`. A header itself belongs to no
/// section.
pub fn one_section()
    ensures header { (inside : Bool) (front rest : List Line) (header : Line)
        → is_header header.text ≡ true → list_any (λ line. is_header line.text) rest ≡ false
        → timer_lines inside (front ++ (header ∷ rest))
        ≡ timer_lines inside front ++ (if bytes_eq (section_of header.text) (codes "Timer") then rest else []) }
    ensures no_header { (inside : Bool) (lines : List Line) → list_any (λ line. is_header line.text) lines ≡ false
        → timer_lines inside lines ≡ (if inside then lines else []) }
{}

/// The list of expressions has the expressions after the last assignment that clears the list, or all expressions if no
/// assignment clears it.
pub fn one_list()
    ensures after_reset { (front rest : List Assignment) (reset : Assignment)
        → is_reset reset ≡ true → list_any is_reset rest ≡ false
        → listed (front ++ (reset ∷ rest)) ≡ filter is_expression rest }
    ensures no_reset { (all : List Assignment) → list_any is_reset all ≡ false → listed all ≡ filter is_expression all }
{}

/// The list of exceptions has the exceptions after the last assignment that clears the list, or all exceptions if no
/// assignment clears it. An assignment that clears the list of expressions doesn't change the list of exceptions, and
/// vice versa.
pub fn one_list_of_exceptions()
    ensures after_reset { (front rest : List Assignment) (reset : Assignment)
        → is_exception_reset reset ≡ true → list_any is_exception_reset rest ≡ false
        → excepted (front ++ (reset ∷ rest)) ≡ filter is_exception rest }
    ensures no_reset { (all : List Assignment) → list_any is_exception_reset all ≡ false
        → excepted all ≡ filter is_exception all }
    ensures kept { (before : List Assignment) (reset : Assignment) → is_reset reset ≡ true
        → excepted (before ++ reset ∷ []) ≡ excepted before }
    ensures keeps { (before : List Assignment) (reset : Assignment) → is_exception_reset reset ≡ true
        → listed (before ++ reset ∷ []) ≡ listed before }
{}

/// A list of assignments has exactly one result. If no assignment has an error, the result is the lists of expressions
/// and exceptions, or `NothingToDo` if the list of expressions is empty. Otherwise the result is the first error.
pub fn one_judgement()
    ensures some { (read : List ℕ → Result Fields SpecFault) (all : List Assignment)
        → JudgesTimer read all (lists_of read all) }
    ensures only { (read : List ℕ → Result Fields SpecFault) (all : List Assignment)
        (result : Result (Timer Fields) TimerFault) → JudgesTimer read all result → result ≡ lists_of read all }
{}

/// Suppose that the lists of expressions and exceptions have the entries of some assignments, and that further
/// assignments are applied to these lists, as [`crate::TimerLists::take_text`] does. If none of the further assignments
/// has an error, the lists then have the entries of all assignments. Otherwise the result is the first error.
pub fn assignments_add_up()
    ensures { (read : List ℕ → Result Fields SpecFault) (before after : List Assignment) (lists : Timer Fields)
        → entries_or_fault read before ≡ Ok lists → resumed read lists after ≡ entries_or_fault read (before ++ after) }
{}
