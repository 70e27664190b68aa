//! Laws of the definitions that the contracts of [`crate::read_texts`], [`crate::find_faults`] and
//! [`crate::Assignments`] use. Each law is a function that does nothing and whose contract is the law.

ghost use Rattle.std.specs.Prelude.{◌≡◌, ◌∷◌, [], ℕ, Bool, List, Result, Some, codes, map, slice_get};
ghost use Rattle.cal_spec.specs.rules.Fields.{Fields};
ghost use Rattle.cal_spec.specs.declared.spec_fault.SpecFault.{SpecFault};
ghost use Rattle.cal_read.specs.rules.SectionAssignments.{section_assignments};
ghost use Rattle.cal_timer.specs.rules.Assignments.{Assignment, assignments_in};
ghost use Rattle.cal_timer.specs.rules.Lines.{Line};
ghost use Rattle.cal_timer.specs.rules.TimerEntries.{first_fault, lists_of, timer_of};
ghost use Rattle.cal_read.specs.rules.TimerFaults.{all_faults, faults_of};
ghost use Rattle.cal_read.specs.rules.TimerTexts.{assignments_of, IsFirstOf};
ghost use Rattle.cal_read.specs.declared.texts.FileFault.{FileFault};
ghost use Rattle.cal_read.specs.declared.texts.NumberedText.{NumberedText};

/// Reading a single text whose first line has the number 1 has the same result as reading a timer file with this text.
pub fn one_text_is_a_timer_file()
    ensures { (read : List ℕ → Result Fields SpecFault) (file : NumberedText) → file.first ≡ 1
        → lists_of read (assignments_of (file ∷ [])) ≡ timer_of read file.text.now }
{}

/// For the section `Timer`, [`crate::Assignments`] returns the same assignments as those that [`crate::read_timer`]
/// applies.
pub fn assignments_of_the_section_timer()
    ensures { (inside : Bool) (lines : List Line) → section_assignments (codes "Timer") inside lines ≡ assignments_in inside lines }
{}

/// The first element of the list of all errors is the error that `first_fault` returns, and the errors of several texts
/// are the errors of all their assignments, in order. So if [`crate::find_faults`] returns any errors,
/// [`crate::read_texts`] fails with the first one, unless allocation fails.
pub fn first_of_all_faults()
    ensures first { (read : List ℕ → Result Fields SpecFault) (before after : List Assignment)
        → first_fault read before after ≡ slice_get (all_faults read before after) 0 }
    ensures texts { (read : List ℕ → Result Fields SpecFault) (before : List Assignment) (k : ℕ) (files : List NumberedText)
        → map (λ found. found.fault) (faults_of read before k files) ≡ all_faults read before (assignments_of files) }
    ensures file { (read : List ℕ → Result Fields SpecFault) (files : List NumberedText) (found : FileFault)
        → slice_get (faults_of read [] 0 files) 0 ≡ Some found → IsFirstOf read files found.file found.fault }
{}
