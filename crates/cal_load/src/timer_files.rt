//! The files of a timer, and the lines with expressions and exceptions in them that are ignored.

ghost use Rattle.std.specs.Prelude.{◌≡◌, ◌+◌, ◌<◌, ◌≤◌, ◌^◌, [], ℕ, List, MatchOption, length, map, slice_get, slice_index};
ghost use Rattle.std.specs.Option.{IsSomeAnd};
ghost use Rattle.cal_unit_index.specs.rules.Files.{shown_unit_text};
ghost use Rattle.cal_load.specs.rules.Position.{AreFirstLines, HasLine, IsLastUntil, IsLineIn, IsPosition};

use crate::calendar::IgnoredLine;
use crate::readable::BrokenLine;
use crate::zones::UnusableZone;
use cal_unit_index::UnitText;
use std::alloc::Global;

/// The files of a timer, the lines with expressions and exceptions that are ignored, and the lines at which systemd
/// stops reading.
#[derive(Drop)]
pub struct TimerFiles {
    /// The files that were read: first the timer's own file, and then its drop-ins.
    pub texts: Vec<UnitText>,
    /// The number of each file's first line. Line numbers continue from file to file.
    pub first_lines: Vec<u32>,
    /// For each file, the line at which systemd stops reading the file, or `None`. The first is always `None`: a timer
    /// isn't loaded if systemd stops in its own file. In a drop-in, only the lines above the broken one count.
    pub broken: Vec<Option<BrokenLine>>,
    /// The lines with the invalid expressions and exceptions in these files, in order. They are ignored.
    pub ignored: Vec<IgnoredLine>,
    /// The lines with valid expressions and exceptions in these files that are ignored because their zone can't be
    /// used: first those with expressions, and then those with exceptions, each in order. Lines that are cleared
    /// later aren't listed.
    pub unusable_zones: Vec<UnusableZone>,
}

impl TimerFiles {
    /// Creates a `TimerFiles` without files.
    pub(crate) fn new(alloc: Global) -> TimerFiles
        ensures ignored { result.ignored.items ≡ [] }
        ensures unusable { result.unusable_zones.items ≡ [] }
    {
        TimerFiles {
            texts: Vec::new(alloc),
            first_lines: Vec::new(alloc),
            broken: Vec::new(alloc),
            ignored: Vec::new(alloc),
            unusable_zones: Vec::new(alloc),
        }
    }

    /// Returns the path of the file that has the line with this continued number, and the line's number in that file,
    /// counted from 1. Returns `None` if no file begins at or before the line, or if the line's number in its file
    /// doesn't fit into 32 bits.
    pub fn position(&self, number: u32) -> Option<(&str, u32)>
        ensures position { MatchOption result
            ((path : List ℕ) (line : ℕ) → IsPosition self.now.texts.items self.now.first_lines.items number path line → 2 ^ 32 ≤ line)
            (λ position. IsPosition self.now.texts.items self.now.first_lines.items number position.0.now position.1) }
        ensures line { AreFirstLines (map shown_unit_text self.now.texts.items) self.now.first_lines.items
            → HasLine (map shown_unit_text self.now.texts.items) number
            → IsSomeAnd result (λ position. IsLineIn (map shown_unit_text self.now.texts.items) number position.0.now position.1) }
    {
        position_in(self.texts.as_slice(), self.first_lines.as_slice(), number)
    }
}

/// Finds the last file that begins at or before the line with this continued number. Returns the path of this file, and
/// the number of the line in this file.
fn position_in<'f>(
    files: &'f [UnitText],
    first_lines: &[u32],
    number: u32,
) -> Option<(&'f str, u32)>
    ensures { MatchOption result
        ((path : List ℕ) (line : ℕ) → IsPosition files.now first_lines.now number path line → 2 ^ 32 ≤ line)
        (λ position. IsPosition files.now first_lines.now number position.0.now position.1) }
{
    let index = last_until(first_lines, number)?;
    let line = line_from(first_lines[index], number)?;
    let file = file_with_index(files, index)?;
    Some((file.path.as_str(), line))
}

/// Converts a continued number to the number of the line in its file, counted from 1. `first` is the continued number
/// of the file's first line.
fn line_from(first: u32, number: u32) -> Option<u32>
    ensures { MatchOption result
        (first ≤ number → (line : ℕ) → first + line ≡ number + 1 → 2 ^ 32 ≤ line)
        (λ line. first + line ≡ number + 1) }
{
    let before = number.checked_sub(first)?;
    before.checked_add(1)
}

fn file_with_index(files: &[UnitText], index: usize) -> Option<&UnitText>
    ensures { MatchOption result (slice_get files.now index ≡ None) (λ file. slice_get files.now index ≡ Some file.now) }
{
    files.get(index)
}

/// Returns the index of the last of these numbers that is at most `number`.
fn last_until(numbers: &[u32], number: u32) -> Option<usize>
    ensures { MatchOption result
        ((k : ℕ) → k < length numbers.now → number < slice_index numbers.now k)
        (λ index. IsLastUntil numbers.now number index) }
{
    let mut found = None;
    for (index, first) in numbers.iter().enumerate() {
        if *first <= number {
            found = Some(index);
        }
    }
    found
}
