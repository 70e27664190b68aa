//! The contents of a unit's files, with line numbers that continue from file to file.

ghost use Rattle.std.specs.Prelude.{◌≡◌, ◌+◌, ◌∷◌, ◌++◌, [], List, IfOk, OnOk, length, map};
ghost use Rattle.std.specs.Result.{IfErr};
ghost use Rattle.std.specs.Str.Lines.{lines};
ghost use Rattle.cal_read.specs.rules.SectionAssignments.{shown_owned_assignment};
ghost use Rattle.cal_unit_index.specs.rules.Files.{UnitText as FileText, shown_unit_text};
ghost use Rattle.cal_load.specs.rules.Loaded.{assignments_of_files, broken_of_files};
ghost use Rattle.cal_load.specs.rules.Position.{AreFirstLines, total_lines};
ghost use Rattle.cal_load.specs.rules.Readable.{assignments_read, broken_line};
ghost use Rattle.cal_load.specs.rules.TextFaults.{IsReadFault};

use crate::fault::TargetLoadFault;
use crate::readable::{BrokenLine, ReadLines, line_count, read_lines};
use cal_read::OwnedAssignment;
use cal_unit_index::{Reason, UnitText};
use std::alloc::{AllocError, Global};

/// The contents of a unit's files, before specifiers are filled in.
#[derive(Drop)]
pub(crate) struct ReadFiles {
    /// The number of each file's first line. The first line of the first file has the number 1, and the first line of
    /// any other file follows the last line of the file before it.
    pub(crate) first_lines: Vec<u32>,
    /// The assignments in the sections `Timer`.
    pub(crate) assignments: Vec<OwnedAssignment>,
    /// For each file, the line at which systemd stops reading it, or `None` if systemd reads the whole file.
    pub(crate) broken: Vec<Option<BrokenLine>>,
}

/// Reads the files of a unit. Fails with [`Reason::TooLarge`] if the number of a file's first line plus the file's
/// length in bytes is 2^32 or more. The error is that of the first such file.
pub(crate) fn read_files(alloc: Global, files: &[UnitText]) -> Result<ReadFiles, TargetLoadFault>
    ensures assignments { IfOk result (λ read. map shown_owned_assignment read.assignments.items
        ≡ assignments_of_files (map shown_unit_text files.now)) }
    ensures broken { IfOk result (λ read. read.broken.items ≡ broken_of_files (map shown_unit_text files.now)) }
    ensures lines { IfOk result (λ read. AreFirstLines (map shown_unit_text files.now) read.first_lines.items) }
    ensures fault { IfErr result (IsReadFault (map shown_unit_text files.now)) }
{
    let mut read = ReadFiles {
        first_lines: Vec::new(alloc),
        assignments: Vec::new(alloc),
        broken: Vec::new(alloc),
    };
    let mut first = 1;
    for file in files {
        first = read_file(alloc, &mut read, file, first)?;
    }
    Ok(read)
}

/// Reads one more file, whose first line has the number `first`. Returns the number of the line after the file. Fails
/// with [`Reason::TooLarge`] if `first` plus the length of the file is 2^32 or more, because the numbers of its lines
/// might then not fit into 32 bits.
fn read_file(
    alloc: Global,
    read: &mut ReadFiles,
    file: &UnitText,
    first: u32,
) -> Result<u32, TargetLoadFault>
    ensures next { IfOk result (λ next. next ≡ first + length (lines file.now.bytes.items)) }
    ensures lines { OnOk result (read.new.first_lines.items ≡ read.old.first_lines.items ++ first ∷ []) }
    ensures assignments { OnOk result (map shown_owned_assignment read.new.assignments.items
        ≡ map shown_owned_assignment read.old.assignments.items ++ assignments_read first file.now.bytes.items) }
    ensures broken { OnOk result (read.new.broken.items
        ≡ read.old.broken.items ++ broken_line first file.now.bytes.items ∷ []) }
    ensures fault { IfErr result (λ fault. (before after : List FileText) → first ≡ total_lines before + 1
        → IsReadFault (before ++ shown_unit_text file.now ∷ after) fault) }
{
    let bytes = file.bytes.as_slice();
    if bytes.len() > (u32::MAX - first) as usize {
        return Err(TargetLoadFault::at(alloc, file.path.as_str(), Reason::TooLarge));
    }
    let ReadLines {
        assignments,
        broken,
    } = read_lines(alloc, first, bytes)?;
    append(&mut read.assignments, assignments)?;
    read.first_lines.push(first)?;
    read.broken.push(broken)?;
    Ok(first + line_count(bytes) as u32)
}

/// Moves all elements of `more` to the end of `all`. If allocation fails, some of them may have been moved.
pub(crate) fn append<X: Drop>(all: &mut Vec<X>, more: Vec<X>) -> Result<(), AllocError>
    ensures { OnOk result (all.new.items ≡ all.old.items ++ more.items) }
{
    for item in more {
        all.push(item)?;
    }
    Ok(())
}
