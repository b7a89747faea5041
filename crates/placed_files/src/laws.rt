//! What holds of the files of programs without faults. A law has no body: its contract is the law.
ghost use Rattle.placed_files.specs.Laws.{CheckedFilesArePlaced};

/// A file of a program in which `check` finds nothing wrong, as its clauses `checked` and `none` say, is placed.
pub fn checked_files_are_placed()
    ensures { CheckedFilesArePlaced }
{}
