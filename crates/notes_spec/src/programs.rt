//! Laws of the program of two texts.
ghost use Rattle.notes_spec.specs.TextLaws.{EntryIsAligned, ProgramRowsAreLawful};

/// A row can stand at the address of a program's function.
pub fn entry_is_aligned()
    ensures { EntryIsAligned }
{}

/// The rows of a program are lawful.
pub fn program_rows_are_lawful()
    ensures { ProgramRowsAreLawful }
{}
