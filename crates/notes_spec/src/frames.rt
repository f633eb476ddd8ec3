//! Laws of notes with invariants and contracts.
ghost use Rattle.notes_spec.specs.FrameLaws.{ContractsAreApart, NotesAreFramed, OneFrameReading, PlainHasNone};

/// A text says one value of such notes at most.
pub fn one_frame_reading()
    ensures { OneFrameReading }
{}

/// A text that is notes says such notes.
pub fn notes_are_framed()
    ensures { NotesAreFramed }
{}

/// Where lines of invariants and contracts are none, there are neither.
pub fn plain_has_none()
    ensures { PlainHasNone }
{}

/// With a contract there are no invariants, and no assert line has values at entry; contracts have addresses of their own, at which a row can stand.
pub fn contracts_are_apart()
    ensures { ContractsAreApart }
{}
