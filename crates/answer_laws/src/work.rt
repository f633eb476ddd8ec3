//! Laws of work that is made from a number.
ghost use Rattle.answer_laws.specs.Worked.{WorkHolds};

/// The file and the notes that are made from a number are a program, which holds for every number of backward transfers.
pub fn work_holds()
    ensures { WorkHolds }
{}
