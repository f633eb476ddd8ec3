//! Laws of terms of frames without invariants and contracts.
ghost use Rattle.frame_terms.specs.HeadlessTerms.{HeadlessCells, HeadlessInputLists, HeadlessIsWalkable, HeadlessPassive, HeadlessTerms};

/// The passive program of a program is that of its frame.
pub fn headless_passive()
    ensures { HeadlessPassive }
{}

/// So is the term of a question.
pub fn headless_terms()
    ensures { HeadlessTerms }
{}

/// What terms need of an unrolled program is what they need of its frame.
pub fn headless_is_walkable()
    ensures { HeadlessIsWalkable }
{}

/// The cells of a term of a program are those of the term of its frame.
pub fn headless_cells()
    ensures { HeadlessCells }
{}

/// The inputs of the cells of a program are those of the cells of its frame, in the same order.
pub fn headless_input_lists()
    ensures { HeadlessInputLists }
{}
