//! Laws of the clauses of questions of frames.
ghost use Rattle.frame_terms.specs.FrameLayers.{FrameAskedIsRight, FrameClausesOfQuestion, FrameReadingMakesTrue, FrameUnrollingIsWalkable, FrameValuesGiveReading};

/// Values that satisfy the clauses are those of a reading of which the question is true.
pub fn frame_values_give_reading()
    ensures { FrameValuesGiveReading }
{}

/// The values of a reading of which the question is true make the cells true.
pub fn frame_reading_makes_true()
    ensures { FrameReadingMakesTrue }
{}

/// The clauses of the cells are those of the question.
pub fn frame_clauses_of_question()
    ensures { FrameClausesOfQuestion }
{}

/// An unrolled frame is walkable.
pub fn frame_unrolling_is_walkable()
    ensures { FrameUnrollingIsWalkable }
{}

/// What is asked on demand is known, and has the literals.
pub fn frame_asked_is_right()
    ensures { FrameAskedIsRight }
{}
