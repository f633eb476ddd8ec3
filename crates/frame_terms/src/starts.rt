//! Laws of starts of segments from values that satisfy the clauses of a question of a frame.
ghost use Rattle.frame_terms.specs.FrameStarts.{FrameBrokenIsNew, FramePartsBreakNone, FrameStartsAreShown, FrameValuesGiveStarts};

/// Written parts of values that satisfy the clauses are those of a reading of which the question is true, and what is shown of them ends so.
pub fn frame_values_give_starts()
    ensures { FrameValuesGiveStarts }
{}

/// What is shown of a segment can be written.
pub fn frame_starts_are_shown()
    ensures { FrameStartsAreShown }
{}

/// Where values have written parts, none of their base reads has another byte than its part has of the file.
pub fn frame_parts_break_none()
    ensures { FramePartsBreakNone }
{}

/// A byte of the file that satisfying values have not was not asked.
pub fn frame_broken_is_new()
    ensures { FrameBrokenIsNew }
{}
