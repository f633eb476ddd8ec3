//! The walks of an unrolled frame and the segments of its frame.
ghost use Rattle.frame_laws.specs.RunOfFrame.{FrameAnswersOver, FrameEntryIsSame, FrameMeetsOnce, FrameWalkIsRun, FramesAreAmong};

/// The frames of notes with contracts are frames among those contracts.
pub fn frames_are_among()
    ensures { FramesAreAmong }
{}

/// The walk of a reading from a root is its segment from the root's anchor, step by step.
pub fn frame_walk_is_run()
    ensures { FrameWalkIsRun }
{}

/// The questions of an unrolled frame, by its sweep, are those of its frame, over each set of known bytes that has its literals.
pub fn frame_answers_over()
    ensures { FrameAnswersOver }
{}

/// The walk from a root meets the point at a place at most once.
pub fn frame_meets_once()
    ensures { FrameMeetsOnce }
{}

/// The entry condition of an unrolled frame is that of its frame.
pub fn frame_entry_is_same()
    ensures { FrameEntryIsSame }
{}
