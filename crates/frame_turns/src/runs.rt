//! Laws of segments, questions and verdicts of frames under two bounds on backward transfers.
ghost use Rattle.frame_turns.specs.Bounds.{FrameEndsRise, FrameQuestionsRise, FrameReadingsGoAlike, FrameRunsGoAlike, FrameRunsSame, FrameStartsRise, FrameVerdictsRise};

/// As long as the segment within a bound has not turned once too often, the segment within a greater bound is the same.
#[tactic(auto, using(crate::proofs::Alike::frame_runs_go_alike))]
pub fn frame_runs_go_alike()
    ensures { FrameRunsGoAlike }
{}

/// Where it never does, both are the same after any number of steps.
#[tactic(auto, using(crate::proofs::Alike::frame_runs_same))]
pub fn frame_runs_same()
    ensures { FrameRunsSame }
{}

/// So are the segments of a reading.
#[tactic(auto, using(crate::proofs::Alike::frame_readings_go_alike))]
pub fn frame_readings_go_alike()
    ensures { FrameReadingsGoAlike }
{}

/// A segment that ends within a bound, otherwise than by one backward transfer too many, ends so within a greater one; one that turns too often within the greater
/// one does so within the smaller; and one that fails within the greater one fails or turns too often within the smaller.
#[tactic(auto, using(crate::proofs::Alike::frame_ends_rise))]
pub fn frame_ends_rise()
    ensures { FrameEndsRise }
{}

/// A start whose segment fails within a bound is a start within a greater one, whose segment fails there too.
#[tactic(auto, using(crate::proofs::AlikeQuestions::frame_starts_rise))]
pub fn frame_starts_rise()
    ensures { FrameStartsRise }
{}

/// Where no reading makes the turn question true, and a greater bound has no more anchors, each question is true of the same readings within both.
#[tactic(auto, using(crate::proofs::AlikeQuestions::frame_questions_rise))]
pub fn frame_questions_rise()
    ensures { FrameQuestionsRise }
{}

/// A verdict that speaks of no segment which turns too often is the right one for every greater bound that has no more anchors.
#[tactic(auto, using(crate::proofs::AlikeQuestions::frame_verdicts_rise))]
pub fn frame_verdicts_rise()
    ensures { FrameVerdictsRise }
{}
