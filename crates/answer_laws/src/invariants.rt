//! Laws of calls over notes with invariants.
ghost use Rattle.answer_laws.specs.FrameReplayed.{FrameReportReplays};
ghost use Rattle.answer_laws.specs.Invariants.{InvariantsMean, StepIsFalse};

/// A function of which a call wrote that it holds partially has no run with an event before its exit, however long.
pub fn invariants_mean()
    ensures { InvariantsMean }
{}

/// The text of a right report over frames that names an ending is replayed.
pub fn frame_report_replays()
    ensures { FrameReportReplays }
{}

/// Without invariants the question about head states is not satisfiable.
pub fn step_is_false()
    ensures { StepIsFalse }
{}
