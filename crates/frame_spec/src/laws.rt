//! Laws of frames.
ghost use Rattle.frame_spec.specs.FrameUnrolling.{ContractStepIsWalk, UnrollingIsRooted};
ghost use Rattle.frame_spec.specs.FrameWalk.{SweepIsWalks};
ghost use Rattle.frame_spec.specs.FrameLaws.{FramesDecide, OneFrameVerdict, QuestionsAreOfSegments, SegmentsByFile, SegmentsMeetPoints};
ghost use Rattle.frame_spec.specs.ReportLaws.{HoldsMeans, PartialMeans};
ghost use Rattle.frame_spec.specs.Theorems.{ExitIsRun, FramesHold, HeadlessIsRun, HeadlessIsVerdict, MachineIsContracted, PartialNeverFails};

/// Without invariants and contracts the run of the frame from its entry is the run of the tables.
pub fn headless_is_run()
    ensures { HeadlessIsRun }
{}

/// And the right verdict of the frame is that of the program.
pub fn headless_is_verdict()
    ensures { HeadlessIsVerdict }
{}

/// Where the verdict is partial, no run of the tables from an entry state, however long, has an event.
pub fn partial_never_fails()
    ensures { PartialNeverFails }
{}

/// Where all frames pass, every run of the tables from every entry state exits, and each call of a contract on it is kept.
pub fn frames_hold()
    ensures { FramesHold }
{}

/// So it has an exit, for some number of backward transfers.
pub fn exit_is_run()
    ensures { ExitIsRun }
{}

/// The words that a segment executes are the file's.
pub fn segments_by_file()
    ensures { SegmentsByFile }
{}

/// Some reading makes a question true exactly where there is such a segment.
pub fn questions_are_of_segments()
    ensures { QuestionsAreOfSegments }
{}

/// The questions decide the verdict.
pub fn frames_decide()
    ensures { FramesDecide }
{}

/// A segment meets points alone, and arrives at heads that have an anchor.
pub fn segments_meet_points()
    ensures { SegmentsMeetPoints }
{}

/// The sweep over all places is the walks of all roots whose invariants are true.
pub fn sweep_is_walks()
    ensures { SweepIsWalks }
{}

/// The places of an unrolled frame rise within their anchors, and each anchor has one root.
pub fn unrolling_is_rooted()
    ensures { UnrollingIsRooted }
{}

/// What a contract step does at a contract's point is what the frame does there.
pub fn contract_step_is_walk()
    ensures { ContractStepIsWalk }
{}

/// Where the right report is holds, every run of the tables from every entry state exits, and each call of a contract on it is kept.
pub fn holds_means()
    ensures { HoldsMeans }
{}

/// Where it is partial, no run of the tables from an entry state has an event.
pub fn partial_means()
    ensures { PartialMeans }
{}

/// A lawful machine and the form of its state texts have what is asked of rows, registers and flags.
pub fn machine_is_contracted()
    ensures { MachineIsContracted }
{}

/// A frame has one verdict.
pub fn one_frame_verdict()
    ensures { OneFrameVerdict }
{}
