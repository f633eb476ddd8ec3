//! Laws of answers to notes that may have invariants or contracts.
ghost use Rattle.answer_spec.specs.FrameAnswerLaws.{CertifiedAsBefore, DeclaredAreOfScripts, FrameIsNamed, FramesAreNamed, GraphedAsBefore, NoFrameNamed, OneFrameNumbering, OneWhole, ProgramsAreWhole, ReplayedAsBefore, ReplayedByFrames, ReplayedWithoutCalls, ScriptedAsBefore, UpgradedAsBefore, VerifiedAsBefore, WholesAreFitted};

/// A text with neither invariants nor contracts is verified as where lines of both are unknown.
pub fn verified_as_before()
    ensures { VerifiedAsBefore }
{}

/// So are reports replayed that have neither a head part nor blocks.
pub fn replayed_as_before()
    ensures { ReplayedAsBefore }
{}

/// Without contracts a report without blocks is replayed over frames as where blocks are unknown.
pub fn replayed_without_calls()
    ensures { ReplayedWithoutCalls }
{}

/// What is answered to a report over frames is the answer also where there are no invariants.
pub fn replayed_by_frames()
    ensures { ReplayedByFrames }
{}

/// So are questions of a program certified.
pub fn certified_as_before()
    ensures { CertifiedAsBefore }
{}

/// So are their scripts printed.
pub fn scripted_as_before()
    ensures { ScriptedAsBefore }
{}

/// Where there are no contracts, no word names a frame.
pub fn no_frame_named()
    ensures { NoFrameNamed }
{}

/// A word names the frame of the contract whose address it is.
pub fn frame_is_named()
    ensures { FrameIsNamed }
{}

/// So is the graph printed.
pub fn graphed_as_before()
    ensures { GraphedAsBefore }
{}

/// So are the notes of version 2.
pub fn upgraded_as_before()
    ensures { UpgradedAsBefore }
{}

/// A program that two files are without invariants and contracts is what they are, and nothing else is.
pub fn programs_are_whole()
    ensures { ProgramsAreWhole }
{}

/// Two files are one whole at most.
pub fn one_whole()
    ensures { OneWhole }
{}

/// A row can stand at the address of their function, and at that of each of their contracts, of which no two have one address.
pub fn wholes_are_fitted()
    ensures { WholesAreFitted }
{}

/// The frame of a rank has the name by which reports call it.
pub fn frames_are_named()
    ensures { FramesAreNamed }
{}

/// What an outside solver's answer may define is what the scripts of the frame declare.
#[tactic(auto, using(crate::proofs::FrameDeclared::declared_are_of_scripts))]
pub fn declared_are_of_scripts()
    ensures { DeclaredAreOfScripts }
{}

/// A frame's points are numbered in one way.
#[tactic(auto, using(crate::proofs::OneNumbering::one_numbering))]
pub fn one_numbering()
    ensures { OneFrameNumbering }
{}
