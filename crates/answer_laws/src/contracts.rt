//! Laws of calls over notes with contracts.
ghost use Rattle.answer_laws.specs.Contracted.{FramesMean, WholesAreContracted, WholesAreOfMachine};

/// What notes read and change, and their contracts, is of the machine of their file.
pub fn wholes_are_of_machine()
    ensures { WholesAreOfMachine }
{}

/// Notes with contracts have all that is asked of the frames of contracts.
pub fn wholes_are_contracted()
    ensures { WholesAreContracted }
{}

/// Of a function with contracts of which a call wrote that it holds, every run exits without an event, and keeps each contract that it calls.
pub fn frames_mean()
    ensures { FramesMean }
{}
