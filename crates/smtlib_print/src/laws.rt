//! What is claimed of the text of scripts.
ghost use Rattle.smtlib_print.specs.FrameTold.{ScriptsAreOfFrames};
ghost use Rattle.smtlib_print.specs.Programs.{ScriptsAreOfPrograms};
ghost use Rattle.smtlib_print.specs.Scripted.{ScriptsTell};

/// The text of a script says exactly the question of its term, for each form of states.
pub fn scripts_tell()
    ensures { ScriptsTell }
{}

/// A script that tells a question over the unrolled program of a program is a script of the program's question.
pub fn scripts_are_of_programs()
    ensures { ScriptsAreOfPrograms }
{}

/// A script that tells a question over the unrolled frame of a frame is a script of the frame's question.
pub fn scripts_are_of_frames()
    ensures { ScriptsAreOfFrames }
{}
