//! Laws of the symbols of frames.
ghost use Rattle.frame_model.specs.FrameSymbols.{DeclaredAreRead};

/// An answer to a question of a frame is read by exactly what the frame's scripts declare.
pub fn declared_are_read()
    ensures { DeclaredAreRead }
{}
