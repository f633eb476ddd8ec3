//! Laws of functions whose notes have neither invariants nor contracts.
ghost use Rattle.frame_verdict.specs.PlainVerdicts.{PlainCertificates, PlainScripts, PlainVerdicts};

/// A verdict that is right of the frame of a program is right of the program.
pub fn plain_verdicts()
    ensures { PlainVerdicts }
{}

/// What a question of the frame comes to, the question of the program comes to.
pub fn plain_certificates()
    ensures { PlainCertificates }
{}

/// The answer that prints the script of a question of the frame is one that prints the script of the question of the program.
pub fn plain_scripts()
    ensures { PlainScripts }
{}
