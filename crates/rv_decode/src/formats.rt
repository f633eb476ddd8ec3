//! Which instructions `encode` takes.
ghost use Rattle.rv_decode.specs.Formats.{EachFitting};

/// Each instruction whose immediate is one of its format is of some word.
#[tactic(auto, using(crate::proofs::Cuts::fitting))]
pub fn fitting_is_decodable()
    ensures { EachFitting }
{}
