//! Laws of answers.
ghost use Rattle.model_text.specs.OneAnswers.{OneAnswer};

/// A text is an answer in one way at most.
#[tactic(auto, using(crate::proofs::OneAnswers::one_answer))]
pub fn one_answer()
    ensures { OneAnswer }
{}
