//! Laws of runs of two functions, and of questions about both, under two bounds on backward transfers.
ghost use Rattle.pair_turns.specs.PairBounds.{ExitsRise, PairQuestionsFall, PairsRise};

/// A run that exits within a bound exits by the same step, in the same state, within every greater one.
#[tactic(auto, using(crate::proofs::PairsAlike::exits_rise))]
pub fn exits_rise()
    ensures { ExitsRise }
{}

/// So functions that are equal within a bound are equal within every greater one, and exits that differ are the same exits there.
#[tactic(auto, using(crate::proofs::PairsAlike::pairs_rise))]
pub fn pairs_rise()
    ensures { PairsRise }
{}

/// A question about both that is true of readings within a bound is true of them within each smaller bound that no run of either exceeds.
#[tactic(auto, using(crate::proofs::PairsAlike::pair_questions_fall))]
pub fn pair_questions_fall()
    ensures { PairQuestionsFall }
{}
