//! Laws of prices and refutations of a frame under two bounds on backward transfers.
ghost use Rattle.frame_turns.specs.Raised.{AskedOfMore, FramePricesRise, FrameRefutationsMove, FrameRefutationsRise, FrameRefutedNeverTrue, NeverTrueOfMore};

/// The price for a bound is at most that for a greater one.
#[tactic(auto, using(crate::proofs::Prices::frame_prices_rise))]
pub fn frame_prices_rise()
    ensures { FramePricesRise }
{}

/// A question that is refuted is true of no reading that has the bytes which the refutation asks.
#[tactic(auto, using(crate::proofs::Raising::frame_refuted_never_true))]
pub fn frame_refuted_never_true()
    ensures { FrameRefutedNeverTrue }
{}

/// A question that is true of no reading with some bytes is true of none with more.
#[tactic(auto, using(crate::proofs::Raising::never_true_of_more))]
pub fn never_true_of_more()
    ensures { NeverTrueOfMore }
{}

/// A refutation of a question within a bound, with as many variables as the greater bound has inputs besides bytes, is one of the question within the greater
/// bound, where no reading makes that true.
#[tactic(auto, using(crate::proofs::Raising::frame_refutations_move))]
pub fn frame_refutations_move()
    ensures { FrameRefutationsMove }
{}

/// A refutation of a question within a bound, with as many variables as the greater bound has inputs besides bytes, is one of the question within the greater
/// bound, where no reading with some known bytes makes it true within the smaller one or makes one backward transfer too many, and no further anchor is reached.
#[tactic(auto, using(crate::proofs::Raising::frame_refutations_rise))]
pub fn frame_refutations_rise()
    ensures { FrameRefutationsRise }
{}

/// Where more addresses are asked besides literals, more bytes are.
#[tactic(auto, using(crate::proofs::Raising::asked_of_more))]
pub fn asked_of_more()
    ensures { AskedOfMore }
{}
