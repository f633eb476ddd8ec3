//! Laws of points, prices and refutations of two functions under two bounds on backward transfers.
ghost use Rattle.pair_turns.specs.PairsRaised.{PairPricesRise, RefutedPairs, RefutedPairsRise, WithinFalls};

/// The price of both for a bound is at most that for a greater one.
#[tactic(auto, using(crate::proofs::PairPrices::pair_prices_rise))]
pub fn pair_prices_rise()
    ensures { PairPricesRise }
{}

/// Two functions within the budgets are within those with a smaller bound.
#[tactic(auto, using(crate::proofs::PairPrices::within_falls))]
pub fn within_falls()
    ensures { WithinFalls }
{}

/// A question about both that is refuted is true of no readings.
#[tactic(auto, using(crate::proofs::Refuted::refuted_pair))]
pub fn refuted_pairs()
    ensures { RefutedPairs }
{}

/// A refutation of a question about both within a bound that no run of either exceeds, with as many variables as the greater bound has inputs besides bytes, is
/// one within the greater bound.
#[tactic(auto, using(crate::proofs::PairsRaising::refuted_pairs_rise))]
pub fn refuted_pairs_rise()
    ensures { RefutedPairsRise }
{}
