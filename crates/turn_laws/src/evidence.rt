//! Laws of prices and refutations under two bounds on backward transfers.
ghost use Rattle.turn_laws.specs.Raised.{BothRise, PointsFall, PointsRise, PricesRise, RefutationsRise};

/// The points within a bound are points within a greater one.
#[tactic(auto, using(crate::proofs::Prices::points_rise))]
pub fn points_rise()
    ensures { PointsRise }
{}

/// The points within a greater bound that are behind no more backward transfers than a smaller one are the points within that.
#[tactic(auto, using(crate::proofs::Points::points_fall))]
pub fn points_fall()
    ensures { PointsFall }
{}

/// The price for a bound is at most that for a greater one.
#[tactic(auto, using(crate::proofs::Prices::prices_rise))]
pub fn prices_rise()
    ensures { PricesRise }
{}

/// A refutation of a question within a bound, with as many variables as the greater bound has inputs, is one of the question within the greater bound.
#[tactic(auto, using(crate::proofs::Raising::refutations_rise))]
pub fn refutations_rise()
    ensures { RefutationsRise }
{}

/// Refutations of the turn and the fail question within a bound, of which the latter asks the bytes that the former asks, are ones within a greater bound.
#[tactic(auto, using(crate::proofs::Raising::both_rise))]
pub fn both_rise()
    ensures { BothRise }
{}
