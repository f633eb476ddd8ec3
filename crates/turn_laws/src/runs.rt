//! Laws of runs, questions and verdicts under two bounds on backward transfers.
ghost use Rattle.turn_laws.specs.Bounds.{DuesRise, EndsRise, HoldsFalls, QuestionsRise, ReadingsGoAlike, RunsGoAlike, VerdictsRise};

/// As long as the run within a bound has not turned once too often, the run within a greater bound is the same.
#[tactic(auto, using(crate::proofs::Alike::runs_go_alike))]
pub fn runs_go_alike()
    ensures { RunsGoAlike }
{}

/// So are the runs of a reading.
#[tactic(auto, using(crate::proofs::Alike::readings_go_alike))]
pub fn readings_go_alike()
    ensures { ReadingsGoAlike }
{}

/// A run that ends within a bound, by its exit or an event, ends so within a greater one; one that turns too often within the greater one does so within the
/// smaller; and one that fails within the greater one fails or turns too often within the smaller.
#[tactic(auto, using(crate::proofs::Alike::ends_rise))]
pub fn ends_rise()
    ensures { EndsRise }
{}

/// The questions over any bytes are true of the same readings, but for those whose runs turn too often within the smaller bound.
#[tactic(auto, using(crate::proofs::Alike::questions_rise))]
pub fn questions_rise()
    ensures { QuestionsRise }
{}

/// Each verdict but that on a run which turns too often is the right one for every greater bound.
#[tactic(auto, using(crate::proofs::Alike::verdicts_rise))]
pub fn verdicts_rise()
    ensures { VerdictsRise }
{}

/// That all runs return without an event is right within each smaller bound that no run exceeds.
#[tactic(auto, using(crate::proofs::Alike::holds_falls))]
pub fn holds_falls()
    ensures { HoldsFalls }
{}

/// A question that is due within a bound is due within a greater one, the turn question where no run turns too often within the smaller.
#[tactic(auto, using(crate::proofs::Alike::dues_rise))]
pub fn dues_rise()
    ensures { DuesRise }
{}
