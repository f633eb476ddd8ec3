//! Laws of what a report of a failing function with invariants or contracts says of the tables.
ghost use Rattle.answer_laws.specs.Failing.{FailsMean, TurnsMean};

/// A function that is reported to fail has the shown entry state, from which the run of the tables ends in the printed event.
pub fn fails_mean()
    ensures { FailsMean }
{}

/// From the shown entry state of a run that makes one backward transfer too many, the run of the tables makes as many steps without an event or an exit.
pub fn turns_mean()
    ensures { TurnsMean }
{}
