//! Laws of the ends of runs.
ghost use Rattle.walk_laws.specs.RunEnds.{FewPointsAreFound, FewPointsEndRuns, RunsEndWithin};

/// From an entry state a run has ended after as many steps as there are points.
pub fn runs_end_within()
    ensures { RunsEndWithin }
{}

/// Where there are at most so many points, a run from an entry state has ended after so many steps.
pub fn few_points_end_runs()
    ensures { FewPointsEndRuns }
{}

/// What is found in so many steps is then the end of the run.
pub fn few_points_are_found()
    ensures { FewPointsAreFound }
{}
