//! Laws of points: runs go along edges and rise, and there is one price.
ghost use Rattle.bilv_spec.specs.PointLaws.{EdgesRise, NoMorePoints, OnePrice, PointsAreInGraph, RunsByFile, RunsEnd, RunsMeetPoints, RunsRise, StepsAlongEdges};

/// Along every edge the number of backward transfers, and then the address, rise.
pub fn edges_rise()
    ensures { EdgesRise }
{}

/// The points of a run rise in that order, so a run meets a point at most once.
pub fn runs_rise()
    ensures { RunsRise }
{}

/// A step goes along an edge of its point, and exits only where an edge is the exit.
pub fn steps_along_edges()
    ensures { StepsAlongEdges }
{}

/// A run meets points alone.
pub fn runs_meet_points()
    ensures { RunsMeetPoints }
{}

/// From an entry state a run executes the words of the file.
pub fn runs_by_file()
    ensures { RunsByFile }
{}

/// A program has at most one price.
pub fn one_price()
    ensures { OnePrice }
{}

/// A list of all points, of at most so many, leaves no room for more points than that.
pub fn no_more_points()
    ensures { NoMorePoints }
{}

/// From an entry state a run ends, whatever the bound on its backward transfers is.
pub fn runs_end()
    ensures { RunsEnd }
{}

/// The graph has the address of each point, and each edge is a static path.
pub fn points_are_in_graph()
    ensures { PointsAreInGraph }
{}
