//! Laws of lifted lists, of places and of edges.
ghost use Rattle.unroller.specs.Edges.{EndsMakeEdges, ExitsAreReturns};
ghost use Rattle.unroller.specs.FrameFirst.{PointsAreOfSegments};
ghost use Rattle.unroller.specs.Kept.{KeptRunsAreRight};
ghost use Rattle.unroller.specs.Lookups.{FormsAreRight, PointsAreAt};
ghost use Rattle.unroller.specs.Places.{PlacesAreRight, StepsAreRight};
ghost use Rattle.unroller.specs.Rows.{ListsDoRows};

/// The list of a lawful row does at each of its points what the row does, as far as it is read later, and is one that terms can be made of.
pub fn lists_do_rows()
    ensures { ListsDoRows }
{}

/// A point of the code of its address, with its edges, is what a frame has at its place.
pub fn places_are_right()
    ensures { PlacesAreRight }
{}

/// A point at which a contract step is made, with its edges, is what a frame has at its place.
pub fn steps_are_right()
    ensures { StepsAreRight }
{}

/// Ends that are those of the edges of a point, each once and none before the exit, are the ends of its edges.
pub fn ends_make_edges()
    ensures { EndsMakeEdges }
{}

/// An edge of a point is the exit exactly where its row may return and its stack is empty.
pub fn exits_are_returns()
    ensures { ExitsAreReturns }
{}

/// The point of the definitions at a place is that of the value at the place.
pub fn points_are_at()
    ensures { PointsAreAt }
{}

/// The registers and the flags are the machine's that the form is fitted to.
pub fn forms_are_right()
    ensures { FormsAreRight }
{}

/// The maximal runs of kept addresses of a file are runs of the definitions.
pub fn kept_runs_are_right()
    ensures { KeptRunsAreRight }
{}

/// The points of a frame within their segments.
pub fn points_are_of_segments()
    ensures { PointsAreOfSegments }
{}
