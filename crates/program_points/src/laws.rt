//! What the ends of a point are.
ghost use Rattle.program_points.specs.Walks.{EndsAreEdges, EndsAreWays};

/// The ends of a point at its node are its edges to addresses.
pub fn ends_are_edges()
    ensures { EndsAreEdges }
{}

/// Which ends of a point at its node are taken by going on, and which by a jump.
pub fn ends_are_ways()
    ensures { EndsAreWays }
{}
