//! Laws of the ends of segments.
ghost use Rattle.frame_laws.specs.SegmentEnds.{FewPointsEndSegments, StepsAreFew, WholesAreFew};

/// Where there are at most so many points, a segment from an entry state or a head state has ended after so many steps.
pub fn few_points_end_segments()
    ensures { FewPointsEndSegments }
{}

/// The number of each step of a segment is below that of all points.
pub fn steps_are_few()
    ensures { StepsAreFew }
{}

/// Where all frames together have at most so many points, each has.
pub fn wholes_are_few()
    ensures { WholesAreFew }
{}
