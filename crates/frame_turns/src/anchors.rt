//! Laws of the points and the anchors of a frame under two bounds on backward transfers.
ghost use Rattle.frame_turns.specs.Anchors.{AnchorsCount, FramePointsRise};

/// The points within a bound are points within a greater one.
#[tactic(auto, using(crate::proofs::AnchorCounts::frame_points_rise))]
pub fn frame_points_rise()
    ensures { FramePointsRise }
{}

/// Where the unrolled frames for two bounds have equally many roots, segments begin at the same anchors within both.
#[tactic(auto, using(crate::proofs::AnchorCounts::anchors_count))]
pub fn anchors_count()
    ensures { AnchorsCount }
{}
