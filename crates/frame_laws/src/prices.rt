//! Laws of what unrolled frames cost.
ghost use Rattle.frame_laws.specs.FramePrices.{FramePartsAddUp, FramePriceIsPrice, HeadlessBounds};
ghost use Rattle.frame_laws.specs.OnePrice.{OneFramePrice, OneWholePrice};

/// The price of an unrolled frame is that of its frame.
pub fn frame_price_is_price()
    ensures { FramePriceIsPrice }
{}

/// What a question's term may have is what its points, its entry condition and its roots may.
pub fn frame_parts_add_up()
    ensures { FramePartsAddUp }
{}

/// Without invariants and contracts the bounds are those of the unrolled program.
pub fn headless_bounds()
    ensures { HeadlessBounds }
{}

/// A frame has one price.
pub fn one_frame_price()
    ensures { OneFramePrice }
{}

/// So have all frames of notes together.
pub fn one_whole_price()
    ensures { OneWholePrice }
{}
