//! Laws of the walks of unrolled programs.
ghost use Rattle.walk_spec.specs.Prices.{PriceIsPrice};
ghost use Rattle.walk_spec.specs.Sweep.{SweepIsWalk};
ghost use Rattle.walk_spec.specs.WalkLaws.{MeetsOnce, PlacesRise, UnrollingIsWalkable};

/// The edges of an unrolled program lead to later places.
pub fn places_rise()
    ensures { PlacesRise }
{}

/// An unrolled program has what its terms need, where its machine and its notes have it.
pub fn unrolling_is_walkable()
    ensures { UnrollingIsWalkable }
{}

/// A walk meets the point at a place at most once.
pub fn meets_once()
    ensures { MeetsOnce }
{}

/// The sweep over the places is the walk.
pub fn sweep_is_walk()
    ensures { SweepIsWalk }
{}

/// The price of an unrolled program is that of its program.
pub fn price_is_price()
    ensures { PriceIsPrice }
{}
