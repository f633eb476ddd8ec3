//! The unrolled program of a program: its points in an order in which every edge leads to a later one, with what is done at each and how it is left; and its
//! price. So the unrolled frame of a program with invariants, whose runs are cut at their addresses.
#![tactic(auto)]

mod codes;
pub mod costs;
mod edges;
mod keys;
mod laws;
pub mod lines;
mod numbering;
mod placing;
pub mod prices;
mod returning;
mod roots;
mod steps;
mod unrolling;

pub use codes::{code_at, codes_at, literals_at};
pub use laws::{
    ends_make_edges, exits_are_returns, forms_are_right, kept_runs_are_right, lists_do_rows,
    places_are_right, points_are_at, points_are_of_segments, steps_are_right,
};
pub use prices::{price, price_with};
pub use unrolling::{FrameParts, unroll, unroll_asking, unroll_contracted, unroll_frame};
