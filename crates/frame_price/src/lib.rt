//! The price of an unrolled frame.
#![tactic(auto)]

mod lines;
mod prices;

pub use prices::frame_price;
