//! The price of two unrolled programs with links between them.
#![tactic(auto)]

mod exits;
mod prices;

pub use prices::pair_price;
