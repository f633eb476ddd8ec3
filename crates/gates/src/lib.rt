//! Circuits: gates over bits, and the clauses that define them.
//!
//! A circuit has inputs and gates. Its methods fold constants and operands that are equal or opposite, and share a gate that is there already, so what they
//! make is told by its value under every valuation that the gates allow, and by a bound on the gates that it took.
#![tactic(auto)]

pub mod bit;
pub mod circuit;
mod clauses;
mod cnf;
mod fold;
pub mod gate;
mod index;
mod order;

pub use bit::Bit;
pub use circuit::Circuit;
pub use clauses::clause_of;
pub use gate::Gate;
