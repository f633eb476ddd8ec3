//! Searches for values that satisfy clauses (conflict-driven clause learning, CDCL).
//!
//! The search decides variables and propagates by turns, and learns a clause from each conflict. It ends with satisfying values, with the log of a refutation,
//! or with the log of as many learned clauses as it was given conflicts.
#![tactic(auto)]

mod answer;
mod decide;
mod hints;
mod learn;
mod minimise;
mod needed;
mod propagate;
mod propagator;
mod search;
mod settle;
mod solver;
mod table;
mod trail;
mod visit;
mod watches;

pub use answer::Answer;
pub use search::solve;
pub use solver::Solver;
