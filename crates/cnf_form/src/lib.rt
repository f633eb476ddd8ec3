//! Clauses, logs and proofs as values, and the text of clauses.
//!
//! A set of clauses is read from and printed as DIMACS CNF, and a log of a proof has the lines of LRAT.
#![tactic(auto)]

pub mod clause;
pub mod fault;
pub mod form;
mod gather;
mod header;
pub mod lists;
pub mod lit;
pub mod number;
pub mod print;
pub mod range;
mod read;
pub mod words;

pub use clause::Clause;
pub use fault::{CnfError, CnfFault};
pub use form::{Cnf, Hint, Log, LogLine, Proof};
pub use lit::Lit;
pub use print::print_cnf;
pub use range::are_on_variables;
pub use read::{behind_lines, read_cnf};
