//! A solver of sets of clauses: it reads a file in DIMACS CNF, searches, and says what the search found as solvers do.
#![tactic(auto)]

mod answer;
mod call;
mod line;
mod program;
mod request;
mod solve;
mod texts;

pub use call::bilv_solve;
pub use program::answer_words;
