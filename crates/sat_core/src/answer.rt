//! What the search answers.
use cnf_form::Log;

/// What the search answers.
#[derive(Drop)]
pub enum Answer {
    /// A value for each variable, the first of which is that of variable 1: they satisfy every clause.
    Sat(Vec<bool>),
    /// A refutation: no values satisfy the clauses.
    Unsat(Log),
    /// As many learned clauses as there were conflicts to spend. Each follows by unit propagation from those before it, which did not have it yet.
    Spent(Log),
}
