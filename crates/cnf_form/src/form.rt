//! Sets of clauses, logs and proofs.
use crate::clause::Clause;

/// Clauses over the variables 1 to `variables`.
#[derive(Drop)]
pub struct Cnf {
    pub variables: u64,
    pub clauses: Vec<Clause>,
}

/// A hint of a line of a log: the id of a clause, or a negative number, without its sign.
#[derive(Clone, Copy)]
pub enum Hint {
    ById(u64),
    Negative(u64),
}

/// A line of a log.
#[derive(Drop)]
pub enum LogLine {
    /// A clause is added under an id, with hints that tell how it follows.
    Add {
        id: u64,
        clause: Clause,
        hints: Vec<Hint>,
    },
    /// The clauses of `ids` are deleted; the line has an id of its own.
    Delete {
        id: u64,
        ids: Vec<u64>,
    },
    /// A line that is not of the grammar.
    Bad,
}

/// The lines of a proof.
#[derive(Drop)]
pub struct Log {
    pub lines: Vec<LogLine>,
}

/// Clauses with the log of a proof that they have no satisfying values.
#[derive(Drop)]
pub struct Proof {
    pub clauses: Cnf,
    pub log: Log,
}
