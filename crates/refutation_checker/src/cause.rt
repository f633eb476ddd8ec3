//! What a check says.
use thiserror::Error;

/// Why a line of a log is refused, in the order in which a line is judged.
#[derive(Clone, Copy, PartialEq, Eq, Debug, Error)]
pub enum Cause {
    /// The line is not of the grammar: a number is above 2^62, a 0 stands in a list, or its text was no line.
    #[error("L1 Line")]
    NotOfGrammar,
    /// The id of an added clause is not above every id before.
    #[error("L2 Id")]
    IdNotAbove,
    /// A variable is above those of the clauses.
    #[error("L3 Variable")]
    VariableAbove,
    /// A literal stands beside its opposite.
    #[error("L4 Tautology")]
    Tautology,
    /// A hint is negative.
    #[error("L5 NegativeHint")]
    NegativeHint,
    /// A hint names no present clause.
    #[error("L6 UnknownHint")]
    UnknownHint,
    /// The clause of a hint is neither a unit nor a conflict.
    #[error("L7 NotUnit")]
    NotUnit,
    /// No hint led to a conflict.
    #[error("L8 NoConflict")]
    NoConflict,
    /// No line added the empty clause. This is the cause of the log's end, and of no line.
    #[error("L9 End")]
    NoEmptyClause,
}

/// What a check of a log says.
#[derive(Clone, Copy)]
pub enum Checked {
    /// The log is a refutation of the clauses.
    Yes,
    /// The first line that is refused, counted from 1, with its first cause; the line after the last where no line
    /// added the empty clause.
    No { line: usize, cause: Cause },
}
