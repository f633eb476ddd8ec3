//! Why clauses are not read.
ghost use Rattle.std.specs.Prelude.{◌≡◌};
ghost use Rattle.cnf_form.specs.declared.fault.CnfError.TheVariants.{Memory};

use std::alloc::AllocError;
use thiserror::Error;

/// Why a line of a text of clauses is refused, in the order in which a line is judged.
#[derive(Clone, Copy, PartialEq, Eq, Debug, Error)]
pub enum CnfFault {
    /// A word can't stand there, or the line `p cnf` is malformed.
    #[error("K1 Token")]
    Token,
    /// The line `p cnf` is missing where it is needed, is a second one, or has a number above 2^30.
    #[error("K2 Header")]
    Header,
    /// A variable is above those of the line `p cnf`.
    #[error("K3 Variable")]
    Variable,
    /// There are not as many clauses as the line `p cnf` says, or the last is not ended.
    #[error("K4 Count")]
    Count,
    /// There is no line `proof`.
    #[error("K5 Proof")]
    Proof,
}

/// Why clauses are not read.
#[derive(Clone, Copy, PartialEq, Eq, Debug, Error)]
pub enum CnfError {
    /// The first refused line, counted from 1, with its first fault; the line after the last where the text ends early.
    #[error("line {line} {fault}")]
    Refused { line: usize, fault: CnfFault },
    /// Memory ran out.
    #[error("memory")]
    Memory,
}

impl From<AllocError> for CnfError {
    ghost from_gives = { λ _ e. e ≡ Memory };

    fn from(_error: AllocError) -> CnfError {
        CnfError::Memory
    }
}
