//! Why an answer is not read.
ghost use Rattle.std.specs.Prelude.{◌≡◌};
ghost use Rattle.model_text.specs.declared.fault.ModelFault.TheVariants.{Memory};

use std::alloc::AllocError;
use thiserror::Error;

/// Why a line of an answer is refused. Where several faults apply to a line, the first in this order is answered.
#[derive(Clone, Copy, PartialEq, Eq, Debug, Error)]
pub enum ModelFaultKind {
    /// The first word is not `sat`.
    #[error("A1 Answer")]
    Answer,
    /// No answer goes on with a token, or the text ends before the answer does.
    #[error("A2 Syntax")]
    Syntax,
    /// A sort is not the declared one, or a value is of another sort or too wide.
    #[error("A3 Sort")]
    Sort,
    /// A declared symbol is defined again.
    #[error("A4 Twice")]
    Twice,
}

/// Why an answer is not read.
#[derive(Clone, Copy, PartialEq, Eq, Debug, Error)]
pub enum ModelFault {
    /// The first refused line, counted from 1, with its first fault; the line after the last where the text ends early.
    #[error("line {line} {kind}")]
    Text { line: u64, kind: ModelFaultKind },
    /// Memory ran out.
    #[error("memory")]
    Memory,
}

impl From<AllocError> for ModelFault {
    ghost from_gives = { λ _ e. e ≡ Memory };

    fn from(_error: AllocError) -> ModelFault {
        ModelFault::Memory
    }
}
