//! Why a list does not come to its end.

ghost use Rattle.std.specs.Prelude.{◌≡◌};
ghost use Rattle.bil_eval.specs.declared.faults.EvalFault.TheVariants as fault;

use std::alloc::AllocError;
use thiserror::Error;

/// Why a list does not come to its end.
#[derive(Clone, Copy, PartialEq, Eq, Debug, Error)]
pub enum EvalFault {
    /// The loops made all their turns, and another was due.
    #[error("a loop was out of turns")]
    OutOfTurns,
    /// There was no memory left.
    #[error("out of memory")]
    Memory,
}

impl From<AllocError> for EvalFault {
    ghost from_gives = { λ _ e. e ≡ fault.Memory };

    fn from(_error: AllocError) -> EvalFault {
        EvalFault::Memory
    }
}
