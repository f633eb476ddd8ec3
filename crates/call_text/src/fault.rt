//! Why a text with blocks is refused.
ghost use Rattle.std.specs.Prelude.{◌≡◌};
ghost use Rattle.call_text.specs.declared.fault.CalledFault.TheVariants.{Memory};

use crate::text::FrameName;
use frame_text::{FrameFault, Seen};
use std::alloc::AllocError;
use thiserror::Error;

/// Why a line is refused.
#[derive(Clone, Copy, PartialEq, Eq, Debug, Error)]
pub enum CallFault {
    /// As one before the blocks is.
    #[error("{0}")]
    OfFramed(FrameFault),
    /// It begins a block where no contract is or at no greater step than the block before, or in a block it is not the line that is due.
    #[error("S7 Call")]
    Block,
}

/// Why no state is read of a text.
#[derive(Drop, Debug, Error)]
pub enum CalledFault {
    /// The text is refused at its first refused line, by its number from 1; what the whole text misses is refused at the line after the last. Of the start
    /// and the head state of a run of the named frame, what was read stands with it, which a reader with a file judges.
    #[error("line {line}: {kind}")]
    Refused {
        line: u64,
        kind: CallFault,
        frame: FrameName,
        seen: Seen,
    },
    /// Memory ran out.
    #[error("out of memory")]
    Memory,
}

impl From<AllocError> for CalledFault {
    ghost from_gives = { λ _ e. e ≡ Memory };

    fn from(_error: AllocError) -> CalledFault {
        CalledFault::Memory
    }
}
