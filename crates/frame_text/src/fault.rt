//! Why a text of what a report over frames shows is refused.
ghost use Rattle.std.specs.Prelude.{◌≡◌};
ghost use Rattle.frame_text.specs.declared.fault.FramedFault.TheVariants.{Memory};

use state_text::StateFault;
use std::alloc::AllocError;
use thiserror::Error;

/// Why a line is refused.
#[derive(Clone, Copy, PartialEq, Eq, Debug, Error)]
pub enum FrameFault {
    /// As a line of a start is.
    #[error("{0}")]
    OfPart(StateFault),
    /// A head part begins behind choices, or by the line of a return address, or behind the head state's registers, flags, bytes and choices where the
    /// end has to stand. So is a line refused that names no head or no return address, which a reader of the text alone does not know.
    #[error("S6 Head")]
    Head,
}

/// What was read of a head part: the address of its head, the return addresses and, of the bytes, those before the refused line.
#[derive(Drop, Debug)]
pub struct SeenHead {
    pub at: u32,
    pub stack: Vec<u32>,
    pub bytes: Vec<(u32, u8)>,
}

/// What was read before the refused line that a reader with a file judges.
#[derive(Drop, Debug)]
pub struct Seen {
    /// The bytes of the start. They stand on lines that follow each other, of which the first has the number [`start_value::Layout::head_lines`] + 1.
    pub bytes: Vec<(u32, u8)>,
    /// The head part, whose first line follows the last byte's, and a line for each return address that one.
    pub head: Option<SeenHead>,
}

/// Why no start is read of a text.
#[derive(Drop, Debug, Error)]
pub enum FramedFault {
    /// The text is refused at its first refused line, by its number from 1; what the whole text misses is refused at the line after the last.
    #[error("line {line}: {kind}")]
    Refused {
        line: u64,
        kind: FrameFault,
        seen: Seen,
    },
    /// Memory ran out.
    #[error("out of memory")]
    Memory,
}

impl From<AllocError> for FramedFault {
    ghost from_gives = { λ _ e. e ≡ Memory };

    fn from(_error: AllocError) -> FramedFault {
        FramedFault::Memory
    }
}
