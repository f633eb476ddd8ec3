//! Why a state text is refused.
ghost use Rattle.std.specs.Prelude.{◌≡◌};
ghost use Rattle.state_text.specs.declared.state_fault.ParseFault.TheVariants.{Memory};

use std::alloc::AllocError;
use thiserror::Error;

/// Why a line of a state text is refused. Where several faults apply to a line, the first in this order is answered.
#[derive(Clone, Copy, PartialEq, Eq, Debug, Error)]
pub enum StateFault {
    /// The line is none of the grammar, names another machine, or stands where the line of the ending or of the machine has to.
    #[error("S1 Line")]
    Line,
    /// A register or a flag is missing, or out of its place.
    #[error("S2 Register")]
    Register,
    /// A byte is 0, is at no greater address than the one before, or stands behind a choice or the end. So is a byte refused that a
    /// file has already, which a reader of the text alone does not know.
    #[error("S3 Byte")]
    Byte,
    /// A choice is not 1 to 3, is for no later step than the one before, or stands behind the end.
    #[error("S4 Choice")]
    Choice,
    /// The line `end` is missing or stands twice.
    #[error("S5 End")]
    End,
}

/// Why no state is read of a text.
#[derive(Drop, Debug, Error)]
pub enum ParseFault {
    /// The text is refused at its first refused line, by its number from 1; what the whole text misses is refused at the line after the last.
    /// The bytes are those of all lines before the refused one, in order. They stand on lines that follow each other, of which the first
    /// has the number [`crate::Layout::head_lines`] + 1, so that who knows some bytes finds the first line of a known one.
    #[error("line {line}: {kind}")]
    Refused {
        line: u64,
        kind: StateFault,
        bytes: Vec<(u32, u8)>,
    },
    /// Memory ran out.
    #[error("out of memory")]
    Memory,
}

impl From<AllocError> for ParseFault {
    ghost from_gives = { λ _ e. e ≡ Memory };

    fn from(_error: AllocError) -> ParseFault {
        ParseFault::Memory
    }
}
