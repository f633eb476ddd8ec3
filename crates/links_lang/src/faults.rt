//! Why links are refused.
use thiserror::Error;

/// Why a line is refused. Of several faults of a line the first in this order counts.
#[derive(Clone, Copy, PartialEq, Eq, Debug, Error)]
pub enum LinkFault {
    /// It is line 257 or later, it has more than 1024 bytes, or a token that no line may have: a byte that may stand only in a comment, characters that begin no
    /// token, a number of 2^32 or more.
    #[error("M1 Limit")]
    Limit,
    /// It has none of the forms of a line.
    #[error("M2 Syntax")]
    Syntax,
    /// A name is of no register and no flag of its machine, or one is of a register and the other of a flag.
    #[error("M3 Name")]
    Name,
    /// Its range is empty or has more than 256 bytes.
    #[error("M4 Range")]
    Range,
}

/// Why links were not read.
#[derive(Drop, Debug, Error)]
pub enum LinksError {
    /// A line is refused: the first that is, counted from 1, with the first of its faults.
    #[error("line {line} {fault}")]
    Refused { line: u32, fault: LinkFault },
    /// Out of memory.
    #[error("out of memory")]
    Memory,
}
