//! Why a file is refused.
use thiserror::Error;

/// Why a file is refused. Where several faults apply, the first in this order is answered.
#[derive(Clone, Copy, Debug, PartialEq, Eq, Error)]
pub enum ElfFault {
    /// There are fewer than the 52 bytes of a header.
    #[error("E1 Short")]
    Short,
    /// The first four bytes are not those of ELF.
    #[error("E2 Magic")]
    Magic,
    /// The file is not for 32 bits.
    #[error("E3 Class")]
    Class,
    /// The byte order is neither little nor big.
    #[error("E4 Data")]
    Data,
    /// One of the two versions is not 1.
    #[error("E5 Version")]
    Version,
    /// The file is neither ET_EXEC nor ET_DYN.
    #[error("E6 Type")]
    Type,
    /// The machine is neither ARM nor little-endian RISC-V.
    #[error("E7 Machine")]
    Machine,
    /// The table of program headers has entries of another size, extended numbering, or passes the file's end.
    #[error("E8 HeaderTable")]
    HeaderTable,
    /// A loaded segment passes the address 2^32.
    #[error("E9 SegmentRange")]
    SegmentRange,
    /// A loaded segment has more bytes in the file than in memory, or passes the file's end.
    #[error("E10 FileSize")]
    FileSize,
    /// Two loaded segments share an address.
    #[error("E11 Overlap")]
    Overlap,
    /// The sections or a symbol table are not as they have to be.
    #[error("E12 SymbolTable")]
    SymbolTable,
    /// Memory ran out.
    #[error("memory")]
    Memory,
}
