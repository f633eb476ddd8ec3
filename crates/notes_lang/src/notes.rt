//! Notes, and the dialects of their text.
pub use notes_value::{
    Assert, Contract, FixedRange, FrameNotes, Function, NoteLine, Notes, Targets, Writes,
};

/// Which lines of invariants and contracts a text may have.
#[derive(Clone, Copy)]
pub enum Dialect {
    /// None: their words begin no line.
    Plain,
    /// Any, in a text of version 2.
    Framed,
    /// They are read in version 2, and refused where a line has no other fault: the function is compared with another one.
    Paired,
}
