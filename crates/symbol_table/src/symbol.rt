//! A symbol of a file.

/// A symbol, whose name the file's bytes have.
#[derive(Clone, Copy)]
pub(crate) struct Symbol<'a> {
    /// The file from the name's first byte on; a NUL ends the name.
    pub(crate) text: &'a [u8],
    pub(crate) value: u32,
    /// In bytes.
    pub(crate) size: u32,
}
