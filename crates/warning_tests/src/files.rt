//! Small files.
use std::alloc::{AllocError, Global};

/// The number of RISC-V in a file's header.
pub const RISC_V: u8 = 0xf3;

/// The number of ARM.
pub const ARM: u8 = 0x28;

/// Where the code begins.
pub const ENTRY: u32 = 0x1_0000;

/// A file of one segment, which has its words of code.
#[derive(Clone, Copy)]
pub struct Sample<'a> {
    pub machine: u8,
    /// e_flags.
    pub flags: u32,
    /// The segment's flags: X is 1, W is 2, R is 4.
    pub access: u32,
    pub words: &'a [u32],
    /// The value of the one symbol, a function `sum`, or no symbol table.
    pub symbol: Option<u32>,
}

/// The names of symbols: none, and `sum`.
const NAMES: [u8; 8] = [0, 0x73, 0x75, 0x6d, 0, 0, 0, 0];

/// The first sixteen bytes and the type of a little file that runs.
const BEGIN: [u8; 18] = [
    0x7f, 0x45, 0x4c, 0x46, 1, 1, 1, 0, 0, 0, 0, 0, 0, 0, 0, 0, 2, 0,
];

/// Adds numbers of four bytes.
fn add_words(file: &mut Vec<u8>, words: &[u32]) -> Result<(), AllocError> {
    for word in words {
        file.extend_from_slice(&word.to_le_bytes())?;
    }
    Ok(())
}

/// Adds the header of a file with one program header behind it and three sections, or none, at a place.
fn add_header(file: &mut Vec<u8>, sample: Sample, sections: u32) -> Result<(), AllocError> {
    file.extend_from_slice(&BEGIN)?;
    file.extend_from_slice(&[sample.machine, 0])?;
    add_words(file, &[1, ENTRY, 52, sections, sample.flags])?;
    let count = if sections == 0 { 0 } else { 3 };
    add_words(file, &[0x20_0034, 0x28_0001, count])
}

/// Adds a symbol table with the names, and the three sections that say where they stand.
fn add_symbols(file: &mut Vec<u8>, value: u32, at: u32) -> Result<(), AllocError> {
    // the symbol of no name, and `sum`: STT_FUNC of section 1
    add_words(file, &[0, 0, 0, 0, 1, value, 0, 0x1_0002])?;
    file.extend_from_slice(&NAMES)?;
    add_words(file, &[0, 0, 0, 0, 0, 0, 0, 0, 0, 0])?;
    add_words(file, &[0, 2, 0, 0, at, 32, 2, 0, 0, 16])?;
    add_words(file, &[0, 3, 0, 0, at.wrapping_add(32), 8, 0, 0, 0, 0])
}

/// The file. The error is more than 1,000 words, or want of memory.
pub fn file(alloc: Global, sample: Sample) -> Result<Vec<u8>, AllocError> {
    if sample.words.len() > 1_000 {
        return Err(AllocError);
    }
    let size = sample.words.len() as u32 * 4;
    let behind = 84 + size;
    let mut file = Vec::new(alloc);
    match sample.symbol {
        None => add_header(&mut file, sample, 0)?,
        Some(_) => add_header(&mut file, sample, behind + 40)?,
    }
    add_words(
        &mut file,
        &[1, 84, ENTRY, ENTRY, size, size, sample.access, 4],
    )?;
    add_words(&mut file, sample.words)?;
    if let Some(value) = sample.symbol {
        add_symbols(&mut file, value, behind)?;
    }
    Ok(file)
}
