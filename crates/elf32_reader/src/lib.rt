//! Reads the bytes of an ELF32 file for 32-bit ARM or RISC-V: what it loads, and where its functions are.
//!
//! System V ABI, object files and program loading. Dynamic linking, relocations and extended numbering
//! are not read.
#![tactic(auto)]

mod fault;
mod fields;
mod header;
mod image;
mod marks;
mod parts;
mod runs;
mod segments;
mod symbols;

pub use fault::ElfFault;
pub use image::{Image, read_image};
pub use parts::Part;
pub use symbols::SymFault;
