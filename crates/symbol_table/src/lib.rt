//! The symbols of an ELF32 file by name: what stands at which address, and how many bytes it has.
//!
//! System V ABI, object files: symbol table.
#![tactic(auto)]

mod fields;
mod labels;
mod names;
mod reading;
mod symbol;
mod table;

pub use labels::Label;
pub use reading::read_symbols;
pub use table::{Found, SymbolTable};
