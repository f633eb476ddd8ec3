//! The instructions of ARM state, versions 4, 4T and 5, from words and back (ARM Architecture Reference Manual, ARM DDI 0100I, chapters A3 to A5).
//!
//! `decode` follows the table of `machine_spec` for a profile: it gives `None` exactly where the table has no row for the word, and else the instruction with
//! that row.
//! `encode` is its inverse. An instruction keeps its class and its word, which has a row of that class: so there is none that no word decodes to.
//! Each class has a file of its own, with its line of the table and its fields: its word's, as registers, operands and offsets. The macro `classes` lists them.
#![tactic(auto)]

mod accesses;
mod blocks;
mod branches;
mod class;
mod counts;
mod data;
mod decoder;
mod exchanges;
mod fields;
mod halfwords;
mod insn;
mod interrupts;
mod long_multiplies;
mod multiplies;
mod parts;
mod register;
mod swaps;
mod transfers;
mod versions;

pub use blocks::{Block, BlockFields};
pub use branches::{Branch, BranchFields};
pub use class::Class;
pub use counts::{Count, CountFields};
pub use data::{Computing, ComputingFields};
pub use decoder::{decode, encode};
pub use exchanges::Exchange;
pub use halfwords::{Halfword, HalfwordFields};
pub use insn::Insn;
pub use interrupts::SoftwareInterrupt;
pub use long_multiplies::{MultiplyLong, MultiplyLongFields};
pub use multiplies::{Multiply, MultiplyFields};
pub use parts::{
    Addressing, Condition, HalfwordOffset, HalfwordOp, Indexing, Offset, Opcode, Operand, ShiftKind,
};
pub use register::{AnyRegister, Register, RegisterList, ShiftAmount};
pub use swaps::{Swap, SwapFields};
pub use transfers::{Transfer, TransferFields};
