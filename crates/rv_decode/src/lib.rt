//! The instructions of RV32IM and of RV32C, from words and back (RISC-V Unprivileged ISA 20191213, chapters 2, 7 and 16; the encodings are listed in chapter 24
//! and in section 16.8).
//!
//! `decode` follows the table of `machine_spec`: it gives `None` exactly where the table has no row for the word, and else the instruction with that row.
//! `encode` is its inverse.
#![tactic(auto)]

mod decoder;
mod encoder;
mod expander;
mod fields;
mod formats;
mod half_fields;
mod insn;
mod operations;
mod plain;
mod register;
mod shift_amount;
mod word_formats;

pub use decoder::decode;
pub use encoder::encode;
pub use expander::expansion;
pub use formats::fitting_is_decodable;
pub use insn::Insn;
pub use operations::Operation;
pub use plain::{BranchOp, ImmediateOp, LoadOp, Plain, RegisterOp, ShiftOp, StoreOp};
pub use register::Register;
pub use shift_amount::ShiftAmount;
