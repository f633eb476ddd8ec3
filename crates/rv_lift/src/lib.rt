//! The machine of RV32IM and RV32IMC (RISC-V Unprivileged ISA 20191213, chapters 2, 7 and 16): its rows, and for each a list of statements that does the same.
#![tactic(auto)]

mod expressions;
mod facts;
mod lifting;
mod machine;
mod statements;

pub use machine::Rv32;
