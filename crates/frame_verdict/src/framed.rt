//! Programs whose notes have invariants or contracts.
use machine_law::Machine;
use notes_value::Contract;
use program_value::Program;

/// A program, the rising numbers of those assert lines of its notes that are invariants, and their contracts in the order of their ranks.
#[derive_where(Clone, Copy)]
pub struct Framed<'a, M: Machine> {
    pub program: Program<'a, M>,
    pub invariants: &'a [u32],
    pub contracts: &'a [Contract],
}
