//! A frame of a program with contracts.
ghost use Rattle.std.specs.Prelude.{◌≡◌, ◌≤◌, All, length};
ghost use Rattle.notes_value.specs.FrameViews.{contract_of};
ghost use Rattle.notes_value.specs.Reads.{IsReadableContract};
ghost use Rattle.program_value.specs.Carried.{AreReadableContracts-prop};

use crate::program::Program;
use machine_law::Machine;
use notes_value::Contract;
use std::alloc::AllocError;

/// A frame of a program with contracts, which are in the order of their ranks: that of the contract of a rank, whose calls step over the contracts of lower
/// ranks, or, with as many as there are contracts for its rank, that of the program's function, whose calls step over all contracts. The lines of the contracts
/// read registers of the machine alone.
pub struct RankedFrame<'a, M: Machine> {
    pub program: Program<'a, M>,
    pub contracts: &'a [Contract],
    pub rank: usize,
    pub ghost ranked: { rank ≤ length contracts.now },
    pub ghost readable: { All (λ x. IsReadableContract M.State.has_register (contract_of x)) contracts.now } by { AreReadableContracts-prop _ _ },
}

impl<'a, M: Machine> Clone for RankedFrame<'a, M> {
    fn clone(&self) -> Result<RankedFrame<'a, M>, AllocError> {
        Ok(*self)
    }
}

impl<'a, M: Machine> Copy for RankedFrame<'a, M> {}
