//! The instructions of RV32IM and RV32IMC.
ghost use Rattle.rv_decode.specs.Halves.{IsOfHalf, IsOfHalf-prop};

use crate::plain::Plain;

/// An instruction of a word, or of a halfword, of which it is the expansion's (chapter 16).
#[derive(Clone, Copy)]
pub struct Insn {
    /// What it does but for its length.
    pub plain: Plain,
    /// The halfword, of an instruction of 2 bytes; the others have 4.
    pub half: Option<u16>,
    pub ghost of_half: { IsOfHalf plain half } by { IsOfHalf-prop plain half },
}

impl Insn {
    ghost use Rattle.std.specs.Prelude.{◌≡◌};
    ghost use Rattle.rv_decode.specs.Insns.{length_by, row_of};

    /// How many bytes it has, 2 or 4.
    #[tactic(auto, using(crate::proofs::Lengths::length_of_row))]
    pub fn length(&self) -> u8
        ensures of_row { result ≡ (row_of self.now).length }
        ensures of_half { result ≡ length_by self.now.half 4 }
    {
        self.length_by_half()
    }

    fn length_by_half(&self) -> u8
        ensures { result ≡ length_by self.now.half 4 }
    {
        match self.half {
            Some(_) => 2,
            None => 4,
        }
    }
}
