//! UMULL, UMLAL, SMULL and SMLAL (section A3.5).
ghost use Rattle.std.specs.Prelude.{◌≡◌, ◌≢◌, true};
ghost use Rattle.machine_spec.specs.Arm as rows;

use crate::class::Class;
use crate::fields::{field, has_pc, is_set, register};
use crate::register::Register;
use crate::versions::is_fifth;

/// An instruction of UMULL, UMLAL, SMULL and SMLAL (section A3.5).
#[derive(Clone, Copy)]
pub struct MultiplyLong {
    word: u32,
    keeps: bool,
    ghost row: { (rows.condition_code word ≢ 15) × (rows.is_multiply_long word ≡ true) },
}

/// The fields of UMULL, UMLAL, SMULL and SMLAL: rm times rs goes to two registers.
#[derive(Clone, Copy)]
pub struct MultiplyLongFields {
    pub is_signed: bool,
    /// Whether the product is added to the two registers.
    pub accumulates: bool,
    pub sets_flags: bool,
    pub upper: Register,
    pub lower: Register,
    pub rm: Register,
    pub rs: Register,
}

/// Whether the word has a row of UMULL, UMLAL, SMULL or SMLAL.
fn is_multiply_long(word: u32) -> bool
    ensures { result ≡ rows.is_multiply_long word }
{
    let (n, d) = (field(word, 19, 16), field(word, 15, 12));
    let (s, m) = (field(word, 11, 8), field(word, 3, 0));
    field(word, 27, 23) == 1
        && field(word, 7, 4) == 9
        && !has_pc(n, d, s, m)
        && n != d
        && n != m
        && d != m
}

impl Class for MultiplyLong {
    ghost use Rattle.std.specs.Prelude.{true};
    ghost use Rattle.arm_decode.specs.declared.insn.Insn.TheVariants as insn;

    ghost insn = { insn.MultiplyLong };

    ghost exists = { λ profile. true };

    ghost has = { rows.is_multiply_long };

    fn of(word: u32, profile: u8) -> Option<MultiplyLong> {
        if is_multiply_long(word) {
            let keeps = is_fifth(profile);
            Some(MultiplyLong { word, keeps })
        } else {
            None
        }
    }

    fn word(self) -> u32 {
        self.word
    }
}

impl MultiplyLong {
    ghost use Rattle.arm_decode.specs.Forms as forms;

    /// Whether it keeps C and V where it sets the flags; else they are the choice's bits.
    pub fn keeps(self) -> bool
        ensures { result ≡ self.keeps }
    {
        self.keeps
    }

    /// Its fields.
    #[tactic(auto, using(crate::proofs::Registers::multiply_long_registers))]
    pub fn fields(self) -> MultiplyLongFields
        ensures { forms.IsMultiplyLong self.word result }
    {
        let word = self.word();
        MultiplyLongFields {
            is_signed: is_set(word, 22),
            accumulates: is_set(word, 21),
            sets_flags: is_set(word, 20),
            upper: register(word, 16),
            lower: register(word, 12),
            rm: register(word, 0),
            rs: register(word, 8),
        }
    }
}
