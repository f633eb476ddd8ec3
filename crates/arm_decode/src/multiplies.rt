//! MUL and MLA (section A3.5).
ghost use Rattle.std.specs.Prelude.{◌≡◌, ◌≢◌, true};
ghost use Rattle.machine_spec.specs.Arm as rows;

use crate::class::Class;
use crate::fields::{field, has_pc, is_set, register};
use crate::register::Register;
use crate::versions::is_fifth;

/// An instruction of MUL and MLA (section A3.5).
#[derive(Clone, Copy)]
pub struct Multiply {
    word: u32,
    keeps: bool,
    ghost row: { (rows.condition_code word ≢ 15) × (rows.is_multiply word ≡ true) },
}

/// The fields of MUL and MLA: rm times rs goes to rd.
#[derive(Clone, Copy)]
pub struct MultiplyFields {
    pub rd: Register,
    pub rm: Register,
    pub rs: Register,
    /// What MLA adds.
    pub addend: Option<Register>,
    pub sets_flags: bool,
}

/// Whether the word has a row of MUL or MLA.
fn is_multiply(word: u32) -> bool
    ensures { result ≡ rows.is_multiply word }
{
    let (n, d) = (field(word, 19, 16), field(word, 15, 12));
    let (s, m) = (field(word, 11, 8), field(word, 3, 0));
    field(word, 27, 22) == 0
        && field(word, 7, 4) == 9
        && !has_pc(n, d, s, m)
        && n != m
        && (is_set(word, 21) || d == 0)
}

impl Class for Multiply {
    ghost use Rattle.std.specs.Prelude.{true};
    ghost use Rattle.arm_decode.specs.declared.insn.Insn.TheVariants as insn;

    ghost insn = { insn.Multiply };

    ghost exists = { λ profile. true };

    ghost has = { rows.is_multiply };

    fn of(word: u32, profile: u8) -> Option<Multiply> {
        if is_multiply(word) {
            let keeps = is_fifth(profile);
            Some(Multiply { word, keeps })
        } else {
            None
        }
    }

    fn word(self) -> u32 {
        self.word
    }
}

impl Multiply {
    ghost use Rattle.arm_decode.specs.Forms as forms;

    /// Whether it keeps C and V where it sets the flags; else they are the choice's bits.
    pub fn keeps(self) -> bool
        ensures { result ≡ self.keeps }
    {
        self.keeps
    }

    /// Its fields.
    #[tactic(auto, using(crate::proofs::Registers::multiply_registers))]
    pub fn fields(self) -> MultiplyFields
        ensures { forms.IsMultiply self.word result }
    {
        let word = self.word();
        MultiplyFields {
            rd: register(word, 16),
            rm: register(word, 0),
            rs: register(word, 8),
            addend: if is_set(word, 21) {
                Some(register(word, 12))
            } else {
                None
            },
            sets_flags: is_set(word, 20),
        }
    }
}
