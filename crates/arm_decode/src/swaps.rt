//! SWP and SWPB (section A3.13).
ghost use Rattle.std.specs.Prelude.{◌≡◌, ◌≢◌, true};
ghost use Rattle.machine_spec.specs.Arm as rows;

use crate::class::Class;
use crate::fields::{field, is_set, register};
use crate::register::Register;

/// An instruction of SWP and SWPB (section A3.13).
#[derive(Clone, Copy)]
pub struct Swap {
    word: u32,
    ghost row: { (rows.condition_code word ≢ 15) × (rows.is_swap word ≡ true) },
}

/// The fields of SWP and SWPB: rd takes what was at the address rn, which takes rm.
#[derive(Clone, Copy)]
pub struct SwapFields {
    pub is_byte: bool,
    pub rn: Register,
    pub rd: Register,
    pub rm: Register,
}

/// Whether the word has a row of SWP or SWPB.
fn is_swap(word: u32) -> bool
    ensures { result ≡ rows.is_swap word }
{
    let (n, d, m) = (field(word, 19, 16), field(word, 15, 12), field(word, 3, 0));
    field(word, 27, 23) == 2
        && field(word, 21, 20) == 0
        && field(word, 11, 4) == 9
        && !(n == 15 || d == 15 || m == 15)
        && n != m
        && n != d
}

impl Class for Swap {
    ghost use Rattle.std.specs.Prelude.{true};
    ghost use Rattle.arm_decode.specs.declared.insn.Insn.TheVariants as insn;

    ghost insn = { insn.Swap };

    ghost exists = { λ profile. true };

    ghost has = { rows.is_swap };

    fn of(word: u32, profile: u8) -> Option<Swap> {
        if is_swap(word) {
            Some(Swap { word })
        } else {
            None
        }
    }

    fn word(self) -> u32 {
        self.word
    }
}

impl Swap {
    ghost use Rattle.arm_decode.specs.Forms as forms;

    /// Its fields.
    #[tactic(auto, using(crate::proofs::Registers::swap_registers))]
    pub fn fields(self) -> SwapFields
        ensures { forms.IsSwap self.word result }
    {
        let word = self.word();
        SwapFields {
            is_byte: is_set(word, 22),
            rn: register(word, 16),
            rd: register(word, 12),
            rm: register(word, 0),
        }
    }
}
