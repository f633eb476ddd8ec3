//! SWI (section A3.14).
ghost use Rattle.std.specs.Prelude.{◌≡◌, ◌≢◌, true};
ghost use Rattle.machine_spec.specs.Arm as rows;
ghost use Rattle.word_spec.specs.Words.{bits};

use crate::class::Class;
use crate::fields::field;

/// An instruction of SWI (section A3.14).
#[derive(Clone, Copy)]
pub struct SoftwareInterrupt {
    word: u32,
    ghost row: { (rows.condition_code word ≢ 15) × (rows.is_software_interrupt word ≡ true) },
}

/// Whether the word has a row of SWI.
fn is_software_interrupt(word: u32) -> bool
    ensures { result ≡ rows.is_software_interrupt word }
{
    field(word, 27, 24) == 15
}

impl Class for SoftwareInterrupt {
    ghost use Rattle.std.specs.Prelude.{true};
    ghost use Rattle.arm_decode.specs.declared.insn.Insn.TheVariants as insn;

    ghost insn = { insn.SoftwareInterrupt };

    ghost exists = { λ profile. true };

    ghost has = { rows.is_software_interrupt };

    fn of(word: u32, profile: u8) -> Option<SoftwareInterrupt> {
        if is_software_interrupt(word) {
            Some(SoftwareInterrupt { word })
        } else {
            None
        }
    }

    fn word(self) -> u32 {
        self.word
    }
}

impl SoftwareInterrupt {
    /// The number that it hands over, of 24 bits.
    pub fn number(self) -> u32
        ensures { result ≡ bits 23 0 self.word }
    {
        field(self.word(), 23, 0)
    }
}
