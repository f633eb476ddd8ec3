//! CLZ (section A4.1.13).
ghost use Rattle.std.specs.Prelude.{◌≡◌, ◌≢◌, true};
ghost use Rattle.machine_spec.specs.Arm as rows;

use crate::class::Class;
use crate::fields::{field, register};
use crate::register::Register;
use crate::versions::is_fifth;

/// An instruction of CLZ (section A4.1.13).
#[derive(Clone, Copy)]
pub struct Count {
    word: u32,
    ghost row: { (rows.condition_code word ≢ 15) × (rows.is_count word ≡ true) },
}

/// The fields of CLZ: rd takes how many zeros stand above the highest one of rm.
#[derive(Clone, Copy)]
pub struct CountFields {
    pub rd: Register,
    pub rm: Register,
}

/// Whether the word has a row of CLZ, in a profile that has it.
fn is_count(word: u32) -> bool
    ensures { result ≡ rows.is_count word }
{
    field(word, 27, 16) == 0x16f
        && field(word, 11, 4) == 0xf1
        && field(word, 15, 12) != 15
        && field(word, 3, 0) != 15
}

impl Class for Count {
    ghost use Rattle.std.specs.Prelude.{true};
    ghost use Rattle.arm_decode.specs.declared.insn.Insn.TheVariants as insn;

    ghost insn = { insn.Count };

    ghost exists = { rows.is_fifth };

    ghost has = { rows.is_count };

    #[tactic(auto, using(crate::proofs::Profiles::no_count))]
    fn of(word: u32, profile: u8) -> Option<Count> {
        if !is_fifth(profile) {
            return None;
        }
        if !is_count(word) {
            return None;
        }
        Some(Count { word })
    }

    fn word(self) -> u32 {
        self.word
    }
}

impl Count {
    ghost use Rattle.arm_decode.specs.Forms as forms;

    /// Its fields.
    #[tactic(auto, using(crate::proofs::Registers::count_d, crate::proofs::Registers::count_m))]
    pub fn fields(self) -> CountFields
        ensures { forms.IsCount self.word result }
    {
        let word = self.word();
        CountFields {
            rd: register(word, 12),
            rm: register(word, 0),
        }
    }
}
