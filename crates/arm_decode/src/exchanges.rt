//! BX (section A4.1.10).
ghost use Rattle.std.specs.Prelude.{◌≡◌, ◌≢◌, true};
ghost use Rattle.machine_spec.specs.Arm as rows;

use crate::class::Class;
use crate::fields::{field, register};
use crate::register::Register;
use crate::versions::has_exchange;

/// An instruction of BX (section A4.1.10).
#[derive(Clone, Copy)]
pub struct Exchange {
    word: u32,
    ghost row: { (rows.condition_code word ≢ 15) × (rows.is_exchange word ≡ true) },
}

/// Whether the word has a row of BX, in a profile that has it.
fn is_exchange(word: u32) -> bool
    ensures { result ≡ rows.is_exchange word }
{
    field(word, 27, 4) == 0x12_fff1 && field(word, 3, 0) != 15
}

impl Class for Exchange {
    ghost use Rattle.std.specs.Prelude.{true};
    ghost use Rattle.arm_decode.specs.declared.insn.Insn.TheVariants as insn;

    ghost insn = { insn.Exchange };

    ghost exists = { rows.has_exchange };

    ghost has = { rows.is_exchange };

    #[tactic(auto, using(crate::proofs::Profiles::no_exchange))]
    fn of(word: u32, profile: u8) -> Option<Exchange> {
        if !has_exchange(profile) {
            return None;
        }
        if !is_exchange(word) {
            return None;
        }
        Some(Exchange { word })
    }

    fn word(self) -> u32 {
        self.word
    }
}

impl Exchange {
    /// The register that has the target.
    #[tactic(auto, using(crate::proofs::Registers::exchange_m))]
    pub fn rm(self) -> Register
        ensures { result.number ≡ rows.field_m self.word }
    {
        register(self.word(), 0)
    }
}
