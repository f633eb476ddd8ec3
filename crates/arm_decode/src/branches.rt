//! B and BL (section A3.3).
ghost use Rattle.std.specs.Prelude.{◌≡◌, ◌≢◌, true};
ghost use Rattle.machine_spec.specs.Arm as rows;

use crate::class::Class;
use crate::fields::{field, is_set};

/// An instruction of B and BL (section A3.3).
#[derive(Clone, Copy, PartialEq, Eq)]
pub struct Branch {
    word: u32,
    ghost row: { (rows.condition_code word ≢ 15) × (rows.is_branch word ≡ true) },
}

/// The fields of B and BL.
#[derive(Clone, Copy)]
pub struct BranchFields {
    pub is_linked: bool,
    /// What is added to the address and 8, as a word with its sign.
    pub offset: u32,
}

/// Whether the word has a row of B or BL.
fn is_branch(word: u32) -> bool
    ensures { result ≡ rows.is_branch word }
{
    field(word, 27, 25) == 5
}

impl Class for Branch {
    ghost use Rattle.std.specs.Prelude.{true};
    ghost use Rattle.arm_decode.specs.declared.insn.Insn.TheVariants as insn;

    ghost insn = { insn.Branch };

    ghost exists = { λ profile. true };

    ghost has = { rows.is_branch };

    fn of(word: u32, profile: u8) -> Option<Branch> {
        if is_branch(word) {
            Some(Branch { word })
        } else {
            None
        }
    }

    fn word(self) -> u32 {
        self.word
    }
}

impl Branch {
    ghost use Rattle.arm_decode.specs.Forms as forms;

    /// Its fields.
    #[tactic(auto, using(crate::proofs::Registers::signed_offset))]
    pub fn fields(self) -> BranchFields
        ensures { forms.IsBranch self.word result }
    {
        let word = self.word();
        let offset = 4 * field(word, 23, 0);
        BranchFields {
            is_linked: is_set(word, 24),
            offset: if is_set(word, 23) {
                offset + 0xfc00_0000
            } else {
                offset
            },
        }
    }

    /// The target, from the address where it stands.
    pub fn target(self, at: u32) -> u32
        ensures { result ≡ rows.branch_target self.word at }
    {
        at.wrapping_add(8).wrapping_add(self.fields().offset)
    }
}
