//! LDM and STM (section A3.12).
ghost use Rattle.std.specs.Prelude.{◌≡◌, ◌≢◌, ◌≤◌, ◌==◌, ◌&&◌, not, true};
ghost use Rattle.machine_spec.specs.Arm as rows;

use crate::class::Class;
use crate::fields::{field, is_set, register};
use crate::register::{Register, RegisterList};

/// An instruction of LDM and STM (section A3.12).
#[derive(Clone, Copy)]
pub struct Block {
    word: u32,
    ghost row: { (rows.condition_code word ≢ 15) × (rows.is_block word ≡ true) },
}

/// The fields of LDM and STM.
#[derive(Clone, Copy)]
pub struct BlockFields {
    pub is_load: bool,
    /// Whether the addresses go up from the base; else they end at it.
    pub is_up: bool,
    /// Whether the base itself is left out of a block that goes up, and taken into one that ends there.
    pub is_before: bool,
    pub writes_back: bool,
    pub rn: Register,
    pub list: RegisterList,
}

/// The lowest register of a list below a number, or 16 where there is none.
fn first_listed(word: u32, end: u32) -> u32
    requires { end ≤ 16 }
    ensures { result ≡ rows.first_of (rows.listed_from word 0 end) }
{
    for register in 0..end {
        if is_set(word, register) {
            return register;
        }
    }
    16
}

/// Whether the base of LDM or STM with write-back is not in the list, or is one that STM can store.
fn has_block_base(word: u32) -> bool
    ensures { result ≡ (not (rows.is_load word && rows.bit_w word && rows.has_bit (rows.field_n word) word)
        && not (not (rows.is_load word) && rows.bit_w word && rows.has_bit (rows.field_n word) word
        && not (rows.first_of (rows.listed word) == rows.field_n word))) }
{
    let n = field(word, 19, 16);
    let is_load = is_set(word, 20);
    let is_written_in_list = is_set(word, 21) && is_set(word, n);
    !(is_load && is_written_in_list)
        && !(!is_load && is_written_in_list && first_listed(word, 16) != n)
}

/// Whether the word has a row of LDM or STM.
fn is_block(word: u32) -> bool
    ensures { result ≡ rows.is_block word }
{
    field(word, 27, 25) == 4
        && !is_set(word, 22)
        && field(word, 15, 0) != 0
        && field(word, 19, 16) != 15
        && has_block_base(word)
}

impl Class for Block {
    ghost use Rattle.std.specs.Prelude.{true};
    ghost use Rattle.arm_decode.specs.declared.insn.Insn.TheVariants as insn;

    ghost insn = { insn.Block };

    ghost exists = { λ profile. true };

    ghost has = { rows.is_block };

    fn of(word: u32, profile: u8) -> Option<Block> {
        if is_block(word) {
            Some(Block { word })
        } else {
            None
        }
    }

    fn word(self) -> u32 {
        self.word
    }
}

impl Block {
    ghost use Rattle.arm_decode.specs.Forms as forms;

    /// Its fields.
    #[tactic(auto, using(crate::proofs::Registers::block_n, crate::proofs::Registers::block_some))]
    pub fn fields(self) -> BlockFields
        ensures { forms.IsBlock self.word result }
    {
        let word = self.word();
        BlockFields {
            is_load: is_set(word, 20),
            is_up: is_set(word, 23),
            is_before: is_set(word, 24),
            writes_back: is_set(word, 21),
            rn: register(word, 16),
            list: RegisterList::new(field(word, 15, 0) as u16),
        }
    }

    /// Whether r15 is in its list.
    pub fn has_pc(self) -> bool
        ensures { result ≡ rows.has_bit 15 self.word }
    {
        is_set(self.word(), 15)
    }
}
