//! LDR, LDRB, STR and STRB (section A3.11).
ghost use Rattle.std.specs.Prelude.{◌≡◌, ◌≢◌, ◌==◌, ◌&&◌, true};
ghost use Rattle.machine_spec.specs.Arm as rows;
ghost use Rattle.arm_decode.specs.Parts.{HasOffset};

use crate::accesses::{addressing, is_bad_base};
use crate::class::Class;
use crate::fields::{amount, any_register, field, is_set, kind, register};
use crate::parts::{Addressing, Offset};
use crate::register::AnyRegister;

/// An instruction of LDR, LDRB, STR and STRB (section A3.11).
#[derive(Clone, Copy)]
pub struct Transfer {
    word: u32,
    ghost row: { (rows.condition_code word ≢ 15) × (rows.is_transfer word ≡ true) },
}

/// The fields of LDR, LDRB, STR and STRB.
#[derive(Clone, Copy)]
pub struct TransferFields {
    pub is_load: bool,
    pub is_byte: bool,
    pub addressing: Addressing,
    /// The base.
    pub rn: AnyRegister,
    /// What is loaded or stored.
    pub rd: AnyRegister,
    pub offset: Offset,
}

/// Whether the word has a row of LDR, LDRB, STR or STRB.
fn is_transfer(word: u32) -> bool
    ensures { result ≡ rows.is_transfer word }
{
    let by_register = is_set(word, 25);
    field(word, 27, 26) == 1
        && !(by_register && is_set(word, 4))
        && !is_bad_base(word, by_register)
        && !(is_set(word, 22) && field(word, 15, 12) == 15)
}

/// The offset of LDR, LDRB, STR and STRB.
#[tactic(auto, using(crate::proofs::Registers::transfer_m))]
fn offset(word: u32) -> Offset
    requires { rows.is_transfer word ≡ true }
    ensures { HasOffset word result }
{
    if is_set(word, 25) {
        Offset::Shifted {
            register: register(word, 0),
            kind: kind(word),
            amount: amount(word),
        }
    } else {
        Offset::Number(field(word, 11, 0) as u16)
    }
}

impl Class for Transfer {
    ghost use Rattle.std.specs.Prelude.{true};
    ghost use Rattle.arm_decode.specs.declared.insn.Insn.TheVariants as insn;

    ghost insn = { insn.Transfer };

    ghost exists = { λ profile. true };

    ghost has = { rows.is_transfer };

    fn of(word: u32, profile: u8) -> Option<Transfer> {
        if is_transfer(word) {
            Some(Transfer { word })
        } else {
            None
        }
    }

    fn word(self) -> u32 {
        self.word
    }
}

impl Transfer {
    ghost use Rattle.arm_decode.specs.Forms as forms;

    /// Its fields.
    pub fn fields(self) -> TransferFields
        ensures { forms.IsTransfer self.word result }
    {
        let word = self.word();
        TransferFields {
            is_load: is_set(word, 20),
            is_byte: is_set(word, 22),
            addressing: addressing(word),
            rn: any_register(word, 16),
            rd: any_register(word, 12),
            offset: offset(word),
        }
    }

    /// Whether its offset is a rotation through the carry.
    pub fn is_rrx(self) -> bool
        ensures { result ≡ (rows.bit_i self.word && (rows.kind_of self.word == 3) && (rows.amount_of self.word == 0)) }
    {
        let word = self.word();
        is_set(word, 25) && field(word, 6, 5) == 3 && field(word, 11, 7) == 0
    }
}
