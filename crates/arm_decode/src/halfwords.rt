//! LDRH, STRH, LDRSB and LDRSH (section A3.11).
ghost use Rattle.std.specs.Prelude.{◌≡◌, ◌≢◌, true};
ghost use Rattle.machine_spec.specs.Arm as rows;
ghost use Rattle.arm_decode.specs.Parts.{HasHalfwordOffset, HasHalfwordOp};

use crate::accesses::{addressing, is_bad_base};
use crate::class::Class;
use crate::fields::{any_register, field, is_set, register};
use crate::parts::{Addressing, HalfwordOffset, HalfwordOp};
use crate::register::{AnyRegister, Register};

/// An instruction of LDRH, STRH, LDRSB and LDRSH (section A3.11).
#[derive(Clone, Copy)]
pub struct Halfword {
    word: u32,
    ghost row: { (rows.condition_code word ≢ 15) × (rows.is_halfword word ≡ true) },
}

/// The fields of LDRH, STRH, LDRSB and LDRSH.
#[derive(Clone, Copy)]
pub struct HalfwordFields {
    pub op: HalfwordOp,
    pub addressing: Addressing,
    /// The base.
    pub rn: AnyRegister,
    /// What is loaded or stored.
    pub rd: Register,
    pub offset: HalfwordOffset,
}

/// Whether the word has a row of LDRH, STRH, LDRSB or LDRSH.
fn is_halfword(word: u32) -> bool
    ensures { result ≡ rows.is_halfword word }
{
    let kind = field(word, 6, 5);
    let has_offset = is_set(word, 22);
    field(word, 27, 25) == 0
        && is_set(word, 7)
        && is_set(word, 4)
        && kind != 0
        && (has_offset || field(word, 11, 8) == 0)
        && !is_bad_base(word, !has_offset)
        && field(word, 15, 12) != 15
        && (is_set(word, 20) || kind == 1)
}

/// The offset of LDRH, STRH, LDRSB and LDRSH.
#[tactic(auto, using(crate::proofs::Registers::halfword_m))]
fn halfword_offset(word: u32) -> HalfwordOffset
    requires { rows.is_halfword word ≡ true }
    ensures { HasHalfwordOffset word result }
{
    if is_set(word, 22) {
        HalfwordOffset::Number((field(word, 11, 8) * 16 + field(word, 3, 0)) as u8)
    } else {
        HalfwordOffset::Register(register(word, 0))
    }
}

/// The access of LDRH, STRH, LDRSB and LDRSH.
#[tactic(auto, using(crate::proofs::Registers::halfword_kind, crate::proofs::Registers::halfword_stored))]
fn halfword_op(word: u32) -> HalfwordOp
    requires { rows.is_halfword word ≡ true }
    ensures { HasHalfwordOp word result }
{
    if !is_set(word, 20) {
        return HalfwordOp::Strh;
    }
    match field(word, 6, 5) {
        1 => HalfwordOp::Ldrh,
        2 => HalfwordOp::Ldrsb,
        _ => HalfwordOp::Ldrsh,
    }
}

impl Class for Halfword {
    ghost use Rattle.std.specs.Prelude.{true};
    ghost use Rattle.arm_decode.specs.declared.insn.Insn.TheVariants as insn;

    ghost insn = { insn.Halfword };

    ghost exists = { λ profile. true };

    ghost has = { rows.is_halfword };

    fn of(word: u32, profile: u8) -> Option<Halfword> {
        if is_halfword(word) {
            Some(Halfword { word })
        } else {
            None
        }
    }

    fn word(self) -> u32 {
        self.word
    }
}

impl Halfword {
    ghost use Rattle.arm_decode.specs.Forms as forms;

    /// Its fields.
    #[tactic(auto, using(crate::proofs::Registers::halfword_d))]
    pub fn fields(self) -> HalfwordFields
        ensures { forms.IsHalfword self.word result }
    {
        let word = self.word();
        HalfwordFields {
            op: halfword_op(word),
            addressing: addressing(word),
            rn: any_register(word, 16),
            rd: register(word, 12),
            offset: halfword_offset(word),
        }
    }
}
