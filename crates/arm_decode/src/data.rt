//! Data processing (section A3.4).
ghost use Rattle.std.specs.Prelude.{◌≡◌, ◌≢◌, ◌==◌, ◌&&◌, ◌||◌, not, true};
ghost use Rattle.machine_spec.specs.Arm as rows;
ghost use Rattle.arm_decode.specs.Parts.{HasOperand};

use crate::class::Class;
use crate::fields::{amount, any_register, field, has_pc, is_set, kind, register};
use crate::parts::{Opcode, Operand};
use crate::register::AnyRegister;

/// An instruction of data processing (section A3.4).
#[derive(Clone, Copy)]
pub struct Computing {
    word: u32,
    ghost row: { (rows.condition_code word ≢ 15) × (rows.is_computing word ≡ true) },
}

/// The fields of data processing.
#[derive(Clone, Copy)]
pub struct ComputingFields {
    pub opcode: Opcode,
    pub sets_flags: bool,
    /// The first operand; MOV and MVN have none, and this is r0.
    pub rn: AnyRegister,
    /// The register that is written; the tests write none, and this is r0.
    pub rd: AnyRegister,
    pub operand: Operand,
}

/// Whether the operand of data processing is shifted by a register.
fn by_a_register(word: u32) -> bool
    ensures { result ≡ rows.by_a_register word }
{
    !is_set(word, 25) && is_set(word, 4)
}

/// Whether the fields that the opcode does not use are 0, and only a row that writes no register 15 sets the flags.
#[tactic(auto, using(crate::proofs::Predicates::test_is))]
fn has_fields_of_opcode(word: u32) -> bool
    ensures { result ≡ (not (rows.is_test word && (not (rows.sets_flags word) || not (rows.field_d word == 0)))
        && not (((rows.opcode word == 13) || (rows.opcode word == 15)) && not (rows.field_n word == 0))
        && not (rows.sets_flags word && (rows.field_d word == 15))) }
{
    let (n, d) = (field(word, 19, 16), field(word, 15, 12));
    let opcode = field(word, 24, 21);
    let sets_flags = is_set(word, 20);
    !(Opcode::of(opcode).is_test() && (!sets_flags || d != 0))
        && !((opcode == 13 || opcode == 15) && n != 0)
        && !(sets_flags && d == 15)
}

/// Whether the word has a row of data processing.
fn is_computing(word: u32) -> bool
    ensures { result ≡ rows.is_computing word }
{
    let (n, d) = (field(word, 19, 16), field(word, 15, 12));
    let (s, m) = (field(word, 11, 8), field(word, 3, 0));
    field(word, 27, 26) == 0
        && (is_set(word, 25) || !is_set(word, 4) || !is_set(word, 7))
        && has_fields_of_opcode(word)
        && !(by_a_register(word) && has_pc(n, d, s, m))
}

/// The operand of data processing.
#[tactic(auto, using(crate::proofs::Registers::computing_s, crate::proofs::Registers::computing_m))]
fn operand(word: u32) -> Operand
    requires { rows.is_computing word ≡ true }
    ensures { HasOperand word result }
{
    if is_set(word, 25) {
        Operand::Number {
            byte: field(word, 7, 0) as u8,
            rotation: field(word, 11, 8) as u8,
        }
    } else if is_set(word, 4) {
        Operand::ByRegister {
            register: register(word, 0),
            kind: kind(word),
            amount: register(word, 8),
        }
    } else {
        Operand::ByNumber {
            register: any_register(word, 0),
            kind: kind(word),
            amount: amount(word),
        }
    }
}

impl Class for Computing {
    ghost use Rattle.std.specs.Prelude.{true};
    ghost use Rattle.arm_decode.specs.declared.insn.Insn.TheVariants as insn;

    ghost insn = { insn.Computing };

    ghost exists = { λ profile. true };

    ghost has = { rows.is_computing };

    fn of(word: u32, profile: u8) -> Option<Computing> {
        if is_computing(word) {
            Some(Computing { word })
        } else {
            None
        }
    }

    fn word(self) -> u32 {
        self.word
    }
}

impl Computing {
    ghost use Rattle.arm_decode.specs.Forms as forms;

    /// Its fields.
    pub fn fields(self) -> ComputingFields
        ensures { forms.IsComputing self.word result }
    {
        let word = self.word();
        ComputingFields {
            opcode: Opcode::of(field(word, 24, 21)),
            sets_flags: is_set(word, 20),
            rn: any_register(word, 16),
            rd: any_register(word, 12),
            operand: operand(word),
        }
    }
}
