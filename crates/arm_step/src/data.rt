//! Data processing (section A3.4).
ghost use Rattle.std.specs.Prelude.{◌≡◌, ◌==◌, ◌&&◌, ◌||◌, not, if◌then◌else◌};
ghost use Rattle.machine_spec.specs.Arm as rows;
ghost use Rattle.word_spec.specs.Words as words;
ghost use Rattle.word_spec.specs.Words.{bit};
ghost use Rattle.arm_step.specs.States.{state_of, spare_of};

use crate::access::{operand, write};
use crate::class::Step;
use crate::facts::{Facts, may_jump};
use crate::flags::Flags;
use crate::state::State;
use crate::sums::result_of;
use crate::used_flags::{FlagSet, flags_by};
use crate::words::is_set;
use arm_decode::{Class, Computing};
use byte_mem::{Endian, StepOut};

/// The flags of a result of 32 bits, with C and V.
pub(crate) fn result_flags(value: u32, carry: bool, overflow: bool) -> Flags
    ensures n { bit result.n ≡ words.bit_at 31 value }
    ensures z { result.z ≡ (value == 0) }
    ensures c { result.c ≡ carry }
    ensures v { result.v ≡ overflow }
{
    Flags {
        n: is_set(31, value),
        z: value == 0,
        c: carry,
        v: overflow,
    }
}

/// Sets the flags, where the instruction does so.
pub(crate) fn set_flags_if(sets_flags: bool, flags: Flags, state: &mut State)
    ensures state { state_of state.new ≡ record (state_of state.old) {
      flags = (if sets_flags then rows.with_flags (state_of state.old).flags (bit flags.n) (bit flags.z) (bit flags.c) (bit flags.v)
          else (state_of state.old).flags);
    } }
    ensures spare { spare_of state.new ≡ spare_of state.old }
{
    if sets_flags {
        state.set_flags(flags);
    }
}

/// Whether it writes r15 where its condition holds.
#[tactic(auto, using(arm_decode::proofs::Predicates::test_is))]
fn writes_pc(insn: Computing) -> bool
    ensures { result ≡ (not (rows.is_test insn.word) && (rows.field_d insn.word == 15)) }
{
    let fields = insn.fields();
    !fields.opcode.is_test() && fields.rd.number() == 15
}

/// Whether it reads C, beside its condition.
#[tactic(auto, using(arm_decode::proofs::Predicates::adds_is, arm_decode::proofs::Predicates::rrx_is))]
fn reads_carry(insn: Computing) -> bool
    ensures { result ≡ (rows.adds_carry insn.word || rows.is_rrx insn.word) }
{
    let fields = insn.fields();
    fields.opcode.adds_carry() || fields.operand.is_rrx()
}

/// The flags that it may assign.
#[tactic(auto, using(arm_decode::proofs::Predicates::logical_is, arm_decode::proofs::Predicates::keeps_is))]
fn assigned(insn: Computing) -> FlagSet
    ensures nz { result.nz ≡ rows.sets_flags insn.word }
    ensures c { result.c ≡ (rows.sets_flags insn.word && not (rows.is_logical insn.word && rows.keeps_carry insn.word)) }
    ensures v { result.v ≡ (rows.sets_flags insn.word && not (rows.is_logical insn.word)) }
{
    let fields = insn.fields();
    let is_logical = fields.opcode.is_logical();
    FlagSet {
        nz: fields.sets_flags,
        c: fields.sets_flags && !(is_logical && fields.operand.keeps_carry()),
        v: fields.sets_flags && !is_logical,
    }
}

/// Whether it assigns C whatever the state is, where its condition always holds.
#[tactic(auto, using(arm_decode::proofs::Predicates::logical_is, arm_decode::proofs::Predicates::keeps_is, arm_decode::proofs::Predicates::by_register_is))]
fn surely_carry(insn: Computing) -> bool
    ensures { result ≡ (rows.sets_flags insn.word && not (rows.is_logical insn.word && (rows.keeps_carry insn.word || rows.by_a_register insn.word))) }
{
    let fields = insn.fields();
    let keeps = fields.operand.keeps_carry() || fields.operand.is_by_register();
    fields.sets_flags && !(fields.opcode.is_logical() && keeps)
}

impl Step for Computing {
    fn act(self, state: &mut State, endian: Endian, choice: u8) -> StepOut {
        let fields = self.fields();
        let operand = operand(fields.operand, state);
        let x = state.read_any(fields.rn);
        let made = result_of(fields.opcode, x, operand, state.flags());
        let flags = result_flags(made.value, made.carry, made.overflow);
        set_flags_if(fields.sets_flags, flags, state);
        if fields.opcode.is_test() {
            return state.go_on();
        }
        write(state, fields.rd, made.value)
    }

    fn stored(self, state: &State) -> Option<(u32, u8)> {
        None
    }

    fn loaded(self, state: &State) -> Option<(u32, u8)> {
        None
    }

    fn facts(self, at: u32) -> Facts {
        let condition = self.condition();
        let may = assigned(self);
        let surely = FlagSet {
            c: surely_carry(self),
            ..may
        };
        Facts {
            successors: may_jump(writes_pc(self), condition.is_always()),
            flags: flags_by(condition, reads_carry(self), may, surely),
            ..Facts::plain(condition)
        }
    }
}
