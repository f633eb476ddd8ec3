//! MUL and MLA (section A3.5).
ghost use Rattle.std.specs.Prelude.{◌≡◌, true, false, None, ℕ, if◌then◌else◌};
ghost use Rattle.machine_spec.specs.Arm as rows;
ghost use Rattle.word_spec.specs.Words.{bit};
ghost use Rattle.machine_law.specs.Facts.{cost_of, successors_of, IsFlagUse};
ghost use Rattle.arm_decode.specs.Forms.{HasAddend, IsMultiply};
ghost use Rattle.arm_decode.specs.Parts.{condition_number};
ghost use Rattle.arm_step.specs.States.{state_of};
ghost use Rattle.arm_step.specs.Parts.{short_product};

use crate::class::Step;
use crate::data::{result_flags, set_flags_if};
use crate::facts::{Facts, access_cost};
use crate::state::State;
use crate::used_flags::{FlagSet, flags_by};
use crate::words::{is_set, multiplied};
use arm_decode::{Class, Condition, Multiply, MultiplyFields, Register};
use byte_mem::{Endian, StepOut};

/// What is added to a product: nothing, or a register.
fn addend(register: Option<Register>, state: &State) -> u32
    ensures { (w : ℕ) → HasAddend w register → result ≡ (if rows.accumulates w then rows.reg (state_of state.now) (rows.field_d w) else 0) }
{
    match register {
        Some(register) => state.read(register),
        None => 0,
    }
}

/// The product of MUL and MLA, with what is added.
fn product(fields: MultiplyFields, state: &State) -> u32
    ensures { (w : ℕ) → IsMultiply w fields → result ≡ short_product w (state_of state.now) }
{
    let product = multiplied(state.read(fields.rm), state.read(fields.rs));
    product.wrapping_add(addend(fields.addend, state))
}

/// A flag as it was, or as it is drawn.
pub(crate) fn kept_or(keeps: bool, old: bool, drawn: bool) -> bool
    ensures { bit result ≡ (if keeps then bit old else bit drawn) }
{
    if keeps { old } else { drawn }
}

/// What is told of a multiply, which may draw C, and V too.
pub(crate) fn multiply_facts(
    condition: Condition,
    sets_flags: bool,
    draws: bool,
    draws_overflow: bool,
) -> Facts
    ensures successors { successors_of result.successors ≡ record { next = true; direct = None; indirect = false; call = false } }
    ensures literal { result.literal ≡ None }
    ensures cost { cost_of result.cost ≡ record { row = 20000; loads = 0; stores = 0 } }
    ensures flags { (w : ℕ) → condition_number condition ≡ rows.condition_code w → IsFlagUse result.flags
        (rows.flag_use w rows.none (rows.flag_set sets_flags draws draws_overflow) (rows.flag_set sets_flags draws draws_overflow)) }
    ensures draws { result.draws ≡ draws }
    ensures links { result.links ≡ false }
{
    let set = FlagSet {
        nz: sets_flags,
        c: draws,
        v: draws_overflow,
    };
    Facts {
        cost: access_cost(20000, true, 0, 0),
        flags: flags_by(condition, false, set, set),
        draws,
        ..Facts::plain(condition)
    }
}

impl Step for Multiply {
    fn act(self, state: &mut State, endian: Endian, choice: u8) -> StepOut {
        let fields = self.fields();
        let value = product(fields, state);
        let old = state.flags();
        let carry = kept_or(self.keeps(), old.c, is_set(0, choice as u32));
        let flags = result_flags(value, carry, old.v);
        set_flags_if(fields.sets_flags, flags, state);
        state.set(fields.rd, value);
        state.go_on()
    }

    fn stored(self, state: &State) -> Option<(u32, u8)> {
        None
    }

    fn loaded(self, state: &State) -> Option<(u32, u8)> {
        None
    }

    fn facts(self, at: u32) -> Facts {
        let sets_flags = self.fields().sets_flags;
        let draws = !self.keeps() && sets_flags;
        multiply_facts(self.condition(), sets_flags, draws, false)
    }
}
