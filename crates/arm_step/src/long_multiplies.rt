//! UMULL, UMLAL, SMULL and SMLAL (section A3.5).
ghost use Rattle.std.specs.Prelude.{◌≡◌, ◌==◌, ℕ, if◌then◌else◌};
ghost use Rattle.word_spec.specs.Words as words;
ghost use Rattle.word_spec.specs.Words.{bit};
ghost use Rattle.arm_decode.specs.Forms.{IsMultiplyLong};
ghost use Rattle.arm_step.specs.States.{state_of};
ghost use Rattle.arm_step.specs.Parts.{long_product};

use crate::class::Step;
use crate::data::set_flags_if;
use crate::facts::Facts;
use crate::flags::Flags;
use crate::multiplies::{kept_or, multiply_facts};
use crate::state::State;
use crate::words::{is_set, word};
use arm_decode::{Class, MultiplyLong, MultiplyLongFields};
use bv_word::Word;
use byte_mem::{Endian, StepOut};

/// The flags of a result of 64 bits, with C and V.
#[tactic(auto, using(crate::proofs::Bits::of_test))]
fn long_flags(value: u64, carry: bool, overflow: bool) -> Flags
    ensures n { bit result.n ≡ words.bit_at 63 value }
    ensures z { result.z ≡ (value == 0) }
    ensures c { result.c ≡ carry }
    ensures v { result.v ≡ overflow }
{
    Flags {
        n: (value >> 63) % 2 == 1,
        z: value == 0,
        c: carry,
        v: overflow,
    }
}

/// A register as a word of 64 bits, with its sign or without.
fn wide(value: u32, is_signed: bool) -> Word
    ensures width { result.width ≡ 64 }
    ensures bits { result.bits ≡ (if is_signed then words.sign_extend 32 64 value else value) }
{
    if is_signed {
        word(value).signed(64)
    } else {
        word(value).unsigned(64)
    }
}

/// The product of UMULL, UMLAL, SMULL and SMLAL, with what it is added to.
fn wide_product(fields: MultiplyLongFields, state: &State) -> u64
    ensures { (w : ℕ) → IsMultiplyLong w fields → result ≡ long_product w (state_of state.now) }
{
    let m = wide(state.read(fields.rm), fields.is_signed);
    let s = wide(state.read(fields.rs), fields.is_signed);
    let sum = if fields.accumulates {
        word(state.read(fields.upper)).concat(word(state.read(fields.lower)))
    } else {
        Word::new(64, 0)
    };
    m.mul(s).add(sum).bits
}

impl Step for MultiplyLong {
    fn act(self, state: &mut State, endian: Endian, choice: u8) -> StepOut {
        let fields = self.fields();
        let product = wide_product(fields, state);
        let old = state.flags();
        let carry = kept_or(self.keeps(), old.c, is_set(0, choice as u32));
        let overflow = kept_or(self.keeps(), old.v, is_set(1, choice as u32));
        let flags = long_flags(product, carry, overflow);
        set_flags_if(fields.sets_flags, flags, state);
        state.set(fields.lower, (product % 0x1_0000_0000) as u32);
        state.set(fields.upper, (product / 0x1_0000_0000) as u32);
        state.go_on()
    }

    fn stored(self, state: &State) -> Option<(u32, u8)> {
        None
    }

    fn loaded(self, state: &State) -> Option<(u32, u8)> {
        None
    }

    fn facts(self, at: u32) -> Facts {
        let sets_flags = self.fields().sets_flags;
        let draws = !self.keeps() && sets_flags;
        multiply_facts(self.condition(), sets_flags, draws, draws)
    }
}
