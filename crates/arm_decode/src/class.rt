//! A class of instructions: a line of the table.
ghost use Rattle.std.specs.Prelude.{◌≡◌, ◌≢◌, ◌&&◌, true, false, MatchOption, ℕ, Bool};
ghost use Rattle.machine_spec.specs.Arm as rows;
ghost use Rattle.arm_decode.specs.Parts.{condition_number};

use crate::fields::field;
use crate::parts::Condition;

/// A class of instructions: those of the words that one line of the table has.
pub trait Class: Copy {
    ghost use Rattle.arm_decode.specs.declared.insn.Insn.{Insn};
    ghost use Rattle.arm_decode.specs.Insns.{word_of, IsOfProfile};

    /// The instruction.
    ghost insn: { Self → Insn };

    /// The profiles that have the line.
    ghost exists: { rows.Profile → Bool };

    /// The words of the line.
    ghost has: { ℕ → Bool };

    /// The instruction of a word, where it has a row of this class in the profile of a number.
    fn of(word: u32, profile: u8) -> Option<Self>
        requires { rows.condition_code word ≢ 15 }
        ensures { MatchOption result ((exists (rows.profile_of profile) && has word) ≡ false)
            (λ x. (word_of (insn x) ≡ word) × IsOfProfile (rows.profile_of profile) (insn x)) };

    /// Its word.
    fn word(self) -> u32
        ensures same { result ≡ word_of (insn self) }
        ensures condition { rows.condition_code result ≢ 15 }
        ensures row { has result ≡ true };

    /// Its condition.
    fn condition(self) -> Condition
        ensures { condition_number result ≡ rows.condition_code (word_of (insn self)) }
    {
        Condition::of(field(self.word(), 31, 28))
    }
}
