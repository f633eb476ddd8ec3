//! From a word to its instruction, and back.
ghost use Rattle.std.specs.Prelude.{◌≡◌, ◌≢◌, None, MatchOption, IfSome};
ghost use Rattle.std.specs.Option.{option_map};
ghost use Rattle.machine_spec.specs.Arm as rows;
ghost use Rattle.word_spec.specs.Memory.{Endian};
ghost use Rattle.arm_decode.specs.declared.insn.Insn.{Insn};
ghost use Rattle.arm_decode.specs.Insns.{word_of, row_of, IsOfProfile};

use crate::class::Class;
use crate::classes;
use crate::fields::field;
use crate::insn::Insn;

/// The instruction of a word in a profile, or `None` where the profile's table has no row for it. The profile is 0 for version 4, 1 for version 4T, and any
/// other number for version 5.
///
/// In either byte order the row of the instruction is the word's. Its word is this one, and no other instruction of the profile has that word.
pub fn decode(word: u32, profile: u8) -> Option<Insn>
    ensures row { (e : Endian) → option_map (row_of e) result ≡ rows.arm_row e (rows.profile_of profile) word }
    ensures word { IfSome result (λ i. word_of i ≡ word) }
    ensures fits { IfSome result (IsOfProfile (rows.profile_of profile)) }
    ensures only { (i : Insn) → word_of i ≡ word → IsOfProfile (rows.profile_of profile) i → result ≡ Some i }
{
    decode_by_class(word, profile)
}

/// The word of an instruction: `decode` gives an instruction of the profile back.
pub fn encode(insn: &Insn) -> u32
    ensures { result ≡ word_of insn.now }
{
    insn.word()
}

#[tactic(auto, using(crate::proofs::Lines::no_row))]
fn decode_by_class(word: u32, profile: u8) -> Option<Insn>
    ensures { MatchOption result ((e : Endian) → rows.arm_row e (rows.profile_of profile) word ≡ None)
        (λ i. (word_of i ≡ word) × IsOfProfile (rows.profile_of profile) i) }
{
    if field(word, 31, 28) == 15 {
        return None;
    }
    classes!(find word, profile);
    None
}
