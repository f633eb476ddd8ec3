//! What is said of base reads, as ties.
ghost use Rattle.std.specs.Prelude.{◌≡◌, ◌<◌, ◌+◌, ◌*◌, ℕ, ◌&&◌, Bool, All, length, IfOk, OnOk};
ghost use Rattle.std.specs.List.{list_all};
ghost use Rattle.word_gates.specs.Numbers.{input_number, number};
ghost use Rattle.gates.specs.Circuits.{Within};
ghost use Rattle.gates.specs.Pushes.{satisfied, AreOver};
ghost use Rattle.bit_blast.specs.Places.{AreInOrder, HasRead};
ghost use Rattle.bit_blast.specs.Said.{agrees_at, asked_at, byte_at, CanAgree, CanBeAsked};
ghost use Rattle.bit_blast.specs.BitWords.{AreWithin};

use crate::input_places::InputPlaces;
use crate::nodes::operand;
use crate::ties::{tie_byte, tie_words};
use cnf_form::Clause;
use gates::Bit;
use mem_cells::{Agreement, AskedByte};
use std::alloc::AllocError;

/// The bits of a base read.
fn read_bits<'a>(places: &InputPlaces, inputs: &'a [Bit], part: u32, read: u32) -> &'a [Bit]
    requires there { HasRead places.now part read }
    requires order { AreInOrder places.now }
    requires all { length inputs.now ≡ places.now.inputs }
    ensures len { length result.now ≡ 8 }
    ensures within { (n : ℕ) → Within n inputs.now → Within n result.now }
    ensures value { (v : ℕ → Bool) → number v result.now ≡ byte_at places.now inputs.now v part read }
{
    let _all = places.inputs;
    let Some(place) = places.read(part, read) else {
        unreachable!()
    };
    let first = places.first_byte as usize + 8 * place as usize;
    &inputs[first..first + 8]
}

/// Adds the clauses that the two reads are equal where the condition is 1, for each agreement.
pub fn tie_agreements(
    ties: &mut Vec<Clause>,
    places: &InputPlaces,
    inputs: &[Bit],
    words: &[Vec<Bit>],
    agrees: &[Agreement],
) -> Result<(), AllocError>
    requires order { AreInOrder places.now }
    requires all { length inputs.now ≡ places.now.inputs }
    requires said { All (CanAgree places.now words.now) agrees.now }
    ensures value { OnOk result ((v : ℕ → Bool) → satisfied v ties.new.items ≡ (satisfied v ties.old.items &&
        list_all (agrees_at places.now inputs.now words.now v) agrees.now)) }
    ensures over { OnOk result ((n : ℕ) → Within n inputs.now → AreWithin n words.now → AreOver n ties.old.items → AreOver n ties.new.items) }
{
    for i in 0..agrees.len() {
        let agreement = agrees[i];
        let condition = operand(words, agreement.condition);
        let a = read_bits(places, inputs, agreement.part, agreement.read);
        let b = read_bits(places, inputs, agreement.part, agreement.other);
        tie_words(ties, condition[0], a, b)?;
    }
    Ok(())
}

/// Adds the clauses that the read is the byte where the condition is 1, for each asked byte.
pub fn tie_asked(
    ties: &mut Vec<Clause>,
    places: &InputPlaces,
    inputs: &[Bit],
    words: &[Vec<Bit>],
    asked: &[AskedByte],
) -> Result<(), AllocError>
    requires order { AreInOrder places.now }
    requires all { length inputs.now ≡ places.now.inputs }
    requires said { All (CanBeAsked places.now words.now) asked.now }
    ensures value { OnOk result ((v : ℕ → Bool) → satisfied v ties.new.items ≡ (satisfied v ties.old.items &&
        list_all (asked_at places.now inputs.now words.now v) asked.now)) }
    ensures over { OnOk result ((n : ℕ) → Within n inputs.now → AreWithin n words.now → AreOver n ties.old.items → AreOver n ties.new.items) }
{
    for i in 0..asked.len() {
        let byte = asked[i];
        let condition = operand(words, byte.condition);
        let bits = read_bits(places, inputs, byte.part, byte.read);
        tie_byte(ties, condition[0], bits, byte.byte)?;
    }
    Ok(())
}
