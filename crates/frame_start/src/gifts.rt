//! What contract steps are given, by values of the inputs.
ghost use Rattle.std.specs.Prelude.{◌≡◌, ◌++◌, ℕ, ◌<◌, ◌≤◌, ◌+◌, ◌^◌, true, false, [], ◌∷◌, Some, Contains, filter, length, map, nat_eq, slice_index, slice_index_or, IfOk, OnOk};
ghost use Rattle.std.specs.List.{list_any};
ghost use Rattle.word_spec.specs.Memory.{memory_of};
ghost use Rattle.word_spec.specs.RowFiles.{from_to};
ghost use Rattle.word_spec.specs.Words.{bit, bit_at};
ghost use Rattle.clause_spec.specs.Clauses.{valuation};
ghost use Rattle.frame_spec.specs.FrameWalk.{Gift};
ghost use Rattle.frame_terms.specs.PassiveFrames.{IsGiftAt};
ghost use Rattle.term_spec.specs.Terms.{TermReading, RegisterNode, FlagNode};
ghost use Rattle.start_value.specs.Starts.{written_of};
ghost use Rattle.question_form.specs.FrameViews.{frame_unrolled_of};
ghost use Rattle.bit_blast.specs.Places.{AreInOrder, IsNamed, IsReadingAt};
ghost use Rattle.bit_blast.specs.Stored.{AreBytes};
ghost use Rattle.frame_start.specs.Changes.{AreGiftsNamed, AreNamed, AreOthers, HasGift, IsOfGift, changed_flags, changed_registers, flag_among, gift_in, is_given};

use crate::changed::{Changed, changes_at, changes_flag, changes_register};
use crate::inputs::bytes_by_address;
use bit_blast::{InputPlaces, first_input, number_at, of_bytes};
use byte_mem::Bytes32;
use question_form::Unrolled;
use start_value::Start;
use std::alloc::{AllocError, Global};
use term_dag::{Node, Reading};

/// Whether a register is one of the frame, which a contract may change.
pub fn is_given(places: &InputPlaces, changed: Changed, number: u8) -> bool
    ensures { result ≡ is_given places.now (changed_registers changed) number }
{
    if number < places.first_register {
        return false;
    }
    if number - places.first_register >= places.registers {
        return false;
    }
    changes_register(changed, number)
}

/// The register of a part.
pub fn register_at(places: &InputPlaces, values: &[bool], part: u32, number: u8) -> u32
    requires order { AreInOrder places.now }
    requires named { IsNamed places.now (RegisterNode part number) }
    ensures { (x : TermReading) → IsReadingAt places.now (valuation values.now) x → result ≡ x.regs part number }
{
    let first = first_input(places, Node::Register { part, number });
    number_at(values, first as usize, 32)
}

/// The flag of a part.
fn flag_at(places: &InputPlaces, values: &[bool], part: u32, number: u8) -> bool
    requires order { AreInOrder places.now }
    requires named { IsNamed places.now (FlagNode part number) }
    ensures { (x : TermReading) → IsReadingAt places.now (valuation values.now) x → bit result ≡ x.flags part number }
{
    let first = first_input(places, Node::Flag { part, number });
    number_at(values, first as usize, 1) == 1
}

/// The register of a part that a contract may change, and 0 of others.
fn given_register(
    places: &InputPlaces,
    values: &[bool],
    part: u32,
    changed: Changed,
    number: u8,
) -> u32
    requires order { AreInOrder places.now }
    requires named { AreNamed places.now part (changed_registers changed) (changed_flags changed) }
    ensures { is_given places.now (changed_registers changed) number ≡ true → (x : TermReading) → IsReadingAt places.now (valuation values.now) x →
        result ≡ x.regs part number }
{
    if is_given(places, changed, number) {
        return register_at(places, values, part, number);
    }
    0
}

/// The flag of a part that a contract may change, and no other.
fn given_flag(
    places: &InputPlaces,
    values: &[bool],
    part: u32,
    changed: Changed,
    number: u8,
) -> bool
    requires order { AreInOrder places.now }
    requires named { AreNamed places.now part (changed_registers changed) (changed_flags changed) }
    requires flag { number < places.now.flags }
    ensures { (x : TermReading) → IsReadingAt places.now (valuation values.now) x → bit result ≡ flag_among x part (changed_flags changed) number }
{
    if changes_flag(changed, number) {
        return flag_at(places, values, part, number);
    }
    false
}

/// The registers of a part by their numbers.
fn registers_by_number(
    alloc: Global,
    places: &InputPlaces,
    values: &[bool],
    part: u32,
    changed: Changed,
) -> Result<Vec<u32>, AllocError>
    requires order { AreInOrder places.now }
    requires named { AreNamed places.now part (changed_registers changed) (changed_flags changed) }
    ensures { IfOk result (λ w. (x : TermReading) → IsReadingAt places.now (valuation values.now) x → (n : ℕ) → n < 32 →
        is_given places.now (changed_registers changed) n ≡ true → slice_index w.items n ≡ x.regs part n) }
{
    let mut registers = Vec::new(alloc);
    for number in 0..32u8 {
        registers.push(given_register(places, values, part, changed, number))?;
    }
    Ok(registers)
}

/// The flags of a part, in the order of their numbers.
pub fn flag_bits(
    alloc: Global,
    places: &InputPlaces,
    values: &[bool],
    part: u32,
    changed: Changed,
) -> Result<Vec<bool>, AllocError>
    requires order { AreInOrder places.now }
    requires named { AreNamed places.now part (changed_registers changed) (changed_flags changed) }
    ensures count { IfOk result (λ w. length w.items ≡ places.now.flags) }
    ensures each { IfOk result (λ w. (x : TermReading) → IsReadingAt places.now (valuation values.now) x → (f : ℕ) → f < places.now.flags →
        bit (slice_index_or w.items f false) ≡ flag_among x part (changed_flags changed) f) }
{
    let mut bits = Vec::new(alloc);
    for number in 0..places.flags {
        bits.push(given_flag(places, values, part, changed, number))?;
    }
    Ok(bits)
}

/// Bits as numbers.
fn digits(alloc: Global, bits: &[bool]) -> Result<Vec<u8>, AllocError>
    ensures { IfOk result (λ w. (f : ℕ) → f < length bits.now → slice_index w.items f ≡ bit (slice_index_or bits.now f false)) }
{
    let mut digits = Vec::new(alloc);
    for i in 0..bits.len() {
        digits.push(bits[i] as u8)?;
    }
    Ok(digits)
}

/// What a contract step is given, with a memory: the registers and the flags that its contract may change, and the bytes of base reads.
fn gift_inputs(
    alloc: Global,
    places: &InputPlaces,
    values: &[bool],
    part: u32,
    changed: Changed,
    addresses: usize,
    memory: Bytes32,
) -> Result<Reading, AllocError>
    requires order { AreInOrder places.now }
    requires named { AreNamed places.now part (changed_registers changed) (changed_flags changed) }
    requires few { addresses < 2 ^ 32 }
    ensures has { IfOk result (HasGift places.now values.now part addresses (changed_registers changed) (changed_flags changed)) }
    ensures memory { IfOk result (λ r. r.memory.entries ≡ memory.entries) }
    ensures fill { IfOk result (λ r. r.fill ≡ 0) }
    ensures base { IfOk result (λ r. length r.base.items ≡ addresses) }
{
    let registers = registers_by_number(alloc, places, values, part, changed)?;
    let bits = flag_bits(alloc, places, values, part, changed)?;
    let flags = digits(alloc, &bits)?;
    let base = bytes_by_address(alloc, places, values, part, addresses)?;
    Ok(Reading {
        registers,
        flags,
        memory,
        fill: 0,
        choices: Vec::new(alloc),
        base,
    })
}

/// No inputs.
fn no_inputs(alloc: Global) -> Reading {
    Reading {
        registers: Vec::new(alloc),
        flags: Vec::new(alloc),
        memory: Bytes32::new(alloc),
        fill: 0,
        choices: Vec::new(alloc),
        base: Vec::new(alloc),
    }
}

/// The memory of the gift of a place as it is written, empty behind the last.
fn gift_memory(alloc: Global, gifts: &[Start], place: usize) -> Result<Bytes32, AllocError>
    ensures value { IfOk result (λ memory. (x : ℕ) → memory_of memory.entries x ≡ memory_of (gift_in gifts.now place).bytes x) }
    ensures below { IfOk result (λ memory. AreBytes (memory_of memory.entries)) }
{
    if place < gifts.len() {
        let memory = of_bytes(alloc, &gifts[place].bytes)?;
        return Ok(memory);
    }
    let memory = of_bytes(alloc, &[])?;
    Ok(memory)
}

/// The data of the gift of a place.
fn gift_reading(
    alloc: Global,
    unrolled: &Unrolled,
    places: &InputPlaces,
    values: &[bool],
    place: usize,
    addresses: usize,
    gifts: &[Start],
) -> Result<Reading, AllocError>
    requires place { place < length unrolled.now.points.items }
    requires points { length unrolled.now.points.items + 2 < 2 ^ 32 }
    requires order { AreInOrder places.now }
    requires named { AreGiftsNamed (frame_unrolled_of unrolled.now) places.now }
    requires few { addresses < 2 ^ 32 }
    ensures { IfOk result (λ r. (g : Gift) → IsGiftAt (frame_unrolled_of unrolled.now) place g →
        IsOfGift places.now values.now place addresses g (gift_in gifts.now place).bytes r) }
{
    match changes_at(unrolled, place) {
        None => Ok(no_inputs(alloc)),
        Some(changed) => {
            let memory = gift_memory(alloc, gifts, place)?;
            let part = place as u32 + 2;
            let reading = gift_inputs(alloc, places, values, part, changed, addresses, memory)?;
            Ok(reading)
        }
    }
}

/// The data of the head, and of the gift of each place with the memory that is written.
pub fn other_readings(
    alloc: Global,
    unrolled: &Unrolled,
    places: &InputPlaces,
    values: &[bool],
    addresses: usize,
    head: Reading,
    gifts: &[Start],
) -> Result<Vec<Reading>, AllocError>
    requires points { length unrolled.now.points.items + 2 < 2 ^ 32 }
    requires order { AreInOrder places.now }
    requires named { AreGiftsNamed (frame_unrolled_of unrolled.now) places.now }
    requires few { addresses < 2 ^ 32 }
    ensures { IfOk result (λ v. AreOthers (frame_unrolled_of unrolled.now) places.now values.now addresses (length unrolled.now.points.items) head
        gifts.now v.items) }
{
    let mut others = Vec::new(alloc);
    others.push(head)?;
    for place in 0..unrolled.points.len() {
        others.push(gift_reading(alloc, unrolled, places, values, place, addresses, gifts)?)?;
    }
    Ok(others)
}
