//! The inputs of a part that values give.
ghost use Rattle.std.specs.Prelude.{◌≡◌, ℕ, ◌<◌, ◌≤◌, ◌+◌, ◌-◌, ◌*◌, ◌^◌, Some, length, map, slice_index, IfOk};
ghost use Rattle.word_spec.specs.RowFiles.{from_to};
ghost use Rattle.clause_spec.specs.Clauses.{valuation};
ghost use Rattle.term_spec.specs.ClauseForm.{bits_from};
ghost use Rattle.bit_blast.specs.Places as laid;
ghost use Rattle.bit_blast.specs.Places.{AreInOrder};
ghost use Rattle.frame_start.specs.Inputs.{HasInputs, byte_by, read_of};

use bit_blast::{InputPlaces, choices_by_place, flags_by_number, number_at};
use byte_mem::Bytes32;
use std::alloc::{AllocError, Global};
use term_dag::Reading;

/// The first input of a part.
pub fn first_of(places: &InputPlaces, part: u32) -> u32
    ensures { result ≡ laid.first_of places.now part }
{
    if part == 0 { 0 } else { places.first_head }
}

/// The first input of the flags of a part.
pub fn first_flag_of(places: &InputPlaces, part: u32) -> u32
    requires { AreInOrder places.now }
    ensures { result ≡ laid.first_of places.now part + places.now.first_flag }
{
    let _registers = places.registers;
    let _flags = places.flags;
    if part == 0 {
        places.first_flag
    } else {
        places.first_head + places.first_flag
    }
}

/// The registers from an input on, each of 32 values.
pub fn registers_from(
    alloc: Global,
    values: &[bool],
    first: u32,
    count: u8,
) -> Result<Vec<u32>, AllocError>
    ensures { IfOk result (λ w. w.items ≡ map (λ q. bits_from (valuation values.now) (first + 32 * q) 32) (from_to 0 count)) }
{
    let mut registers = Vec::with_capacity(alloc, count as usize)?;
    for i in 0..count {
        registers.push(number_at(values, first as usize + 32 * i as usize, 32))?;
    }
    Ok(registers)
}

/// The registers from an input on by their numbers; those before the first are 0.
fn registers_by_number(
    alloc: Global,
    values: &[bool],
    first: u32,
    first_register: u8,
    count: u8,
) -> Result<Vec<u32>, AllocError>
    ensures { IfOk result (λ w. (n : ℕ) → first_register ≤ n → n < first_register + count →
        slice_index w.items n ≡ bits_from (valuation values.now) (first + 32 * (n - first_register)) 32) }
{
    let mut registers = Vec::new(alloc);
    registers.resize(first_register as usize, 0)?;
    for i in 0..count {
        registers.push(number_at(values, first as usize + 32 * i as usize, 32))?;
    }
    Ok(registers)
}

/// The byte of a base read by its number; 0 of none.
fn byte_of(places: &InputPlaces, values: &[bool], read: Option<u32>) -> u8
    ensures { result ≡ byte_by places.now (valuation values.now) read }
{
    match read {
        None => 0,
        Some(read) => {
            let first = places.first_byte as usize + 8 * read as usize;
            number_at(values, first, 8) as u8
        }
    }
}

/// The bytes of the base reads of a part, by the numbers of their addresses; 0 where there is none.
pub fn bytes_by_address(
    alloc: Global,
    places: &InputPlaces,
    values: &[bool],
    part: u32,
    addresses: usize,
) -> Result<Vec<u8>, AllocError>
    requires few { addresses < 2 ^ 32 }
    ensures count { IfOk result (λ w. length w.items ≡ addresses) }
    ensures each { IfOk result (λ w. (j : ℕ) → j < addresses →
        slice_index w.items j ≡ byte_by places.now (valuation values.now) (read_of places.now part j)) }
{
    let mut bytes = Vec::with_capacity(alloc, addresses)?;
    for address in 0..addresses {
        let read = places.read(part, address as u32);
        bytes.push(byte_of(places, values, read))?;
    }
    Ok(bytes)
}

/// The registers, the flags and the bytes of base reads of a part, with choices. The memory is empty.
pub fn part_inputs(
    alloc: Global,
    places: &InputPlaces,
    values: &[bool],
    part: u32,
    addresses: usize,
    choices: Vec<u8>,
) -> Result<Reading, AllocError>
    requires order { AreInOrder places.now }
    requires few { addresses < 2 ^ 32 }
    ensures inputs { IfOk result (HasInputs places.now values.now part addresses) }
    ensures bytes { IfOk result (λ r. length r.base.items ≡ addresses) }
    ensures choices { IfOk result (λ r. r.choices.items ≡ choices.items) }
    ensures fill { IfOk result (λ r. r.fill ≡ 0) }
{
    let first = first_of(places, part);
    let registers = registers_by_number(
        alloc,
        values,
        first,
        places.first_register,
        places.registers,
    )?;
    let flags = flags_by_number(alloc, values, first_flag_of(places, part), places.flags)?;
    let base = bytes_by_address(alloc, places, values, part, addresses)?;
    Ok(Reading {
        registers,
        flags,
        memory: Bytes32::new(alloc),
        fill: 0,
        choices,
        base,
    })
}
