//! The entry and the head as they are written.
ghost use Rattle.std.specs.Prelude.{◌≡◌, ◌++◌, ℕ, [], ◌∷◌, ◌≤◌, ◌<◌, Contains, filter, length, map, IfOk, OnOk};
ghost use Rattle.clause_spec.specs.Clauses.{valuation};
ghost use Rattle.frame_terms.specs.FrameCells.{AreFormed};
ghost use Rattle.start_value.specs.Starts.{written_of};
ghost use Rattle.question_form.specs.FrameQuestions.{heads_of_question};
ghost use Rattle.question_form.specs.FrameViews.{frame_unrolled_of};
ghost use Rattle.mem_cells.specs.FrameViews.{frame_cells_of, frame_of_cells};
ghost use Rattle.bit_blast.specs.Places.{AreInOrder, IsReadingAt};
ghost use Rattle.word_spec.specs.RowFiles.{from_to};
ghost use Rattle.term_spec.specs.Terms.{TermReading};
ghost use Rattle.frame_start.specs.Changes.{AreNamed, changed_flags, changed_registers, is_given};
ghost use Rattle.frame_start.specs.Evaluations.{IsEvaluated};
ghost use Rattle.frame_start.specs.Files.{AreWhole, AreWrittenBytes, ForSomeValues, IsWrittenGift, IsWrittenOf, is_free_at};
ghost use Rattle.frame_start.specs.Segments.{AreGiftsOf, ArePartsOf, IsGiftOf};

use crate::changed::{Changed, changes_at};
use crate::evaluated::Evaluated;
use crate::file_bytes::file_byte;
use crate::gifts::{flag_bits, is_given, register_at};
use crate::inputs::{first_flag_of, first_of, registers_from};
use bit_blast::{InputPlaces, bytes_in_order, not_zero, number_at};
use question_form::Unrolled;
use start_value::Start;
use std::alloc::{AllocError, Global};

/// The entry, the head and gifts as they are written, without choices. The head is one only where the question speaks of head states.
#[derive(Drop)]
pub struct Parts {
    pub entry: Start,
    pub head: Start,
    /// For each place what its contract step is given: of registers and flags those that the contract may change. Where no contract step is made, nothing.
    pub gifts: Vec<Start>,
}

/// Lists a read if the part has no byte of the file at its address.
fn list_free(
    found: &mut Vec<(u32, u8)>,
    unrolled: &Unrolled,
    part: u32,
    read: (u32, u8),
) -> Result<(), AllocError>
    ensures { OnOk result (found.new.items ≡ found.old.items ++ filter (is_free_at (frame_unrolled_of unrolled.now) part) (read ∷ [])) }
{
    match file_byte(unrolled, part, read.0) {
        Some(_) => Ok(()),
        None => {
            found.push(read)?;
            Ok(())
        }
    }
}

/// The reads of a part at whose addresses it has no byte of the file.
fn free_reads(
    alloc: Global,
    reads: &[(u32, u8)],
    unrolled: &Unrolled,
    part: u32,
) -> Result<Vec<(u32, u8)>, AllocError>
    ensures { IfOk result (λ v. v.items ≡ filter (is_free_at (frame_unrolled_of unrolled.now) part) reads.now) }
{
    let mut found = Vec::new(alloc);
    for i in 0..reads.len() {
        list_free(&mut found, unrolled, part, reads[i])?;
    }
    Ok(found)
}

/// The bytes that are written of a part, by rising address: those of its reads that are not 0, where it has none of the file.
fn written_bytes(
    alloc: Global,
    reads: &[(u32, u8)],
    unrolled: &Unrolled,
    part: u32,
) -> Result<Vec<(u32, u8)>, AllocError>
    requires one { (m : ℕ → ℕ) × ((x : ℕ × ℕ) → Contains reads.now x → m x.0 ≡ x.1) }
    ensures { IfOk result (λ v. AreWrittenBytes (frame_unrolled_of unrolled.now) part reads.now v.items) }
{
    let free = free_reads(alloc, reads, unrolled, part)?;
    let ordered = bytes_in_order(free)?;
    Ok(not_zero(ordered))
}

/// A part as it is written, with these bytes.
fn written_part(
    alloc: Global,
    places: &InputPlaces,
    values: &[bool],
    part: u32,
    bytes: Vec<(u32, u8)>,
) -> Result<Start, AllocError>
    requires order { AreInOrder places.now }
    requires flags { places.now.flags ≤ 8 }
    ensures { IfOk result (λ s. IsWrittenOf places.now (valuation values.now) part bytes.items (written_of s)) }
{
    let first = first_of(places, part);
    let regs = registers_from(alloc, values, first, places.registers)?;
    let first_flag = first_flag_of(places, part) as usize;
    let flags = number_at(values, first_flag, places.flags as u32) as u8;
    Ok(Start {
        regs,
        flags,
        bytes,
        choices: Vec::new(alloc),
    })
}

/// The registers of a part that a contract may change, in the order of the frame.
fn given_registers(
    alloc: Global,
    places: &InputPlaces,
    values: &[bool],
    part: u32,
    changed: Changed,
) -> Result<Vec<u32>, AllocError>
    requires order { AreInOrder places.now }
    requires named { AreNamed places.now part (changed_registers changed) (changed_flags changed) }
    ensures { IfOk result (λ w. (x : TermReading) → IsReadingAt places.now (valuation values.now) x →
        w.items ≡ map (x.regs part) (filter (is_given places.now (changed_registers changed)) (from_to 0 32))) }
{
    let mut registers = Vec::new(alloc);
    for number in 0..32u8 {
        list_register(&mut registers, places, values, part, changed, number)?;
    }
    Ok(registers)
}

/// Lists a register of a part, if its contract may change it.
fn list_register(
    found: &mut Vec<u32>,
    places: &InputPlaces,
    values: &[bool],
    part: u32,
    changed: Changed,
    number: u8,
) -> Result<(), AllocError>
    requires order { AreInOrder places.now }
    requires named { AreNamed places.now part (changed_registers changed) (changed_flags changed) }
    ensures { OnOk result ((x : TermReading) → IsReadingAt places.now (valuation values.now) x →
        found.new.items ≡ found.old.items ++ map (x.regs part) (filter (is_given places.now (changed_registers changed)) (number ∷ []))) }
{
    if is_given(places, changed, number) {
        found.push(register_at(places, values, part, number))?;
        return Ok(());
    }
    Ok(())
}

/// What a contract step is given as it is written.
fn written_gift(
    alloc: Global,
    places: &InputPlaces,
    values: &[bool],
    part: u32,
    changed: Changed,
    bytes: Vec<(u32, u8)>,
) -> Result<Start, AllocError>
    requires order { AreInOrder places.now }
    requires flags { places.now.flags ≤ 8 }
    requires named { AreNamed places.now part (changed_registers changed) (changed_flags changed) }
    ensures { IfOk result (λ s. IsWrittenGift places.now (valuation values.now) part (changed_registers changed) (changed_flags changed) bytes.items
        (written_of s)) }
{
    let regs = given_registers(alloc, places, values, part, changed)?;
    let bits = flag_bits(alloc, places, values, part, changed)?;
    let flags = number_at(&bits, 0, places.flags as u32) as u8;
    Ok(Start {
        regs,
        flags,
        bytes,
        choices: Vec::new(alloc),
    })
}

/// Nothing as it is written.
fn nothing(alloc: Global) -> Start {
    Start {
        regs: Vec::new(alloc),
        flags: 0,
        bytes: Vec::new(alloc),
        choices: Vec::new(alloc),
    }
}

/// The gift of a place as values give it.
fn gift_of(alloc: Global, e: &Evaluated, place: usize) -> Result<Start, AllocError>
    requires evaluated { IsEvaluated e.now }
    requires formed { AreFormed (frame_of_cells e.now.celled.now) (heads_of_question e.now.celled.now.question.now) (frame_cells_of e.now.celled.now) }
    requires whole { ForSomeValues e.now.celled.now e.now.values.now (AreWhole e.now.celled.now) }
    requires place { place < length e.now.celled.now.question.now.passive.now.unrolled.now.points.items }
    ensures { IfOk result (λ s. IsGiftOf e.now.celled.now e.now.values.now place (written_of s)) }
{
    let unrolled = e.celled.question.passive.unrolled;
    match changes_at(unrolled, place) {
        None => Ok(nothing(alloc)),
        Some(changed) => {
            let part = place as u32 + 2;
            let bytes = written_bytes(alloc, &e.reads.gifts[place], unrolled, part)?;
            let gift = written_gift(alloc, &e.places, e.values, part, changed, bytes)?;
            Ok(gift)
        }
    }
}

/// The gifts of all places as values give them.
fn gifts_of(alloc: Global, e: &Evaluated) -> Result<Vec<Start>, AllocError>
    requires evaluated { IsEvaluated e.now }
    requires formed { AreFormed (frame_of_cells e.now.celled.now) (heads_of_question e.now.celled.now.question.now) (frame_cells_of e.now.celled.now) }
    requires whole { ForSomeValues e.now.celled.now e.now.values.now (AreWhole e.now.celled.now) }
    ensures { IfOk result (λ v. AreGiftsOf e.now.celled.now e.now.values.now (length e.now.celled.now.question.now.passive.now.unrolled.now.points.items)
        v.items) }
{
    let mut gifts = Vec::new(alloc);
    for place in 0..e.celled.question.passive.unrolled.points.len() {
        gifts.push(gift_of(alloc, e, place)?)?;
    }
    Ok(gifts)
}

/// The entry, the head and gifts as values give them: their registers and flags, and the bytes that are not 0 where they have none of the file, by rising address; their
/// choices are left empty. Base reads of one address of a part have one byte, and none has another byte than its part has of the file. The error is want of memory.
pub fn parts_of(alloc: Global, e: &Evaluated) -> Result<Parts, AllocError>
    requires evaluated { IsEvaluated e.now }
    requires formed { AreFormed (frame_of_cells e.now.celled.now) (heads_of_question e.now.celled.now.question.now) (frame_cells_of e.now.celled.now) }
    requires whole { ForSomeValues e.now.celled.now e.now.values.now (AreWhole e.now.celled.now) }
    ensures { IfOk result (ArePartsOf e.now.celled.now e.now.values.now) }
{
    let unrolled = e.celled.question.passive.unrolled;
    let bytes = written_bytes(alloc, &e.reads.entry, unrolled, 0)?;
    let entry = written_part(alloc, &e.places, e.values, 0, bytes)?;
    let bytes = written_bytes(alloc, &e.reads.head, unrolled, 1)?;
    let head = written_part(alloc, &e.places, e.values, 1, bytes)?;
    let gifts = gifts_of(alloc, e)?;
    Ok(Parts { entry, head, gifts })
}
