//! Where the inputs of cells stand.
ghost use Rattle.std.specs.Prelude.{◌≡◌, ◌<◌, ◌≤◌, ◌+◌, ◌*◌, ◌^◌, ◌++◌, ◌∷◌, [], if◌then◌else◌, filter, length, map, replicate, IfOk, OnOk};
ghost use Rattle.word_spec.specs.RowFiles.{from_to};
ghost use Rattle.notes_value.specs.FrameViews as sets;
ghost use Rattle.question_form.specs.Views.{unrolled_of};
ghost use Rattle.question_form.specs.FrameViews.{frame_unrolled_of};
ghost use Rattle.question_form.specs.FrameQuestions.{heads_of_question};
ghost use Rattle.mem_cells.specs.FrameViews.{frame_cells_of, frame_of_cells, read_of};
ghost use Rattle.mem_cells.specs.Views.{cells_of, program_of_cells};
ghost use Rattle.term_spec.specs.ClauseForm.{drawn_below, first_byte};
ghost use Rattle.bit_blast.specs.Places.{lists_of};
ghost use Rattle.bit_blast.specs.Laid.{AreAdded, AreDrawn, AreFramePlaces, AreGifts, AreNumbered, ArePlaces, AreReads, IsFlat, given_sets, with_read};

use crate::input_places::{InputPlaces, PartRead};
use mem_cells::{BaseRead, Celled};
use question_form::{Deed, Unrolled};
use std::alloc::{AllocError, Global};

/// How many points, addresses or base reads there are at most, so that 32 bits name each input.
const MOST: usize = 1 << 28;

/// At which input no more may be given, so that 32 bits name each input.
const LAST_GIVEN: u32 = 1 << 30;

/// The choices that are drawn.
#[derive(Drop)]
struct Choices {
    drawn: Vec<Option<u32>>,
    count: u32,
}

/// The choices that are drawn, in the order of their places.
fn choices_of(alloc: Global, unrolled: &Unrolled) -> Result<Choices, AllocError>
    requires { length unrolled.now.points.items ≤ 2 ^ 28 }
    ensures { IfOk result (λ c. AreDrawn (unrolled_of unrolled.now) (length (unrolled_of unrolled.now).points) c.drawn.items c.count) }
{
    let mut drawn = Vec::with_capacity(alloc, unrolled.points.len())?;
    let mut count = 0u32;
    for i in 0..unrolled.points.len() {
        if unrolled.draws(unrolled.points[i].code) {
            drawn.push(Some(count))?;
            count += 1;
        } else {
            drawn.push(None)?;
        }
    }
    Ok(Choices { drawn, count })
}

/// How many points read the choice.
fn drawing_points(unrolled: &Unrolled) -> u64
    requires { length unrolled.now.points.items ≤ 2 ^ 28 }
    ensures { result ≡ drawn_below (unrolled_of unrolled.now) (length (unrolled_of unrolled.now).points) }
{
    let mut count = 0;
    for i in 0..unrolled.points.len() {
        if unrolled.draws(unrolled.points[i].code) {
            count += 1;
        }
    }
    count
}

/// How many inputs the questions of an unrolled program have besides the bytes of base reads: 32 for each register, one for each flag, and two for each point
/// whose row reads the choice.
pub fn free_inputs(unrolled: &Unrolled) -> u64
    requires { length unrolled.now.points.items ≤ 2 ^ 28 }
    ensures { result ≡ first_byte (unrolled_of unrolled.now) }
{
    let registers = unrolled.form.register_count() as u64;
    let flags = unrolled.form.flag_count() as u64;
    let points = drawing_points(unrolled);
    32 * registers + flags + 2 * points
}

/// A number is in a set that has a bit for each.
fn is_in(set: u32, number: u8) -> bool
    requires { number < 32 }
    ensures { result ≡ sets.is_in set number }
{
    (set >> number) % 2 == 1
}

/// For each number the first of its inputs, if it has some.
#[derive(Drop)]
struct Numbered {
    places: Vec<Option<u32>>,
    /// The input behind the last of them.
    behind: u32,
}

/// Gives each number of a range that is in a set so many inputs, from one on. Nothing is listed for an empty set, which nearly all points have.
fn give_inputs(
    alloc: Global,
    set: u32,
    from: u8,
    count: u8,
    first: u32,
    width: u32,
) -> Result<Numbered, AllocError>
    requires range { from + count ≤ 32 }
    requires width { width ≤ 32 }
    requires first { first < 2 ^ 31 }
    ensures are { IfOk result (λ n. AreNumbered (filter (sets.is_in set) (from_to from count)) first width n.places.items) }
    ensures behind { IfOk result (λ n. n.behind ≡ first + width * length (filter (sets.is_in set) (from_to from count))) }
    ensures few { IfOk result (λ n. n.behind ≤ first + 1024) }
{
    if set == 0 {
        return Ok(Numbered {
            places: Vec::new(alloc),
            behind: first,
        });
    }
    let mut places = vec![in alloc; None; from as usize]?;
    let mut behind = first;
    for i in 0..count {
        if is_in(set, from + i) {
            places.push(Some(behind))?;
            behind += width;
        } else {
            places.push(None)?;
        }
    }
    Ok(Numbered { places, behind })
}

/// The registers and flags that are given where this is done, as sets that have a bit for each.
fn given_sets(unrolled: &Unrolled, deed: Deed) -> (u32, u8)
    ensures { result ≡ given_sets unrolled.now deed }
{
    if let Deed::Contract(number) = deed {
        if number < unrolled.stepped.len() {
            let contract = &unrolled.stepped[number];
            return (contract.registers, contract.flags);
        }
    }
    (0, 0)
}

/// The inputs of what is given, by the places of the points.
#[derive(Drop)]
struct Gifts {
    registers: Vec<Vec<Option<u32>>>,
    flags: Vec<Vec<Option<u32>>>,
    /// The input behind the last of them.
    behind: u32,
}

impl Gifts {
    /// Adds the inputs of the registers that are given at the next place.
    fn add_registers(
        &mut self,
        alloc: Global,
        set: u32,
        from: u8,
        count: u8,
    ) -> Result<(), AllocError>
        requires range { from + count ≤ 32 }
        requires few { self.old.behind ≤ 2 ^ 30 }
        ensures added { OnOk result (AreAdded (filter (sets.is_in set) (from_to from count)) self.old.behind 32
            (lists_of self.old.registers.items) (lists_of self.new.registers.items) self.new.behind) }
        ensures flags { OnOk result (self.new.flags ≡ self.old.flags) }
        ensures few { OnOk result (self.new.behind ≤ self.old.behind + 1024) }
    {
        let Numbered { places, behind } = give_inputs(alloc, set, from, count, self.behind, 32)?;
        self.registers.push(places)?;
        self.behind = behind;
        Ok(())
    }

    /// Adds the inputs of the flags that are given at the next place.
    fn add_flags(&mut self, alloc: Global, set: u8, count: u8) -> Result<(), AllocError>
        requires range { count ≤ 32 }
        requires few { self.old.behind ≤ 2 ^ 30 + 1024 }
        ensures added { OnOk result (AreAdded (filter (sets.is_in set) (from_to 0 count)) self.old.behind 1
            (lists_of self.old.flags.items) (lists_of self.new.flags.items) self.new.behind) }
        ensures registers { OnOk result (self.new.registers ≡ self.old.registers) }
        ensures few { OnOk result (self.new.behind ≤ self.old.behind + 1024) }
    {
        let Numbered { places, behind } = give_inputs(alloc, set as u32, 0, count, self.behind, 1)?;
        self.flags.push(places)?;
        self.behind = behind;
        Ok(())
    }
}

/// The inputs of what is given, from one on. More of them than 32 bits name are want of memory.
fn gifts_of(alloc: Global, unrolled: &Unrolled, first: u32) -> Result<Gifts, AllocError>
    requires few { first ≤ 2 ^ 30 }
    ensures are { IfOk result (λ g. AreGifts (frame_unrolled_of unrolled.now) first (length (frame_unrolled_of unrolled.now).points)
        (lists_of g.registers.items) (lists_of g.flags.items) g.behind) }
    ensures behind { IfOk result (λ g. first ≤ g.behind) }
    ensures few { IfOk result (λ g. g.behind ≤ 2 ^ 30 + 2048) }
{
    let (from, _) = unrolled.form.registers();
    let registers = unrolled.form.register_count() as u8;
    let flags = unrolled.form.flag_count();
    let mut gifts = Gifts {
        registers: Vec::new(alloc),
        flags: Vec::new(alloc),
        behind: first,
    };
    for i in 0..unrolled.points.len() {
        if gifts.behind > LAST_GIVEN {
            return Err(AllocError);
        }
        let (register_set, flag_set) = given_sets(unrolled, unrolled.points[i].deed);
        gifts.add_registers(alloc, register_set, from, registers)?;
        gifts.add_flags(alloc, flag_set, flags)?;
    }
    Ok(gifts)
}

/// Adds a base read to those of its address, if it is there.
fn add_read(reads: &mut Vec<Vec<PartRead>>, read: BaseRead, number: u32) -> Result<(), AllocError>
    ensures { OnOk result (lists_of reads.new.items ≡
        with_read (lists_of reads.old.items) read.address (record { part = read.part; number = number })) }
{
    if (read.address as usize) < reads.len() {
        reads[read.address as usize].push(PartRead {
            part: read.part,
            number,
        })?;
        return Ok(());
    }
    Ok(())
}

/// Lists without base reads.
fn no_reads(alloc: Global, addresses: usize) -> Result<Vec<Vec<PartRead>>, AllocError>
    ensures { IfOk result (λ v. lists_of v.items ≡ replicate addresses []) }
{
    let mut reads = Vec::with_capacity(alloc, addresses)?;
    for _address in 0..addresses {
        reads.push(Vec::new(alloc))?;
    }
    Ok(reads)
}

/// The base reads at each address.
fn part_reads(
    alloc: Global,
    reads: &[BaseRead],
    addresses: usize,
) -> Result<Vec<Vec<PartRead>>, AllocError>
    requires { length reads.now ≤ 2 ^ 28 }
    ensures { IfOk result (λ v. AreReads addresses (map read_of reads.now) (lists_of v.items)) }
{
    let mut found = no_reads(alloc, addresses)?;
    for i in 0..reads.len() {
        add_read(&mut found, reads[i], i as u32)?;
    }
    Ok(found)
}

/// The first input of the choices, behind the states of the entry and of the head.
fn behind_states(heads: bool, first_head: u32) -> u32
    requires { first_head < 2 ^ 16 }
    ensures { result ≡ first_head + (if heads then first_head else 0) }
{
    if heads { 2 * first_head } else { first_head }
}

/// Where the inputs of cells stand. The error is want of memory, which 2^28 points, addresses or base reads are, and 2^30 inputs of what is given.
pub fn places_of(alloc: Global, c: &Celled) -> Result<InputPlaces, AllocError>
    ensures frame { IfOk result (λ p. AreFramePlaces (frame_of_cells c.now) (heads_of_question c.now.question.now) (frame_cells_of c.now) p) }
    ensures flat { IsFlat c.now → IfOk result (λ p. ArePlaces (program_of_cells c.now) (cells_of c.now) p) }
{
    let unrolled = c.question.passive.unrolled;
    if unrolled.points.len() > MOST || c.addresses.len() > MOST || c.reads.len() > MOST {
        return Err(AllocError);
    }
    let choices = choices_of(alloc, unrolled)?;
    let (first_register, _) = unrolled.form.registers();
    let registers = unrolled.form.register_count() as u8;
    let flags = unrolled.form.flag_count();
    let first_flag = 32 * registers as u32;
    let first_head = first_flag + flags as u32;
    let first_choice = behind_states(unrolled.heads, first_head);
    let first_gift = first_choice + 2 * choices.count;
    let gifts = gifts_of(alloc, unrolled, first_gift)?;
    let part_reads = part_reads(alloc, &c.reads, c.addresses.len())?;
    let reads = c.reads.len() as u32;
    Ok(InputPlaces {
        first_register,
        registers,
        flags,
        heads: unrolled.heads,
        drawn: choices.drawn,
        choices: choices.count,
        gift_registers: gifts.registers,
        gift_flags: gifts.flags,
        part_reads,
        reads,
        first_flag,
        first_head,
        first_choice,
        first_gift,
        first_byte: gifts.behind,
        inputs: gifts.behind + 8 * reads,
    })
}
