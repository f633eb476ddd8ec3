//! The base reads of each part, as values give them.
ghost use Rattle.std.specs.Prelude.{◌≡◌, ℕ, ◌<◌, ◌+◌, ◌++◌, [], ◌∷◌, Contains, if◌then◌else◌, ◌^◌, filter, length, map, slice_index, slice_index_or, IfOk, OnOk};
ghost use Rattle.frame_terms.specs.FrameCells.{AreFormed};
ghost use Rattle.term_dag.specs.declared.nodes.Term.{Term};
ghost use Rattle.question_form.specs.FrameQuestions as questions;
ghost use Rattle.question_form.specs.FrameQuestions.{heads_of_question};
ghost use Rattle.mem_cells.specs.declared.cells.BaseRead.{BaseRead};
ghost use Rattle.mem_cells.specs.FrameViews.{frame_cells_of, frame_of_cells};
ghost use Rattle.bit_blast.specs.ReadBytes.{address_word};
ghost use Rattle.term_dag.specs.Readings.{AreWords};
ghost use Rattle.frame_start.specs.Inputs.{both_reading};
ghost use Rattle.frame_start.specs.Reads.{AreGiftReads, AreGiftsReads, AreLong, AreReadUnder, AreReadable, is_of, pair_at};

use crate::changed::is_contract_step;
use mem_cells::{BaseRead, Celled};
use question_form::Question;
use std::alloc::{AllocError, Global};
use term_dag::{Parts, Reading, Term};

/// The address and the byte of each base read of the entry's part, of the head's where the question speaks of head states, and of the gift of each place.
#[derive(Drop)]
pub struct Reads {
    pub entry: Vec<(u32, u8)>,
    pub head: Vec<(u32, u8)>,
    pub gifts: Vec<Vec<(u32, u8)>>,
}

/// Whether a question speaks of head states, which its frame has.
pub fn speaks_of_heads(question: &Question) -> bool
    ensures { result ≡ questions.is_of_heads question.now }
{
    if question.passive.unrolled.heads {
        return question.asked.speaks_of_heads();
    }
    false
}

/// Lists the address and the byte of a base read, if it is of a part.
fn list_read(
    found: &mut Vec<(u32, u8)>,
    addresses: &[Term],
    words: &[u64],
    bytes: &[u8],
    read: BaseRead,
    part: u32,
) -> Result<(), AllocError>
    requires place { read.address < length addresses.now }
    requires byte { read.address < length bytes.now }
    requires within { (d : Term) → (slice_index_or addresses.now read.address d).0 < length words.now }
    requires small { address_word addresses.now words.now read.address < 2 ^ 32 }
    ensures { OnOk result (found.new.items ≡ found.old.items ++ map (pair_at addresses.now words.now bytes.now) (filter (is_of part) (read ∷ []))) }
{
    if read.part == part {
        let place = read.address as usize;
        let address = words[addresses[place].0 as usize] as u32;
        found.push((address, bytes[place]))?;
        return Ok(());
    }
    Ok(())
}

/// The addresses and the bytes of the base reads of a part.
fn reads_of_part(
    alloc: Global,
    reads: &[BaseRead],
    addresses: &[Term],
    words: &[u64],
    bytes: &[u8],
    part: u32,
) -> Result<Vec<(u32, u8)>, AllocError>
    requires places { (b : BaseRead) → Contains reads.now b → b.address < length addresses.now }
    requires count { length addresses.now ≡ length bytes.now }
    requires within { (j : ℕ) (d : Term) → j < length addresses.now → (slice_index_or addresses.now j d).0 < length words.now }
    requires small { (j : ℕ) → j < length addresses.now → address_word addresses.now words.now j < 2 ^ 32 }
    ensures { IfOk result (λ v. v.items ≡ map (pair_at addresses.now words.now bytes.now) (filter (is_of part) reads.now)) }
{
    let mut found = Vec::new(alloc);
    for i in 0..reads.len() {
        list_read(&mut found, addresses, words, bytes, reads[i], part)?;
    }
    Ok(found)
}

/// The base reads of the head's part, if the question speaks of head states.
fn reads_of_head(
    alloc: Global,
    c: &Celled,
    words: &[u64],
    bytes: &[u8],
) -> Result<Vec<(u32, u8)>, AllocError>
    requires places { (b : BaseRead) → Contains c.now.reads.items b → b.address < length c.now.addresses.items }
    requires count { length c.now.addresses.items ≡ length bytes.now }
    requires within { (j : ℕ) (d : Term) → j < length c.now.addresses.items → (slice_index_or c.now.addresses.items j d).0 < length words.now }
    requires small { (j : ℕ) → j < length c.now.addresses.items → address_word c.now.addresses.items words.now j < 2 ^ 32 }
    ensures { IfOk result (λ v. v.items ≡ (if questions.is_of_heads c.now.question.now
        then map (pair_at c.now.addresses.items words.now bytes.now) (filter (is_of 1) c.now.reads.items) else [])) }
{
    if speaks_of_heads(c.question) {
        let reads = reads_of_part(alloc, &c.reads, &c.addresses, words, bytes, 1)?;
        return Ok(reads);
    }
    Ok(Vec::new(alloc))
}

/// The words of the terms of cells under data of all parts. The error is want of memory.
fn cell_words(
    alloc: Global,
    c: &Celled,
    entry: &Reading,
    others: &[Reading],
) -> Result<Vec<u64>, AllocError>
    ensures { IfOk result (λ ws. AreWords (both_reading entry.now others.now) c.now.dag ws.items) }
{
    let parts = Parts {
        first: entry,
        others,
    };
    let words = c.dag.values_of_parts(alloc, &parts)?;
    Ok(words)
}

/// The base reads of the gift of a place; none where no contract step is made.
fn reads_of_gift(
    alloc: Global,
    c: &Celled,
    words: &[u64],
    others: &[Reading],
    place: usize,
) -> Result<Vec<(u32, u8)>, AllocError>
    requires readable { AreReadable c.now words.now }
    requires place { place < length c.now.question.now.passive.now.unrolled.now.points.items }
    requires points { length c.now.question.now.passive.now.unrolled.now.points.items + 2 < 2 ^ 32 }
    requires others { AreLong c.now others.now }
    ensures { IfOk result (λ v. AreGiftReads c.now words.now others.now place v.items) }
{
    let unrolled = c.question.passive.unrolled;
    if is_contract_step(unrolled.points[place].deed) {
        let bytes = &others[place + 1].base;
        let reads = reads_of_part(
            alloc,
            &c.reads,
            &c.addresses,
            words,
            bytes,
            place as u32 + 2,
        )?;
        return Ok(reads);
    }
    Ok(Vec::new(alloc))
}

/// The base reads of the gifts of all places.
fn reads_of_gifts(
    alloc: Global,
    c: &Celled,
    words: &[u64],
    others: &[Reading],
) -> Result<Vec<Vec<(u32, u8)>>, AllocError>
    requires readable { AreReadable c.now words.now }
    requires points { length c.now.question.now.passive.now.unrolled.now.points.items + 2 < 2 ^ 32 }
    requires others { AreLong c.now others.now }
    ensures { IfOk result (λ v. AreGiftsReads c.now words.now others.now (length c.now.question.now.passive.now.unrolled.now.points.items) v.items) }
{
    let mut gifts = Vec::new(alloc);
    for place in 0..c.question.passive.unrolled.points.len() {
        gifts.push(reads_of_gift(alloc, c, words, others, place)?)?;
    }
    Ok(gifts)
}

/// The base reads of the parts, with the bytes that data have for them. The error is want of memory.
pub fn reads_of_parts(
    alloc: Global,
    c: &Celled,
    entry: &Reading,
    others: &[Reading],
) -> Result<Reads, AllocError>
    requires formed { AreFormed (frame_of_cells c.now) (heads_of_question c.now.question.now) (frame_cells_of c.now) }
    requires points { length c.now.question.now.passive.now.unrolled.now.points.items + 2 < 2 ^ 32 }
    requires entry { length entry.now.base.items ≡ length c.now.addresses.items }
    requires others { AreLong c.now others.now }
    ensures { IfOk result (AreReadUnder c.now entry.now others.now) }
{
    let words = cell_words(alloc, c, entry, others)?;
    let of_entry = reads_of_part(alloc, &c.reads, &c.addresses, &words, &entry.base, 0)?;
    let of_head = reads_of_head(alloc, c, &words, &others[0].base)?;
    let gifts = reads_of_gifts(alloc, c, &words, others)?;
    Ok(Reads {
        entry: of_entry,
        head: of_head,
        gifts,
    })
}
