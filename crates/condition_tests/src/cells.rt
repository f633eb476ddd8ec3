//! The cells and the clauses of questions, against runs of the instruction table.
ghost use Rattle.std.specs.Prelude.{◌≡◌, ◌<◌, true};
ghost use Rattle.frame_terms.specs.FrameCells as frames;
ghost use Rattle.frame_terms.specs.HeadlessTerms.{as_cells};
ghost use Rattle.mem_cells.specs.FrameViews.{frame_cells_of, frame_of_cells};
ghost use Rattle.mem_cells.specs.Views.{cells_of, program_of_cells};
ghost use Rattle.question_form.specs.FrameQuestions.{heads_of_question};
ghost use Rattle.term_spec.specs.Cells.{AreFormed};
ghost use Rattle.verdict.specs.Rounds.{IsAskable};

use crate::programs::Case;
use crate::propagation::satisfy;
use crate::starts::{is_true, reading_with, registers, word, word_of};
use bit_blast::blast;
use byte_mem::Endian;
use cnf_form::Cnf;
use frame_start::broken_bytes;
use mem_cells::Celled;
use rv_lift::Rv32;
use std::alloc::{AllocError, Global};
use term_dag::Reading;

/// The bytes that base reads have by a reading's memory. No read's address depends on another read.
fn base_bytes(alloc: Global, celled: &Celled, reading: &Reading) -> Result<Vec<u8>, AllocError> {
    let words = celled.dag.values(alloc, reading)?;
    let mut bytes = Vec::new(alloc);
    for address in &celled.addresses {
        let at = (word(&words, *address) % 0x1_0000_0000) as u32;
        let byte = reading.memory.load(at, 1, Endian::Little).bits;
        bytes.push((byte % 256) as u8)?;
    }
    Ok(bytes)
}

/// The inputs of registers and of the bytes of base reads.
fn inputs(alloc: Global, registers: &[u32], bytes: &[u8]) -> Result<Vec<bool>, AllocError> {
    let mut inputs = Vec::new(alloc);
    for register in registers {
        for bit in 0..32u32 {
            inputs.push((*register >> bit) % 2 == 1)?;
        }
    }
    for byte in bytes {
        for bit in 0..8u32 {
            inputs.push((*byte >> bit) % 2 == 1)?;
        }
    }
    Ok(inputs)
}

/// Whether cells and their clauses are true under a reading; nothing where the two differ or the clauses are left open.
fn truth_of(
    alloc: Global,
    celled: &Celled,
    clauses: &Cnf,
    registers: &[u32],
    words: &[u32],
) -> Result<Option<bool>, AllocError> {
    let mut reading = reading_with(alloc, registers, words)?;
    reading.base = base_bytes(alloc, celled, &reading)?;
    let word = word_of(alloc, &celled.dag, &reading, celled.root)?;
    let inputs = inputs(alloc, registers, &reading.base)?;
    let satisfied = satisfy(alloc, &inputs, clauses)?;
    Ok(satisfied.filter(|truth| u64::from(*truth) == word))
}

/// Of how many of 500 readings a question is true by their runs, and of how many cells or clauses say otherwise.
fn ask_clauses(
    alloc: Global,
    celled: &Celled,
    clauses: &Cnf,
    case: &Case<Rv32<0>>,
) -> Result<[usize; 2], AllocError> {
    let mut seed = 0x2545_f491;
    let mut trues = 0usize;
    let mut wrong = 0usize;
    for _ in 0..500 {
        let registers = registers(&mut seed);
        let truth = is_true(alloc, case, &registers, celled.question.asked)?;
        let told = truth_of(alloc, celled, clauses, &registers, case.words)?;
        trues = trues.saturating_add(usize::from(truth));
        wrong = wrong.saturating_add(usize::from(told != Some(truth)));
    }
    Ok([trues, wrong])
}

/// The same by the clauses of cells.
pub fn count_clauses(
    alloc: Global,
    celled: &Celled,
    case: &Case<Rv32<0>>,
) -> Result<[usize; 2], AllocError>
    requires formed { AreFormed (program_of_cells celled.now) (cells_of celled.now) }
    requires flat { frame_cells_of celled.now ≡ as_cells (cells_of celled.now) }
    requires askable { IsAskable celled.now.question.now.passive.now }
{
    let clauses = blast(alloc, celled)?;
    ask_clauses(alloc, celled, &clauses, case)
}

/// The first and the last address of the known bytes that are broken by zeros where the register at a place is an address, and how many they are.
pub fn broken_zeros(
    alloc: Global,
    celled: &Celled,
    place: usize,
    at: u32,
) -> Result<[usize; 3], AllocError>
    requires formed { frames.AreFormed (frame_of_cells celled.now) (heads_of_question celled.now.question.now) (frame_cells_of celled.now) }
    requires place { place < 31 }
{
    let mut registers = [0u32; 31];
    registers[place] = at;
    let values = inputs(alloc, &registers, &[])?;
    let found = broken_bytes(alloc, celled, &values)?;
    match (found.first(), found.last()) {
        (Some(first), Some(last)) => Ok([*first as usize, *last as usize, found.len()]),
        _ => Ok([0, 0, 0]),
    }
}
