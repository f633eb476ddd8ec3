//! Starts, once as what terms are read under and once as what a run begins with.
ghost use Rattle.std.specs.Prelude.{◌≡◌, true, false, IfOk, length};
ghost use Rattle.program_value.specs.Programs.{program_of};
ghost use Rattle.bilv_spec.specs.Points.{is_known_at};
ghost use Rattle.machine_spec.specs.StateText.{IsWritten, rv_layout};
ghost use Rattle.start_value.specs.Starts.{written_of};

use crate::programs::{Case, ENTRY};
use bv_word::Word;
use byte_mem::{Bytes32, Endian};
use known_bytes::known_stretch;
use program_value::Program;
use question_form::Asked;
use rv_lift::Rv32;
use start_value::Start;
use std::alloc::{AllocError, Global};
use table_run::{Ending, entry_ok, run, start_state};
use term_dag::{Dag, Reading, Term};

/// Where memory has a byte that the file does not give.
const DATA: u32 = 0x2_0001;

/// That byte.
const BYTE: u8 = 0xa7;

/// The next number without a plain order, and the one that follows from it.
fn next(seed: &mut u32) -> u32 {
    let mut x = *seed;
    x ^= x << 13;
    x ^= x >> 17;
    x ^= x << 5;
    *seed = x;
    x
}

/// An address, mostly near the code or near the byte that the file does not give.
fn address(seed: &mut u32) -> u32 {
    let x = next(seed);
    match x >> 30 {
        0 => x,
        1 => ENTRY - 8 + x % 32,
        _ => DATA - 4 + x % 8,
    }
}

/// Registers without a plain order: `ra` is mostly a multiple of 4, `a0` is below 4 or an address, and `a1` and `a3` are addresses, often near each other.
pub fn registers(seed: &mut u32) -> [u32; 31] {
    let mut registers = [0u32; 31];
    for place in 0..31 {
        registers[place] = next(seed);
    }
    if registers[20] % 8 != 0 {
        registers[0] &= 0xffff_fffc;
    }
    registers[10] = address(seed);
    registers[12] = if registers[21] % 2 == 0 {
        address(seed)
    } else {
        registers[10]
            .wrapping_sub(registers[22] % 4)
            .wrapping_add(registers[23] % 4)
    };
    registers[9] = if registers[24] % 4 == 0 {
        address(seed)
    } else {
        registers[25] % 4
    };
    registers
}

/// The start with registers, in whose memory the file gives all bytes but one that are not 0. The error is that it gives that byte too, or want of memory.
fn start_with(
    alloc: Global,
    program: &Program<Rv32<0>>,
    registers: &[u32],
) -> Result<Start, AllocError>
    requires { length registers.now ≡ 31 }
    ensures { IfOk result (λ s. IsWritten (rv_layout false) (is_known_at (program_of program.now)) (written_of s)) }
{
    let stretch = known_stretch(program.image, program.notes, DATA);
    if stretch.known {
        return Err(AllocError);
    }
    let regs = Vec::from_slice(alloc, registers)?;
    let bytes = Vec::from_slice(alloc, &[(DATA, BYTE)])?;
    let choices = Vec::new(alloc);
    Ok(Start {
        regs,
        flags: 0,
        bytes,
        choices,
    })
}

/// Whether a question is true of the start with registers, by its run. The error is a run of more than 1,000 steps, or want of memory.
pub fn is_true(
    alloc: Global,
    case: &Case<Rv32<0>>,
    registers: &[u32],
    asked: Asked,
) -> Result<bool, AllocError>
    requires registers { length registers.now ≡ 31 }
{
    let program = &case.program;
    let k = u64::from(case.k);
    let start = start_with(alloc, program, registers)?;
    let state = start_state::<Rv32<0>>(alloc, program, &start)?;
    if entry_ok::<Rv32<0>>(program, &state).is_err() {
        return Ok(false);
    }
    match run::<Rv32<0>>(alloc, program, &start, Some(k), 1000)? {
        Ending::Exit { .. } => Ok(asked == Asked::Entry),
        Ending::Failed { .. } => Ok(asked == Asked::Entry || asked == Asked::Fail),
        Ending::Turned { .. } => Ok(asked == Asked::Entry || asked == Asked::Turn),
        Ending::Left { .. } => Err(AllocError),
    }
}

/// The bytes of code and the byte that the file does not give.
fn memory_with(alloc: Global, words: &[u32]) -> Result<Bytes32, AllocError> {
    let mut memory = Bytes32::new(alloc);
    memory.store(DATA, 1, Endian::Little, Word::new(8, u64::from(BYTE)))?;
    let mut at = ENTRY;
    for word in words {
        memory.store(at, 4, Endian::Little, Word::new(32, u64::from(*word)))?;
        at = at.wrapping_add(4);
    }
    Ok(memory)
}

/// The reading that the same start gives.
pub fn reading_with(
    alloc: Global,
    registers: &[u32],
    words: &[u32],
) -> Result<Reading, AllocError> {
    let mut numbers = vec![in alloc; 0u32]?;
    numbers.extend_from_slice(registers)?;
    let memory = memory_with(alloc, words)?;
    Ok(Reading {
        registers: numbers,
        flags: Vec::new(alloc),
        memory,
        fill: 0,
        choices: Vec::new(alloc),
        base: Vec::new(alloc),
    })
}

/// The word of a term among those of all terms.
pub fn word(words: &[u64], term: Term) -> u64 {
    match words.get(term.0 as usize) {
        None => u64::MAX,
        Some(word) => *word,
    }
}

/// The word of a term under a reading.
pub fn word_of(alloc: Global, dag: &Dag, reading: &Reading, term: Term) -> Result<u64, AllocError> {
    let words = dag.values(alloc, reading)?;
    Ok(word(&words, term))
}
