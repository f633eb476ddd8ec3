//! Terms for registers, flags and the memory.

ghost use Rattle.std.specs.Prelude.{◌≡◌, ◌≤◌, ◌+◌, IfOk, length};
ghost use Rattle.term_spec.specs.Terms.{HasMemory, HasWidth};
ghost use Rattle.term_spec.specs.Passive.{AreNames};
ghost use Rattle.term_names.specs.Views.{form_of, names_of};
ghost use Rattle.term_names.specs.Choices.{places};
ghost use Rattle.term_names.specs.Chosen.{AreEntryNames, ArePartFlags, ArePartNames, ArePartRegisters, AreSelected, HaveSameForm, HaveSameTerms, IsSelectedMemory};

use crate::rows::selected_words;
use std::alloc::{AllocError, Global};
use term_dag::{Dag, Node, Term};

/// Terms for what a state has: for the registers from a number on, for the flags from 0 on, and for the memory.
#[derive(Drop)]
pub struct Names {
    /// The number of the first register.
    pub first: u8,
    /// The registers' terms, of 32 bits.
    pub registers: Vec<Term>,
    /// The flags' terms, of 1 bit.
    pub flags: Vec<Term>,
    /// The memory's term.
    pub memory: Term,
}

/// The terms of the registers of a part.
fn part_registers(
    alloc: Global,
    dag: &mut Dag,
    part: u32,
    first: u8,
    registers: u8,
) -> Result<Vec<Term>, AllocError>
    requires { first + registers ≤ 256 }
    ensures { IfOk result (λ ts. ArePartRegisters dag.old dag.new part first registers (places ts.items)) }
{
    let mut terms = Vec::with_capacity(alloc, registers as usize)?;
    for i in 0..registers {
        let term = dag.keep(Node::Register {
            part,
            number: first + i,
        })?;
        terms.push(term)?;
    }
    Ok(terms)
}

/// The terms of the flags of a part.
fn part_flags(alloc: Global, dag: &mut Dag, part: u32, flags: u8) -> Result<Vec<Term>, AllocError>
    ensures { IfOk result (λ ts. ArePartFlags dag.old dag.new part flags (places ts.items)) }
{
    let mut terms = Vec::with_capacity(alloc, flags as usize)?;
    for i in 0..flags {
        let term = dag.keep(Node::Flag { part, number: i })?;
        terms.push(term)?;
    }
    Ok(terms)
}

/// The terms of the state of a part. The error is want of memory.
pub fn part_names(
    alloc: Global,
    dag: &mut Dag,
    part: u32,
    first: u8,
    registers: u8,
    flags: u8,
) -> Result<Names, AllocError>
    requires { first + registers ≤ 256 }
    ensures { IfOk result (λ n. ArePartNames dag.old dag.new part first registers flags n) }
{
    let registers = part_registers(alloc, dag, part, first, registers)?;
    let flags = part_flags(alloc, dag, part, flags)?;
    let memory = dag.keep(Node::Memory(part))?;
    Ok(Names {
        first,
        registers,
        flags,
        memory,
    })
}

/// The terms of the state at entry, part 0. The error is want of memory.
pub fn entry_names(
    alloc: Global,
    dag: &mut Dag,
    first: u8,
    registers: u8,
    flags: u8,
) -> Result<Names, AllocError>
    requires { first + registers ≤ 256 }
    ensures { IfOk result (λ n. AreEntryNames dag.old dag.new first registers flags n) }
{
    let names = part_names(alloc, dag, 0, first, registers, flags)?;
    Ok(names)
}

/// The same terms. The error is want of memory.
pub fn copied(alloc: Global, names: &Names) -> Result<Names, AllocError>
    ensures { IfOk result (λ n. HaveSameTerms names.now n) }
{
    Ok(Names {
        first: names.first,
        registers: names.registers.to_vec(alloc)?,
        flags: names.flags.to_vec(alloc)?,
        memory: names.memory,
    })
}

/// One of two memories, by a condition of 1 bit.
fn selected_memory(
    dag: &mut Dag,
    condition: Term,
    when_true: Term,
    when_false: Term,
) -> Result<Term, AllocError>
    requires condition { HasWidth dag.old 1 condition.0 }
    requires when_true { HasMemory dag.old when_true.0 }
    requires when_false { HasMemory dag.old when_false.0 }
    ensures { IfOk result (λ t. IsSelectedMemory dag.old dag.new condition.0 when_true.0 when_false.0 t.0) }
{
    if when_true.0 == when_false.0 {
        return Ok(when_true);
    }
    let term = dag.mk(Node::Join {
        condition,
        when_true,
        when_false,
    })?;
    Ok(term)
}

/// For each of what a state has one of two terms, by a condition of 1 bit. A selection is made only where the two differ. The error is want of memory.
pub fn selected(
    alloc: Global,
    dag: &mut Dag,
    condition: Term,
    when_true: &Names,
    when_false: &Names,
) -> Result<Names, AllocError>
    requires condition { HasWidth dag.old 1 condition.0 }
    requires same { HaveSameForm when_true.now when_false.now }
    requires when_true { AreNames (form_of when_true.now) dag.old (names_of when_true.now) }
    requires when_false { AreNames (form_of when_false.now) dag.old (names_of when_false.now) }
    ensures { IfOk result (λ n. AreSelected dag.old dag.new condition.0 when_true.now when_false.now n) }
{
    let registers = selected_words(
        alloc,
        dag,
        32,
        condition,
        &when_true.registers,
        &when_false.registers,
    )?;
    let flags = selected_words(
        alloc,
        dag,
        1,
        condition,
        &when_true.flags,
        &when_false.flags,
    )?;
    let memory = selected_memory(dag, condition, when_true.memory, when_false.memory)?;
    Ok(Names {
        first: when_true.first,
        registers,
        flags,
        memory,
    })
}
