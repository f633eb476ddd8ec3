//! Terms for a state of which a part gives something.

ghost use Rattle.std.specs.Prelude.{◌≡◌, ◌≤◌, ◌<◌, ◌+◌, IfOk, length};
ghost use Rattle.term_spec.specs.Terms.{HasWidth};
ghost use Rattle.term_names.specs.Choices.{AreWide, places};
ghost use Rattle.term_names.specs.Gifts.{AreGiftNames, AreGiven, IsGiven, given_width, is_in};

use crate::names::Names;
use std::alloc::{AllocError, Global};
use term_dag::{Dag, Node, Term};

/// Whether a number is in a set that has a bit for each.
fn is_in(set: u32, number: u8) -> bool
    requires { number < 32 }
    ensures { result ≡ is_in set number }
{
    (set >> number) % 2 == 1
}

/// The term of a flag or a register: the part's where its number is in the set, and else the one before.
fn given(
    dag: &mut Dag,
    flag: bool,
    part: u32,
    set: u32,
    number: u8,
    before: Term,
) -> Result<Term, AllocError>
    requires number { number < 32 }
    requires before { HasWidth dag.old (given_width flag) before.0 }
    ensures { IfOk result (λ t. IsGiven dag.old dag.new flag part set number before.0 t.0) }
{
    if !is_in(set, number) {
        return Ok(before);
    }
    if flag {
        let term = dag.keep(Node::Flag { part, number })?;
        return Ok(term);
    }
    let term = dag.keep(Node::Register { part, number })?;
    Ok(term)
}

/// The same for those from a number on.
fn all_given(
    alloc: Global,
    dag: &mut Dag,
    flag: bool,
    part: u32,
    set: u32,
    first: u8,
    before: &[Term],
) -> Result<Vec<Term>, AllocError>
    requires few { first + length before.now ≤ 32 }
    requires before { AreWide dag.old (given_width flag) (places before.now) }
    ensures { IfOk result (λ ts. AreGiven dag.old dag.new flag part set first (length before.now) (places before.now) (places ts.items)) }
{
    let mut terms = Vec::with_capacity(alloc, before.len())?;
    for i in 0..before.len() {
        let term = given(dag, flag, part, set, first + i as u8, before[i])?;
        terms.push(term)?;
    }
    Ok(terms)
}

/// The terms of a state of which a part gives the registers and the flags of two sets, by their numbers: the others, and the memory, stay. The error is want of
/// memory.
pub fn gift_names(
    alloc: Global,
    dag: &mut Dag,
    part: u32,
    registers: u32,
    flags: u8,
    names: &Names,
) -> Result<Names, AllocError>
    requires registers { names.now.first + length names.now.registers.items ≤ 32 }
    requires flags { length names.now.flags.items ≤ 32 }
    requires words { AreWide dag.old 32 (places names.now.registers.items) }
    requires bits { AreWide dag.old 1 (places names.now.flags.items) }
    ensures { IfOk result (λ n. AreGiftNames dag.old dag.new part registers flags names.now n) }
{
    let words = all_given(
        alloc,
        dag,
        false,
        part,
        registers,
        names.first,
        &names.registers,
    )?;
    let bits = all_given(alloc, dag, true, part, u32::from(flags), 0, &names.flags)?;
    Ok(Names {
        first: names.first,
        registers: words,
        flags: bits,
        memory: names.memory,
    })
}
