//! Copies of a term that hold where what is known of registers does: what is known is put in, and what it is over is folded.

ghost use Rattle.std.specs.Prelude.{◌≡◌, ℕ, ◌<◌, ◌≤◌, ◌-◌, ◌^◌, List, [], length, IfNone, IfOk, IfSome};
ghost use Rattle.word_spec.specs.Words.{bits, complement, concat};
ghost use Rattle.term_spec.specs.Terms.{HasWidth, term_word};
ghost use Rattle.term_dag.specs.Nodes.{node_of};
ghost use Rattle.note_terms.specs.Steps.{IsStep};
ghost use Rattle.weakest_pre.specs.Copies.{AreCopies, AreReached, AreWithin};
ghost use Rattle.weakest_pre.specs.Known.{IsRuns};
ghost use Rattle.weakest_pre.specs.Folded.{pieces, AreFoldedCopies, AreFoldedRoots, IsMetBy, IsFolded, IsFoldedCopy, IsKnownRegister};

use crate::copies::{copied, picked, reached};
use crate::facts::{Facts, Runs, runs_of};
use std::alloc::{AllocError, Global};
use term_dag::{Dag, Node, Term};

/// The word of which all bits are known, if they are.
fn whole(runs: Runs) -> Option<u32>
    requires place { runs.place ≤ 32 }
    requires above { runs.above < 2 ^ (32 - runs.place) }
    ensures some { IfSome result (λ v. (w : ℕ) → IsRuns runs w → w ≡ v) }
    ensures none { IfNone result (runs.count < runs.place) }
{
    if runs.place > runs.count {
        return None;
    }
    let above = (runs.above as u64) << runs.place;
    let below = runs.below as u64 % (1u64 << runs.place);
    Some((above + below) as u32)
}

/// The bits of a word of 32 bits below a place, of which so many are known.
fn lower(dag: &mut Dag, word: Term, place: u8, count: u8, below: u32) -> Result<Term, AllocError>
    requires word { HasWidth dag.old 32 word.0 }
    requires place { place ≤ 32 }
    requires some { count < place }
    requires below { below < 2 ^ count }
    ensures { IfOk result (λ t. IsStep dag.old dag.new 0 0 6 (λ w. w ≡ place) (λ x. concat count (bits (place - 1) count (term_word x dag.old word.0)) below) t.0) }
{
    let upper = dag.mk(Node::Extract {
        hi: place - 1,
        lo: count,
        term: word,
    })?;
    if count == 0 {
        return Ok(upper);
    }
    let lower = dag.mk(Node::Constant {
        width: count,
        value: below as u64,
    })?;
    let term = dag.mk(Node::Concat {
        high: place - count,
        low: count,
        upper,
        lower,
    })?;
    Ok(term)
}

/// A word of 32 bits whose bits from a place on are known, and whose others are a term.
fn raised(dag: &mut Dag, lower: Term, place: u8, above: u32) -> Result<Term, AllocError>
    requires some { 1 ≤ place }
    requires place { place ≤ 32 }
    requires lower { HasWidth dag.old place lower.0 }
    requires above { above < 2 ^ (32 - place) }
    ensures { IfOk result (λ t. IsStep dag.old dag.new 0 0 4 (λ w. w ≡ 32) (λ x. concat place above (term_word x dag.old lower.0)) t.0) }
{
    let _typed = dag.nodes();
    if place == 32 {
        return Ok(lower);
    }
    let upper = dag.mk(Node::Constant {
        width: 32 - place,
        value: above as u64,
    })?;
    let term = dag.mk(Node::Concat {
        high: 32 - place,
        low: place,
        upper,
        lower,
    })?;
    Ok(term)
}

/// The bits of a word turned.
fn complement(width: u8, bits: u32) -> u32
    requires width { width ≤ 32 }
    requires bits { bits < 2 ^ width }
    ensures bits { result ≡ complement width bits }
    ensures below { result < 2 ^ width }
{
    ((1u64 << width) - 1 - bits as u64) as u32
}

/// A word of 32 bits whose ends are known. It is made of the parts of its complement: no fold looks into that, so what is over the word stays over one term, as
/// it was over the register.
fn pieced(dag: &mut Dag, word: Term, runs: Runs) -> Result<Term, AllocError>
    requires word { HasWidth dag.old 32 word.0 }
    requires place { runs.place ≤ 32 }
    requires above { runs.above < 2 ^ (32 - runs.place) }
    requires some { runs.count < runs.place }
    requires below { runs.below < 2 ^ runs.count }
    ensures { IfOk result (λ t. IsStep dag.old dag.new 0 0 14 (λ w. w ≡ 32) (λ x. pieces runs (term_word x dag.old word.0)) t.0) }
{
    let turned = dag.mk(Node::Not {
        width: 32,
        term: word,
    })?;
    let below = complement(runs.count, runs.below);
    let lower = lower(dag, turned, runs.place, runs.count, below)?;
    let above = complement(32 - runs.place, runs.above);
    let whole = raised(dag, lower, runs.place, above)?;
    let term = dag.mk(Node::Not {
        width: 32,
        term: whole,
    })?;
    Ok(term)
}

/// A register of which some bits are known: a constant where all are; else, if only constants are asked for, the register as it is.
fn known_register(
    dag: &mut Dag,
    register: u8,
    runs: Runs,
    constants: bool,
) -> Result<Term, AllocError>
    requires place { runs.place ≤ 32 }
    requires above { runs.above < 2 ^ (32 - runs.place) }
    requires count { runs.count ≤ 32 }
    requires below { runs.below < 2 ^ runs.count }
    ensures { IfOk result (λ t. IsKnownRegister dag.old dag.new register runs t.0) }
{
    if let Some(value) = whole(runs) {
        let term = dag.mk(Node::Constant {
            width: 32,
            value: value as u64,
        })?;
        return Ok(term);
    }
    let word = dag.mk(Node::Register {
        part: 0,
        number: register,
    })?;
    if constants || (runs.place == 32 && runs.count == 0) {
        return Ok(word);
    }
    let term = pieced(dag, word, runs)?;
    Ok(term)
}

/// The folded copy of the term at a place over those of the terms before it, or any term where the place is not marked. The error is want of memory.
fn folded(
    dag: &mut Dag,
    source: &Dag,
    facts: &Facts,
    marks: &[bool],
    copies: &[Term],
    place: u32,
) -> Result<Term, AllocError>
    requires reached { (roots : List Term) × AreReached source.now roots marks.now }
    requires place { place < length marks.now }
    requires within { place < length source.now }
    requires count { length copies.now ≡ place }
    requires copies { AreCopies (IsMetBy facts.now) source.now dag.old marks.now copies.now }
    ensures { IfOk result (λ t. IsFolded (IsMetBy facts.now) source.now dag.old dag.new marks.now place t.0) }
{
    let _typed = source.nodes();
    let _old = dag.nodes();
    if marks[place as usize] {
        let node = source.node(Term(place));
        if let Node::Register {
            part: 0,
            number: register,
        } = node
        {
            let runs = runs_of(facts.of(register));
            let term = known_register(dag, register, runs, facts.has_loads())?;
            return Ok(term);
        }
        let term = dag.mk(node.moved(copies))?;
        return Ok(term);
    }
    Ok(Term(place))
}

/// The folded copies of terms, in a list of nodes of its own. The error is want of memory.
fn folded_roots(
    alloc: Global,
    dag: &mut Dag,
    source: &Dag,
    facts: &Facts,
    roots: &[Term],
) -> Result<Vec<Term>, AllocError>
    requires old { dag.old ≡ [] }
    requires roots { AreWithin roots.now (length source.now) }
    ensures { IfOk result (λ ts. AreFoldedRoots (IsMetBy facts.now) source.now dag.new roots.now ts.items) }
{
    let marks = reached(alloc, source, roots)?;
    let mut copies = Vec::with_capacity(alloc, marks.len())?;
    for place in 0..marks.len() {
        let term = folded(dag, source, facts, &marks, &copies, place as u32)?;
        copies.push(term)?;
    }
    let terms = picked(alloc, &copies, roots)?;
    Ok(terms)
}

/// Copies of terms, with all that they are over and each node once, that have their values where what is known of registers holds. They have no more nodes than
/// there are terms: where what is known would add some, the copies are as the terms are. The error is want of memory.
pub fn folded_copies(
    alloc: Global,
    dag: &mut Dag,
    source: &Dag,
    facts: &Facts,
    roots: &[Term],
) -> Result<Vec<Term>, AllocError>
    requires roots { AreWithin roots.now (length source.now) }
    ensures { IfOk result (λ ts. AreFoldedCopies (IsMetBy facts.now) source.now dag.old dag.new roots.now ts.items) }
{
    if facts.are_none() {
        let terms = copied(alloc, dag, source, roots)?;
        return Ok(terms);
    }
    let mut scratch = Dag::new(alloc);
    let folded = folded_roots(alloc, &mut scratch, source, facts, roots)?;
    if scratch.nodes() > source.nodes() {
        let terms = copied(alloc, dag, source, roots)?;
        return Ok(terms);
    }
    let terms = copied(alloc, dag, &scratch, &folded)?;
    Ok(terms)
}

/// The copy of one term. The error is want of memory.
pub fn folded_copy(
    alloc: Global,
    dag: &mut Dag,
    source: &Dag,
    facts: &Facts,
    root: Term,
) -> Result<Term, AllocError>
    requires root { root.0 < length source.now }
    ensures { IfOk result (λ t. IsFoldedCopy (IsMetBy facts.now) source.now dag.old dag.new root.0 t.0) }
{
    let terms = folded_copies(alloc, dag, source, facts, &[root])?;
    Ok(terms[0])
}
