//! Copies of terms with all that they are over.

ghost use Rattle.std.specs.Prelude.{◌≡◌, ◌<◌, ◌≤◌, ◌^◌, ℕ, List, true, false, IfOk, length, map, slice_set};
ghost use Rattle.std.specs.List.{AllByRecursion};
ghost use Rattle.term_dag.specs.Nodes.{node_of};
ghost use Rattle.term_dag.specs.Made.{operands};
ghost use Rattle.weakest_pre.specs.Copies.{Always, AreCopies, AreCopiesOf, ArePicked, AreReached, AreRootsMarked, AreWithin, IsCopy, copy_at, is_marked, marked, visited};

use std::alloc::{AllocError, Global};
use term_dag::{Dag, Node, Term};

/// Marks a place.
fn mark(marks: &mut [bool], term: Term)
    requires { term.0 < length marks.old }
    ensures { marks.new ≡ slice_set marks.old term.0 true }
{
    marks[term.0 as usize] = true;
}

/// Marks the places of terms.
fn mark_all(marks: &mut [bool], terms: &[Term])
    requires { AllByRecursion (λ a. a < length marks.old) (map (λ t. t.0) terms.now) }
    ensures { marks.new ≡ marked marks.old (map (λ t. t.0) terms.now) }
{
    for term in terms {
        mark(marks, *term);
    }
}

/// Marks the places that a node is over.
fn mark_operands(marks: &mut [bool], node: Node)
    requires { AllByRecursion (λ a. a < length marks.old) (operands (node_of node)) }
    ensures { marks.new ≡ marked marks.old (operands (node_of node)) }
{
    let (terms, count) = node.operands();
    mark_all(marks, &terms[..count]);
}

/// Marks the places that a place is over, if that is marked.
fn visit(marks: &mut [bool], source: &Dag, place: u32)
    requires place { place < length marks.old }
    requires within { place < length source.now }
    ensures { marks.new ≡ visited source.now marks.old place }
{
    if marks[place as usize] {
        let _typed = source.nodes();
        mark_operands(marks, source.node(Term(place)));
    }
}

/// Marks roots, where no place is marked.
fn mark_roots(marks: &mut [bool], roots: &[Term])
    requires roots { AreWithin roots.now (length marks.old) }
    requires blank { (i : ℕ) → is_marked marks.old i ≡ false }
    ensures { AreRootsMarked roots.now (length roots.now) marks.new }
{
    for k in 0..roots.len() {
        mark(marks, roots[k]);
    }
}

/// Marks roots and the places that they reach, where no place is marked.
fn mark_reached(marks: &mut [bool], source: &Dag, roots: &[Term])
    requires within { length marks.old ≤ length source.now }
    requires numbered { length marks.old ≤ 2 ^ 32 }
    requires roots { AreWithin roots.now (length marks.old) }
    requires blank { (i : ℕ) → is_marked marks.old i ≡ false }
    ensures { AreReached source.now roots.now marks.new }
{
    let _typed = source.nodes();
    mark_roots(marks, roots);
    let mut place = marks.len();
    while place > 0 {
        place -= 1;
        visit(marks, source, place as u32);
    }
}

/// One more than the greatest place of roots, 0 where there are none.
fn bound_of(roots: &[Term]) -> usize
    ensures above { AreWithin roots.now result }
    ensures numbered { result ≤ 2 ^ 32 }
    ensures least { (n : ℕ) → AreWithin roots.now n → result ≤ n }
{
    let mut bound = 0;
    for k in 0..roots.len() {
        bound = bound.max(roots[k].0 as usize + 1);
    }
    bound
}

/// The places up to the last of some roots, each with whether a root reaches it. The error is want of memory.
pub fn reached(alloc: Global, source: &Dag, roots: &[Term]) -> Result<Vec<bool>, AllocError>
    requires roots { AreWithin roots.now (length source.now) }
    ensures { IfOk result (λ m. AreReached source.now roots.now m.items) }
{
    let mut marks = vec![in alloc; false; bound_of(roots)]?;
    mark_reached(&mut marks, source, roots);
    Ok(marks)
}

/// The copies of roots, in their order. The error is want of memory.
pub fn picked(alloc: Global, copies: &[Term], roots: &[Term]) -> Result<Vec<Term>, AllocError>
    requires { AreWithin roots.now (length copies.now) }
    ensures { IfOk result (λ ts. ArePicked copies.now roots.now (length roots.now) ts.items) }
{
    let mut terms = Vec::with_capacity(alloc, roots.len())?;
    for k in 0..roots.len() {
        terms.push(copy_of(copies, roots[k]))?;
    }
    Ok(terms)
}

/// The copy of a term.
fn copy_of(copies: &[Term], term: Term) -> Term
    requires { term.0 < length copies.now }
    ensures { result.0 ≡ copy_at copies.now term.0 }
{
    copies[term.0 as usize]
}

/// The copy of the term at a place over the copies of those before it, or any term where the place is not marked. The error is want of memory.
fn kept(
    dag: &mut Dag,
    source: &Dag,
    marks: &[bool],
    copies: &[Term],
    place: u32,
) -> Result<Term, AllocError>
    requires reached { (roots : List Term) × AreReached source.now roots marks.now }
    requires place { place < length marks.now }
    requires within { place < length source.now }
    requires count { length copies.now ≡ place }
    requires copies { AreCopies Always source.now dag.old marks.now copies.now }
    ensures { IfOk result (λ t. IsCopy source.now dag.old dag.new marks.now place t.0) }
{
    let _typed = source.nodes();
    let _old = dag.nodes();
    if marks[place as usize] {
        let term = dag.keep(source.node(Term(place)).moved(copies))?;
        return Ok(term);
    }
    Ok(Term(place))
}

/// The copies of terms, with all that they are over and no more. The error is want of memory.
pub fn copied(
    alloc: Global,
    dag: &mut Dag,
    source: &Dag,
    roots: &[Term],
) -> Result<Vec<Term>, AllocError>
    requires roots { AreWithin roots.now (length source.now) }
    ensures { IfOk result (λ ts. AreCopiesOf source.now dag.old dag.new roots.now ts.items) }
{
    let _typed = dag.nodes();
    let marks = reached(alloc, source, roots)?;
    let mut copies = Vec::with_capacity(alloc, marks.len())?;
    for place in 0..marks.len() {
        let term = kept(dag, source, &marks, &copies, place as u32)?;
        copies.push(term)?;
    }
    let terms = picked(alloc, &copies, roots)?;
    Ok(terms)
}
