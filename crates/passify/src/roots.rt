//! Where segments begin.

ghost use Rattle.std.specs.Prelude.{◌≡◌, ◌<◌, ◌+◌, IfOk, None, [], length, replicate, slice_index_or, slice_range};
ghost use Rattle.term_spec.specs.Terms.{HasWidth};
ghost use Rattle.term_spec.specs.Passive.{AreNames};
ghost use Rattle.start_value.specs.Starts.{layout_of};
ghost use Rattle.frame_terms.specs.PassiveFrames.{IsWalkable, inputs_of};
ghost use Rattle.question_form.specs.Forms.{AreBounds, AreRootsFormed, IsFormed};
ghost use Rattle.question_form.specs.FrameViews.{frame_unrolled_of};
ghost use Rattle.term_names.specs.Chosen.{HaveSameForm, HaveSameTerms};
ghost use Rattle.term_names.specs.Views.{AreFor, form_of, names_of};
ghost use Rattle.passify.specs.Edges.{AreRead};
ghost use Rattle.passify.specs.Planted.{AreAssumed, AreHeadNames, AreHeaded, ArePlanted, assumed_lines, begins_with, AreOwnSpans};
ghost use Rattle.passify.specs.Swept.{AreSwept};

use crate::bits::{both, constant};
use crate::exits::is_invariant;
use crate::point::begins_at_head;
use crate::spans::{Span, spans};
use crate::sweep::Sweep;
use note_terms::{Now, line};
use question_form::Unrolled;
use std::alloc::{AllocError, Global};
use term_dag::{Dag, Node, Term};
use term_names::{Names, copied, entry_names, part_names};

/// As many times the same bit.
fn same_bits(alloc: Global, bit: Term, places: usize) -> Result<Vec<Term>, AllocError>
    ensures { IfOk result (λ bits. bits.items ≡ replicate places bit) }
{
    let mut bits = Vec::with_capacity(alloc, places)?;
    for _ in 0..places {
        bits.push(bit)?;
    }
    Ok(bits)
}

/// As many places to which nothing is carried.
fn no_states(alloc: Global, places: usize) -> Result<Vec<Option<Names>>, AllocError>
    ensures { IfOk result (λ states. states.items ≡ replicate places None) }
{
    let mut states = Vec::with_capacity(alloc, places)?;
    for _ in 0..places {
        states.push(None)?;
    }
    Ok(states)
}

/// The terms of the state at a head, where the frame has a head; where it has none they are those of the state at entry, and are not used.
fn head_names(
    alloc: Global,
    dag: &mut Dag,
    unrolled: &Unrolled,
    entry: &Names,
) -> Result<Names, AllocError>
    requires first { entry.now.first ≡ (layout_of unrolled.now.form).first }
    requires registers { length entry.now.registers.items ≡ length (layout_of unrolled.now.form).registers }
    requires flags { length entry.now.flags.items ≡ length (layout_of unrolled.now.form).flags }
    requires names { AreNames (form_of entry.now) dag.old (names_of entry.now) }
    ensures { IfOk result (λ n. AreHeadNames unrolled.now dag.old dag.new entry.now n) }
{
    if !unrolled.heads {
        let names = copied(alloc, entry)?;
        return Ok(names);
    }
    let (first, count) = unrolled.form.registers();
    let names = part_names(alloc, dag, 1, first, count, unrolled.form.flag_count())?;
    Ok(names)
}

/// The bytes that the frame's own contract may write, by the state at entry; none where it has none.
fn own_spans(
    alloc: Global,
    dag: &mut Dag,
    unrolled: &Unrolled,
    entry: &Names,
    pc: Term,
    yes: Term,
) -> Result<Vec<Span>, AllocError>
    requires walkable { IsWalkable (frame_unrolled_of unrolled.now) }
    requires form { AreFor (inputs_of (frame_unrolled_of unrolled.now)) entry.now }
    requires names { AreNames (form_of entry.now) dag.old (names_of entry.now) }
    requires pc { HasWidth dag.old 32 pc.0 }
    requires yes { HasWidth dag.old 1 yes.0 }
    ensures { IfOk result (λ spans. AreOwnSpans unrolled.now dag.old dag.new entry.now pc.0 spans.items) }
{
    let _typed = dag.nodes();
    let Some(own) = unrolled.own else {
        let none = Vec::new(alloc);
        return Ok(none);
    };
    let now = Now { names: entry, pc };
    let spans = spans(alloc, dag, &own.writes, &now, yes, unrolled.big)?;
    Ok(spans)
}

/// What is kept before any segment has begun, the terms of the state at a head, and a bit that is always 1.
#[derive(Drop)]
struct Prepared {
    sweep: Sweep,
    head: Names,
    yes: Term,
}

/// What is kept before any segment has begun.
fn prepare(alloc: Global, dag: &mut Dag, unrolled: &Unrolled) -> Result<Prepared, AllocError>
    requires empty { dag.old ≡ [] }
    requires walkable { IsWalkable (frame_unrolled_of unrolled.now) }
    ensures { IfOk result (λ p. ArePlanted unrolled.now 0 dag.new p.sweep p.head p.yes.0) }
{
    let (first, count) = unrolled.form.registers();
    let entry = entry_names(alloc, dag, first, count, unrolled.form.flag_count())?;
    let head = head_names(alloc, dag, unrolled, &entry)?;
    let pc = dag.keep(Node::Constant {
        width: 32,
        value: u64::from(unrolled.entry),
    })?;
    let yes = constant(dag, true)?;
    let never = constant(dag, false)?;
    let own = own_spans(alloc, dag, unrolled, &entry, pc, yes)?;
    let places = unrolled.points.len();
    let met = same_bits(alloc, never, places)?;
    let states = no_states(alloc, places)?;
    let sweep = Sweep {
        entry,
        at: unrolled.entry,
        pc,
        met,
        states,
        fails: never,
        steps: never,
        turns: never,
        own,
    };
    Ok(Prepared { sweep, head, yes })
}

/// Whether the invariants among some entries of the lines by address are true in a state, where a bit is 1.
fn assumed(
    index: &[(u32, usize)],
    unrolled: &Unrolled,
    dag: &mut Dag,
    now: &Now,
    entry: &Now,
    yes: Term,
) -> Result<Term, AllocError>
    requires places { (i : _) → i < length index.now → (slice_index_or index.now i (0, 0)).1 < length unrolled.now.notes.now.asserts.items }
    requires reads { AreRead now.now.names.now (assumed_lines unrolled.now index.now) }
    requires same { HaveSameForm now.now.names.now entry.now.names.now }
    requires now { AreNames (form_of now.now.names.now) dag.old (names_of now.now.names.now) }
    requires entry { AreNames (form_of entry.now.names.now) dag.old (names_of entry.now.names.now) }
    requires pc { HasWidth dag.old 32 now.now.pc.0 }
    requires entry_pc { HasWidth dag.old 32 entry.now.pc.0 }
    requires yes { HasWidth dag.old 1 yes.0 }
    ensures { IfOk result (λ t. AreAssumed dag.old dag.new unrolled.now.big (assumed_lines unrolled.now index.now) now.now entry.now yes.0 t.0) }
{
    let _typed = dag.nodes();
    let mut all = yes;
    for i in 0..index.len() {
        let assert = &unrolled.notes.asserts[index[i].1];
        if !is_invariant(unrolled, assert.line) {
            continue;
        }
        let here = Now {
            names: now.names,
            pc: now.pc,
        };
        let start = Now {
            names: entry.names,
            pc: entry.pc,
        };
        let bit = line(dag, &assert.says, &here, &start, unrolled.big)?;
        all = both(dag, all, bit)?;
    }
    Ok(all)
}

/// The terms of the state with which the segment of a place begins.
fn part_of(
    alloc: Global,
    unrolled: &Unrolled,
    place: u32,
    head: &Names,
    entry: &Names,
) -> Result<Names, AllocError>
    requires roots { AreRootsFormed unrolled.now }
    requires place { place < length unrolled.now.points.items }
    ensures { IfOk result (λ n. HaveSameTerms (begins_with unrolled.now place head.now entry.now) n) }
{
    if begins_at_head(unrolled, place) {
        let names = copied(alloc, head)?;
        return Ok(names);
    }
    let names = copied(alloc, entry)?;
    Ok(names)
}

/// Some entries of the lines by address.
fn entries<'a>(unrolled: &'a Unrolled, bounds: (usize, usize)) -> &'a [(u32, usize)]
    requires { AreBounds unrolled.now bounds }
    ensures { result.now ≡ slice_range unrolled.now.asserts.items bounds.0 bounds.1 }
{
    &unrolled.asserts[bounds.0..bounds.1]
}

/// A segment begins at the place of a root, where the invariants that the root assumes are true.
fn plant(
    alloc: Global,
    unrolled: &Unrolled,
    dag: &mut Dag,
    sweep: &mut Sweep,
    head: &Names,
    yes: Term,
    root: usize,
) -> Result<(), AllocError>
    requires walkable { IsWalkable (frame_unrolled_of unrolled.now) }
    requires formed { IsFormed unrolled.now }
    requires roots { AreRootsFormed unrolled.now }
    requires headed { AreHeaded unrolled.now }
    requires root { root < length unrolled.now.roots.items }
    requires planted { ArePlanted unrolled.now root dag.old sweep.old head.now yes.0 }
    ensures { IfOk result (λ _. ArePlanted unrolled.now (root + 1) dag.new sweep.new head.now yes.0) }
{
    let root = unrolled.roots[root];
    let place = root.place as usize;
    let code = &unrolled.codes[unrolled.points[place].code as usize];
    let pc = dag.keep(Node::Constant {
        width: 32,
        value: u64::from(code.at),
    })?;
    let names = part_of(alloc, unrolled, root.place, head, &sweep.entry)?;
    let now = Now { names: &names, pc };
    let entry = Now {
        names: &sweep.entry,
        pc: sweep.pc,
    };
    let index = entries(unrolled, root.asserts);
    let bit = assumed(index, unrolled, dag, &now, &entry, yes)?;
    sweep.met[place] = bit;
    sweep.states[place] = Some(names);
    Ok(())
}

/// What is kept before any point is handled: segments begin at all roots.
pub fn begin(alloc: Global, dag: &mut Dag, unrolled: &Unrolled) -> Result<Sweep, AllocError>
    requires empty { dag.old ≡ [] }
    requires walkable { IsWalkable (frame_unrolled_of unrolled.now) }
    requires formed { IsFormed unrolled.now }
    requires roots { AreRootsFormed unrolled.now }
    requires headed { AreHeaded unrolled.now }
    ensures { IfOk result (λ s. AreSwept unrolled.now 0 dag.new s) }
{
    let Prepared {
        mut sweep,
        head,
        yes,
    } = prepare(alloc, dag, unrolled)?;
    for root in 0..unrolled.roots.len() {
        plant(alloc, unrolled, dag, &mut sweep, &head, yes, root)?;
    }
    Ok(sweep)
}
