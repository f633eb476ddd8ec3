//! Points, handled in their order.

ghost use Rattle.std.specs.Prelude.{ℕ, ◌≡◌, ◌<◌, ◌-◌, true, IfOk, Contains, length, slice_index};
ghost use Rattle.term_spec.specs.Terms.{HasWidth};
ghost use Rattle.walk_spec.specs.Unrolled.{is_register_of};
ghost use Rattle.frame_terms.specs.PassiveFrames.{IsWalkable};
ghost use Rattle.question_form.specs.FrameViews.{frame_unrolled_of};
ghost use Rattle.question_form.specs.Forms.{AreRootsFormed, AreStepsFormed, IsFormed};
ghost use Rattle.question_form.specs.declared.unrolled.Deed.TheVariants.{Row};
ghost use Rattle.question_form.specs.declared.unrolled.Edge.{Edge};
ghost use Rattle.term_names.specs.Views.{form_of, names_of};
ghost use Rattle.passify.specs.Edges.{CanGo};
ghost use Rattle.passify.specs.Spans.{AreOwn};
ghost use Rattle.passify.specs.Sweeps.{AreTermsOf, AreWell};
ghost use Rattle.passify.specs.Rows.{IsLeaving, IsRowTried, is_of_head, own_edges, own_index, own_point};
ghost use Rattle.passify.specs.Handled.{IsHandled, IsSweepOf};

use crate::calls::contract_step;
use crate::edges::{Gone, edges};
use crate::exits::{asserts, event};
use crate::leaving::{next_address, unaligned};
use crate::spans::stored_spans;
use crate::sweep::{Sweep, fail};
use crate::writing::refused;
use bil_terms::run_list;
use note_terms::Now;
use question_form::{Deed, Edge, Unrolled};
use std::alloc::{AllocError, Global};
use term_dag::{Dag, Node, Term};
use term_names::Names;

/// The edges of the point at a place.
pub fn edges_at<'a>(unrolled: &'a Unrolled, place: usize) -> &'a [Edge]
    requires formed { IsFormed unrolled.now }
    requires place { place < length unrolled.now.points.items }
    ensures { result.now ≡ own_edges unrolled.now place }
{
    let from = unrolled.points[place].edges;
    let next = place + 1;
    if next < unrolled.points.len() {
        return &unrolled.edges[from..unrolled.points[next].edges];
    }
    &unrolled.edges[from..]
}

/// The assert lines by address that are judged at a place: none where a contract step is made.
fn index_at<'a>(unrolled: &'a Unrolled, place: usize) -> &'a [(u32, usize)]
    requires formed { IsFormed unrolled.now }
    requires place { place < length unrolled.now.points.items }
    ensures { result.now ≡ own_index unrolled.now place }
{
    let point = unrolled.points[place];
    if let Deed::Contract(_) = point.deed {
        return &[];
    }
    let code = &unrolled.codes[point.code as usize];
    &unrolled.asserts[code.asserts.0..code.asserts.1]
}

/// Whether the segment of the point at a place begins at a head.
pub fn begins_at_head(unrolled: &Unrolled, place: u32) -> bool
    requires roots { AreRootsFormed unrolled.now }
    requires place { place < length unrolled.now.points.items }
    ensures { result ≡ is_of_head unrolled.now place }
{
    let root = unrolled.points[place as usize].root as usize;
    unrolled.roots[root].head.is_some()
}

/// The term of the link register at entry.
pub fn entry_link(names: &Names, link: u8) -> Term
    requires { is_register_of (form_of names.now) link ≡ true }
    ensures { result.0 ≡ slice_index (names_of names.now).registers (link - names.now.first) }
{
    names.registers[(link - names.first) as usize]
}

/// How a point is left: whether an exception is raised, whether a byte is stored that may not be, and whether it goes on to where no row can stand, each of 1 bit.
#[derive(Clone, Copy)]
struct Leaves {
    raised: Term,
    wrote: Term,
    odd: Term,
}

/// The exits of a row are tried; what is left.
fn leave(
    alloc: Global,
    unrolled: &Unrolled,
    dag: &mut Dag,
    sweep: &mut Sweep,
    list: &[Edge],
    leaves: &Leaves,
    gone: &Gone,
    link: Term,
    rest: Term,
) -> Result<Term, AllocError>
    requires walkable { IsWalkable (frame_unrolled_of unrolled.now) }
    requires sweep { IsSweepOf unrolled.now sweep.old }
    requires formed { IsFormed unrolled.now }
    requires well { AreWell dag.old sweep.old }
    requires raised { HasWidth dag.old 1 leaves.now.raised.0 }
    requires wrote { HasWidth dag.old 1 leaves.now.wrote.0 }
    requires odd { HasWidth dag.old 1 leaves.now.odd.0 }
    requires goes { (e : Edge) → Contains list.now e → CanGo unrolled.now (length sweep.old.met.items) gone.now.next.names.now e.aim }
    requires next { AreTermsOf sweep.old.entry dag.old gone.now.next.names.now }
    requires pc { HasWidth dag.old 32 gone.now.next.pc.0 }
    requires jumped { HasWidth dag.old 1 gone.now.jumped.0 }
    requires link { HasWidth dag.old 32 link.0 }
    requires rest { HasWidth dag.old 1 rest.0 }
    ensures { IfOk result (λ t. IsLeaving unrolled.now dag.old dag.new sweep.old sweep.new rest.0 t.0 leaves.now.raised.0 leaves.now.wrote.0 leaves.now.odd.0
        gone.now.next gone.now.jumped.0 link.0 list.now) }
{
    let quiet = event(dag, sweep, rest, leaves.raised)?;
    let kept = event(dag, sweep, quiet, leaves.wrote)?;
    let aligned = event(dag, sweep, kept, leaves.odd)?;
    let left = edges(alloc, unrolled, dag, sweep, list, gone, link, aligned)?;
    Ok(left)
}

/// What a row does is tried; what is left.
fn row(
    alloc: Global,
    unrolled: &Unrolled,
    dag: &mut Dag,
    sweep: &mut Sweep,
    place: u32,
    names: &Names,
    rest: Term,
) -> Result<Term, AllocError>
    requires walkable { IsWalkable (frame_unrolled_of unrolled.now) }
    requires formed { IsFormed unrolled.now }
    requires roots { AreRootsFormed unrolled.now }
    requires place { place < length unrolled.now.points.items }
    requires deed { (own_point unrolled.now place).deed ≡ Row }
    requires well { AreWell dag.old sweep.old }
    requires sweep { IsSweepOf unrolled.now sweep.old }
    requires own { AreOwn unrolled.now dag.old sweep.old }
    requires names { AreTermsOf sweep.old.entry dag.old names.now }
    requires rest { HasWidth dag.old 1 rest.0 }
    ensures { IfOk result (λ t. IsRowTried unrolled.now place names.now dag.old dag.new sweep.old sweep.new rest.0 t.0) }
{
    let code = &unrolled.codes[unrolled.points[place as usize].code as usize];
    let Some(list) = &code.list else {
        return Ok(rest);
    };
    let left = run_list(alloc, dag, list, names, place)?;
    let stored = stored_spans(alloc, &left.stored)?;
    let wrote = refused(dag, unrolled, &stored, &sweep.own)?;
    let next = next_address(dag, code.at, code.length, left.jumped, left.target)?;
    let odd = unaligned(dag, unrolled.narrow, next)?;
    let leaves = Leaves {
        raised: left.raised,
        wrote,
        odd,
    };
    let gone = Gone {
        jumped: left.jumped,
        next: Now {
            names: &left.names,
            pc: next,
        },
    };
    let link = entry_link(&sweep.entry, unrolled.link);
    let list = edges_at(unrolled, place as usize);
    let last = leave(
        alloc, unrolled, dag, sweep, list, &leaves, &gone, link, rest,
    )?;
    Ok(last)
}

/// The point of a place is handled, to which terms carry a state where it is met: its list, the exits that it may take, and where those lead. An event counts as
/// one of the entry's segment. An arrival has no exits but those by the lines of its head; a contract step judges no assert line.
pub fn handle(
    alloc: Global,
    unrolled: &Unrolled,
    dag: &mut Dag,
    sweep: &mut Sweep,
    place: u32,
    names: &Names,
) -> Result<(), AllocError>
    requires walkable { IsWalkable (frame_unrolled_of unrolled.now) }
    requires formed { IsFormed unrolled.now }
    requires roots { AreRootsFormed unrolled.now }
    requires steps { AreStepsFormed unrolled.now }
    requires place { place < length unrolled.now.points.items }
    requires well { AreWell dag.old sweep.old }
    requires sweep { IsSweepOf unrolled.now sweep.old }
    requires own { AreOwn unrolled.now dag.old sweep.old }
    requires names { AreTermsOf sweep.old.entry dag.old names.now }
    ensures { IfOk result (λ _. IsHandled unrolled.now dag.old dag.new sweep.old sweep.new place names.now) }
{
    let point = unrolled.points[place as usize];
    let skips = begins_at_head(unrolled, place);
    let code = &unrolled.codes[point.code as usize];
    let index = index_at(unrolled, place as usize);
    let pc = dag.keep(Node::Constant {
        width: 32,
        value: u64::from(code.at),
    })?;
    let now = Now { names, pc };
    let met = sweep.met[place as usize];
    let rest = asserts(index, skips, unrolled, dag, sweep, &now, met)?;
    match point.deed {
        Deed::Arrival => Ok(()),
        Deed::Row => {
            let left = row(alloc, unrolled, dag, sweep, place, names, rest)?;
            fail(dag, sweep, left)?;
            Ok(())
        }
        Deed::Contract(number) => {
            let left = contract_step(alloc, unrolled, dag, sweep, place, number, &now, rest)?;
            fail(dag, sweep, left)?;
            Ok(())
        }
    }
}
