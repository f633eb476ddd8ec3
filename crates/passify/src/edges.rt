//! Edges as exits that are tried.

ghost use Rattle.std.specs.Prelude.{◌≡◌, ◌≤◌, ◌<◌, ◌+◌, ◌*◌, ◌==◌, IfOk, Contains, [], length};
ghost use Rattle.term_spec.specs.Terms.{HasWidth, term_word};
ghost use Rattle.term_spec.specs.Passive.{Tells};
ghost use Rattle.frame_terms.specs.PassiveFrames.{IsWalkable};
ghost use Rattle.question_form.specs.FrameViews.{frame_unrolled_of};
ghost use Rattle.question_form.specs.declared.unrolled.Aim.TheVariants.{IntoHead, Outward};
ghost use Rattle.question_form.specs.declared.unrolled.Edge.{Edge};
ghost use Rattle.question_form.specs.Forms.{IsFormed};
ghost use Rattle.passify.specs.Bits.{Makes, TellsByBoth};
ghost use Rattle.passify.specs.Edges.{CanGo, EdgesTried, Follows, TakesEdge, TellsEdge, TellsWay, aim_gates, aim_joins, aim_loads, aim_nodes, edge_word};
ghost use Rattle.passify.specs.Exits.{Narrows, Tries};
ghost use Rattle.passify.specs.Handled.{IsSweepOf};
ghost use Rattle.passify.specs.Sweeps.{AreTermsOf, AreWell, Hands, Steps};

use crate::bits::{both, constant, turned};
use crate::exits::{asserts, judged, split};
use crate::own::changed;
use crate::sweep::{Sweep, arrive, fail, turn};
use bil_ast::BinaryOp;
use note_terms::Now;
use question_form::{Aim, Edge, Unrolled};
use std::alloc::{AllocError, Global};
use term_dag::{Dag, Node, Term};

/// The address of an edge: none stands for the value of the link register at entry.
fn address_of(dag: &mut Dag, to: Option<u32>, link: Term) -> Result<Term, AllocError>
    requires link { HasWidth dag.old 32 link.0 }
    ensures { IfOk result (λ t. Makes dag.old dag.new 0 1 32 t.0 (λ x. term_word x dag.new t.0 ≡ edge_word to (term_word x dag.old link.0))) }
{
    let _typed = dag.nodes();
    match to {
        None => Ok(link),
        Some(address) => {
            let address = dag.keep(Node::Constant {
                width: 32,
                value: u64::from(address),
            })?;
            Ok(address)
        }
    }
}

/// Whether a point goes on by a way that an edge has, to its address.
fn way(
    dag: &mut Dag,
    falls: bool,
    jumps: bool,
    jumped: Term,
    same: Term,
) -> Result<Term, AllocError>
    requires jumped { HasWidth dag.old 1 jumped.0 }
    requires same { HasWidth dag.old 1 same.0 }
    ensures { IfOk result (λ t. Makes dag.old dag.new 1 4 1 t.0 (TellsWay dag.old dag.new falls jumps jumped.0 same.0 t.0)) }
{
    let _typed = dag.nodes();
    if falls {
        if jumps {
            return Ok(same);
        }
        let fell = turned(dag, jumped)?;
        let bit = both(dag, fell, same)?;
        return Ok(bit);
    }
    if jumps {
        let bit = both(dag, jumped, same)?;
        return Ok(bit);
    }
    let never = constant(dag, false)?;
    Ok(never)
}

/// The walk comes to a head where a bit is 1: the head's lines are judged there, and the segment ends.
fn into_head(
    unrolled: &Unrolled,
    dag: &mut Dag,
    sweep: &mut Sweep,
    at: u32,
    bounds: (usize, usize),
    next: &Now,
    hit: Term,
) -> Result<(), AllocError>
    requires formed { IsFormed unrolled.now }
    requires well { AreWell dag.old sweep.old }
    requires goes { CanGo unrolled.now (length sweep.old.met.items) next.now.names.now (IntoHead at bounds) }
    requires next { AreTermsOf sweep.old.entry dag.old next.now.names.now }
    requires hit { HasWidth dag.old 1 hit.0 }
    ensures steps { IfOk result (λ _. Steps dag.old dag.new sweep.old sweep.new (aim_gates unrolled.now next.now.names.now (IntoHead at bounds))
        (aim_loads unrolled.now (IntoHead at bounds)) 0 0 (aim_nodes unrolled.now next.now.names.now (IntoHead at bounds)) (λ m. ⊥)) }
    ensures hands { IfOk result (λ _. Hands dag.old dag.new sweep.old sweep.new hit.0 (Follows unrolled.now dag.old sweep.old next.now (IntoHead at bounds))) }
{
    let pc = dag.keep(Node::Constant {
        width: 32,
        value: u64::from(at),
    })?;
    let here = Now {
        names: next.names,
        pc,
    };
    let index = &unrolled.asserts[bounds.0..bounds.1];
    asserts(index, false, unrolled, dag, sweep, &here, hit)?;
    Ok(())
}

/// The walk comes out of the frame where a bit is 1: the ensure lines are judged, or what the frame's own contract gives, and what may not have changed.
fn outward(
    unrolled: &Unrolled,
    dag: &mut Dag,
    sweep: &mut Sweep,
    next: &Now,
    hit: Term,
) -> Result<(), AllocError>
    requires walkable { IsWalkable (frame_unrolled_of unrolled.now) }
    requires sweep { IsSweepOf unrolled.now sweep.old }
    requires well { AreWell dag.old sweep.old }
    requires goes { CanGo unrolled.now (length sweep.old.met.items) next.now.names.now Outward }
    requires next { AreTermsOf sweep.old.entry dag.old next.now.names.now }
    requires pc { HasWidth dag.old 32 next.now.pc.0 }
    requires hit { HasWidth dag.old 1 hit.0 }
    ensures steps { IfOk result (λ _. Steps dag.old dag.new sweep.old sweep.new (aim_gates unrolled.now next.now.names.now Outward)
        (aim_loads unrolled.now Outward) 0 0 (aim_nodes unrolled.now next.now.names.now Outward) (λ m. ⊥)) }
    ensures hands { IfOk result (λ _. Hands dag.old dag.new sweep.old sweep.new hit.0 (Follows unrolled.now dag.old sweep.old next.now Outward)) }
{
    let Some(own) = unrolled.own else {
        judged(dag, sweep, &unrolled.notes.ensured, next, hit, unrolled.big)?;
        return Ok(());
    };
    let left = judged(dag, sweep, &own.gives, next, hit, unrolled.big)?;
    let differs = changed(dag, own, &sweep.entry, next.names)?;
    let bit = both(dag, left, differs)?;
    fail(dag, sweep, bit)?;
    Ok(())
}

/// The walk goes on by an aim, where a bit is 1.
pub fn follow(
    alloc: Global,
    unrolled: &Unrolled,
    dag: &mut Dag,
    sweep: &mut Sweep,
    aim: Aim,
    next: &Now,
    hit: Term,
) -> Result<(), AllocError>
    requires walkable { IsWalkable (frame_unrolled_of unrolled.now) }
    requires sweep { IsSweepOf unrolled.now sweep.old }
    requires formed { IsFormed unrolled.now }
    requires well { AreWell dag.old sweep.old }
    requires goes { CanGo unrolled.now (length sweep.old.met.items) next.now.names.now aim }
    requires next { AreTermsOf sweep.old.entry dag.old next.now.names.now }
    requires pc { HasWidth dag.old 32 next.now.pc.0 }
    requires hit { HasWidth dag.old 1 hit.0 }
    ensures steps { IfOk result (λ _. Steps dag.old dag.new sweep.old sweep.new (aim_gates unrolled.now next.now.names.now aim)
        (aim_loads unrolled.now aim) 0 (aim_joins aim) (aim_nodes unrolled.now next.now.names.now aim) (λ m. ⊥)) }
    ensures hands { IfOk result (λ _. Hands dag.old dag.new sweep.old sweep.new hit.0 (Follows unrolled.now dag.old sweep.old next.now aim)) }
{
    match aim {
        Aim::OnTo(place) => {
            arrive(alloc, dag, sweep, hit, next.names, place)?;
            Ok(())
        }
        Aim::Outward => {
            outward(unrolled, dag, sweep, next, hit)?;
            Ok(())
        }
        Aim::IntoHead {
            at,
            asserts: bounds,
        } => {
            into_head(unrolled, dag, sweep, at, bounds, next, hit)?;
            Ok(())
        }
        Aim::OverLast => {
            turn(dag, sweep, hit)?;
            Ok(())
        }
    }
}

/// How a point is left: whether by a jump, and the state that it goes on to.
#[derive(Clone, Copy)]
pub struct Gone<'a> {
    pub jumped: Term,
    pub next: Now<'a>,
}

/// Whether an edge is taken.
fn along(
    dag: &mut Dag,
    edge: Edge,
    jumped: Term,
    next: Term,
    link: Term,
) -> Result<Term, AllocError>
    requires jumped { HasWidth dag.old 1 jumped.0 }
    requires next { HasWidth dag.old 32 next.0 }
    requires link { HasWidth dag.old 32 link.0 }
    ensures { IfOk result (λ t. Makes dag.old dag.new 33 8 1 t.0 (TellsEdge dag.old dag.new edge jumped.0 next.0 link.0 t.0)) }
{
    let address = address_of(dag, edge.to, link)?;
    let same = dag.mk(Node::Binary {
        op: BinaryOp::Equal,
        width: 32,
        left: next,
        right: address,
    })?;
    let bit = way(dag, edge.falls, edge.jumps, jumped, same)?;
    Ok(bit)
}

/// An edge is tried; what is left.
pub fn taken(
    alloc: Global,
    unrolled: &Unrolled,
    dag: &mut Dag,
    sweep: &mut Sweep,
    edge: Edge,
    gone: &Gone,
    link: Term,
    rest: Term,
) -> Result<Term, AllocError>
    requires walkable { IsWalkable (frame_unrolled_of unrolled.now) }
    requires sweep { IsSweepOf unrolled.now sweep.old }
    requires formed { IsFormed unrolled.now }
    requires well { AreWell dag.old sweep.old }
    requires goes { CanGo unrolled.now (length sweep.old.met.items) gone.now.next.names.now edge.aim }
    requires next { AreTermsOf sweep.old.entry dag.old gone.now.next.names.now }
    requires pc { HasWidth dag.old 32 gone.now.next.pc.0 }
    requires jumped { HasWidth dag.old 1 gone.now.jumped.0 }
    requires link { HasWidth dag.old 32 link.0 }
    requires rest { HasWidth dag.old 1 rest.0 }
    ensures steps { IfOk result (λ t. Steps dag.old dag.new sweep.old sweep.new (35 + aim_gates unrolled.now gone.now.next.names.now edge.aim)
        (aim_loads unrolled.now edge.aim) 0 (aim_joins edge.aim) (14 + aim_nodes unrolled.now gone.now.next.names.now edge.aim) (λ m. ⊥)) }
    ensures bit { IfOk result (λ t. HasWidth dag.new 1 t.0) }
    ensures tries { IfOk result (λ t. Tries dag.old dag.new sweep.old sweep.new rest.0 t.0 (TakesEdge dag.old edge gone.now.jumped.0 gone.now.next.pc.0 link.0)
        (Follows unrolled.now dag.old sweep.old gone.now.next edge.aim)) }
    ensures narrows { IfOk result (λ t. Narrows dag.old dag.new rest.0 t.0 (λ x q. Unit)) }
{
    let bit = along(dag, edge, gone.jumped, gone.next.pc, link)?;
    let parts = split(dag, rest, bit)?;
    follow(alloc, unrolled, dag, sweep, edge.aim, &gone.next, parts.on)?;
    Ok(parts.off)
}

/// The edges of a point are tried; what is left.
pub fn edges(
    alloc: Global,
    unrolled: &Unrolled,
    dag: &mut Dag,
    sweep: &mut Sweep,
    list: &[Edge],
    gone: &Gone,
    link: Term,
    rest: Term,
) -> Result<Term, AllocError>
    requires walkable { IsWalkable (frame_unrolled_of unrolled.now) }
    requires sweep { IsSweepOf unrolled.now sweep.old }
    requires formed { IsFormed unrolled.now }
    requires well { AreWell dag.old sweep.old }
    requires goes { (e : Edge) → Contains list.now e → CanGo unrolled.now (length sweep.old.met.items) gone.now.next.names.now e.aim }
    requires next { AreTermsOf sweep.old.entry dag.old gone.now.next.names.now }
    requires pc { HasWidth dag.old 32 gone.now.next.pc.0 }
    requires jumped { HasWidth dag.old 1 gone.now.jumped.0 }
    requires link { HasWidth dag.old 32 link.0 }
    requires rest { HasWidth dag.old 1 rest.0 }
    ensures { IfOk result (λ t. EdgesTried unrolled.now dag.old dag.new sweep.old sweep.new rest.0 t.0 gone.now.next gone.now.jumped.0 link.0 list.now []) }
{
    let mut left = rest;
    for i in 0..list.len() {
        left = taken(alloc, unrolled, dag, sweep, list[i], gone, link, left)?;
    }
    Ok(left)
}
