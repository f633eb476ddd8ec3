//! The points in the order of places, with their edges.
ghost use Rattle.std.specs.Prelude.{◌≡◌, ◌≤◌, ◌<◌, ◌++◌, ℕ, List, IfOk, OnOk, Contains, length, slice_index};
ghost use Rattle.std.specs.List.Sorted.{IsNonDecreasingBy, IsStrictlyIncreasing};
ghost use Rattle.graph_nodes.specs.Graphs.{addresses_of};
ghost use Rattle.graph_nodes.specs.Places.{AreRising};
ghost use Rattle.program_points.specs.declared.values.Frame.{Frame as StackFrame};
ghost use Rattle.program_points.specs.Tables.{IsTable};
ghost use Rattle.unroller.specs.Keys as numbers;
ghost use Rattle.unroller.specs.Led as leads;
ghost use Rattle.unroller.specs.Led.{AreCalled, AreLeft, ArePlaced, HasCode, IsCoded, deed_at};

use crate::edges::{add_edges, add_return};
use crate::keys::{
    Aims, address_of, address_place, contract_of, is_head, root_of, stack_of, turns_of,
};
use crate::steps::contract_place;
use graph_nodes::{Graph, node_at};
use program_points::{Frame, Stacks, called};
use question_form::{Deed, Edge, Point};
use std::alloc::{AllocError, Global};

/// Points and their edges.
#[derive(Drop)]
pub struct Placed {
    pub points: Vec<Point>,
    pub edges: Vec<Edge>,
}

/// The numbers of the stacks behind the calls at the points of numbers. The error is want of memory.
pub fn calls(
    alloc: Global,
    graph: &Graph,
    stacks: &mut Stacks,
    keys: &[u128],
) -> Result<Vec<usize>, AllocError>
    requires table { IsTable stacks.old.frames.items stacks.old.numbers }
    requires nodes { AreRising graph.now.nodes.items }
    requires among { (i : ℕ) → i < length keys.now → Contains (addresses_of graph.now) (numbers.address_of (slice_index keys.now i)) }
    requires fits { (i : ℕ) → i < length keys.now → numbers.stack_of (slice_index keys.now i) ≤ length stacks.old.frames.items }
    ensures table { IfOk result (λ v. IsTable stacks.new.frames.items stacks.new.numbers) }
    ensures begins { IfOk result (λ v. (rest : List StackFrame) × (stacks.new.frames.items ≡ stacks.old.frames.items ++ rest) × (length rest ≤ length
        keys.now)) }
    ensures called { IfOk result (λ v. AreCalled graph.now keys.now stacks.new.frames.items (length keys.now) v.items) }
{
    let mut found: Vec<usize> = Vec::new(alloc);
    for key in keys {
        let node = match node_at(graph, address_of(*key)) {
            None => unreachable!(),
            Some(node) => node,
        };
        let number = called(stacks, node, stack_of(*key))?;
        found.push(number)?;
    }
    Ok(found)
}

/// Whether the point of a number is the entry's own and at a head: the segment ends there.
fn is_arrival(heads: &[u32], key: u128) -> bool
    ensures { result ≡ leads.is_arrival heads.now key }
{
    root_of(key) == 0 && is_head(heads, address_of(key))
}

/// What is done at the point of a number.
fn deed(aims: &Aims, key: u128) -> Deed
    ensures { result ≡ deed_at aims.now.heads.now aims.now.stepped.now key }
{
    if contract_of(key) {
        return Deed::Contract(contract_place(aims.stepped, address_of(key)));
    }
    if is_arrival(aims.heads, key) {
        return Deed::Arrival;
    }
    Deed::Row
}

/// The addresses that have codes, each list rising: those of rows, and those of contract steps, whose codes come behind.
#[derive(Clone, Copy)]
pub struct Coded<'a> {
    pub rows: &'a [u32],
    pub steps: &'a [u32],
}

/// The place of the code of the point at an address at which so is done.
fn code_place(coded: Coded, deed: Deed, at: u32) -> usize
    requires rows { IsStrictlyIncreasing coded.rows.now }
    requires few_rows { length coded.rows.now ≤ 16777216 }
    requires steps { IsStrictlyIncreasing coded.steps.now }
    requires few_steps { length coded.steps.now ≤ 16777216 }
    requires among { HasCode deed coded.rows.now coded.steps.now at }
    ensures code { IsCoded deed coded.entry.rows.now coded.entry.steps.now at result }
    ensures low { result ≤ 33554432 }
{
    match deed {
        Deed::Contract(_) => match address_place(coded.steps, at) {
            None => unreachable!(),
            Some(place) => coded.rows.len() + place,
        },
        Deed::Row | Deed::Arrival => match address_place(coded.rows, at) {
            None => unreachable!(),
            Some(place) => place,
        },
    }
}

/// Adds the edges of the point of a number at which so is done, with the number of the stack behind a call: none where the segment ends there. The error is want
/// of memory.
fn add_left(
    alloc: Global,
    edges: &mut Vec<Edge>,
    deed: Deed,
    graph: &Graph,
    frames: &[Frame],
    aims: &Aims,
    key: u128,
    called: usize,
) -> Result<(), AllocError>
    requires nodes { AreRising graph.now.nodes.items }
    requires rise { IsStrictlyIncreasing aims.now.keys.now }
    requires few { length aims.now.keys.now ≤ 16777216 }
    requires sorted { IsNonDecreasingBy (λ x. x.0) aims.now.asserts.now }
    requires root { numbers.root_of key ≤ 16777216 }
    requires low { numbers.turns_of key ≤ 4096 }
    requires among { Contains (addresses_of graph.now) (numbers.address_of key) }
    ensures { OnOk result (AreLeft deed graph.now aims.now.heads.now aims.now.stepped.now aims.now.asserts.now frames.now aims.now.keys.now key called
        edges.old.items edges.new.items) }
{
    match deed {
        Deed::Arrival => Ok(()),
        Deed::Contract(_) => {
            add_return(alloc, edges, graph.narrow, frames, aims, key)?;
            Ok(())
        }
        Deed::Row => {
            let node = match node_at(graph, address_of(key)) {
                None => unreachable!(),
                Some(node) => node,
            };
            add_edges(alloc, edges, graph.narrow, node, frames, aims, key, called)?;
            Ok(())
        }
    }
}

/// The points of numbers, each with the place of its code and its edges. The error is want of memory.
pub fn points_of(
    alloc: Global,
    graph: &Graph,
    frames: &[Frame],
    aims: &Aims,
    coded: Coded,
    called: &[usize],
) -> Result<Placed, AllocError>
    requires nodes { AreRising graph.now.nodes.items }
    requires rise { IsStrictlyIncreasing aims.now.keys.now }
    requires few { length aims.now.keys.now ≤ 16777216 }
    requires sorted { IsNonDecreasingBy (λ x. x.0) aims.now.asserts.now }
    requires root { (i : ℕ) → i < length aims.now.keys.now → numbers.root_of (slice_index aims.now.keys.now i) ≤ 16777216 }
    requires low { (i : ℕ) → i < length aims.now.keys.now → numbers.turns_of (slice_index aims.now.keys.now i) ≤ 4096 }
    requires among { (i : ℕ) → i < length aims.now.keys.now → Contains (addresses_of graph.now) (numbers.address_of (slice_index aims.now.keys.now i)) }
    requires coded { (i : ℕ) → i < length aims.now.keys.now → HasCode (deed_at aims.now.heads.now aims.now.stepped.now (slice_index aims.now.keys.now i))
        coded.rows.now coded.steps.now (numbers.address_of (slice_index aims.now.keys.now i)) }
    requires rows { IsStrictlyIncreasing coded.rows.now }
    requires few_rows { length coded.rows.now ≤ 16777216 }
    requires steps { IsStrictlyIncreasing coded.steps.now }
    requires few_steps { length coded.steps.now ≤ 16777216 }
    requires called { length called.now ≡ length aims.now.keys.now }
    ensures { IfOk result (λ v. ArePlaced graph.now aims.now.heads.now aims.now.stepped.now aims.now.asserts.now frames.now aims.now.keys.now
        coded.entry.rows.now coded.entry.steps.now called.now (length aims.now.keys.now) v.points.items v.edges.items) }
{
    let mut points: Vec<Point> = Vec::with_capacity(alloc, aims.keys.len())?;
    let mut edges: Vec<Edge> = Vec::new(alloc);
    for place in 0..aims.keys.len() {
        let key = aims.keys[place];
        let deed = deed(aims, key);
        let code = code_place(coded, deed, address_of(key));
        let begin = edges.len();
        add_left(
            alloc,
            &mut edges,
            deed,
            graph,
            frames,
            aims,
            key,
            called[place],
        )?;
        points.push(Point {
            root: root_of(key),
            turns: turns_of(key),
            code: code as u32,
            stack: stack_of(key),
            deed,
            edges: begin,
        })?;
    }
    Ok(Placed { points, edges })
}
