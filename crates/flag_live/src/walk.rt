//! The vertices that are reached from some over edges.
ghost use Rattle.std.specs.Prelude.{◌≡◌, ◌≤◌, ◌<◌, ◌↔◌, ℕ, List, IfOk, length, true, false, slice_index_or, Contains};
ghost use Rattle.std.specs.List.{AllWithin};
ghost use Rattle.std.specs.List.Sorted.{IsNonDecreasingBy};
ghost use Rattle.flag_live.specs.Reachable.{IsMarked, IsMark, Extends, IsWalk, Reaches};

use std::alloc::{AllocError, Global};

/// The vertices that are marked, and the order in which they were.
#[derive(Drop)]
struct Marks {
    marked: Vec<bool>,
    queue: Vec<usize>,
}

/// Marks a vertex and puts it at the end of the queue, unless it is marked already or is none of the vertices. The error is want of memory.
fn mark(marks: &mut Marks, vertex: usize) -> Result<(), AllocError>
    ensures { IfOk result (λ _. IsMark marks.old.marked.items marks.old.queue.items vertex marks.new.marked.items marks.new.queue.items) }
{
    if vertex >= marks.marked.len() {
        return Ok(());
    }
    if marks.marked[vertex] {
        return Ok(());
    }
    marks.queue.push(vertex)?;
    marks.marked[vertex] = true;
    Ok(())
}

/// The first place whose edge begins at no vertex below one.
fn first_from(edges: &[(usize, usize)], vertex: usize) -> usize
    requires { IsNonDecreasingBy (λ e. e.0) edges.now }
    ensures within { result ≤ length edges.now }
    ensures before { AllWithin (λ e. e.0 < vertex) edges.now 0 result }
    ensures behind { AllWithin (λ e. vertex ≤ e.0) edges.now result (length edges.now) }
{
    edges.partition_point(|e| e.0 < vertex)
}

/// The first place whose edge begins at a vertex above one.
fn first_above(edges: &[(usize, usize)], vertex: usize) -> usize
    requires { IsNonDecreasingBy (λ e. e.0) edges.now }
    ensures within { result ≤ length edges.now }
    ensures before { AllWithin (λ e. e.0 ≤ vertex) edges.now 0 result }
    ensures behind { AllWithin (λ e. vertex < e.0) edges.now result (length edges.now) }
{
    edges.partition_point(|e| e.0 <= vertex)
}

/// Marks the vertices to which edges lead from one. The error is want of memory.
fn follow(marks: &mut Marks, edges: &[(usize, usize)], vertex: usize) -> Result<(), AllocError>
    requires { IsNonDecreasingBy (λ e. e.0) edges.now }
    ensures extends { IfOk result (λ _. Extends marks.old.marked.items marks.old.queue.items marks.new.marked.items marks.new.queue.items) }
    ensures led { (to : ℕ) → Contains edges.now (vertex, to) → to < length marks.old.marked.items → IfOk result (λ _. IsMarked marks.new.marked.items to) }
    ensures walk { (starts : List ℕ) → IsWalk edges.now starts marks.old.marked.items marks.old.queue.items →
        Reaches (length marks.old.marked.items) edges.now starts vertex →
        IfOk result (λ _. IsWalk edges.now starts marks.new.marked.items marks.new.queue.items) }
{
    let first = first_from(edges, vertex);
    let above = first_above(edges, vertex);
    for i in first..above {
        mark(marks, edges[i].1)?;
    }
    Ok(())
}

/// Which of the vertices below `count` are reached: the starts below it, and each vertex below it to which an edge leads from one that is reached. The edges
/// stand by rising first vertices. Each vertex is followed at most once.
///
/// # Errors
///
/// Want of memory.
pub fn reach(
    alloc: Global,
    count: usize,
    edges: &[(usize, usize)],
    starts: &[usize],
) -> Result<Vec<bool>, AllocError>
    requires { IsNonDecreasingBy (λ e. e.0) edges.now }
    ensures { IfOk result (λ marked. (vertex : ℕ) → IsMarked marked.items vertex ↔ Reaches count edges.now starts.now vertex) }
{
    let mut marks = Marks {
        marked: vec![in alloc; false; count]?,
        queue: Vec::new(alloc),
    };
    for start in starts {
        mark(&mut marks, *start)?;
    }
    let mut next = 0;
    while next < marks.queue.len() {
        let vertex = marks.queue[next];
        follow(&mut marks, edges, vertex)?;
        next += 1;
    }
    Ok(marks.marked)
}
