//! The ends of a point's edges.
ghost use Rattle.std.specs.Prelude.{◌≡◌, ◌≤◌, IfOk, false, length};
ghost use Rattle.std.specs.List.{list_any};
ghost use Rattle.program_points.specs.Tables as tables;
ghost use Rattle.program_points.specs.Tables.{frame_at, ends_of, jumps_of, is_call, listed, return_end, IsTable, IsCalled};

use crate::stacks::{Stacks, pushed};
use crate::values::{End, Frame};
use graph_nodes::{Letter, Node, Successor, is_place};
use std::alloc::{AllocError, Global};

/// The frame of a stack by number; the empty stack has none.
fn frame(frames: &[Frame], stack: usize) -> Option<Frame>
    ensures { result ≡ frame_at frames.now stack }
{
    if stack == 0 {
        return None;
    }
    frames.get(stack - 1).copied()
}

/// Whether a stack has the address as its top.
fn has_top(frame: Option<Frame>, a: u32) -> bool
    ensures { result ≡ tables.has_top frame a }
{
    match frame {
        None => false,
        Some(f) => f.top == a,
    }
}

/// The end that a successor is. A jump to the stack's top from a row that may return is the return; the address behind a call is none.
fn successor_end(
    returns: bool,
    frame: Option<Frame>,
    stack: usize,
    called: usize,
    successor: Successor,
) -> Option<End>
    ensures { result ≡ tables.successor_end returns frame stack called successor }
{
    let at = successor.to;
    match successor.letter {
        Letter::Next => Some(End { stack, at }),
        Letter::Jump => {
            if returns && has_top(frame, at) {
                return None;
            }
            Some(End { stack, at })
        }
        Letter::Call => Some(End { stack: called, at }),
        Letter::Return => None,
    }
}

/// The end that a successor is, if it is not the next address.
fn jump_end(
    returns: bool,
    frame: Option<Frame>,
    stack: usize,
    called: usize,
    successor: Successor,
) -> Option<End>
    ensures { result ≡ tables.way_end returns frame stack called successor }
{
    if successor.letter == Letter::Next {
        return None;
    }
    successor_end(returns, frame, stack, called, successor)
}

/// The end of a return, where the row may return and a row can stand at the stack's top.
fn back_end(narrow: bool, returns: bool, frame: Option<Frame>) -> Option<End>
    ensures { result ≡ tables.back_end narrow returns frame }
{
    if !returns {
        return None;
    }
    match frame {
        None => None,
        Some(f) => {
            if is_place(narrow, f.top) {
                Some(End {
                    stack: f.below,
                    at: f.top,
                })
            } else {
                None
            }
        }
    }
}

/// The end of a return from a stack by number, if there is one: where a contract step leads. The error is out of memory.
pub fn returned(
    alloc: Global,
    narrow: bool,
    frames: &[Frame],
    stack: usize,
) -> Result<Vec<End>, AllocError>
    ensures { IfOk result (λ v. v.items ≡ listed (return_end narrow (frame_at frames.now stack))) }
{
    let mut found: Vec<End> = Vec::new(alloc);
    if let Some(end) = back_end(narrow, true, frame(frames, stack)) {
        found.push(end)?;
    }
    Ok(found)
}

/// The number of the stack behind a call of a node, which is added where it was not among the stacks; without a call 0, and the stacks are as they were. The
/// error is want of memory.
pub fn called(stacks: &mut Stacks, node: &Node, stack: usize) -> Result<usize, AllocError>
    requires table { IsTable stacks.old.frames.items stacks.old.numbers }
    requires stack { stack ≤ length stacks.old.frames.items }
    ensures table { IfOk result (λ n. IsTable stacks.new.frames.items stacks.new.numbers) }
    ensures none { list_any (λ s. is_call s.letter) node.now.successors.items ≡ false → (result ≡ Ok 0) × (stacks.new ≡ stacks.old) }
    ensures called { IfOk result (λ n. IsCalled node.now stack stacks.old.frames.items stacks.new.frames.items n) }
{
    if !calls(&node.successors) {
        return Ok(0);
    }
    let number = pushed(stacks, node.at.wrapping_add(node.length as u32), stack)?;
    Ok(number)
}

/// Whether a call is among successors.
fn calls(successors: &[Successor]) -> bool
    ensures { result ≡ list_any (λ s. is_call s.letter) successors.now }
{
    successors.iter().any(|s| s.letter == Letter::Call)
}

/// The ends of a point at a node, but for the exit: the stacks of the point and behind a call are given by number, and `narrow` says whether some rows have 2
/// bytes. The error is want of memory.
pub fn ends(
    alloc: Global,
    narrow: bool,
    node: &Node,
    frames: &[Frame],
    stack: usize,
    called: usize,
) -> Result<Vec<End>, AllocError>
    ensures { IfOk result (λ v. v.items ≡ ends_of narrow node.now (frame_at frames.now stack) stack called) }
{
    let frame = frame(frames, stack);
    let returns = node.returns;
    let mut found: Vec<End> = Vec::new(alloc);
    for successor in &node.successors {
        if let Some(end) = successor_end(returns, frame, stack, called, *successor) {
            found.push(end)?;
        }
    }
    if let Some(end) = back_end(narrow, returns, frame) {
        found.push(end)?;
    }
    Ok(found)
}

/// The ends of a point at a node by jumps, calls and returns, but for the exit: those of its edges that are not taken by going on to the next address. The
/// stacks of the point and behind a call are given by number, and `narrow` says whether some rows have 2 bytes. The error is want of memory.
pub fn jumps(
    alloc: Global,
    narrow: bool,
    node: &Node,
    frames: &[Frame],
    stack: usize,
    called: usize,
) -> Result<Vec<End>, AllocError>
    ensures { IfOk result (λ v. v.items ≡ jumps_of narrow node.now (frame_at frames.now stack) stack called) }
{
    let frame = frame(frames, stack);
    let returns = node.returns;
    let mut found: Vec<End> = Vec::new(alloc);
    for successor in &node.successors {
        if let Some(end) = jump_end(returns, frame, stack, called, *successor) {
            found.push(end)?;
        }
    }
    if let Some(end) = back_end(narrow, returns, frame) {
        found.push(end)?;
    }
    Ok(found)
}
