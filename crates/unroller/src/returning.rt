//! Where contract steps are made, and where they return.
ghost use Rattle.std.specs.Prelude.{◌≡◌, IfOk};
ghost use Rattle.program_points.specs.Tables as tables;
ghost use Rattle.program_points.specs.Tables.{frame_at, listed, return_end};

use graph_nodes::is_place;
use program_points::{End, Frame};
use std::alloc::{AllocError, Global};

/// The stack behind a call of a row, where the row links: there is no call where its number is 0.
pub fn linked(links: bool, called: usize) -> Option<usize>
    ensures { result ≡ tables.linked links called }
{
    if links && called != 0 {
        Some(called)
    } else {
        None
    }
}

/// Whether a call to an end is stepped over: the end's stack is the one behind the point's call, where that links, and its address is a contract's.
pub fn is_stepped(stepped: &[u32], linked: Option<usize>, end: End) -> bool
    ensures { result ≡ tables.is_stepped stepped.now linked end }
{
    match linked {
        None => false,
        Some(called) => end.stack == called && stepped.contains(&end.at),
    }
}

/// The frame of a stack by number; the empty stack has none.
fn frame(frames: &[Frame], stack: usize) -> Option<Frame>
    ensures { result ≡ frame_at frames.now stack }
{
    if stack == 0 {
        return None;
    }
    frames.get(stack - 1).copied()
}

/// The end of a return to the top of a stack, where a row can stand there.
fn back_end(narrow: bool, frame: Option<Frame>) -> Option<End>
    ensures { result ≡ return_end narrow frame }
{
    match frame {
        None => None,
        Some(f) => {
            if is_place(narrow, f.top) {
                Some(End {
                    stack: f.below,
                    at: f.top,
                })
            } else {
                None
            }
        }
    }
}

/// The end of a return from a stack by number, if there is one: where a contract step leads. The error is want of memory.
pub fn returned(
    alloc: Global,
    narrow: bool,
    frames: &[Frame],
    stack: usize,
) -> Result<Vec<End>, AllocError>
    ensures { IfOk result (λ v. v.items ≡ listed (return_end narrow (frame_at frames.now stack))) }
{
    let mut found: Vec<End> = Vec::new(alloc);
    if let Some(end) = back_end(narrow, frame(frames, stack)) {
        found.push(end)?;
    }
    Ok(found)
}
