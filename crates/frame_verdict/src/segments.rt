//! What is shown of the segments of an unrolled frame.
ghost use Rattle.std.specs.Prelude.{◌≡◌, ◌<◌, ◌++◌, IfOk, length, map, reverse};
ghost use Rattle.frame_spec.specs.FrameWalk.{point_at};
ghost use Rattle.frame_start.specs.Segments.{calls_by, written_parts};
ghost use Rattle.frame_terms.specs.FrameStarts.{call_of};
ghost use Rattle.program_points.specs.Tables.{stack_at};
ghost use Rattle.question_form.specs.FrameViews.{frame_unrolled_of};
ghost use Rattle.start_value.specs.Starts.{written_of};
ghost use Rattle.state_text.specs.Starts.{written_call_of};
ghost use Rattle.frame_rounds.specs.FrameGrounds.{shown_at};
ghost use Rattle.frame_verdict.specs.ShownEnds.{shown_of};

use frame_start::{Parts, Segments};
use program_points::Frame;
use question_form::Unrolled;
use start_value::Start;
use state_text::{CallState, HeadStart};
use std::alloc::{AllocError, Global};

/// A start as it is shown: the state at entry; where the segment begins at a head, the head state; and what its contract steps are given. The choices are those
/// of the segment.
#[derive(Drop)]
pub struct Shown {
    pub start: Start,
    pub head: Option<HeadStart>,
    pub calls: Vec<CallState>,
}

/// Appends the top address of the stack of a number, which is not the empty one, and answers the number of the stack below it. The error is want of memory.
fn push_top(found: &mut Vec<u32>, frames: &[Frame], number: usize) -> Result<usize, AllocError>
    requires { 0 < number }
    ensures less { IfOk result (λ below. below < number) }
    ensures stack { IfOk result (λ below. found.new.items ++ stack_at frames.now below ≡ found.old.items ++ stack_at frames.now number) }
{
    if number > frames.len() {
        return Ok(0);
    }
    let frame = frames[number - 1];
    found.push(frame.top)?;
    if frame.below < number {
        return Ok(frame.below);
    }
    Ok(0)
}

/// The addresses of the stack of a number, the outermost first. The error is want of memory.
fn stack_addresses(alloc: Global, frames: &[Frame], number: usize) -> Result<Vec<u32>, AllocError>
    ensures { IfOk result (λ v. v.items ≡ reverse (stack_at frames.now number)) }
{
    let mut found = Vec::new(alloc);
    let mut upper = number;
    while upper > 0 {
        upper = push_top(&mut found, frames, upper)?;
    }
    found.reverse();
    Ok(found)
}

/// A copy of a start with other choices. The error is want of memory.
fn with_choices(alloc: Global, start: &Start, choices: &[(u64, u8)]) -> Result<Start, AllocError>
    ensures { IfOk result (λ s. written_of s ≡ record (written_of start.now) { choices = choices.now }) }
{
    let mut regs = Vec::new(alloc);
    regs.extend_from_slice(&start.regs)?;
    let mut bytes = Vec::new(alloc);
    bytes.extend_from_slice(&start.bytes)?;
    let mut chosen = Vec::new(alloc);
    chosen.extend_from_slice(choices)?;
    Ok(Start {
        regs,
        flags: start.flags,
        bytes,
        choices: chosen,
    })
}

/// The address of the point of a place, 0 where there is none.
fn address_at(unrolled: &Unrolled, place: usize) -> u32
    ensures { result ≡ (point_at (frame_unrolled_of unrolled.now) place).point.at }
{
    if place >= unrolled.points.len() {
        return 0;
    }
    let code = unrolled.points[place].code as usize;
    if code >= unrolled.codes.len() {
        return 0;
    }
    unrolled.codes[code].at
}

/// The contract step of a number, given what is written for a place; nothing where nothing is written for it. The error is want of memory.
fn call_at(
    alloc: Global,
    unrolled: &Unrolled,
    parts: &Parts,
    step: u64,
    place: usize,
) -> Result<CallState, AllocError>
    ensures { IfOk result (λ c. written_call_of c ≡ call_of (frame_unrolled_of unrolled.now) (written_parts parts.now) step place) }
{
    let at = address_at(unrolled, place);
    let mut regs = Vec::new(alloc);
    let mut bytes = Vec::new(alloc);
    if place >= parts.gifts.len() {
        return Ok(CallState {
            step,
            at,
            regs,
            flags: 0,
            bytes,
        });
    }
    let gift = &parts.gifts[place];
    regs.extend_from_slice(&gift.regs)?;
    bytes.extend_from_slice(&gift.bytes)?;
    Ok(CallState {
        step,
        at,
        regs,
        flags: gift.flags,
        bytes,
    })
}

/// What contract steps are given, by their numbers and the places of their points. The error is want of memory.
fn calls_of(
    alloc: Global,
    unrolled: &Unrolled,
    parts: &Parts,
    steps: &[(u64, usize)],
) -> Result<Vec<CallState>, AllocError>
    ensures { IfOk result (λ v. map written_call_of v.items ≡ calls_by (frame_unrolled_of unrolled.now) (written_parts parts.now) steps.now) }
{
    let mut calls = Vec::new(alloc);
    for (step, place) in steps {
        calls.push(call_at(alloc, unrolled, parts, *step, *place)?)?;
    }
    Ok(calls)
}

/// What is shown of the segment of the root of a number, as copies of the parts. The error is want of memory.
pub fn shown_of_root(
    alloc: Global,
    unrolled: &Unrolled,
    segments: &Segments,
    root: usize,
) -> Result<Shown, AllocError>
    requires within { root < length unrolled.now.roots.items }
    requires count { length segments.now.choices.items ≡ length unrolled.now.roots.items }
    requires called { length segments.now.calls.items ≡ length unrolled.now.roots.items }
    ensures { IfOk result (λ s. shown_of s ≡ shown_at unrolled.now segments.now root) }
{
    let choices = &segments.choices[root];
    let entry = &segments.parts.entry;
    let calls = calls_of(alloc, unrolled, &segments.parts, &segments.calls[root])?;
    match unrolled.roots[root].head {
        None => {
            let start = with_choices(alloc, entry, choices)?;
            Ok(Shown {
                start,
                head: None,
                calls,
            })
        }
        Some(head) => {
            let start = with_choices(alloc, entry, &entry.choices)?;
            let head = HeadStart {
                at: head.at,
                start: with_choices(alloc, &segments.parts.head, choices)?,
                stack: stack_addresses(alloc, &unrolled.frames, head.stack)?,
            };
            Ok(Shown {
                start,
                head: Some(head),
                calls,
            })
        }
    }
}
