//! What the text of a report over frames says of a program.
ghost use Rattle.std.specs.Prelude.{◌≡◌, ℕ, IfOk, option_map};
ghost use Rattle.std.specs.List.Sorted.{IsStrictlyIncreasing};
ghost use Rattle.machine_spec.specs.Machine.{Machine};
ghost use Rattle.frame_texts_spec.specs.CallReplays.{call_checks};
ghost use Rattle.frame_texts_spec.specs.CallTexts.{CallRefused, call_text_of};
ghost use Rattle.call_text.specs.Blocks.{call_fault_of};
ghost use Rattle.frame_text.specs.Readings.{judged_head, seen_head};
ghost use Rattle.state_text.specs.Starts.{written_head_of};
ghost use Rattle.start_value.specs.Starts.{layout_of};
ghost use Rattle.frame_replay.specs.Readings.{is_among, judged_lines, told_of, whole_by};

use crate::judging::{HeadLines, refused_line};
use call_text::{CallFault, CalledFault, CalledText, parse_called};
use elf32_reader::Image;
use frame_text::{FrameFault, SeenHead};
use notes_value::Notes;
use start_value::Layout;
use state_text::HeadStart;
use std::alloc::{AllocError, Global};

/// A line that is refused, counted from 1, with its least fault.
#[derive(Clone, Copy)]
pub struct Refusal {
    pub line: u64,
    pub kind: FrameFault,
}

/// What a text says: a segment, or nothing, refused at its first refused line.
#[derive(Drop)]
pub(crate) enum Reading {
    /// The segment with its ending; it has no block, since no address is that of a contract.
    State(CalledText),
    Refused(Refusal),
    /// At the line of this number, which begins a block.
    Block(u64),
}

/// A text that is refused at a line.
fn refused_at(line: u64, kind: CallFault) -> Reading
    ensures { told_of result ≡ CallRefused line (call_fault_of kind) }
{
    match kind {
        CallFault::OfFramed(kind) => Reading::Refused(Refusal { line, kind }),
        CallFault::Block => Reading::Block(line),
    }
}

/// The lines of a head part that was read.
fn lines_of(head: Option<&HeadStart>) -> Option<HeadLines>
    ensures { option_map judged_lines result ≡ option_map (λ h. judged_head (written_head_of h.now)) head.entry }
{
    match head {
        None => None,
        Some(head) => Some(HeadLines {
            at: head.at,
            stack: &head.stack,
            bytes: &head.start.bytes,
        }),
    }
}

/// The lines of a head part before a refused line.
fn lines_seen(head: Option<&SeenHead>) -> Option<HeadLines>
    ensures { option_map judged_lines result ≡ option_map (λ h. seen_head h.now) head.entry }
{
    match head {
        None => None,
        Some(head) => Some(HeadLines {
            at: head.at,
            stack: &head.stack,
            bytes: &head.bytes,
        }),
    }
}

/// What a text says in the layout of its machine, of a program without contracts whose invariants stand on lines of these numbers and whose calls return to these
/// addresses; both rise. The error is want of memory.
pub(crate) fn read_framed(
    alloc: Global,
    image: &Image,
    notes: &Notes,
    invariants: &[u32],
    returns: &[u32],
    layout: Layout,
    text: &[u8],
) -> Result<Reading, AllocError>
    requires invariants { IsStrictlyIncreasing invariants.now }
    requires returns { IsStrictlyIncreasing returns.now }
    ensures { (m : Machine) (entry : ℕ) → IfOk result (λ r.
        call_text_of (layout_of layout) (call_checks (whole_by m image.now notes.now invariants.now entry) (is_among returns.now)) text.now ≡ told_of r) }
{
    match parse_called(alloc, text, &[], layout) {
        Ok(segment) => {
            let head = lines_of(segment.head.as_ref());
            match refused_line(
                image,
                notes,
                invariants,
                returns,
                layout,
                &segment.start.bytes,
                head,
            ) {
                None => Ok(Reading::State(segment)),
                Some(refusal) => Ok(Reading::Refused(refusal)),
            }
        }
        Err(
            CalledFault::Refused {
                line,
                kind,
                seen,
                ..
            },
        ) => {
            let head = lines_seen(seen.head.as_ref());
            match refused_line(image, notes, invariants, returns, layout, &seen.bytes, head) {
                None => Ok(refused_at(line, kind)),
                Some(refusal) => Ok(Reading::Refused(refusal)),
            }
        }
        Err(CalledFault::Memory) => Err(AllocError),
    }
}
