//! What the text of a report over frames says of a program with contracts.
ghost use Rattle.std.specs.Prelude.{◌≡◌, ℕ, Bool, IfOk};
ghost use Rattle.machine_spec.specs.Machine.{Machine};
ghost use Rattle.frame_texts_spec.specs.CallReplays.{call_checks};
ghost use Rattle.frame_texts_spec.specs.CallTextLaws.{HasContracts};
ghost use Rattle.frame_texts_spec.specs.CallTexts.{call_text_of};
ghost use Rattle.start_value.specs.Starts.{layout_of};
ghost use Rattle.call_replay.specs.Readings.{told_of, whole_by};

use crate::blocks::changes_of;
use crate::judging::{Refusal, refused_line};
use crate::ranks::rank_of;
use call_text::{CalledFault, CalledText, parse_called};
use elf32_reader::Image;
use notes_value::{Contract, Notes};
use start_value::Layout;
use std::alloc::{AllocError, Global};

/// What a text says: a run with its ending, or nothing, refused at its first refused line.
#[derive(Drop)]
pub(crate) enum Reading {
    /// The run with its ending.
    State(CalledText),
    Refused(Refusal),
}

/// What a text says in the layout of its machine, of a program whose notes have contracts and no invariants. The error is want of memory.
pub(crate) fn read_called(
    alloc: Global,
    image: &Image,
    notes: &Notes,
    contracts: &[Contract],
    layout: Layout,
    text: &[u8],
) -> Result<Reading, AllocError>
    requires { (m : Machine) (entry : ℕ) → HasContracts (layout_of layout) (whole_by m image.now notes.now contracts.now entry) }
    ensures { (m : Machine) (entry : ℕ) (returns : ℕ → Bool) → IfOk result (λ r.
        call_text_of (layout_of layout) (call_checks (whole_by m image.now notes.now contracts.now entry) returns) text.now ≡ told_of r) }
{
    let changes = changes_of(alloc, contracts)?;
    match parse_called(alloc, text, &changes, layout) {
        Ok(read) => {
            let own = rank_of(contracts, read.named.frame()) < contracts.len();
            let has_head = read.head.is_some();
            match refused_line(image, notes, own, layout, &read.start.bytes, has_head) {
                None => Ok(Reading::State(read)),
                Some(refusal) => Ok(Reading::Refused(refusal)),
            }
        }
        Err(
            CalledFault::Refused {
                line,
                kind,
                frame,
                seen,
            },
        ) => {
            let own = rank_of(contracts, frame) < contracts.len();
            let has_head = seen.head.is_some();
            match refused_line(image, notes, own, layout, &seen.bytes, has_head) {
                None => Ok(Reading::Refused(Refusal { line, kind })),
                Some(refusal) => Ok(Reading::Refused(refusal)),
            }
        }
        Err(CalledFault::Memory) => Err(AllocError),
    }
}
