//! The judgement of a report over frames.
ghost use Rattle.std.specs.Prelude.{◌≡◌, IfOk};
ghost use Rattle.std.specs.List.Sorted.{IsStrictlyIncreasing};
ghost use Rattle.program_value.specs.Programs.{program_of};
ghost use Rattle.call_spec.specs.Calls.{plain_answer};
ghost use Rattle.frame_texts_spec.specs.CallReplays.{call_replay_answer};
ghost use Rattle.table_run.specs.FrameEnds.{whole_of};
ghost use Rattle.frame_replay.specs.Readings.{is_among};

use crate::reading::{Reading, read_framed};
use crate::running::run_named;
use crate::texts::{bad_block, refused};
use machine_law::Machine;
use program_value::Program;
use report_replay::{REPORT_LIMIT, Replay, too_large};
use std::alloc::{AllocError, Global};

/// Runs a report again: `text` is a segment with the ending that is named, `invariants` the numbers of those
/// assert lines that are invariants, and `returns` the addresses to which calls of the program return; both rise. The answer is the first of its causes: the
/// text is longer than [`REPORT_LIMIT`] bytes; a line of it is refused, among others one of a byte that the file gives, of an address that is no head, of one
/// to which no call returns, and one that begins a block, since no address is that of a contract; no row can stand at the address in the link register at
/// entry; a require line is false; an invariant of the head is false in the head state; and else whether the segment, in the steps up to the one that is named,
/// ends as is named.
///
/// # Errors
///
/// Want of memory.
pub fn replay_frame<M: Machine>(
    alloc: Global,
    program: &Program<M>,
    invariants: &[u32],
    returns: &[u32],
    text: &[u8],
) -> Result<Replay, AllocError>
    requires invariants { IsStrictlyIncreasing invariants.now }
    requires returns { IsStrictlyIncreasing returns.now }
    ensures { IfOk result (λ r. plain_answer r.status r.text.items
        ≡ call_replay_answer (whole_of (program_of program.now) invariants.now) (is_among returns.now) M.form text.now) }
{
    if text.len() > REPORT_LIMIT {
        return too_large(alloc);
    }
    match read_framed(
        alloc,
        program.image,
        program.notes,
        invariants,
        returns,
        M::layout(),
        text,
    )? {
        Reading::Refused(refusal) => refused(alloc, refusal),
        Reading::Block(line) => bad_block(alloc, line),
        Reading::State(segment) => run_named::<M>(alloc, program, invariants, &segment),
    }
}
