//! The judgement of a report over the frames of notes with contracts.
ghost use Rattle.std.specs.Prelude.{◌≡◌, ℕ, All, Bool, IfOk};
ghost use Rattle.call_spec.specs.Calls.{plain_answer};
ghost use Rattle.frame_texts_spec.specs.CallReplays.{call_replay_answer};
ghost use Rattle.frame_texts_spec.specs.CallTextLaws.{HasContracts};
ghost use Rattle.notes_value.specs.FrameViews.{contract_of};
ghost use Rattle.notes_value.specs.Reads.{IsReadableContract};
ghost use Rattle.program_value.specs.Programs.{program_of};
ghost use Rattle.call_replay.specs.Readings.{whole_with};

use crate::ranks::rank_of;
use crate::reading::{Reading, read_called};
use crate::running::run_named;
use crate::texts::refused;
use machine_law::Machine;
use notes_value::Contract;
use program_value::{Program, RankedFrame};
use report_replay::{REPORT_LIMIT, Replay, too_large};
use std::alloc::{AllocError, Global};

/// Runs a report over frames again, for notes without invariants: `text` is a start with the ending that is named and with what contract steps are given,
/// and `contracts` are those of the notes, by their ranks. The answer is the first of its causes: the text is longer than
/// [`REPORT_LIMIT`] bytes; a line of it is refused, among others one of a byte that the file gives, and of a head, since no address is one; no row can stand at
/// the address in the link register at entry; a line is false that the notes require or, in the frame of a contract, that it needs; the run comes to a contract
/// step that has no event and not its block, or to a block elsewhere, or what a contract step is given breaks a line of what its contract gives, or a block
/// stands after the step that is named; and else whether the run, in the steps up to the one that is named, ends as is named.
///
/// # Errors
///
/// Want of memory.
pub fn replay_called<M: Machine>(
    alloc: Global,
    program: &Program<M>,
    contracts: &[Contract],
    text: &[u8],
) -> Result<Replay, AllocError>
    requires contracts { All (λ x. IsReadableContract M.machine.has_register (contract_of x)) contracts.now }
    requires changes { HasContracts M.form (whole_with (program_of program.now) contracts.now) }
    ensures { (returns : ℕ → Bool) → IfOk result (λ r. plain_answer r.status r.text.items
        ≡ call_replay_answer (whole_with (program_of program.now) contracts.now) returns M.form text.now) }
{
    if text.len() > REPORT_LIMIT {
        return too_large(alloc);
    }
    match read_called(
        alloc,
        program.image,
        program.notes,
        contracts,
        M::layout(),
        text,
    )? {
        Reading::Refused(refusal) => refused(alloc, refusal),
        Reading::State(read) => {
            let frame = RankedFrame {
                program: *program,
                contracts,
                rank: rank_of(contracts, read.named.frame()),
            };
            run_named::<M>(alloc, &frame, &read)
        }
    }
}
