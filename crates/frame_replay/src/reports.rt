//! The judgement of a report over frames, by the program's own return addresses.
ghost use Rattle.std.specs.Prelude.{◌≡◌, ℕ, Bool, IfOk};
ghost use Rattle.std.specs.List.Sorted.{IsStrictlyIncreasing};
ghost use Rattle.program_value.specs.Programs.{program_of};
ghost use Rattle.call_spec.specs.Calls.{plain_answer};
ghost use Rattle.frame_texts_spec.specs.CallReplays.{call_replay_answer};
ghost use Rattle.frame_texts_spec.specs.FrameReplays.{TellsReturns};
ghost use Rattle.table_run.specs.FrameEnds.{whole_of};

use crate::replays::replay_frame;
use crate::returns::return_addresses;
use flow_graph::descend;
use machine_law::Machine;
use program_value::Program;
use report_replay::Replay;
use std::alloc::{AllocError, Global};

/// Runs a report again, as [`replay_frame`] does, where the addresses to which calls return are those of the program's flow graph: `text` is a segment with the
/// ending that is named, and `invariants` the numbers of those assert lines that are invariants, rising.
///
/// # Errors
///
/// Want of memory.
pub fn replay_report<M: Machine>(
    alloc: Global,
    program: &Program<M>,
    invariants: &[u32],
    text: &[u8],
) -> Result<Replay, AllocError>
    requires invariants { IsStrictlyIncreasing invariants.now }
    ensures told { IfOk result (λ r. (returns : ℕ → Bool) × TellsReturns (program_of program.now) returns) }
    ensures answer { (returns : ℕ → Bool) → TellsReturns (program_of program.now) returns →
        IfOk result (λ r. plain_answer r.status r.text.items
        ≡ call_replay_answer (whole_of (program_of program.now) invariants.now) returns M.form text.now) }
{
    let graph = descend::<M>(alloc, program)?;
    let returns = return_addresses(alloc, &graph)?;
    let replay = replay_frame::<M>(alloc, program, invariants, &returns, text)?;
    Ok(replay)
}
