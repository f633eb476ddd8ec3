//! The answer that replays a report.
ghost use Rattle.std.specs.Prelude.{◌≡◌, ◌≤◌, ℕ, List, [], ◌∷◌, IfOk};
ghost use Rattle.std.specs.List.Sorted.{IsStrictlyIncreasing};
ghost use Rattle.answer_spec.specs.FrameAnswers.{IsReplayedWhole};
ghost use Rattle.call_spec.specs.Calls.{AfterRead, plain_answer};
ghost use Rattle.program_value.specs.Programs.{program_of};
ghost use Rattle.bilv_top.specs.Answers.{answer_of};
ghost use Rattle.io_edges.specs.Met.{seen};
ghost use Rattle.bilv_top.specs.Frames.{AreContractsOn, AreFitted, whole_with};
ghost use Rattle.io_edges.specs.Begun.{AreBegun};

use crate::answer::{Answer, Evidence, Step};
use crate::framed::Framed;
use crate::reading::read_or_answer;
use call_replay::replay_called;
use exit_status::TEXT_REFUSED;
use frame_replay::replay_report;
use io_edges::Shelf;
use machine_law::Machine;
use program_value::Program;
use report_replay::{REPORT_LIMIT, Replay};
use std::alloc::{AllocError, Global};

/// The answer of a replay.
fn answered(replayed: Replay) -> Answer
    ensures { answer_of result ≡ plain_answer replayed.status replayed.text.items }
{
    Answer {
        status: replayed.status,
        text: replayed.text,
        evidence: Evidence::None,
    }
}

/// Replays the text of a report over frames of a function of a machine. With invariants there are no contracts. The error is want of memory.
fn replay_segment_by<M: Machine>(
    alloc: Global,
    program: &Program<M>,
    framed: &Framed,
    text: &[u8],
) -> Result<Answer, AllocError>
    requires rising { IsStrictlyIncreasing framed.now.invariants.items }
    requires contracts { AreContractsOn M.machine framed.now.contracts.items }
    requires fitted { AreFitted (whole_with (program_of program.now) framed.now) }
    ensures { IfOk result (λ a. IsReplayedWhole M.form text.now (whole_with (program_of program.now) framed.now) (answer_of a)) }
{
    if framed.invariants.is_empty() {
        let contracts = framed.contracts.as_slice();
        let replayed = replay_called::<M>(alloc, program, contracts, text)?;
        return Ok(answered(replayed));
    }
    let invariants = framed.invariants.as_slice();
    let replayed = replay_report::<M>(alloc, program, invariants, text)?;
    Ok(answered(replayed))
}

/// The answer to the report of a name over frames of a function of a machine. The error is out of memory.
pub fn replay_frames_by<M: Machine, H: Shelf>(
    alloc: Global,
    shelf: &mut H,
    program: &Program<M>,
    framed: &Framed,
    name: &str,
) -> Result<Answer, AllocError>
    requires rising { IsStrictlyIncreasing framed.now.invariants.items }
    requires contracts { AreContractsOn M.machine framed.now.contracts.items }
    requires fitted { AreFitted (whole_with (program_of program.now) framed.now) }
    ensures keeps { (n : List ℕ) → H.holds shelf.new n ≡ H.holds shelf.old n }
    ensures never_falls { (n : List ℕ) → H.faults shelf.old n ≤ H.faults shelf.new n }
    ensures begun { AreBegun (H.begun shelf.old) (H.begun shelf.new) (name.now ∷ []) }
    ensures read { IfOk result (λ a. AfterRead (seen (H.holds shelf.old) (H.faults shelf.old) (H.faults shelf.new)) name.now
        (λ report. IsReplayedWhole M.form report (whole_with (program_of program.now) framed.now)) (answer_of a)) }
{
    let large = b"state: TooLarge\n";
    let text = match read_or_answer(alloc, shelf, name, REPORT_LIMIT as u64, TEXT_REFUSED, large)? {
        Step::Go(text) => text,
        Step::Answered(answer) => return Ok(answer),
    };
    let answer = replay_segment_by::<M>(alloc, program, framed, &text)?;
    Ok(answer)
}
