//! The public call.
ghost use Rattle.std.specs.Prelude.{◌≡◌, ◌≢◌, ◌≤◌, ℕ, List, Some, IfOk, map, string_bytes};
ghost use Rattle.answer_laws.specs.Completeness.{AreTold, IsSpentEvidence};
ghost use Rattle.answer_laws.specs.Told.{AreToldTo, IsAnswered};
ghost use Rattle.answer_laws.specs.Upgrading.{KeepsVerdict};
ghost use Rattle.call_spec.specs.Calls as answers;
ghost use Rattle.call_spec.specs.Calls.{Options};
ghost use Rattle.command_spec.specs.Commands as outcomes;
ghost use Rattle.answer_spec.specs.Outcomes.{IsDueAnswer, IsOutcome, IsRightAnswer};
ghost use Rattle.command_spec.specs.Commands.{IsLawfulCommand, Upgrade, Verify};
ghost use Rattle.call_spec.specs.Outside.{Appends, Rose};
ghost use Rattle.bilv_top.specs.Answers.{answer_of, evidence_of};
ghost use Rattle.bilv_top.specs.Ends.{AreAnswered};
ghost use Rattle.command_line.specs.Commands.{command_of};
ghost use Rattle.command_line.specs.Lines.{lawful_command};
ghost use Rattle.io_edges.specs.Met.{met, seen};
ghost use Rattle.io_edges.specs.Begun.{AreBegun};
ghost use Rattle.bilv_top.specs.Reads.{files_of, files_of_line};

use crate::answer::{Answer, Evidence};
use crate::certificate::check_certificate;
use crate::comparing::{PairTask, compare_named};
use crate::frame_tasks::{FrameTask, answer_framed};
use crate::lift::lift;
use crate::reading::answer;
use crate::selfrun::selfrun;
use crate::tasks::{Task, answer_about};
use crate::upgrade::upgrade;
use command_line::{Command, LineError, read_command};
use exit_status::{NO_MEMORY, USAGE, WRITE_FAULT};
use io_edges::{Shelf, Sink, write_all};
use std::alloc::{AllocError, Global};

/// The answer of the program: its exit status, which is one of those of `exit_status`, and what shows that it is right.
#[derive(Drop)]
pub struct Outcome {
    pub status: u8,
    pub evidence: Evidence,
}

/// The answer that is due to a command.
fn obey<H: Shelf>(alloc: Global, command: Command, shelf: &mut H) -> Result<Answer, AllocError>
    requires { IsLawfulCommand (command_of command) }
    ensures keeps { (n : List ℕ) → H.holds shelf.new n ≡ H.holds shelf.old n }
    ensures never_falls { (n : List ℕ) → H.faults shelf.old n ≤ H.faults shelf.new n }
    ensures begun { AreBegun (H.begun shelf.old) (H.begun shelf.new) (files_of (command_of command.entry)) }
    ensures right { IfOk result (λ a. IsRightAnswer (seen (H.holds shelf.old) (H.faults shelf.old) (H.faults shelf.new))
        (command_of command.entry) (answer_of a)) }
{
    match command {
        Command::Verify {
            elf,
            notes,
            options,
            budget,
        } => answer_framed(alloc, shelf, elf, notes, options, FrameTask::Report(budget)),
        Command::Lift { elf, options } => lift(alloc, shelf, elf, options),
        Command::Graph {
            elf,
            notes,
            options,
        } => answer_framed(alloc, shelf, elf, notes, options, FrameTask::Graph),
        Command::Script {
            elf,
            notes,
            options,
            question,
            frame,
            budget,
        } => answer_framed(
            alloc,
            shelf,
            elf,
            notes,
            options,
            FrameTask::Script(question, budget, frame),
        ),
        Command::Replay {
            elf,
            notes,
            options,
            state,
        } => answer_framed(alloc, shelf, elf, notes, options, FrameTask::Replay(state)),
        Command::Certify {
            elf,
            notes,
            options,
            question,
            frame,
            budget,
        } => answer_framed(
            alloc,
            shelf,
            elf,
            notes,
            options,
            FrameTask::Certificate(question, budget, frame),
        ),
        Command::Model {
            elf,
            notes,
            answer,
            options,
            question,
            budget,
        } => answer_about(
            alloc,
            shelf,
            elf,
            notes,
            options,
            Task {
                question,
                budget,
                values: answer,
            },
        ),
        Command::Equal {
            names,
            options,
            budget,
        } => compare_named(alloc, shelf, names, options, PairTask::Equal(budget)),
        Command::Differ {
            names,
            options,
            report,
        } => compare_named(alloc, shelf, names, options, PairTask::Differ(report)),
        Command::Check { certificate } => check_certificate(alloc, shelf, certificate),
        Command::SelfRun { seed, count } => selfrun(alloc, shelf, seed, count),
        Command::Upgrade {
            elf,
            notes,
            options,
        } => upgrade(alloc, shelf, elf, notes, options),
    }
}

/// The answer that is due to words.
#[tactic(auto, using(io_edges::proofs::Beginning::begun_none))]
fn due<H: Shelf>(alloc: Global, words: &[String], shelf: &mut H) -> Result<Answer, AllocError>
    ensures keeps { (n : List ℕ) → H.holds shelf.new n ≡ H.holds shelf.old n }
    ensures never_falls { (n : List ℕ) → H.faults shelf.old n ≤ H.faults shelf.new n }
    ensures begun { AreBegun (H.begun shelf.old) (H.begun shelf.new) (files_of_line (lawful_command (map (λ w. string_bytes w) words.now))) }
    ensures due { IfOk result (λ a. IsDueAnswer (seen (H.holds shelf.old) (H.faults shelf.old) (H.faults shelf.new))
        (lawful_command (map (λ w. string_bytes w) words.now)) (answer_of a)) }
{
    match read_command(alloc, words) {
        Ok(command) => obey(alloc, command, shelf),
        Err(LineError::Usage) => answer(
            alloc,
            USAGE,
            b"usage: bilv verify|lift|graph|smt|replay|cert|check|selfrun|upgrade|equal|differ|model\n",
        ),
        Err(LineError::Memory) => Err(AllocError),
    }
}

/// Answers a command line: reads the files that it names, and writes one text.
pub fn bilv<H: Shelf, K: Sink>(
    alloc: Global,
    words: &[String],
    shelf: &mut H,
    out: &mut K,
) -> Outcome
    // The shelf holds what it held, and no count of faults falls.
    ensures keeps { (n : List ℕ) → H.holds shelf.new n ≡ H.holds shelf.old n }
    ensures never_falls { (n : List ℕ) → H.faults shelf.old n ≤ H.faults shelf.new n }
    // From each place of a file that the words name reads begin no more often than they name it, and no other file is read.
    ensures begun { AreBegun (H.begun shelf.old) (H.begun shelf.new) (files_of_line (lawful_command (map (λ w. string_bytes w) words.now))) }
    ensures sink_never_falls { K.faults out.old ≤ K.faults out.new }
    // A due answer was written whole; or a write failed (7) behind a proper front of its text; or memory ran out (8), and nothing was written.
    ensures outcome { IsOutcome (met (seen (H.holds shelf.old) (H.faults shelf.old) (H.faults shelf.new)) (K.written out.old) (K.written out.new)
        (K.faults out.old) (K.faults out.new)) (lawful_command (map (λ w. string_bytes w) words.now)) result.status (evidence_of result.evidence) }
    // Where no write failed, memory sufficed and no question spent its conflicts, a verification of files that are told comes to the answer that is theirs.
    ensures complete { (o : Options) (elf notes file text : List ℕ) (b : answers.Budget) →
        lawful_command (map (λ w. string_bytes w) words.now) ≡ Some (Verify o elf notes b) →
        AreTold (seen (H.holds shelf.old) (H.faults shelf.old) (H.faults shelf.new)) elf notes file text →
        (result.status ≡ 7 → ¬ Rose (K.faults out.old) (K.faults out.new)) → result.status ≢ 8 → (¬ IsSpentEvidence (evidence_of result.evidence)) →
        AreAnswered o file text b (K.written out.old) (K.written out.new) result.status (evidence_of result.evidence) }
    // Any other command comes to such an answer too.
    ensures complete_all { (content : List ℕ → List ℕ) (c : outcomes.Command) → lawful_command (map (λ w. string_bytes w) words.now) ≡ Some c →
        AreToldTo (seen (H.holds shelf.old) (H.faults shelf.old) (H.faults shelf.new)) content c →
        (result.status ≡ 7 → ¬ Rose (K.faults out.old) (K.faults out.new)) → result.status ≢ 8 →
        IsAnswered content c (K.written out.old) (K.written out.new) result.status (evidence_of result.evidence) }
    // Notes that are printed again keep the verdict.
    ensures upgraded { (o : Options) (elf notes file text : List ℕ) → lawful_command (map (λ w. string_bytes w) words.now) ≡ Some (Upgrade o elf notes) →
        AreTold (seen (H.holds shelf.old) (H.faults shelf.old) (H.faults shelf.new)) elf notes file text → result.status ≡ 0 →
        (q : List ℕ) × Appends (K.written out.old) q (K.written out.new) × KeepsVerdict o file text q }
{
    let Ok(answer) = due(alloc, words, shelf) else {
        return Outcome {
            status: NO_MEMORY,
            evidence: Evidence::None,
        };
    };
    match write_all(out, &answer.text) {
        Ok(()) => Outcome {
            status: answer.status,
            evidence: answer.evidence,
        },
        Err(_) => Outcome {
            status: WRITE_FAULT,
            evidence: Evidence::None,
        },
    }
}
