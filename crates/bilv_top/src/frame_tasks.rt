//! What is asked about a function whose notes may have invariants or contracts, and its answer on the machine of the file.
ghost use Rattle.std.specs.Prelude.{◌≡◌, ◌≤◌, ℕ, List, ◌∷◌, IfOk, length};
ghost use Rattle.bilv_spec.specs.Files.{layout_of, machine_of};
ghost use Rattle.machine_spec.specs.Machine.{IsAtPlace};
ghost use Rattle.std.specs.List.Sorted.{IsStrictlyIncreasing};
ghost use Rattle.answer_spec.specs.Outcomes.{AfterWhole};
ghost use Rattle.command_line.specs.Commands.{options_of};
ghost use Rattle.io_edges.specs.Met.{seen};
ghost use Rattle.io_edges.specs.Begun.{AreBegun};
ghost use Rattle.program_value.specs.Programs.{program_of};
ghost use Rattle.bilv_top.specs.Answers.{answer_of};
ghost use Rattle.bilv_top.specs.Due.{IsOverFile};
ghost use Rattle.bilv_top.specs.Frames.{AreContractsOver, AreFitted, IsFramedDone, IsSegmented, names_of_frame_task, whole_by, AreContractsOn, whole_with};

use crate::answer::{Answer, Step};
use crate::asked::rank_asked;
use crate::certify::certify_frames_by;
use crate::framed::{Framed, read_framed};
use crate::graph::graph_frames_by;
use crate::inputs::{program_on, read_elf};
use crate::machines::layout;
use crate::on_machine;
use crate::reading::answer;
use crate::replay::replay_frames_by;
use crate::script::script_frames_by;
use crate::verify::report_frames_by;
use arm_lift::Arm;
use command_line::{Asked, Budget, Options};
use elf32_reader::Image;
use exit_status::NOTES_REFUSED;
use io_edges::Shelf;
use machine_law::Machine;
use program_value::Program;
use rv_lift::Rv32;
use start_value::{Layout, Profile};
use std::alloc::{AllocError, Global};

/// What is asked about a function whose notes may have invariants or contracts.
#[derive(Clone, Copy)]
pub enum FrameTask<'a> {
    /// The report of its verdict within budgets.
    Report(Budget),
    /// Its flow graph.
    Graph,
    /// The script of a question of the frame that a word names, or of that of the entry, within budgets.
    Script(Asked, Budget, Option<&'a str>),
    /// The certificate of such a question, within budgets.
    Certificate(Asked, Budget, Option<&'a str>),
    /// Whether the segment, or the run, from the start of the report of this name ends as the report says.
    Replay(&'a str),
}

/// The answer to a task about a function of a machine, whose frame of a rank is asked about. The error is out of memory.
#[tactic(auto, using(io_edges::proofs::Beginning::begun_none))]
fn answer_framed_by<M: Machine, H: Shelf>(
    alloc: Global,
    shelf: &mut H,
    program: &Program<M>,
    framed: &Framed,
    task: FrameTask,
    rank: usize,
) -> Result<Answer, AllocError>
    requires place { IsAtPlace M.machine.narrow program.now.entry }
    requires rising { IsStrictlyIncreasing framed.now.invariants.items }
    requires contracts { AreContractsOn M.machine framed.now.contracts.items }
    requires fitted { AreFitted (whole_with (program_of program.now) framed.now) }
    requires rank { rank ≤ length framed.now.contracts.items }
    ensures keeps { (n : List ℕ) → H.holds shelf.new n ≡ H.holds shelf.old n }
    ensures never_falls { (n : List ℕ) → H.faults shelf.old n ≤ H.faults shelf.new n }
    ensures begun { AreBegun (H.begun shelf.old) (H.begun shelf.new) (names_of_frame_task task.entry) }
    ensures done { IfOk result (λ a. IsSegmented (seen (H.holds shelf.old) (H.faults shelf.old) (H.faults shelf.new)) task.entry rank M.form
        (whole_with (program_of program.now) framed.now) (answer_of a)) }
{
    match task {
        FrameTask::Report(budget) => report_frames_by::<M>(alloc, program, framed, budget),
        FrameTask::Graph => graph_frames_by::<M>(alloc, program, framed),
        FrameTask::Script(question, budget, _) => {
            script_frames_by::<M>(alloc, program, framed, budget, question, rank)
        }
        FrameTask::Certificate(question, budget, _) => {
            certify_frames_by::<M>(alloc, program, framed, budget, question, rank)
        }
        FrameTask::Replay(name) => replay_frames_by::<M, H>(alloc, shelf, program, framed, name),
    }
}

/// The same, of the machine that a file is of by some options.
fn answer_framed_of<M: Machine, H: Shelf>(
    alloc: Global,
    shelf: &mut H,
    image: &Image,
    framed: &Framed,
    options: Options,
    task: FrameTask,
    rank: usize,
) -> Result<Answer, AllocError>
    requires machine { machine_of (options_of options) image.now ≡ M.machine }
    requires form { layout_of (options_of options) image.now ≡ M.form }
    requires found { IsOverFile image.now framed.now.found }
    requires place { IsAtPlace (machine_of (options_of options) image.now).narrow framed.now.found.entry }
    requires rising { IsStrictlyIncreasing framed.now.invariants.items }
    requires contracts { AreContractsOver image.now framed.now.contracts.items }
    requires fitted { AreFitted (whole_by (machine_of (options_of options) image.now) image.now framed.now) }
    requires rank { rank ≤ length framed.now.contracts.items }
    ensures keeps { (n : List ℕ) → H.holds shelf.new n ≡ H.holds shelf.old n }
    ensures never_falls { (n : List ℕ) → H.faults shelf.old n ≤ H.faults shelf.new n }
    ensures begun { AreBegun (H.begun shelf.old) (H.begun shelf.new) (names_of_frame_task task.entry) }
    ensures done { IfOk result (λ a. IsSegmented (seen (H.holds shelf.old) (H.faults shelf.old) (H.faults shelf.new)) task.entry rank
        (layout_of (options_of options) image.now) (whole_by (machine_of (options_of options) image.now) image.now framed.now) (answer_of a)) }
{
    let program = program_on::<M>(image, &framed.found);
    answer_framed_by::<M, H>(alloc, shelf, &program, framed, task, rank)
}

/// The same, by the file and some options.
fn answer_segmented_on<H: Shelf>(
    alloc: Global,
    shelf: &mut H,
    image: &Image,
    framed: &Framed,
    options: Options,
    task: FrameTask,
    rank: usize,
) -> Result<Answer, AllocError>
    requires found { IsOverFile image.now framed.now.found }
    requires place { IsAtPlace (machine_of (options_of options) image.now).narrow framed.now.found.entry }
    requires rising { IsStrictlyIncreasing framed.now.invariants.items }
    requires contracts { AreContractsOver image.now framed.now.contracts.items }
    requires fitted { AreFitted (whole_by (machine_of (options_of options) image.now) image.now framed.now) }
    requires rank { rank ≤ length framed.now.contracts.items }
    ensures keeps { (n : List ℕ) → H.holds shelf.new n ≡ H.holds shelf.old n }
    ensures never_falls { (n : List ℕ) → H.faults shelf.old n ≤ H.faults shelf.new n }
    ensures begun { AreBegun (H.begun shelf.old) (H.begun shelf.new) (names_of_frame_task task.entry) }
    ensures done { IfOk result (λ a. IsSegmented (seen (H.holds shelf.old) (H.faults shelf.old) (H.faults shelf.new)) task.entry rank
        (layout_of (options_of options) image.now) (whole_by (machine_of (options_of options) image.now) image.now framed.now) (answer_of a)) }
{
    on_machine!(
        image,
        options,
        answer_framed_of[H](alloc, shelf, image, framed, options, task, rank)
    )
}

/// The answer to a task about a function, or that no frame has the name that is asked about. The error is out of memory.
#[tactic(auto, using(io_edges::proofs::Beginning::begun_none))]
pub fn answer_framed_on<H: Shelf>(
    alloc: Global,
    shelf: &mut H,
    image: &Image,
    framed: &Framed,
    options: Options,
    task: FrameTask,
) -> Result<Answer, AllocError>
    requires found { IsOverFile image.now framed.now.found }
    requires place { IsAtPlace (machine_of (options_of options) image.now).narrow framed.now.found.entry }
    requires rising { IsStrictlyIncreasing framed.now.invariants.items }
    requires contracts { AreContractsOver image.now framed.now.contracts.items }
    requires fitted { AreFitted (whole_by (machine_of (options_of options) image.now) image.now framed.now) }
    ensures keeps { (n : List ℕ) → H.holds shelf.new n ≡ H.holds shelf.old n }
    ensures never_falls { (n : List ℕ) → H.faults shelf.old n ≤ H.faults shelf.new n }
    ensures begun { AreBegun (H.begun shelf.old) (H.begun shelf.new) (names_of_frame_task task.entry) }
    ensures done { IfOk result (λ a. IsFramedDone (seen (H.holds shelf.old) (H.faults shelf.old) (H.faults shelf.new)) task.entry
        (layout_of (options_of options) image.now) (whole_by (machine_of (options_of options) image.now) image.now framed.now) (answer_of a)) }
{
    match rank_asked(alloc, &framed.contracts, task)? {
        None => answer(alloc, NOTES_REFUSED, b"notes: NoFrame\n"),
        Some(rank) => answer_segmented_on(alloc, shelf, image, framed, options, task, rank),
    }
}

/// The answer to a task about the function that the ELF file and the notes of two names are, or to what refuses them. The error is out of memory, which a price
/// of 2^128 - 1 or more counts as too, and want of numbers for terms.
pub fn answer_framed<H: Shelf>(
    alloc: Global,
    shelf: &mut H,
    elf: &str,
    notes: &str,
    options: Options,
    task: FrameTask,
) -> Result<Answer, AllocError>
    ensures keeps { (n : List ℕ) → H.holds shelf.new n ≡ H.holds shelf.old n }
    ensures never_falls { (n : List ℕ) → H.faults shelf.old n ≤ H.faults shelf.new n }
    ensures begun { AreBegun (H.begun shelf.old) (H.begun shelf.new) (elf.now ∷ notes.now ∷ names_of_frame_task task.entry) }
    ensures answered { IfOk result (λ a. AfterWhole (seen (H.holds shelf.old) (H.faults shelf.old) (H.faults shelf.new)) (options_of options) elf.now notes.now
        (λ file. IsFramedDone (seen (H.holds shelf.old) (H.faults shelf.old) (H.faults shelf.new)) task.entry (layout_of (options_of options) file))
        (answer_of a)) }
{
    let file = match read_elf(alloc, shelf, elf)? {
        Step::Go(file) => file,
        Step::Answered(answer) => return Ok(answer),
    };
    match read_framed(alloc, shelf, &file, notes, options)? {
        Step::Go((image, framed)) => {
            answer_framed_on(alloc, shelf, &image, &framed, options, task)
        }
        Step::Answered(answer) => Ok(answer),
    }
}
