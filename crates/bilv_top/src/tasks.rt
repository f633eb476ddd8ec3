//! What is asked about the program that an ELF file and notes are, and its answer on the machine of the file.
ghost use Rattle.std.specs.Prelude.{◌≡◌, ◌≤◌, ℕ, List, ◌∷◌, IfOk};
ghost use Rattle.bilv_spec.specs.Files.{layout_of, machine_of, program_of as files_program};
ghost use Rattle.answer_spec.specs.Outcomes.{AfterBoth};
ghost use Rattle.command_line.specs.Commands.{options_of};
ghost use Rattle.notes_value.specs.NoteViews.{notes_of};
ghost use Rattle.io_edges.specs.Met.{seen};
ghost use Rattle.program_value.specs.Programs.{program_of};
ghost use Rattle.bilv_top.specs.Answers.{answer_of};
ghost use Rattle.bilv_top.specs.Due.{IsOverFile};
ghost use Rattle.bilv_top.specs.Tasks.{IsDone};
ghost use Rattle.io_edges.specs.Begun.{AreBegun};
ghost use Rattle.bilv_top.specs.Reads.{names_of_task};

use crate::answer::{Answer, Step};
use crate::inputs::{Found, program_on, read_elf, read_program};
use crate::machines::layout;
use crate::model::model_by;
use crate::on_machine;
use arm_lift::Arm;
use command_line::{Asked, Budget, Options};
use elf32_reader::Image;
use io_edges::Shelf;
use machine_law::Machine;
use program_value::Program;
use rv_lift::Rv32;
use start_value::{Layout, Profile};
use std::alloc::{AllocError, Global};

/// What is asked about a program: whether a question is true of the values of a name, within budgets.
#[derive(Clone, Copy)]
pub struct Task<'a> {
    pub question: Asked,
    pub budget: Budget,
    /// The name of the file with the values.
    pub values: &'a str,
}

/// The answer to a task about a program of a machine. The error is out of memory.
#[tactic(auto, using(io_edges::proofs::Beginning::begun_none))]
fn answer_by<M: Machine, H: Shelf>(
    alloc: Global,
    shelf: &mut H,
    program: &Program<M>,
    task: Task,
) -> Result<Answer, AllocError>
    ensures keeps { (n : List ℕ) → H.holds shelf.new n ≡ H.holds shelf.old n }
    ensures never_falls { (n : List ℕ) → H.faults shelf.old n ≤ H.faults shelf.new n }
    ensures begun { AreBegun (H.begun shelf.old) (H.begun shelf.new) (names_of_task task.entry) }
    ensures done { IfOk result (λ a. IsDone (seen (H.holds shelf.old) (H.faults shelf.old) (H.faults shelf.new)) task.entry M.form
        (program_of program.now) (answer_of a)) }
{
    model_by::<M, H>(
        alloc,
        shelf,
        program,
        task.budget,
        task.question,
        task.values,
    )
}

/// The same, of the machine that a file is of by some options.
fn answer_of_machine<M: Machine, H: Shelf>(
    alloc: Global,
    shelf: &mut H,
    image: &Image,
    found: &Found,
    options: Options,
    task: Task,
) -> Result<Answer, AllocError>
    requires machine { machine_of (options_of options) image.now ≡ M.machine }
    requires form { layout_of (options_of options) image.now ≡ M.form }
    requires found { IsOverFile image.now found.now }
    ensures keeps { (n : List ℕ) → H.holds shelf.new n ≡ H.holds shelf.old n }
    ensures never_falls { (n : List ℕ) → H.faults shelf.old n ≤ H.faults shelf.new n }
    ensures begun { AreBegun (H.begun shelf.old) (H.begun shelf.new) (names_of_task task.entry) }
    ensures done { IfOk result (λ a. IsDone (seen (H.holds shelf.old) (H.faults shelf.old) (H.faults shelf.new)) task.entry
        (layout_of (options_of options) image.now)
        (files_program (machine_of (options_of options) image.now) image.now (notes_of found.now.notes) found.now.entry) (answer_of a)) }
{
    let program = program_on::<M>(image, found);
    answer_by::<M, H>(alloc, shelf, &program, task)
}

/// The answer to a task about a program. The error is out of memory.
fn answer_on<H: Shelf>(
    alloc: Global,
    shelf: &mut H,
    image: &Image,
    found: &Found,
    options: Options,
    task: Task,
) -> Result<Answer, AllocError>
    requires found { IsOverFile image.now found.now }
    ensures keeps { (n : List ℕ) → H.holds shelf.new n ≡ H.holds shelf.old n }
    ensures never_falls { (n : List ℕ) → H.faults shelf.old n ≤ H.faults shelf.new n }
    ensures begun { AreBegun (H.begun shelf.old) (H.begun shelf.new) (names_of_task task.entry) }
    ensures done { IfOk result (λ a. IsDone (seen (H.holds shelf.old) (H.faults shelf.old) (H.faults shelf.new)) task.entry
        (layout_of (options_of options) image.now)
        (files_program (machine_of (options_of options) image.now) image.now (notes_of found.now.notes) found.now.entry) (answer_of a)) }
{
    on_machine!(
        image,
        options,
        answer_of_machine[H](alloc, shelf, image, found, options, task)
    )
}

/// The answer to a task about the program that the ELF file and the notes of two names are, or to what refuses them. The error is out of memory, which a price
/// of 2^128 - 1 or more counts as too, and want of numbers for terms.
pub fn answer_about<H: Shelf>(
    alloc: Global,
    shelf: &mut H,
    elf: &str,
    notes: &str,
    options: Options,
    task: Task,
) -> Result<Answer, AllocError>
    ensures keeps { (n : List ℕ) → H.holds shelf.new n ≡ H.holds shelf.old n }
    ensures never_falls { (n : List ℕ) → H.faults shelf.old n ≤ H.faults shelf.new n }
    ensures begun { AreBegun (H.begun shelf.old) (H.begun shelf.new) (elf.now ∷ notes.now ∷ names_of_task task.entry) }
    ensures answered { IfOk result (λ a. AfterBoth (seen (H.holds shelf.old) (H.faults shelf.old) (H.faults shelf.new)) (options_of options) elf.now notes.now
        (λ file. IsDone (seen (H.holds shelf.old) (H.faults shelf.old) (H.faults shelf.new)) task.entry (layout_of (options_of options) file))
        (answer_of a)) }
{
    let file = match read_elf(alloc, shelf, elf)? {
        Step::Go(file) => file,
        Step::Answered(answer) => return Ok(answer),
    };
    match read_program(alloc, shelf, &file, notes, options)? {
        Step::Go((image, found)) => answer_on(alloc, shelf, &image, &found, options, task),
        Step::Answered(answer) => Ok(answer),
    }
}
