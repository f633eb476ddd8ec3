//! The command that lifts.
ghost use Rattle.std.specs.Prelude.{◌≡◌, ◌≤◌, ℕ, List, [], ◌∷◌, IfOk};
ghost use Rattle.bilv_spec.specs.Files.{is_rv, machine_of};
ghost use Rattle.bilv_spec.specs.LiftText.{bank_by};
ghost use Rattle.answer_spec.specs.Outcomes.{IsLifted, IsRightAnswer};
ghost use Rattle.command_spec.specs.Commands.{Lift};
ghost use Rattle.command_line.specs.Commands.{options_of};
ghost use Rattle.bilv_top.specs.Answers.{answer_of};
ghost use Rattle.io_edges.specs.Met.{seen};
ghost use Rattle.io_edges.specs.Begun.{AreBegun};

use crate::answer::{Answer, Evidence, Step};
use crate::inputs::{read_elf, refuse_elf};
use crate::machines::layout;
use crate::on_machine;
use arm_lift::Arm;
use command_line::Options;
use elf32_reader::{Image, read_image};
use exit_status::DONE;
use io_edges::Shelf;
use lift_text::lift_text;
use machine_law::Machine;
use rv_lift::Rv32;
use start_value::{Layout, Profile};
use std::alloc::{AllocError, Global};

/// The answer that prints the lifted words of an image that is of a machine by some options. The error is want of memory.
fn lift_by<M: Machine>(alloc: Global, image: &Image, options: Options) -> Result<Answer, AllocError>
    requires machine { machine_of (options_of options) image.now ≡ M.machine }
    requires bank { bank_by (is_rv image.now) ≡ M.bank }
    ensures { IfOk result (λ a. IsLifted (options_of options) image.now (answer_of a)) }
{
    let text = lift_text::<M>(alloc, image)?;
    Ok(Answer {
        status: DONE,
        text,
        evidence: Evidence::None,
    })
}

/// The answer that prints the lifted words of an image. The error is want of memory.
fn lift_image(alloc: Global, image: &Image, options: Options) -> Result<Answer, AllocError>
    ensures { IfOk result (λ a. IsLifted (options_of options) image.now (answer_of a)) }
{
    on_machine!(image, options, lift_by[](alloc, image, options))
}

/// Lifts the words of the ELF file of a name. The error is want of memory.
pub fn lift<H: Shelf>(
    alloc: Global,
    shelf: &mut H,
    elf: &str,
    options: Options,
) -> Result<Answer, AllocError>
    ensures keeps { (n : List ℕ) → H.holds shelf.new n ≡ H.holds shelf.old n }
    ensures never_falls { (n : List ℕ) → H.faults shelf.old n ≤ H.faults shelf.new n }
    ensures begun { AreBegun (H.begun shelf.old) (H.begun shelf.new) (elf.now ∷ []) }
    ensures right { IfOk result (λ a. IsRightAnswer (seen (H.holds shelf.old) (H.faults shelf.old) (H.faults shelf.new))
        (Lift (options_of options) elf.now) (answer_of a)) }
{
    let file = match read_elf(alloc, shelf, elf)? {
        Step::Go(file) => file,
        Step::Answered(answer) => return Ok(answer),
    };
    match read_image(alloc, &file) {
        Ok(image) => lift_image(alloc, &image, options),
        Err(fault) => refuse_elf(alloc, fault),
    }
}
