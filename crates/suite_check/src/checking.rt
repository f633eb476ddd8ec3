//! The warnings about notes over an ELF file.
ghost use Rattle.std.specs.Prelude.{◌≡◌, ◌≤◌, IfOk, length};
ghost use Rattle.bilv_spec.specs.ElfFaults.{IsImage};
ghost use Rattle.bilv_spec.specs.Files.{machine_of};
ghost use Rattle.command_line.specs.Commands.{options_of};
ghost use Rattle.note_check.specs.Checks.{AreWarnings};
ghost use Rattle.notes_spec.specs.Verified.{notes_limit};
ghost use Rattle.bilv_top.specs.Due.{IsOverFile};
ghost use Rattle.bilv_top.specs.Frames.{whole_by};
ghost use Rattle.suite_check.specs.Warned.{IsRead};
ghost use Rattle.suite_check.specs.Views.{IsCheckedSo};

use arm_lift::Arm;
use bilv_top::{
    Framed, NOTES_LIMIT, Step, find_framed, layout, on_machine, program_on, refuse_elf,
};
use command_line::Options;
use elf32_reader::{Image, read_image};
use exit_status::{DONE, NOTES_REFUSED};
use framed_notes::parse_headed;
use machine_law::Machine;
use note_check::{Warning, warnings, wrong_option};
use notes_lang::NotesError;
use rv_lift::Rv32;
use start_value::{Layout, Profile};
use std::alloc::{AllocError, Global};

/// What is told of notes over an ELF file: warnings; and the status and the text of the refusal, or 0 and no text.
#[derive(Drop)]
pub struct Checked {
    pub status: u8,
    pub refusal: Vec<u8>,
    pub warnings: Vec<Warning>,
}

/// The warnings about a function of a machine. The error is want of memory.
fn warned_by<M: Machine>(
    alloc: Global,
    file: &[u8],
    image: &Image,
    framed: &Framed,
    options: Options,
) -> Result<Vec<Warning>, AllocError>
    requires accepted { IsImage file.now }
    requires image { image.now ≡ file.now }
    requires machine { machine_of (options_of options) image.now ≡ M.machine }
    requires found { IsOverFile image.now framed.now.found }
    ensures { IfOk result (λ v. AreWarnings (options_of options).compressed file.now
        (whole_by (machine_of (options_of options) image.now) image.now framed.now) v.items) }
{
    let program = program_on::<M>(image, &framed.found);
    let invariants = framed.invariants.as_slice();
    let contracts = framed.contracts.as_slice();
    let found = warnings::<M>(
        alloc,
        file,
        &program,
        invariants,
        contracts,
        options.compressed,
    )?;
    Ok(found)
}

/// The same, by the file and some options.
fn warned_on(
    alloc: Global,
    file: &[u8],
    image: &Image,
    framed: &Framed,
    options: Options,
) -> Result<Vec<Warning>, AllocError>
    requires accepted { IsImage file.now }
    requires image { image.now ≡ file.now }
    requires found { IsOverFile image.now framed.now.found }
    ensures { IfOk result (λ v. AreWarnings (options_of options).compressed file.now
        (whole_by (machine_of (options_of options) image.now) image.now framed.now) v.items) }
{
    on_machine!(
        image,
        options,
        warned_by[](alloc, file, image, framed, options)
    )
}

/// The warnings about notes whose function is not found, and none about notes of which a line is refused. The error is want of memory.
fn warned_unfound(
    alloc: Global,
    file: &[u8],
    image: &Image,
    notes: &[u8],
    options: Options,
) -> Result<Vec<Warning>, AllocError>
    requires accepted { IsImage file.now }
    requires image { image.now ≡ file.now }
    ensures { IfOk result (λ v. IsRead (options_of options) image.now notes.now v.items) }
{
    match parse_headed(alloc, notes, layout(image, options)) {
        Ok(read) => {
            let found = wrong_option(alloc, file, &read.notes, options.compressed)?;
            Ok(found)
        }
        Err(NotesError::Fault(_)) => Ok(Vec::new(alloc)),
        Err(NotesError::Memory) => Err(AllocError),
    }
}

/// What is told of notes over an image. The error is want of memory.
fn checked_over(
    alloc: Global,
    file: &[u8],
    image: &Image,
    notes: &[u8],
    options: Options,
) -> Result<Checked, AllocError>
    requires accepted { IsImage file.now }
    requires image { image.now ≡ file.now }
    requires short { length notes.now ≤ notes_limit }
    ensures { IfOk result (IsCheckedSo (options_of options) file.now notes.now) }
{
    let text = notes.to_vec(alloc)?;
    match find_framed(alloc, image, text, options)? {
        Step::Go(framed) => {
            let warnings = warned_on(alloc, file, image, &framed, options)?;
            Ok(Checked {
                status: DONE,
                refusal: Vec::new(alloc),
                warnings,
            })
        }
        Step::Answered(answer) => {
            let warnings = warned_unfound(alloc, file, image, notes, options)?;
            Ok(Checked {
                status: answer.status,
                refusal: answer.text,
                warnings,
            })
        }
    }
}

/// What is told of notes over an ELF file, by some options. The file and the notes are refused as `bilv` refuses them. There are no warnings where the file or a
/// line of the notes is refused; where the function is not found, those of options that do not fit the file; else all.
///
/// # Errors
///
/// Want of memory.
pub fn check(
    alloc: Global,
    file: &[u8],
    notes: &[u8],
    options: Options,
) -> Result<Checked, AllocError>
    ensures { IfOk result (IsCheckedSo (options_of options) file.now notes.now) }
{
    let image = match read_image(alloc, file) {
        Ok(image) => image,
        Err(fault) => {
            let answer = refuse_elf(alloc, fault)?;
            return Ok(Checked {
                status: answer.status,
                refusal: answer.text,
                warnings: Vec::new(alloc),
            });
        }
    };
    if notes.len() as u64 > NOTES_LIMIT {
        return Ok(Checked {
            status: NOTES_REFUSED,
            refusal: b"notes: TooLarge\n".to_vec(alloc)?,
            warnings: Vec::new(alloc),
        });
    }
    let checked = checked_over(alloc, file, &image, notes, options)?;
    Ok(checked)
}
