//! Templates over the symbols of a file.
ghost use Rattle.std.specs.Prelude.{◌≡◌, ℕ, List, IfOk};
ghost use Rattle.elf32_reader.specs.Refusals.{IsRefused};
ghost use Rattle.note_template.specs.Views as views;
ghost use Rattle.suite_notes.specs.Expansions.{machine_in};
ghost use Rattle.suite_notes.specs.Views.{IsExpanded, IsExpansion};

use crate::telling::refused_text;
use elf32_reader::{ElfFault, Image, read_image};
use note_template::{TemplateFault, TemplateMachine, expand};
use std::alloc::{AllocError, Global};
use symbol_table::read_symbols;

/// What a template is over an ELF file.
#[derive(Drop)]
pub enum Expansion {
    /// The notes that it stands for.
    Notes(Vec<u8>),
    /// A line that says why it is refused.
    Refused(Vec<u8>),
}

/// The machine of a file, whose words its templates have.
fn machine_of(image: &Image) -> TemplateMachine
    ensures { views.machine_of result ≡ machine_in image.now }
{
    if image.is_risc_v() {
        TemplateMachine::RiscV
    } else {
        TemplateMachine::Arm
    }
}

/// The notes of a template over a file that is accepted, or why it is refused. The error is out of memory.
fn expanded(
    alloc: Global,
    machine: TemplateMachine,
    file: &[u8],
    template: &[u8],
) -> Result<Expansion, AllocError>
    ensures { IfOk result (IsExpanded (views.machine_of machine) file.now template.now) }
{
    let Ok(symbols) = read_symbols(alloc, file) else {
        return Err(AllocError);
    };
    match expand(alloc, machine, &symbols, template) {
        Ok(notes) => Ok(Expansion::Notes(notes)),
        Err(
            TemplateFault::Refused {
                line,
                column,
                refusal,
            },
        ) => {
            let text = refused_text(alloc, line, column, &refusal)?;
            Ok(Expansion::Refused(text))
        }
        Err(TemplateFault::Memory) => Err(AllocError),
    }
}

/// What a template is over a file that is refused: itself, since the file is answered before its notes are read. The error is out of memory.
fn unexpanded(fault: ElfFault, template: Vec<u8>) -> Result<Expansion, AllocError>
    ensures { (file : List ℕ) → IsRefused file fault → IfOk result (IsExpansion file template.items) }
{
    match fault {
        ElfFault::Memory => Err(AllocError),
        _ => Ok(Expansion::Notes(template)),
    }
}

/// The notes of a template over an ELF file, or why it is refused; the template itself where the file is refused. The error is out of memory.
pub fn notes_of(alloc: Global, file: &[u8], template: Vec<u8>) -> Result<Expansion, AllocError>
    ensures { IfOk result (IsExpansion file.now template.items) }
{
    match read_image(alloc, file) {
        Ok(image) => {
            let expansion = expanded(alloc, machine_of(&image), file, &template)?;
            Ok(expansion)
        }
        Err(fault) => unexpanded(fault, template),
    }
}
