//! The lines of steps.
ghost use Rattle.std.specs.Prelude.{◌≡◌, ◌++◌, ◌≤◌, OnOk, map};
ghost use Rattle.bilv_spec.specs.Files.{order_of};
ghost use Rattle.trace_texts_spec.specs.Names.{names_of};
ghost use Rattle.trace_texts_spec.specs.StepLines.{AreLastLines, AreStepLines, IsKindText, IsStepLine, behind_text, head_text, left_out, near_text};
ghost use Rattle.seen_step.specs.Views.{kind_of, seen_of};
ghost use Rattle.trace_text.specs.Appending.{IsAppended, near_in};

use crate::changes::push_changes;
use crate::rows::push_row;
use elf32_reader::Image;
use machine_law::Machine;
use seen_step::{SeenStep, StepKind};
use state_text::{push_number, push_text, push_word};
use std::alloc::{AllocError, Global};
use symbol_table::SymbolTable;

/// Appends how far an address is behind a symbol.
fn push_behind(alloc: Global, out: &mut Vec<u8>, distance: u32) -> Result<(), AllocError>
    ensures { OnOk result (out.new.items ≡ out.old.items ++ behind_text distance) }
{
    if distance == 0 {
        return Ok(());
    }
    let text = format!(in alloc; "+0x{distance:x}")?;
    push_text(out, text.as_bytes())?;
    Ok(())
}

/// Appends the symbol by which an address is told, if there is one.
fn push_near(
    alloc: Global,
    out: &mut Vec<u8>,
    symbols: &SymbolTable,
    at: u32,
) -> Result<(), AllocError>
    ensures { OnOk result (out.new.items ≡ out.old.items ++ near_text (near_in symbols.now at) at) }
{
    match symbols.label_at(at) {
        None => Ok(()),
        Some(label) => {
            push_text(out, b" ")?;
            push_text(out, label.name)?;
            push_behind(alloc, out, at.saturating_sub(label.value))?;
            Ok(())
        }
    }
}

/// Appends the number of a step and its address.
fn push_head(
    alloc: Global,
    out: &mut Vec<u8>,
    symbols: &SymbolTable,
    step: &SeenStep,
) -> Result<(), AllocError>
    ensures { OnOk result (out.new.items ≡ out.old.items ++ head_text (near_in symbols.now step.now.at) (seen_of step.now)) }
{
    push_number(alloc, out, step.number)?;
    push_text(out, b" ")?;
    push_word(out, step.at)?;
    push_near(alloc, out, symbols, step.at)?;
    Ok(())
}

/// Appends what a step is: its row, or a word.
fn push_kind<M: Machine>(
    alloc: Global,
    out: &mut Vec<u8>,
    image: &Image,
    step: &SeenStep,
) -> Result<(), AllocError>
    requires order { order_of image.now ≡ M.machine.endian }
    ensures { OnOk result (IsAppended (IsKindText M.machine M.bank image.now step.now.at (kind_of step.now.kind)) out.old.items out.new.items) }
{
    match step.kind {
        StepKind::Row => {
            push_row::<M>(alloc, out, image, step.at)?;
            Ok(())
        }
        StepKind::Contract => {
            push_text(out, b"  contract")?;
            Ok(())
        }
        StepKind::Arrival => {
            push_text(out, b"  head")?;
            Ok(())
        }
    }
}

/// Appends the line of a step.
fn push_step<M: Machine>(
    alloc: Global,
    out: &mut Vec<u8>,
    image: &Image,
    symbols: &SymbolTable,
    step: &SeenStep,
) -> Result<(), AllocError>
    requires order { order_of image.now ≡ M.machine.endian }
    ensures { OnOk result (IsAppended (IsStepLine M.machine M.bank (names_of M.form) image.now (near_in symbols.now) (seen_of step.now))
        out.old.items out.new.items) }
{
    push_head(alloc, out, symbols, step)?;
    push_kind::<M>(alloc, out, image, step)?;
    push_changes(alloc, out, M::layout(), step)?;
    push_text(out, b"\n")?;
    Ok(())
}

/// Appends the lines of steps, in their order. A line has the number of the step, its address and the nearest symbol below it, the bytes of the row and what it
/// does, the registers, flags and bytes that it changed with their old and new values, and a call or a return with the number of calls that have not returned.
/// The image is that of the file in which the steps were made, the table that of its symbols. Time is that of the steps with a look at each symbol for each.
/// What an `Err` leaves is open.
pub fn push_steps<M: Machine>(
    alloc: Global,
    out: &mut Vec<u8>,
    image: &Image,
    symbols: &SymbolTable,
    steps: &[SeenStep],
) -> Result<(), AllocError>
    requires order { order_of image.now ≡ M.machine.endian }
    ensures { OnOk result (IsAppended (AreStepLines M.machine M.bank (names_of M.form) image.now (near_in symbols.now) (map seen_of steps.now))
        out.old.items out.new.items) }
{
    for step in steps {
        push_step::<M>(alloc, out, image, symbols, step)?;
    }
    Ok(())
}

/// Appends the line that stands for steps that are left out, where there are any.
fn push_left_out(alloc: Global, out: &mut Vec<u8>, count: usize) -> Result<(), AllocError>
    ensures { OnOk result (out.new.items ≡ out.old.items ++ left_out count) }
{
    if count == 0 {
        return Ok(());
    }
    push_text(out, b".. ")?;
    push_number(alloc, out, count as u64)?;
    push_text(out, b" steps left out\n")?;
    Ok(())
}

/// Appends the lines of the last steps, at most so many, as [`push_steps`] does, behind a line with the number of those that are left out, where there are any.
/// What an `Err` leaves is open.
pub fn push_last_steps<M: Machine>(
    alloc: Global,
    out: &mut Vec<u8>,
    image: &Image,
    symbols: &SymbolTable,
    steps: &[SeenStep],
    last: usize,
) -> Result<(), AllocError>
    requires order { order_of image.now ≡ M.machine.endian }
    ensures { OnOk result (IsAppended (AreLastLines M.machine M.bank (names_of M.form) image.now (near_in symbols.now) last (map seen_of steps.now))
        out.old.items out.new.items) }
{
    let skipped = steps.len().saturating_sub(last);
    push_left_out(alloc, out, skipped)?;
    push_steps::<M>(alloc, out, image, symbols, &steps[skipped..])?;
    Ok(())
}
