//! The notes that a template stands for.
ghost use Rattle.std.specs.Prelude.{ℕ, ◌≡◌, List, Result, IfOk, IfErr, Ok, Err};
ghost use Rattle.note_template.specs.TemplateLines.{Refused, expanded, lines_for, parts, stack_part};
ghost use Rattle.note_template.specs.Views.{machine_of, IsRefused};
ghost use Rattle.note_template.specs.Forms.{fault_of};

use crate::bytes::first_part;
use crate::fault::TemplateFault;
use crate::line_fault::LineFault;
use crate::lines::{line_for, stack_of};
use crate::machine::TemplateMachine;
use crate::printing::push_text;
use std::alloc::{AllocError, Global};
use symbol_table::SymbolTable;

/// What the first stack line in form says of the spare register; nothing where there is none.
fn stack_part(
    alloc: Global,
    machine: TemplateMachine,
    symbols: &SymbolTable,
    template: &[u8],
) -> Result<Vec<u8>, AllocError>
    ensures { IfOk result (λ v. v.items ≡ stack_part (machine_of machine) symbols.now (parts 10 template.now)) }
{
    let mut rest = Some(template);
    while let Some(left) = rest {
        let (line, others) = first_part(b'\n', left);
        if let Some(found) = stack_of(alloc, machine, symbols, line)? {
            return Ok(found);
        }
        rest = others;
    }
    Ok(Vec::new(alloc))
}

/// A fault of a line of a template.
fn refused(line: usize, fault: LineFault) -> TemplateFault
    ensures { (answer : Result (List ℕ) Refused) → answer ≡ Err (record { line = line; fault = fault_of fault }) → IsRefused answer result }
{
    let LineFault { column, refusal } = fault;
    TemplateFault::Refused {
        line,
        column,
        refusal,
    }
}

/// What stands for the lines of a template.
fn lines_for(
    alloc: Global,
    machine: TemplateMachine,
    symbols: &SymbolTable,
    stack: &[u8],
    template: &[u8],
) -> Result<Result<Vec<u8>, TemplateFault>, AllocError>
    ensures text { IfOk result (λ r. IfOk r (λ v. lines_for (machine_of machine) symbols.now stack.now 1 (parts 10 template.now) ≡ Ok v.items)) }
    ensures refused { IfOk result (λ r. IfErr r (IsRefused (lines_for (machine_of machine) symbols.now stack.now 1 (parts 10 template.now)))) }
{
    let mut out = Vec::new(alloc);
    let mut number = 1;
    let mut left = template;
    'lines: loop {
        let (line, others) = first_part(b'\n', left);
        match line_for(alloc, machine, symbols, stack, line)? {
            Err(fault) => return Ok(Err(refused(number, fault))),
            Ok(text) => push_text(&mut out, &text)?,
        }
        let Some(next) = others else {
            return Ok(Ok(out));
        };
        out.push(b'\n')?;
        number += 1;
        left = next;
    }
}

/// The notes that a template stands for, of which line n stands for line n of the template. What stands between `@` and the end of its form becomes a number of
/// the table, and a line `abi`, `stack`, `global` or `only` becomes a line of notes; all else stays as it is. Memory is taken for the notes, and for a while
/// for the tokens of a line.
///
/// # Errors
///
/// `Refused` with the first refusal, or `Memory` where memory ran out. First is the first line; in it the first form, from the front on; then the line's own
/// form, at its first word; then its length.
pub fn expand(
    alloc: Global,
    machine: TemplateMachine,
    symbols: &SymbolTable,
    template: &[u8],
) -> Result<Vec<u8>, TemplateFault>
    ensures text { IfOk result (λ v. expanded (machine_of machine) symbols.now template.now ≡ Ok v.items) }
    ensures refused { IfErr result (IsRefused (expanded (machine_of machine) symbols.now template.now)) }
{
    let Ok(stack) = stack_part(alloc, machine, symbols, template) else {
        return Err(TemplateFault::Memory);
    };
    match lines_for(alloc, machine, symbols, &stack, template) {
        Err(_) => Err(TemplateFault::Memory),
        Ok(answer) => answer,
    }
}
