//! What stands for a line of a template.
ghost use Rattle.std.specs.Prelude.{◌≡◌, false, Ok, IfOk};
ghost use Rattle.std.specs.Option.{option_map};
ghost use Rattle.note_template.specs.Templates.{spelled};
ghost use Rattle.note_template.specs.TemplateLines.{chosen, ended, head, line_for, phrases, rewritten, stack_spelled};
ghost use Rattle.note_template.specs.Views.{machine_of};
ghost use Rattle.note_template.specs.Forms.{answer_of, phrases_view, told_of};

use crate::bytes::{blanks, count_before, first_part, split_line};
use crate::fault::Refusal;
use crate::line_fault::LineFault;
use crate::machine::TemplateMachine;
use crate::own_lines::{Answer, rewritten, stack_said};
use crate::printing::push_text;
use crate::spelling::spell;
use line_tokens::{Token, tokens};
use std::alloc::{AllocError, Global};
use symbol_table::SymbolTable;

/// The most bytes of a line of notes.
const LONGEST: usize = 1024;

/// The text of a line, or why there is none and where.
pub(crate) type Told = Result<Vec<u8>, LineFault>;

/// The tokens of the phrases of a line, which commas part.
fn phrases<'a>(alloc: Global, text: &'a [u8]) -> Result<Vec<Vec<Token<'a>>>, AllocError>
    ensures { IfOk result (λ v. phrases_view v.items ≡ phrases text.now) }
{
    let mut out = Vec::new(alloc);
    let mut rest = Some(text);
    while let Some(left) = rest {
        let (part, others) = first_part(b',', left);
        out.push(tokens(alloc, part)?)?;
        rest = others;
    }
    Ok(out)
}

/// What stands for a line up to its comment; none where it is not a template's own.
fn own_answer(
    alloc: Global,
    machine: TemplateMachine,
    symbols: &SymbolTable,
    stack: &[u8],
    text: &[u8],
) -> Result<Option<Answer>, AllocError>
    ensures { IfOk result (λ o. option_map answer_of o ≡ rewritten (machine_of machine) symbols.now stack.now (phrases text.now)) }
{
    let parts = phrases(alloc, text)?;
    let answer = rewritten(alloc, machine, symbols, stack, &parts)?;
    Ok(answer)
}

/// What stands for a line up to its comment, whose first word is at a column and whose forms are spelled.
fn chosen(
    alloc: Global,
    machine: TemplateMachine,
    symbols: &SymbolTable,
    stack: &[u8],
    column: usize,
    text: Vec<u8>,
) -> Result<Told, AllocError>
    ensures { IfOk result (λ r. told_of r ≡ chosen column text.items (rewritten (machine_of machine) symbols.now stack.now (phrases text.items))) }
{
    match own_answer(alloc, machine, symbols, stack, &text)? {
        None => Ok(Ok(text)),
        Some(Ok(own)) => Ok(Ok(own)),
        Some(Err(refusal)) => Ok(Err(LineFault { column, refusal })),
    }
}

/// A text with the end of its line, if the line is not too long.
fn ended(mut text: Vec<u8>, tail: &[u8]) -> Result<Told, AllocError>
    ensures { IfOk result (λ r. told_of r ≡ ended tail.now (Ok text.items)) }
{
    if text.len() + count_before(b'\r', tail) > LONGEST {
        return Ok(Err(LineFault {
            column: 1,
            refusal: Refusal::LongLine,
        }));
    }
    push_text(&mut text, tail)?;
    Ok(Ok(text))
}

/// What stands for a line.
pub(crate) fn line_for(
    alloc: Global,
    machine: TemplateMachine,
    symbols: &SymbolTable,
    stack: &[u8],
    line: &[u8],
) -> Result<Told, AllocError>
    ensures { IfOk result (λ r. told_of r ≡ line_for (machine_of machine) symbols.now stack.now line.now) }
{
    let (head, tail) = split_line(line);
    let spelled = match spell(alloc, symbols, head)? {
        Err(fault) => return Ok(Err(fault)),
        Ok(text) => text,
    };
    let column = blanks(line) + 1;
    let text = match chosen(alloc, machine, symbols, stack, column, spelled)? {
        Err(fault) => return Ok(Err(fault)),
        Ok(text) => text,
    };
    let told = ended(text, tail)?;
    Ok(told)
}

/// What a line says of the spare register, where it is a stack line in form.
pub(crate) fn stack_of(
    alloc: Global,
    machine: TemplateMachine,
    symbols: &SymbolTable,
    line: &[u8],
) -> Result<Option<Vec<u8>>, AllocError>
    ensures { IfOk result (λ o. option_map (λ v. v.items) o ≡ stack_spelled (machine_of machine) (spelled symbols.now false 0 1 (head line.now))) }
{
    let (head, _) = split_line(line);
    let Ok(text) = spell(alloc, symbols, head)? else {
        return Ok(None);
    };
    let found = tokens(alloc, &text)?;
    let said = stack_said(alloc, machine, &found)?;
    Ok(said)
}
