//! The notes that stand for the lines of a template's own.
ghost use Rattle.std.specs.Prelude.{◌≡◌, ◌++◌, ◌∷◌, IfOk, OnOk, codes, map};
ghost use Rattle.std.specs.List.{concat, list_all};
ghost use Rattle.std.specs.Option.{option_map};
ghost use Rattle.word_spec.specs.Texts.{joined, spaced};
ghost use Rattle.line_tokens.specs.Tokens.{token_of};
ghost use Rattle.symbol_table.specs.Founds.{found_of};
ghost use Rattle.note_template.specs.TemplateLines.{abi_at, abi_line, aligned, all_kept, are_bounds, changed, distance, global_line, in_stack, is_range, only_line, own_line, pointer_text, range_text, rewritten, same_text, saved, spare, stack_by, stack_line, stack_mask, stack_said, stack_within, token_text};
ghost use Rattle.note_template.specs.Views.{machine_of};
ghost use Rattle.note_template.specs.Forms.{answer_of, own_of, pair_of, phrases_view, tokens_view};

use crate::bytes::is_text;
use crate::fault::Refusal;
use crate::forms::unknown_symbol;
use crate::machine::TemplateMachine;
use crate::operands::{is_operand, is_range, pair, sole, split_last};
use crate::own_words::{OwnWord, own_word};
use crate::printing::{push_text, push_token, push_word};
use line_tokens::Token;
use std::alloc::{AllocError, Global};
use symbol_table::{Found, SymbolTable};

/// The text of a line, or why there is none.
pub(crate) type Answer = Result<Vec<u8>, Refusal>;

/// The promise that the registers are as at entry that a call leaves as they were.
fn kept_line(machine: TemplateMachine) -> &'static [u8]
    ensures { result.now ≡ codes "ensure " ++ all_kept (saved (machine_of machine)) }
{
    match machine {
        TemplateMachine::RiscV =>
            b"ensure sp = old(sp) and gp = old(gp) and tp = old(tp) and s0 = old(s0) and s1 = old(s1) and s2 = old(s2) and s3 = old(s3) and s4 = old(s4) and s5 = old(s5) and s6 = old(s6) and s7 = old(s7) and s8 = old(s8) and s9 = old(s9) and s10 = old(s10) and s11 = old(s11)",
        TemplateMachine::Arm =>
            b"ensure sp = old(sp) and r4 = old(r4) and r5 = old(r5) and r6 = old(r6) and r7 = old(r7) and r8 = old(r8) and r9 = old(r9) and r10 = old(r10) and r11 = old(r11)",
    }
}

/// The registers and flags that a call may change, each with a blank before it.
fn changed_names(machine: TemplateMachine) -> &'static [u8]
    ensures { result.now ≡ spaced (changed (machine_of machine)) }
{
    match machine {
        TemplateMachine::RiscV => b" ra t0 t1 t2 t3 t4 t5 t6 a0 a1 a2 a3 a4 a5 a6 a7",
        TemplateMachine::Arm => b" r0 r1 r2 r3 r12 lr N Z C V",
    }
}

/// A register that is no argument.
fn spare(machine: TemplateMachine) -> &'static [u8]
    ensures { result.now ≡ spare (machine_of machine) }
{
    match machine {
        TemplateMachine::RiscV => b"t6",
        TemplateMachine::Arm => b"r12",
    }
}

/// The bits of an address that are 0 where the stack is aligned.
fn stack_mask(machine: TemplateMachine) -> &'static [u8]
    ensures { result.now ≡ stack_mask (machine_of machine) }
{
    match machine {
        TemplateMachine::RiscV => b"15",
        TemplateMachine::Arm => b"3",
    }
}

/// The text of a line `abi A`.
fn abi_text(alloc: Global, machine: TemplateMachine, at: Token) -> Result<Vec<u8>, AllocError>
    ensures { IfOk result (λ v. v.items ≡ codes "modifies " ++ token_text (token_of at.entry) ++ spaced (changed (machine_of machine))) }
{
    let mut out = Vec::from_slice(alloc, b"modifies ")?;
    push_token(&mut out, at)?;
    push_text(&mut out, changed_names(machine))?;
    Ok(out)
}

/// The answer for a line `abi`, by the tokens behind its word.
fn abi_line(alloc: Global, machine: TemplateMachine, tokens: &[Token]) -> Result<Answer, AllocError>
    ensures { IfOk result (λ r. answer_of r ≡ abi_line (machine_of machine) (tokens_view tokens.now)) }
{
    if tokens.is_empty() {
        let text = Vec::from_slice(alloc, kept_line(machine))?;
        return Ok(Ok(text));
    }
    let Some(at) = sole(tokens) else {
        return Ok(Err(Refusal::WrongForm));
    };
    if !is_operand(machine, at) {
        return Ok(Err(Refusal::WrongForm));
    }
    let text = abi_text(alloc, machine, at)?;
    Ok(Ok(text))
}

/// Whether the bounds of a stack are in form.
fn are_bounds(machine: TemplateMachine, bounds: (Token, Token)) -> bool
    ensures { result ≡ are_bounds (machine_of machine) (pair_of bounds.entry) }
{
    is_operand(machine, bounds.0) && is_operand(machine, bounds.1)
}

/// Appends that the stack is aligned.
fn push_aligned(out: &mut Vec<u8>, machine: TemplateMachine) -> Result<(), AllocError>
    ensures { OnOk result (out.new.items ≡ out.old.items ++ aligned (machine_of machine)) }
{
    push_text(out, b" and (sp & ")?;
    push_text(out, stack_mask(machine))?;
    push_text(out, b") = 0")?;
    Ok(())
}

/// The text of a line `stack LOW HIGH`.
fn stack_text(
    alloc: Global,
    machine: TemplateMachine,
    low: Token,
    high: Token,
) -> Result<Vec<u8>, AllocError>
    ensures { IfOk result (λ v. v.items ≡ codes "require " ++ token_text (token_of low.entry) ++ codes " <=u sp and sp <=u " ++ token_text (token_of high.entry)
        ++ aligned (machine_of machine)) }
{
    let mut out = Vec::from_slice(alloc, b"require ")?;
    push_token(&mut out, low)?;
    push_text(&mut out, b" <=u sp and sp <=u ")?;
    push_token(&mut out, high)?;
    push_aligned(&mut out, machine)?;
    Ok(out)
}

/// The answer for a line `stack`, by the tokens behind its word.
fn stack_line(
    alloc: Global,
    machine: TemplateMachine,
    tokens: &[Token],
) -> Result<Answer, AllocError>
    ensures { IfOk result (λ r. answer_of r ≡ stack_line (machine_of machine) (tokens_view tokens.now)) }
{
    let Some(bounds) = pair(tokens) else {
        return Ok(Err(Refusal::WrongForm));
    };
    if !are_bounds(machine, bounds) {
        return Ok(Err(Refusal::WrongForm));
    }
    let text = stack_text(alloc, machine, bounds.0, bounds.1)?;
    Ok(Ok(text))
}

/// The text that the register `gp` has the value of a symbol.
fn pointer_text(alloc: Global, found: Found) -> Result<Answer, AllocError>
    ensures { IfOk result (λ r. answer_of r ≡ pointer_text (found_of found.entry)) }
{
    match found {
        Found::Missing(nearest) => {
            let refusal = unknown_symbol(alloc, nearest)?;
            Ok(Err(refusal))
        }
        Found::Ambiguous => Ok(Err(Refusal::AmbiguousSymbol)),
        Found::One { value, .. } => {
            let mut out = Vec::from_slice(alloc, b"require gp = ")?;
            push_word(&mut out, value)?;
            Ok(Ok(out))
        }
    }
}

/// The answer for a line `global`, by the tokens behind its word.
fn global_line(
    alloc: Global,
    machine: TemplateMachine,
    symbols: &SymbolTable,
    tokens: &[Token],
) -> Result<Answer, AllocError>
    ensures { IfOk result (λ r. answer_of r ≡ global_line (machine_of machine) symbols.now (tokens_view tokens.now)) }
{
    match machine {
        TemplateMachine::Arm => Ok(Err(Refusal::WrongForm)),
        TemplateMachine::RiscV => {
            if !tokens.is_empty() {
                return Ok(Err(Refusal::WrongForm));
            }
            let answer = pointer_text(alloc, symbols.find(b"__global_pointer$"))?;
            Ok(answer)
        }
    }
}

/// Appends the texts of tokens, each with a blank before it.
fn push_spaced(out: &mut Vec<u8>, tokens: &[Token]) -> Result<(), AllocError>
    ensures { OnOk result (out.new.items ≡ out.old.items ++ spaced (map token_text (tokens_view tokens.now))) }
{
    for token in tokens {
        push_text(out, b" ")?;
        push_token(out, *token)?;
    }
    Ok(())
}

/// Appends the texts of tokens, with a blank between two.
fn push_joined(out: &mut Vec<u8>, tokens: &[Token]) -> Result<(), AllocError>
    ensures { OnOk result (out.new.items ≡ out.old.items ++ joined (map token_text (tokens_view tokens.now))) }
{
    let Some((first, rest)) = tokens.split_first() else {
        return Ok(());
    };
    push_token(out, *first)?;
    push_spaced(out, rest)?;
    Ok(())
}

/// Appends how far the spare register is at entry from an expression's value there.
fn push_distance(
    out: &mut Vec<u8>,
    machine: TemplateMachine,
    expression: &[Token],
) -> Result<(), AllocError>
    ensures { OnOk result (out.new.items ≡ out.old.items ++ distance (machine_of machine) (tokens_view expression.now)) }
{
    push_text(out, b"old(")?;
    push_text(out, spare(machine))?;
    push_text(out, b" - (")?;
    push_joined(out, expression)?;
    Ok(())
}

/// Appends that the spare register is in a range at entry.
fn push_range(
    out: &mut Vec<u8>,
    machine: TemplateMachine,
    tokens: &[Token],
) -> Result<(), AllocError>
    ensures { OnOk result (out.new.items ≡ out.old.items ++ range_text (machine_of machine) (tokens_view tokens.now)) }
{
    let (front, last) = split_last(tokens);
    push_distance(out, machine, front)?;
    push_text(out, b") <u ")?;
    push_joined(out, last)?;
    push_text(out, b") or ")?;
    Ok(())
}

/// Appends that of several ranges.
fn push_ranges(
    out: &mut Vec<u8>,
    machine: TemplateMachine,
    ranges: &[Vec<Token>],
) -> Result<(), AllocError>
    ensures { OnOk result (out.new.items ≡ out.old.items ++ concat (map (range_text (machine_of machine)) (phrases_view ranges.now))) }
{
    for range in ranges {
        push_range(out, machine, range)?;
    }
    Ok(())
}

/// Appends that the byte at the spare register is as at entry.
fn push_same(out: &mut Vec<u8>, machine: TemplateMachine) -> Result<(), AllocError>
    ensures { OnOk result (out.new.items ≡ out.old.items ++ same_text (machine_of machine)) }
{
    push_text(out, b"mem8[old(")?;
    push_text(out, spare(machine))?;
    push_text(out, b")] = old(mem8[")?;
    push_text(out, spare(machine))?;
    push_text(out, b"])")?;
    Ok(())
}

/// Whether ranges are in form.
fn are_ranges(machine: TemplateMachine, ranges: &[Vec<Token>]) -> bool
    ensures { result ≡ list_all (is_range (machine_of machine)) (phrases_view ranges.now) }
{
    for range in ranges {
        if !is_range(machine, range) {
            return false;
        }
    }
    true
}

/// The answer for a line `only`, by the tokens behind its word, those of the phrases behind commas, and what is said of the stack.
fn only_line(
    alloc: Global,
    machine: TemplateMachine,
    stack: &[u8],
    first: &[Token],
    more: &[Vec<Token>],
) -> Result<Answer, AllocError>
    ensures { IfOk result (λ r. answer_of r ≡ only_line (machine_of machine) stack.now (tokens_view first.now ∷ phrases_view more.now)) }
{
    if !is_range(machine, first) {
        return Ok(Err(Refusal::WrongForm));
    }
    if !are_ranges(machine, more) {
        return Ok(Err(Refusal::WrongForm));
    }
    let mut out = Vec::from_slice(alloc, b"ensure ")?;
    push_range(&mut out, machine, first)?;
    push_ranges(&mut out, machine, more)?;
    push_text(&mut out, stack)?;
    push_same(&mut out, machine)?;
    Ok(Ok(out))
}

/// The answer for a line of a template's own.
fn own_line(
    alloc: Global,
    machine: TemplateMachine,
    symbols: &SymbolTable,
    stack: &[u8],
    own: OwnWord,
    first: &[Token],
    more: &[Vec<Token>],
) -> Result<Answer, AllocError>
    ensures { IfOk result (λ r. answer_of r ≡ own_line (machine_of machine) symbols.now stack.now (own_of own) (tokens_view first.now) (phrases_view more.now)) }
{
    if let OwnWord::Only = own {
        let answer = only_line(alloc, machine, stack, first, more)?;
        return Ok(answer);
    }
    if !more.is_empty() {
        return Ok(Err(Refusal::WrongForm));
    }
    let answer = match own {
        OwnWord::Abi => abi_line(alloc, machine, first)?,
        OwnWord::Stack => stack_line(alloc, machine, first)?,
        _ => global_line(alloc, machine, symbols, first)?,
    };
    Ok(answer)
}

/// What stands for a line, by the tokens of its phrases; none where it is not a template's own.
pub(crate) fn rewritten(
    alloc: Global,
    machine: TemplateMachine,
    symbols: &SymbolTable,
    stack: &[u8],
    phrases: &[Vec<Token>],
) -> Result<Option<Answer>, AllocError>
    ensures { IfOk result (λ o. option_map answer_of o ≡ rewritten (machine_of machine) symbols.now stack.now (phrases_view phrases.now)) }
{
    let Some((first, more)) = phrases.split_first() else {
        return Ok(None);
    };
    let Some((Token::Name(word), rest)) = first.split_first() else {
        return Ok(None);
    };
    let Some(own) = own_word(word) else {
        return Ok(None);
    };
    let answer = own_line(alloc, machine, symbols, stack, own, rest, more)?;
    Ok(Some(answer))
}

/// That the spare register is in the stack at entry, above its lower bound.
fn in_stack(alloc: Global, machine: TemplateMachine, low: Token) -> Result<Vec<u8>, AllocError>
    ensures { IfOk result (λ v. v.items ≡ in_stack (machine_of machine) (token_text (token_of low.entry))) }
{
    let mut out = Vec::from_slice(alloc, b"old(")?;
    push_text(&mut out, spare(machine))?;
    push_text(&mut out, b" - ")?;
    push_token(&mut out, low)?;
    push_text(&mut out, b" <u sp - ")?;
    push_token(&mut out, low)?;
    push_text(&mut out, b") or ")?;
    Ok(out)
}

/// What a stack line says of the spare register, by its tokens; none where it is no stack line in form.
pub(crate) fn stack_said(
    alloc: Global,
    machine: TemplateMachine,
    tokens: &[Token],
) -> Result<Option<Vec<u8>>, AllocError>
    ensures { IfOk result (λ o. option_map (λ v. v.items) o ≡ stack_said (machine_of machine) (tokens_view tokens.now)) }
{
    let Some((Token::Name(word), rest)) = tokens.split_first() else {
        return Ok(None);
    };
    if !is_text(word, b"stack") {
        return Ok(None);
    }
    let Some(bounds) = pair(rest) else {
        return Ok(None);
    };
    if !are_bounds(machine, bounds) {
        return Ok(None);
    }
    let text = in_stack(alloc, machine, bounds.0)?;
    Ok(Some(text))
}
