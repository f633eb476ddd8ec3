//! Reads blocks of contract steps.
ghost use Rattle.std.specs.Prelude.{◌≡◌, ℕ, ◌+◌, ◌++◌, ◌∷◌, ◌≤◌, ◌<◌, ◌^◌, [], All, AllPairs, Option, Some, IfErr, IfOk, OnOk, drop, length, map};
ghost use Rattle.std.specs.Option.{option_map};
ghost use Rattle.word_spec.specs.Texts.{split_lines};
ghost use Rattle.frame_texts_spec.specs.CallTexts.{AfterEnd, BlocksAre, Changes, HasChanges, InBlocks, OfStart, blocks_told, fault_after, flags_by};
ghost use Rattle.frame_texts_spec.specs.FrameTexts.{OfPart};
ghost use Rattle.start_value.specs.Starts.{layout_of};
ghost use Rattle.state_text.specs.Lines.{line_said};
ghost use Rattle.state_text.specs.Readings.{fault_of};
ghost use Rattle.frame_text.specs.Readings.{frame_fault_of};
ghost use Rattle.call_text.specs.Lines.{block_said};
ghost use Rattle.call_text.specs.Blocks.{IsBlocksRefused, made_call, next_told, told_from, whole_told};
ghost use Rattle.state_text.specs.Starts.{written_call_of};
ghost use Rattle.call_text.specs.Texts.{changes_at, changes_of};

use crate::blocks::{BlockRead, BlocksFault, Next, read_block};
use crate::changes::{changes_at, places};
use crate::fault::CallFault;
use crate::lines::{BlockLine, block_line};
use crate::text::ContractChanges;
use frame_text::FrameFault;
use line_tokens::first_line;
use start_value::Layout;
use state_text::{CallState, StateFault, StateLine};
use std::alloc::{AllocError, Global};

/// Why a line after the end is refused.
fn fault_after(line: Option<BlockLine>) -> FrameFault
    ensures { frame_fault_of result ≡ fault_after (option_map block_said line) }
{
    match line {
        None => FrameFault::OfPart(StateFault::Line),
        Some(BlockLine::Begins { .. } | BlockLine::OfHead(_)) => FrameFault::OfPart(
            StateFault::End,
        ),
        Some(BlockLine::OfStart(line)) => FrameFault::OfPart(start_fault(line)),
    }
}

/// Why a line of a start is refused after the end.
fn start_fault(line: StateLine) -> StateFault
    ensures { OfPart (fault_of result) ≡ fault_after (Some (OfStart (line_said line))) }
{
    match line {
        StateLine::Named(_) | StateLine::Machine => StateFault::Line,
        StateLine::Register { .. } => StateFault::Register,
        StateLine::Byte { .. } => StateFault::Byte,
        StateLine::Choice { .. } => StateFault::Choice,
        StateLine::End => StateFault::End,
    }
}

/// Sees that nothing stands after the end.
fn read_after(alloc: Global, layout: Layout, text: &[u8], line: u64) -> Result<(), BlocksFault>
    ensures told { (changes : ℕ → Option Changes) → IfOk result (λ _.
        blocks_told (layout_of layout) changes AfterEnd line (split_lines text.now) ≡ BlocksAre [] [] []) }
    ensures refused { (changes : ℕ → Option Changes) → IfErr result (IsBlocksRefused
        (blocks_told (layout_of layout) changes AfterEnd line (split_lines text.now))) }
{
    if text.is_empty() {
        return Ok(());
    }
    let (first, _) = first_line(text);
    let said = block_line(alloc, layout, first)?;
    Err(BlocksFault::Refused {
        line,
        kind: CallFault::OfFramed(fault_after(said)),
    })
}

/// The set of flags by their values, the highest first.
fn flags_of(flags: &[u8], values: &[u32]) -> u8
    requires few { All (λ f. f < 8) flags.now }
    requires fall { AllPairs (λ x y. y < x) flags.now }
    requires bits { All (λ v. v ≤ 1) values.now }
    ensures value { result ≡ flags_by flags.now values.now }
{
    let [flag, others @ ..] = flags else {
        return 0;
    };
    let [value, rest @ ..] = values else {
        return 0;
    };
    let below = flags_of(others, rest);
    if *value == 0 {
        return below;
    }
    (1 << *flag) + below
}

/// What a contract step is given by the values and the bytes of its block.
fn call_state(
    alloc: Global,
    step: u64,
    at: u32,
    changes: &ContractChanges,
    values: &[u32],
    bytes: Vec<(u32, u8)>,
) -> Result<CallState, AllocError>
    requires few { All (λ f. f < 8) changes.now.flags.items }
    requires fall { AllPairs (λ x y. y < x) changes.now.flags.items }
    requires bits { All (λ v. v ≤ 1) (drop (length changes.now.registers.items) values.now) }
    ensures { IfOk result (λ c. written_call_of c ≡ made_call step at (changes_of changes.now) values.now bytes.items) }
{
    let count = changes.registers.len().min(values.len());
    let mut regs = Vec::new(alloc);
    regs.extend_from_slice(&values[..count])?;
    let flags = flags_of(changes.flags.as_slice(), &values[count..]);
    Ok(CallState {
        step,
        at,
        regs,
        flags,
        bytes,
    })
}

/// What a contract step is given by the block that a line begins, and the line that ends that block. The block's step is at least one number.
fn read_call<'a>(
    alloc: Global,
    layout: Layout,
    contracts: &[ContractChanges],
    least: u64,
    call: (u32, u32),
    rest: &'a [u8],
    line: u64,
) -> Result<(CallState, Next<'a>), BlocksFault>
    requires contracts { (a : ℕ) (x : Changes) → changes_at contracts.now a ≡ Some x → HasChanges (layout_of layout) x }
    requires room { line + 1 + length rest.now < 2 ^ 64 }
    ensures told { IfOk result (λ r. told_from (layout_of layout) (changes_at contracts.now) least line (Some call) (split_lines rest.now)
        ≡ whole_told (written_call_of r.0 ∷ []) (next_told (layout_of layout) (changes_at contracts.now) (call.0 + 1) r.1)) }
    ensures refused { IfErr result (IsBlocksRefused
        (told_from (layout_of layout) (changes_at contracts.now) least line (Some call) (split_lines rest.now))) }
    ensures room { IfOk result (λ r. r.1.line + length r.1.rest.now < line + 1 + length rest.now) }
    ensures shorter { IfOk result (λ r. length r.1.rest.now < length rest.now) }
{
    let (step, at) = call;
    if (step as u64) < least {
        return Err(BlocksFault::Refused {
            line,
            kind: CallFault::Block,
        });
    }
    let Some(changes) = changes_at(contracts, at) else {
        return Err(BlocksFault::Refused {
            line,
            kind: CallFault::Block,
        });
    };
    let due = places(alloc, layout, changes)?;
    let read = match read_block(alloc, layout, &due, rest, line + 1) {
        Ok(read) => read,
        Err(fault) => return Err(fault),
    };
    let BlockRead {
        values,
        bytes,
        next,
    } = read;
    let state = call_state(alloc, step as u64, at, changes, &values, bytes)?;
    Ok((state, next))
}

/// Appends what a contract step is given.
fn add_call(calls: &mut Vec<CallState>, call: CallState) -> Result<(), AllocError>
    ensures { OnOk result (map written_call_of calls.new.items ≡ map written_call_of calls.old.items ++ written_call_of call ∷ []) }
{
    calls.push(call)?;
    Ok(())
}

/// What contract steps are given from the line on that ends what stands before their blocks.
fn read_later(
    alloc: Global,
    layout: Layout,
    contracts: &[ContractChanges],
    first: Next<'_>,
) -> Result<Vec<CallState>, BlocksFault>
    requires contracts { (a : ℕ) (x : Changes) → changes_at contracts.now a ≡ Some x → HasChanges (layout_of layout) x }
    requires room { first.line + 1 + length first.rest.now < 2 ^ 64 }
    ensures told { IfOk result (λ calls. whole_told [] (next_told (layout_of layout) (changes_at contracts.now) 0 first.entry)
        ≡ BlocksAre [] [] (map written_call_of calls.items)) }
    ensures refused { IfErr result (IsBlocksRefused (next_told (layout_of layout) (changes_at contracts.now) 0 first.entry)) }
{
    let mut calls = Vec::new(alloc);
    let mut least = 0u64;
    let mut next = first;
    while let Some(call) = next.begins {
        let (state, after) = match read_call(
            alloc, layout, contracts, least, call, next.rest, next.line,
        ) {
            Ok(read) => read,
            Err(fault) => return Err(fault),
        };
        add_call(&mut calls, state)?;
        least = call.0 as u64 + 1;
        next = after;
    }
    match read_after(alloc, layout, next.rest, next.line + 1) {
        Ok(()) => Ok(calls),
        Err(fault) => Err(fault),
    }
}

/// What contract steps are given by the text of their blocks, whose first line has a number.
pub(crate) fn read_calls(
    alloc: Global,
    layout: Layout,
    contracts: &[ContractChanges],
    text: &[u8],
    line: u64,
) -> Result<Vec<CallState>, BlocksFault>
    requires contracts { (a : ℕ) (x : Changes) → changes_at contracts.now a ≡ Some x → HasChanges (layout_of layout) x }
    requires room { line + length text.now < 2 ^ 64 }
    ensures told { IfOk result (λ calls. whole_told [] (blocks_told (layout_of layout) (changes_at contracts.now) (InBlocks 0 [] 0) line (split_lines text.now))
        ≡ BlocksAre [] [] (map written_call_of calls.items)) }
    ensures refused { IfErr result (IsBlocksRefused
        (blocks_told (layout_of layout) (changes_at contracts.now) (InBlocks 0 [] 0) line (split_lines text.now))) }
{
    let read = match read_block(alloc, layout, &[], text, line) {
        Ok(read) => read,
        Err(fault) => return Err(fault),
    };
    match read_later(alloc, layout, contracts, read.next) {
        Ok(calls) => Ok(calls),
        Err(fault) => Err(fault),
    }
}
