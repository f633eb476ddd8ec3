//! Reads texts with blocks of contract steps.
ghost use Rattle.std.specs.Prelude.{◌≡◌, ℕ, ◌+◌, ◌≤◌, ◌<◌, ◌^◌, Bool, List, [], is_some, IfErr, IfOk, IfSome, Some, length, map};
ghost use Rattle.std.specs.Option.{option_map};
ghost use Rattle.word_spec.specs.Texts.{lines, split_lines};
ghost use Rattle.machine_spec.specs.StateText as starts;
ghost use Rattle.frame_texts_spec.specs.FrameTexts.{Checks, FramedTold, OfPart, no_checks};
ghost use Rattle.frame_texts_spec.specs.CallTextLaws.{AreOfLayout};
ghost use Rattle.frame_texts_spec.specs.CallTexts as texts;
ghost use Rattle.frame_texts_spec.specs.CallTexts.{BlocksAre, BlocksTold, CallEnding, CallIs, CallRefused, Changes, HasChanges, InBlocks, OfFramed, blocks_told, body_of, call_text_of, frame_name, told_after, told_before, told_by_both};
ghost use Rattle.start_value.specs.Starts.{layout_of, written_of};
ghost use Rattle.state_text.specs.Readings.{fault_of};
ghost use Rattle.state_text.specs.Starts.{written_call_of, written_head_of};
ghost use Rattle.frame_text.specs.Readings.{IsRefusedAs, IsToldAs, judged_head, seen_head};
ghost use Rattle.call_text.specs.Blocks.{IsBlocksRefused};
ghost use Rattle.call_text.specs.Lines.{blocks_said, ended};
ghost use Rattle.call_text.specs.Readings.{IsCallRefused, IsCalledAs, IsCalledRefused, checks_by};
ghost use Rattle.call_text.specs.Texts.{called_ending_of, called_text_of, changes_at, frame_name_of};

use crate::blocks::{BlocksFault, of_part};
use crate::calls::read_calls;
use crate::ending::called_ending;
use crate::fault::{CallFault, CalledFault};
use crate::lines::{Before, copy_before};
use crate::text::{CalledEnding, CalledText, ContractChanges, FrameName};
use frame_text::{FramedEnding, FramedFault, FramedText, Seen, SeenHead, read_parts};
use line_tokens::first_line;
use start_value::Layout;
use state_text::{CallState, HeadStart, StateFault, push_text};
use std::alloc::{AllocError, Global};

/// A fault before anything was read that a reader with a file judges.
fn unread(alloc: Global, fault: StateFault) -> CalledFault
    ensures { (layout : starts.Layout) (frames : texts.FrameName → Checks) →
        IsCalledRefused layout frames (CallRefused 1 (OfFramed (OfPart (fault_of fault)))) result }
{
    CalledFault::Refused {
        line: 1,
        kind: of_part(fault),
        frame: FrameName::Entry,
        seen: Seen {
            bytes: Vec::new(alloc),
            head: None,
        },
    }
}

/// The fault of the lines before the blocks.
fn before_fault(frame: FrameName, fault: FramedFault) -> CalledFault
    ensures { (layout : starts.Layout) (frames : texts.FrameName → Checks) (n : CallEnding) (told : FramedTold) (blocks : BlocksTold) →
        frame_name_of frame ≡ frame_name n → IsRefusedAs layout (frames (frame_name n)) told fault →
        IsCalledRefused layout frames (told_by_both n told blocks) result }
{
    match fault {
        FramedFault::Refused { line, kind, seen } => CalledFault::Refused {
            line,
            kind: CallFault::OfFramed(kind),
            frame,
            seen,
        },
        FramedFault::Memory => CalledFault::Memory,
    }
}

/// What a reader with a file judges of a start and a head state that were read.
fn seen_of(framed: FramedText) -> Seen
    ensures bytes { result.bytes.items ≡ (written_of framed.start).bytes }
    ensures head { option_map seen_head result.head ≡ option_map judged_head (option_map written_head_of framed.head) }
{
    let FramedText { start, head, .. } = framed;
    match head {
        None => Seen {
            bytes: start.bytes,
            head: None,
        },
        Some(
            HeadStart {
                at,
                start: later,
                stack,
            },
        ) => Seen {
            bytes: start.bytes,
            head: Some(SeenHead {
                at,
                stack,
                bytes: later.bytes,
            }),
        },
    }
}

/// The fault of the blocks after a start and a head state that were read.
fn block_fault(frame: FrameName, framed: FramedText, fault: BlocksFault) -> CalledFault
    ensures { (layout : starts.Layout) (frames : texts.FrameName → Checks) (n : CallEnding) (told : FramedTold) (blocks : BlocksTold) →
        frame_name_of frame ≡ frame_name n → IsToldAs layout (frames (frame_name n)) told framed → IsBlocksRefused blocks fault →
        IsCalledRefused layout frames (told_by_both n told blocks) result }
{
    match fault {
        BlocksFault::Refused { line, kind } => CalledFault::Refused {
            line,
            kind,
            frame,
            seen: seen_of(framed),
        },
        BlocksFault::Memory => CalledFault::Memory,
    }
}

/// The text of the lines before the blocks, with the end where blocks follow, and what was found of the blocks.
fn before_blocks<'a>(alloc: Global, text: &'a [u8]) -> Result<(Vec<u8>, Before<'a>), AllocError>
    ensures text { IfOk result (λ b. b.0.items ≡ lines (ended (is_some b.1.blocks) (body_of (split_lines text.now)).lines)) }
    ensures count { IfOk result (λ b. b.1.count ≡ length (body_of (split_lines text.now)).lines) }
    ensures blocks { IfOk result (λ b. blocks_said b.1.blocks ≡ (body_of (split_lines text.now)).blocks) }
    ensures some { IfOk result (λ b. IfSome b.1.blocks (λ rest. 0 < length rest.now)) }
    ensures room { IfOk result (λ b. IfSome b.1.blocks (λ rest. b.1.count + length rest.now ≤ length text.now)) }
{
    let mut part = Vec::new(alloc);
    let before = copy_before(alloc, &mut part, text)?;
    if before.blocks.is_some() {
        push_text(&mut part, b"end\n")?;
        return Ok((part, before));
    }
    Ok((part, before))
}

/// The start and the head state that the lines before the blocks say.
fn read_before(alloc: Global, layout: Layout, part: &[u8]) -> Result<FramedText, FramedFault>
    ensures told { (c : Checks) (closed : Bool) (text : List ℕ) → let ls = ended closed (body_of (split_lines text)).lines in
        part.now ≡ lines ls → IfOk result (IsToldAs (layout_of layout) c (told_before (layout_of layout) c ls)) }
    ensures refused { (c : Checks) (closed : Bool) (text : List ℕ) → let ls = ended closed (body_of (split_lines text)).lines in
        part.now ≡ lines ls → IfErr result (IsRefusedAs (layout_of layout) c (told_before (layout_of layout) c ls)) }
{
    let named = FramedEnding::Turns {
        k: 0,
        at: 0,
        step: 0,
    };
    match read_parts(alloc, layout, named, part) {
        Ok(framed) => Ok(framed),
        Err(fault) => Err(fault),
    }
}

/// The text of an ending with a start, a head state and what contract steps are given.
fn called_text(named: CalledEnding, framed: FramedText, calls: Vec<CallState>) -> CalledText
    ensures { (layout : starts.Layout) (frames : texts.FrameName → Checks) (told : FramedTold) →
        IsToldAs layout (frames (frame_name (called_ending_of named))) told framed →
        IsCalledAs layout frames (told_by_both (called_ending_of named) told (BlocksAre [] [] (map written_call_of calls.items))) result }
{
    CalledText {
        named,
        start: framed.start,
        head: framed.head,
        calls,
    }
}

/// The text of what was read before the blocks and of the blocks, whose first line has a number.
fn read_closed(
    alloc: Global,
    layout: Layout,
    contracts: &[ContractChanges],
    named: CalledEnding,
    framed: FramedText,
    blocks: &[u8],
    line: u64,
) -> Result<CalledText, CalledFault>
    requires contracts { (a : ℕ) (x : Changes) → changes_at contracts.now a ≡ Some x → HasChanges (layout_of layout) x }
    requires room { line + length blocks.now < 2 ^ 64 }
    ensures told { (frames : texts.FrameName → Checks) (told : FramedTold) →
        IsToldAs (layout_of layout) (frames (frame_name (called_ending_of named))) told framed →
        IfOk result (IsCalledAs (layout_of layout) frames (told_by_both (called_ending_of named) told
        (blocks_told (layout_of layout) (changes_at contracts.now) (InBlocks 0 [] 0) line (split_lines blocks.now)))) }
    ensures refused { (frames : texts.FrameName → Checks) (told : FramedTold) →
        IsToldAs (layout_of layout) (frames (frame_name (called_ending_of named))) told framed →
        IfErr result (IsCalledRefused (layout_of layout) frames (told_by_both (called_ending_of named) told
        (blocks_told (layout_of layout) (changes_at contracts.now) (InBlocks 0 [] 0) line (split_lines blocks.now)))) }
{
    match read_calls(alloc, layout, contracts, blocks, line) {
        Ok(calls) => Ok(called_text(named, framed, calls)),
        Err(fault) => Err(block_fault(named.frame(), framed, fault)),
    }
}

/// What the lines after the first say.
fn read_body(
    alloc: Global,
    layout: Layout,
    contracts: &[ContractChanges],
    named: CalledEnding,
    text: &[u8],
) -> Result<CalledText, CalledFault>
    requires contracts { (a : ℕ) (x : Changes) → changes_at contracts.now a ≡ Some x → HasChanges (layout_of layout) x }
    requires room { length text.now + 2 < 2 ^ 64 }
    ensures told { (frames : texts.FrameName → Checks) → IfOk result (IsCalledAs (layout_of layout) frames
        (told_after (layout_of layout) (checks_by frames contracts.now) (Some (called_ending_of named)) (body_of (split_lines text.now)))) }
    ensures refused { (frames : texts.FrameName → Checks) → IfErr result (IsCalledRefused (layout_of layout) frames
        (told_after (layout_of layout) (checks_by frames contracts.now) (Some (called_ending_of named)) (body_of (split_lines text.now)))) }
{
    let (part, before) = before_blocks(alloc, text)?;
    let framed = match read_before(alloc, layout, &part) {
        Ok(framed) => framed,
        Err(fault) => return Err(before_fault(named.frame(), fault)),
    };
    match before.blocks {
        None => Ok(called_text(named, framed, Vec::new(alloc))),
        Some(blocks) => {
            read_closed(
                alloc,
                layout,
                contracts,
                named,
                framed,
                blocks,
                before.count + 2,
            )
        }
    }
}

/// What a text says in the layout of its machine, where contracts may change what `contracts` says: what [`crate::print_called`] prints is read back, and of
/// what is printed the last line feed alone may lack. Memory is taken in proportion to the text.
///
/// Where a reader has a file, the lines of some bytes, heads and return addresses are refused too, by the frame whose run the report shows: a fault, or a text
/// that is read, has what the lines say of them.
///
/// # Errors
///
/// `Refused` with the first refused line, its least fault and what was read before it, or `Memory` where memory ran out.
pub fn parse_called(
    alloc: Global,
    text: &[u8],
    contracts: &[ContractChanges],
    layout: Layout,
) -> Result<CalledText, CalledFault>
    requires { AreOfLayout (layout_of layout) (checks_by (λ frame. no_checks) contracts.now) }
    ensures told { IfOk result (λ t. call_text_of (layout_of layout) (checks_by (λ frame. no_checks) contracts.now) text.now ≡ CallIs (called_text_of t)) }
    ensures refused { IfErr result (IsCallRefused (call_text_of (layout_of layout) (checks_by (λ frame. no_checks) contracts.now) text.now)) }
    ensures told_by { (frames : texts.FrameName → Checks) →
        IfOk result (IsCalledAs (layout_of layout) frames (call_text_of (layout_of layout) (checks_by frames contracts.now) text.now)) }
    ensures refused_by { (frames : texts.FrameName → Checks) →
        IfErr result (IsCalledRefused (layout_of layout) frames (call_text_of (layout_of layout) (checks_by frames contracts.now) text.now)) }
{
    if text.is_empty() {
        return Err(unread(alloc, StateFault::Register));
    }
    let (first, rest) = first_line(text);
    let Some(named) = called_ending(alloc, layout, contracts, first)? else {
        return Err(unread(alloc, StateFault::Line));
    };
    read_body(alloc, layout, contracts, named, rest)
}
