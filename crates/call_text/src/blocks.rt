//! Reads the lines of a block.
ghost use Rattle.std.specs.Prelude.{◌≡◌, ℕ, ◌+◌, ◌++◌, ◌∷◌, ◌<◌, ◌^◌, [], Option, Some, IfErr, IfOk, OnOk, drop, length};
ghost use Rattle.std.specs.Option.{option_map};
ghost use Rattle.word_spec.specs.Texts.{split_lines};
ghost use Rattle.machine_spec.specs.StateText as starts;
ghost use Rattle.frame_texts_spec.specs.CallTexts.{BlocksRefused, BlocksTold, Changes, InBlocks, OfFramed, OfStart, Stage, blocks_told, told_in_blocks};
ghost use Rattle.frame_texts_spec.specs.FrameTexts.{OfPart};
ghost use Rattle.frame_texts_spec.proofs.BlocksBack.{AllFit};
ghost use Rattle.start_value.specs.Starts.{layout_of};
ghost use Rattle.state_text.specs.Lines.{line_said};
ghost use Rattle.state_text.specs.Readings.{fault_of};
ghost use Rattle.call_text.specs.Lines.{block_said};
ghost use Rattle.call_text.specs.Blocks.{IsBlocksRefused, IsDue, acted, call_fault_of, next_told, prepended};
ghost use Rattle.call_text.specs.declared.blocks.BlocksFault.TheVariants.{Memory};

use crate::fault::CallFault;
use crate::lines::{BlockLine, block_line};
use frame_text::FrameFault;
use line_tokens::first_line;
use start_value::Layout;
use state_text::{StateFault, StateLine};
use std::alloc::{AllocError, Global};

/// What a line does in the blocks.
#[derive(Clone, Copy)]
pub(crate) enum Act {
    /// It gives the value that is due.
    Value(u32),
    Byte { at: u32, value: u8 },
    /// It ends the block: it begins one of this step and address, where that may begin, or ends all blocks.
    Closes(Option<(u32, u32)>),
}

/// The line that ends a block, by its number, and the text after it.
#[derive(Clone, Copy)]
pub(crate) struct Next<'a> {
    pub(crate) line: u64,
    /// The step and the address of the block that it begins; none for the end.
    pub(crate) begins: Option<(u32, u32)>,
    pub(crate) rest: &'a [u8],
}

/// What the lines of a block give.
#[derive(Drop)]
pub(crate) struct BlockRead<'a> {
    pub(crate) values: Vec<u32>,
    pub(crate) bytes: Vec<(u32, u8)>,
    pub(crate) next: Next<'a>,
}

/// Why no blocks are read.
#[derive(Clone, Copy)]
pub(crate) enum BlocksFault {
    Refused { line: u64, kind: CallFault },
    Memory,
}

impl From<AllocError> for BlocksFault {
    ghost from_gives = { λ _ e. e ≡ Memory };

    fn from(_error: AllocError) -> BlocksFault {
        BlocksFault::Memory
    }
}

/// The fault of a line of a start.
pub(crate) fn of_part(fault: StateFault) -> CallFault
    ensures { call_fault_of result ≡ OfFramed (OfPart (fault_of fault)) }
{
    CallFault::OfFramed(FrameFault::OfPart(fault))
}

/// What a line of a start does, where values at places are due, and bytes from an address on.
fn start_act(line: StateLine, due: &[usize], byte: u64) -> Result<Act, CallFault>
    ensures acts { (layout : starts.Layout) (changes : ℕ → Option Changes) (n step : ℕ) (later : Stage → BlocksTold) → IfOk result (λ act.
        told_in_blocks layout changes n step due.now byte (Some (OfStart (line_said line))) later ≡ acted layout changes n step due.now byte act later) }
    ensures refused { (layout : starts.Layout) (changes : ℕ → Option Changes) (n step : ℕ) (later : Stage → BlocksTold) → IfErr result (λ f.
        told_in_blocks layout changes n step due.now byte (Some (OfStart (line_said line))) later ≡ BlocksRefused n (call_fault_of f)) }
    ensures due { IfOk result (IsDue (Some (OfStart (line_said line))) due.now) }
{
    match line {
        StateLine::Named(_) | StateLine::Machine => Err(of_part(StateFault::Line)),
        StateLine::Choice { .. } => Err(of_part(StateFault::Choice)),
        StateLine::Register { place, value } => {
            if due.is_empty() || due[0] != place {
                return Err(CallFault::Block);
            }
            Ok(Act::Value(value))
        }
        StateLine::Byte { at, value } => {
            if !due.is_empty() || (at as u64) < byte || value == 0 {
                return Err(CallFault::Block);
            }
            Ok(Act::Byte { at, value })
        }
        StateLine::End => {
            if !due.is_empty() {
                return Err(CallFault::Block);
            }
            Ok(Act::Closes(None))
        }
    }
}

/// What a line does, where values at places are due, and bytes from an address on.
fn line_act(line: Option<BlockLine>, due: &[usize], byte: u64) -> Result<Act, CallFault>
    ensures acts { (layout : starts.Layout) (changes : ℕ → Option Changes) (n step : ℕ) (later : Stage → BlocksTold) → IfOk result (λ act.
        told_in_blocks layout changes n step due.now byte (option_map block_said line) later ≡ acted layout changes n step due.now byte act later) }
    ensures refused { (layout : starts.Layout) (changes : ℕ → Option Changes) (n step : ℕ) (later : Stage → BlocksTold) → IfErr result (λ f.
        told_in_blocks layout changes n step due.now byte (option_map block_said line) later ≡ BlocksRefused n (call_fault_of f)) }
    ensures due { IfOk result (IsDue (option_map block_said line) due.now) }
{
    let Some(line) = line else {
        return Err(of_part(StateFault::Line));
    };
    match line {
        BlockLine::OfHead(_) => Err(CallFault::OfFramed(FrameFault::Head)),
        BlockLine::Begins { step, at } => {
            if !due.is_empty() {
                return Err(CallFault::Block);
            }
            Ok(Act::Closes(Some((step, at))))
        }
        BlockLine::OfStart(line) => start_act(line, due, byte),
    }
}

/// The places after the first.
fn after_first<'a>(places: &'a [usize]) -> &'a [usize]
    ensures { result.now ≡ drop 1 places.now }
{
    match places {
        [] => places,
        [_, rest @ ..] => rest,
    }
}

/// Appends a value.
fn add_value(values: &mut Vec<u32>, value: u32) -> Result<(), AllocError>
    ensures { OnOk result (values.new.items ≡ values.old.items ++ value ∷ []) }
{
    values.push(value)?;
    Ok(())
}

/// Appends a byte.
fn add_byte(bytes: &mut Vec<(u32, u8)>, at: u32, value: u8) -> Result<(), AllocError>
    ensures { OnOk result (bytes.new.items ≡ bytes.old.items ++ (at, value) ∷ []) }
{
    bytes.push((at, value))?;
    Ok(())
}

/// What the lines of a block give after the line that begins it, up to the line that ends it, where values at places are due.
pub(crate) fn read_block<'a>(
    alloc: Global,
    layout: Layout,
    places: &[usize],
    text: &'a [u8],
    line: u64,
) -> Result<BlockRead<'a>, BlocksFault>
    requires { line + length text.now < 2 ^ 64 }
    ensures told { (changes : ℕ → Option Changes) (step : ℕ) → IfOk result (λ b.
        blocks_told (layout_of layout) changes (InBlocks step places.now 0) line (split_lines text.now)
        ≡ prepended b.values.items b.bytes.items (next_told (layout_of layout) changes step b.next)) }
    ensures refused { (changes : ℕ → Option Changes) (step : ℕ) → IfErr result (IsBlocksRefused
        (blocks_told (layout_of layout) changes (InBlocks step places.now 0) line (split_lines text.now))) }
    ensures fit { IfOk result (λ b. AllFit (layout_of layout) places.now b.values.items) }
    ensures room { IfOk result (λ b. b.next.line + length b.next.rest.now < line + length text.now) }
    ensures shorter { IfOk result (λ b. length b.next.rest.now < length text.now) }
{
    let mut values = Vec::new(alloc);
    let mut bytes = Vec::new(alloc);
    let mut due = places;
    let mut byte = 0u64;
    let mut rest = text;
    let mut n = line;
    while !rest.is_empty() {
        let (first, others) = first_line(rest);
        let said = block_line(alloc, layout, first)?;
        let act = match line_act(said, due, byte) {
            Ok(act) => act,
            Err(kind) => return Err(BlocksFault::Refused { line: n, kind }),
        };
        match act {
            Act::Value(value) => {
                add_value(&mut values, value)?;
                due = after_first(due);
                rest = others;
                n += 1;
            }
            Act::Byte { at, value } => {
                add_byte(&mut bytes, at, value)?;
                byte = at as u64 + 1;
                rest = others;
                n += 1;
            }
            Act::Closes(begins) => {
                let next = Next {
                    line: n,
                    begins,
                    rest: others,
                };
                return Ok(BlockRead {
                    values,
                    bytes,
                    next,
                });
            }
        }
    }
    Err(BlocksFault::Refused {
        line: n,
        kind: of_part(StateFault::End),
    })
}
