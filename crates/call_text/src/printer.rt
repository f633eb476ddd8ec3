//! Prints texts with blocks of contract steps.
ghost use Rattle.std.specs.Prelude.{◌≡◌, ◌++◌, IfOk, OnOk, codes, map};
ghost use Rattle.std.specs.Option.{option_map};
ghost use Rattle.word_spec.specs.Texts.{joined, line, lines};
ghost use Rattle.frame_texts_spec.specs.FrameTexts.{lines_of_parts};
ghost use Rattle.frame_texts_spec.specs.CallTexts.{block_lines, blocks, but_last, call_ending_words, call_line, call_printed, changes_or_none, name_word, places, value_lines, values_of};
ghost use Rattle.start_value.specs.Starts.{layout_of, written_of};
ghost use Rattle.state_text.specs.Starts.{lines_text, written_call_of, written_head_of};
ghost use Rattle.call_text.specs.Texts.{called_ending_of, called_text_of, changes_at, frame_name_of};

use crate::changes::{changes_at, places, values};
use crate::text::{CalledEnding, CalledText, ContractChanges, FrameName};
use frame_text::{push_event_at, push_framed_ending, push_parts};
use start_value::{Layout, Start};
use state_text::{
    CallState, HeadStart, push_bytes, push_number, push_step, push_text, push_value, push_word,
};
use std::alloc::{AllocError, Global};

/// Appends that a frame is not proved, with a blank after its name.
fn push_frame(out: &mut Vec<u8>, frame: FrameName) -> Result<(), AllocError>
    ensures { OnOk result (out.new.items ≡ out.old.items ++ (codes "unproved " ++ (name_word (frame_name_of frame) ++ codes " "))) }
{
    match frame {
        FrameName::Entry => push_text(out, b"unproved entry "),
        FrameName::Contract { at } => {
            push_text(out, b"unproved ")?;
            push_word(out, at)?;
            push_text(out, b" ")?;
            Ok(())
        }
    }
}

/// Appends the line of an ending, without its line feed. What an `Err` leaves is open.
pub fn push_called_ending(
    alloc: Global,
    out: &mut Vec<u8>,
    named: CalledEnding,
) -> Result<(), AllocError>
    ensures { OnOk result (out.new.items ≡ out.old.items ++ joined (call_ending_words (called_ending_of named))) }
{
    match named {
        CalledEnding::Plain(named) => push_framed_ending(alloc, out, named),
        CalledEnding::UnprovedBy {
            frame,
            event,
            at,
            step,
        } => {
            push_frame(out, frame)?;
            push_event_at(alloc, out, b"", event, at, step)?;
            Ok(())
        }
        CalledEnding::UnprovedTurns { frame, k, at, step } => {
            push_frame(out, frame)?;
            push_text(out, b"unroll ")?;
            push_number(alloc, out, k)?;
            push_text(out, b" ")?;
            push_step(alloc, out, at, step)?;
            Ok(())
        }
    }
}

/// Appends the lines of a start and, where the segment begins in one, of a head state, but for the end.
fn push_open_parts(
    alloc: Global,
    out: &mut Vec<u8>,
    start: &Start,
    head: &Option<HeadStart>,
    layout: Layout,
) -> Result<(), AllocError>
    ensures { OnOk result (out.new.items ≡ out.old.items
        ++ lines (but_last (lines_of_parts (layout_of layout) (written_of start.now) (option_map written_head_of head.now)))) }
{
    push_parts(alloc, out, start, head, layout)?;
    let end = b"end\n".len();
    let len = out.len();
    out.truncate(len - end);
    Ok(())
}

/// Appends the line that begins a block.
fn push_call_line(alloc: Global, out: &mut Vec<u8>, step: u64, at: u32) -> Result<(), AllocError>
    ensures { OnOk result (out.new.items ≡ out.old.items ++ line (call_line step at)) }
{
    push_text(out, b"call ")?;
    push_number(alloc, out, step)?;
    push_text(out, b" ")?;
    push_word(out, at)?;
    push_text(out, b"\n")?;
    Ok(())
}

/// Appends the lines of values at places.
fn push_values(
    alloc: Global,
    out: &mut Vec<u8>,
    layout: Layout,
    places: &[usize],
    values: &[u32],
) -> Result<(), AllocError>
    ensures { OnOk result (out.new.items ≡ out.old.items ++ lines_text (layout_of layout) (value_lines places.now values.now)) }
{
    for (i, place) in places.iter().enumerate() {
        if i >= values.len() {
            return Ok(());
        }
        push_value(alloc, out, layout, *place, values[i])?;
    }
    Ok(())
}

/// Appends the lines of the registers and flags that a contract step is given.
fn push_given(
    alloc: Global,
    out: &mut Vec<u8>,
    layout: Layout,
    contracts: &[ContractChanges],
    call: &CallState,
) -> Result<(), AllocError>
    ensures { let x = changes_or_none (changes_at contracts.now call.now.at) in OnOk result (out.new.items ≡ out.old.items
        ++ lines_text (layout_of layout) (value_lines (places (layout_of layout) x) (values_of x (written_call_of call.now)))) }
{
    let Some(changes) = changes_at(contracts, call.at) else {
        return Ok(());
    };
    let places = places(alloc, layout, changes)?;
    let values = values(alloc, changes, call)?;
    push_values(alloc, out, layout, &places, &values)?;
    Ok(())
}

/// Appends a block.
fn push_call(
    alloc: Global,
    out: &mut Vec<u8>,
    layout: Layout,
    contracts: &[ContractChanges],
    call: &CallState,
) -> Result<(), AllocError>
    ensures { OnOk result (out.new.items ≡ out.old.items
        ++ lines (block_lines (layout_of layout) (changes_or_none (changes_at contracts.now call.now.at)) (written_call_of call.now))) }
{
    push_call_line(alloc, out, call.step, call.at)?;
    push_given(alloc, out, layout, contracts, call)?;
    push_bytes(out, call.bytes.as_slice())?;
    Ok(())
}

/// Appends all blocks.
fn push_calls(
    alloc: Global,
    out: &mut Vec<u8>,
    layout: Layout,
    contracts: &[ContractChanges],
    calls: &[CallState],
) -> Result<(), AllocError>
    ensures { OnOk result (out.new.items ≡ out.old.items
        ++ lines (blocks (layout_of layout) (changes_at contracts.now) (map written_call_of calls.now))) }
{
    for call in calls {
        push_call(alloc, out, layout, contracts, call)?;
    }
    Ok(())
}

/// The text of what a report over frames shows, in the layout of its machine, with a block for each contract step by what the contract of its address may
/// change: the first of that address in `contracts`. Whatever stands in it is printed, but for the choices of a start before a head state, values that have
/// no place in their contract, places that have no value, and all values of a block whose address has no contract.
///
/// # Errors
///
/// Where memory runs out.
pub fn print_called(
    alloc: Global,
    text: &CalledText,
    contracts: &[ContractChanges],
    layout: Layout,
) -> Result<Vec<u8>, AllocError>
    ensures { IfOk result (λ v. v.items ≡ call_printed (layout_of layout) (changes_at contracts.now) (called_text_of text.now)) }
{
    let mut out = Vec::new(alloc);
    push_called_ending(alloc, &mut out, text.named)?;
    push_text(&mut out, b"\n")?;
    push_open_parts(alloc, &mut out, &text.start, &text.head, layout)?;
    push_calls(alloc, &mut out, layout, contracts, text.calls.as_slice())?;
    push_text(&mut out, b"end\n")?;
    Ok(out)
}
