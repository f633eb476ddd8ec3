//! Prints texts of what reports over frames show.
ghost use Rattle.std.specs.Prelude.{◌≡◌, ◌++◌, ◌∷◌, [], IfOk, OnOk, codes, length, map};
ghost use Rattle.word_spec.specs.Texts.{joined, line, lines, number_text, word_text};
ghost use Rattle.machine_spec.specs.Endings.{place_words};
ghost use Rattle.machine_spec.specs.StateText as texts;
ghost use Rattle.frame_texts_spec.specs.FrameTexts.{content_lines, ending_words, frame_event_words, framed_printed, head_line, last_lines, line_texts, lines_of_parts, stack_line};
ghost use Rattle.start_value.specs.Starts.{layout_of, written_of};
ghost use Rattle.state_text.specs.Starts.{written_head_of};
ghost use Rattle.std.specs.Option.{option_map};
ghost use Rattle.frame_text.specs.Texts.{framed_ending_of, framed_event_of, framed_text_of};

use crate::text::{FramedEnding, FramedEvent, FramedText};
use start_value::{Layout, Start};
use state_text::{
    HeadStart, push_block, push_bytes, push_choices, push_event, push_flags, push_machine,
    push_number, push_registers, push_step, push_text, push_word,
};
use std::alloc::{AllocError, Global};

/// Appends a word, with its blank, and a number.
fn push_numbered(alloc: Global, out: &mut Vec<u8>, word: &[u8], n: u64) -> Result<(), AllocError>
    ensures { OnOk result (out.new.items ≡ out.old.items ++ (word.now ++ number_text n)) }
{
    push_text(out, word)?;
    push_number(alloc, out, n)?;
    Ok(())
}

/// Appends the words of an event.
fn push_framed_event(alloc: Global, out: &mut Vec<u8>, event: FramedEvent) -> Result<(), AllocError>
    ensures { OnOk result (out.new.items ≡ out.old.items ++ joined (frame_event_words (framed_event_of event))) }
{
    match event {
        FramedEvent::OfStep(event) => push_event(alloc, out, event),
        FramedEvent::InvariantFails { line } => push_numbered(alloc, out, b"invariant ", line),
        FramedEvent::NeedsFails { line } => push_numbered(alloc, out, b"needs ", line),
        FramedEvent::WritesFails => push_text(out, b"writes"),
        FramedEvent::GivesFails { line } => push_numbered(alloc, out, b"gives ", line),
        FramedEvent::ModifiesFails => push_text(out, b"modifies"),
    }
}

/// Appends first words, with their blank, an event and its place. What an `Err` leaves is open.
pub fn push_event_at(
    alloc: Global,
    out: &mut Vec<u8>,
    first: &[u8],
    event: FramedEvent,
    at: u32,
    step: u64,
) -> Result<(), AllocError>
    ensures { OnOk result (out.new.items ≡ out.old.items
        ++ (first.now ++ joined (frame_event_words (framed_event_of event) ++ place_words at step))) }
{
    push_text(out, first)?;
    push_framed_event(alloc, out, event)?;
    push_text(out, b" ")?;
    push_step(alloc, out, at, step)?;
    Ok(())
}

/// Appends the line of an ending, without its line feed. What an `Err` leaves is open.
pub fn push_framed_ending(
    alloc: Global,
    out: &mut Vec<u8>,
    named: FramedEnding,
) -> Result<(), AllocError>
    ensures { OnOk result (out.new.items ≡ out.old.items ++ joined (ending_words (framed_ending_of named))) }
{
    match named {
        FramedEnding::Fails { event, at, step } => push_event_at(
            alloc, out, b"fails ", event, at, step,
        ),
        FramedEnding::Turns { k, at, step } => {
            push_numbered(alloc, out, b"unknown unroll ", k)?;
            push_text(out, b" ")?;
            push_step(alloc, out, at, step)?;
            Ok(())
        }
        FramedEnding::NotInductive { event, at, step } => push_event_at(
            alloc,
            out,
            b"not inductive ",
            event,
            at,
            step,
        ),
    }
}

/// Appends the lines of a start's registers, flags and bytes.
fn push_content(
    alloc: Global,
    out: &mut Vec<u8>,
    start: &Start,
    layout: Layout,
) -> Result<(), AllocError>
    ensures { OnOk result (out.new.items ≡ out.old.items
        ++ lines (line_texts (layout_of layout) (content_lines (layout_of layout) (written_of start.now)))) }
{
    let regs = start.regs.as_slice();
    push_registers(alloc, out, layout, regs)?;
    push_flags(
        alloc,
        out,
        layout,
        regs.len(),
        layout.flag_count(),
        start.flags,
    )?;
    push_bytes(out, start.bytes.as_slice())?;
    Ok(())
}

/// Appends the lines of choices, and the end.
fn push_last(alloc: Global, out: &mut Vec<u8>, start: &Start) -> Result<(), AllocError>
    ensures { (layout : texts.Layout) → OnOk result (out.new.items ≡ out.old.items ++ lines (line_texts layout (last_lines (written_of start.now)))) }
{
    push_choices(alloc, out, start.choices.as_slice())?;
    push_text(out, b"end\n")?;
    Ok(())
}

/// Appends the line of a word and an address.
fn push_address_line(out: &mut Vec<u8>, word: &[u8], at: u32) -> Result<(), AllocError>
    ensures { OnOk result (out.new.items ≡ out.old.items ++ line (joined (word.now ∷ word_text at ∷ []))) }
{
    push_text(out, word)?;
    push_text(out, b" ")?;
    push_word(out, at)?;
    push_text(out, b"\n")?;
    Ok(())
}

/// Appends the lines of return addresses.
fn push_stack(out: &mut Vec<u8>, stack: &[u32]) -> Result<(), AllocError>
    ensures { OnOk result (out.new.items ≡ out.old.items ++ lines (map stack_line stack.now)) }
{
    for at in stack {
        push_address_line(out, b"stack", *at)?;
    }
    Ok(())
}

/// Appends the lines of a head part.
fn push_head(
    alloc: Global,
    out: &mut Vec<u8>,
    head: &HeadStart,
    layout: Layout,
) -> Result<(), AllocError>
    ensures { let h = written_head_of head.now in OnOk result (out.new.items ≡ out.old.items ++ lines (head_line h.at ∷ map stack_line h.stack
        ++ line_texts (layout_of layout) (content_lines (layout_of layout) h.start ++ last_lines h.start))) }
{
    push_address_line(out, b"head", head.at)?;
    push_stack(out, head.stack.as_slice())?;
    push_content(alloc, out, &head.start, layout)?;
    push_last(alloc, out, &head.start)?;
    Ok(())
}

/// Appends the lines behind the first: of a start and, where the segment begins in one, of a head state. What an `Err` leaves is open.
pub fn push_parts(
    alloc: Global,
    out: &mut Vec<u8>,
    start: &Start,
    head: &Option<HeadStart>,
    layout: Layout,
) -> Result<(), AllocError>
    ensures { OnOk result (out.new.items ≡ out.old.items
        ++ lines (lines_of_parts (layout_of layout) (written_of start.now) (option_map written_head_of head.now))) }
{
    match head {
        None => push_block(alloc, out, start, layout),
        Some(head) => {
            push_machine(out, layout)?;
            push_content(alloc, out, start, layout)?;
            push_head(alloc, out, head, layout)?;
            Ok(())
        }
    }
}

/// The text of what a report over frames shows, in the layout of its machine. Whatever stands in it is printed, but for the choices of a start before a
/// head state; a text that is read again has starts as [`state_text::print_state`] says, and no such choices.
///
/// # Errors
///
/// Where memory runs out.
pub fn print_framed(alloc: Global, text: &FramedText, layout: Layout) -> Result<Vec<u8>, AllocError>
    ensures { IfOk result (λ v. v.items ≡ framed_printed (layout_of layout) (framed_text_of text.now)) }
{
    let mut out = Vec::new(alloc);
    push_framed_ending(alloc, &mut out, text.named)?;
    push_text(&mut out, b"\n")?;
    push_parts(alloc, &mut out, &text.start, &text.head, layout)?;
    Ok(out)
}
