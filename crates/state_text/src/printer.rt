//! Prints state texts.
ghost use Rattle.std.specs.Prelude.{◌≡◌, ◌+◌, ◌++◌, ◌≤◌, ◌<◌, ◌*◌, ◌%◌, ◌^◌, List, [], ◌∷◌, OnOk, IfOk, slice_index_or, map, length, codes};
ghost use Rattle.word_spec.specs.Texts.{hex_digit, hex_digits, word_text, byte_text, number_text, line, lines, joined};
ghost use Rattle.machine_spec.specs.Endings.{event_words, named_line, place_words};
ghost use Rattle.machine_spec.specs.StateText.{block_text, printed, value_names, value_text, words_of_line, StateLine, RegisterLine, ByteLine, ChoiceLine, EndLine, MachineLine, NamedLine, register_lines, flag_bits, lines_behind};
ghost use Rattle.machine_spec.specs.StateText as texts;
ghost use Rattle.start_value.specs.Starts.{layout_of, written_of};
ghost use Rattle.state_text.specs.Starts.{event_of, named_of, text_of, line_text, lines_text};

use crate::start::{Event, NamedEnding, StateText};
use start_value::{Layout, Start};
use std::alloc::{AllocError, Global};

/// A hexadecimal digit in lower case.
fn hex_digit(d: u8) -> u8
    requires { d ≤ 15 }
    ensures { result ≡ hex_digit d }
{
    if d < 10 { 48 + d } else { 87 + d }
}

/// Appends a text. What an `Err` leaves is open.
pub fn push_text(out: &mut Vec<u8>, text: &[u8]) -> Result<(), AllocError>
    ensures { OnOk result (out.new.items ≡ out.old.items ++ text.now) }
{
    out.extend_from_slice(text)?;
    Ok(())
}

/// Appends the `count` lowest hexadecimal digits of a number, the highest first. What an `Err` leaves is open.
fn push_hex(out: &mut Vec<u8>, count: u8, v: u32) -> Result<(), AllocError>
    ensures { OnOk result (out.new.items ≡ out.old.items ++ hex_digits count v) }
{
    if count == 0 {
        return Ok(());
    }
    push_hex(out, count - 1, v / 16)?;
    out.push(hex_digit((v % 16) as u8))?;
    Ok(())
}

/// Appends an address, or a word of 32 bits: 0x and eight digits. What an `Err` leaves is open.
pub fn push_word(out: &mut Vec<u8>, v: u32) -> Result<(), AllocError>
    ensures { OnOk result (out.new.items ≡ out.old.items ++ word_text v) }
{
    push_text(out, b"0x")?;
    push_hex(out, 8, v)?;
    Ok(())
}

/// Appends a byte.
fn push_byte(out: &mut Vec<u8>, v: u8) -> Result<(), AllocError>
    ensures { OnOk result (out.new.items ≡ out.old.items ++ byte_text v) }
{
    push_text(out, b"0x")?;
    push_hex(out, 2, v as u32)?;
    Ok(())
}

/// Appends a decimal number. What an `Err` leaves is open.
pub fn push_number(alloc: Global, out: &mut Vec<u8>, n: u64) -> Result<(), AllocError>
    ensures { OnOk result (out.new.items ≡ out.old.items ++ number_text n) }
{
    let text = n.to_string(alloc)?;
    push_text(out, text.as_bytes())?;
    Ok(())
}

/// Appends the words of an event. What an `Err` leaves is open.
pub fn push_event(alloc: Global, out: &mut Vec<u8>, event: Event) -> Result<(), AllocError>
    ensures { OnOk result (out.new.items ≡ out.old.items ++ joined (event_words (event_of event))) }
{
    match event {
        Event::AssertFails { line } => {
            push_text(out, b"assert ")?;
            push_number(alloc, out, line)?;
            Ok(())
        }
        Event::EnsureFails { line } => {
            push_text(out, b"ensure ")?;
            push_number(alloc, out, line)?;
            Ok(())
        }
        Event::FetchFails => push_text(out, b"fetch"),
        Event::NoRow => push_text(out, b"norow"),
        Event::HalfwordFails => push_text(out, b"halfword"),
        Event::CodeWritten => push_text(out, b"codewrite"),
        Event::Trapped => push_text(out, b"trap"),
        Event::AlignFails => push_text(out, b"align"),
        Event::JumpFails => push_text(out, b"jump"),
    }
}

/// Appends the address and the number of a step, as `at 0x00010004 step 1`. What an `Err` leaves is open.
pub fn push_step(alloc: Global, out: &mut Vec<u8>, at: u32, step: u64) -> Result<(), AllocError>
    ensures { OnOk result (out.new.items ≡ out.old.items ++ joined (place_words at step)) }
{
    push_text(out, b"at ")?;
    push_word(out, at)?;
    push_text(out, b" step ")?;
    push_number(alloc, out, step)?;
    Ok(())
}

/// Appends the line of an ending, without its line feed. What an `Err` leaves is open.
pub fn push_ending(alloc: Global, out: &mut Vec<u8>, named: NamedEnding) -> Result<(), AllocError>
    ensures { OnOk result (out.new.items ≡ out.old.items ++ named_line (named_of named)) }
{
    match named {
        NamedEnding::FailsBy { event, at, step } => {
            push_text(out, b"fails ")?;
            push_event(alloc, out, event)?;
            push_text(out, b" ")?;
            push_step(alloc, out, at, step)?;
            Ok(())
        }
        NamedEnding::UnknownBy { k, at, step } => {
            push_text(out, b"unknown unroll ")?;
            push_number(alloc, out, k)?;
            push_text(out, b" ")?;
            push_step(alloc, out, at, step)?;
            Ok(())
        }
    }
}

/// Appends the line of an ending.
fn push_named(alloc: Global, out: &mut Vec<u8>, named: NamedEnding) -> Result<(), AllocError>
    ensures { OnOk result (out.new.items ≡ out.old.items ++ line (named_line (named_of named))) }
{
    push_ending(alloc, out, named)?;
    push_text(out, b"\n")?;
    Ok(())
}

/// Appends the line of the machine. What an `Err` leaves is open.
pub fn push_machine(out: &mut Vec<u8>, layout: Layout) -> Result<(), AllocError>
    ensures { OnOk result (out.new.items ≡ out.old.items ++ line (line_text (layout_of layout) MachineLine)) }
{
    push_text(out, b"state ")?;
    push_text(out, layout.machine())?;
    push_text(out, b"\n")?;
    Ok(())
}

/// Appends the line of the value of a register or a flag by its place. What an `Err` leaves is open.
pub fn push_value(
    alloc: Global,
    out: &mut Vec<u8>,
    layout: Layout,
    place: usize,
    v: u32,
) -> Result<(), AllocError>
    ensures { OnOk result (out.new.items ≡ out.old.items ++ line (line_text (layout_of layout) (RegisterLine place v))) }
{
    push_name(out, layout.names(), place)?;
    push_text(out, b" ")?;
    if place < layout.register_count() {
        push_word(out, v)?;
    } else {
        push_number(alloc, out, v as u64)?;
    }
    push_text(out, b"\n")?;
    Ok(())
}

/// Appends the name at a place, or nothing where there is none.
fn push_name(out: &mut Vec<u8>, names: &[&[u8]], place: usize) -> Result<(), AllocError>
    ensures { OnOk result (out.new.items ≡ out.old.items ++ slice_index_or (map (λ name. name.now) names.now) place []) }
{
    if place >= names.len() {
        return Ok(());
    }
    push_text(out, names[place])
}

/// Appends the line of a byte.
fn push_byte_line(out: &mut Vec<u8>, at: u32, v: u8) -> Result<(), AllocError>
    ensures { (layout : texts.Layout) → OnOk result (out.new.items ≡ out.old.items ++ line (line_text layout (ByteLine at v))) }
{
    push_text(out, b"byte ")?;
    push_word(out, at)?;
    push_text(out, b" ")?;
    push_byte(out, v)?;
    push_text(out, b"\n")?;
    Ok(())
}

/// Appends the line of a choice.
fn push_choice_line(
    alloc: Global,
    out: &mut Vec<u8>,
    step: u64,
    choice: u8,
) -> Result<(), AllocError>
    ensures { (layout : texts.Layout) → OnOk result (out.new.items ≡ out.old.items ++ line (line_text layout (ChoiceLine step choice))) }
{
    push_text(out, b"choice ")?;
    push_number(alloc, out, step)?;
    push_text(out, b" ")?;
    push_number(alloc, out, choice as u64)?;
    push_text(out, b"\n")?;
    Ok(())
}

/// Appends the lines of registers in order. What an `Err` leaves is open.
pub fn push_registers(
    alloc: Global,
    out: &mut Vec<u8>,
    layout: Layout,
    regs: &[u32],
) -> Result<(), AllocError>
    ensures { OnOk result (out.new.items ≡ out.old.items ++ lines_text (layout_of layout) (register_lines 0 regs.now)) }
{
    for (place, v) in regs.iter().enumerate() {
        push_value(alloc, out, layout, place, *v)?;
    }
    Ok(())
}

/// Appends the lines of the `count` lowest flags, the highest first, from a place on. What an `Err` leaves is open.
pub fn push_flags(
    alloc: Global,
    out: &mut Vec<u8>,
    layout: Layout,
    place: usize,
    count: u8,
    flags: u8,
) -> Result<(), AllocError>
    requires few { count ≤ 8 }
    requires place { place + count < 2 ^ 64 }
    ensures { OnOk result (out.new.items ≡ out.old.items ++ lines_text (layout_of layout) (register_lines place (flag_bits count flags))) }
{
    if count == 0 {
        return Ok(());
    }
    push_value(
        alloc,
        out,
        layout,
        place,
        ((flags >> (count - 1)) % 2) as u32,
    )?;
    push_flags(alloc, out, layout, place + 1, count - 1, flags)?;
    Ok(())
}

/// Appends the lines of bytes. What an `Err` leaves is open.
pub fn push_bytes(out: &mut Vec<u8>, bytes: &[(u32, u8)]) -> Result<(), AllocError>
    ensures { (layout : texts.Layout) → OnOk result (out.new.items ≡ out.old.items ++ lines_text layout (map (λ b. ByteLine b.0 b.1) bytes.now)) }
{
    for (at, v) in bytes {
        push_byte_line(out, *at, *v)?;
    }
    Ok(())
}

/// Appends the lines of choices. What an `Err` leaves is open.
pub fn push_choices(
    alloc: Global,
    out: &mut Vec<u8>,
    choices: &[(u64, u8)],
) -> Result<(), AllocError>
    ensures { (layout : texts.Layout) → OnOk result (out.new.items ≡ out.old.items ++ lines_text layout (map (λ c. ChoiceLine c.0 c.1) choices.now)) }
{
    for (step, choice) in choices {
        push_choice_line(alloc, out, *step, *choice)?;
    }
    Ok(())
}

/// Appends the lines of a start that stand behind the line of its ending, in the layout of its machine. What an `Err` leaves is open.
pub fn push_block(
    alloc: Global,
    out: &mut Vec<u8>,
    start: &Start,
    layout: Layout,
) -> Result<(), AllocError>
    ensures { OnOk result (out.new.items ≡ out.old.items ++ block_text (layout_of layout) (written_of start.now)) }
{
    push_machine(out, layout)?;
    let regs = start.regs.as_slice();
    push_registers(alloc, out, layout, regs)?;
    push_flags(
        alloc,
        out,
        layout,
        regs.len(),
        layout.flag_count(),
        start.flags,
    )?;
    push_bytes(out, start.bytes.as_slice())?;
    push_choices(alloc, out, start.choices.as_slice())?;
    push_text(out, b"end\n")?;
    Ok(())
}

/// The text of a start with its ending, in the layout of its machine. Whatever stands in it is printed; a text that is read again has the
/// registers and flags of the layout, bytes and choices in rising order, and no bytes or choices of 0.
pub fn print_state(alloc: Global, text: &StateText, layout: Layout) -> Result<Vec<u8>, AllocError>
    ensures { IfOk result (λ v. v.items ≡ printed (layout_of layout) (text_of text.now)) }
{
    let mut out = Vec::new(alloc);
    push_named(alloc, &mut out, text.named)?;
    push_block(alloc, &mut out, &text.start, layout)?;
    Ok(out)
}
