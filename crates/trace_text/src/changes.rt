//! What a step changes.
ghost use Rattle.std.specs.Prelude.{◌≡◌, ◌++◌, ◌≤◌, ◌∷◌, OnOk, map};
ghost use Rattle.std.specs.List.{flat_map};
ghost use Rattle.word_spec.specs.Texts.{hex_digit, hex_digits};
ghost use Rattle.trace_texts_spec.specs.StepLines.{byte_change, changes_text, depth_text, flag_change, register_change};
ghost use Rattle.value_steps.specs.Called.{names_of};
ghost use Rattle.seen_step.specs.Views.{change_of, seen_of};

use seen_step::{Change, SeenStep};
use start_value::Layout;
use state_text::{push_number, push_text, push_word};
use std::alloc::{AllocError, Global};
use value_steps::{flag_name, push_register_names};

/// A hexadecimal digit in lower case.
fn hex_digit(d: u8) -> u8
    requires { d ≤ 15 }
    ensures { result ≡ hex_digit d }
{
    if d < 10 { 48 + d } else { 87 + d }
}

/// Appends the two lowest hexadecimal digits of a number. What an `Err` leaves is open.
pub(crate) fn push_two_digits(out: &mut Vec<u8>, v: u32) -> Result<(), AllocError>
    ensures { OnOk result (out.new.items ≡ out.old.items ++ hex_digits 2 v) }
{
    out.push(hex_digit((v / 16 % 16) as u8))?;
    out.push(hex_digit((v % 16) as u8))?;
    Ok(())
}

/// Appends the change of a register.
fn push_register_change(
    alloc: Global,
    out: &mut Vec<u8>,
    layout: Layout,
    change: Change,
) -> Result<(), AllocError>
    ensures { OnOk result (out.new.items ≡ out.old.items ++ register_change (names_of layout) (change_of change)) }
{
    push_text(out, b"  ")?;
    push_register_names(alloc, out, layout, change.place)?;
    push_text(out, b" ")?;
    push_word(out, change.old)?;
    push_text(out, b" -> ")?;
    push_word(out, change.new)?;
    Ok(())
}

/// Appends the change of a flag.
fn push_flag_change(alloc: Global, out: &mut Vec<u8>, change: Change) -> Result<(), AllocError>
    ensures { OnOk result (out.new.items ≡ out.old.items ++ flag_change (change_of change)) }
{
    push_text(out, b"  ")?;
    push_text(out, flag_name(change.place))?;
    push_text(out, b" ")?;
    push_number(alloc, out, change.old as u64)?;
    push_text(out, b" -> ")?;
    push_number(alloc, out, change.new as u64)?;
    Ok(())
}

/// Appends the change of a byte.
fn push_byte_change(out: &mut Vec<u8>, change: Change) -> Result<(), AllocError>
    ensures { OnOk result (out.new.items ≡ out.old.items ++ byte_change (change_of change)) }
{
    push_text(out, b"  [")?;
    push_word(out, change.place)?;
    push_text(out, b"] ")?;
    push_two_digits(out, change.old)?;
    push_text(out, b" -> ")?;
    push_two_digits(out, change.new)?;
    Ok(())
}

/// Appends the changes of registers.
fn push_registers(
    alloc: Global,
    out: &mut Vec<u8>,
    layout: Layout,
    changes: &[Change],
) -> Result<(), AllocError>
    ensures { OnOk result (out.new.items ≡ out.old.items ++ flat_map (register_change (names_of layout)) (map change_of changes.now)) }
{
    for change in changes {
        push_register_change(alloc, out, layout, *change)?;
    }
    Ok(())
}

/// Appends the changes of flags.
fn push_flags(alloc: Global, out: &mut Vec<u8>, changes: &[Change]) -> Result<(), AllocError>
    ensures { OnOk result (out.new.items ≡ out.old.items ++ flat_map flag_change (map change_of changes.now)) }
{
    for change in changes {
        push_flag_change(alloc, out, *change)?;
    }
    Ok(())
}

/// Appends the changes of bytes.
fn push_bytes(out: &mut Vec<u8>, changes: &[Change]) -> Result<(), AllocError>
    ensures { OnOk result (out.new.items ≡ out.old.items ++ flat_map byte_change (map change_of changes.now)) }
{
    for change in changes {
        push_byte_change(out, *change)?;
    }
    Ok(())
}

/// Appends a call or a return, with the number of calls that have not returned behind it.
fn push_depth(
    alloc: Global,
    out: &mut Vec<u8>,
    before: usize,
    after: usize,
) -> Result<(), AllocError>
    ensures { OnOk result (out.new.items ≡ out.old.items ++ depth_text before after) }
{
    if before < after {
        push_text(out, b"  call, depth ")?;
        push_number(alloc, out, after as u64)?;
        return Ok(());
    }
    if after < before {
        push_text(out, b"  return, depth ")?;
        push_number(alloc, out, after as u64)?;
        return Ok(());
    }
    Ok(())
}

/// Appends what a step changes: registers, flags, bytes, and the calls that have not returned. What an `Err` leaves is open.
pub(crate) fn push_changes(
    alloc: Global,
    out: &mut Vec<u8>,
    layout: Layout,
    step: &SeenStep,
) -> Result<(), AllocError>
    ensures { OnOk result (out.new.items ≡ out.old.items ++ changes_text (names_of layout) (seen_of step.now)) }
{
    push_registers(alloc, out, layout, &step.regs)?;
    push_flags(alloc, out, &step.flags)?;
    push_bytes(out, &step.bytes)?;
    push_depth(alloc, out, step.depth, step.later)?;
    Ok(())
}
