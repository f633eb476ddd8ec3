//! The declarations of registers, flags, memories and choices.
ghost use Rattle.std.specs.Prelude.{◌≡◌, ◌≤◌, ◌<◌, ◌+◌, ◌-◌, ◌++◌, ◌∷◌, [], codes, length, map, slice_index_or, string_bytes, OnOk};
ghost use Rattle.bilv_spec.specs.SmtLib.{Atom};
ghost use Rattle.start_value.specs.Starts.{layout_of};
ghost use Rattle.smtlib_print.specs.Commands as commands;
ghost use Rattle.smtlib_print.specs.Scripted.{draws_of};
ghost use Rattle.smtlib_print.specs.Written.{commands_text, written};

use crate::words::{push_flag, push_memory, push_register};
use question_form::Unrolled;
use start_value::Layout;
use std::alloc::AllocError;

/// Appends the declaration of a register of a part.
fn declare_register(
    out: &mut String,
    form: Layout,
    part: u32,
    register: u8,
) -> Result<(), AllocError>
    requires first { (layout_of form).first ≤ register }
    requires last { register < (layout_of form).first + length (layout_of form).registers }
    ensures { OnOk result (string_bytes out.new
        ≡ string_bytes out.old
        ++ (written (commands.declaration (commands.part_name part (slice_index_or (layout_of form).registers (register - (layout_of form).first) []))
        (commands.word_sort (Atom (codes "32"))))
        ++ codes "\n")) }
{
    out.push_str("(declare-const ")?;
    push_register(out, form, part, register)?;
    out.push_str(" (_ BitVec 32))\n")
}

/// Appends the declaration of a flag of a part.
fn declare_flag(out: &mut String, form: Layout, part: u32, flag: u8) -> Result<(), AllocError>
    requires { flag < length (layout_of form).flags }
    ensures { OnOk result (string_bytes out.new
        ≡ string_bytes out.old
        ++ (written (commands.declaration (commands.part_name part (slice_index_or (layout_of form).flags (length (layout_of form).flags - 1 - flag) []))
        (commands.word_sort (Atom (codes "1"))))
        ++ codes "\n")) }
{
    out.push_str("(declare-const ")?;
    push_flag(out, form, part, flag)?;
    out.push_str(" (_ BitVec 1))\n")
}

/// Appends the declarations of the registers of a part.
fn declare_registers(out: &mut String, form: Layout, part: u32) -> Result<(), AllocError>
    ensures { OnOk result (string_bytes out.new ≡ string_bytes out.old
        ++ commands_text (commands.declarations (commands.word_sort (Atom (codes "32"))) (commands.part_names part (layout_of form).registers))) }
{
    let (first, _) = form.registers();
    let count = form.register_count();
    prove!(count <= 31);
    for place in 0..count {
        declare_register(out, form, part, first + place as u8)?;
    }
    Ok(())
}

/// Appends the declarations of the flags of a part, of which the one with the highest number comes first.
fn declare_flags(out: &mut String, form: Layout, part: u32) -> Result<(), AllocError>
    ensures { OnOk result (string_bytes out.new ≡ string_bytes out.old
        ++ commands_text (commands.declarations (commands.word_sort (Atom (codes "1"))) (commands.part_names part (layout_of form).flags))) }
{
    let count = form.flag_count();
    for place in 0..count {
        declare_flag(out, form, part, count - 1 - place)?;
    }
    Ok(())
}

/// Appends the declaration of the memory of a part.
fn declare_memory(out: &mut String, part: u32) -> Result<(), AllocError>
    ensures { OnOk result (string_bytes out.new ≡ string_bytes out.old
        ++ (written (commands.declaration (commands.memory_name part) commands.array_sort) ++ codes "\n")) }
{
    out.push_str("(declare-const ")?;
    push_memory(out, part)?;
    out.push_str(" (Array (_ BitVec 32) (_ BitVec 8)))\n")
}

/// Appends the declarations of what a part has: registers, flags and the memory.
pub fn declare_part(out: &mut String, form: Layout, part: u32) -> Result<(), AllocError>
    ensures { OnOk result (string_bytes out.new ≡ string_bytes out.old ++ commands_text (commands.part_declarations (layout_of form) part)) }
{
    declare_registers(out, form, part)?;
    declare_flags(out, form, part)?;
    declare_memory(out, part)
}

/// Appends the declarations of what the head has, where there is one.
pub fn declare_head(out: &mut String, form: Layout, heads: bool) -> Result<(), AllocError>
    ensures { OnOk result (string_bytes out.new ≡ string_bytes out.old ++ commands_text (commands.head_declarations (layout_of form) heads)) }
{
    if !heads {
        return Ok(());
    }
    declare_part(out, form, 1)
}

/// Appends the declaration of the choice of a point by its number, if its row reads the choice.
fn declare_choice(out: &mut String, drawn: bool, number: u32) -> Result<(), AllocError>
    ensures { OnOk result (string_bytes out.new
        ≡ string_bytes out.old ++ commands_text (commands.declarations (commands.word_sort (Atom (codes "2"))) (commands.drawn (number ∷ []) (drawn ∷ [])))) }
{
    if !drawn {
        return Ok(());
    }
    write!(out, "(declare-const c{number} (_ BitVec 2))\n")
}

/// Appends the declarations of the choices of the points whose row reads the choice.
pub fn declare_choices(
    out: &mut String,
    unrolled: &Unrolled,
    numbers: &[u32],
) -> Result<(), AllocError>
    requires { length numbers.now ≡ length unrolled.now.points.items }
    ensures { OnOk result (string_bytes out.new
        ≡ string_bytes out.old
        ++ commands_text (commands.declarations (commands.word_sort (Atom (codes "2"))) (commands.drawn numbers.now (draws_of unrolled.now)))) }
{
    for place in 0..unrolled.points.len() {
        let drawn = unrolled.draws(unrolled.points[place].code);
        declare_choice(out, drawn, numbers[place])?;
    }
    Ok(())
}
