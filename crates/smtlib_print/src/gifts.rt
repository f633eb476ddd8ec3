//! The declarations of what contract steps are given.
ghost use Rattle.std.specs.Prelude.{◌≡◌, ◌≤◌, ◌<◌, ◌+◌, ◌-◌, ◌++◌, ◌∷◌, ℕ, [], codes, filter, if◌then◌else◌, length, map, slice_index_or, string_bytes, OnOk};
ghost use Rattle.word_spec.specs.RowFiles.{from_to};
ghost use Rattle.bilv_spec.specs.SmtLib.{Atom};
ghost use Rattle.start_value.specs.Starts.{layout_of};
ghost use Rattle.notes_value.specs.FrameViews.{contract_of, is_in};
ghost use Rattle.smtlib_print.specs.Commands as commands;
ghost use Rattle.frame_spec.specs.FrameScripts.{changed_flags, changed_registers, of_given, writes_some, written_memory};
ghost use Rattle.smtlib_print.specs.Scripted.{given_by, given_of, givens_of};
ghost use Rattle.smtlib_print.specs.Written.{commands_text};

use crate::words::{flag_name, push_given_prefix, push_register_name};
use notes_value::Contract;
use question_form::{Deed, Unrolled};
use start_value::Layout;
use std::alloc::AllocError;

/// Whether a number is in a set that has a bit for each.
fn is_in(set: u32, number: u8) -> bool
    requires { number < 32 }
    ensures { result ≡ is_in set number }
{
    (set >> number) % 2 == 1
}

/// Appends the declaration of a register that the contract step of the point of a number is given, if the contract may change it.
fn declare_register(
    out: &mut String,
    form: Layout,
    number: u32,
    register: u8,
    changes: bool,
) -> Result<(), AllocError>
    requires first { (layout_of form).first ≤ register }
    requires last { register < (layout_of form).first + length (layout_of form).registers }
    ensures { OnOk result (string_bytes out.new
        ≡ string_bytes out.old
        ++ commands_text (commands.declarations (commands.word_sort (Atom (codes "32")))
        (if changes then of_given number (slice_index_or (layout_of form).registers (register - (layout_of form).first) []) ∷ [] else []))) }
{
    if !changes {
        return Ok(());
    }
    out.push_str("(declare-const ")?;
    push_given_prefix(out, number)?;
    push_register_name(out, form, register)?;
    out.push_str(" (_ BitVec 32))\n")
}

/// Appends the declaration of a flag, in the same way.
fn declare_flag(
    out: &mut String,
    form: Layout,
    number: u32,
    flag: u8,
    changes: bool,
) -> Result<(), AllocError>
    requires { flag < length (layout_of form).flags }
    ensures { OnOk result (string_bytes out.new
        ≡ string_bytes out.old
        ++ commands_text (commands.declarations (commands.word_sort (Atom (codes "1")))
        (if changes then of_given number (slice_index_or (layout_of form).flags (length (layout_of form).flags - 1 - flag) []) ∷ [] else []))) }
{
    if !changes {
        return Ok(());
    }
    out.push_str("(declare-const ")?;
    push_given_prefix(out, number)?;
    out.push_str(flag_name(form, flag))?;
    out.push_str(" (_ BitVec 1))\n")
}

/// Appends the declaration of the memory, if the contract may write.
fn declare_memory(out: &mut String, number: u32, writes: bool) -> Result<(), AllocError>
    ensures { OnOk result (string_bytes out.new
        ≡ string_bytes out.old ++ commands_text (commands.declarations commands.array_sort (map (of_given number) (written_memory writes)))) }
{
    if !writes {
        return Ok(());
    }
    out.push_str("(declare-const ")?;
    push_given_prefix(out, number)?;
    out.push_str("mem (Array (_ BitVec 32) (_ BitVec 8)))\n")
}

/// Appends the declarations of the registers of a set.
fn declare_registers(
    out: &mut String,
    form: Layout,
    number: u32,
    set: u32,
) -> Result<(), AllocError>
    ensures { OnOk result (string_bytes out.new ≡ string_bytes out.old
        ++ commands_text (commands.declarations (commands.word_sort (Atom (codes "32"))) (map (of_given number)
        (changed_registers (filter (is_in set) (from_to 0 32)) (layout_of form).first (layout_of form).registers)))) }
{
    let (first, _) = form.registers();
    let count = form.register_count();
    prove!(count <= 31);
    for place in 0..count {
        let register = first + place as u8;
        declare_register(out, form, number, register, is_in(set, register))?;
    }
    Ok(())
}

/// Appends the declarations of the flags of a set, of which the one with the highest number comes first.
fn declare_flags(out: &mut String, form: Layout, number: u32, set: u8) -> Result<(), AllocError>
    ensures { OnOk result (string_bytes out.new ≡ string_bytes out.old
        ++ commands_text (commands.declarations (commands.word_sort (Atom (codes "1"))) (map (of_given number)
        (changed_flags (filter (is_in set) (from_to 0 4)) (layout_of form).flags)))) }
{
    let count = form.flag_count();
    for place in 0..count {
        let flag = count - 1 - place;
        declare_flag(out, form, number, flag, is_in(u32::from(set), flag))?;
    }
    Ok(())
}

/// Whether a contract may write bytes.
fn writes_some(contract: &Contract) -> bool
    ensures { result ≡ writes_some (contract_of contract.now).writes }
{
    match contract.writes.first() {
        None => false,
        Some(_) => true,
    }
}

/// Appends the declarations of what the step of a contract is given at the point of a number.
fn declare_given(
    out: &mut String,
    form: Layout,
    number: u32,
    contract: &Contract,
) -> Result<(), AllocError>
    ensures { OnOk result (string_bytes out.new
        ≡ string_bytes out.old ++ commands_text (commands.given_declarations (layout_of form) number (given_of (contract_of contract.now)))) }
{
    declare_registers(out, form, number, contract.registers)?;
    declare_flags(out, form, number, contract.flags)?;
    declare_memory(out, number, writes_some(contract))
}

/// Appends the declarations of what is given at the point of a number, where this is done.
fn declare_step(
    out: &mut String,
    unrolled: &Unrolled,
    number: u32,
    deed: Deed,
) -> Result<(), AllocError>
    ensures { OnOk result (string_bytes out.new ≡ string_bytes out.old
        ++ commands_text (commands.given_declarations (layout_of unrolled.now.form) number (given_by unrolled.now deed))) }
{
    let contract = match deed {
        Deed::Row => return Ok(()),
        Deed::Arrival => return Ok(()),
        Deed::Contract(contract) => contract,
    };
    if contract >= unrolled.stepped.len() {
        return Ok(());
    }
    declare_given(out, unrolled.form, number, &unrolled.stepped[contract])
}

/// Appends the declarations of what the contract steps of all points are given.
fn declare_steps(out: &mut String, unrolled: &Unrolled, numbers: &[u32]) -> Result<(), AllocError>
    requires { length numbers.now ≡ length unrolled.now.points.items }
    ensures { OnOk result (string_bytes out.new ≡ string_bytes out.old
        ++ commands_text (commands.all_given (layout_of unrolled.now.form) numbers.now (givens_of unrolled.now))) }
{
    for place in 0..unrolled.points.len() {
        declare_step(out, unrolled, numbers[place], unrolled.points[place].deed)?;
    }
    Ok(())
}

/// Appends them where contract steps are told from rows, and else nothing.
pub fn declare_gifts(
    out: &mut String,
    unrolled: &Unrolled,
    steps: bool,
    numbers: &[u32],
) -> Result<(), AllocError>
    requires { length numbers.now ≡ length unrolled.now.points.items }
    ensures { OnOk result (string_bytes out.new ≡ string_bytes out.old
        ++ commands_text (commands.all_given (layout_of unrolled.now.form) numbers.now (if steps then givens_of unrolled.now else []))) }
{
    if !steps {
        return Ok(());
    }
    declare_steps(out, unrolled, numbers)
}
