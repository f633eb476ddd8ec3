//! What registers and flags are called.
ghost use Rattle.std.specs.Prelude.{◌≡◌, ◌++◌, ◌∷◌, [], IfOk, OnOk, map, slice_index_or};
ghost use Rattle.machine_spec.specs.BilText.{flag_text};
ghost use Rattle.trace_texts_spec.specs.Names.{numbered, register_name, register_names};
ghost use Rattle.value_steps.specs.Called.{names_of};

use start_value::Layout;
use state_text::{is_word, push_number, push_text};
use std::alloc::{AllocError, Global};

/// The registers of RV32 (RISC-V Unprivileged ISA 20191213, chapter 25).
const RV_REGISTERS: [&[u8]; 32] = [
    b"zero", b"ra", b"sp", b"gp", b"tp", b"t0", b"t1", b"t2", b"s0", b"s1", b"a0", b"a1", b"a2",
    b"a3", b"a4", b"a5", b"a6", b"a7", b"s2", b"s3", b"s4", b"s5", b"s6", b"s7", b"s8", b"s9",
    b"s10", b"s11", b"t3", b"t4", b"t5", b"t6",
];

/// The registers of ARM (ARM Architecture Reference Manual, section A2.4).
const ARM_REGISTERS: [&[u8]; 15] = [
    b"r0", b"r1", b"r2", b"r3", b"r4", b"r5", b"r6", b"r7", b"r8", b"r9", b"r10", b"r11", b"r12",
    b"sp", b"lr",
];

/// The names of registers by their numbers.
#[tactic(auto, unfolding(trace_texts_spec::specs::Names::rv_registers, trace_texts_spec::specs::Names::arm_registers))]
fn registers(layout: Layout) -> &'static [&'static [u8]]
    ensures { map (λ name. name.now) result.now ≡ (names_of layout).registers }
{
    match layout {
        Layout::Rv32 { .. } => &RV_REGISTERS,
        Layout::Arm { .. } => &ARM_REGISTERS,
    }
}

/// The letter in front of a register's number.
fn letter(layout: Layout) -> u8
    ensures { result ≡ (names_of layout).letter }
{
    match layout {
        Layout::Rv32 { .. } => b'x',
        Layout::Arm { .. } => b'r',
    }
}

/// The name of a flag, by its number: N 3, Z 2, C 1 and V 0; of a greater number that of N.
pub fn flag_name(number: u32) -> &'static [u8]
    ensures { result.now ≡ flag_text number }
{
    match number {
        0 => b"V",
        1 => b"C",
        2 => b"Z",
        _ => b"N",
    }
}

/// The name at a place, or none.
fn name_at(names: &'static [&'static [u8]], place: usize) -> &'static [u8]
    ensures { result.now ≡ slice_index_or (map (λ name. name.now) names.now) place [] }
{
    if place >= names.len() {
        return b"";
    }
    names[place]
}

/// Appends the name that notes give a register, or nothing where the machine has none of the number. What an `Err` leaves is open.
pub fn push_register(out: &mut Vec<u8>, layout: Layout, r: u32) -> Result<(), AllocError>
    ensures { OnOk result (out.new.items ≡ out.old.items ++ register_name (names_of layout) r) }
{
    push_text(out, name_at(registers(layout), r as usize))
}

/// The letter of the machine with a register's number.
fn numbered(alloc: Global, layout: Layout, r: u32) -> Result<Vec<u8>, AllocError>
    ensures { IfOk result (λ v. v.items ≡ numbered (names_of layout) r) }
{
    let mut out = Vec::new(alloc);
    out.push(letter(layout))?;
    push_number(alloc, &mut out, r as u64)?;
    Ok(out)
}

/// Appends the name that notes give a register, and behind it the letter with its number where that is another name, as `a0 x10`. What an `Err` leaves is open.
pub fn push_register_names(
    alloc: Global,
    out: &mut Vec<u8>,
    layout: Layout,
    r: u32,
) -> Result<(), AllocError>
    ensures { OnOk result (out.new.items ≡ out.old.items ++ register_names (names_of layout) r) }
{
    push_register(out, layout, r)?;
    let other = numbered(alloc, layout, r)?;
    if is_word(name_at(registers(layout), r as usize), &other) {
        return Ok(());
    }
    push_text(out, b" ")?;
    push_text(out, &other)?;
    Ok(())
}
