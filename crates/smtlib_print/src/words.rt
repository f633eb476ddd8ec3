//! Constants, numbers and names.
ghost use Rattle.std.specs.Prelude.{◌≡◌, ◌≤◌, ◌<◌, ◌+◌, ◌-◌, ◌^◌, ◌++◌, ◌∷◌, ℕ, [], codes, length, string_bytes, slice_index_or, OnOk};
ghost use Rattle.word_spec.specs.Texts.{hex_digit, hex_digits};
ghost use Rattle.word_spec.specs.Profiles.{V4};
ghost use Rattle.word_spec.specs.Memory.{Little};
ghost use Rattle.machine_spec.specs.StateText.{arm_layout};
ghost use Rattle.start_value.specs.Starts.{layout_of};
ghost use Rattle.smtlib_print.specs.Commands as commands;
ghost use Rattle.smtlib_print.specs.Commands.{binary_digits, constant_text, memory_in, memory_name, name_in, part_name, part_prefix, prefix_in};
ghost use Rattle.frame_spec.specs.FrameScripts.{given_prefix};
ghost use Rattle.smtlib_print.specs.Printable.{HasSymbols};
ghost use Rattle.smtlib_print.specs.Written.{written};

use start_value::Layout;
use std::alloc::AllocError;

/// A hexadecimal digit in lower case.
fn hex_digit_text(digit: u64) -> &'static str
    requires { digit < 16 }
    ensures { result.now ≡ hex_digit digit ∷ [] }
{
    match digit {
        0 => "0",
        1 => "1",
        2 => "2",
        3 => "3",
        4 => "4",
        5 => "5",
        6 => "6",
        7 => "7",
        8 => "8",
        9 => "9",
        10 => "a",
        11 => "b",
        12 => "c",
        13 => "d",
        14 => "e",
        _ => "f",
    }
}

/// Appends the lowest hexadecimal digits of a number.
fn push_hex(out: &mut String, count: u8, value: u64) -> Result<(), AllocError>
    ensures { OnOk result (string_bytes out.new ≡ string_bytes out.old ++ hex_digits count value) }
{
    if count == 0 {
        return Ok(());
    }
    push_hex(out, count - 1, value / 16)?;
    out.push_str(hex_digit_text(value % 16))
}

/// Appends the lowest binary digits of a number.
fn push_binary(out: &mut String, count: u8, value: u64) -> Result<(), AllocError>
    ensures { OnOk result (string_bytes out.new ≡ string_bytes out.old ++ binary_digits count value) }
{
    if count == 0 {
        return Ok(());
    }
    push_binary(out, count - 1, value / 2)?;
    let digit = value % 2;
    write!(out, "{digit}")
}

/// The largest number of a width.
pub fn ones(width: u8) -> u64
    requires some { 1 ≤ width }
    requires few { width ≤ 64 }
    ensures { result ≡ 2 ^ width - 1 }
{
    u64::MAX >> (64 - width)
}

/// Appends a constant of a width.
pub fn push_constant(out: &mut String, width: u8, value: u64) -> Result<(), AllocError>
    ensures { OnOk result (string_bytes out.new ≡ string_bytes out.old ++ constant_text width value) }
{
    if width % 4 == 0 {
        out.push_str("#x")?;
        return push_hex(out, width / 4, value);
    }
    out.push_str("#b")?;
    push_binary(out, width, value)
}

/// Appends an address.
pub fn push_address(out: &mut String, address: u32) -> Result<(), AllocError>
    ensures { OnOk result (string_bytes out.new ≡ string_bytes out.old ++ written (commands.address address)) }
{
    out.push_str("#x")?;
    push_hex(out, 8, address as u64)
}

/// Appends a byte.
pub fn push_byte(out: &mut String, value: u8) -> Result<(), AllocError>
    ensures { OnOk result (string_bytes out.new ≡ string_bytes out.old ++ written (commands.byte value)) }
{
    out.push_str("#x")?;
    push_hex(out, 2, value as u64)
}

/// Appends what symbols of a part begin with: nothing where it is the entry's, which is 0, and `h_` where it is the head's.
fn push_part(out: &mut String, part: u32) -> Result<(), AllocError>
    ensures { OnOk result (string_bytes out.new ≡ string_bytes out.old ++ part_prefix part) }
{
    if part == 0 {
        return Ok(());
    }
    out.push_str("h_")
}

/// Appends what symbols of what the contract step of the point of a number is given begin with.
pub fn push_given_prefix(out: &mut String, number: u32) -> Result<(), AllocError>
    ensures { OnOk result (string_bytes out.new ≡ string_bytes out.old ++ given_prefix number) }
{
    write!(out, "g{number}_")
}

/// Appends what symbols of any part begin with; that of what the contract step of a place is given is two above the place, whose point has a number.
fn push_prefix(out: &mut String, numbers: &[u32], part: u32) -> Result<(), AllocError>
    requires { HasSymbols (length numbers.now) part }
    ensures { OnOk result (string_bytes out.new ≡ string_bytes out.old ++ prefix_in numbers.now part) }
{
    if part < 2 {
        return push_part(out, part);
    }
    let place = part as usize - 2;
    push_given_prefix(out, numbers[place])
}

/// Appends the name of a register.
pub fn push_register_name(out: &mut String, form: Layout, register: u8) -> Result<(), AllocError>
    requires first { (layout_of form).first ≤ register }
    requires last { register < (layout_of form).first + length (layout_of form).registers }
    ensures { OnOk result (string_bytes out.new ≡ string_bytes out.old ++ slice_index_or (layout_of form).registers (register - (layout_of form).first) []) }
{
    match form {
        Layout::Rv32 { .. } => write!(out, "x{register}"),
        Layout::Arm { .. } => write!(out, "r{register}"),
    }
}

/// The name of a flag of ARM.
fn arm_flag(flag: u8) -> &'static str
    requires { flag < 4 }
    ensures { result.now ≡ slice_index_or (arm_layout Little V4).flags (3 - flag) [] }
{
    match flag {
        0 => "V",
        1 => "C",
        2 => "Z",
        _ => "N",
    }
}

/// The name of a flag.
pub fn flag_name(form: Layout, flag: u8) -> &'static str
    requires { flag < length (layout_of form).flags }
    ensures { result.now ≡ slice_index_or (layout_of form).flags (length (layout_of form).flags - 1 - flag) [] }
{
    match form {
        Layout::Rv32 { .. } => unreachable!(),
        Layout::Arm { .. } => arm_flag(flag),
    }
}

/// Appends the symbol of a register of the entry's part or the head's.
pub fn push_register(
    out: &mut String,
    form: Layout,
    part: u32,
    register: u8,
) -> Result<(), AllocError>
    requires first { (layout_of form).first ≤ register }
    requires last { register < (layout_of form).first + length (layout_of form).registers }
    ensures { OnOk result (string_bytes out.new
        ≡ string_bytes out.old ++ part_name part (slice_index_or (layout_of form).registers (register - (layout_of form).first) [])) }
{
    push_part(out, part)?;
    push_register_name(out, form, register)
}

/// Appends the symbol of a flag of the entry's part or the head's.
pub fn push_flag(out: &mut String, form: Layout, part: u32, flag: u8) -> Result<(), AllocError>
    requires { flag < length (layout_of form).flags }
    ensures { OnOk result (string_bytes out.new
        ≡ string_bytes out.old ++ part_name part (slice_index_or (layout_of form).flags (length (layout_of form).flags - 1 - flag) [])) }
{
    push_part(out, part)?;
    out.push_str(flag_name(form, flag))
}

/// Appends the symbol of the memory of the entry's part or the head's.
pub fn push_memory(out: &mut String, part: u32) -> Result<(), AllocError>
    ensures { OnOk result (string_bytes out.new ≡ string_bytes out.old ++ memory_name part) }
{
    push_part(out, part)?;
    out.push_str("mem")
}

/// Appends the symbol of a register of any part.
pub fn push_register_in(
    out: &mut String,
    form: Layout,
    numbers: &[u32],
    part: u32,
    register: u8,
) -> Result<(), AllocError>
    requires part { HasSymbols (length numbers.now) part }
    requires first { (layout_of form).first ≤ register }
    requires last { register < (layout_of form).first + length (layout_of form).registers }
    ensures { OnOk result (string_bytes out.new
        ≡ string_bytes out.old ++ name_in numbers.now part (slice_index_or (layout_of form).registers (register - (layout_of form).first) [])) }
{
    push_prefix(out, numbers, part)?;
    push_register_name(out, form, register)
}

/// Appends the symbol of a flag of any part.
pub fn push_flag_in(
    out: &mut String,
    form: Layout,
    numbers: &[u32],
    part: u32,
    flag: u8,
) -> Result<(), AllocError>
    requires part { HasSymbols (length numbers.now) part }
    requires flag { flag < length (layout_of form).flags }
    ensures { OnOk result (string_bytes out.new
        ≡ string_bytes out.old ++ name_in numbers.now part (slice_index_or (layout_of form).flags (length (layout_of form).flags - 1 - flag) [])) }
{
    push_prefix(out, numbers, part)?;
    out.push_str(flag_name(form, flag))
}

/// Appends the symbol of the memory of any part.
pub fn push_memory_in(out: &mut String, numbers: &[u32], part: u32) -> Result<(), AllocError>
    requires { HasSymbols (length numbers.now) part }
    ensures { OnOk result (string_bytes out.new ≡ string_bytes out.old ++ memory_in numbers.now part) }
{
    push_prefix(out, numbers, part)?;
    out.push_str("mem")
}
